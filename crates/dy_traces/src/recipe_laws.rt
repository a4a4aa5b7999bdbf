ghost use Rattle.std.specs.Prelude.{◌≡◌, ◌≤◌, Some, List};
ghost use Rattle.dy_term.specs.Terms.{Term, size};
ghost use Rattle.dy_term.specs.declared.limits.TheConstants.{MAX_NODES};
ghost use Rattle.dy_entry.specs.Attacker.{Derives};
ghost use Rattle.dy_entry.specs.Entries.{Entry};
ghost use Rattle.dy_recipe.specs.Moves.{Move};
ghost use Rattle.dy_recipe.specs.Values.{recipe_value};
ghost use Rattle.dy_traces.specs.Given.{given_by};

use dy_term::sameness_is_equality;

/// The value of a recipe over a trace is derived by the attacker from it, and has at most 1,024 nodes.
pub fn a_recipe_gives_what_is_derived()
    ensures { (T : List Entry) (moves : List Move) (value : Term) →
        recipe_value (given_by T) moves ≡ Some value → Derives T value × (size value ≤ MAX_NODES) }
{
    sameness_is_equality();
}
