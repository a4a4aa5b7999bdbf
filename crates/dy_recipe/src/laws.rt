ghost use Rattle.std.specs.Prelude.{◌≡◌, Some, List};
ghost use Rattle.dy_term.specs.Terms.{Term};
ghost use Rattle.dy_recipe.specs.Moves.{Move, Leaves};
ghost use Rattle.dy_recipe.specs.Values.{recipe_value};
ghost use Rattle.dy_recipe.specs.Places.{HasValue};

/// A recipe has a value exactly where each of its moves has one over the values of all earlier moves. It is that of
/// the last move. So a recipe that is empty has none.
pub fn value_by_places()
    ensures places { (leaves : Leaves) (moves : List Move) (value : Term) →
        recipe_value leaves moves ≡ Some value → HasValue leaves moves value }
    ensures value { (leaves : Leaves) (moves : List Move) (value : Term) →
        HasValue leaves moves value → recipe_value leaves moves ≡ Some value }
{}
