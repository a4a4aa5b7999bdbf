ghost use Rattle.std.specs.Prelude.{◌≡◌, [], IfOk, IsErr, IsSome, option_map, map};
ghost use Rattle.dy_recipe.specs.Values as values;
ghost use Rattle.dy_recipe.specs.Meaning.{move_of, recipe_of};

use crate::given::Given;
use crate::lent::{build, is_small, lent_by};
use crate::moves::{Move, Recipe};
use dy_flat::FlatTerm;
use dy_term::Memory;
use std::alloc::Global;

/// The value of a move over the values of the earlier moves. `None` exactly where it has none. The one refusal is out
/// of memory, and it comes only where there is a value.
fn move_value<G: Given>(
    alloc: Global,
    step: &Move,
    earlier: &[FlatTerm],
    given: &G,
) -> Result<Option<FlatTerm>, Memory>
    ensures value { IfOk result (λ value.
        value ≡ values.move_value (G.leaves given.now) earlier.now (move_of step.now)) }
    ensures memory { IsErr result → IsSome (values.move_value (G.leaves given.now) earlier.now (move_of step.now)) }
{
    match lent_by(step, earlier, given) {
        Some(lent) if is_small(lent) => Ok(Some(build(alloc, lent)?)),
        _ => Ok(None),
    }
}

/// The values of moves, in order. `None` exactly where a move has none.
fn move_values<G: Given>(
    alloc: Global,
    moves: &[Move],
    given: &G,
) -> Result<Option<Vec<FlatTerm>>, Memory>
    ensures { IfOk result (λ made.
        option_map (λ v. v.items) made ≡ values.move_values (G.leaves given.now) [] (map move_of moves.now)) }
{
    let mut made = Vec::new(alloc);
    for step in moves {
        let Some(value) = move_value(alloc, step, &made, given)? else {
            return Ok(None);
        };
        made.push(value)?;
    }
    Ok(Some(made))
}

/// The value of a recipe, which is that of its last move. Each move is taken over the values of all earlier ones.
/// `None` exactly where the recipe is empty or some move has no value. Such a move names no earlier move, a leaf is
/// not given, an operation does not apply, or the value has more than 1,024 nodes. The one refusal is out of memory.
pub fn apply<G: Given>(
    alloc: Global,
    recipe: &Recipe,
    given: &G,
) -> Result<Option<FlatTerm>, Memory>
    ensures { IfOk result (λ value. value ≡ values.recipe_value (G.leaves given.now) (recipe_of recipe.now)) }
{
    match move_values(alloc, recipe.moves.as_slice(), given)? {
        Some(mut made) => Ok(made.pop()),
        None => Ok(None),
    }
}
