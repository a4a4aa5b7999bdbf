ghost use Rattle.std.specs.Prelude.{◌≡◌, Bool, List, [], ◌∷◌, IfOk, length, map};
ghost use Rattle.dy_recipe.specs.Moves as moves;
ghost use Rattle.dy_recipe.specs.Meaning.{move_of, recipe_of};
ghost use Rattle.dy_recipe.specs.Trimming as trims;
ghost use Rattle.dy_recipe.specs.Trimming.{numbers_of, KeepsValue, EachIsNeeded, IsTrimmed};
ghost use Rattle.dy_recipe.specs.MirrorTrimming as mirror;
ghost use Rattle.dy_recipe.specs.MirrorTrimming.{Marks, AreClosed};

use crate::moves::{Move, Recipe};
use dy_term::Memory;
use sqlite_items::Items;
use std::alloc::Global;

/// The numbers by which a move names earlier ones. Of the three, those that it does not have are 0.
fn numbers_of(step: &Move) -> [u32; 3]
    ensures { result ≡ numbers_of (move_of step.now) }
{
    match step {
        Move::Message(_)
        | Move::Cert(_)
        | Move::Forge(_)
        | Move::State(_, _)
        | Move::Lit(_)
        | Move::Name(_) => [0, 0, 0],
        Move::Pk(a)
        | Move::Vk(a)
        | Move::Hash(a)
        | Move::Fst(a)
        | Move::Snd(a)
        | Move::Ad(a)
        | Move::Body(a) => [*a, 0, 0],
        Move::Pair(a, b)
        | Move::Penc(a, b)
        | Move::Sign(a, b)
        | Move::Mac(a, b)
        | Move::Kdf(a, _, b)
        | Move::Pdec(a, b)
        | Move::Adec(a, b) => [*a, *b, 0],
        Move::Aead(a, b, c) => [*a, *b, *c],
    }
}

/// Marks the move of this number, if it is one of so many.
fn mark(marks: &mut Vec<bool>, number: usize, most: usize)
    ensures { Marks marks.old.items marks.new.items most (number ∷ []) }
{
    if number == 0 {
        return;
    }
    if number > most {
        return;
    }
    if number > marks.len() {
        return;
    }
    marks[number - 1] = true;
}

/// Marks what the move at this place names of the moves before it.
fn mark_named(marks: &mut Vec<bool>, step: &Move, place: usize)
    ensures { Marks marks.old.items marks.new.items place (numbers_of (move_of step.now)) }
{
    let [a, b, c] = numbers_of(step);
    mark(marks, a as usize, place);
    mark(marks, b as usize, place);
    mark(marks, c as usize, place);
}

/// Which moves are needed: the last one, and those that a needed one names.
fn marks(alloc: Global, moves: &[Move]) -> Result<Vec<bool>, Memory>
    ensures { IfOk result (λ marks. AreClosed (map move_of moves.now) marks.items) }
{
    let mut marks = vec![in alloc; false; moves.len()]?;
    mark(&mut marks, moves.len(), moves.len());
    let mut left = moves.len();
    while left > 0 {
        left -= 1;
        if marks[left] {
            mark_named(&mut marks, &moves[left], left);
        }
    }
    Ok(marks)
}

/// The number that a kept move has now, or 0.
fn new_number(numbers: &[u32], number: u32) -> u32
    ensures { result ≡ trims.new_number numbers.now number }
{
    if number == 0 {
        return 0;
    }
    match numbers.get(number as usize - 1) {
        Some(new) => *new,
        None => 0,
    }
}

/// The move with the new numbers.
fn renumber(step: &Move, numbers: &[u32]) -> Move
    ensures { move_of result ≡ trims.renumber (trims.new_number numbers.now) (move_of step.now) }
{
    match step {
        Move::Message(_)
        | Move::Cert(_)
        | Move::Forge(_)
        | Move::State(_, _)
        | Move::Lit(_)
        | Move::Name(_) => step.copy(),
        Move::Pair(a, b) => Move::Pair(new_number(numbers, *a), new_number(numbers, *b)),
        Move::Pk(a) => Move::Pk(new_number(numbers, *a)),
        Move::Vk(a) => Move::Vk(new_number(numbers, *a)),
        Move::Penc(a, b) => Move::Penc(new_number(numbers, *a), new_number(numbers, *b)),
        Move::Aead(a, b, c) => Move::Aead(
            new_number(numbers, *a),
            new_number(numbers, *b),
            new_number(numbers, *c),
        ),
        Move::Sign(a, b) => Move::Sign(new_number(numbers, *a), new_number(numbers, *b)),
        Move::Mac(a, b) => Move::Mac(new_number(numbers, *a), new_number(numbers, *b)),
        Move::Kdf(a, context, b) => Move::Kdf(
            new_number(numbers, *a),
            context.copy(),
            new_number(numbers, *b),
        ),
        Move::Hash(a) => Move::Hash(new_number(numbers, *a)),
        Move::Fst(a) => Move::Fst(new_number(numbers, *a)),
        Move::Snd(a) => Move::Snd(new_number(numbers, *a)),
        Move::Pdec(a, b) => Move::Pdec(new_number(numbers, *a), new_number(numbers, *b)),
        Move::Adec(a, b) => Move::Adec(new_number(numbers, *a), new_number(numbers, *b)),
        Move::Ad(a) => Move::Ad(new_number(numbers, *a)),
        Move::Body(a) => Move::Body(new_number(numbers, *a)),
    }
}

fn as_number(count: usize) -> Result<u32, Memory>
    ensures { IfOk result (λ number. number ≡ count) }
{
    match u32::try_from(count) {
        Ok(number) => Ok(number),
        Err(_) => Err(Memory),
    }
}

/// Keeps a move, with new numbers, if it is marked.
fn keep(
    kept: &mut Items<Move>,
    numbers: &mut Vec<u32>,
    step: &Move,
    marked: bool,
) -> Result<(), Memory>
    ensures { IfOk result (λ _. (more : List moves.Move) (marks : List Bool) →
        mirror.kept_moves numbers.old.items (map move_of kept.old) (move_of step.now ∷ more) (marked ∷ marks)
        ≡ mirror.kept_moves numbers.new.items (map move_of kept.new) more marks) }
{
    if !marked {
        numbers.push(0)?;
        return Ok(());
    }
    kept.push(renumber(step, numbers))?;
    numbers.push(as_number(kept.len())?)?;
    Ok(())
}

/// The moves that are marked, with new numbers.
fn kept_moves(alloc: Global, moves: &[Move], marks: &[bool]) -> Result<Items<Move>, Memory>
    requires { length marks.now ≡ length moves.now }
    ensures { IfOk result (λ made. map move_of made ≡ mirror.kept_moves [] [] (map move_of moves.now) marks.now) }
{
    let mut kept = Items::new(alloc);
    let mut numbers = Vec::with_capacity(alloc, moves.len())?;
    for (place, step) in moves.iter().enumerate() {
        keep(&mut kept, &mut numbers, step, marks[place])?;
    }
    Ok(kept)
}

/// The recipe without the moves that its last one does not need. The last move is kept, and so is each that a later
/// kept one names. They stay in order, and get new numbers. Where the recipe has a value, it is also that of what is
/// kept. The one refusal is out of memory, which it also is where a number takes more than 32 bits.
pub fn trim(alloc: Global, recipe: &Recipe) -> Result<Recipe, Memory>
    ensures value { IfOk result (λ made. KeepsValue (recipe_of recipe.now) (recipe_of made)) }
    ensures needed { IfOk result (λ made. EachIsNeeded (recipe_of made)) }
    ensures moves { IfOk result (λ made. IsTrimmed (recipe_of recipe.now) (recipe_of made)) }
{
    let moves = recipe.moves.as_slice();
    let marks = marks(alloc, moves)?;
    Ok(Recipe {
        moves: kept_moves(alloc, moves, &marks)?,
    })
}
