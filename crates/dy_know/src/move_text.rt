//! The text of moves.
ghost use Rattle.std.specs.Prelude.{◌≡◌, ◌++◌, codes, IfOk};
ghost use Rattle.std.specs.List.{join_by};
ghost use Rattle.std.specs.Fmt.{decimal};
ghost use Rattle.dy_term.specs.Characters.{in_quotes};
ghost use Rattle.dy_recipe.specs.Meaning.{move_of, recipe_of};
ghost use Rattle.dy_know.specs.MoveText.{of_one, of_two, move_text, moves_text};

use dy_recipe::{Move, Recipe};
use dy_term::{Memory, Text, Word};
use std::alloc::Global;

pub(crate) fn put_number(alloc: Global, text: &mut Vec<u8>, number: u32) -> Result<(), Memory>
    ensures { IfOk result (λ _. text.new.items ≡ text.old.items ++ decimal number) }
{
    let digits = format!(in alloc; "{number}")?;
    Ok(text.extend_from_slice(digits.as_bytes())?)
}

/// Adds a text between quotes.
fn put_text(text: &mut Vec<u8>, literal: &Text) -> Result<(), Memory>
    ensures { IfOk result (λ _. text.new.items ≡ text.old.items ++ in_quotes literal.now) }
{
    text.extend_from_slice(b"\"")?;
    text.extend_from_slice(literal.as_bytes())?;
    Ok(text.extend_from_slice(b"\"")?)
}

/// Adds a letter and a number.
fn put_leaf(alloc: Global, text: &mut Vec<u8>, letter: &[u8], index: u32) -> Result<(), Memory>
    ensures { IfOk result (λ _. text.new.items ≡ text.old.items ++ letter.now ++ decimal index) }
{
    text.extend_from_slice(letter)?;
    put_number(alloc, text, index)
}

/// Adds an operation over one earlier move.
fn put_one(alloc: Global, text: &mut Vec<u8>, name: &[u8], a: u32) -> Result<(), Memory>
    ensures { IfOk result (λ _. text.new.items ≡ text.old.items ++ of_one name.now a) }
{
    text.extend_from_slice(name)?;
    text.extend_from_slice(b"(")?;
    put_number(alloc, text, a)?;
    Ok(text.extend_from_slice(b")")?)
}

/// Adds an operation over two earlier moves.
fn put_two(alloc: Global, text: &mut Vec<u8>, name: &[u8], a: u32, b: u32) -> Result<(), Memory>
    ensures { IfOk result (λ _. text.new.items ≡ text.old.items ++ of_two name.now a b) }
{
    text.extend_from_slice(name)?;
    text.extend_from_slice(b"(")?;
    put_number(alloc, text, a)?;
    text.extend_from_slice(b", ")?;
    put_number(alloc, text, b)?;
    Ok(text.extend_from_slice(b")")?)
}

/// Adds a field of a state.
fn put_field(alloc: Global, text: &mut Vec<u8>, index: u32, field: u32) -> Result<(), Memory>
    ensures { IfOk result (λ _. text.new.items
        ≡ text.old.items ++ codes "s" ++ decimal index ++ codes "." ++ decimal field) }
{
    put_leaf(alloc, text, b"s", index)?;
    put_leaf(alloc, text, b".", field)
}

fn put_name(text: &mut Vec<u8>, principal: &Word) -> Result<(), Memory>
    ensures { IfOk result (λ _. text.new.items ≡ text.old.items ++ codes "@" ++ principal.now) }
{
    text.extend_from_slice(b"@")?;
    Ok(text.extend_from_slice(principal.as_bytes())?)
}

/// Adds an authenticated encryption.
fn put_aead(alloc: Global, text: &mut Vec<u8>, a: u32, b: u32, c: u32) -> Result<(), Memory>
    ensures { IfOk result (λ _. text.new.items ≡ text.old.items
        ++ codes "aead(" ++ decimal a ++ codes ", " ++ decimal b ++ codes ", " ++ decimal c ++ codes ")") }
{
    text.extend_from_slice(b"aead(")?;
    put_number(alloc, text, a)?;
    text.extend_from_slice(b", ")?;
    put_number(alloc, text, b)?;
    text.extend_from_slice(b", ")?;
    put_number(alloc, text, c)?;
    Ok(text.extend_from_slice(b")")?)
}

/// Adds a key derivation.
fn put_kdf(
    alloc: Global,
    text: &mut Vec<u8>,
    key: u32,
    context: &Text,
    input: u32,
) -> Result<(), Memory>
    ensures { IfOk result (λ _. text.new.items ≡ text.old.items ++ codes "kdf(" ++ decimal key
        ++ codes ", " ++ in_quotes context.now ++ codes ", " ++ decimal input ++ codes ")") }
{
    text.extend_from_slice(b"kdf(")?;
    put_number(alloc, text, key)?;
    text.extend_from_slice(b", ")?;
    put_text(text, context)?;
    text.extend_from_slice(b", ")?;
    put_number(alloc, text, input)?;
    Ok(text.extend_from_slice(b")")?)
}

/// Adds a move.
fn put_move(alloc: Global, text: &mut Vec<u8>, step: &Move) -> Result<(), Memory>
    ensures { IfOk result (λ _. text.new.items ≡ text.old.items ++ move_text (move_of step.now)) }
{
    match step {
        Move::Message(index) => put_leaf(alloc, text, b"m", *index),
        Move::Cert(index) => put_leaf(alloc, text, b"c", *index),
        Move::Forge(index) => put_leaf(alloc, text, b"f", *index),
        Move::State(index, field) => put_field(alloc, text, *index, *field),
        Move::Lit(literal) => put_text(text, literal),
        Move::Name(principal) => put_name(text, principal),
        Move::Pair(a, b) => put_two(alloc, text, b"pair", *a, *b),
        Move::Pk(a) => put_one(alloc, text, b"pk", *a),
        Move::Vk(a) => put_one(alloc, text, b"vk", *a),
        Move::Penc(a, b) => put_two(alloc, text, b"penc", *a, *b),
        Move::Aead(a, b, c) => put_aead(alloc, text, *a, *b, *c),
        Move::Sign(a, b) => put_two(alloc, text, b"sign", *a, *b),
        Move::Mac(a, b) => put_two(alloc, text, b"mac", *a, *b),
        Move::Kdf(a, context, b) => put_kdf(alloc, text, *a, context, *b),
        Move::Hash(a) => put_one(alloc, text, b"hash", *a),
        Move::Fst(a) => put_one(alloc, text, b"fst", *a),
        Move::Snd(a) => put_one(alloc, text, b"snd", *a),
        Move::Pdec(a, key) => put_two(alloc, text, b"pdec", *a, *key),
        Move::Adec(a, key) => put_two(alloc, text, b"adec", *a, *key),
        Move::Ad(a) => put_one(alloc, text, b"ad", *a),
        Move::Body(a) => put_one(alloc, text, b"body", *a),
    }
}

/// Adds the moves, with a separator between.
fn put_each(alloc: Global, text: &mut Vec<u8>, moves: &[Move]) -> Result<(), Memory>
    ensures { IfOk result (λ _. text.new.items
        ≡ text.old.items ++ join_by (λ step. move_text (move_of step)) (codes "; ") moves.now) }
{
    let Some((first, more)) = moves.split_first() else {
        return Ok(());
    };
    put_move(alloc, text, first)?;
    for step in more {
        text.extend_from_slice(b"; ")?;
        put_move(alloc, text, step)?;
    }
    Ok(())
}

/// Adds the moves of a recipe.
pub(crate) fn put_moves(alloc: Global, text: &mut Vec<u8>, recipe: &Recipe) -> Result<(), Memory>
    ensures { IfOk result (λ _. text.new.items ≡ text.old.items ++ moves_text (recipe_of recipe.now)) }
{
    put_each(alloc, text, recipe.moves.as_slice())
}
