ghost use Rattle.std.specs.Prelude.{◌≡◌, [], ◌+◌, IfOk, nat_le, min, option_map};
ghost use Rattle.dy_term.specs.Terms.{size};
ghost use Rattle.std.specs.Option.{option_copied};
ghost use Rattle.dy_flat.specs.Views.{tree_of};
ghost use Rattle.dy_flat.specs.PartMeaning.{part_of};
ghost use Rattle.dy_recipe.specs.Moves.{Forge};
ghost use Rattle.dy_recipe.specs.Values.{value_at, made_by};
ghost use Rattle.dy_recipe.specs.Meaning.{move_of};
ghost use Rattle.dy_recipe.specs.LentMeaning.{term_of_lent};

use crate::given::Given;
use crate::moves::Move;
use dy_flat::{
    FlatTerm, View, aead, aead_message, copy_of, data_part, first, hash, kdf, lit, mac, name,
    nodes, nonce, pair, penc, penc_message, pk, second, sign, signed_message, vk,
};
use dy_term::limits::MAX_NODES;
use dy_term::{Memory, Text, Word};
use std::alloc::Global;

/// What a move makes its value of: a term that is lent, whole or as a part, or a constructor and its parts.
#[derive(Clone, Copy)]
pub(crate) enum Lent<'a> {
    Whole(&'a FlatTerm),
    Part(View<'a>),
    Lit(&'a Text),
    Name(&'a Word),
    Nonce(u32),
    Pair(View<'a>, View<'a>),
    Pk(View<'a>),
    Vk(View<'a>),
    Penc(View<'a>, View<'a>),
    Aead(View<'a>, View<'a>, View<'a>),
    Sign(View<'a>, View<'a>),
    Mac(View<'a>, View<'a>),
    Kdf(View<'a>, &'a Text, View<'a>),
    Hash(View<'a>),
}

/// The value that a number names, counted from 1.
fn value_at(values: &[FlatTerm], number: u32) -> Option<View<'_>>
    ensures { part_of result ≡ value_at values.now number }
{
    if number == 0 {
        return None;
    }
    match values.get(number as usize - 1) {
        Some(value) => Some(value.whole()),
        None => None,
    }
}

/// The nonce that an entry forged.
fn forged_nonce<'a, G: Given>(index: u32, given: &G) -> Option<Lent<'a>>
    ensures { option_map term_of_lent result ≡ made_by (G.leaves given.now) [] (Forge index) }
{
    if given.is_forge(index) {
        Some(Lent::Nonce(index))
    } else {
        None
    }
}

/// A part, if there is one.
fn as_part<'a>(part: Option<View<'a>>) -> Option<Lent<'a>>
    ensures { option_map term_of_lent result ≡ part_of part.entry }
{
    Some(Lent::Part(part?))
}

/// What a move makes its value of, over the values of the earlier moves. `None` exactly where it has no value of
/// any size.
pub(crate) fn lent_by<'a, G: Given>(
    step: &'a Move,
    values: &'a [FlatTerm],
    given: &'a G,
) -> Option<Lent<'a>>
    ensures { option_map term_of_lent result ≡ made_by (G.leaves given.now) values.now (move_of step.now) }
{
    match step {
        Move::Message(_) | Move::Cert(_) | Move::State(_, _) => {
            Some(Lent::Whole(given.value(step)?))
        }
        Move::Forge(index) => forged_nonce(*index, given),
        Move::Lit(text) => Some(Lent::Lit(text)),
        Move::Name(principal) => Some(Lent::Name(principal)),
        Move::Pair(a, b) => Some(Lent::Pair(value_at(values, *a)?, value_at(values, *b)?)),
        Move::Pk(a) => Some(Lent::Pk(value_at(values, *a)?)),
        Move::Vk(a) => Some(Lent::Vk(value_at(values, *a)?)),
        Move::Penc(a, b) => Some(Lent::Penc(value_at(values, *a)?, value_at(values, *b)?)),
        Move::Aead(a, b, c) => Some(Lent::Aead(
            value_at(values, *a)?,
            value_at(values, *b)?,
            value_at(values, *c)?,
        )),
        Move::Sign(a, b) => Some(Lent::Sign(value_at(values, *a)?, value_at(values, *b)?)),
        Move::Mac(a, b) => Some(Lent::Mac(value_at(values, *a)?, value_at(values, *b)?)),
        Move::Kdf(a, context, b) => Some(Lent::Kdf(
            value_at(values, *a)?,
            context,
            value_at(values, *b)?,
        )),
        Move::Hash(a) => Some(Lent::Hash(value_at(values, *a)?)),
        Move::Fst(a) => as_part(first(value_at(values, *a)?)),
        Move::Snd(a) => as_part(second(value_at(values, *a)?)),
        Move::Pdec(a, key) => as_part(penc_message(value_at(values, *a)?, value_at(values, *key)?)),
        Move::Adec(a, key) => as_part(aead_message(value_at(values, *a)?, value_at(values, *key)?)),
        Move::Ad(a) => as_part(data_part(value_at(values, *a)?)),
        Move::Body(a) => as_part(signed_message(value_at(values, *a)?)),
    }
}

/// How many nodes a term of one part has, or more than 1,024 where it has more.
fn nodes_of_one(a: View) -> u32
    ensures { nat_le result MAX_NODES ≡ nat_le (1 + size (tree_of a.entry)) MAX_NODES }
{
    1 + nodes(a)
}

/// The same, for two parts.
fn nodes_of_two(a: View, b: View) -> u32
    ensures { nat_le result MAX_NODES ≡ nat_le (1 + size (tree_of a.entry) + size (tree_of b.entry)) MAX_NODES }
{
    1 + nodes(a) + nodes(b)
}

/// The same, for three parts.
fn nodes_of_three(a: View, b: View, c: View) -> u32
    ensures { nat_le result MAX_NODES
        ≡ nat_le (1 + size (tree_of a.entry) + size (tree_of b.entry) + size (tree_of c.entry)) MAX_NODES }
{
    1 + nodes(a) + nodes(b) + nodes(c)
}

/// The same, for any term.
fn nodes_of(lent: Lent) -> u32
    ensures { nat_le result MAX_NODES ≡ nat_le (size (term_of_lent lent.entry)) MAX_NODES }
{
    match lent {
        Lent::Whole(term) => nodes(term.whole()),
        Lent::Part(part) => nodes(part),
        Lent::Lit(_) => 1,
        Lent::Name(_) => 1,
        Lent::Nonce(_) => 1,
        Lent::Pk(a) => nodes_of_one(a),
        Lent::Vk(a) => nodes_of_one(a),
        Lent::Hash(a) => nodes_of_one(a),
        Lent::Pair(a, b) => nodes_of_two(a, b),
        Lent::Penc(a, b) => nodes_of_two(a, b),
        Lent::Sign(a, b) => nodes_of_two(a, b),
        Lent::Mac(a, b) => nodes_of_two(a, b),
        Lent::Kdf(a, _, b) => nodes_of_two(a, b),
        Lent::Aead(a, b, c) => nodes_of_three(a, b, c),
    }
}

/// Whether a term has at most 1,024 nodes.
pub(crate) fn is_small(lent: Lent) -> bool
    ensures { result ≡ nat_le (size (term_of_lent lent.entry)) MAX_NODES }
{
    nodes_of(lent) <= MAX_NODES
}

/// The term, in memory of its own. The one refusal is out of memory.
pub(crate) fn build(alloc: Global, lent: Lent) -> Result<FlatTerm, Memory>
    ensures { IfOk result (λ made. made ≡ term_of_lent lent.entry) }
{
    match lent {
        Lent::Whole(term) => term.copy(alloc),
        Lent::Part(part) => copy_of(alloc, part),
        Lent::Lit(text) => lit(alloc, text),
        Lent::Name(principal) => name(alloc, principal),
        Lent::Nonce(index) => nonce(alloc, index),
        Lent::Pair(a, b) => pair(alloc, a, b),
        Lent::Pk(a) => pk(alloc, a),
        Lent::Vk(a) => vk(alloc, a),
        Lent::Penc(a, b) => penc(alloc, a, b),
        Lent::Aead(a, b, c) => aead(alloc, a, b, c),
        Lent::Sign(a, b) => sign(alloc, a, b),
        Lent::Mac(a, b) => mac(alloc, a, b),
        Lent::Kdf(a, context, b) => kdf(alloc, a, context, b),
        Lent::Hash(a) => hash(alloc, a),
    }
}
