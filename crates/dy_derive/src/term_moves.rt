ghost use Rattle.std.specs.Prelude.{◌≡◌, ◌+◌, [], ◌∷◌, ◌++◌, List, length, map, option_map, IfOk, IfSome, OnOk};
ghost use Rattle.dy_term.specs.Meaning.{tree_of};
ghost use Rattle.dy_flat.specs.Parts.{parts_of};
ghost use Rattle.dy_recipe.specs.Meaning.{move_of};
ghost use Rattle.dy_derive.specs.Facts.{Fact};
ghost use Rattle.dy_derive.specs.Nodes.{IsTable};
ghost use Rattle.dy_derive.specs.MirrorTerms as mirror;
ghost use Rattle.dy_derive.specs.MirrorTerms.{HasNumber, HaveNumbers, IsAdded, Joins, Builds};

use crate::deductions::Deductions;
use crate::keys::{NameKey, TextKey};
use crate::nodes::Node;
use dy_recipe::Move;
use dy_term::{Memory, Term};

/// What is found of a term: its number, if it is a part of what was given, and the number of a move that gives it, if
/// it can be built.
#[derive(Clone, Copy)]
pub(crate) struct Found {
    node: Option<u32>,
    pub(crate) number: Option<u32>,
}

/// In the place of a part that a term does not have.
const NO_PART: Found = Found {
    node: None,
    number: None,
};

/// The node of a term over the numbers of its parts, where each of them has one.
fn node_over(term: &Term, a: Option<u32>, b: Option<u32>, c: Option<u32>) -> Option<Node>
    ensures { result ≡ mirror.node_over (tree_of term.now) a b c }
{
    Some(match term {
        Term::Lit(text) => Node::Lit(TextKey::new(text)),
        Term::Name(principal) => Node::Name(NameKey::new(principal)),
        Term::Nonce(index) => Node::Nonce(*index),
        Term::Pair(_, _) => Node::Pair(a?, b?),
        Term::Pk(_) => Node::Pk(a?),
        Term::Vk(_) => Node::Vk(a?),
        Term::Penc(_, _) => Node::Penc(a?, b?),
        Term::Aead(_, _, _) => Node::Aead(a?, b?, c?),
        Term::Sign(_, _) => Node::Sign(a?, b?),
        Term::Mac(_, _) => Node::Mac(a?, b?),
        Term::Kdf(_, context, _) => Node::Kdf(a?, TextKey::new(context), b?),
        Term::Hash(_) => Node::Hash(a?),
    })
}

/// The move that builds a term of its parts, where each of them has a move of this number. A nonce is not built.
fn move_over(term: &Term, a: Option<u32>, b: Option<u32>, c: Option<u32>) -> Option<Move>
    ensures { option_map move_of result ≡ mirror.move_over (tree_of term.now) a b c }
{
    Some(match term {
        Term::Lit(text) => Move::Lit(text.copy()),
        Term::Name(principal) => Move::Name(principal.copy()),
        Term::Nonce(_) => return None,
        Term::Pair(_, _) => Move::Pair(a?, b?),
        Term::Pk(_) => Move::Pk(a?),
        Term::Vk(_) => Move::Vk(a?),
        Term::Penc(_, _) => Move::Penc(a?, b?),
        Term::Aead(_, _, _) => Move::Aead(a?, b?, c?),
        Term::Sign(_, _) => Move::Sign(a?, b?),
        Term::Mac(_, _) => Move::Mac(a?, b?),
        Term::Kdf(_, context, _) => Move::Kdf(a?, context.copy(), b?),
        Term::Hash(_) => Move::Hash(a?),
    })
}

/// The number after so many, where it is below 2^32.
fn next_number(count: usize) -> Option<u32>
    ensures { IfSome result (λ number. number ≡ count + 1) }
{
    match u32::try_from(count) {
        Ok(count) => count.checked_add(1),
        Err(_) => None,
    }
}

/// Adds a move, and gives its number, counted from 1. It refuses a number of 2^32, as out of memory.
fn add_move(moves: &mut Vec<Move>, step: Move) -> Result<u32, Memory>
    ensures moves { OnOk result (map move_of moves.new.items ≡ map move_of moves.old.items ++ move_of step ∷ []) }
    ensures number { IfOk result (λ number. number ≡ length (map move_of moves.old.items) + 1) }
{
    let Some(number) = next_number(moves.len()) else {
        return Err(Memory);
    };
    moves.push(step)?;
    Ok(number)
}

/// Adds the move that builds a term of its parts, where each of them has a move of this number.
fn add_built(
    term: &Term,
    a: Option<u32>,
    b: Option<u32>,
    c: Option<u32>,
    moves: &mut Vec<Move>,
) -> Result<Option<u32>, Memory>
    ensures { IfOk result (λ number. IsAdded (map move_of moves.old.items) (map move_of moves.new.items)
        (mirror.move_over (tree_of term.now) a b c) number) }
{
    match move_over(term, a, b, c) {
        Some(step) => Ok(Some(add_move(moves, step)?)),
        None => Ok(None),
    }
}

impl Deductions {
    /// The number of a term, where its parts have these numbers.
    fn number_over(
        &self,
        term: &Term,
        a: Option<u32>,
        b: Option<u32>,
        c: Option<u32>,
    ) -> Option<u32>
        ensures { (facts : List Fact) → IsTable self.now.nodes.keys facts
            → HaveNumbers facts (parts_of (tree_of term.now)) (a ∷ b ∷ c ∷ [])
            → HasNumber facts (tree_of term.now) result }
    {
        self.find(&node_over(term, a, b, c)?)
    }

    /// The number of the move of a term that follows, counted from 1. It refuses a number of 2^32, as out of memory.
    fn log_number(&self, node: Option<u32>) -> Result<Option<u32>, Memory>
        ensures { IfOk result (λ number. number ≡ mirror.log_number self.now.chain.chain.log node) }
    {
        let Some(fact) = node else {
            return Ok(None);
        };
        match self.chain.chain.place(fact) {
            Some(place) => Ok(Some(place.checked_add(1).ok_or(Memory)?)),
            None => Ok(None),
        }
    }

    /// What is found of a term, where its parts were looked for. It adds the move that builds the term of its parts, if
    /// the term itself does not follow.
    fn join(
        &self,
        term: &Term,
        a: Found,
        b: Found,
        c: Found,
        moves: &mut Vec<Move>,
    ) -> Result<Found, Memory>
        ensures { IfOk result (λ found. Joins self.now (map move_of moves.old.items) (map move_of moves.new.items)
            (tree_of term.now) a b c found) }
    {
        let node = self.number_over(term, a.node, b.node, c.node);
        match self.log_number(node)? {
            Some(number) => Ok(Found {
                node,
                number: Some(number),
            }),
            None => {
                let number = add_built(term, a.number, b.number, c.number, moves)?;
                Ok(Found { node, number })
            }
        }
    }

    /// Looks for a term and its parts, and adds the moves that build it of what follows. It is as deep as the term.
    pub(crate) fn build(&self, term: &Term, moves: &mut Vec<Move>) -> Result<Found, Memory>
        ensures { IfOk result (λ found. Builds self.now (map move_of moves.old.items) (map move_of moves.new.items)
            (tree_of term.now) found) }
    {
        match term {
            Term::Lit(_) | Term::Name(_) | Term::Nonce(_) => {
                self.join(term, NO_PART, NO_PART, NO_PART, moves)
            }
            Term::Pk(part) | Term::Vk(part) | Term::Hash(part) => {
                let part = self.build(part, moves)?;
                self.join(term, part, NO_PART, NO_PART, moves)
            }
            Term::Pair(first, second)
            | Term::Penc(first, second)
            | Term::Sign(first, second)
            | Term::Mac(first, second)
            | Term::Kdf(first, _, second) => {
                let first = self.build(first, moves)?;
                let second = self.build(second, moves)?;
                self.join(term, first, second, NO_PART, moves)
            }
            Term::Aead(key, message, associated) => {
                let key = self.build(key, moves)?;
                let message = self.build(message, moves)?;
                let associated = self.build(associated, moves)?;
                self.join(term, key, message, associated, moves)
            }
        }
    }
}
