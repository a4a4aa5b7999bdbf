ghost use Rattle.std.specs.Prelude.{◌≡◌, IfOk};

use dy_term::{Memory, Text, Word};
use sqlite_items::Items;
use std::alloc::Global;

/// A step of a recipe. A leaf names an entry by its index, of a state also the field by its number, or is a literal
/// or a name. An operation names earlier moves by their numbers, counted from 1.
#[derive(Debug, Drop)]
pub enum Move {
    Message(u32),
    Cert(u32),
    Forge(u32),
    State(u32, u32),
    Lit(Text),
    Name(Word),
    Pair(u32, u32),
    Pk(u32),
    Vk(u32),
    Penc(u32, u32),
    Aead(u32, u32, u32),
    Sign(u32, u32),
    Mac(u32, u32),
    Kdf(u32, Text, u32),
    Hash(u32),
    Fst(u32),
    Snd(u32),
    /// What is encrypted to a public key, and the decryption key.
    Pdec(u32, u32),
    /// What is encrypted with a key, and that key.
    Adec(u32, u32),
    /// The associated data of an authenticated encryption.
    Ad(u32),
    /// The message of a signature.
    Body(u32),
}

/// Moves in order. The value of a recipe is that of its last move.
#[derive(Debug, Drop)]
pub struct Recipe {
    pub moves: Items<Move>,
}

impl Move {
    /// The same move.
    pub fn copy(&self) -> Move
        ensures { result ≡ self.now }
    {
        match self {
            Move::Message(index) => Move::Message(*index),
            Move::Cert(index) => Move::Cert(*index),
            Move::Forge(index) => Move::Forge(*index),
            Move::State(index, field) => Move::State(*index, *field),
            Move::Lit(text) => Move::Lit(text.copy()),
            Move::Name(principal) => Move::Name(principal.copy()),
            Move::Pair(a, b) => Move::Pair(*a, *b),
            Move::Pk(a) => Move::Pk(*a),
            Move::Vk(a) => Move::Vk(*a),
            Move::Penc(a, b) => Move::Penc(*a, *b),
            Move::Aead(a, b, c) => Move::Aead(*a, *b, *c),
            Move::Sign(a, b) => Move::Sign(*a, *b),
            Move::Mac(a, b) => Move::Mac(*a, *b),
            Move::Kdf(a, context, b) => Move::Kdf(*a, context.copy(), *b),
            Move::Hash(a) => Move::Hash(*a),
            Move::Fst(a) => Move::Fst(*a),
            Move::Snd(a) => Move::Snd(*a),
            Move::Pdec(a, key) => Move::Pdec(*a, *key),
            Move::Adec(a, key) => Move::Adec(*a, *key),
            Move::Ad(a) => Move::Ad(*a),
            Move::Body(a) => Move::Body(*a),
        }
    }
}

impl Recipe {
    /// The same recipe, in memory of its own. The one refusal is out of memory.
    pub fn copy(&self, alloc: Global) -> Result<Recipe, Memory>
        ensures { IfOk result (λ made. made ≡ self.now) }
    {
        let mut moves = Items::new(alloc);
        for step in self.moves.as_slice() {
            moves.push(step.copy())?;
        }
        Ok(Recipe { moves })
    }
}
