ghost use Rattle.std.specs.Prelude.{◌≡◌, ◌<◌, ◌^◌};
ghost use Rattle.dy_term.specs.Meaning.{tree_of};
ghost use Rattle.dy_term.specs.Terms as trees;
ghost use Rattle.dy_term.specs.Sameness.{is_same};

use crate::{Text, Word};

/// Bytes that protocols work on, as a tree.
#[derive(Debug, Drop)]
pub enum Term {
    Lit(Text),
    Name(Word),
    /// The nonce that the entry of this index made.
    Nonce(u32),
    Pair(Box<Term>, Box<Term>),
    /// The public key of a decryption key.
    Pk(Box<Term>),
    /// The verification key of a signing key.
    Vk(Box<Term>),
    /// Public-key encryption, to a key, of a message.
    Penc(Box<Term>, Box<Term>),
    /// Authenticated encryption, by a key, of a message with associated data.
    Aead(Box<Term>, Box<Term>, Box<Term>),
    Sign(Box<Term>, Box<Term>),
    Mac(Box<Term>, Box<Term>),
    /// The key that is derived from a key, with a context, from an input.
    Kdf(Box<Term>, Text, Box<Term>),
    Hash(Box<Term>),
}

/// The number of constructors of a term, which is below 2^32.
pub fn size(term: &Term) -> u32
    requires { trees.size (tree_of term.now) < 2 ^ 32 }
    ensures { result ≡ trees.size (tree_of term.now) }
{
    match term {
        Term::Lit(_) | Term::Name(_) | Term::Nonce(_) => 1,
        Term::Pk(key) | Term::Vk(key) | Term::Hash(key) => 1 + size(key),
        Term::Pair(first, second)
        | Term::Penc(first, second)
        | Term::Sign(first, second)
        | Term::Mac(first, second) => 1 + size(first) + size(second),
        Term::Aead(key, message, data) => 1 + size(key) + size(message) + size(data),
        Term::Kdf(key, _, input) => 1 + size(key) + size(input),
    }
}

/// Whether the two are the same term. `sameness_is_equality` says that they then are equal.
pub fn same(a: &Term, b: &Term) -> bool
    ensures { result ≡ is_same (tree_of a.now) (tree_of b.now) }
{
    match (a, b) {
        (Term::Lit(s), Term::Lit(t)) => s.same(t),
        (Term::Name(p), Term::Name(q)) => p.same(q),
        (Term::Nonce(i), Term::Nonce(j)) => i == j,
        (Term::Pk(k), Term::Pk(l)) => same(k, l),
        (Term::Vk(k), Term::Vk(l)) => same(k, l),
        (Term::Hash(m), Term::Hash(n)) => same(m, n),
        (Term::Pair(k, m), Term::Pair(l, n)) => same(k, l) && same(m, n),
        (Term::Penc(k, m), Term::Penc(l, n)) => same(k, l) && same(m, n),
        (Term::Sign(k, m), Term::Sign(l, n)) => same(k, l) && same(m, n),
        (Term::Mac(k, m), Term::Mac(l, n)) => same(k, l) && same(m, n),
        (Term::Aead(k, m, x), Term::Aead(l, n, y)) => same(k, l) && same(m, n) && same(x, y),
        (Term::Kdf(k, s, x), Term::Kdf(l, t, y)) => same(k, l) && s.same(t) && same(x, y),
        _ => false,
    }
}
