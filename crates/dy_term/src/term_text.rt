ghost use Rattle.std.specs.Prelude.{◌≡◌, ◌++◌, List, ℕ, [], ◌∷◌, true, IfOk, codes};
ghost use Rattle.dy_term.specs.Meaning.{tree_of};
ghost use Rattle.dy_term.specs.Characters.{is_text, in_quotes};
ghost use Rattle.dy_term.specs.TermText.{term_text};
ghost use Rattle.dy_term.specs.TermReading.{is_made, IsTextOf};

use crate::{Memory, Term, Text};
use std::alloc::{AllocError, Global};

/// The text of a term. The one refusal is out of memory.
pub fn write_term(alloc: Global, term: &Term) -> Result<Vec<u8>, Memory>
    ensures { IfOk result (λ text. IsTextOf (tree_of term.now) text.items) }
{
    let mut text = Vec::new(alloc);
    put_term(alloc, &mut text, term)?;
    Ok(text)
}

/// Adds the text of a term.
#[cycle(put)]
fn put_term(alloc: Global, text: &mut Vec<u8>, term: &Term) -> Result<(), AllocError>
    ensures text { IfOk result (λ _. text.new.items ≡ text.old.items ++ term_text (tree_of term.now)) }
    ensures made { IfOk result (λ _. is_made (tree_of term.now) ≡ true) }
{
    match term {
        Term::Lit(literal) => put_text(text, literal),
        Term::Name(principal) => {
            text.extend_from_slice(b"@")?;
            text.extend_from_slice(principal.as_bytes())
        }
        Term::Nonce(index) => {
            let index = *index;
            let number = format!(in alloc; "#{index}")?;
            text.extend_from_slice(number.as_bytes())
        }
        Term::Pair(first, second) => put_two(alloc, text, b"pair(", first, second),
        Term::Pk(key) => put_one(alloc, text, b"pk(", key),
        Term::Vk(key) => put_one(alloc, text, b"vk(", key),
        Term::Penc(to, message) => put_two(alloc, text, b"penc(", to, message),
        Term::Aead(key, message, data) => {
            text.extend_from_slice(b"aead(")?;
            put_term(alloc, text, key)?;
            text.extend_from_slice(b", ")?;
            put_term(alloc, text, message)?;
            text.extend_from_slice(b", ")?;
            put_term(alloc, text, data)?;
            text.extend_from_slice(b")")
        }
        Term::Sign(key, message) => put_two(alloc, text, b"sign(", key, message),
        Term::Mac(key, message) => put_two(alloc, text, b"mac(", key, message),
        Term::Kdf(key, context, input) => {
            text.extend_from_slice(b"kdf(")?;
            put_term(alloc, text, key)?;
            text.extend_from_slice(b", ")?;
            put_text(text, context)?;
            text.extend_from_slice(b", ")?;
            put_term(alloc, text, input)?;
            text.extend_from_slice(b")")
        }
        Term::Hash(message) => put_one(alloc, text, b"hash(", message),
    }
}

/// Adds a text between quotes.
fn put_text(text: &mut Vec<u8>, literal: &Text) -> Result<(), AllocError>
    ensures text { IfOk result (λ _. text.new.items ≡ text.old.items ++ in_quotes literal.now) }
    ensures made { IfOk result (λ _. is_text literal.now ≡ true) }
{
    text.extend_from_slice(b"\"")?;
    text.extend_from_slice(literal.as_bytes())?;
    text.extend_from_slice(b"\"")
}

/// Adds a constructor with one part.
#[cycle(put)]
fn put_one(alloc: Global, text: &mut Vec<u8>, prefix: &[u8], part: &Term) -> Result<(), AllocError>
    ensures text { IfOk result (λ _. text.new.items
        ≡ text.old.items ++ prefix.now ++ term_text (tree_of part.now) ++ codes ")") }
    ensures made { IfOk result (λ _. is_made (tree_of part.now) ≡ true) }
{
    text.extend_from_slice(prefix)?;
    put_term(alloc, text, part)?;
    text.extend_from_slice(b")")
}

/// Adds a constructor with two parts.
#[cycle(put)]
fn put_two(
    alloc: Global,
    text: &mut Vec<u8>,
    prefix: &[u8],
    first: &Term,
    second: &Term,
) -> Result<(), AllocError>
    ensures text { IfOk result (λ _. text.new.items
        ≡ text.old.items ++ prefix.now ++ term_text (tree_of first.now) ++ codes ", "
        ++ term_text (tree_of second.now) ++ codes ")") }
    ensures made { IfOk result (λ _.
        (is_made (tree_of first.now) ≡ true) × (is_made (tree_of second.now) ≡ true)) }
{
    text.extend_from_slice(prefix)?;
    put_term(alloc, text, first)?;
    text.extend_from_slice(b", ")?;
    put_term(alloc, text, second)?;
    text.extend_from_slice(b")")
}
