//! The text of a term.
ghost use Rattle.std.specs.Prelude.{◌≡◌, ◌++◌, IfOk, codes};
ghost use Rattle.dy_term.specs.Characters.{in_quotes};
ghost use Rattle.dy_term.specs.TermText.{term_text};
ghost use Rattle.dy_flat.specs.Views.{tree_of};

use crate::pages::Page;
use dy_flat::{Parts, View, take_apart};
use dy_term::{Memory, Text};

/// Adds the text of a term. It calls itself as deep as the term is.
#[cycle(put)]
pub(crate) fn put_term(page: &mut Page, term: View) -> Result<(), Memory>
    ensures { IfOk result (λ _. page.new ≡ page.old ++ term_text (tree_of term.entry)) }
{
    match take_apart(term) {
        Parts::Lit(text) => put_quoted(page, text),
        Parts::Name(principal) => {
            page.put(b"@")?;
            page.put(principal.as_bytes())
        }
        Parts::Nonce(index) => {
            page.put(b"#")?;
            page.put_number(u64::from(index))
        }
        Parts::Pair(first, second) => put_two(page, b"pair(", first, second),
        Parts::Pk(key) => put_one(page, b"pk(", key),
        Parts::Vk(key) => put_one(page, b"vk(", key),
        Parts::Penc(to, message) => put_two(page, b"penc(", to, message),
        Parts::Aead(key, message, data) => {
            page.put(b"aead(")?;
            put_term(page, key)?;
            page.put(b", ")?;
            put_term(page, message)?;
            page.put(b", ")?;
            put_term(page, data)?;
            page.put(b")")
        }
        Parts::Sign(key, message) => put_two(page, b"sign(", key, message),
        Parts::Mac(key, message) => put_two(page, b"mac(", key, message),
        Parts::Kdf(key, context, input) => {
            page.put(b"kdf(")?;
            put_term(page, key)?;
            page.put(b", ")?;
            put_quoted(page, context)?;
            page.put(b", ")?;
            put_term(page, input)?;
            page.put(b")")
        }
        Parts::Hash(message) => put_one(page, b"hash(", message),
    }
}

/// Adds a text between quotes.
fn put_quoted(page: &mut Page, text: &Text) -> Result<(), Memory>
    ensures { IfOk result (λ _. page.new ≡ page.old ++ in_quotes text.now) }
{
    page.put(b"\"")?;
    page.put(text.as_bytes())?;
    page.put(b"\"")
}

/// Adds a constructor with one part.
#[cycle(put)]
fn put_one(page: &mut Page, constructor: &[u8], part: View) -> Result<(), Memory>
    ensures { IfOk result (λ _.
        page.new ≡ page.old ++ constructor.now ++ term_text (tree_of part.entry) ++ codes ")") }
{
    page.put(constructor)?;
    put_term(page, part)?;
    page.put(b")")
}

/// Adds a constructor with two parts.
#[cycle(put)]
fn put_two(page: &mut Page, constructor: &[u8], first: View, second: View) -> Result<(), Memory>
    ensures { IfOk result (λ _. page.new
        ≡ page.old ++ constructor.now ++ term_text (tree_of first.entry) ++ codes ", "
        ++ term_text (tree_of second.entry) ++ codes ")") }
{
    page.put(constructor)?;
    put_term(page, first)?;
    page.put(b", ")?;
    put_term(page, second)?;
    page.put(b")")
}
