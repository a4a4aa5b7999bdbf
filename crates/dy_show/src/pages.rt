//! A page that tokens are written on, one after another.
ghost use Rattle.std.specs.Prelude.{◌≡◌, [], IfOk};
ghost use Rattle.dy_lex.specs.declared.tokens.TokenKind.TheVariants.{Word, Symbol};
ghost use Rattle.dy_syntax.specs.Meaning.{id_of, quote_of, nm_of};
ghost use Rattle.dy_show.specs.declared.spacing.Ending.TheVariants.{Bound};
ghost use Rattle.dy_show.specs.Canonical as c;
ghost use Rattle.dy_show.specs.MirrorPages.{put};

use crate::spacing::{Ending, Stand, blanks_before, is_apart, token_ending};
use dy_lex::TokenKind;
use dy_syntax::{Id, Quote};
use std::alloc::{AllocError, Global};
use std::marker::Model;

/// The bytes that are written, and what the last token asks for after it.
#[derive(Drop)]
pub(crate) struct Page {
    alloc: Global,
    bytes: Vec<u8>,
    ending: Ending,
}

impl Model for Page {
    ghost use Rattle.dy_show.specs.MirrorPages.{Page};

    ghost Value = { Page };

    ghost view = { λ p. record { bytes = p.bytes.items; ending = p.ending } };
}

#[tactic(auto, unfolding(crate::specs::MirrorPages::put, crate::specs::Spacing::gap, crate::specs::Spacing::ending_of))]
impl Page {
    /// A page with nothing on it.
    pub(crate) fn new(alloc: Global) -> Page
        ensures { result ≡ record { bytes = []; ending = Bound } }
    {
        Page {
            alloc,
            bytes: Vec::new(alloc),
            ending: Ending::Bound,
        }
    }

    /// The bytes that are written.
    pub(crate) fn into_bytes(self) -> Vec<u8>
        ensures { result.items ≡ self.bytes }
    {
        let Page { bytes, .. } = self;
        bytes
    }

    fn put(&mut self, stand: Stand, kind: TokenKind, text: &[u8]) -> Result<(), AllocError>
        ensures { IfOk result (λ _. self.new ≡ put self.old (record { stand = stand; kind = kind; text = text.now })) }
    {
        let blanks = blanks_before(self.ending, stand, kind, is_apart(kind, text));
        self.bytes.extend_from_slice(blanks)?;
        self.bytes.extend_from_slice(text)?;
        self.ending = token_ending(stand, kind, text);
        Ok(())
    }

    pub(crate) fn word(&mut self, word: &[u8]) -> Result<(), AllocError>
        ensures { IfOk result (λ _. self.new ≡ put self.old (c.word word.now)) }
    {
        self.put(Stand::Near, TokenKind::Word, word)
    }

    /// A word that begins a line.
    pub(crate) fn line(&mut self, word: &[u8]) -> Result<(), AllocError>
        ensures { IfOk result (λ _. self.new ≡ put self.old (c.line word.now)) }
    {
        self.put(Stand::OnLine, TokenKind::Word, word)
    }

    /// A word that begins a line, after two spaces.
    pub(crate) fn first_word(&mut self, word: &[u8]) -> Result<(), AllocError>
        ensures { IfOk result (λ _. self.new ≡ put self.old (c.first_word word.now)) }
    {
        self.put(Stand::Indented, TokenKind::Word, word)
    }

    pub(crate) fn mark(&mut self, mark: &[u8]) -> Result<(), AllocError>
        ensures { IfOk result (λ _. self.new ≡ put self.old (c.mark mark.now)) }
    {
        self.put(Stand::Near, TokenKind::Symbol, mark)
    }

    /// A symbol between two spaces.
    pub(crate) fn between(&mut self, mark: &[u8]) -> Result<(), AllocError>
        ensures { IfOk result (λ _. self.new ≡ put self.old (c.between mark.now)) }
    {
        self.put(Stand::Between, TokenKind::Symbol, mark)
    }

    /// `(` after a space.
    pub(crate) fn apart_paren(&mut self) -> Result<(), AllocError>
        ensures { IfOk result (λ _. self.new ≡ put self.old c.apart_paren) }
    {
        self.put(Stand::Apart, TokenKind::Symbol, b"(")
    }

    /// `}` at the start of a line.
    pub(crate) fn last_brace(&mut self) -> Result<(), AllocError>
        ensures { IfOk result (λ _. self.new ≡ put self.old c.last_brace) }
    {
        self.put(Stand::OnLine, TokenKind::Symbol, b"}")
    }

    pub(crate) fn name(&mut self, id: &Id) -> Result<(), AllocError>
        ensures { IfOk result (λ _. self.new ≡ put self.old (c.name (id_of id.now))) }
    {
        self.word(id.word.as_bytes())
    }

    pub(crate) fn text(&mut self, quote: &Quote) -> Result<(), AllocError>
        ensures { IfOk result (λ _. self.new ≡ put self.old (c.text (quote_of quote.now))) }
    {
        let blanks = blanks_before(self.ending, Stand::Near, TokenKind::Text, false);
        self.bytes.extend_from_slice(blanks)?;
        self.bytes.extend_from_slice(b"\"")?;
        self.bytes.extend_from_slice(quote.text.as_bytes())?;
        self.bytes.extend_from_slice(b"\"")?;
        self.ending = Ending::Written;
        Ok(())
    }

    pub(crate) fn number(&mut self, number: u32) -> Result<(), AllocError>
        ensures { IfOk result (λ _. self.new ≡ put self.old (c.number number)) }
    {
        let digits = format!(in self.alloc; "{number}")?;
        self.put(Stand::Near, TokenKind::Number, digits.as_bytes())
    }
}
