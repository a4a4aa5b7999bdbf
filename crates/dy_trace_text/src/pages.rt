//! A page that a text is written on, from its first byte to its last.
ghost use Rattle.std.specs.Prelude.{◌≡◌, ◌++◌, [], ◌∷◌, IfOk};
ghost use Rattle.std.specs.Fmt.{decimal};
ghost use Rattle.dy_trace_text.specs.MirrorPages.{put_part, put_parts};

use dy_term::Memory;
use itoa::Buffer;
use std::alloc::Global;
use std::marker::Model;

/// The bytes that are written. Contracts see them as a list.
#[derive(Drop)]
pub(crate) struct Page {
    bytes: Vec<u8>,
    digits: Buffer,
}

impl Model for Page {
    ghost use Rattle.std.specs.Prelude.{ℕ, List};

    ghost Value = { List ℕ };

    ghost view = { λ p. p.bytes.items };
}

impl Page {
    /// A page with nothing on it.
    pub(crate) fn new(alloc: Global) -> Page
        ensures { result ≡ [] }
    {
        Page {
            bytes: Vec::new(alloc),
            digits: Buffer::new(),
        }
    }

    /// The bytes that are written.
    pub(crate) fn into_bytes(self) -> Vec<u8>
        ensures { result.items ≡ self }
    {
        let Page { bytes, .. } = self;
        bytes
    }

    /// Adds these bytes.
    pub(crate) fn put(&mut self, bytes: &[u8]) -> Result<(), Memory>
        ensures { IfOk result (λ _. self.new ≡ self.old ++ bytes.now) }
    {
        self.bytes.extend_from_slice(bytes)?;
        Ok(())
    }

    /// Adds a number.
    pub(crate) fn put_number(&mut self, number: u64) -> Result<(), Memory>
        ensures { IfOk result (λ _. self.new ≡ self.old ++ decimal number) }
    {
        let digits = self.digits.format(number);
        self.bytes.extend_from_slice(digits.as_bytes())?;
        Ok(())
    }

    /// Adds a space and these bytes.
    pub(crate) fn put_part(&mut self, part: &[u8]) -> Result<(), Memory>
        ensures { IfOk result (λ _. self.new ≡ put_part self.old part.now) }
    {
        self.put(b" ")?;
        self.put(part)
    }

    /// Adds a space and a number.
    pub(crate) fn put_number_part(&mut self, number: u32) -> Result<(), Memory>
        ensures { IfOk result (λ _. self.new ≡ put_part self.old (decimal number)) }
    {
        self.put(b" ")?;
        self.put_number(u64::from(number))
    }

    /// Adds a word of a line and a number, each with a space before it.
    pub(crate) fn put_named(&mut self, word: &[u8], number: u32) -> Result<(), Memory>
        ensures { IfOk result (λ _. self.new ≡ put_parts self.old (word.now ∷ decimal number ∷ [])) }
    {
        self.put_part(word)?;
        self.put_number_part(number)
    }
}
