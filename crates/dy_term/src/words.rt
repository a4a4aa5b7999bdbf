ghost use Rattle.std.specs.Prelude.{◌≡◌, ◌↔◌, true, [], ◌∷◌, ◌++◌, IsSome, IfSome};
ghost use Rattle.std.specs.Str.{bytes_eq};
ghost use Rattle.dy_term.specs.Characters.{is_word};

use crate::characters::is_long_word;
use crate::limits::MAX_LENGTH;
use crate::short::Short;
use std::marker::Model;

/// A word: 1 to 32 bytes, a letter and then letters, digits or `_`.
#[derive(Debug, Drop)]
pub struct Word {
    short: Short,
}

impl Model for Word {
    ghost use Rattle.std.specs.Prelude.{◌≡◌, ℕ, List, true};
    ghost use Rattle.dy_term.specs.Characters.{is_word};

    ghost Value = { List ℕ };

    ghost view = { λ w. w.short };

    ghost invariant = { λ w. is_word w.short ≡ true };
}

impl Word {
    /// These bytes as a word, or `None` where they are none.
    pub fn new(bytes: &[u8]) -> Option<Word>
        ensures bytes { IfSome result (λ word. word ≡ bytes.now) }
        ensures found { IsSome result ↔ (is_word bytes.now ≡ true) }
    {
        if is_long_word(bytes) && bytes.len() <= MAX_LENGTH {
            Some(Word {
                short: Short::new(bytes),
            })
        } else {
            None
        }
    }

    /// The word with this byte at its end, or `None` where that is none.
    pub(crate) fn with(&self, byte: u8) -> Option<Word>
        ensures bytes { IfSome result (λ longer. longer ≡ self.now ++ byte ∷ []) }
        ensures found { IsSome result ↔ (is_word (self.now ++ byte ∷ []) ≡ true) }
    {
        Word::new(self.short.with(byte)?.as_bytes())
    }

    pub fn as_bytes(&self) -> &[u8]
        ensures bytes { result.now ≡ self.now }
        ensures word { is_word self.now ≡ true }
    {
        self.short.as_bytes()
    }

    pub fn copy(&self) -> Word
        ensures { result ≡ self.now }
    {
        Word {
            short: self.short.copy(),
        }
    }

    /// Whether the two are the same word.
    pub fn same(&self, other: &Word) -> bool
        ensures { result ≡ bytes_eq self.now other.now }
    {
        self.as_bytes() == other.as_bytes()
    }
}
