ghost use Rattle.std.specs.Prelude.{◌≡◌, ◌↔◌, true, [], ◌∷◌, ◌++◌, IsSome, IfSome};
ghost use Rattle.std.specs.Str.{bytes_eq};
ghost use Rattle.dy_term.specs.Characters.{is_text};

use crate::characters::is_long_text;
use crate::limits::MAX_LENGTH;
use crate::short::Short;
use std::marker::Model;

/// A text: at most 32 printable ASCII characters other than `"` and `\`.
#[derive(Debug, Drop)]
pub struct Text {
    short: Short,
}

impl Model for Text {
    ghost use Rattle.std.specs.Prelude.{◌≡◌, ℕ, List, true};
    ghost use Rattle.dy_term.specs.Characters.{is_text};

    ghost Value = { List ℕ };

    ghost view = { λ t. t.short };

    ghost invariant = { λ t. is_text t.short ≡ true };
}

impl Text {
    pub(crate) fn empty() -> Text
        ensures { result ≡ [] }
    {
        Text {
            short: Short::new(&[]),
        }
    }

    /// These bytes as a text, or `None` where they are none.
    pub fn new(bytes: &[u8]) -> Option<Text>
        ensures bytes { IfSome result (λ text. text ≡ bytes.now) }
        ensures found { IsSome result ↔ (is_text bytes.now ≡ true) }
    {
        if is_long_text(bytes) && bytes.len() <= MAX_LENGTH {
            Some(Text {
                short: Short::new(bytes),
            })
        } else {
            None
        }
    }

    /// The text with this byte at its end, or `None` where that is none.
    pub(crate) fn with(&self, byte: u8) -> Option<Text>
        ensures bytes { IfSome result (λ longer. longer ≡ self.now ++ byte ∷ []) }
        ensures found { IsSome result ↔ (is_text (self.now ++ byte ∷ []) ≡ true) }
    {
        Text::new(self.short.with(byte)?.as_bytes())
    }

    pub fn as_bytes(&self) -> &[u8]
        ensures bytes { result.now ≡ self.now }
        ensures text { is_text self.now ≡ true }
    {
        self.short.as_bytes()
    }

    pub fn copy(&self) -> Text
        ensures { result ≡ self.now }
    {
        Text {
            short: self.short.copy(),
        }
    }

    /// Whether the two are the same text.
    pub fn same(&self, other: &Text) -> bool
        ensures { result ≡ bytes_eq self.now other.now }
    {
        self.as_bytes() == other.as_bytes()
    }
}
