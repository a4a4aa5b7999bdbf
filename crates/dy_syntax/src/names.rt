ghost use Rattle.std.specs.Prelude.{◌≡◌};
ghost use Rattle.dy_syntax.specs.Names as names;

use dy_term::{Text, Word};
use sqlite_items::Items;

/// A word that stands for a name, and its line.
#[derive(Debug, Drop)]
pub struct Id {
    pub word: Word,
    pub line: u32,
}

impl Id {
    ghost use Rattle.dy_syntax.specs.Meaning.{id_of};

    pub fn copy(&self) -> Id
        ensures { id_of result ≡ id_of self.now }
    {
        Id {
            word: self.word.copy(),
            line: self.line,
        }
    }
}

/// A text, and its line.
#[derive(Debug, Drop)]
pub struct Quote {
    pub text: Text,
    pub line: u32,
}

/// A name, where `self` may stand too.
#[derive(Debug, Drop)]
pub enum Nm {
    Named(Id),
    /// `self`.
    Me { line: u32 },
}

impl Nm {
    ghost use Rattle.dy_syntax.specs.Meaning.{nm_of};

    /// The line on which it stands.
    pub fn line(&self) -> u32
        ensures { result ≡ names.line_of (nm_of self.now) }
    {
        match self {
            Nm::Named(id) => id.line,
            Nm::Me { line } => *line,
        }
    }
}

/// The kind of a usage.
#[derive(Clone, Copy, Debug, PartialEq, Eq)]
pub enum KindText {
    Nonce,
    Pke,
    Sig,
    Aead,
    Mac,
    Kdf,
}

/// A usage and its arguments.
#[derive(Debug, Drop)]
pub struct UseText {
    pub usage: Id,
    pub args: Items<Nm>,
}

/// An event and its arguments.
#[derive(Debug, Drop)]
pub struct AtomText {
    pub event: Id,
    pub args: Items<Nm>,
}
