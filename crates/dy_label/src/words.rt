ghost use Rattle.std.specs.Prelude.{◌≡◌, ◌≤◌, ◌↔◌, IsSome, IfSome};

use std::marker::Model;

/// The most names that a handler's scope has.
pub const NAMES: u8 = 9;

/// A word that reads in a handler.
#[derive(Clone, Copy, Debug)]
pub enum Atom {
    /// The principal of this number in the handler's scope. Number 0 is `self`.
    Name(u8),
    /// The handler's session.
    Session,
    /// The version that the handler stores next.
    Next,
    /// The version that the handler read.
    Prior,
}

/// A label over a handler's words.
#[derive(Debug, Drop)]
pub enum StaticLabel {
    Public,
    Nobody,
    One(Atom),
    /// Open where one of the two is.
    Join(Box<StaticLabel>, Box<StaticLabel>),
    /// Open where both are.
    Meet(Box<StaticLabel>, Box<StaticLabel>),
}

/// How many names a handler has, from 1 to `NAMES`. Contracts see it as that number.
#[derive(Clone, Copy, Debug)]
pub struct Scope {
    names: u8,
}

impl Model for Scope {
    ghost use Rattle.std.specs.Prelude.{ℕ, ◌≤◌};
    ghost use Rattle.dy_label.specs.declared.words.TheConstants.{NAMES};

    ghost Value = { ℕ };

    ghost view = { λ s. s.names };

    ghost invariant = { λ s. (1 ≤ s.names) × (s.names ≤ NAMES) };

    ghost inverse = { λ names. record { names = names } };
}

impl Scope {
    /// A scope of this many names, or `None` where they are not from 1 to `NAMES`.
    pub fn new(names: u8) -> Option<Scope>
        ensures names { IfSome result (λ scope. scope ≡ names) }
        ensures found { IsSome result ↔ ((1 ≤ names) × (names ≤ NAMES)) }
    {
        if 1 <= names && names <= NAMES {
            Some(Scope { names })
        } else {
            None
        }
    }

    /// How many names it has.
    pub fn names(&self) -> u8
        ensures names { result ≡ self.now }
        ensures range { (1 ≤ result) × (result ≤ NAMES) }
    {
        self.names
    }
}
