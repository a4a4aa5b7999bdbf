ghost use Rattle.std.specs.Prelude.{◌≡◌, None};
ghost use Rattle.dy_parse.specs.Limits as limits;
ghost use Rattle.dy_parse.specs.Mirrors.Limits.{first_of};

use crate::errors::LimitName;
use dy_grammar::MAX_LEVEL;
use dy_term::limits::MAX_LENGTH;

impl LimitName {
    /// The limit's number in the language's table.
    pub(crate) fn number(self) -> u8
        ensures { result ≡ limits.number self }
    {
        match self {
            LimitName::Word => 1,
            LimitName::Text => 2,
            LimitName::Nesting => 3,
            LimitName::Usages => 4,
            LimitName::Cases => 5,
            LimitName::Events => 6,
            LimitName::States => 7,
            LimitName::Handlers => 8,
            LimitName::Statements => 9,
            LimitName::Names => 10,
            LimitName::Fields => 11,
            LimitName::Leaves => 12,
            LimitName::Partners => 13,
            LimitName::Rows => 14,
            LimitName::Rounds => 15,
            LimitName::Steps => 16,
            LimitName::Principals => 17,
        }
    }

    /// How many members a list may have.
    pub(crate) fn most(self) -> usize
        ensures { result ≡ limits.most self }
    {
        match self {
            LimitName::Word | LimitName::Text => MAX_LENGTH,
            LimitName::Names => 7,
            LimitName::Partners => 8,
            LimitName::Fields | LimitName::Leaves | LimitName::Rows => 16,
            LimitName::Nesting => usize::from(MAX_LEVEL),
            LimitName::Statements | LimitName::Principals => 64,
            LimitName::Usages
            | LimitName::Events
            | LimitName::States
            | LimitName::Handlers
            | LimitName::Rounds => 256,
            LimitName::Cases | LimitName::Steps => 1024,
        }
    }
}

/// A limit that is broken, and the line.
#[derive(Clone, Copy, Debug, PartialEq, Eq)]
pub(crate) struct Broken {
    pub(crate) which: LimitName,
    pub(crate) line: u32,
}

/// The first limit that is broken so far: that of the least line, and on one line that of the least number.
#[derive(Debug, Drop)]
pub(crate) struct First {
    pub(crate) found: Option<Broken>,
}

impl First {
    ghost use Rattle.dy_parse.specs.Mirrors.Limits as mirror;

    /// None so far.
    pub(crate) fn none() -> First
        ensures { first_of result ≡ None }
    {
        First { found: None }
    }

    /// Takes note of a limit that is broken.
    pub(crate) fn note(&mut self, which: LimitName, line: u32)
        ensures { first_of self.new ≡ mirror.note (record { which = which; line = line }) (first_of self.old) }
    {
        let is_before = match &self.found {
            None => true,
            Some(first) => {
                line < first.line || (line == first.line && which.number() < first.which.number())
            }
        };
        if is_before {
            self.found = Some(Broken { which, line });
        }
    }
}
