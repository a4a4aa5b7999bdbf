ghost use Rattle.std.specs.Prelude.{◌≡◌, Some};
ghost use Rattle.dy_parse.specs.Messages.{limit_name, parse_message};

use std::fmt;
use thiserror::Error;

/// The limits of a file, in the order of the language's table.
#[derive(Clone, Copy, Debug, PartialEq, Eq)]
pub enum LimitName {
    Word,
    Text,
    Nesting,
    Usages,
    Cases,
    Events,
    States,
    Handlers,
    Statements,
    Names,
    Fields,
    Leaves,
    Partners,
    Rows,
    Rounds,
    Steps,
    Principals,
}

/// Why a source is no file.
#[derive(Clone, Copy, Debug, PartialEq, Eq, Error)]
pub enum ParseError {
    /// A faulty token stands on this line, or the tokens stop being a file there.
    BadLine { line: u32 },
    /// The source is in the grammar, and this limit is the first that is broken.
    Limit { line: u32, which: LimitName },
    /// Memory was refused.
    Memory,
}

impl LimitName {
    /// The name as it is printed.
    pub fn as_str(self) -> &'static str
        ensures { result.now ≡ limit_name self }
    {
        match self {
            LimitName::Word => "word",
            LimitName::Text => "text",
            LimitName::Nesting => "nesting",
            LimitName::Usages => "usages",
            LimitName::Cases => "cases",
            LimitName::Events => "events",
            LimitName::States => "states",
            LimitName::Handlers => "handlers",
            LimitName::Statements => "statements",
            LimitName::Names => "names",
            LimitName::Fields => "fields",
            LimitName::Leaves => "leaves",
            LimitName::Partners => "partners",
            LimitName::Rows => "rows",
            LimitName::Rounds => "rounds",
            LimitName::Steps => "steps",
            LimitName::Principals => "principals",
        }
    }
}

impl fmt::Display for ParseError {
    ghost output = { λ e. Some (parse_message e) };

    fn fmt<W: fmt::Write>(&self, f: &mut fmt::Formatter<W>) -> fmt::Result {
        match self {
            ParseError::BadLine { line } => {
                write!(f, "line {line}: no file of the language goes on like this")
            }
            ParseError::Limit { line, which } => {
                write!(f, "line {line}: over the limit ")?;
                f.write_str(which.as_str())
            }
            ParseError::Memory => f.write_str("out of memory"),
        }
    }
}
