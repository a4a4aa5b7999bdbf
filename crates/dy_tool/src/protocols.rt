ghost use Rattle.std.specs.Prelude.{◌≤◌, length, IfOk};
ghost use Rattle.dy_tool.specs.Protocols.{IsReadAs};

use dy_lex::MAX_SOURCE_BYTES;
use dy_parse::{LimitName, ParseError, parse};
use dy_syntax::{File, FileError, well_formed};
use dy_term::Memory;
use std::alloc::Global;

/// Why bytes are no protocol: they are not in the grammar, over a limit, or a file that breaks a rule.
#[derive(Clone, Copy, Debug, PartialEq, Eq)]
pub(crate) enum InputFault {
    Syntax { line: u32 },
    Limit { line: u32, which: LimitName },
    Rule { line: u32, rule: u8 },
}

/// What an input is.
#[derive(Drop)]
pub(crate) enum Input {
    Protocol(File),
    Faulty(InputFault),
}

/// Reads a protocol of at most `MAX_SOURCE_BYTES` bytes, or finds its first fault.
pub(crate) fn read_protocol(alloc: Global, bytes: &[u8]) -> Result<Input, Memory>
    requires { length bytes.now ≤ MAX_SOURCE_BYTES }
    ensures { IfOk result (IsReadAs bytes.now) }
{
    let file = match parse(alloc, bytes) {
        Ok(file) => file,
        Err(ParseError::BadLine { line }) => return Ok(Input::Faulty(InputFault::Syntax { line })),
        Err(ParseError::Limit { line, which }) => {
            return Ok(Input::Faulty(InputFault::Limit { line, which }));
        }
        Err(ParseError::Memory) => return Err(Memory),
    };
    match well_formed(alloc, &file) {
        Ok(()) => Ok(Input::Protocol(file)),
        Err(FileError::Rule { line, rule }) => Ok(Input::Faulty(InputFault::Rule { line, rule })),
        Err(FileError::Memory) => Err(Memory),
    }
}
