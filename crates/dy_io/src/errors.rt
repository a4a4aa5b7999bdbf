ghost use Rattle.std.specs.Prelude.{Some};
ghost use Rattle.dy_io.specs.Messages.{read_message, write_message};

use std::fmt;
use thiserror::Error;

/// Why not all of a source could be read.
#[derive(Clone, Copy, Debug, PartialEq, Eq, Error)]
pub enum ReadError {
    /// The source failed.
    Fault,
    /// More bytes came than the limit.
    TooLong,
    /// Memory for the bytes was refused.
    Memory,
}

impl fmt::Display for ReadError {
    ghost output = { λ e. Some (read_message e) };

    fn fmt<W: fmt::Write>(&self, f: &mut fmt::Formatter<W>) -> fmt::Result {
        match self {
            ReadError::Fault => f.write_str("reading failed"),
            ReadError::TooLong => f.write_str("more bytes came than the limit"),
            ReadError::Memory => f.write_str("out of memory"),
        }
    }
}

/// Why not all could be written.
#[derive(Clone, Copy, Debug, PartialEq, Eq, Error)]
pub enum WriteError {
    /// The sink failed.
    Fault,
}

impl fmt::Display for WriteError {
    ghost output = { λ e. Some (write_message e) };

    fn fmt<W: fmt::Write>(&self, f: &mut fmt::Formatter<W>) -> fmt::Result {
        match self {
            WriteError::Fault => f.write_str("writing failed"),
        }
    }
}
