use dy_io::{ReadError, StdinSource, read_all};
use dy_lex::{LexError, lex};
use std::io;
use std::time::{Duration, Instant};

const LIMIT: usize = 1_048_576;

/// What took how long, on the bytes of standard input.
#[derive(Drop)]
pub(crate) struct Times {
    pub(crate) bytes: usize,
    pub(crate) tokens: usize,
    pub(crate) lexing: Duration,
    pub(crate) lines: usize,
    pub(crate) counting: Duration,
}

fn unread(error: ReadError) -> io::Error {
    match error {
        ReadError::Fault => io::Error::from(io::ErrorKind::Other),
        ReadError::TooLong => io::Error::from(io::ErrorKind::FileTooLarge),
        ReadError::Memory => io::Error::from(io::ErrorKind::OutOfMemory),
    }
}

fn as_io_error(error: LexError) -> io::Error {
    match error {
        LexError::Bad { .. } => io::Error::from(io::ErrorKind::InvalidData),
        LexError::Memory => io::Error::from(io::ErrorKind::OutOfMemory),
    }
}

/// The tokens of standard input, and its newlines.
pub(crate) fn measure(rt: &HostRuntime) -> io::Result<Times> {
    let mut source = StdinSource::new(rt.stdin());
    let bytes = read_all(rt.alloc(), &mut source, LIMIT).map_err(unread)?;
    let start = Instant::now(rt)?;
    let tokens = lex(rt.alloc(), &bytes).map_err(as_io_error)?;
    let lexing = start.elapsed(rt)?;
    let start = Instant::now(rt)?;
    let lines = bytes.iter().filter(|byte| **byte == b'\n').count();
    let counting = start.elapsed(rt)?;
    Ok(Times {
        bytes: bytes.len(),
        tokens: tokens.len(),
        lexing,
        lines,
        counting,
    })
}
