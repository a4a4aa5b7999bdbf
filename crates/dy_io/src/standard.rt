ghost use Rattle.std.specs.Prelude.{◌≡◌};

use crate::sinks::Sink;
use crate::sources::{Failed, Source};
use std::io::{Read, Stdin, Stdout, Write};

/// Standard input. It does not tell what it has left.
pub type StdinSource = ReaderSource<Stdin>;

/// Standard output. It does not tell what it holds.
pub type StdoutSink = WriterSink<Stdout>;

/// A source over a reader. It tells what it has left where the reader does.
#[derive(Drop)]
pub struct ReaderSource<R> {
    reader: R,
    faults: u64,
}

impl<R: Read> ReaderSource<R> {
    /// A source over this reader, with no fault so far.
    pub fn new(reader: R) -> ReaderSource<R>
        ensures left { ⟦<ReaderSource<R> as Source>⟧.left result ≡ R.remaining reader }
        ensures faults { ⟦<ReaderSource<R> as Source>⟧.faults result ≡ 0 }
    {
        ReaderSource { reader, faults: 0 }
    }
}

impl<R: Read> Source for ReaderSource<R> {
    ghost left = { λ s. R.remaining s.reader };

    ghost faults = { λ s. s.faults };

    fn read(&mut self, buf: &mut [u8]) -> Result<usize, Failed> {
        match self.reader.read(buf) {
            Ok(n) => Ok(n),
            Err(_) => {
                self.faults = self.faults.saturating_add(1);
                Err(Failed)
            }
        }
    }
}

/// A sink over a writer. It tells what it holds where the writer does.
#[derive(Drop)]
pub struct WriterSink<W> {
    writer: W,
    faults: u64,
}

impl<W: Write> WriterSink<W> {
    /// A sink over this writer, with no fault so far.
    pub fn new(writer: W) -> WriterSink<W>
        ensures held { ⟦<WriterSink<W> as Sink>⟧.held result ≡ W.contents writer }
        ensures faults { ⟦<WriterSink<W> as Sink>⟧.faults result ≡ 0 }
    {
        WriterSink { writer, faults: 0 }
    }
}

impl<W: Write> Sink for WriterSink<W> {
    ghost held = { λ s. W.contents s.writer };

    ghost faults = { λ s. s.faults };

    /// A writer that takes nothing of a piece that is not empty has failed.
    fn write(&mut self, bytes: &[u8]) -> Result<usize, Failed> {
        match self.writer.write(bytes) {
            Ok(n) if n > 0 || bytes.is_empty() => Ok(n),
            _ => {
                self.faults = self.faults.saturating_add(1);
                Err(Failed)
            }
        }
    }
}
