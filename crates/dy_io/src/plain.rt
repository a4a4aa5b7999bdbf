ghost use Rattle.std.specs.Prelude.{◌≡◌, Some, None};

use crate::sinks::Sink;
use crate::sources::{Failed, Source};

/// A source over bytes in memory that never fails.
#[derive(Debug, Drop)]
pub struct PlainSource {
    /// The bytes that are left.
    pub bytes: Vec<u8>,
}

impl Source for PlainSource {
    ghost left = { λ s. Some s.bytes.items };

    ghost faults = { λ _. 0 };

    fn read(&mut self, buf: &mut [u8]) -> Result<usize, Failed> {
        let n = buf.len().min(self.bytes.len());
        buf[..n].copy_from_slice(&self.bytes[..n]);
        self.bytes.drain(..n);
        Ok(n)
    }
}

/// A sink that takes every byte and keeps none.
#[derive(Clone, Copy, Debug, PartialEq, Eq)]
pub struct PlainSink;

impl Sink for PlainSink {
    ghost held = { λ _. None };

    ghost faults = { λ _. 0 };

    fn write(&mut self, bytes: &[u8]) -> Result<usize, Failed> {
        Ok(bytes.len())
    }
}
