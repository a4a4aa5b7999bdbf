ghost use Rattle.std.specs.Prelude.{◌≡◌, ◌<◌, Some};

use crate::sources::{Failed, Source};

/// A source over bytes in memory, for tests: it gives at most `piece` bytes a call. It fails at the
/// calls whose numbers, counted from 1, are in `failing`.
#[derive(Debug, Drop)]
pub struct MemSource {
    /// The bytes that are left.
    pub bytes: Vec<u8>,
    pub piece: usize,
    pub failing: Vec<u64>,
    /// How many calls there were.
    pub calls: u64,
    pub faults: u64,
    ghost gives_some: { 0 < piece },
}

impl MemSource {
    /// A source of these bytes, with no call so far. A piece has at least one byte.
    pub fn new(bytes: Vec<u8>, piece: usize, failing: Vec<u64>) -> MemSource
        requires { 0 < piece }
        ensures bytes { result.bytes ≡ bytes }
        ensures piece { result.piece ≡ piece }
        ensures failing { result.failing ≡ failing }
        ensures calls { result.calls ≡ 0 }
        ensures faults { result.faults ≡ 0 }
    {
        MemSource {
            bytes,
            piece,
            failing,
            calls: 0,
            faults: 0,
        }
    }
}

impl Source for MemSource {
    ghost use Rattle.std.specs.Prelude.{◌≤◌, ◌↔◌, ◌++◌, length, take, min};
    ghost use Rattle.std.specs.Prelude.{Contains, IfOk, OnErr, IsErr, is_err, if◌then◌else◌};
    ghost use Rattle.std.specs.Io.KnownBytes.{IsAtEnd};
    ghost use Rattle.dy_io.specs.Faults.{HasCause, one_more};

    ghost left = { λ s. Some s.bytes.items };

    ghost faults = { λ s. s.faults };

    fn read(&mut self, buf: &mut [u8]) -> Result<usize, Failed>
        ensures within { IfOk result (λ n. n ≤ length buf.new) }
        ensures taken { IfOk result (λ n. self.old.bytes.items ≡ take n buf.new ++ self.new.bytes.items) }
        ensures ended { IfOk result (λ n. n ≡ 0 → 0 < length buf.new → IsAtEnd (Some self.new.bytes.items)) }
        ensures nothing_taken { OnErr result (self.new.bytes.items ≡ self.old.bytes.items) }
        ensures cause { HasCause (is_err result) self.old.faults self.new.faults }

        // A piece comes, or what is left of it, unless the number of the call is among the failing ones.
        ensures piece { IfOk result (λ n.
            n ≡ min (min self.old.piece (length buf.new)) (length self.old.bytes.items)) }
        ensures fails { IsErr result ↔ Contains self.old.failing.items self.new.calls }
        ensures calls { self.new.calls ≡ one_more self.old.calls }
        ensures faults { self.new.faults ≡ (if is_err result then one_more self.old.faults else self.old.faults) }
        ensures kept { (self.new.piece ≡ self.old.piece) × (self.new.failing ≡ self.old.failing) }
    {
        self.calls = self.calls.saturating_add(1);
        if self.failing.contains(&self.calls) {
            self.faults = self.faults.saturating_add(1);
            return Err(Failed);
        }
        let n = self.piece.min(buf.len()).min(self.bytes.len());
        buf[..n].copy_from_slice(&self.bytes[..n]);
        self.bytes.drain(..n);
        Ok(n)
    }
}
