ghost use Rattle.std.specs.Prelude.{◌≡◌, ◌<◌, Some};

use crate::sinks::Sink;
use crate::sources::Failed;

/// A sink into memory, for tests: it takes at most `piece` bytes a call. It fails at the calls whose
/// numbers, counted from 1, are in `failing`, and where there is no memory for more.
#[derive(Debug, Drop)]
pub struct MemSink {
    pub held: Vec<u8>,
    pub piece: usize,
    pub failing: Vec<u64>,
    /// How many calls there were.
    pub calls: u64,
    pub faults: u64,
    ghost takes_some: { 0 < piece },
}

impl MemSink {
    /// A sink that holds these bytes, with no call so far. A piece has at least one byte.
    pub fn new(held: Vec<u8>, piece: usize, failing: Vec<u64>) -> MemSink
        requires { 0 < piece }
        ensures held { result.held ≡ held }
        ensures piece { result.piece ≡ piece }
        ensures failing { result.failing ≡ failing }
        ensures calls { result.calls ≡ 0 }
        ensures faults { result.faults ≡ 0 }
    {
        MemSink {
            held,
            piece,
            failing,
            calls: 0,
            faults: 0,
        }
    }
}

impl Sink for MemSink {
    ghost use Rattle.std.specs.Prelude.{◌+◌, ◌≤◌, ◌++◌, length, take, min, vec_len, vec_capacity};
    ghost use Rattle.std.specs.Prelude.{Contains, IfOk, OnErr, IsErr, is_err, if◌then◌else◌};
    ghost use Rattle.dy_io.specs.Faults.{HasCause, one_more, took_none};

    ghost held = { λ s. Some s.held.items };

    ghost faults = { λ s. s.faults };

    fn write(&mut self, bytes: &[u8]) -> Result<usize, Failed>
        ensures within { IfOk result (λ n. n ≤ length bytes.now) }
        ensures added { IfOk result (λ n. self.new.held.items ≡ self.old.held.items ++ take n bytes.now) }
        ensures nothing_added { OnErr result (self.new.held.items ≡ self.old.held.items) }
        ensures cause { HasCause (took_none result bytes.now) self.old.faults self.new.faults }

        // A piece is taken, or what is left of it. A call fails whose number is among the failing ones, and
        // else only where there was no room.
        ensures piece { IfOk result (λ n. n ≡ min self.old.piece (length bytes.now)) }
        ensures fails { Contains self.old.failing.items self.new.calls → IsErr result }
        ensures fails_only { let n = min self.old.piece (length bytes.now) in
            vec_len self.old.held + n ≤ vec_capacity self.old.held →
            IsErr result → Contains self.old.failing.items self.new.calls }
        ensures calls { self.new.calls ≡ one_more self.old.calls }
        ensures faults { self.new.faults ≡ (if is_err result then one_more self.old.faults else self.old.faults) }
        ensures kept { (self.new.piece ≡ self.old.piece) × (self.new.failing ≡ self.old.failing) }
    {
        self.calls = self.calls.saturating_add(1);
        if self.failing.contains(&self.calls) {
            self.faults = self.faults.saturating_add(1);
            return Err(Failed);
        }
        let n = self.piece.min(bytes.len());
        if self.held.extend_from_slice(&bytes[..n]).is_err() {
            self.faults = self.faults.saturating_add(1);
            return Err(Failed);
        }
        Ok(n)
    }
}
