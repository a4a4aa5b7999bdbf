ghost use Rattle.std.specs.Prelude.{◌≤◌, ℕ, List, Option, length, take, IfOk, OnErr};
ghost use Rattle.std.specs.Io.KnownBytes.{Appends, Keeps};
ghost use Rattle.dy_io.specs.Faults.{HasCause, took_none};

use crate::sources::Failed;

/// Where bytes go to.
pub trait Sink {
    /// The bytes that it holds, or `None` where the sink does not tell them.
    ghost held: { Self → Option (List ℕ) };

    /// How many writes have failed. It never falls.
    ghost faults: { Self → ℕ };

    /// Adds a prefix of `bytes`, and answers how long it is. It answers `Failed`, or 0 for a
    /// piece that is not empty, only where the count of faults rose.
    fn write(&mut self, bytes: &[u8]) -> Result<usize, Failed>
        ensures within { IfOk result (λ n. n ≤ length bytes.now) }
        ensures added { IfOk result (λ n. Appends (held self.old) (held self.new) (take n bytes.now)) }
        ensures nothing_added { OnErr result (Keeps (held self.old) (held self.new)) }
        ensures cause { HasCause (took_none result bytes.now) (faults self.old) (faults self.new) };
}
