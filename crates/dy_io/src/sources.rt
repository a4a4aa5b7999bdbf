ghost use Rattle.std.specs.Prelude.{◌≡◌, ◌<◌, ◌≤◌, ℕ, List, Option, length, take, IfOk, OnErr, is_err};
ghost use Rattle.std.specs.Io.KnownBytes.{Consumes, Keeps, IsAtEnd};
ghost use Rattle.dy_io.specs.Faults.{HasCause};

/// A read or a write that did not come about.
#[derive(Clone, Copy, Debug, PartialEq, Eq)]
pub struct Failed;

/// Where bytes come from.
pub trait Source {
    /// The bytes that are left, or `None` where the source does not tell them.
    ghost left: { Self → Option (List ℕ) };

    /// How many reads have failed. It never falls.
    ghost faults: { Self → ℕ };

    /// Takes bytes into the start of `buf`, and answers how many. For a buffer with room, 0 is the
    /// end of input. It answers `Failed` only where the count of faults rose.
    fn read(&mut self, buf: &mut [u8]) -> Result<usize, Failed>
        ensures within { IfOk result (λ n. n ≤ length buf.new) }
        // The bytes are the first of those that were left.
        ensures taken { IfOk result (λ n. Consumes (left self.old) (left self.new) (take n buf.new)) }
        ensures ended { IfOk result (λ n. n ≡ 0 → 0 < length buf.new → IsAtEnd (left self.new)) }
        ensures nothing_taken { OnErr result (Keeps (left self.old) (left self.new)) }
        ensures cause { HasCause (is_err result) (faults self.old) (faults self.new) };
}
