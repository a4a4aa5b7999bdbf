ghost use Rattle.std.specs.Prelude.{ℕ, ◌<◌, ◌^◌, List, length};
ghost use Rattle.dy_syntax.specs.Files.{File};
ghost use Rattle.dy_entry.specs.Entries.{Entry};
ghost use Rattle.dy_traces.specs.Interleavings.{Interleaves};
ghost use Rattle.dy_trace_text.specs.TraceText.{HasText};

use dy_traces::values_are_small;

/// An interleaving of fewer than 2^32 entries has a text.
pub fn an_interleaving_has_a_text()
    ensures { (bytes : List ℕ) (file : File) (T : List Entry) →
        Interleaves bytes file T → length T < 2 ^ 32 → HasText T }
{
    values_are_small();
}
