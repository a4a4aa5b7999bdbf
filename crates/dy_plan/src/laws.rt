ghost use Rattle.std.specs.Prelude.{◌≡◌, ℕ, List};
ghost use Rattle.dy_syntax.specs.Files.{File};
ghost use Rattle.dy_entry.specs.Entries.{Entry};
ghost use Rattle.dy_traces.specs.Interleavings.{Interleaves};
ghost use Rattle.dy_plan.specs.Completeness.{IsSerial};

/// Of the plan of a file there is one serial interleaving at most.
pub fn one_serial_interleaving()
    ensures { (bytes : List ℕ) (file : File) (T other : List Entry) → Interleaves bytes file T →
        IsSerial file.plan T → Interleaves bytes file other → IsSerial file.plan other → T ≡ other }
{}
