ghost use Rattle.std.specs.Prelude.{List, ◌++◌};
ghost use Rattle.dy_term.specs.Terms.{Term};
ghost use Rattle.dy_entry.specs.Entries.{Entry};
ghost use Rattle.dy_entry.specs.Attacker.{Derives};

/// Entries more take no value from the attacker: what can be derived from a trace can be derived
/// from each longer one.
pub fn a_longer_trace_derives_no_less()
    ensures { (T more : List Entry) (value : Term) → Derives T value → Derives (T ++ more) value }
{}
