ghost use Rattle.std.specs.Prelude.{◌≡◌, ℕ, ◌<◌, true, IfOk, OnErr};
ghost use Rattle.dy_entry.specs.Meaning.{entry_of};
ghost use Rattle.dy_traces.specs.declared.limits.TheConstants.{MAX_STEPS};
ghost use Rattle.dy_traces.specs.Steps.{has_step};
ghost use Rattle.dy_traces.specs.Following.{MayFollow};
ghost use Rattle.dy_core.specs.BookMeaning.{trace_of, decls_in, StaysInterleaved};
ghost use Rattle.dy_core.specs.MirrorBooks.{IsOfNoInstance};
ghost use Rattle.dy_core.specs.Answers.{Adds};

use crate::books::Book;
use dy_entry::Entry;
use dy_term::Memory;
use dy_traces::{a_longer_interleaving, a_longer_short_trace};

impl Book {
    /// Adds the entry of a step that starts no instance. Out of memory, the one refusal, the trace is as it was. It is
    /// refused too where the trace has 2^32 - 1 entries, which no short one has.
    pub(crate) fn add(&mut self, entry: Entry) -> Result<u32, Memory>
        requires follows { MayFollow (decls_in self.old) (trace_of self.old) (entry_of entry) }
        requires other { IsOfNoInstance (entry_of entry) }
        requires low { (step : ℕ) → has_step step (entry_of entry) ≡ true → step < MAX_STEPS }
        ensures ok { IfOk result (λ index. Adds (trace_of self.old) (trace_of self.new) index (entry_of entry)) }
        ensures err { OnErr result (trace_of self.new ≡ trace_of self.old) }
        ensures file { self.new.file ≡ self.old.file }
        ensures interleaves { StaysInterleaved self.old self.new }
    {
        a_longer_interleaving();
        a_longer_short_trace();
        let index = self.entries.len();
        if index >= u32::MAX as usize {
            return Err(Memory);
        }
        match self.entries.push(entry) {
            Ok(()) => Ok(index as u32),
            Err(_) => Err(Memory),
        }
    }
}
