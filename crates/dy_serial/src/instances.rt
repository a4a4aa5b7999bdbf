ghost use Rattle.std.specs.Prelude.{◌≡◌, true, None, OnOk};
ghost use Rattle.dy_traces.specs.Instances.{end_of};
ghost use Rattle.dy_core.specs.BookMeaning.{trace_of, decls_in};
ghost use Rattle.dy_core.specs.Asking.{asks_right};
ghost use Rattle.dy_core.specs.StepMeaning.{step_of};
ghost use Rattle.dy_core.specs.MirrorBooks.{MayBegin};
ghost use Rattle.dy_core.specs.Answers.{IsInstance};
ghost use Rattle.dy_serial.specs.Running.{GrowsTo};
ghost use Rattle.dy_serial.specs.MirrorRunning.{RunsToEnd, RunsStart};

use dy_core::{Advanced, Book, StartStep, Started};
use dy_term::Memory;

/// Advances an instance that has no End to its End. The one refusal is out of memory.
fn run_to_end(book: &mut Book, instance: u32) -> Result<(), Memory>
    requires stands { IsInstance (trace_of book.old) instance }
    requires goes_on { end_of (trace_of book.old) instance ≡ None }
    ensures ran { OnOk result (RunsToEnd instance (trace_of book.old) (trace_of book.new)) }
    ensures grows { GrowsTo book.old book.new }
{
    loop {
        match book.advance(instance) {
            Advanced::Put { .. } => {}
            Advanced::Finished { .. } => return Ok(()),
            Advanced::Memory => return Err(Memory),
            Advanced::NoInstance | Advanced::Ended { .. } => unreachable!(),
        }
    }
}

/// Starts the instance of a step that may start, and advances it to its End. The one refusal is out of memory.
pub(crate) fn run_instance(book: &mut Book, step: StartStep) -> Result<(), Memory>
    requires right { asks_right (decls_in book.old) (step_of step) ≡ true }
    requires may { MayBegin (trace_of book.old) (step_of step) }
    ensures ran { OnOk result (RunsStart (step_of step) (trace_of book.old) (trace_of book.new)) }
    ensures grows { GrowsTo book.old book.new }
{
    book.is_interleaving();
    match book.start(step) {
        Started::Ok { index } => run_to_end(book, index),
        Started::Memory => Err(Memory),
        Started::Already { .. } | Started::NoSession | Started::Busy { .. } | Started::NoMessage =>
            unreachable!(),
    }
}
