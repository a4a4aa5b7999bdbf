ghost use Rattle.std.specs.Prelude.{◌≡◌, OnOk};
ghost use Rattle.dy_syntax.specs.Meaning.{plan_of};
ghost use Rattle.dy_core.specs.BookMeaning.{trace_of, file_in, StaysInterleaved};
ghost use Rattle.dy_plan.specs.Completeness.{IsSerial};
ghost use Rattle.dy_serial.specs.Running.{IsSetupAlone, Begins};

use crate::steps::run_step;
use dy_core::Book;
use dy_plan::step_count;
use dy_syntax::Plan;
use dy_term::Memory;
use std::alloc::Global;

/// Runs the plan of the Book's file step by step in the order of the text, each instance to its End. The Book holds its
/// Setup alone. The one refusal is out of memory; a part of the plan may stand in the trace then.
pub fn run_serially(alloc: Global, book: &mut Book, plan: &Plan) -> Result<(), Memory>
    requires alone { IsSetupAlone (trace_of book.old) }
    requires plan { plan_of plan.now ≡ (file_in book.old).plan }
    ensures serial { OnOk result (IsSerial (plan_of plan.now) (trace_of book.new)) }
    ensures begins { Begins (trace_of book.old) (trace_of book.new) }
    ensures interleaves { StaysInterleaved book.old book.new }
    ensures file { file_in book.new ≡ file_in book.old }
{
    book.is_interleaving();
    for step in 0..step_count(plan) {
        run_step(alloc, book, plan, step)?;
    }
    Ok(())
}
