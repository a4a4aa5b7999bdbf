ghost use Rattle.std.specs.Prelude.{◌≡◌, ◌+◌, ◌<◌, OnOk};
ghost use Rattle.dy_syntax.specs.Meaning.{plan_of};
ghost use Rattle.dy_traces.specs.declared.limits.TheConstants.{MAX_STEPS};
ghost use Rattle.dy_traces.specs.Steps.{IsUnused};
ghost use Rattle.dy_core.specs.BookMeaning.{trace_of, file_in, decls_in};
ghost use Rattle.dy_plan.specs.Steps.{step_count};
ghost use Rattle.dy_plan.specs.Meaning.{resolved_of};
ghost use Rattle.dy_serial.specs.Running.{GrowsTo};
ghost use Rattle.dy_serial.specs.MirrorRunning.{HasRun, Runs, MayRun};

use crate::attacking::{corrupt, forge, inject, skip};
use crate::instances::run_instance;
use dy_core::Book;
use dy_plan::{Resolved, resolve};
use dy_syntax::Plan;
use dy_term::Memory;
use std::alloc::Global;

/// Does what a step of this number comes to. The one refusal is out of memory.
fn do_step(book: &mut Book, step: u32, resolved: Resolved) -> Result<(), Memory>
    requires low { step < MAX_STEPS }
    requires unused { IsUnused (trace_of book.old) step }
    requires may { MayRun (decls_in book.old) (trace_of book.old) (resolved_of resolved) }
    ensures ran { OnOk result (Runs step (resolved_of resolved) (trace_of book.old) (trace_of book.new)) }
    ensures grows { GrowsTo book.old book.new }
{
    match resolved {
        Resolved::Start(start) => run_instance(book, start),
        Resolved::Corrupt(corruption) => corrupt(book, step, corruption),
        Resolved::Forge => forge(book, step),
        Resolved::Inject(recipe) => inject(book, step, &recipe),
        Resolved::Unresolved => skip(book, step),
    }
}

/// Runs the next step of the plan. The one refusal is out of memory.
pub(crate) fn run_step(alloc: Global, book: &mut Book, plan: &Plan, step: u32) -> Result<(), Memory>
    requires plan { plan_of plan.now ≡ (file_in book.old).plan }
    requires step { step < step_count (plan_of plan.now) }
    requires ran { HasRun (plan_of plan.now) step (trace_of book.old) }
    ensures ran { OnOk result (HasRun (plan_of plan.now) (step + 1) (trace_of book.new)) }
    ensures grows { GrowsTo book.old book.new }
{
    book.is_interleaving();
    let resolved = resolve(alloc, plan, step, book.entries())?;
    do_step(book, step, resolved)
}
