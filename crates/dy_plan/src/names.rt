ghost use Rattle.std.specs.Prelude.{◌≡◌, ◌<◌, ◌^◌, length};
ghost use Rattle.dy_syntax.specs.Meaning.{plan_of};
ghost use Rattle.dy_plan.specs.Steps.{step_count};

use dy_entry::Entry;
use dy_syntax::Plan;
use std::alloc::Global;

/// The allocator, a plan of fewer than 2^32 steps, and a trace of fewer than 2^32 entries in which its steps are
/// looked up.
#[derive(Drop)]
pub(crate) struct Names<'a> {
    pub(crate) alloc: Global,
    pub(crate) plan: &'a Plan,
    pub(crate) entries: &'a [Entry],
    ghost few_steps: { step_count (plan_of plan.now) < 2 ^ 32 },
    ghost few_entries: { length entries.now < 2 ^ 32 },
}
