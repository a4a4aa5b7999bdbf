ghost use Rattle.std.specs.Prelude.{◌≡◌, ◌<◌, ◌^◌, length, map, Some, None, IfOk, IsErrOf};
ghost use Rattle.std.specs.Option.{option_map};
ghost use Rattle.dy_syntax.specs.Meaning.{id_of, on_step_of, numbered_of, action_of, plan_of};
ghost use Rattle.dy_entry.specs.Meaning.{entries_of};
ghost use Rattle.dy_plan.specs.Steps.{step_count};
ghost use Rattle.dy_plan.specs.Resolving as resolving;
ghost use Rattle.dy_plan.specs.MirrorNames.{trace_in, plan_in};
ghost use Rattle.dy_plan.specs.Meaning.{resolved_of};

use crate::names::Names;
use crate::recipes::{Refusal, found};
use crate::resolved::Resolved;
use crate::steps::numbered_step;
use dy_core::StartStep;
use dy_entry::Entry;
use dy_label::Corruption;
use dy_syntax::{Action, Id, Numbered, OnStep, Plan};
use dy_term::{Memory, Word};
use sqlite_items::Items;
use std::alloc::{AllocError, Global};

/// The words of these names.
fn words_of(alloc: Global, ids: &[Id]) -> Result<Items<Word>, AllocError>
    ensures { IfOk result (λ words. words ≡ map (λ id. id.word) (map id_of ids.now)) }
{
    let mut words = Items::new(alloc);
    for id in ids {
        words.push(id.word.copy())?;
    }
    Ok(words)
}

impl Names<'_> {
    /// The session that a start step goes on, if it goes on one.
    fn session_for(&self, principal: &Id, on: &Option<OnStep>) -> Result<Option<u32>, Refusal>
        ensures found { IfOk result (λ session. resolving.session_for (plan_in self.now) (trace_in self.now)
            principal.now.word (option_map on_step_of on.now) ≡ Some session) }
        ensures lacking { IsErrOf result Refusal.Unresolved → resolving.session_for (plan_in self.now)
            (trace_in self.now) principal.now.word (option_map on_step_of on.now) ≡ None }
    {
        match on {
            None => Ok(None),
            Some(on) => Ok(Some(found(self.session_of(principal, &on.step))?)),
        }
    }

    /// The message that a start step receives, if it receives one.
    fn message_for(&self, message: &Option<Numbered>) -> Result<Option<u32>, Refusal>
        ensures found { IfOk result (λ index. resolving.message_for (plan_in self.now) (trace_in self.now)
            (option_map numbered_of message.now) ≡ Some index) }
        ensures lacking { IsErrOf result Refusal.Unresolved → resolving.message_for (plan_in self.now)
            (trace_in self.now) (option_map numbered_of message.now) ≡ None }
    {
        match message {
            None => Ok(None),
            Some(message) => Ok(Some(found(self.message_named(message))?)),
        }
    }

    /// What a step of this number does.
    fn action(&self, number: u32, action: &Action) -> Result<Resolved, Refusal>
        ensures found { IfOk result (λ resolved. resolving.action_in (plan_in self.now) (trace_in self.now) number
            (action_of action.now) ≡ Some (resolved_of resolved)) }
        ensures lacking { IsErrOf result Refusal.Unresolved → resolving.action_in (plan_in self.now)
            (trace_in self.now) number (action_of action.now) ≡ None }
    {
        match action {
            Action::Start {
                principal,
                handler,
                args,
                on,
                msg,
            } => {
                let session = self.session_for(principal, on)?;
                let message = self.message_for(msg)?;
                let args = words_of(self.alloc, args.as_slice())?;
                Ok(Resolved::Start(StartStep {
                    step: number,
                    handler: handler.word.copy(),
                    principal: principal.word.copy(),
                    session,
                    args,
                    message,
                }))
            }
            Action::Corrupt {
                principal,
                session,
                version,
            } => {
                let session = found(self.session_of(principal, session))?;
                let principal = principal.word.copy();
                Ok(Resolved::Corrupt(Corruption::Version(principal, session, *version)))
            }
            Action::Forge => Ok(Resolved::Forge),
            Action::Inject(recipe) => Ok(Resolved::Inject(self.moves_of(recipe)?)),
        }
    }
}

/// What the step of this number comes to in a trace. `Unresolved` comes exactly where a step that it names lacks the
/// entry that is asked of it, or where the plan has no such step. Of a field only the State is looked up, and not
/// whether a corruption covers it. The plan has fewer than 2^32 steps, and the trace fewer than 2^32 entries. The one
/// refusal is out of memory.
pub fn resolve(alloc: Global, plan: &Plan, step: u32, entries: &[Entry]) -> Result<Resolved, Memory>
    requires steps { step_count (plan_of plan.now) < 2 ^ 32 }
    requires entries { length entries.now < 2 ^ 32 }
    ensures { IfOk result (λ resolved.
        resolved_of resolved ≡ resolving.resolution (plan_of plan.now) (entries_of entries.now) step) }
{
    let Some(named) = numbered_step(plan, step) else {
        return Ok(Resolved::Unresolved);
    };
    let names = Names {
        alloc,
        plan,
        entries,
    };
    match names.action(step, &named.action) {
        Ok(resolved) => Ok(resolved),
        Err(Refusal::Unresolved) => Ok(Resolved::Unresolved),
        Err(Refusal::Memory) => Err(Memory),
    }
}
