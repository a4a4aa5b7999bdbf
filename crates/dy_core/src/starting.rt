ghost use Rattle.std.specs.Prelude.{◌≡◌, ◌<◌, ◌^◌, true, length, Some, None, IfSome, IfNone, IfOk, IsSome};
ghost use Rattle.dy_syntax.specs.Meaning.{file_of};
ghost use Rattle.dy_syntax.specs.LookUps.{handler_named};
ghost use Rattle.dy_entry.specs.Entries as entries;
ghost use Rattle.dy_entry.specs.Meaning.{entry_of, entries_of};
ghost use Rattle.dy_eval.specs.Meaning.{standing_of};
ghost use Rattle.dy_core.specs.StepMeaning as meaning;
ghost use Rattle.dy_core.specs.MirrorBooks as mirror;
ghost use Rattle.dy_core.specs.MirrorBooks.{MayBegin};
ghost use Rattle.dy_traces.specs.Steps.{IsUnused};
ghost use Rattle.dy_core.specs.StepMeaning.{step_of};
ghost use Rattle.dy_core.specs.Asking.{asks_right};
ghost use Rattle.dy_core.specs.BookMeaning.{trace_of, decls_in, StaysInterleaved};
ghost use Rattle.dy_core.specs.Answers.{IsStarted, IsOpened, IsIdle, HasMessage};

use crate::answers::Started;
use crate::books::Book;
use crate::pushing::push_within;
use crate::running::Running;
use crate::searching::step_at;
use crate::sessions::{is_session_of, message_at, running_in};
use crate::steps::StartStep;
use dy_entry::Entry;
use dy_eval::Instance;
use dy_syntax::File;
use dy_term::Memory;
use dy_traces::{a_longer_interleaving, a_longer_short_trace};
use std::alloc::Global;

/// The session of the Start of this index: that which is given, or one of its own.
fn session_of(session: Option<u32>, index: u32) -> u32
    ensures { result ≡ meaning.session_of session index }
{
    session.unwrap_or(index)
}

/// The instance of a step before it does anything. It refuses out of memory alone.
fn opened_by(
    alloc: Global,
    file: &File,
    entries: &[Entry],
    step: &StartStep,
) -> Result<Instance, Memory>
    requires declared { IsSome (handler_named (file_of file.now).decls step.now.handler) }
    requires few { length entries.now < 2 ^ 32 }
    ensures { IfOk result (λ instance. Some (standing_of instance)
        ≡ mirror.opened_by (file_of file.now).decls (entries_of entries.now) (step_of step.now)) }
{
    let session = session_of(step.session, entries.len() as u32);
    let received = match step.message {
        Some(index) => message_at(entries, index),
        None => None,
    };
    Instance::begin(
        alloc,
        file,
        &step.handler,
        &step.principal,
        session,
        step.args.as_slice(),
        received,
    )
}

/// The Start of a step, which has this index.
fn start_of(step: StartStep, index: u32) -> Entry
    ensures { entry_of result ≡ entries.Start step.step step.handler step.principal
        (meaning.session_of step.session index) step.args step.message }
{
    let session = session_of(step.session, index);
    Entry::Start(
        step.step,
        step.handler,
        step.principal,
        session,
        step.args,
        step.message,
    )
}

/// Why the session that is given may not be gone on with, or `None` where it may.
fn session_refusal(entries: &[Entry], step: &StartStep) -> Option<Started>
    requires few { length entries.now < 2 ^ 32 }
    requires unused { IsUnused (entries_of entries.now) step.now.step }
    ensures refused { IfSome result
        (λ why. IsStarted (entries_of entries.now) (step_of step.now) why (entries_of entries.now)) }
    ensures may { IfNone result (IsOpened (entries_of entries.now) step.now.principal step.now.session
        × IsIdle (entries_of entries.now) step.now.session) }
{
    let session = step.session?;
    if !is_session_of(entries, &step.principal, session) {
        return Some(Started::NoSession);
    }
    let instance = running_in(entries, session)?;
    Some(Started::Busy { instance })
}

/// Why the message that is given may not be received, or `None` where it may.
fn message_refusal(entries: &[Entry], step: &StartStep) -> Option<Started>
    requires few { length entries.now < 2 ^ 32 }
    requires unused { IsUnused (entries_of entries.now) step.now.step }
    requires opened { IsOpened (entries_of entries.now) step.now.principal step.now.session }
    requires idle { IsIdle (entries_of entries.now) step.now.session }
    ensures refused { IfSome result
        (λ why. IsStarted (entries_of entries.now) (step_of step.now) why (entries_of entries.now)) }
    ensures may { IfNone result (HasMessage (entries_of entries.now) step.now.message) }
{
    let index = step.message?;
    match message_at(entries, index) {
        Some(_) => None,
        None => Some(Started::NoMessage),
    }
}

/// Why a step may not start an instance, by the first cause in order, or `None` where it may.
fn refusal(entries: &[Entry], step: &StartStep) -> Option<Started>
    requires { length entries.now < 2 ^ 32 }
    ensures refused { IfSome result
        (λ why. IsStarted (entries_of entries.now) (step_of step.now) why (entries_of entries.now)) }
    ensures may { IfNone result (MayBegin (entries_of entries.now) (step_of step.now)) }
{
    if let Some(index) = step_at(entries, step.step) {
        return Some(Started::Already { index });
    }
    match session_refusal(entries, step) {
        Some(why) => Some(why),
        None => message_refusal(entries, step),
    }
}

impl Book {
    /// Starts the instance of a step that may start. It refuses out of memory alone.
    fn begin(&mut self, step: StartStep) -> Started
        requires right { asks_right (decls_in self.old) (step_of step) ≡ true }
        requires may { MayBegin (trace_of self.old) (step_of step) }
        ensures answer { IsStarted (trace_of self.old) (step_of step) result (trace_of self.new) }
        ensures file { self.new.file ≡ self.old.file }
    {
        a_longer_interleaving();
        a_longer_short_trace();
        if self.entries.len() >= u32::MAX as usize
            || self.entries.reserve(1).is_err()
            || self.running.reserve(1).is_err()
        {
            return Started::Memory;
        }
        let index = self.entries.len() as u32;
        let opened = opened_by(self.alloc, &self.file, self.entries.as_slice(), &step);
        let Ok(instance) = opened else {
            return Started::Memory;
        };
        push_within(&mut self.entries, start_of(step, index));
        push_within(
            &mut self.running,
            Running {
                start: index,
                landed: None,
                instance,
            },
        );
        Started::Ok { index }
    }

    /// Starts an instance of a handler. The step fits the file, as `asks_right` tests. `Already` has the index of the
    /// entry of this step, where it has one. `NoSession` comes where the session that is given was opened by no Start
    /// of the principal. `Busy` comes where an instance of it has no End, and `NoMessage` where no message stands at
    /// the given index. Each comes exactly where the earlier ones do not. The other refusal is out of memory. After a
    /// refusal the Book is as it was.
    pub fn start(&mut self, step: StartStep) -> Started
        requires { asks_right (decls_in self.old) (step_of step) ≡ true }
        ensures answer { IsStarted (trace_of self.old) (step_of step) result (trace_of self.new) }
        ensures file { self.new.file ≡ self.old.file }
        ensures interleaves { StaysInterleaved self.old self.new }
    {
        a_longer_interleaving();
        match refusal(self.entries.as_slice(), &step) {
            Some(why) => why,
            None => self.begin(step),
        }
    }
}
