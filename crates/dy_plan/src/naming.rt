ghost use Rattle.std.specs.Prelude.{◌≡◌, ◌<◌, ◌^◌, length};
ghost use Rattle.std.specs.Option.{option_map, option_and_then};
ghost use Rattle.dy_entry.specs.Meaning.{entry_of, entries_of};
ghost use Rattle.dy_traces.specs.Steps as traces;
ghost use Rattle.dy_plan.specs.Steps as steps;
ghost use Rattle.dy_plan.specs.Naming as naming;
ghost use Rattle.dy_plan.specs.MirrorNames.{found_in, session_in, trace_in, plan_in};

use crate::names::Names;
use crate::steps::number_of;
use dy_core::step_at;
use dy_entry::{Entry, cert_of, message_of, state_at};
use dy_syntax::{Id, Numbered};
use dy_term::Word;

/// The entry of a step, and its index.
#[derive(Drop)]
struct Found<'a> {
    index: u32,
    entry: &'a Entry,
}

/// A session: the principal that opened it, and its number.
#[derive(Drop)]
struct OpenedSession<'a> {
    principal: &'a Word,
    number: u32,
}

/// The entry at an index.
fn entry_at(entries: &[Entry], index: u32) -> Option<Found<'_>>
    ensures { option_map found_in result ≡ naming.found_at (entries_of entries.now) index }
{
    let entry = sqlite_items::at(entries, index as usize)?;
    Some(Found { index, entry })
}

/// The session that the entry at this index opened.
fn session_opened(index: u32, entry: &Entry) -> Option<OpenedSession<'_>>
    ensures { option_map session_in result ≡ naming.session_opened index (entry_of entry.now) }
{
    match entry {
        Entry::Start(_, _, principal, session, _, _) if *session == index => Some(OpenedSession {
            principal,
            number: index,
        }),
        _ => None,
    }
}

/// The number of a session, if this principal opened it.
fn number_for(session: &OpenedSession, principal: &Word) -> Option<u32>
    ensures { result ≡ naming.number_for principal.now (session_in session.now) }
{
    if session.principal.same(principal) {
        Some(session.number)
    } else {
        None
    }
}

/// The index of the message of this number of the entry of a step.
fn message_of_step(entries: &[Entry], number: u32, index: u32, entry: &Entry) -> Option<u32>
    requires { length entries.now < 2 ^ 32 }
    ensures { result ≡ naming.message_of_step (entries_of entries.now) number index (entry_of entry.now) }
{
    match entry {
        Entry::Start(..) => message_of(entries, index, number),
        Entry::Inject(..) if number == 1 => Some(index),
        _ => None,
    }
}

/// The index of the certificate of this number of the instance that an entry starts.
fn cert_of_step(entries: &[Entry], number: u32, index: u32, entry: &Entry) -> Option<u32>
    requires { length entries.now < 2 ^ 32 }
    ensures { result ≡ naming.cert_of_step (entries_of entries.now) number index (entry_of entry.now) }
{
    match entry {
        Entry::Start(..) => cert_of(entries, index, number),
        _ => None,
    }
}

/// The index of an entry that forges a nonce.
fn nonce_of_step(index: u32, entry: &Entry) -> Option<u32>
    ensures { result ≡ naming.nonce_of_step index (entry_of entry.now) }
{
    match entry {
        Entry::Forge(_) => Some(index),
        _ => None,
    }
}

impl<'a> Names<'a> {
    /// The index of the entry of the step of this name.
    fn index_named(&self, name: &Id) -> Option<u32>
        ensures { result ≡ option_and_then (traces.step_at (trace_in self.now))
            (steps.number_of (plan_in self.now) name.now.word) }
    {
        let number = number_of(self.plan, &name.word)?;
        step_at(self.entries, number)
    }

    /// The entry of the step of this name.
    fn entry_named(&self, name: &Id) -> Option<Found<'a>>
        ensures { option_map found_in result ≡ naming.entry_named (plan_in self.now) (trace_in self.now) name.now.word }
    {
        let index = self.index_named(name)?;
        entry_at(self.entries, index)
    }

    /// The session that the step of this name opened.
    fn session_named(&self, name: &Id) -> Option<OpenedSession<'a>>
        ensures { option_map session_in result
            ≡ naming.session_named (plan_in self.now) (trace_in self.now) name.now.word }
    {
        let found = self.entry_named(name)?;
        session_opened(found.index, found.entry)
    }

    /// The session that the step of this name opened for this principal.
    pub(crate) fn session_of(&self, principal: &Id, name: &Id) -> Option<u32>
        ensures { result
            ≡ naming.session_of (plan_in self.now) (trace_in self.now) principal.now.word name.now.word }
    {
        let session = self.session_named(name)?;
        number_for(&session, &principal.word)
    }

    /// The index of a message of a step: of its instance, or that which it injects.
    pub(crate) fn message_named(&self, message: &Numbered) -> Option<u32>
        ensures { result ≡ naming.message_named (plan_in self.now) (trace_in self.now) message.now.step.word
            message.now.number }
    {
        let found = self.entry_named(&message.step)?;
        message_of_step(self.entries, message.number, found.index, found.entry)
    }

    /// The index of a certificate of the instance of a step.
    pub(crate) fn cert_named(&self, cert: &Numbered) -> Option<u32>
        ensures { result ≡ naming.cert_named (plan_in self.now) (trace_in self.now) cert.now.step.word
            cert.now.number }
    {
        let found = self.entry_named(&cert.step)?;
        cert_of_step(self.entries, cert.number, found.index, found.entry)
    }

    /// The index of the nonce that a step forges.
    pub(crate) fn nonce_named(&self, name: &Id) -> Option<u32>
        ensures { result ≡ naming.nonce_named (plan_in self.now) (trace_in self.now) name.now.word }
    {
        let found = self.entry_named(name)?;
        nonce_of_step(found.index, found.entry)
    }

    /// The index of a version of the session that a step opened.
    pub(crate) fn state_named(&self, name: &Id, version: u32) -> Option<u32>
        ensures { result ≡ naming.state_named (plan_in self.now) (trace_in self.now) name.now.word version }
    {
        let session = self.session_named(name)?;
        state_at(self.entries, session.principal, session.number, version)
    }
}
