ghost use Rattle.std.specs.Prelude.{◌≡◌};
ghost use Rattle.std.specs.Option.{option_map};
ghost use Rattle.dy_entry.specs.LookUps as look_ups;
ghost use Rattle.dy_entry.specs.Meaning.{entry_of};
ghost use Rattle.dy_entry.specs.MirrorLookUps.{covers_version, is_output};

use crate::outputs::Output;
use dy_flat::FlatTerm;
use dy_label::{Corruption, Label, Outcome, Usage};
use dy_term::Word;
use sqlite_items::Items;

/// An entry of a trace. It is named by its index, and an instance by the index of its `Start`. A
/// session is named by the index of the `Start` that opened it. A session's versions count from 1.
#[derive(Debug, Drop)]
pub enum Entry {
    /// The bytes of the protocol file.
    Setup(Items<u8>),
    /// An instance begins: its step, handler, principal, session and the names that it is given. It
    /// has the index of the message that it is given, if it is given one.
    Start(u32, Word, Word, u32, Items<Word>, Option<u32>),
    /// A nonce that a handler makes: its instance, label and usage.
    Fresh(u32, Label, Usage),
    /// A message: its instance and value.
    Message(u32, FlatTerm),
    /// A version of a session's state: its instance, principal, session, version, tag and fields.
    State(u32, Word, u32, u32, Word, Items<FlatTerm>),
    /// An event: its instance, principal, name and arguments.
    Event(u32, Word, Word, Items<FlatTerm>),
    /// A certificate: its instance, principal, the name of its usage, and its key.
    Cert(u32, Word, Word, FlatTerm),
    /// An instance ends: the instance, and how it ends.
    End(u32, Outcome),
    /// A corruption: its step, and what the attacker takes.
    Corrupt(u32, Corruption),
    /// A nonce that the attacker makes: its step.
    Forge(u32),
    /// A message of the attacker: its step and value.
    Inject(u32, FlatTerm),
    /// A step of a plan that could not be resolved.
    Skip(u32),
}

impl Entry {
    /// Whether the entry is a corruption that covers this version.
    pub(crate) fn covers(&self, principal: &Word, session: u32, version: u32) -> bool
        ensures { result ≡ covers_version principal.now session version (entry_of self.now) }
    {
        let Entry::Corrupt(_, corruption) = self else {
            return false;
        };
        corruption.covers(principal, session, version)
    }

    /// Whether the entry is this version of this session of the principal.
    pub(crate) fn is_version_of(&self, principal: &Word, session: u32, version: u32) -> bool
        ensures { result ≡ look_ups.is_version_of principal.now session version (entry_of self.now) }
    {
        let Entry::State(_, owner, stored_session, stored_version, _, _) = self else {
            return false;
        };
        owner.same(principal) && *stored_session == session && *stored_version == version
    }

    /// The version that the entry stores in this session of the principal, or 0.
    pub(crate) fn version_in(&self, principal: &Word, session: u32) -> u32
        ensures { result ≡ look_ups.version_in principal.now session (entry_of self.now) }
    {
        let Entry::State(_, owner, stored_session, version, _, _) = self else {
            return 0;
        };
        if owner.same(principal) && *stored_session == session {
            *version
        } else {
            0
        }
    }

    /// The session and version of a state of this principal and tag.
    pub(crate) fn place_of_state(&self, principal: &Word, tag: &Word) -> Option<(u32, u32)>
        ensures { result ≡ look_ups.place_of_state principal.now tag.now (entry_of self.now) }
    {
        let Entry::State(_, owner, session, version, stored_tag, _) = self else {
            return None;
        };
        if owner.same(principal) && stored_tag.same(tag) {
            Some((*session, *version))
        } else {
            None
        }
    }

    /// Whether the entry is a certificate of this principal for this usage.
    pub(crate) fn is_cert_for(&self, principal: &Word, usage: &Word) -> bool
        ensures { result ≡ look_ups.is_cert_for principal.now usage.now (entry_of self.now) }
    {
        let Entry::Cert(_, owner, certified_usage, _) = self else {
            return false;
        };
        owner.same(principal) && certified_usage.same(usage)
    }

    /// Whether the entry is an output of this kind and of this instance.
    pub(crate) fn is_output(&self, output: Output, instance: u32) -> bool
        ensures { result ≡ is_output output instance (entry_of self.now) }
    {
        match (self, output) {
            (Entry::Message(of, _), Output::Message) | (Entry::Cert(of, ..), Output::Cert) => *of
                == instance,
            _ => false,
        }
    }
}
