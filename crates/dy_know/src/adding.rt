ghost use Rattle.std.specs.Prelude.{◌≡◌, ℕ, ◌∷◌, [], ◌++◌, List, Contains, length, map, IfOk, OnOk};
ghost use Rattle.dy_syntax.specs.Files as files;
ghost use Rattle.dy_syntax.specs.Meaning.{event_of};
ghost use Rattle.dy_entry.specs.Entries as entries;
ghost use Rattle.dy_entry.specs.Meaning.{entry_of};
ghost use Rattle.dy_know.specs.MirrorEvents.{events_in};
ghost use Rattle.dy_know.specs.MirrorAuditors.{fresh_label, new_secret, Keeps};
ghost use Rattle.dy_know.specs.MirrorNotes.{Extends, AddsEvent};

use crate::copying::terms_copy;
use crate::declared_events::event_called;
use crate::happened::Happened;
use crate::lacking::add_lacks;
use crate::notes::Notes;
use crate::secrets::{Knowing, Secret};
use dy_entry::Entry;
use dy_flat::FlatTerm;
use dy_syntax::EventDecl;
use dy_term::{Memory, Word};
use std::alloc::Global;

/// What is kept at first of the nonce that a handler makes by the entry, if it does. It refuses out of memory alone.
fn secret_of(alloc: Global, entry: &Entry) -> Result<Option<Secret>, Memory>
    ensures { IfOk result (λ secret. secret ≡ new_secret (fresh_label (entry_of entry.now))) }
{
    let Entry::Fresh(_, label, _) = entry else {
        return Ok(None);
    };
    Ok(Some(Secret {
        label: label.copy(alloc)?,
        knowing: Knowing::Unknown,
    }))
}

impl Notes {
    /// Adds an event at this index, and the partners that it lacks. It refuses out of memory alone, or where a number
    /// does not fit, and then may have added some.
    fn add_event(
        &mut self,
        alloc: Global,
        events: &[EventDecl],
        index: u32,
        name: &Word,
        args: &[FlatTerm],
    ) -> Result<(), Memory>
        ensures ok { OnOk result (AddsEvent (map event_of events.now) index name.now args.now self.old self.new) }
        ensures extends { Extends self.old self.new }
    {
        if let Some(event) = event_called(events, name) {
            add_lacks(
                alloc,
                &mut self.lacks,
                index,
                event,
                args,
                self.happened.as_slice(),
                self.corruptions.as_slice(),
            )?;
        }
        self.happened.push(Happened {
            name: name.copy(),
            args: terms_copy(alloc, args)?,
        })?;
        Ok(())
    }

    /// Adds an entry, of a file that declares these events. It refuses out of memory alone, or where a number does not
    /// fit, and then may have added some.
    pub(crate) fn add(
        &mut self,
        alloc: Global,
        events: &[EventDecl],
        entry: &Entry,
    ) -> Result<(), Memory>
        ensures ok { OnOk result ((known : List ℕ) (decls : List files.Decl) (T : List entries.Entry) →
            map event_of events.now ≡ events_in decls → (Contains known (length T) → ⊥) →
            Keeps self.old known [] decls T → Keeps self.new known [] decls (T ++ entry_of entry.now ∷ [])) }
        ensures extends { Extends self.old self.new }
    {
        let index = self.secrets.len();
        if index >= u32::MAX as usize {
            return Err(Memory);
        }
        self.secrets.push(secret_of(alloc, entry)?)?;
        match entry {
            Entry::Corrupt(_, corruption) => Ok(self.corruptions.push(corruption.copy())?),
            Entry::Event(_, _, name, args) => {
                self.add_event(alloc, events, index as u32, name, args.as_slice())
            }
            _ => Ok(()),
        }
    }
}
