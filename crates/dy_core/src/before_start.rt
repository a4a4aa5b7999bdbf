ghost use Rattle.std.specs.Prelude.{◌≡◌, ◌<◌, ◌^◌, length};
ghost use Rattle.std.specs.Option.{option_map, option_copied};
ghost use Rattle.dy_entry.specs.Meaning.{entry_of, entries_of};
ghost use Rattle.dy_eval.specs.Past.{stored_by};
ghost use Rattle.dy_eval.specs.StoredMeaning.{stored_of};

use crate::given_leaves;
use dy_entry::Entry;
use dy_eval::{Past, Stored};
use dy_flat::FlatTerm;
use dy_term::Word;

/// The entries before the Start of an instance.
#[derive(Clone, Copy)]
pub(crate) struct BeforeStart<'a> {
    pub(crate) entries: &'a [Entry],
    ghost few: { length entries.now < 2 ^ 32 },
}

/// What an entry stores, if it is a State.
fn stored_by(entry: &Entry) -> Option<Stored<'_>>
    ensures { option_map stored_of result ≡ stored_by (entry_of entry.now) }
{
    match entry {
        Entry::State(_, _, session, version, tag, fields) => Some(Stored {
            tag,
            session: *session,
            version: *version,
            fields: fields.as_slice(),
        }),
        _ => None,
    }
}

impl Past for BeforeStart<'_> {
    ghost trace = { λ before. entries_of before.entries.now };

    fn state_at(&self, principal: &Word, session: u32, version: u32) -> Option<u32> {
        dy_entry::state_at(self.entries, principal, session, version)
    }

    fn newest(&self, principal: &Word, session: u32) -> u32 {
        dy_entry::newest(self.entries, principal, session)
    }

    fn find_state(&self, principal: &Word, tag: &Word, from: Option<(u32, u32)>) -> Option<u32> {
        dy_entry::find_state(self.entries, principal, tag, from)
    }

    fn find_cert(&self, principal: &Word, usage: &Word) -> Option<u32> {
        dy_entry::find_cert(self.entries, principal, usage)
    }

    fn state(&self, index: u32) -> Option<Stored<'_>> {
        stored_by(self.entries.get(index as usize)?)
    }

    fn cert(&self, index: u32) -> Option<&FlatTerm> {
        given_leaves::cert(self.entries.get(index as usize)?)
    }
}
