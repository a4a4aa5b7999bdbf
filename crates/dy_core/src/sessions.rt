ghost use Rattle.std.specs.Prelude.{◌≡◌, ℕ, ◌<◌, ◌^◌, true, false, length, IfSome, IfNone};
ghost use Rattle.std.specs.Option.{option_copied};
ghost use Rattle.dy_entry.specs.Meaning.{entry_of, entries_of};
ghost use Rattle.dy_entry.specs.Summaries.{is_start};
ghost use Rattle.dy_traces.specs.Instances as instances;
ghost use Rattle.dy_traces.specs.Instances.{IsRunningIn, IsSessionOf};
ghost use Rattle.dy_traces.specs.Following as following;
ghost use Rattle.dy_core.specs.Answers.{IsInstance};

use crate::given_leaves;
use crate::searching::end_of;
use dy_entry::Entry;
use dy_flat::FlatTerm;
use dy_term::Word;

/// Whether the entry opens a session of this number, of this principal.
fn opens_for(entry: &Entry, principal: &Word, session: u32) -> bool
    ensures { result ≡ instances.opens_for principal.now session (entry_of entry.now) }
{
    match entry {
        Entry::Start(_, _, owner, other, _, _) => owner.same(principal) && *other == session,
        _ => false,
    }
}

/// Whether the session was opened by a Start of this principal.
pub(crate) fn is_session_of(entries: &[Entry], principal: &Word, session: u32) -> bool
    ensures yes { result ≡ true → IsSessionOf (entries_of entries.now) principal.now session }
    ensures no { result ≡ false → IsSessionOf (entries_of entries.now) principal.now session → ⊥ }
{
    match sqlite_items::at(entries, session as usize) {
        Some(entry) => opens_for(entry, principal, session),
        None => false,
    }
}

fn starts_in(entry: &Entry, session: u32) -> bool
    ensures { result ≡ instances.starts_in session (entry_of entry.now) }
{
    match entry {
        Entry::Start(_, _, _, other, _, _) => *other == session,
        _ => false,
    }
}

/// Whether the instance of this index is in the session and has no End.
fn is_running_in(entries: &[Entry], session: u32, index: u32) -> bool
    requires { length entries.now < 2 ^ 32 }
    ensures yes { result ≡ true → IsRunningIn (entries_of entries.now) session index }
    ensures no { result ≡ false → IsRunningIn (entries_of entries.now) session index → ⊥ }
{
    match sqlite_items::at(entries, index as usize) {
        Some(entry) => starts_in(entry, session) && end_of(entries, index).is_none(),
        None => false,
    }
}

/// An instance of the session that has no End, or `None` where none runs.
pub(crate) fn running_in(entries: &[Entry], session: u32) -> Option<u32>
    requires { length entries.now < 2 ^ 32 }
    ensures runs { IfSome result (λ instance. IsRunningIn (entries_of entries.now) session instance) }
    ensures idle { IfNone result ((instance : ℕ) → IsRunningIn (entries_of entries.now) session instance → ⊥) }
{
    for index in 0..entries.len() {
        if is_running_in(entries, session, index as u32) {
            return Some(index as u32);
        }
    }
    None
}

/// The message at an index, of an instance or of the attacker.
pub(crate) fn message_at(entries: &[Entry], index: u32) -> Option<&FlatTerm>
    ensures { option_copied result ≡ following.message_at (entries_of entries.now) index }
{
    given_leaves::message(entries.get(index as usize)?)
}

fn is_start(entry: &Entry) -> bool
    ensures { result ≡ is_start (entry_of entry.now) }
{
    matches!(entry, Entry::Start(..))
}

/// Whether a Start stands at the index.
pub(crate) fn is_instance(entries: &[Entry], index: u32) -> bool
    ensures yes { result ≡ true → IsInstance (entries_of entries.now) index }
    ensures no { result ≡ false → IsInstance (entries_of entries.now) index → ⊥ }
{
    match sqlite_items::at(entries, index as usize) {
        Some(entry) => is_start(entry),
        None => false,
    }
}
