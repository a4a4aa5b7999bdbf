ghost use Rattle.std.specs.Prelude.{◌≡◌, ◌<◌, ◌^◌, length, position, IfOk, IfSome, MatchOption};
ghost use Rattle.std.specs.List.{list_any};
ghost use Rattle.dy_label.specs.LabelsMeaning.{places_of};
ghost use Rattle.dy_entry.specs.LookUps as look_ups;
ghost use Rattle.dy_entry.specs.LookUps.{IsNext, HasNoNext, IsNth, HasNoNth, is_message_of, is_cert_of};
ghost use Rattle.dy_entry.specs.Meaning.{entry_of, entries_of};
ghost use Rattle.dy_entry.specs.MirrorLookUps.{covers_version, is_output};

use crate::candidates::{Candidate, earlier_of};
use crate::entries::Entry;
use crate::outputs::Output;
use dy_label::Corruption;
use dy_term::{Memory, Word};
use std::alloc::Global;

/// All corruptions, in order. It refuses out of memory alone.
pub fn corruptions(alloc: Global, entries: &[Entry]) -> Result<Vec<Corruption>, Memory>
    ensures { IfOk result (λ found. places_of found.items ≡ look_ups.corruptions (entries_of entries.now)) }
{
    let mut found = Vec::new(alloc);
    for entry in entries {
        if let Entry::Corrupt(_, corruption) = entry {
            found.push(corruption.copy())?;
        }
    }
    Ok(found)
}

/// Whether some corruption covers this version of this session of the principal, so that the
/// attacker has what is stored there.
pub fn is_covered(entries: &[Entry], principal: &Word, session: u32, version: u32) -> bool
    ensures { result ≡ look_ups.is_covered (entries_of entries.now) principal.now session version }
{
    is_covered_by_some(entries, principal, session, version)
}

fn is_covered_by_some(entries: &[Entry], principal: &Word, session: u32, version: u32) -> bool
    ensures { result
        ≡ list_any (λ entry. covers_version principal.now session version (entry_of entry)) entries.now }
{
    entries
        .iter()
        .any(|entry| entry.covers(principal, session, version))
}

/// The index of the first state that is this version of this session of the principal, or `None`
/// where none is. The entries are fewer than 2^32.
pub fn state_at(entries: &[Entry], principal: &Word, session: u32, version: u32) -> Option<u32>
    requires { length entries.now < 2 ^ 32 }
    ensures { result ≡ look_ups.state_at (entries_of entries.now) principal.now session version }
{
    let index = first_version(entries, principal, session, version)?;
    Some(index as u32)
}

fn first_version(entries: &[Entry], principal: &Word, session: u32, version: u32) -> Option<usize>
    ensures first { result ≡
        position (λ entry. look_ups.is_version_of principal.now session version (entry_of entry)) entries.now }
    ensures within { IfSome result (λ index. index < length entries.now) }
{
    entries
        .iter()
        .position(|entry| entry.is_version_of(principal, session, version))
}

/// The greatest version of this session of the principal, or 0 where it has none.
pub fn newest(entries: &[Entry], principal: &Word, session: u32) -> u32
    ensures { result ≡ look_ups.newest (entries_of entries.now) principal.now session }
{
    let mut newest = 0;
    for entry in entries {
        newest = entry.version_in(principal, session).max(newest);
    }
    newest
}

/// The index of the next state of this principal and tag, or `None` where there is none. States are
/// in the order of rising sessions and, within one, of falling versions. It looks after the session
/// and version `from`, or from the first on where none is given. Where several states have the same
/// session and version, the least index is answered. The entries are fewer than 2^32.
pub fn find_state(
    entries: &[Entry],
    principal: &Word,
    tag: &Word,
    from: Option<(u32, u32)>,
) -> Option<u32>
    requires { length entries.now < 2 ^ 32 }
    ensures { MatchOption result
        (HasNoNext (entries_of entries.now) principal.now tag.now from)
        (λ index. IsNext (entries_of entries.now) principal.now tag.now from index) }
{
    let mut found: Option<Candidate> = None;
    for (index, entry) in entries.iter().enumerate() {
        if let Some(at) = entry.place_of_state(principal, tag) {
            found = earlier_of(from, found, (index as u32, at));
        }
    }
    let (index, _) = found?;
    Some(index)
}

/// The index of the first certificate of this principal for this usage, or `None` where there is
/// none. The entries are fewer than 2^32.
pub fn find_cert(entries: &[Entry], principal: &Word, usage: &Word) -> Option<u32>
    requires { length entries.now < 2 ^ 32 }
    ensures { result ≡ look_ups.find_cert (entries_of entries.now) principal.now usage.now }
{
    let index = first_cert(entries, principal, usage)?;
    Some(index as u32)
}

fn first_cert(entries: &[Entry], principal: &Word, usage: &Word) -> Option<usize>
    ensures first { result ≡
        position (λ entry. look_ups.is_cert_for principal.now usage.now (entry_of entry)) entries.now }
    ensures within { IfSome result (λ index. index < length entries.now) }
{
    entries
        .iter()
        .position(|entry| entry.is_cert_for(principal, usage))
}

/// The index of the message of the instance that has this number, counted from 1, or `None` where
/// none has. The entries are fewer than 2^32.
pub fn message_of(entries: &[Entry], instance: u32, number: u32) -> Option<u32>
    requires { length entries.now < 2 ^ 32 }
    ensures { MatchOption result
        (HasNoNth (is_message_of instance) (entries_of entries.now) number)
        (λ index. IsNth (is_message_of instance) (entries_of entries.now) number index) }
{
    nth_output(entries, Output::Message, instance, number)
}

/// The index of the certificate of the instance that has this number, counted from 1, or `None`
/// where none has. The entries are fewer than 2^32.
pub fn cert_of(entries: &[Entry], instance: u32, number: u32) -> Option<u32>
    requires { length entries.now < 2 ^ 32 }
    ensures { MatchOption result
        (HasNoNth (is_cert_of instance) (entries_of entries.now) number)
        (λ index. IsNth (is_cert_of instance) (entries_of entries.now) number index) }
{
    nth_output(entries, Output::Cert, instance, number)
}

fn nth_output(entries: &[Entry], output: Output, instance: u32, number: u32) -> Option<u32>
    requires { length entries.now < 2 ^ 32 }
    ensures { MatchOption result
        (HasNoNth (is_output output instance) (entries_of entries.now) number)
        (λ index. IsNth (is_output output instance) (entries_of entries.now) number index) }
{
    if number == 0 {
        return None;
    }
    let before = number - 1;
    let mut seen = 0;
    for (index, entry) in entries.iter().enumerate() {
        if entry.is_output(output, instance) {
            if seen == before {
                return Some(index as u32);
            }
            seen += 1;
        }
    }
    None
}
