ghost use Rattle.std.specs.Prelude.{◌<◌, ◌^◌, length};

use super::*;
use dy_flat::{FlatTerm, lit, name, nonce};
use dy_label::{Corruption, Kind, Label, Outcome, Reader, Usage};
use dy_term::{Memory, Text, Word};
use sqlite_items::Items;
use std::alloc::Global;
use std::test::*;

/// These bytes as a word. They are one.
fn word(bytes: &[u8]) -> Result<Word, Memory> {
    match Word::new(bytes) {
        Some(word) => Ok(word),
        None => Err(Memory),
    }
}

/// One word as a list.
fn one_word(alloc: Global, bytes: &[u8]) -> Result<Items<Word>, Memory> {
    let mut words = Items::new(alloc);
    match words.push(word(bytes)?) {
        Ok(()) => Ok(words),
        Err(_) => Err(Memory),
    }
}

/// One term as a list.
fn one_term(alloc: Global, term: FlatTerm) -> Result<Items<FlatTerm>, Memory> {
    let mut terms = Items::new(alloc);
    match terms.push(term) {
        Ok(()) => Ok(terms),
        Err(_) => Err(Memory),
    }
}

fn setup(alloc: Global) -> Result<Entry, Memory> {
    match Items::from_slice(alloc, b"dystar 1\n".as_slice()) {
        Ok(input) => Ok(Entry::Setup(input)),
        Err(_) => Err(Memory),
    }
}

fn start(
    alloc: Global,
    step: u32,
    p: &[u8],
    session: u32,
    message: Option<u32>,
) -> Result<Entry, Memory> {
    let args = one_word(alloc, b"carol")?;
    Ok(Entry::Start(step, word(b"run")?, word(p)?, session, args, message))
}

fn fresh(alloc: Global) -> Result<Entry, Memory> {
    let label = Label::one(alloc, Reader::Principal(word(b"alice")?))?;
    let usage = Usage {
        kind: Kind::Sig,
        name: word(b"Sign")?,
        owners: one_word(alloc, b"alice")?,
    };
    Ok(Entry::Fresh(1, label, usage))
}

/// A state of these fields, at an instance that its session names.
fn state(
    alloc: Global,
    p: &[u8],
    session: u32,
    version: u32,
    tag: &[u8],
    field: u32,
) -> Result<Entry, Memory> {
    let fields = one_term(alloc, nonce(alloc, field)?)?;
    Ok(Entry::State(session, word(p)?, session, version, word(tag)?, fields))
}

fn event(alloc: Global) -> Result<Entry, Memory> {
    let principal = word(b"alice")?;
    let args = one_term(alloc, name(alloc, &principal)?)?;
    Ok(Entry::Event(1, principal, word(b"Begin")?, args))
}

fn cert(alloc: Global, key: u32) -> Result<Entry, Memory> {
    Ok(Entry::Cert(5, word(b"bob")?, word(b"Sign")?, nonce(alloc, key)?))
}

fn message(alloc: Global, instance: u32, value: u32) -> Result<Entry, Memory> {
    Ok(Entry::Message(instance, nonce(alloc, value)?))
}

fn inject(alloc: Global, text: &[u8]) -> Result<Entry, Memory> {
    match Text::new(text) {
        Some(text) => Ok(Entry::Inject(6, lit(alloc, &text)?)),
        None => Err(Memory),
    }
}

fn corrupt_session() -> Result<Corruption, Memory> {
    Ok(Corruption::Session(word(b"alice")?, 1))
}

fn corrupt_version() -> Result<Corruption, Memory> {
    Ok(Corruption::Version(word(b"bob")?, 5, 1))
}

/// The entry of this index of a trace of two sessions of alice and one of bob. The versions of the
/// first are out of order, and its version 2 stands twice.
fn entry(alloc: Global, index: u32) -> Result<Entry, Memory> {
    match index {
        0 => setup(alloc),
        1 => start(alloc, 1, b"alice", 1, None),
        2 => fresh(alloc),
        3 => message(alloc, 1, 2),
        4 => state(alloc, b"alice", 1, 1, b"Keys", 2),
        5 => start(alloc, 2, b"bob", 5, Some(3)),
        6 => state(alloc, b"bob", 5, 1, b"Keys", 2),
        7 => message(alloc, 5, 2),
        8 => state(alloc, b"alice", 1, 3, b"Keys", 2),
        9 => state(alloc, b"alice", 1, 2, b"Keys", 2),
        10 => state(alloc, b"alice", 1, 2, b"Keys", 21),
        11 => message(alloc, 1, 21),
        12 => start(alloc, 3, b"alice", 12, None),
        _ => later_entry(alloc, index),
    }
}

fn later_entry(alloc: Global, index: u32) -> Result<Entry, Memory> {
    match index {
        13 => state(alloc, b"alice", 12, 1, b"Keys", 2),
        14 => state(alloc, b"alice", 12, 2, b"Other", 2),
        15 => event(alloc),
        16 => cert(alloc, 2),
        17 => cert(alloc, 21),
        18 => Ok(Entry::End(1, Outcome::Done)),
        19 => Ok(Entry::End(5, Outcome::Stopped(2))),
        20 => Ok(Entry::Corrupt(4, corrupt_session()?)),
        21 => Ok(Entry::Forge(5)),
        22 => inject(alloc, b"hello"),
        23 => Ok(Entry::Skip(7)),
        _ => Ok(Entry::Corrupt(8, corrupt_version()?)),
    }
}

fn trace(alloc: Global) -> Result<Vec<Entry>, Memory> {
    let mut entries = Vec::new(alloc);
    for index in 0..25 {
        if entries.push(entry(alloc, index)?).is_err() {
            return Err(Memory);
        }
    }
    Ok(entries)
}

fn is_state_at(entries: &[Entry], p: &[u8], s: u32, v: u32, wanted: Option<u32>) -> bool
    requires { length entries.now < 2 ^ 32 }
{
    match Word::new(p) {
        Some(p) => state_at(entries, &p, s, v) == wanted,
        None => false,
    }
}

fn is_newest(entries: &[Entry], p: &[u8], s: u32, wanted: u32) -> bool {
    match Word::new(p) {
        Some(p) => newest(entries, &p, s) == wanted,
        None => false,
    }
}

fn is_version_covered(entries: &[Entry], p: &[u8], s: u32, v: u32, wanted: bool) -> bool {
    match Word::new(p) {
        Some(p) => is_covered(entries, &p, s, v) == wanted,
        None => false,
    }
}

fn is_next(
    entries: &[Entry],
    p: &[u8],
    tag: &[u8],
    from: Option<(u32, u32)>,
    wanted: Option<u32>,
) -> bool
    requires { length entries.now < 2 ^ 32 }
{
    match (Word::new(p), Word::new(tag)) {
        (Some(p), Some(tag)) => find_state(entries, &p, &tag, from) == wanted,
        _ => false,
    }
}

fn is_cert(entries: &[Entry], p: &[u8], usage: &[u8], wanted: Option<u32>) -> bool
    requires { length entries.now < 2 ^ 32 }
{
    match (Word::new(p), Word::new(usage)) {
        (Some(p), Some(usage)) => find_cert(entries, &p, &usage) == wanted,
        _ => false,
    }
}

#[test]
fn versions_are_found_by_session_and_number(rt: HostRuntime) -> Result<(), Fail> {
    let entries = trace(rt.alloc())?;
    assert_eq!(rt; entries.len(), 25);
    assert!(rt; is_state_at(&entries, b"alice", 1, 1, Some(4)));
    assert!(rt; is_state_at(&entries, b"alice", 1, 3, Some(8)));
    assert!(rt; is_state_at(&entries, b"alice", 1, 2, Some(9)));
    assert!(rt; is_state_at(&entries, b"alice", 12, 2, Some(14)));
    assert!(rt; is_state_at(&entries, b"bob", 5, 1, Some(6)));
    assert!(rt; is_state_at(&entries, b"bob", 1, 1, None));
    assert!(rt; is_state_at(&entries, b"alice", 5, 1, None));
    assert!(rt; is_state_at(&entries, b"alice", 1, 4, None));
    Ok(())
}

#[test]
fn the_newest_version_is_the_greatest(rt: HostRuntime) -> Result<(), Fail> {
    let entries = trace(rt.alloc())?;
    assert_eq!(rt; entries.len(), 25);
    assert!(rt; is_newest(&entries, b"alice", 1, 3));
    assert!(rt; is_newest(&entries, b"alice", 12, 2));
    assert!(rt; is_newest(&entries, b"bob", 5, 1));
    assert!(rt; is_newest(&entries, b"bob", 1, 0));
    assert!(rt; is_newest(&entries, b"carol", 1, 0));
    Ok(())
}

#[test]
fn states_come_by_rising_sessions_and_falling_versions(rt: HostRuntime) -> Result<(), Fail> {
    let entries = trace(rt.alloc())?;
    assert_eq!(rt; entries.len(), 25);
    assert!(rt; is_next(&entries, b"alice", b"Keys", None, Some(8)));
    assert!(rt; is_next(&entries, b"alice", b"Keys", Some((1, 3)), Some(9)));
    assert!(rt; is_next(&entries, b"alice", b"Keys", Some((1, 2)), Some(4)));
    assert!(rt; is_next(&entries, b"alice", b"Keys", Some((1, 1)), Some(13)));
    assert!(rt; is_next(&entries, b"alice", b"Keys", Some((12, 1)), None));
    Ok(())
}

#[test]
fn a_look_up_may_begin_where_no_state_stands(rt: HostRuntime) -> Result<(), Fail> {
    let entries = trace(rt.alloc())?;
    assert_eq!(rt; entries.len(), 25);
    assert!(rt; is_next(&entries, b"alice", b"Keys", Some((0, 7)), Some(8)));
    assert!(rt; is_next(&entries, b"alice", b"Keys", Some((1, 9)), Some(8)));
    assert!(rt; is_next(&entries, b"alice", b"Keys", Some((2, 1)), Some(13)));
    assert!(rt; is_next(&entries, b"alice", b"Keys", Some((12, 2)), Some(13)));
    assert!(rt; is_next(&entries, b"alice", b"Other", None, Some(14)));
    assert!(rt; is_next(&entries, b"bob", b"Keys", None, Some(6)));
    assert!(rt; is_next(&entries, b"bob", b"Other", None, None));
    Ok(())
}

#[test]
fn certificates_and_messages_are_found(rt: HostRuntime) -> Result<(), Fail> {
    let entries = trace(rt.alloc())?;
    assert_eq!(rt; entries.len(), 25);
    assert!(rt; is_cert(&entries, b"bob", b"Sign", Some(16)));
    assert!(rt; is_cert(&entries, b"alice", b"Sign", None));
    assert!(rt; is_cert(&entries, b"bob", b"Begin", None));
    assert_eq!(rt; message_of(&entries, 1, 0), None);
    assert_eq!(rt; message_of(&entries, 1, 1), Some(3));
    assert_eq!(rt; message_of(&entries, 1, 2), Some(11));
    assert_eq!(rt; message_of(&entries, 1, 3), None);
    assert_eq!(rt; message_of(&entries, 5, 1), Some(7));
    assert_eq!(rt; message_of(&entries, 2, 1), None);
    assert_eq!(rt; cert_of(&entries, 5, 0), None);
    assert_eq!(rt; cert_of(&entries, 5, 1), Some(16));
    assert_eq!(rt; cert_of(&entries, 5, 2), Some(17));
    assert_eq!(rt; cert_of(&entries, 5, 3), None);
    assert_eq!(rt; cert_of(&entries, 1, 1), None);
    Ok(())
}

#[test]
fn each_kind_is_counted(rt: HostRuntime) -> Result<(), Fail> {
    let entries = trace(rt.alloc())?;
    assert_eq!(rt; entries.len(), 25);
    let wanted = Counts {
        total: 25,
        start: 3,
        fresh: 1,
        message: 3,
        state: 7,
        event: 1,
        cert: 2,
        done: 1,
        stopped: 1,
        corrupt: 2,
        forge: 1,
        inject: 1,
        skip: 1,
    };
    assert_eq!(rt; counts(&entries), wanted);
    a_longer_trace_derives_no_less();
    Ok(())
}

/// Whether these are the two corruptions of the trace, in order.
fn are_both(found: &[Corruption]) -> Result<bool, Memory> {
    match found {
        [first, second] => {
            Ok(first.same(&corrupt_session()?) && second.same(&corrupt_version()?))
        }
        _ => Ok(false),
    }
}

#[test]
fn corruptions_are_all_found(rt: HostRuntime) -> Result<(), Fail> {
    let entries = trace(rt.alloc())?;
    let found = corruptions(rt.alloc(), &entries)?;
    assert!(rt; are_both(&found)?);
    Ok(())
}

/// A trace of so many corruptions, of which that of each step takes alice's session of its number.
fn many_corruptions(alloc: Global, steps: u32) -> Result<Vec<Entry>, Memory> {
    let mut entries = Vec::new(alloc);
    for step in 0..steps {
        let session = Corruption::Session(word(b"alice")?, step);
        if entries.push(Entry::Corrupt(step, session)).is_err() {
            return Err(Memory);
        }
    }
    Ok(entries)
}

#[test]
fn corruptions_have_no_limit(rt: HostRuntime) -> Result<(), Fail> {
    let entries = many_corruptions(rt.alloc(), 3000)?;
    let found = corruptions(rt.alloc(), &entries)?;
    assert_eq!(rt; found.len(), 3000);
    let alice = word(b"alice")?;
    assert!(rt;
        found
            .iter()
            .any(|corruption| corruption.covers(&alice, 2999, 1))
    );
    assert!(rt; is_version_covered(&entries, b"alice", 2999, 1, true));
    assert!(rt; is_version_covered(&entries, b"alice", 3000, 1, false));
    Ok(())
}

#[test]
fn versions_are_covered_by_corruptions(rt: HostRuntime) -> Result<(), Fail> {
    let entries = trace(rt.alloc())?;
    assert!(rt; is_version_covered(&entries, b"alice", 1, 1, true));
    assert!(rt; is_version_covered(&entries, b"alice", 1, 7, true));
    assert!(rt; is_version_covered(&entries, b"alice", 12, 1, false));
    assert!(rt; is_version_covered(&entries, b"bob", 5, 1, true));
    assert!(rt; is_version_covered(&entries, b"bob", 5, 2, false));
    assert!(rt; is_version_covered(&entries, b"bob", 1, 1, false));
    entries_are_what_they_mean();
    corruptions_of_longer_traces();
    covered_versions_are_open();
    made_nonces_keep_their_labels();
    Ok(())
}

/// Whether the entry's copy is the same as the entry of this index of the trace, and as no other.
fn is_copied(alloc: Global, entries: &[Entry], index: usize) -> Result<bool, Memory> {
    let Some(entry) = sqlite_items::at(entries, index) else {
        return Ok(false);
    };
    let copy = entry.copy(alloc)?;
    Ok(
        entries
            .iter()
            .enumerate()
            .all(|(at, other)| copy.same(other) == (at == index)),
    )
}

#[test]
fn entries_are_the_same_as_their_copies_alone(rt: HostRuntime) -> Result<(), Fail> {
    let entries = trace(rt.alloc())?;
    assert_eq!(rt; entries.len(), 25);
    for index in 0..25 {
        assert!(rt; is_copied(rt.alloc(), &entries, index)?, "entry {index}");
    }
    Ok(())
}
