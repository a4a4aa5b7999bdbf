ghost use Rattle.dy_turn.specs.Seats.{IsOf, IsFree};

use super::*;
use dy_entry::Entry;
use dy_flat::{name, nonce};
use dy_label::{Kind, Label, Usage};
use dy_term::{Memory, Word};
use dy_turn::{Seat, Turn, make};
use sqlite_items::Items;
use std::alloc::Global;
use std::sync::Wait;
use std::test::Fail;

fn word(bytes: &[u8]) -> Result<Word, Memory> {
    match Word::new(bytes) {
        Some(word) => Ok(word),
        None => Err(Memory),
    }
}

fn named_message(alloc: Global, bytes: &[u8]) -> Result<Entry, Memory> {
    Ok(Entry::Message(0, name(alloc, &word(bytes)?)?))
}

fn nonce_message(alloc: Global, index: u32) -> Result<Entry, Memory> {
    Ok(Entry::Message(0, nonce(alloc, index)?))
}

fn fresh(alloc: Global) -> Result<Entry, Memory> {
    let usage = Usage {
        kind: Kind::Nonce,
        name: word(b"Rand")?,
        owners: Items::new(alloc),
    };
    Ok(Entry::Fresh(0, Label::nobody(alloc)?, usage))
}

#[test]
fn entries_of_two_seats_stand_in_the_order_of_the_turns(rt: HostRuntime) -> Result<(), Fail> {
    let alloc = rt.alloc();
    let empty = Trace {
        entries: Vec::new(alloc),
    };
    let Ok((turn, mut seat)) = make(alloc, empty, 2) else {
        panic!(rt; "memory");
    };
    let Ok(mut other) = turn.split(&mut seat, 0) else {
        panic!(rt; "a seat with room 1 is full");
    };
    append(&rt, &turn, &mut seat, named_message(alloc, b"alice")?)?;
    append(&rt, &turn, &mut other, nonce_message(alloc, 7)?)?;
    append(&rt, &turn, &mut seat, fresh(alloc)?)?;
    turn.join(&mut seat, other);
    let Ok(trace) = turn.close(seat) else {
        panic!(rt; "all seats were joined");
    };
    assert_eq!(rt; trace.entries.len(), 3);
    assert!(rt; trace.entries[0].same(&named_message(alloc, b"alice")?));
    assert!(rt; trace.entries[1].same(&nonce_message(alloc, 7)?));
    assert!(rt; trace.entries[2].same(&fresh(alloc)?));
    Ok(())
}
