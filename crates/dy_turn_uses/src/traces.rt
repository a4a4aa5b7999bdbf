//! A trace that threads write by turns.
ghost use Rattle.std.specs.Prelude.{◌≡◌, OnOk, OnErr};
ghost use mathlib.Core.List.{IsPrefix};
ghost use Rattle.dy_turn.specs.Seats.{saw, own, IsOf, IsFree};
ghost use Rattle.dy_turn_uses.specs.Appended.{EndsWith};

use dy_entry::Entry;
use dy_term::Memory;
use dy_turn::{Counted, Seat, Turn};
use std::sync::Wait;

/// Entries in the order in which they were appended.
#[derive(Drop)]
pub struct Trace {
    pub entries: Vec<Entry>,
}

impl Counted for Trace {
    type Item = Entry;

    ghost history = { λ trace. trace.entries.items };

    ghost same_base = { λ _ _. Unit {0} };

    ghost same_base_as_itself = { λ _. tt };

    fn count(&self) -> u64 {
        self.entries.len() as u64
    }
}

/// Waits for the turn, and appends an entry. After `Memory` nothing was appended by this seat.
pub fn append<R: Wait>(
    rt: &R,
    turn: &Turn<Trace>,
    seat: &mut Seat<Trace>,
    entry: Entry,
) -> Result<(), Memory>
    requires { IsOf turn.now seat.old × IsFree seat.old }
    ensures of { IsOf turn.now seat.new × IsFree seat.new }
    ensures ok { OnOk result (EndsWith (saw seat.old) (saw seat.new) entry) }
    ensures err { OnErr result (IsPrefix (saw seat.old) (saw seat.new) × (own seat.new ≡ own seat.old)) }
{
    let mut held = turn.take(rt, seat);
    match held.value.entries.push(entry) {
        Ok(()) => {
            turn.mark(seat, &held);
            turn.put(seat, held);
            Ok(())
        }
        Err(_) => {
            turn.put(seat, held);
            Err(Memory)
        }
    }
}
