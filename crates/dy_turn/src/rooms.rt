//! How a seat is split in two, and how two are joined.
ghost use Rattle.std.specs.Prelude.{◌≡◌, ℕ, ◌+◌, ◌<◌, ◌≤◌, ◌↔◌, IsOk, IfOk, IfErr, OnErr};
ghost use mathlib.Core.List.{IsPrefix};
ghost use Rattle.dy_turn.specs.Histories.{longer_of};
ghost use Rattle.dy_turn.specs.Indices.{times, union_of};
ghost use Rattle.dy_turn.specs.Seats.{saw, own, room as room_of, IsOf, IsFree, IsNew, Owns};

use crate::counted::Counted;
use crate::seats::{Full, Seat};
use crate::steps::{cut, glue, look};
use crate::turns::Turn;
use std::marker::Brand;

impl<T: Counted> Turn<T> {
    /// Makes a seat with this room out of a seat with more room, of which as much and one more is taken.
    /// It takes no memory.
    /// `Full` comes exactly where the seat's room is not above the room asked for, and has the room that is left.
    pub fn split(&self, seat: &mut Seat<T>, room: u32) -> Result<Seat<T>, Full>
        requires of { IsOf self.now seat.old }
        requires free { IsFree seat.old }
        ensures enough { IsOk result ↔ (room < room_of seat.old) }
        ensures new { IfOk result (λ new. IsNew self.now new (saw seat.old) room × Owns self.now new) }
        ensures rest { IfOk result (λ _. room_of seat.new + room + 1 ≡ room_of seat.old) }
        ensures full { IfErr result (λ full. full.left ≡ room_of seat.old) }
        ensures kept { OnErr result (room_of seat.new ≡ room_of seat.old) }
        ensures of { IsOf self.now seat.new × IsFree seat.new }
        ensures seen { saw seat.new ≡ saw seat.old }
        ensures own { own seat.new ≡ own seat.old }
        ensures owns { Owns self.now seat.new }
    {
        if seat.room <= room {
            return Err(Full { left: seat.room });
        }
        let token = cut::<T, Brand>(&self.board.shared, &mut seat.token, room);
        seat.room -= room + 1;
        Ok(Seat { token, room })
    }

    /// Joins another seat to a seat, which has then seen what either had seen. What was either's own is its
    /// own, and it has
    /// the room of both and one more. It takes no memory.
    pub fn join(&self, seat: &mut Seat<T>, other: Seat<T>)
        requires of { IsOf self.now seat.old × IsOf self.now other }
        requires free { IsFree seat.old × IsFree other }
        ensures of { IsOf self.now seat.new × IsFree seat.new }
        ensures longer { saw seat.new ≡ longer_of (saw seat.old) (saw other) }
        ensures begins { IsPrefix (saw seat.old) (saw seat.new) × IsPrefix (saw other) (saw seat.new) }
        ensures own { own seat.new ≡ union_of (own seat.old) (own other) }
        ensures apart { (index : ℕ) → times index (own seat.old) + times index (own other) ≤ 1 }
        ensures owns { Owns self.now seat.new }
        ensures room { room_of seat.new ≡ room_of seat.old + room_of other + 1 }
    {
        let Seat { token, room } = other;
        let top = &self.board.shared;
        glue(top, &mut seat.token, token);
        look(top, &mut seat.token);
        seat.room += room + 1;
    }
}
