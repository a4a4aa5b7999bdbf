//! The lock.
ghost use Rattle.std.specs.Prelude.{◌≡◌, ◌≤◌};

use crate::counted::Counted;
use crate::known::Board;
use crate::seats::Seat;

/// A lock by which seats take turns at one value.
#[derive(Drop)]
pub struct Turn<T: Counted> {
    pub(crate) board: Board<T>,
    pub(crate) seats: u32,
    ghost sized: { (board.shared.table_id.words ≡ 3) × (board.shared.table_id.slots ≡ 1) },
    ghost seats_are: { seats ≡ board.shared.key.seats },
    ghost few: { seats ≤ 80 },
}

/// Another seat was made and has not been joined: both are handed back.
#[derive(Drop)]
pub struct NotWhole<T: Counted> {
    pub turn: Turn<T>,
    pub seat: Seat<T>,
}
