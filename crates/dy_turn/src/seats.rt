//! Seats at a turn, and the value while a seat has it.
ghost use Rattle.std.specs.Prelude.{◌≡◌, ◌+◌};
ghost use Rattle.dy_turn.specs.Views.{OwnFits};

use crate::counted::Counted;
use crate::known::Known;
use atomic_table::Seat as Token;
use std::marker::PhantomData;

/// A place from which a thread takes turns. It knows what it has seen of the history, and which items are its own.
/// It keeps its room, which is how many further seats it may make.
#[derive(Drop)]
pub struct Seat<T: Counted> {
    pub(crate) token: Token<Option<T>, Known<T, <T as Counted>::Item>>,
    pub(crate) room: u32,
    pub ghost room_is: { room + 1 ≡ token.me.0.parts },
    pub ghost own_fits: { OwnFits token.me.0 },
}

/// The value, while a seat has the turn. It is not `Drop`, so it has to be put back.
pub struct Held<T> {
    pub value: T,
    pub(crate) lent: PhantomData<T>,
}

/// A seat has no room for what was asked: this much is left.
#[derive(Debug, Drop)]
pub struct Full {
    pub left: u32,
}
