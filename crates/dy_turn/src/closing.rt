//! How a turn ends.
ghost use Rattle.std.specs.Prelude.{◌≡◌, ◌↔◌, ◌<◌, IsOk, IfOk, IfErr};
ghost use Rattle.dy_turn.specs.declared.known.Stage.TheVariants.{Idle};
ghost use Rattle.dy_turn.specs.Seats.{first_value, saw, IsOf, IsFree, HasAllRoom, Owns};
ghost use Rattle.dy_turn.specs.Tokens.{StepsOn};

use crate::counted::Counted;
use crate::known::Board;
use crate::seats::Seat;
use crate::steps::Token;
use crate::turns::{NotWhole, Turn};

impl<T: Counted> Turn<T> {
    /// Gives the value back with the whole history. `NotWhole` comes exactly where a seat was made and not joined, and
    /// hands both back.
    pub fn close(self, seat: Seat<T>) -> Result<T, NotWhole<T>>
        requires of { IsOf self seat }
        requires free { IsFree seat }
        ensures whole { IsOk result ↔ HasAllRoom self seat }
        ensures value { IfOk result (λ value. (T.history value ≡ saw seat) × T.same_base (first_value self) value) }
        ensures owns { Owns self seat }
        ensures back { IfErr result (λ refused. (refused.turn ≡ self) × (refused.seat ≡ seat)) }
    {
        if seat.room + 1 != self.seats {
            return Err(NotWhole { turn: self, seat });
        }
        let Turn { board, seats: _ } = self;
        let Seat { token, room: _ } = seat;
        Ok(value_of(board, token))
    }
}

// The value at the end, where the seat has all room.
fn value_of<T: Counted>(board: Board<T>, token: Token<T>) -> T
    requires on { StepsOn board.shared.table_id token }
    requires idle { token.me.0.stage ≡ Idle }
    requires whole { token.me.0.parts ≡ board.shared.key.seats }
    ensures history { T.history result ≡ token.me.0.saw }
    ensures base { T.same_base board.shared.key.first.value result }
{
    let mut closed = board.close_with(token);
    let slot = closed.take(0);
    closed.free();
    match slot {
        Some(value) => value,
        None => unreachable!(),
    }
}
