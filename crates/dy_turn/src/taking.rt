//! How a seat takes the value, marks what it appended and puts the value back.
ghost use Rattle.std.specs.Prelude.{◌≡◌, ◌∷◌, ◌++◌, [], length};
ghost use mathlib.Core.List.{IsPrefix};
ghost use Rattle.dy_turn.specs.Histories.{GrowsByOne};
ghost use Rattle.dy_turn.specs.Seats.{first_value, saw, own, room, IsOf, IsFree, HasTaken, Owns};

use crate::counted::Counted;
use crate::seats::{Held, Seat};
use crate::steps::{append, draw, put_in, release, take_out, wait_for};
use crate::turns::Turn;
use std::marker::{Brand, PhantomData};
use std::sync::Wait;

impl<T: Counted> Turn<T> {
    /// Waits for the turn, and takes the value. The seat has then seen the whole history. No other call waits.
    pub fn take<R: Wait>(&self, rt: &R, seat: &mut Seat<T>) -> Held<T>
        requires of { IsOf self.now seat.old }
        requires free { IsFree seat.old }
        ensures of { IsOf self.now seat.new }
        ensures taken { HasTaken seat.new }
        ensures history { saw seat.new ≡ T.history result.value }
        ensures begins { IsPrefix (saw seat.old) (saw seat.new) }
        ensures base { T.same_base (first_value self.now) result.value }
        ensures own { own seat.new ≡ own seat.old }
        ensures owns { Owns self.now seat.new }
        ensures room { room seat.new ≡ room seat.old }
    {
        let top = &self.board.shared;
        let ticket = draw(top, &mut seat.token);
        wait_for(rt, top, &mut seat.token, ticket);
        Held {
            value: take_out(top, &mut seat.token),
            lent: PhantomData,
        }
    }

    /// Makes the history that of the value that is held, which has one item more than the seat has seen.
    /// That item is the
    /// seat's own.
    pub fn mark(&self, seat: &mut Seat<T>, held: &Held<T>)
        requires of { IsOf self.now seat.old }
        requires taken { HasTaken seat.old }
        requires grown { GrowsByOne (saw seat.old) (T.history held.now.value) }
        ensures of { IsOf self.now seat.new }
        ensures taken { HasTaken seat.new }
        ensures history { saw seat.new ≡ T.history held.now.value }
        ensures own { own seat.new ≡ own seat.old ++ length (saw seat.old) ∷ [] }
        ensures owns { Owns self.now seat.new }
        ensures room { room seat.new ≡ room seat.old }
    {
        append::<T, Brand>(&self.board.shared, &mut seat.token, &held.value);
    }

    /// Puts the value back and ends the turn. The history of the value is what the seat has seen.
    pub fn put(&self, seat: &mut Seat<T>, held: Held<T>)
        requires of { IsOf self.now seat.old }
        requires taken { HasTaken seat.old }
        requires history { T.history held.value ≡ saw seat.old }
        requires base { T.same_base (first_value self.now) held.value }
        ensures of { IsOf self.now seat.new }
        ensures free { IsFree seat.new }
        ensures history { saw seat.new ≡ saw seat.old }
        ensures own { own seat.new ≡ own seat.old }
        ensures owns { Owns self.now seat.new }
        ensures room { room seat.new ≡ room seat.old }
    {
        let Held { value, lent: _ } = held;
        let top = &self.board.shared;
        put_in(top, &mut seat.token, value);
        release(top, &mut seat.token);
    }
}
