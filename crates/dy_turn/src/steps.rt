//! The steps on the table. Each keeps the rule, and says which of its parts it may change.
ghost use Rattle.std.specs.Prelude.{◌≡◌, ℕ, ◌+◌, ◌-◌, ◌%◌, ◌^◌, ◌<◌, [], ◌∷◌};
ghost use mathlib.Core.List.{IsPrefix};
ghost use Rattle.dy_turn.specs.declared.known.Stage.TheVariants.{Idle, Waiting};
ghost use Rattle.dy_turn.specs.Histories.{GrowsByOne};
ghost use Rattle.dy_turn.specs.Views.{OwnFits, ticket_of, at_stage, after_marking, rest_of, new_seat, both_seats};
ghost use Rattle.dy_turn.specs.Steps.{HasTicket, HasTurn};
ghost use Rattle.dy_turn.specs.Tokens.{StepsOn, IsSame, WaitsFor, Works, HoldsValue};

use crate::counted::Counted;
use crate::known::{Known, Origin, TurnRule};
use crate::plays::{Amount, Appended, Cut, Draw, Glue, Look, Mark, Release, Serve};
use atomic_table::{Seat, Shared};
use std::sync::Wait;

/// The word that has the length of the history.
const COUNT: usize = 0;

/// The word that has the tickets drawn.
const DRAWN: usize = 1;

/// The word that has the tickets served.
const SERVED: usize = 2;

/// The table as threads share it.
pub(crate) type Top<T> = Shared<Option<T>, Known<T, <T as Counted>::Item>, Origin<T>, TurnRule>;

/// What a seat steps with.
pub(crate) type Token<T> = Seat<Option<T>, Known<T, <T as Counted>::Item>>;

/// Draws a ticket: the number of those drawn, and whose ticket it is.
pub(crate) fn draw<T: Counted>(top: &Top<T>, token: &mut Token<T>) -> u64
    requires on { StepsOn top.now.table_id token.old }
    requires idle { token.old.me.0.stage ≡ Idle }
    ensures same { IsSame token.old token.new }
    ensures ticket { HasTicket token.old.me result token.new.me }
{
    top.fetch_add::<Draw>(token, DRAWN, 1)
}

/// Waits until the ticket is served, and takes the slot: who has the turn, and what that seat has seen.
pub(crate) fn wait_for<T: Counted, R: Wait>(rt: &R, top: &Top<T>, token: &mut Token<T>, ticket: u64)
    requires on { StepsOn top.now.table_id token.old }
    requires waits { WaitsFor token.old × (ticket ≡ ticket_of token.old.me.0.stage % 2 ^ 64) }
    ensures same { IsSame token.old token.new }
    ensures turn { HasTurn T.history T.same_base token.old.me (ticket_of token.old.me.0.stage) token.new.me }
{
    for _ in rt.forever() {
        let served = top.load::<Serve>(token, SERVED);
        if served == ticket {
            return;
        }
        top.park(rt, SERVED, (served & 0xffff_ffff) as u32);
    }
    unreachable!()
}

/// Takes the value out of the slot that the seat has: what is in the slot, and no part of the rule.
pub(crate) fn take_out<T: Counted>(top: &Top<T>, token: &mut Token<T>) -> T
    requires on { StepsOn top.now.table_id token.old }
    requires full { (value : T) × (token.old.me.1 ≡ (0, Some value) ∷ []) }
    ensures same { IsSame token.old token.new }
    ensures value { token.old.me.1 ≡ (0, Some result) ∷ [] }
    ensures empty { token.new.me ≡ (token.old.me.0, (0, None) ∷ []) }
{
    match top.exchange(token, 0, None) {
        Some(value) => value,
        None => unreachable!(),
    }
}

/// Puts the value into the slot that the seat has: what is in the slot, and no part of the rule.
pub(crate) fn put_in<T: Counted>(top: &Top<T>, token: &mut Token<T>, value: T)
    requires on { StepsOn top.now.table_id token.old }
    requires empty { token.old.me.1 ≡ (0, None) ∷ [] }
    ensures same { IsSame token.old token.new }
    ensures full { token.new.me ≡ (token.old.me.0, (0, Some value) ∷ []) }
{
    drop(top.exchange(token, 0, Some(value)));
}

/// Serves the next ticket, and gives the slot back: the number of those served, and who has the turn.
pub(crate) fn release<T: Counted>(top: &Top<T>, token: &mut Token<T>)
    requires on { StepsOn top.now.table_id token.old }
    requires works { Works token.old }
    requires value { HoldsValue T.history T.same_base token.old }
    ensures same { IsSame token.old token.new }
    ensures idle { token.new.me ≡ (at_stage token.old.me.0 Idle, []) }
{
    top.fetch_add::<Release>(token, SERVED, 1);
    top.wake_all(SERVED);
}

/// Stores the length of a history with one item more: the history, what the seat has seen and what is its own.
pub(crate) fn append<T: Counted, L: Appended<T::Item>>(
    top: &Top<T>,
    token: &mut Token<T>,
    value: &T,
)
    requires on { StepsOn top.now.table_id token.old }
    requires works { Works token.old }
    requires log { L.log ≡ T.history value.now }
    requires grown { GrowsByOne token.old.me.0.saw L.log }
    ensures same { IsSame token.old token.new }
    ensures marked { token.new.me ≡ (after_marking token.old.me.0 L.log, token.old.me.1) }
    ensures fits { OwnFits token.new.me.0 }
{
    top.store::<Mark<L>>(token, COUNT, value.count());
}

/// Looks at the length of the history, and changes nothing.
pub(crate) fn look<T: Counted>(top: &Top<T>, token: &mut Token<T>)
    requires on { StepsOn top.now.table_id token.old }
    ensures same { IsSame token.old token.new × (token.new.me ≡ token.old.me) }
    ensures told { IsPrefix token.old.me.0.told token.old.me.0.saw }
    ensures fits { OwnFits token.old.me.0 }
{
    top.load::<Look>(token, COUNT);
}

/// Splits off a seat: the new seat, and how many parts are left.
pub(crate) fn cut<T: Counted, N: Amount>(top: &Top<T>, token: &mut Token<T>, room: u32) -> Token<T>
    requires on { StepsOn top.now.table_id token.old }
    requires amount { N.amount ≡ room + 1 }
    requires less { room + 1 < token.old.me.0.parts }
    ensures same { IsSame token.old token.new }
    ensures left { token.new.me ≡ (rest_of (room + 1) token.old.me.0, token.old.me.1) }
    ensures right { (result.table_id ≡ token.old.table_id)
        × (result.me ≡ (new_seat (room + 1) token.old.me.0, [])) }
{
    top.split_seat::<Cut<N>>(token)
}

/// Joins another seat: what the seat has seen, what is its own and its parts, and the other is spent.
pub(crate) fn glue<T: Counted>(top: &Top<T>, token: &mut Token<T>, other: Token<T>)
    requires on { StepsOn top.now.table_id token.old × StepsOn top.now.table_id other }
    requires idle { (token.old.me.0.stage ≡ Idle) × (other.me.0.stage ≡ Idle) × (other.me.1 ≡ []) }
    ensures same { IsSame token.old token.new }
    ensures joined { token.new.me ≡ (both_seats token.old.me.0 other.me.0, token.old.me.1) }
{
    top.join_seat::<Glue>(token, other);
}
