//! What each step on the table tells the seat that takes it, how a seat is split, and how two are joined.
use crate::counted::Counted;
use crate::known::Known;
use atomic_table::{Join, Play, Split};
use std::marker::{Brand, PhantomData};

/// The step that draws a ticket.
pub(crate) struct Draw;

impl<T, I> Play<Option<T>, Known<T, I>> for Draw {
    ghost use Rattle.dy_turn.specs.Steps.{Draws};

    ghost then = { Draws };
}

/// The step that looks which ticket is served, and takes the slot where it is the seat's.
pub(crate) struct Serve;

impl<T: Counted> Play<Option<T>, Known<T, T::Item>> for Serve {
    ghost use Rattle.dy_turn.specs.Steps.{Serves};

    ghost then = { Serves T.history T.same_base };
}

/// A history, for proofs alone. The call that uses it picks it.
pub(crate) trait Appended<I> {
    ghost use Rattle.std.specs.Prelude.{List};

    ghost log: { List I };
}

impl<I> Appended<I> for Brand {
    ghost use Rattle.std.specs.Prelude.{[]};

    ghost log = { [] };
}

/// The step that stores how many items this history has.
pub(crate) struct Mark<L> {
    log: PhantomData<L>,
}

impl<T, I, L: Appended<I>> Play<Option<T>, Known<T, I>> for Mark<L> {
    ghost use Rattle.dy_turn.specs.Steps.{Marks};

    ghost then = { Marks L.log };
}

/// The step that serves the next ticket, and gives the slot back.
pub(crate) struct Release;

impl<T, I> Play<Option<T>, Known<T, I>> for Release {
    ghost use Rattle.dy_turn.specs.Steps.{Releases};

    ghost then = { Releases };
}

/// The step that changes nothing.
pub(crate) struct Look;

impl<T, I> Play<Option<T>, Known<T, I>> for Look {
    ghost use Rattle.dy_turn.specs.Steps.{Looks};

    ghost then = { Looks };
}

/// How many parts of a seat are split off, for proofs alone. The call that uses it picks it.
pub(crate) trait Amount {
    ghost use Rattle.std.specs.Prelude.{ℕ};

    ghost amount: { ℕ };
}

impl Amount for Brand {
    ghost amount = { 0 };
}

/// How a seat is split.
pub(crate) struct Cut<N> {
    amount: PhantomData<N>,
}

impl<T, I, N: Amount> Split<Known<T, I>> for Cut<N> {
    ghost use Rattle.dy_turn.specs.Views.{rest_of, new_seat};

    ghost left = { rest_of N.amount };

    ghost right = { new_seat N.amount };
}

/// How two seats are joined.
pub(crate) struct Glue;

impl<T, I> Join<Known<T, I>> for Glue {
    ghost use Rattle.dy_turn.specs.Views.{both_seats, spent_seat};

    ghost both = { both_seats };

    ghost spent = { spent_seat };
}
