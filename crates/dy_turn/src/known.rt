//! What seats know, and the rule of the table that they share. Word 0 is how many items the history has. Word 1 is
//! how many tickets were drawn and word 2 how many were served, both modulo 2^64. The one slot has the value.
use crate::counted::Counted;
use atomic_table::{Table, TableRule};
use std::alloc::Global;
use std::collections::LinkedList;
use std::snapshot::Snapshot;

/// What a turn was made with.
#[derive(Drop)]
pub struct Origin<T> {
    pub first: Snapshot<T>,
    pub start: u64,
    pub seats: u32,
}

/// Whether a seat has a ticket, and whether it has the turn. Tickets are numbered without bound.
pub enum Stage {
    Idle,
    Waiting(u64),
    Working(u64),
}

/// What a seat knows. No value of it is made.
pub struct Known<T, I> {
    /// What its turn was made with. A seat that was joined to another has none.
    pub origin: Option<Origin<T>>,
    /// What it has seen of the history.
    pub saw: LinkedList<I>,
    /// What the seat that was joined last had seen, or this one, whichever is shorter.
    pub told: LinkedList<I>,
    /// The indices at which it appended.
    pub own: LinkedList<u64>,
    /// One more than its room. A seat that was joined to another has 0.
    pub parts: u64,
    pub stage: Stage,
}

pub struct TurnRule;

impl<T: Counted> TableRule<Option<T>, Known<T, T::Item>, Origin<T>> for TurnRule {
    ghost use Rattle.dy_turn.specs.Rule.{IsTurned};
    ghost use Rattle.dy_turn.specs.Views.{first_seat};

    ghost holds = { λ origin. IsTurned T.history T.same_base origin };

    ghost first = { λ origin. first_seat (T.history origin.first.value) origin };
}

pub type Board<T> = Table<Option<T>, Known<T, <T as Counted>::Item>, Origin<T>, TurnRule, Global>;
