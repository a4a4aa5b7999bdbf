ghost use Rattle.std.specs.Prelude.{◌<◌, ◌≡◌, IfSome};
ghost use Rattle.dy_turn.specs.Seats.{IsOf, IsFree};

use super::*;
use std::alloc::Global;
use std::process::Abort;
use std::sync::Wait;
use std::test::Fail;
use std::thread::{Threads, join};

const EACH: u64 = 1000;

/// A list of numbers.
#[derive(Drop)]
struct Log {
    items: Vec<u64>,
}

impl Counted for Log {
    type Item = u64;

    ghost history = { λ log. log.items.items };

    ghost same_base = { λ _ _. Unit {0} };

    ghost same_base_as_itself = { λ _. tt };

    fn count(&self) -> u64 {
        self.items.len() as u64
    }
}

fn new_log(alloc: Global) -> Log {
    Log {
        items: Vec::new(alloc),
    }
}

#[test]
fn a_turn_closes_once_its_seats_are_joined(rt: HostRuntime) -> Result<(), Fail> {
    let (turn, mut seat) = make(rt.alloc(), new_log(rt.alloc()), 2)?;
    let Ok(other) = turn.split(&mut seat, 0) else {
        panic!(rt; "a seat with room 1 is full");
    };
    let Err(Full { left }) = turn.split(&mut seat, 0) else {
        panic!(rt; "a seat with room 0 was split");
    };
    assert_eq!(rt; left, 0);
    let Err(NotWhole { turn, mut seat }) = turn.close(seat) else {
        panic!(rt; "a turn was closed with a seat left");
    };
    turn.join(&mut seat, other);
    let Ok(log) = turn.close(seat) else {
        panic!(rt; "all seats were joined");
    };
    assert!(rt; log.items.is_empty());
    Ok(())
}

fn append<R: Wait>(rt: &R, turn: &Turn<Log>, seat: &mut Seat<Log>, item: u64) -> bool
    requires { IsOf turn.now seat.old × IsFree seat.old }
    ensures { IsOf turn.now seat.new × IsFree seat.new }
{
    let mut held = turn.take(rt, seat);
    match held.value.items.push(item) {
        Ok(()) => {
            turn.mark(seat, &held);
            turn.put(seat, held);
            true
        }
        Err(_) => {
            turn.put(seat, held);
            false
        }
    }
}

// Appends EACH items that begin at EACH times the number.
fn append_all<R: Wait>(
    rt: &R,
    turn: &Turn<Log>,
    mut seat: Seat<Log>,
    number: u64,
) -> Option<Seat<Log>>
    requires { IsOf turn.now seat × IsFree seat × (number < 4) }
    ensures { IfSome result (λ s. IsOf turn.now s × IsFree s) }
{
    for item in 0..EACH {
        if !append(rt, turn, &mut seat, number * EACH + item) {
            return None;
        }
    }
    Some(seat)
}

// Two threads append, one of them by a seat that is split off.
fn append_by_two<R: Threads + Wait + Sync>(
    rt: &R,
    turn: &Turn<Log>,
    mut seat: Seat<Log>,
    number: u64,
) -> Option<Seat<Log>>
    requires { IsOf turn.now seat × IsFree seat × (number < 3) }
    ensures { IfSome result (λ s. IsOf turn.now s × IsFree s) }
{
    let other = turn.split(&mut seat, 0).ok()?;
    let (first, second) = join(
        rt,
        || -> Option<Seat<Log>>
            requires { IsOf turn.now seat × IsFree seat × (number < 3) }
            ensures { IfSome result (λ s. IsOf turn.entry.now s × IsFree s) }
        { append_all(rt, turn, seat, number) },
        || -> Option<Seat<Log>>
            requires { IsOf turn.now other × IsFree other × (number < 3) }
            ensures { IfSome result (λ s. IsOf turn.entry.now s × IsFree s) }
        { append_all(rt, turn, other, number + 1) },
    );
    both(turn, first, second)
}

// Four threads append.
fn append_by_four<R: Threads + Wait + Sync>(
    rt: &R,
    turn: &Turn<Log>,
    mut seat: Seat<Log>,
) -> Option<Seat<Log>>
    requires { IsOf turn.now seat × IsFree seat }
    ensures { IfSome result (λ s. IsOf turn.now s × IsFree s) }
{
    let other = turn.split(&mut seat, 1).ok()?;
    let (first, second) = join(
        rt,
        || -> Option<Seat<Log>>
            requires { IsOf turn.now seat × IsFree seat }
            ensures { IfSome result (λ s. IsOf turn.entry.now s × IsFree s) }
        { append_by_two(rt, turn, seat, 0) },
        || -> Option<Seat<Log>>
            requires { IsOf turn.now other × IsFree other }
            ensures { IfSome result (λ s. IsOf turn.entry.now s × IsFree s) }
        { append_by_two(rt, turn, other, 2) },
    );
    both(turn, first, second)
}

fn both(turn: &Turn<Log>, first: Option<Seat<Log>>, second: Option<Seat<Log>>) -> Option<Seat<Log>>
    requires first { IfSome first (λ s. IsOf turn.now s × IsFree s) }
    requires second { IfSome second (λ s. IsOf turn.now s × IsFree s) }
    ensures { IfSome result (λ s. IsOf turn.now s × IsFree s) }
{
    let mut seat = first?;
    turn.join(&mut seat, second?);
    Some(seat)
}

// The items of this number stand there in order, each once.
fn in_order(items: &[u64], number: u64) -> bool
    requires { number < 4 }
{
    let mine = items.iter().filter(|item| **item / EACH == number);
    mine.copied().eq(number * EACH..number * EACH + EACH)
}

#[test]
fn each_seats_items_stand_in_order_and_once(rt: HostRuntime) -> Result<(), Fail> {
    let (turn, seat) = make(rt.alloc(), new_log(rt.alloc()), 4)?;
    let seat = append_by_four(&rt, &turn, seat).ok_or("memory")?;
    let log = turn.close(seat).ok().ok_or("a seat is left")?;
    assert_eq!(rt; log.items.len(), 4 * EACH as usize);
    for number in 0..4 {
        assert!(rt;
            in_order(log.items.as_slice(), number),
            "the items of {number}"
        );
    }
    Ok(())
}
