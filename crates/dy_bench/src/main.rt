//! Measures parts of the library, one word for each. No contract claims anything of the times.
#![tactic(auto)]

mod copying;
mod flat;
mod lexing;
mod tree;

use dy_term::{Memory, Text};
use std::alloc::Global;
use std::time::Duration;
use std::{env, io};

/// How often each term is built, and how often it is taken apart.
pub(crate) const ROUNDS: u32 = 10_000;

/// Which leaves a term is built of.
#[derive(Clone, Copy)]
pub(crate) enum Leaves {
    /// Nonces, and at odd numbers literals of two texts.
    Mixed,
    /// Literals, each of a text of its own.
    Literals,
}

/// The text of a literal.
pub(crate) fn text(alloc: Global, leaves: Leaves, number: u32) -> Result<Text, Memory> {
    let text = match leaves {
        Leaves::Mixed => Text::new(if number % 4 == 1 { b"m1" } else { b"m2" }),
        Leaves::Literals => Text::new(format!(in alloc; "m{number}")?.as_bytes()),
    };
    match text {
        Some(text) => Ok(text),
        None => Err(Memory),
    }
}

/// What took how long.
#[derive(Drop)]
pub(crate) struct Times {
    pub(crate) building: Duration,
    pub(crate) parting: Duration,
    /// How many parts were found, over all rounds.
    pub(crate) found: u64,
}

pub(crate) fn out_of_memory(_: Memory) -> io::Error {
    io::Error::from(io::ErrorKind::OutOfMemory)
}

fn print(rt: &HostRuntime, name: &str, times: Times) -> io::Result<()> {
    let building = times.building.as_micros();
    let parting = times.parting.as_micros();
    let found = times.found;
    println!(rt; "{name} building {building} parting {parting} found {found}")
}

fn print_lexing(rt: &HostRuntime, times: lexing::Times) -> io::Result<()> {
    let lexing = times.lexing.as_micros();
    let counting = times.counting.as_micros();
    let tokens = times.tokens;
    let lines = times.lines;
    println!(rt;
        "bytes {} tokens {tokens} lexing {lexing} lines {lines} counting {counting}",
        times.bytes
    )
}

fn print_copying(rt: &HostRuntime, times: copying::Times) -> io::Result<()> {
    let terms = times.terms.as_micros();
    let bytes = times.bytes.as_micros();
    println!(rt; "copying {terms} bytes {bytes}")
}

fn main(rt: HostRuntime) -> io::Result<()> {
    let word = match env::args(&rt)?.nth(1) {
        Some(word) => word,
        None => String::new(rt.alloc()),
    };
    match word.as_str() {
        "copy" => print_copying(&rt, copying::measure(&rt)?),
        "flat" => print(&rt, "flat", flat::measure(&rt, Leaves::Mixed)?),
        "flat-literals" => print(&rt, "flat", flat::measure(&rt, Leaves::Literals)?),
        "lex" => print_lexing(&rt, lexing::measure(&rt)?),
        "tree" => print(&rt, "tree", tree::measure(&rt, Leaves::Mixed)?),
        "tree-literals" => print(&rt, "tree", tree::measure(&rt, Leaves::Literals)?),
        _ => println!(rt; "usage: dy_bench copy|flat|flat-literals|lex|tree|tree-literals"),
    }
}
