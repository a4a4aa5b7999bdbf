//! Plans that are run. Their traces were worked out by hand.

use super::*;
use dy_core::Book;
use dy_parse::{one_file, parse};
use dy_trace_text::write_trace;
use std::alloc::Global;

mod look_ups;
mod protocols;
mod statements;

/// The text of the trace of a file's plan, or `None` where the file is bad or memory is out. The file comes in two
/// parts.
fn run(alloc: Global, declared: &str, plan: &str) -> Option<Vec<u8>> {
    one_file();
    an_interleaving_has_a_text();
    let mut input = declared.as_bytes().to_vec(alloc).ok()?;
    input.extend_from_slice(plan.as_bytes()).ok()?;
    if input.len() > 1_000_000 {
        return None;
    }
    let Ok(file) = parse(alloc, input.as_slice()) else {
        return None;
    };
    let Ok(mut book) = Book::open(alloc, input) else {
        return None;
    };
    let Ok(()) = run_serially(alloc, &mut book, &file.plan) else {
        return None;
    };
    book.is_interleaving();
    write_trace(alloc, book.entries()).ok()
}

/// What stands after so many lines.
fn after_lines(text: &[u8], count: usize) -> &[u8] {
    let mut rest = text;
    for _ in 0..count {
        match rest.iter().position(|byte| *byte == b'\n') {
            Some(end) => rest = &rest[end + 1..],
            None => return &[],
        }
    }
    rest
}

/// Whether the text of the trace of a file's plan is this one after so many lines.
fn has_lines(alloc: Global, declared: &str, plan: &str, count: usize, wanted: &str) -> bool {
    match run(alloc, declared, plan) {
        Some(text) => after_lines(text.as_slice(), count) == wanted.as_bytes(),
        None => false,
    }
}
