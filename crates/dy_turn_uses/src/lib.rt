//! A trace that threads write by turns: a history whose items hold terms, labels and words.
#![tactic(auto)]

mod traces;

pub use traces::{Trace, append};

#[cfg(test)]
mod tests;
