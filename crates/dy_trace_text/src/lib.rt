//! The text of a trace: a line for each entry, and then one of all counts.
#![tactic(auto)]

mod counts_text;
mod entry_text;
mod label_text;
mod list_text;
mod pages;
mod term_text;
mod trace_text;

pub use counts_text::write_counts;
pub use trace_text::write_trace;

#[cfg(test)]
mod tests;
