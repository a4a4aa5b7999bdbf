//! The entries of a trace, and what is looked up in it.
#![tactic(auto)]

mod attacker;
mod candidates;
mod comparing;
mod copying;
mod counting;
mod entries;
mod look_ups;
mod outputs;
mod summaries;
mod trace_laws;

pub use attacker::a_longer_trace_derives_no_less;
pub use counting::counts;
pub use entries::Entry;
pub use look_ups::{
    cert_of, corruptions, find_cert, find_state, is_covered, message_of, newest, state_at,
};
pub use summaries::Counts;
pub use trace_laws::{
    corruptions_of_longer_traces, covered_versions_are_open, entries_are_what_they_mean,
    made_nonces_keep_their_labels,
};

#[cfg(test)]
mod tests;
