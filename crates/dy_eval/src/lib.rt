//! What an instance of a handler does, step by step.
#![tactic(auto)]

mod copying;
mod effects;
mod expressions;
mod instances;
mod items;
mod laws;
mod lines;
mod lookups;
mod names;
mod openings;
mod past;
mod patterns;
mod puts;
mod readers;
mod running;
mod starting;
mod statements;
mod steps;
mod stored_states;
mod values;
mod written;

pub use instances::Instance;
pub use items::{Emit, Item};
pub use laws::one_index_more_is_one_step_more;
pub use past::{Past, Stored};

#[cfg(test)]
mod tests;
