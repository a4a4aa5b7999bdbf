//! Plans: how their steps are numbered and dealt to workers, and what a step comes to in a trace.
#![tactic(auto)]

mod dealing;
mod laws;
mod names;
mod naming;
mod recipes;
mod resolved;
mod resolving;
mod steps;

pub use dealing::{deal, each_place_has_one_worker};
pub use laws::one_serial_interleaving;
pub use resolved::Resolved;
pub use resolving::resolve;
pub use steps::step_count;

#[cfg(test)]
mod tests;
