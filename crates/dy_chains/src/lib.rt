//! Rules over numbered facts, and the log of what follows from them.
#![tactic(auto)]

mod chains;
mod firing;
mod growing;
mod logs;
mod rules;
mod watchers;

pub use chains::Chain;
pub use logs::Step;
pub use rules::{Premises, Rule};

#[cfg(test)]
mod tests;
