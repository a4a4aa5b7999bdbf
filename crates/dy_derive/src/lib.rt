//! What an attacker derives from a trace, kept entry by entry, and the recipes by which values are made.
#![tactic(auto)]

mod deductions;
mod derivable;
mod given;
mod keys;
mod knowledge;
mod log_moves;
mod nodes;
mod nonces;
mod reasoned_chains;
mod reasons;
mod rules;
mod term_moves;
mod term_nodes;

pub use knowledge::Knowledge;

#[cfg(test)]
mod tests;
