//! Plans run step by step in the order of the text.
#![tactic(auto)]

mod attacking;
mod instances;
mod laws;
mod plans;
mod steps;

pub use laws::an_interleaving_has_a_text;
pub use plans::run_serially;

#[cfg(test)]
mod tests;
