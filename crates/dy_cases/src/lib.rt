//! What a protocol file declares, found by name.
#![tactic(auto)]

mod cases;
mod first;
mod kinds;
mod rows;
mod tables;

pub use cases::Cases;
pub use kinds::kind_of;

#[cfg(test)]
mod tests;
