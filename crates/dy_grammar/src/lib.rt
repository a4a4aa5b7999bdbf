//! The grammar of protocol files, as a table of rules: when tokens are a file, and where they stop being one.
#![tactic(auto)]

mod laws;
mod limits;

pub use laws::{one_fault, one_file};
pub use limits::{MAX_LEVEL, TOO_DEEP};
