//! Decides whether a protocol file is typed, and names the place where it is refused.
#![tactic(auto)]

mod checking;
mod conditions;
mod effects;
mod expressions;
mod handlers;
mod knowledge;
mod labels;
mod limits;
mod operations;
mod settings;
mod stands;
mod types;

pub use checking::{Verdict, check};
pub use limits::MAX_MEMBERS;
