//! A trace of a protocol file that grows entry by entry, and at every moment is an interleaving.
#![tactic(auto)]

mod adding;
mod advancing;
mod answers;
mod asking;
mod attacking;
mod before_start;
mod books;
mod given_leaves;
mod opening;
mod pushing;
mod running;
mod searching;
mod sessions;
mod starting;
mod steps;

pub use answers::{Added, Advanced, Injected, OpenError, Started};
pub use books::Book;
pub use searching::step_at;
pub use steps::StartStep;

#[cfg(test)]
mod tests;
