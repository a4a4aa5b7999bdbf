//! When the demands of a statement are met.

mod each_operation;
mod events;
mod fields;
mod keys;
mod members;
mod others;
mod partners;
mod readers;
mod sealing;
mod statements;
mod stored;
mod unmet;

pub(crate) use statements::first_unmet;
pub(crate) use unmet::Unmet;
