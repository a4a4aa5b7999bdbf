//! The commands of the program, over any source and sink.
#![tactic(auto)]

mod answers;
mod checking;
mod commands;
mod judging;
mod laws;
mod playing;
mod protocols;
mod running;
mod showing;
mod statuses;

pub use commands::{quiet, tool};
pub use laws::{
    accepted_files_are_secure, one_answer, shown_is_canonical, shown_reads_back,
    typed_files_play_unbreached,
};
pub use statuses::Status;

#[cfg(test)]
mod tests;
