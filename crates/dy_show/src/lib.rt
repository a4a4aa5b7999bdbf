//! The canonical text of a protocol file.
#![tactic(auto)]

mod declarations;
mod expressions;
mod files;
mod labels;
mod laws;
mod lists;
mod names;
mod pages;
mod plans;
mod recipes;
mod spacing;
mod statements;

pub use files::show;
pub use laws::{one_text, reads_again};
pub use spacing::{Ending, Stand};

#[cfg(test)]
mod tests;
