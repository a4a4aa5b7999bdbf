//! Reads protocol files: tokens, and the grammar over them.
#![tactic(auto)]

mod cursor;
mod declarations;
mod errors;
mod expressions;
mod files;
mod labels;
mod laws;
mod limits;
mod lists;
mod names;
mod parsing;
mod plans;
mod recipes;
mod skipping;
mod statements;
mod words;

pub use errors::{LimitName, ParseError};
pub use laws::{one_file, one_parse, same_limits, trees_are_shallow};
pub use parsing::parse;

#[cfg(test)]
mod examples;
#[cfg(test)]
mod tests;
