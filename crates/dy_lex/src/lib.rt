//! Cuts a protocol file into tokens, which are slices of it.
#![tactic(auto)]

mod laws;
pub mod letters;
mod lexing;
mod limits;
mod prefixes;
mod tokens;

pub use laws::one_reading;
pub use lexing::{LexError, lex};
pub use limits::{MAX_DIGITS, MAX_SOURCE_BYTES};
pub use tokens::{Token, TokenKind};

#[cfg(test)]
mod tests;
