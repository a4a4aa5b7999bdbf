//! Words, texts and terms, of which protocol files and traces are made.
#![tactic(auto)]

mod begun;
pub mod characters;
mod laws;
pub mod letters;
pub mod limits;
mod memory;
mod reader;
mod short;
mod term_reading;
mod term_text;
mod terms;
mod texts;
mod words;

pub use laws::{one_term, sameness_is_equality, term_ends};
pub use memory::Memory;
pub use term_reading::{LeadingError, LeadingTerm, TermError, read_leading_term, read_term};
pub use term_text::write_term;
pub use terms::{Term, same, size};
pub use texts::Text;
pub use words::Word;

#[cfg(test)]
mod tests;
