//! Where bytes come from and go to: sources, sinks, and reading and writing all of them.
//!
//! A source tells what it has left and a sink what it holds, or they leave it untold. Each counts
//! its faults, so that a contract can say that an error came from outside.
#![tactic(auto)]

mod errors;
mod memory_sink;
mod memory_source;
mod plain;
mod reading;
mod sinks;
mod sources;
mod standard;
mod writing;

pub use errors::{ReadError, WriteError};
pub use memory_sink::MemSink;
pub use memory_source::MemSource;
pub use plain::{PlainSink, PlainSource};
pub use reading::read_all;
pub use sinks::Sink;
pub use sources::{Failed, Source};
pub use standard::{ReaderSource, StdinSource, StdoutSink, WriterSink};
pub use writing::write_all;

#[cfg(test)]
mod tests;
