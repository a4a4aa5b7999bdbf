//! How large a term, a word and a text may be.

/// A term that is read has at most so many constructors.
pub const MAX_NODES: u32 = 1024;

/// A word and a text have at most so many bytes.
pub const MAX_LENGTH: usize = 32;
