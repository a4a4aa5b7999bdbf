//! How long a source and a number may be.

/// The most bytes that a source may have.
pub const MAX_SOURCE_BYTES: usize = 1_048_576;

/// The most digits that a number may have.
pub const MAX_DIGITS: usize = 6;
