//! How deep labels, expressions and recipes may stand inside each other.

/// Levels go from 1 to this one.
pub const MAX_LEVEL: u8 = 64;

/// What is deeper stands on this level.
pub const TOO_DEEP: u8 = MAX_LEVEL + 1;
