//! The letters of blanks, lines and arrows. `dy_term` has the others.

pub const TAB: u8 = b'\t';

pub const NEWLINE: u8 = b'\n';

pub const CARRIAGE_RETURN: u8 = b'\r';

pub const MINUS: u8 = b'-';

pub const GREATER: u8 = b'>';
