//! The letters that words, texts and terms are written with.

pub const SPACE: u8 = b' ';

pub const QUOTE: u8 = b'"';

pub const SHARP: u8 = b'#';

pub const OPEN: u8 = b'(';

pub const CLOSE: u8 = b')';

pub const COMMA: u8 = b',';

pub const ZERO: u8 = b'0';

pub const AT: u8 = b'@';

pub const BACKSLASH: u8 = b'\\';

pub const UNDERSCORE: u8 = b'_';
/// The last printable character.
pub const TILDE: u8 = b'~';
