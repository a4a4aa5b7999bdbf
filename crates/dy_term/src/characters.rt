ghost use Rattle.std.specs.Prelude.{◌≡◌};
ghost use Rattle.std.specs.List.{list_all};
ghost use Rattle.dy_term.specs.Characters as chars;

use crate::letters::{BACKSLASH, QUOTE, SPACE, TILDE, UNDERSCORE};

/// Whether the byte is a letter, a digit or `_`.
pub fn is_word_byte(byte: u8) -> bool
    ensures { result ≡ chars.is_word_byte byte }
{
    byte.is_ascii_alphanumeric() || byte == UNDERSCORE
}

/// Whether the byte is printable ASCII other than `"` and `\`.
pub fn is_text_byte(byte: u8) -> bool
    ensures { result ≡ chars.is_text_byte byte }
{
    (SPACE <= byte && byte <= TILDE) && byte != QUOTE && byte != BACKSLASH
}

fn are_word_bytes(bytes: &[u8]) -> bool
    ensures { result ≡ list_all chars.is_word_byte bytes.now }
{
    bytes.iter().all(|b| is_word_byte(*b))
}

/// Whether the bytes are a letter and then letters, digits and `_`, of any number.
pub fn is_long_word(bytes: &[u8]) -> bool
    ensures { result ≡ chars.is_long_word bytes.now }
{
    match bytes {
        [] => false,
        [first, more @ ..] => { first.is_ascii_alphabetic() && are_word_bytes(more) }
    }
}

/// Whether all bytes may stand in a text.
pub fn is_long_text(bytes: &[u8]) -> bool
    ensures { result ≡ chars.is_long_text bytes.now }
{
    bytes.iter().all(|b| is_text_byte(*b))
}
