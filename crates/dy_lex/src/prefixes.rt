ghost use Rattle.std.specs.Prelude.{◌≡◌};
ghost use Rattle.std.specs.List.{prefix_len, list_all};
ghost use Rattle.std.specs.Char as ascii;
ghost use Rattle.dy_term.specs.Characters as chars;
ghost use Rattle.dy_lex.specs.Symbols as symbols;
ghost use Rattle.dy_lex.specs.MirrorPrefixes as mirror;

use crate::letters::{CARRIAGE_RETURN, GREATER, MINUS, NEWLINE, TAB};
use crate::limits::MAX_DIGITS;
use crate::tokens::TokenKind;
use dy_term::characters::{is_text_byte, is_word_byte};
use dy_term::letters::{QUOTE, SPACE, ZERO};

/// Whether the byte is a space, a tab, a newline or a carriage return.
pub(crate) fn is_blank(byte: u8) -> bool
    ensures { result ≡ symbols.is_blank byte }
{
    (byte == SPACE || byte == TAB) || (byte == NEWLINE || byte == CARRIAGE_RETURN)
}

/// How many letters, digits and `_` stand at the start.
fn word_len(bytes: &[u8]) -> usize
    ensures { result ≡ prefix_len chars.is_word_byte bytes.now }
{
    bytes.iter().take_while(|b| is_word_byte(**b)).count()
}

/// How many bytes of a text stand at the start.
fn text_len(bytes: &[u8]) -> usize
    ensures { result ≡ prefix_len chars.is_text_byte bytes.now }
{
    bytes.iter().take_while(|b| is_text_byte(**b)).count()
}

/// Whether the byte is a symbol by itself.
fn is_mark(byte: u8) -> bool
    ensures { result ≡ symbols.is_mark byte }
{
    matches!(
        byte,
        b'(' | b')' | b'{' | b'}' | b',' | b';' | b':' | b'.' | b'='
    )
}

fn are_digits(bytes: &[u8]) -> bool
    ensures { result ≡ list_all ascii.is_ascii_digit bytes.now }
{
    bytes.iter().all(|b| b.is_ascii_digit())
}

/// Whether the bytes are a number.
fn is_number(bytes: &[u8]) -> bool
    ensures { result ≡ symbols.is_number bytes.now }
{
    match bytes {
        [] => false,
        [digit] => digit.is_ascii_digit(),
        [first, more @ ..] => {
            (first.is_ascii_digit() && *first != ZERO)
                && (are_digits(more) && bytes.len() <= MAX_DIGITS)
        }
    }
}

fn number_prefix(bytes: &[u8]) -> Option<(TokenKind, usize)>
    ensures { result ≡ mirror.number_prefix bytes.now }
{
    let len = word_len(bytes);
    if is_number(&bytes[..len]) {
        Some((TokenKind::Number, len))
    } else {
        None
    }
}

fn text_prefix(more: &[u8]) -> Option<(TokenKind, usize)>
    ensures { result ≡ mirror.text_prefix more.now }
{
    let len = text_len(more);
    if len < more.len() && more[len] == QUOTE {
        Some((TokenKind::Text, 2 + len))
    } else {
        None
    }
}

fn arrow_prefix(more: &[u8]) -> Option<(TokenKind, usize)>
    ensures { result ≡ mirror.arrow_prefix more.now }
{
    match more {
        [GREATER, ..] => Some((TokenKind::Symbol, 2)),
        _ => None,
    }
}

/// The kind and the length of the token at the start, if one begins there.
pub(crate) fn token_prefix(bytes: &[u8]) -> Option<(TokenKind, usize)>
    ensures { result ≡ mirror.token_prefix bytes.now }
{
    match bytes {
        [] => None,
        [b, more @ ..] => {
            if b.is_ascii_alphabetic() {
                Some((TokenKind::Word, word_len(bytes)))
            } else if b.is_ascii_digit() {
                number_prefix(bytes)
            } else if *b == QUOTE {
                text_prefix(more)
            } else if is_mark(*b) {
                Some((TokenKind::Symbol, 1))
            } else if *b == MINUS {
                arrow_prefix(more)
            } else {
                None
            }
        }
    }
}
