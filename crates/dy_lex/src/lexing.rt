ghost use Rattle.std.specs.Prelude.{◌≡◌, ◌≤◌, ℕ, length, map, Some, IfOk, IsErrOf};
ghost use Rattle.dy_lex.specs.Messages.{lex_message};
ghost use Rattle.dy_lex.specs.Tokens.{pieces_of, Spells, IsFaulty};

use crate::letters::NEWLINE;
use crate::limits::MAX_SOURCE_BYTES;
use crate::prefixes::{is_blank, token_prefix};
use crate::tokens::Token;
use std::alloc::Global;
use std::fmt;
use thiserror::Error;

/// Why a source has no tokens.
#[derive(Clone, Copy, Debug, PartialEq, Eq, Error)]
pub enum LexError {
    /// On this line a byte that begins no token stands where one is due.
    Bad { line: u32 },
    /// Memory for the tokens was refused.
    Memory,
}

impl fmt::Display for LexError {
    ghost output = { λ e. Some (lex_message e) };

    fn fmt<W: fmt::Write>(&self, f: &mut fmt::Formatter<W>) -> fmt::Result {
        match self {
            LexError::Bad { line } => write!(f, "line {line}: no token begins here"),
            LexError::Memory => f.write_str("out of memory"),
        }
    }
}

/// The tokens of a source of at most `MAX_SOURCE_BYTES` bytes, each a slice of it. `Bad` comes only
/// where a byte that is no blank begins no token; it names the line of the first such byte.
pub fn lex<'a>(alloc: Global, source: &'a [u8]) -> Result<Vec<Token<'a>>, LexError>
    requires { length source.now ≤ MAX_SOURCE_BYTES }
    ensures tokens { IfOk result (λ tokens. Spells (pieces_of tokens.items) 0 1 source.now) }
    ensures bad { (line : ℕ) → IsErrOf result (LexError.Bad line) → IsFaulty 0 1 source.now line }
{
    let mut tokens = Vec::new(alloc);
    let mut at = 0;
    let mut line = 1;
    while at < source.len() {
        let rest = &source[at..];
        if is_blank(rest[0]) {
            line += u32::from(rest[0] == NEWLINE);
            at += 1;
        } else if let Some((kind, len)) = token_prefix(rest) {
            let text = &rest[..len];
            let token = Token {
                kind,
                text,
                at,
                line,
            };
            if tokens.push(token).is_err() {
                return Err(LexError::Memory);
            }
            at += len;
        } else {
            return Err(LexError::Bad { line });
        }
    }
    Ok(tokens)
}
