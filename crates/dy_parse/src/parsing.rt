ghost use Rattle.std.specs.Prelude.{◌≡◌, ◌≤◌, ◌+◌, ℕ, None, Some, length, IfOk, IsErrOf};
ghost use Rattle.dy_lex.specs.Tokens.{newlines, pieces_of, Spells};
ghost use Rattle.dy_syntax.specs.Meaning.{file_of};
ghost use Rattle.dy_grammar.specs.Files.{with_end};
ghost use Rattle.dy_parse.specs.Limits.{excess_in_file};
ghost use Rattle.dy_parse.specs.Reading.{Reads, IsBadLine, IsOverLimit};
ghost use Rattle.dy_parse.specs.Mirrors.Files as mirror;
ghost use Rattle.dy_parse.specs.Mirrors.Limits.{first_of, note_all};

use crate::cursor::Fault;
use crate::errors::{LimitName, ParseError};
use crate::files::file;
use crate::limits::files::{note_file, note_tokens};
use crate::limits::least::First;
use dy_lex::letters::NEWLINE;
use dy_lex::{LexError, MAX_SOURCE_BYTES, Token, TokenKind, lex};
use dy_syntax::File;
use std::alloc::{AllocError, Global};

/// Reads a protocol file of at most `MAX_SOURCE_BYTES` bytes.
///
/// `BadLine` names the line of the first faulty token or, where all are tokens, of the first token after which no
/// file goes on. `Limit` comes only where the whole source is in the grammar. It has the least line on which a limit
/// is broken and, on that line, the least limit. `Memory` says nothing of the source.
pub fn parse(alloc: Global, source: &[u8]) -> Result<File, ParseError>
    requires { length source.now ≤ MAX_SOURCE_BYTES }
    ensures file { IfOk result (λ file. Reads source.now (file_of file)) }
    ensures bad { (line : ℕ) → IsErrOf result (ParseError.BadLine line) → IsBadLine source.now line }
    ensures limit { (line : ℕ) (which : LimitName) →
        IsErrOf result (ParseError.Limit line which) → IsOverLimit source.now line which }
{
    match lex(alloc, source) {
        Ok(tokens) => of_tokens(alloc, source, tokens),
        Err(LexError::Bad { line }) => Err(ParseError::BadLine { line }),
        Err(LexError::Memory) => Err(ParseError::Memory),
    }
}

/// The file that the tokens of the source are.
fn of_tokens<'a>(
    alloc: Global,
    source: &'a [u8],
    tokens: Vec<Token<'a>>,
) -> Result<File, ParseError>
    requires few { length source.now ≤ MAX_SOURCE_BYTES }
    requires cut { Spells (pieces_of tokens.items) 0 1 source.now }
    ensures file { IfOk result (λ file. Reads source.now (file_of file)) }
    ensures bad { (line : ℕ) → IsErrOf result (ParseError.BadLine line) → IsBadLine source.now line }
    ensures limit { (line : ℕ) (which : LimitName) →
        IsErrOf result (ParseError.Limit line which) → IsOverLimit source.now line which }
{
    let mut first = First::none();
    note_tokens(tokens.as_slice(), &mut first);
    let last = last_line(source);
    let Ok(all) = add_end(source, last, tokens) else {
        return Err(ParseError::Memory);
    };
    match file(alloc, all.as_slice()) {
        Ok(file) => within(alloc, file, first),
        Err(Fault::At(left)) => Err(ParseError::BadLine {
            line: fault_line(all.as_slice(), left, last),
        }),
        Err(Fault::Memory) => Err(ParseError::Memory),
    }
}

/// The line on which the source ends.
fn last_line(source: &[u8]) -> u32
    requires { length source.now ≤ MAX_SOURCE_BYTES }
    ensures { result ≡ 1 + newlines source.now }
{
    let mut line = 1;
    for byte in source {
        line += u32::from(*byte == NEWLINE);
    }
    line
}

/// The tokens, and the end of the source, which is on this line.
fn add_end<'a>(
    source: &'a [u8],
    last: u32,
    tokens: Vec<Token<'a>>,
) -> Result<Vec<Token<'a>>, AllocError>
    requires { last ≡ 1 + newlines source.now }
    ensures { IfOk result (λ all. pieces_of all.items ≡ with_end source.now (pieces_of tokens.entry.items)) }
{
    let mut all = tokens;
    let end = Token {
        kind: TokenKind::Symbol,
        text: &source[..0],
        at: source.len(),
        line: last,
    };
    all.push(end)?;
    Ok(all)
}

/// The line of the token where so many are left, or the last line.
fn fault_line(tokens: &[Token<'_>], left: usize, last: u32) -> u32
    ensures { result ≡ mirror.line_where left (pieces_of tokens.now) last }
{
    match tokens.get(tokens.len().saturating_sub(left)) {
        Some(token) => token.line,
        None => last,
    }
}

/// The file, where it breaks no limit and its tokens broke none.
fn within(alloc: Global, file: File, first: First) -> Result<File, ParseError>
    ensures fits { IfOk result (λ same.
        (same ≡ file) × (note_all (excess_in_file (file_of file)) (first_of first) ≡ None)) }
    ensures bad { (line : ℕ) → IsErrOf result (ParseError.BadLine line) → ⊥ }
    ensures limit { (line : ℕ) (which : LimitName) → IsErrOf result (ParseError.Limit line which) →
        note_all (excess_in_file (file_of file)) (first_of first) ≡ Some (record { which = which; line = line }) }
{
    let mut first = first;
    if note_file(alloc, &file, &mut first).is_err() {
        return Err(ParseError::Memory);
    }
    match first.found {
        None => Ok(file),
        Some(broken) => Err(ParseError::Limit {
            line: broken.line,
            which: broken.which,
        }),
    }
}
