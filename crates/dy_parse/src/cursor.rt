ghost use Rattle.std.specs.Prelude.{◌≡◌, ◌-◌, [], ◌∷◌, length, take, drop, IfSome, IfNone};
ghost use Rattle.std.specs.Prelude.{◌≤◌};
ghost use Rattle.std.specs.Char.{is_ascii_digit};
ghost use Rattle.std.specs.List.{list_all};
ghost use Rattle.std.specs.Option.{option_map};
ghost use Rattle.dy_lex.specs.Tokens.{piece_of, pieces_of};
ghost use Rattle.dy_syntax.specs.Meaning.{id_of, quote_of};
ghost use Rattle.dy_grammar.specs.Terminals as terminals;
ghost use Rattle.dy_grammar.specs.Terminals.{This, AName, AText, ANumber, accepts};
ghost use Rattle.dy_grammar.specs.Mirrors.Machine.{token_value_if, token_at};
ghost use Rattle.dy_parse.specs.Mirrors.Lists.{after_mark};
ghost use Rattle.dy_parse.specs.Mirrors.Gives.{Gives};

use crate::words::is_reserved;
use dy_lex::{Token, TokenKind};
use dy_syntax::{Id, Quote};
use dy_term::characters::{is_long_text, is_long_word};
use dy_term::limits::MAX_LENGTH;
use dy_term::{Text, Word};
use std::alloc::{AllocError, AllocFailed};
use std::marker::Model;

/// Why a part is not read.
#[derive(Clone, Copy, Debug)]
pub(crate) enum Fault {
    /// The grammar goes on otherwise where so many tokens are left.
    At(usize),
    Memory,
}

impl From<AllocError> for Fault {
    ghost use Rattle.std.specs.Prelude.{◌≡◌};
    ghost use Rattle.dy_parse.specs.declared.cursor.Fault.TheVariants.{Memory};

    ghost from_gives = { λ _ e. e ≡ Memory };

    fn from(_error: AllocError) -> Fault {
        Fault::Memory
    }
}

impl<T: Drop> From<AllocFailed<T>> for Fault {
    ghost use Rattle.std.specs.Prelude.{◌≡◌};
    ghost use Rattle.dy_parse.specs.declared.cursor.Fault.TheVariants.{Memory};

    ghost from_gives = { λ _ e. e ≡ Memory };

    fn from(_failed: AllocFailed<T>) -> Fault {
        Fault::Memory
    }
}

/// The tokens that are left to read.
#[derive(Drop)]
pub(crate) struct Cursor<'a> {
    left: &'a [Token<'a>],
}

impl<'a> Model for Cursor<'a> {
    ghost use Rattle.std.specs.Prelude.{List};
    ghost use Rattle.dy_lex.specs.Tokens.{Piece, pieces_of};

    ghost Value = { List Piece };

    ghost view = { λ c. pieces_of c.left.now };
}

impl<'a> Cursor<'a> {
    pub(crate) fn new(tokens: &'a [Token<'a>]) -> Cursor<'a>
        ensures { result ≡ pieces_of tokens.now }
    {
        Cursor { left: tokens }
    }

    pub(crate) fn copy(&self) -> Cursor<'a>
        ensures { result ≡ self.now }
    {
        Cursor { left: self.left }
    }

    /// A fault at the first token.
    pub(crate) fn fault(&self) -> Fault
        ensures { result ≡ Fault.At (length self.now) }
    {
        Fault::At(self.left.len())
    }

    /// The first token and what is left after it.
    pub(crate) fn first(&self) -> Option<(&'a Token<'a>, Cursor<'a>)>
        ensures some { IfSome result (λ x. self.now ≡ piece_of x.0.now ∷ x.1) }
        ensures none { IfNone result (self.now ≡ []) }
    {
        match self.left {
            [token, rest @ ..] => Some((token, Cursor { left: rest })),
            [] => None,
        }
    }

    /// What is left after this symbol, if it is the first token.
    #[tactic(auto, unfolding(crate::specs::Mirrors::Lists::after_mark))]
    pub(crate) fn after(&self, text: &[u8]) -> Option<Cursor<'a>>
        ensures { result ≡ after_mark text.now self.now }
    {
        match self.left {
            [token, rest @ ..] if is_mark(token, text) => Some(Cursor { left: rest }),
            _ => None,
        }
    }

    /// The line of this token, if it is the first, and what is left after it.
    #[tactic(auto, unfolding(dy_grammar::specs::Mirrors::Machine::token_at, dy_grammar::specs::Mirrors::Machine::token_value_if))]
    fn this(&self, kind: TokenKind, text: &[u8]) -> Result<(u32, Cursor<'a>), Fault>
        ensures { Gives (λ x. x) result (token_at (This kind text.now) self.now) }
    {
        match self.left {
            [token, rest @ ..] if token.kind == kind && token.text == text => {
                Ok((token.line, Cursor { left: rest }))
            }
            _ => Err(self.fault()),
        }
    }

    /// The line of this word, if it is the first token, and what is left after it.
    pub(crate) fn word(&self, text: &[u8]) -> Result<(u32, Cursor<'a>), Fault>
        ensures { Gives (λ x. x) result (token_at (This TokenKind.Word text.now) self.now) }
    {
        self.this(TokenKind::Word, text)
    }

    /// The line of this symbol, if it is the first token, and what is left after it.
    pub(crate) fn mark(&self, text: &[u8]) -> Result<(u32, Cursor<'a>), Fault>
        ensures { Gives (λ x. x) result (token_at (This TokenKind.Symbol text.now) self.now) }
    {
        self.this(TokenKind::Symbol, text)
    }

    /// The line of this number, if it is the first token, and what is left after it.
    pub(crate) fn this_number(&self, text: &[u8]) -> Result<(u32, Cursor<'a>), Fault>
        ensures { Gives (λ x. x) result (token_at (This TokenKind.Number text.now) self.now) }
    {
        self.this(TokenKind::Number, text)
    }

    #[tactic(auto, unfolding(dy_grammar::specs::Mirrors::Machine::token_at))]
    pub(crate) fn name(&self) -> Result<(Id, Cursor<'a>), Fault>
        ensures { Gives (λ x. (id_of x.0, x.1)) result (token_at AName self.now) }
    {
        if let [token, rest @ ..] = self.left {
            if let Some(id) = name_of(token) {
                return Ok((id, Cursor { left: rest }));
            }
        }
        Err(self.fault())
    }

    #[tactic(auto, unfolding(dy_grammar::specs::Mirrors::Machine::token_at))]
    pub(crate) fn text(&self) -> Result<(Quote, Cursor<'a>), Fault>
        ensures { Gives (λ x. (quote_of x.0, x.1)) result (token_at AText self.now) }
    {
        if let [token, rest @ ..] = self.left {
            if let Some(quote) = text_of(token) {
                return Ok((quote, Cursor { left: rest }));
            }
        }
        Err(self.fault())
    }

    #[tactic(auto, unfolding(dy_grammar::specs::Mirrors::Machine::token_at))]
    pub(crate) fn number(&self) -> Result<(u32, Cursor<'a>), Fault>
        ensures { Gives (λ x. x) result (token_at ANumber self.now) }
    {
        if let [token, rest @ ..] = self.left {
            if let Some(number) = number_of(token) {
                return Ok((number, Cursor { left: rest }));
            }
        }
        Err(self.fault())
    }
}

/// Whether the token is this word.
pub(crate) fn is_word(token: &Token<'_>, text: &[u8]) -> bool
    ensures { result ≡ accepts (This TokenKind.Word text.now) (piece_of token.now) }
{
    token.kind == TokenKind::Word && token.text == text
}

/// Whether the token is this symbol.
pub(crate) fn is_mark(token: &Token<'_>, text: &[u8]) -> bool
    ensures { result ≡ accepts (This TokenKind.Symbol text.now) (piece_of token.now) }
{
    token.kind == TokenKind::Symbol && token.text == text
}

/// Whether the token is a name.
pub(crate) fn is_free_word(token: &Token<'_>) -> bool
    ensures { result ≡ accepts AName (piece_of token.now) }
{
    token.kind == TokenKind::Word && (is_long_word(token.text) && !is_reserved(token.text))
}

/// Whether the token is a text.
pub(crate) fn is_text(token: &Token<'_>) -> bool
    ensures { result ≡ accepts AText (piece_of token.now) }
{
    token.kind == TokenKind::Text && is_long_text(text_inside(token.text))
}

/// Whether the token is a number.
pub(crate) fn is_number(token: &Token<'_>) -> bool
    ensures { result ≡ accepts ANumber (piece_of token.now) }
{
    token.kind == TokenKind::Number && (token.text.len() <= 6 && are_digits(token.text))
}

/// The name that a token is, if it is one.
#[tactic(auto, unfolding(dy_grammar::specs::Mirrors::Machine::token_value_if))]
pub(crate) fn name_of(token: &Token<'_>) -> Option<Id>
    ensures { option_map id_of result ≡ token_value_if AName (piece_of token.now) }
{
    if token.kind != TokenKind::Word || !is_long_word(token.text) || is_reserved(token.text) {
        return None;
    }
    match Word::new(prefix(token.text)) {
        Some(word) => Some(Id {
            word,
            line: token.line,
        }),
        None => None,
    }
}

/// The text that a token is, if it is one.
#[tactic(auto, unfolding(dy_grammar::specs::Mirrors::Machine::token_value_if))]
pub(crate) fn text_of(token: &Token<'_>) -> Option<Quote>
    ensures { option_map quote_of result ≡ token_value_if AText (piece_of token.now) }
{
    let inner = text_inside(token.text);
    if token.kind != TokenKind::Text || !is_long_text(inner) {
        return None;
    }
    match Text::new(prefix(inner)) {
        Some(text) => Some(Quote {
            text,
            line: token.line,
        }),
        None => None,
    }
}

/// The number that a token is, if it is one.
#[tactic(auto, unfolding(dy_grammar::specs::Mirrors::Machine::token_value_if))]
fn number_of(token: &Token<'_>) -> Option<u32>
    ensures { result ≡ token_value_if ANumber (piece_of token.now) }
{
    if token.kind != TokenKind::Number || token.text.len() > 6 || !are_digits(token.text) {
        return None;
    }
    Some(value_of(token.text))
}

fn are_digits(bytes: &[u8]) -> bool
    ensures { result ≡ list_all is_ascii_digit bytes.now }
{
    bytes.iter().all(|b| b.is_ascii_digit())
}

/// What at most six digits stand for.
fn value_of(digits: &[u8]) -> u32
    requires { length digits.now ≤ 6 }
    ensures { result ≡ terminals.number_of digits.now }
{
    let mut number = 0;
    for digit in digits {
        number = 10 * number + u32::from(digit.saturating_sub(b'0'));
    }
    number
}

/// The first MAX_LENGTH bytes.
fn prefix(bytes: &[u8]) -> &[u8]
    ensures { result.now ≡ take MAX_LENGTH bytes.now }
{
    &bytes[..bytes.len().min(MAX_LENGTH)]
}

/// The bytes between two quotes.
pub(crate) fn text_inside(text: &[u8]) -> &[u8]
    ensures { result.now ≡ terminals.text_inside text.now }
{
    match text {
        [_, inner @ .., _] => inner,
        _ => &[],
    }
}
