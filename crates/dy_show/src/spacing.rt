//! Which blanks stand between two tokens.
ghost use Rattle.std.specs.Prelude.{◌≡◌};
ghost use Rattle.dy_show.specs.Spacing as spacing;

use dy_lex::TokenKind;

/// Where a token stands.
#[derive(Clone, Copy, Debug)]
pub enum Stand {
    /// As its neighbours ask.
    Near,
    /// After a space.
    Apart,
    /// Between two spaces.
    Between,
    /// At the start of a line.
    OnLine,
    /// At the start of a line, after two spaces.
    Indented,
}

/// What a token asks for after it.
#[derive(Clone, Copy, Debug)]
pub enum Ending {
    /// Nothing.
    Bound,
    /// A space.
    Loose,
    /// A space where a word follows.
    Closed,
    /// A space where a word, a number or a text follows.
    Written,
}

fn is_loose(text: &[u8]) -> bool
    ensures { result ≡ spacing.is_loose text.now }
{
    text == b",".as_slice()
        || text == b";".as_slice()
        || text == b":".as_slice()
        || text == b"{".as_slice()
        || text == b"->".as_slice()
}

fn symbol_ending(text: &[u8]) -> Ending
    ensures { result ≡ spacing.symbol_ending text.now }
{
    if text == b")".as_slice() {
        Ending::Closed
    } else if is_loose(text) {
        Ending::Loose
    } else {
        Ending::Bound
    }
}

/// What the token asks for after it.
pub(crate) fn token_ending(stand: Stand, kind: TokenKind, text: &[u8]) -> Ending
    ensures { result ≡ spacing.token_ending stand kind text.now }
{
    match (stand, kind) {
        (Stand::Between, _) => Ending::Loose,
        (_, TokenKind::Symbol) => symbol_ending(text),
        (_, TokenKind::Word | TokenKind::Number | TokenKind::Text) => Ending::Written,
    }
}

/// Whether a space stands before the token in any case.
pub(crate) fn is_apart(kind: TokenKind, text: &[u8]) -> bool
    ensures { result ≡ spacing.is_apart kind text.now }
{
    match kind {
        TokenKind::Symbol => text == b"{".as_slice() || text == b"->".as_slice(),
        TokenKind::Word | TokenKind::Number | TokenKind::Text => false,
    }
}

fn asks_space(ending: Ending, kind: TokenKind, apart: bool) -> bool
    ensures { result ≡ spacing.asks_space ending kind apart }
{
    match (ending, kind) {
        (Ending::Bound, _) => apart,
        (Ending::Loose, _) => true,
        (Ending::Closed, TokenKind::Word) => true,
        (Ending::Closed, _) => apart,
        (Ending::Written, TokenKind::Symbol) => apart,
        (Ending::Written, _) => true,
    }
}

/// The blanks between a token and the next one.
pub(crate) fn blanks_before(
    ending: Ending,
    stand: Stand,
    kind: TokenKind,
    apart: bool,
) -> &'static [u8]
    ensures { result.now ≡ spacing.blanks_before ending stand kind apart }
{
    match stand {
        Stand::Near => {
            if asks_space(ending, kind, apart) {
                b" "
            } else {
                b""
            }
        }
        Stand::Apart | Stand::Between => b" ",
        Stand::OnLine => b"\n",
        Stand::Indented => b"\n  ",
    }
}
