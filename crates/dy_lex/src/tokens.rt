/// What a token is.
#[derive(Clone, Copy, Debug, PartialEq, Eq)]
pub enum TokenKind {
    /// A letter, and then letters, digits and `_`.
    Word,
    /// `0`, or a digit from 1 to 9 and up to five further digits.
    Number,
    /// Printable ASCII characters other than `"` and `\`, between two `"`.
    Text,
    /// One of `(` `)` `{` `}` `,` `;` `:` `.` `=` `->`.
    Symbol,
}

/// A token, and where it stands.
#[derive(Clone, Copy, Debug)]
pub struct Token<'a> {
    pub kind: TokenKind,
    /// The bytes of the token, the quotes of a text among them.
    pub text: &'a [u8],
    /// How many bytes stand before it.
    pub at: usize,
    /// Its line, counted from 1.
    pub line: u32,
}
