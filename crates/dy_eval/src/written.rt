use dy_flat::FlatTerm;
use dy_term::Word;

/// Bytes that are written in place of a word in a handler's text.
#[derive(Debug, Drop)]
pub struct Written {
    pub(crate) word: Word,
    pub(crate) bytes: FlatTerm,
}
