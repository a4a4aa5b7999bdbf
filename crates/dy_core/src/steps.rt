use dy_term::Word;
use sqlite_items::Items;

/// A step that starts an instance: its number, the handler, the principal and the names that are given. It has the
/// session that is gone on with, and the index of the message that is received, if there are any.
#[derive(Debug, Drop)]
pub struct StartStep {
    pub step: u32,
    pub handler: Word,
    pub principal: Word,
    pub session: Option<u32>,
    pub args: Items<Word>,
    pub message: Option<u32>,
}
