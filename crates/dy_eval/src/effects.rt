use crate::items::Item;
use crate::written::Written;
use dy_term::Word;

/// What a statement does: it puts an item, whose nonce may be due in place of a word. Or it has bytes written in
/// place of words in the lines after it, or it fails.
#[derive(Debug, Drop)]
pub(crate) enum Effect {
    Puts(Item, Option<Word>),
    Writes(Vec<Written>),
    Fails,
}
