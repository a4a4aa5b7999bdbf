ghost use Rattle.std.specs.Prelude.{◌+◌, ◌<◌, ◌^◌, length};

use crate::lines::Line;
use crate::names::Names;
use dy_label::Outcome;
use dy_term::Word;
use sqlite_items::Items;

/// How an instance stands between two calls: nothing is put yet, or it awaits the index of an item's entry, or it
/// has ended. The nonce of the item may be due in place of a word.
#[derive(Debug, Drop)]
pub(crate) enum Stand {
    Goes,
    Awaits(Option<Word>),
    Ended(Outcome),
}

/// A started handler. It keeps copies of what it needs of the file.
#[derive(Debug, Drop)]
pub struct Instance {
    pub(crate) names: Names,
    pub(crate) lines: Items<Line>,
    /// The number of the first line.
    pub(crate) first: u32,
    /// How many lines are taken.
    pub(crate) at: usize,
    pub(crate) stand: Stand,
    ghost numbers: { first + length lines < 2 ^ 32 },
}
