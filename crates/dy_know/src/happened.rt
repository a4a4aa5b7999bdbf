use dy_flat::FlatTerm;
use dy_term::Word;
use sqlite_items::Items;

/// An event that has happened, with its arguments.
#[derive(Debug, Drop)]
pub(crate) struct Happened {
    pub(crate) name: Word,
    pub(crate) args: Items<FlatTerm>,
}

/// A partner that an event lacks: the event's index, and the number of the partner, counted from 1.
#[derive(Debug, Drop)]
pub(crate) struct Lack {
    pub(crate) event: u32,
    pub(crate) partner: u32,
}
