use dy_flat::FlatTerm;
use dy_label::{Label, Outcome, Usage};
use dy_term::Word;
use sqlite_items::Items;

/// What an instance puts into the trace.
#[derive(Debug, Drop)]
pub enum Item {
    /// A nonce: its label and usage.
    Fresh(Label, Usage),
    Message(FlatTerm),
    /// A version of the session's state: the version, its tag and its fields.
    State(u32, Word, Items<FlatTerm>),
    /// An event: its name and arguments.
    Event(Word, Items<FlatTerm>),
    /// A certificate: the name of its usage, and its key.
    Cert(Word, FlatTerm),
}

/// What an instance does next: it puts an item, or it ends.
#[derive(Debug, Drop)]
pub enum Emit {
    Put(Item),
    End(Outcome),
}
