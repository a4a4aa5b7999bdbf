use crate::happened::{Happened, Lack};
use crate::secrets::Secret;
use dy_label::Corruption;

/// What an audit keeps of a trace beside the attacker's knowledge.
#[derive(Drop)]
pub(crate) struct Notes {
    /// For each entry, what is kept of the nonce that a handler makes by it, if it is such an entry.
    pub(crate) secrets: Vec<Option<Secret>>,
    pub(crate) corruptions: Vec<Corruption>,
    pub(crate) happened: Vec<Happened>,
    pub(crate) lacks: Vec<Lack>,
    /// The number of secrets that are breaches.
    pub(crate) breaches: u64,
}

/// How much is kept, so that what comes later can be cut off.
#[derive(Drop)]
pub(crate) struct Marks {
    secrets: usize,
    corruptions: usize,
    happened: usize,
    lacks: usize,
}

impl Notes {
    ghost use Rattle.dy_know.specs.MirrorNotes.{Extends, AreSame, IsMarked};

    /// How much is kept now.
    pub(crate) fn marks(&self) -> Marks
        ensures { IsMarked self.now result }
    {
        Marks {
            secrets: self.secrets.len(),
            corruptions: self.corruptions.len(),
            happened: self.happened.len(),
            lacks: self.lacks.len(),
        }
    }

    /// Cuts off what was added after there was as much as this.
    pub(crate) fn cut(&mut self, marks: &Marks)
        ensures { (before : Notes) → IsMarked before marks.now → Extends before self.old → AreSame before self.new }
    {
        self.secrets.truncate(marks.secrets);
        self.corruptions.truncate(marks.corruptions);
        self.happened.truncate(marks.happened);
        self.lacks.truncate(marks.lacks);
    }
}
