ghost use Rattle.std.specs.Prelude.{◌≡◌, [], IfOk};
ghost use Rattle.dy_syntax.specs.Meaning.{file_of};
ghost use Rattle.dy_know.specs.MirrorAuditors.{Audits};

use crate::declared_events::declared_events;
use crate::notes::Notes;
use dy_derive::Knowledge;
use dy_syntax::{EventDecl, File};
use dy_term::Memory;
use std::alloc::Global;

/// An audit of a trace that grows entry by entry.
#[derive(Drop)]
pub struct Auditor {
    pub(crate) alloc: Global,
    /// Copies of the events that the file declares.
    pub(crate) events: Vec<EventDecl>,
    pub(crate) knowledge: Knowledge,
    pub(crate) notes: Notes,
    /// The place, among the nonces that the attacker derives, from which on a recipe may be missing.
    pub(crate) pending: usize,
}

impl Auditor {
    /// The audit of no entries, for traces of this file. It refuses out of memory alone.
    pub fn open(alloc: Global, file: &File) -> Result<Auditor, Memory>
        ensures { IfOk result (λ auditor. Audits auditor (file_of file.now).decls []) }
    {
        let events = declared_events(alloc, file.decls.as_slice())?;
        let knowledge = Knowledge::new(alloc)?;
        Ok(Auditor {
            alloc,
            events,
            knowledge,
            notes: Notes {
                secrets: Vec::new(alloc),
                corruptions: Vec::new(alloc),
                happened: Vec::new(alloc),
                lacks: Vec::new(alloc),
                breaches: 0,
            },
            pending: 0,
        })
    }
}
