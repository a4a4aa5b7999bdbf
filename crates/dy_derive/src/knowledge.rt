ghost use Rattle.std.specs.Prelude.{◌≡◌, ◌≤◌, ℕ, List, [], ◌∷◌, ◌++◌, length, Contains, IfOk, OnOk, OnErr};
ghost use Rattle.dy_term.specs.Terms as terms;
ghost use Rattle.dy_entry.specs.Entries as said;
ghost use Rattle.dy_entry.specs.Attacker.{Derives};
ghost use Rattle.dy_entry.specs.Meaning.{entry_of, entries_of};

use crate::deductions::Deductions;
use dy_entry::Entry;
use dy_term::Memory;
use std::alloc::Global;

/// What an attacker derives from a trace. It stands for the list of the entries that it was given, in order.
#[derive(Drop)]
pub struct Knowledge {
    pub(crate) alloc: Global,
    pub(crate) deductions: Deductions,
    /// How many entries it was given.
    pub(crate) entries: u32,
    /// The nonces among the first steps of the log.
    pub(crate) nonces: Vec<u32>,
    /// How many steps these are.
    pub(crate) seen: usize,
    ghost in_log: { seen ≤ length deductions.chain.chain.log },
}

impl Knowledge {
    ghost use Rattle.dy_derive.specs.KnowledgeMeaning.{Stands, HasEachOnce, nonces_of, GivesSmallValues};

    /// What is derived of no entries. It refuses out of memory alone.
    pub fn new(alloc: Global) -> Result<Knowledge, Memory>
        ensures { IfOk result (λ knowledge. Stands knowledge []) }
    {
        Ok(Knowledge {
            alloc,
            deductions: Deductions::new(alloc),
            entries: 0,
            nonces: Vec::new(alloc),
            seen: 0,
        })
    }

    /// What is derived of these entries. It refuses out of memory alone, which it also is where they are 2^32 or more.
    pub fn of(alloc: Global, entries: &[Entry]) -> Result<Knowledge, Memory>
        requires { (entry : said.Entry) → Contains (entries_of entries.now) entry → GivesSmallValues entry }
        ensures { IfOk result (λ knowledge. Stands knowledge (entries_of entries.now)) }
    {
        let mut knowledge = Knowledge::new(alloc)?;
        for entry in entries {
            knowledge.push(entry)?;
        }
        Ok(knowledge)
    }

    /// Goes on with one more entry, each of whose values has at most 1,024 nodes. It refuses out of memory alone, which
    /// it also is where entries or parts would be 2^32 or more. Then it stands for the same entries as before.
    pub fn push(&mut self, entry: &Entry) -> Result<(), Memory>
        requires { GivesSmallValues (entry_of entry.now) }
        ensures ok { OnOk result ((T : List said.Entry) → Stands self.old T →
            Stands self.new (T ++ entry_of entry.now ∷ [])) }
        ensures err { OnErr result ((T : List said.Entry) → Stands self.old T → Stands self.new T) }
        ensures same { OnErr result (nonces_of self.new ≡ nonces_of self.old) }
        ensures prefix { (more : List ℕ) × (nonces_of self.new ≡ nonces_of self.old ++ more) }
    {
        let Some(entries) = self.entries.checked_add(1) else {
            return Err(Memory);
        };
        let given = self.deductions.given_by(self.alloc, self.entries, entry)?;
        let room = self.deductions.nodes.len().saturating_sub(self.seen);
        self.nonces.reserve(room)?;
        self.deductions
            .add_rules(given.rules.as_slice(), given.reasons.as_slice())?;
        let steps = self.deductions.log_len();
        self.deductions.push_nonces(&mut self.nonces, self.seen);
        self.seen = steps;
        self.entries = entries;
        Ok(())
    }

    /// The nonces that the attacker derives, each once, in the order in which they came to be derived.
    pub fn nonces(&self) -> &[u32]
        ensures value { result.now ≡ nonces_of self.now }
        ensures derived { (T : List said.Entry) → Stands self.now T → (index : ℕ) →
            Contains (nonces_of self.now) index → Derives T (terms.Nonce index) }
        ensures all { (T : List said.Entry) → Stands self.now T → (index : ℕ) →
            Derives T (terms.Nonce index) → Contains (nonces_of self.now) index }
        ensures once { (T : List said.Entry) → Stands self.now T → HasEachOnce (nonces_of self.now) }
    {
        self.nonces.as_slice()
    }
}
