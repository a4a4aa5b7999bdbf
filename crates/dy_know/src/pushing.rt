ghost use Rattle.std.specs.Prelude.{◌≡◌, ℕ, suc, ◌∷◌, [], ◌++◌, List, length, OnOk, OnErr};
ghost use Rattle.dy_syntax.specs.Files as files;
ghost use Rattle.dy_entry.specs.Entries as entries;
ghost use Rattle.dy_entry.specs.Meaning.{entry_of};
ghost use Rattle.dy_derive.specs.KnowledgeMeaning.{GivesSmallValues};
ghost use Rattle.dy_know.specs.Conditions.{MakesNoncesFirst};
ghost use Rattle.dy_know.specs.MirrorAuditors.{Audits, IsExplained, HasAdded};

use crate::auditors::Auditor;
use crate::explaining::add_recipes;
use crate::learning::learn_all;
use dy_entry::Entry;
use dy_term::Memory;

impl Auditor {
    /// Makes the recipes that are missing. It refuses out of memory alone.
    fn explain(&mut self) -> Result<(), Memory>
        ensures ok { OnOk result ((decls : List files.Decl) (T : List entries.Entry) →
            Audits self.old decls T → IsExplained self.new decls T) }
        ensures err { OnErr result ((decls : List files.Decl) (T : List entries.Entry) →
            Audits self.old decls T → Audits self.new decls T) }
    {
        let nonces = self.knowledge.nonces();
        let pending = self.pending.min(nonces.len());
        add_recipes(&mut self.notes.secrets, &self.knowledge, &nonces[pending..])?;
        self.pending = nonces.len();
        Ok(())
    }

    /// Adds an entry, and leaves to `learn` which nonces are known by it. It refuses out of memory alone, and then the
    /// Auditor is as before.
    fn add(&mut self, entry: &Entry) -> Result<(), Memory>
        requires { GivesSmallValues (entry_of entry.now) }
        ensures ok { OnOk result ((decls : List files.Decl) (T : List entries.Entry) →
            MakesNoncesFirst (T ++ entry_of entry.now ∷ []) → IsExplained self.old decls T →
            HasAdded self.new decls (T ++ entry_of entry.now ∷ []) (length T)) }
        ensures err { OnErr result ((decls : List files.Decl) (T : List entries.Entry) →
            IsExplained self.old decls T → Audits self.new decls T) }
    {
        let marks = self.notes.marks();
        let added = self.notes.add(self.alloc, self.events.as_slice(), entry);
        if added.is_err() {
            self.notes.cut(&marks);
            return Err(Memory);
        }
        let pushed = self.knowledge.push(entry);
        if pushed.is_err() {
            self.notes.cut(&marks);
            return Err(Memory);
        }
        Ok(())
    }

    /// Notes which nonces are known by the last entry.
    fn learn(&mut self)
        ensures { (decls : List files.Decl) (T : List entries.Entry) (last : ℕ) →
            HasAdded self.old decls T last → Audits self.new decls T }
    {
        let nonces = self.knowledge.nonces();
        let entries = self.notes.secrets.len();
        if self.pending > nonces.len() || entries == 0 || entries > u32::MAX as usize {
            return;
        }
        let found = learn_all(
            &mut self.notes.secrets,
            self.notes.corruptions.as_slice(),
            &nonces[self.pending..],
            (entries - 1) as u32,
        );
        self.notes.breaches = self.notes.breaches.saturating_add(found);
    }

    /// Adds an entry to the audit, each of whose values has at most 1,024 nodes. The one refusal is out of memory, and
    /// then the Auditor is as before.
    pub fn push(&mut self, entry: &Entry) -> Result<(), Memory>
        requires { GivesSmallValues (entry_of entry.now) }
        ensures ok { OnOk result ((decls : List files.Decl) (T : List entries.Entry) →
            MakesNoncesFirst (T ++ entry_of entry.now ∷ []) → Audits self.old decls T →
            Audits self.new decls (T ++ entry_of entry.now ∷ [])) }
        ensures err { OnErr result ((decls : List files.Decl) (T : List entries.Entry) →
            Audits self.old decls T → Audits self.new decls T) }
    {
        self.explain()?;
        self.add(entry)?;
        self.learn();
        Ok(())
    }
}
