ghost use Rattle.std.specs.Prelude.{◌≡◌, ℕ, ◌++◌, List, Option, Some, map, length, IfOk};
ghost use Rattle.std.specs.Option.{option_map};
ghost use Rattle.dy_label.specs.Labels as labels;
ghost use Rattle.dy_syntax.specs.Files as files;
ghost use Rattle.dy_entry.specs.Entries as entries;
ghost use Rattle.dy_recipe.specs.declared.moves.Recipe as code;
ghost use Rattle.dy_recipe.specs.Meaning.{recipe_of};
ghost use Rattle.dy_derive.specs.KnowledgeMeaning.{Stands, nonces_of};
ghost use Rattle.dy_know.specs.Knowing.{IsKnownFrom};
ghost use Rattle.dy_know.specs.Breaches.{GivesNonce};
ghost use Rattle.dy_know.specs.Reports as reports;
ghost use Rattle.dy_know.specs.Reports.{IsReport};
ghost use Rattle.dy_know.specs.ReportMeaning.{known_of, breach_of, report_of};
ghost use Rattle.dy_know.specs.MirrorAuditors.{KeepsSecrets, IsKept, HasRecipe, AllKnown, Audits};
ghost use Rattle.dy_know.specs.MirrorReports.{known_since, breach_of_lack, IsFound};
ghost use Rattle.dy_know.specs.MirrorReports.{ListsKnownBelow, ListsNonceBreaches};

use crate::auditors::Auditor;
use crate::happened::Lack;
use crate::reports::{Breach, KnownFrom, Report};
use crate::secrets::{Knowing, Secret};
use dy_recipe::Recipe;
use dy_term::Memory;
use sqlite_items::Items;
use std::alloc::Global;

/// The entry from which on the attacker knows a nonce, if it does.
fn known_from(secret: &Option<Secret>) -> Option<u32>
    ensures { result ≡ known_since secret.now }
{
    let Some(secret) = secret else {
        return None;
    };
    match secret.knowing {
        Knowing::Unknown => None,
        Knowing::Open { from } | Knowing::Breach { from, .. } => Some(from),
    }
}

/// The honest nonces that the attacker knows. It refuses out of memory alone, or where a number does not fit.
fn known_nonces(alloc: Global, secrets: &[Option<Secret>]) -> Result<Items<KnownFrom>, Memory>
    ensures { IfOk result (λ items. (T : List entries.Entry) (known missing : List ℕ) →
        KeepsSecrets known missing T secrets.now → ListsKnownBelow known (length T) T (map known_of items)) }
{
    let mut known = Items::new(alloc);
    for (place, secret) in secrets.iter().enumerate() {
        let Ok(nonce) = u32::try_from(place) else {
            return Err(Memory);
        };
        if let Some(from) = known_from(secret) {
            known.push(KnownFrom { nonce, from })?;
        }
    }
    Ok(known)
}

/// Adds the breaches of events. It refuses out of memory alone.
fn with_lacks(breaches: Items<Breach>, lacks: &[Lack]) -> Result<Items<Breach>, Memory>
    ensures { IfOk result (λ all. map breach_of all ≡ map breach_of breaches ++ map breach_of_lack lacks.now) }
{
    let mut all = breaches;
    for lack in lacks {
        all.push(Breach::Event {
            event: lack.event,
            partner: lack.partner,
        })?;
    }
    Ok(all)
}

impl Auditor {
    /// Nothing is left out of what the knowledge has: what the trace derives is known. This has no effect.
    fn knows_all(&self)
        ensures { (T : List entries.Entry) → Stands self.now.knowledge T → AllKnown (nonces_of self.now.knowledge) T }
    {
        self.knowledge.nonces();
    }

    /// The recipe of a nonce: a copy of what is kept of it, or else it is made. It refuses out of memory alone.
    fn recipe_for(&self, nonce: u32, recipe: &Option<Recipe>) -> Result<Option<Recipe>, Memory>
        ensures { IfOk result (λ found. (T : List entries.Entry) (missing : List ℕ) (from : ℕ) →
            Stands self.now.knowledge T → IsKnownFrom T nonce from → HasRecipe missing T nonce from recipe.now →
            (made : code.Recipe) × (found ≡ Some made) × GivesNonce T nonce from (recipe_of made)) }
    {
        match recipe {
            Some(recipe) => Ok(Some(recipe.copy(self.alloc)?)),
            None => self.knowledge.recipe_of_nonce(nonce),
        }
    }

    /// The breach of a nonce, if what is kept of it is one. A recipe that is missing is made. It refuses out of memory
    /// alone.
    fn nonce_breach(&self, nonce: u32, secret: &Option<Secret>) -> Result<Option<Breach>, Memory>
        ensures { IfOk result (λ found. (T : List entries.Entry) (known missing : List ℕ)
            (label : Option labels.Label) → Stands self.now.knowledge T → IsKept known missing T nonce label secret.now →
            IsFound T nonce secret.now (option_map breach_of found)) }
    {
        let Some(secret) = secret else {
            return Ok(None);
        };
        let Knowing::Breach { from, recipe } = &secret.knowing else {
            return Ok(None);
        };
        let Some(recipe) = self.recipe_for(nonce, recipe)? else {
            return Ok(None);
        };
        Ok(Some(Breach::Nonce {
            nonce,
            from: *from,
            recipe,
        }))
    }

    /// The breaches of nonces. It refuses out of memory alone, or where a number does not fit.
    fn nonce_breaches(&self) -> Result<Items<Breach>, Memory>
        ensures { IfOk result (λ items. (T : List entries.Entry) (known missing : List ℕ) →
            Stands self.now.knowledge T → KeepsSecrets known missing T self.now.notes.secrets.items →
            AllKnown known T → ListsNonceBreaches (length T) T (map breach_of items)) }
    {
        let mut breaches = Items::new(self.alloc);
        for (place, secret) in self.notes.secrets.as_slice().iter().enumerate() {
            let Ok(nonce) = u32::try_from(place) else {
                return Err(Memory);
            };
            if let Some(breach) = self.nonce_breach(nonce, secret)? {
                breaches.push(breach)?;
            }
        }
        Ok(breaches)
    }

    /// The number of breaches so far.
    pub fn breaches(&self) -> u64
        ensures { (decls : List files.Decl) (T : List entries.Entry) (report : reports.Report) →
            Audits self.now decls T → IsReport decls T report → result ≡ length report.breaches }
    {
        self.knows_all();
        let lacks = self.notes.lacks.len() as u64;
        self.notes.breaches.saturating_add(lacks)
    }

    /// The report of the entries so far. It refuses out of memory alone.
    pub fn report(&self) -> Result<Report, Memory>
        ensures { IfOk result (λ report. (decls : List files.Decl) (T : List entries.Entry) →
            Audits self.now decls T → IsReport decls T (report_of report)) }
    {
        self.knows_all();
        let known = known_nonces(self.alloc, self.notes.secrets.as_slice())?;
        let breaches = with_lacks(self.nonce_breaches()?, self.notes.lacks.as_slice())?;
        Ok(Report { known, breaches })
    }
}
