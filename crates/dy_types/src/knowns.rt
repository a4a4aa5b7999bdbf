ghost use Rattle.std.specs.Prelude.{◌≡◌, ◌↔◌, IsTrue, IfOk};
ghost use Rattle.dy_label.specs.Labels.{Public, Nobody};
ghost use Rattle.dy_label.specs.Words as words;
ghost use Rattle.dy_types.specs.Claims as plain;
ghost use Rattle.dy_types.specs.Claims.{pk_labels, vk_labels, HasUse, HasPk, HasVk, identify_with, unknown};
ghost use Rattle.dy_types.specs.Meaning.{use_of, known_of};
ghost use Rattle.dy_types.specs.Tables.{HasTable, IsTableOfMeet, KnownHasTables};

use crate::claims::{Claim, Side, add_claims, copy_claims, has_use, key_table};
use crate::meets::meet_implies;
use crate::uses::StaticUse;
use dy_label::{Scope, StaticLabel, Table, join, meet, table_of};
use dy_term::Memory;
use sqlite_items::Items;
use std::alloc::Global;

/// What is known of a value. Where `hi` is open, so is the value's label; where that is open, so
/// is `lo`.
#[derive(Debug, Drop)]
pub struct Known {
    pub hi: Table,
    pub lo: Table,
    pub claims: Items<Claim>,
}

/// The table of the label that is always open.
pub fn public_table() -> Table
    ensures { HasTable Public result }
{
    match Scope::new(1) {
        Some(scope) => table_of(&StaticLabel::Public, &scope),
        None => unreachable!(),
    }
}

/// The table of the label that is never open.
pub fn nobody_table() -> Table
    ensures { HasTable Nobody result }
{
    match Scope::new(1) {
        Some(scope) => table_of(&StaticLabel::Nobody, &scope),
        None => unreachable!(),
    }
}

impl Known {
    /// What is known of a value that all may know.
    pub fn plain(alloc: Global) -> Known
        ensures { KnownHasTables plain.plain (known_of result) }
    {
        Known {
            hi: public_table(),
            lo: public_table(),
            claims: Items::new(alloc),
        }
    }

    /// What is known of a value of which nothing is known.
    pub fn unknown(alloc: Global) -> Known
        ensures { KnownHasTables unknown (known_of result) }
    {
        Known {
            hi: nobody_table(),
            lo: public_table(),
            claims: Items::new(alloc),
        }
    }

    /// The same knowledge, in memory of its own. It refuses out of memory alone.
    pub fn copy(&self, alloc: Global) -> Result<Known, Memory>
        ensures { IfOk result (λ known. known ≡ self.now) }
    {
        Ok(Known {
            hi: self.hi,
            lo: self.lo,
            claims: copy_claims(alloc, self.claims.as_slice())?,
        })
    }

    /// Whether the value has this usage.
    pub fn has_use(&self, usage: &StaticUse) -> bool
        ensures { (known : plain.Known) → KnownHasTables known (known_of self.now) →
            (IsTrue result ↔ HasUse known (use_of usage.now)) }
    {
        has_use(self.claims.as_slice(), usage)
    }

    /// The table of all claims on public keys of this usage together, or `None` where there are none.
    pub fn pk_table(&self, usage: &StaticUse) -> Option<Table>
        ensures { (known : plain.Known) → KnownHasTables known (known_of self.now) →
            IsTableOfMeet (pk_labels known.claims (use_of usage.now)) result }
    {
        key_table(self.claims.as_slice(), Side::Pk, usage)
    }

    /// The table of all claims on verification keys of this usage together, or `None` where there
    /// are none.
    pub fn vk_table(&self, usage: &StaticUse) -> Option<Table>
        ensures { (known : plain.Known) → KnownHasTables known (known_of self.now) →
            IsTableOfMeet (vk_labels known.claims (use_of usage.now)) result }
    {
        key_table(self.claims.as_slice(), Side::Vk, usage)
    }

    /// Whether the value is a public key of this usage and of a label that has this table.
    pub fn has_pk(&self, table: &Table, usage: &StaticUse) -> bool
        ensures { (known : plain.Known) (label : words.StaticLabel) →
            KnownHasTables known (known_of self.now) → HasTable label table.now →
            (IsTrue result ↔ HasPk known label (use_of usage.now)) }
    {
        meet_implies(self.pk_table(usage), table)
    }

    /// Whether the value is a verification key of this usage and of a label that has this table.
    pub fn has_vk(&self, table: &Table, usage: &StaticUse) -> bool
        ensures { (known : plain.Known) (label : words.StaticLabel) →
            KnownHasTables known (known_of self.now) → HasTable label table.now →
            (IsTrue result ↔ HasVk known label (use_of usage.now)) }
    {
        meet_implies(self.vk_table(usage), table)
    }
}

/// What is known of a value that two names have. It refuses out of memory alone.
pub fn identify(alloc: Global, first: &Known, second: &Known) -> Result<Known, Memory>
    ensures { IfOk result (λ one. (a b : plain.Known) →
        KnownHasTables a (known_of first.now) → KnownHasTables b (known_of second.now) →
        KnownHasTables (identify_with a b) (known_of one)) }
{
    let mut claims = copy_claims(alloc, first.claims.as_slice())?;
    add_claims(alloc, &mut claims, second.claims.as_slice())?;
    Ok(Known {
        hi: join(&first.hi, &second.hi),
        lo: meet(&first.lo, &second.lo),
        claims,
    })
}
