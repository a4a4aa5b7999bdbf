ghost use Rattle.std.specs.Prelude.{◌↔◌, [], ◌∷◌, IsTrue, IfOk};
ghost use Rattle.dy_label.specs.Words.{StaticLabel, Implies};
ghost use Rattle.dy_types.specs.Claims as plain;
ghost use Rattle.dy_types.specs.FieldTypes as types;
ghost use Rattle.dy_types.specs.FieldTypes.{declared_hi, declared_lo, declared_claims, narrow_by, Fits};
ghost use Rattle.dy_types.specs.Meaning as meaning;
ghost use Rattle.dy_types.specs.Meaning.{claim_of, known_of, type_of};
ghost use Rattle.dy_types.specs.Tables.{HasTable, ClaimHasTable, ClaimsHaveTables, KnownHasTables, TypeHasTable};

use crate::claims::{Claim, add_claim};
use crate::knowns::{Known, nobody_table, public_table};
use crate::uses::StaticUse;
use dy_label::{Table, join, within};
use dy_term::Memory;
use sqlite_items::Items;
use std::alloc::Global;

/// A field's type, with its labels and usages over the handler's words.
#[derive(Debug, Drop)]
pub enum Declared {
    Name,
    Any,
    Upto(Table),
    Secret(Table),
    Key(Table, StaticUse),
    Pk(Table, StaticUse),
    Vk(Table, StaticUse),
}

impl Declared {
    /// The table of the label that, where it is open, opens the label of a field of this type.
    fn hi(&self) -> Table
        ensures { (type : types.Declared) → TypeHasTable type (type_of self.now) →
            HasTable (declared_hi type) result }
    {
        match self {
            Declared::Name => public_table(),
            Declared::Upto(label) | Declared::Secret(label) | Declared::Key(label, _) => *label,
            Declared::Any | Declared::Pk(_, _) | Declared::Vk(_, _) => nobody_table(),
        }
    }

    /// The table of the label that is open where that of a field of this type is.
    fn lo(&self) -> Table
        ensures { (type : types.Declared) → TypeHasTable type (type_of self.now) →
            HasTable (declared_lo type) result }
    {
        match self {
            Declared::Secret(label) | Declared::Key(label, _) => *label,
            _ => public_table(),
        }
    }
}

/// This claim alone. It refuses out of memory alone.
fn one_claim(alloc: Global, claim: Claim) -> Result<Items<Claim>, Memory>
    ensures { IfOk result (λ claims. (said : plain.Claim) →
        ClaimHasTable said (claim_of claim) → ClaimsHaveTables (said ∷ []) (meaning.claims_of claims)) }
{
    let mut claims = Items::new(alloc);
    add_claim(&mut claims, claim)?;
    Ok(claims)
}

/// What is claimed of a field of this type, which may be forged where the guard is open. It refuses
/// out of memory alone.
pub fn claims_of(alloc: Global, declared: &Declared, guard: &Table) -> Result<Items<Claim>, Memory>
    ensures { IfOk result (λ claims. (type : types.Declared) (label : StaticLabel) →
        TypeHasTable type (type_of declared.now) → HasTable label guard.now →
        ClaimsHaveTables (declared_claims type label) (meaning.claims_of claims)) }
{
    match declared {
        Declared::Name | Declared::Any | Declared::Upto(_) | Declared::Secret(_) => {
            Ok(Items::new(alloc))
        }
        Declared::Key(_, usage) => one_claim(alloc, Claim::Use(usage.copy(alloc)?)),
        Declared::Pk(label, usage) => {
            one_claim(alloc, Claim::Pk(join(label, guard), usage.copy(alloc)?))
        }
        Declared::Vk(label, usage) => {
            one_claim(alloc, Claim::Vk(join(label, guard), usage.copy(alloc)?))
        }
    }
}

/// What is known of a field of what was opened, by its type. Who has the key, with this hi, may have
/// the field, and where the guard is open it may be forged. It refuses out of memory alone.
pub fn narrow(
    alloc: Global,
    declared: &Declared,
    hi: &Table,
    guard: &Table,
) -> Result<Known, Memory>
    ensures { IfOk result (λ known. (type : types.Declared) (opener forger : StaticLabel) →
        TypeHasTable type (type_of declared.now) → HasTable opener hi.now → HasTable forger guard.now →
        KnownHasTables (narrow_by type opener forger) (known_of known)) }
{
    Ok(Known {
        hi: join(&declared.hi(), hi),
        lo: join(&declared.lo(), guard),
        claims: claims_of(alloc, declared, guard)?,
    })
}

/// Whether the label of a value of which this is known is open exactly where this one is.
fn is_secret(known: &Known, label: &Table) -> bool
    ensures { (value : plain.Known) (secret : StaticLabel) →
        KnownHasTables value (known_of known.now) → HasTable secret label.now →
        (IsTrue result ↔ (Implies secret value.hi × Implies value.lo secret)) }
{
    within(label, &known.hi) && within(&known.lo, label)
}

/// Whether a value of which this is known fits a field of this type.
pub fn fits(known: &Known, declared: &Declared) -> bool
    ensures { (value : plain.Known) (type : types.Declared) →
        KnownHasTables value (known_of known.now) → TypeHasTable type (type_of declared.now) →
        (IsTrue result ↔ Fits value type) }
{
    match declared {
        Declared::Name | Declared::Any => true,
        Declared::Upto(label) => within(label, &known.hi),
        Declared::Secret(label) => is_secret(known, label),
        Declared::Key(label, usage) => is_secret(known, label) && known.has_use(usage),
        Declared::Pk(label, usage) => known.has_pk(label, usage),
        Declared::Vk(label, usage) => known.has_vk(label, usage),
    }
}
