ghost use Rattle.std.specs.Prelude.{◌≡◌, ◌↔◌, [], ◌∷◌, ◌++◌, IsTrue, Contains, IfOk, OnOk, OnErr, List};
ghost use Rattle.std.specs.Option.{option_copied};
ghost use Rattle.dy_types.specs.Claims as plain;
ghost use Rattle.dy_types.specs.Claims.{uses_in};
ghost use Rattle.dy_types.specs.Meaning.{use_of, claim_of, claims_of};
ghost use Rattle.dy_types.specs.Tables.{ClaimsHaveTables, ClaimHasTable};
ghost use Rattle.dy_types.specs.MirrorMeets.{key_label, key_labels, MeetIn};
ghost use Rattle.dy_types.specs.MirrorClaims.{CoversMeet, SaysNothingNew, SayTheSame};

use crate::meets::meet_with;
use crate::uses::StaticUse;
use dy_label::{Table, meet};
use dy_term::Memory;
use sqlite_items::Items;
use std::alloc::Global;

/// What is claimed of a value: it has a usage, or it is the public (or the verification) key of a
/// key with a usage. That key's label, when open, opens the one whose table is given.
#[derive(Debug, Drop)]
pub enum Claim {
    Use(StaticUse),
    Pk(Table, StaticUse),
    Vk(Table, StaticUse),
}

/// Which keys are asked for: public keys or verification keys.
#[derive(Clone, Copy)]
pub(crate) enum Side {
    Pk,
    Vk,
}

impl Claim {
    /// Whether it claims this usage.
    fn is_use(&self, usage: &StaticUse) -> bool
        ensures { IsTrue result ↔ Contains (uses_in (claim_of self.now ∷ [])) (use_of usage.now) }
    {
        match self {
            Claim::Use(other) => other.same(usage),
            _ => false,
        }
    }

    /// The table of a claim on a key of this usage.
    fn table_for(&self, side: Side, usage: &StaticUse) -> Option<&Table>
        ensures { option_copied result ≡ key_label side (use_of usage.now) (claim_of self.now) }
    {
        match (self, side) {
            (Claim::Pk(table, other), Side::Pk) | (Claim::Vk(table, other), Side::Vk) => {
                if other.same(usage) { Some(table) } else { None }
            }
            _ => None,
        }
    }

    /// An equal claim, in memory of its own. It refuses out of memory alone.
    pub fn copy(&self, alloc: Global) -> Result<Claim, Memory>
        ensures { IfOk result (λ claim. claim ≡ self.now) }
    {
        Ok(match self {
            Claim::Use(usage) => Claim::Use(usage.copy(alloc)?),
            Claim::Pk(table, usage) => Claim::Pk(*table, usage.copy(alloc)?),
            Claim::Vk(table, usage) => Claim::Vk(*table, usage.copy(alloc)?),
        })
    }
}

/// Whether one of the claims is of this usage.
pub(crate) fn has_use(claims: &[Claim], usage: &StaticUse) -> bool
    ensures { IsTrue result ↔ Contains (uses_in (claims_of claims.now)) (use_of usage.now) }
{
    for claim in claims {
        if claim.is_use(usage) {
            return true;
        }
    }
    false
}

/// The meet of the tables of all claims on keys of this usage, if there are any.
pub(crate) fn key_table(claims: &[Claim], side: Side, usage: &StaticUse) -> Option<Table>
    ensures { MeetIn (key_labels side (claims_of claims.now) (use_of usage.now)) result }
{
    let mut met = None;
    for claim in claims {
        if let Some(table) = claim.table_for(side, usage) {
            met = Some(meet_with(met, table));
        }
    }
    met
}

/// Whether the claims on keys of this usage, taken together, are no weaker than this table.
fn is_met(claims: &[Claim], side: Side, usage: &StaticUse, table: &Table) -> bool
    ensures { IsTrue result → CoversMeet (key_labels side (claims_of claims.now) (use_of usage.now)) table.now }
{
    match key_table(claims, side, usage) {
        None => false,
        Some(met) => meet(&met, table) == met,
    }
}

/// Whether the claim says nothing that these claims do not say.
fn says_nothing_new(claims: &[Claim], claim: &Claim) -> bool
    ensures { IsTrue result → SaysNothingNew (claims_of claims.now) (claim_of claim.now) }
{
    match claim {
        Claim::Use(usage) => has_use(claims, usage),
        Claim::Pk(table, usage) => is_met(claims, Side::Pk, usage, table),
        Claim::Vk(table, usage) => is_met(claims, Side::Vk, usage, table),
    }
}

/// Adds a claim that says something new.
fn push_claim(claims: &mut Items<Claim>, claim: Claim) -> Result<(), Memory>
    ensures ok { OnOk result (SayTheSame (claims_of claims.old ++ claim_of claim ∷ []) (claims_of claims.new)) }
    ensures err { OnErr result (claims.new ≡ claims.old) }
{
    if says_nothing_new(claims.as_slice(), &claim) {
        Ok(())
    } else {
        Ok(claims.push(claim)?)
    }
}

/// Adds a claim, or leaves the claims as they were out of memory. What is claimed already is not
/// added again.
pub fn add_claim(claims: &mut Items<Claim>, claim: Claim) -> Result<(), Memory>
    ensures ok { OnOk result ((before : List plain.Claim) (added : plain.Claim) →
        ClaimsHaveTables before (claims_of claims.old) → ClaimHasTable added (claim_of claim) →
        ClaimsHaveTables (before ++ added ∷ []) (claims_of claims.new)) }
    ensures err { OnErr result (claims.new ≡ claims.old) }
{
    push_claim(claims, claim)
}

/// Adds each of these claims, or refuses out of memory. What is claimed already is not added again.
pub(crate) fn add_claims(
    alloc: Global,
    claims: &mut Items<Claim>,
    more: &[Claim],
) -> Result<(), Memory>
    ensures { OnOk result (SayTheSame (claims_of claims.old ++ claims_of more.now) (claims_of claims.new)) }
{
    for claim in more {
        push_claim(claims, claim.copy(alloc)?)?;
    }
    Ok(())
}

/// The same claims in memory of their own. It refuses out of memory alone.
pub(crate) fn copy_claims(alloc: Global, claims: &[Claim]) -> Result<Items<Claim>, Memory>
    ensures { IfOk result (λ copied. copied ≡ claims.now) }
{
    let mut copied = Items::new(alloc);
    for claim in claims {
        copied.push(claim.copy(alloc)?)?;
    }
    Ok(copied)
}
