ghost use Rattle.std.specs.Prelude.{◌≡◌, IfOk, map};
ghost use Rattle.std.specs.Option.{option_to_list};
ghost use Rattle.dy_label.specs.Labels.{Meet};
ghost use Rattle.dy_label.specs.Words.{StaticLabel};
ghost use Rattle.dy_syntax.specs.Names.{Named};
ghost use Rattle.dy_syntax.specs.Meaning as syntax;
ghost use Rattle.dy_syntax.specs.Meaning.{id_of, nm_of, pattern_of, decl_of};
ghost use Rattle.dy_types.specs.Claims as plain;
ghost use Rattle.dy_types.specs.Meaning as types;
ghost use Rattle.dy_types.specs.Meaning.{claims_of, known_of};
ghost use Rattle.dy_types.specs.Tables.{HasTable, ClaimsHaveTables, KnownHasTables};
ghost use Rattle.dy_typing.specs.Knowledge as typing;
ghost use Rattle.dy_typing.specs.Instances as instances;
ghost use Rattle.dy_typing.specs.Names.{name_number};
ghost use Rattle.dy_typing.specs.Effects as effects;
ghost use Rattle.dy_check.specs.declared.effects.openings.Way.TheVariants.{Opened, Verified};
ghost use Rattle.dy_check.specs.Meaning.{knowledge_of, setting_of};
ghost use Rattle.dy_check.specs.MirrorOpenings.{IsOpening};
ghost use Rattle.dy_check.specs.Tables.{KnowledgeHasTables};

use crate::effects::fields::guard_of_compared;
use crate::effects::openings::{Opening, Way, known_from, opening_by};
use crate::expressions::is_of_kind;
use crate::knowledge::Knowledge;
use crate::labels::{Naming, name_table};
use crate::settings::Setting;
use crate::stands::NmRef;
use crate::types::use_in;
use dy_cases::Cases;
use dy_label::{Table, meet};
use dy_syntax::{Id, KindText, Nm, Pattern, UseText};
use dy_term::Memory;
use dy_types::{Claim, Known, StaticUse, add_claim, public_table};
use sqlite_items::Items;
use std::alloc::Global;

/// Of what is opened with a secret key. The fields may be forged where the key is open and all
/// variables that they are compared with. It refuses out of memory alone.
pub(crate) fn by_secret_key(
    alloc: Global,
    known: &Knowledge,
    key: &Id,
    pats: &[Pattern],
) -> Result<Opening, Memory>
    ensures { IfOk result (λ opening. (k : typing.Knowledge) → KnowledgeHasTables k (knowledge_of known.now) →
        IsOpening Opened (typing.known_of k (Named (id_of key.now))).hi
        (Meet (typing.known_of k (Named (id_of key.now))).lo
        (effects.guard_of_compared k (map pattern_of pats.now))) opening) }
{
    let key = known.known_of(alloc, NmRef::Named(key))?;
    let guard = guard_of_compared(alloc, known, pats)?;
    let guard = meet(&key.lo, &guard);
    Ok(opening_by(Way::Opened, &key.hi, &guard))
}

/// Of what is opened with the key of a public key. The fields may be forged where all variables are
/// open that they are compared with. It refuses out of memory alone.
pub(crate) fn by_private_key(
    alloc: Global,
    known: &Knowledge,
    key: &Id,
    pats: &[Pattern],
) -> Result<Opening, Memory>
    ensures { IfOk result (λ opening. (k : typing.Knowledge) → KnowledgeHasTables k (knowledge_of known.now) →
        IsOpening Opened (typing.known_of k (Named (id_of key.now))).hi
        (effects.guard_of_compared k (map pattern_of pats.now)) opening) }
{
    let key = known.known_of(alloc, NmRef::Named(key))?;
    let guard = guard_of_compared(alloc, known, pats)?;
    Ok(opening_by(Way::Opened, &key.hi, &guard))
}

/// The table of the label under which a verification key vouches: that of all its claims of this
/// usage together.
fn vouching(key: &Known, usage: &StaticUse) -> Table
    ensures { (known : plain.Known) → KnownHasTables known (known_of key.now) →
        HasTable (effects.vouching known (types.use_of usage.now)) result }
{
    match key.vk_table(usage) {
        Some(table) => table,
        None => public_table(),
    }
}

/// Of what is verified. Who knows the signed value may know the fields, and they may be forged where
/// the key does not vouch for them. It refuses out of memory alone.
pub(crate) fn by_verification_key(
    alloc: Global,
    setting: &Setting,
    known: &Knowledge,
    value: &Id,
    key: &Id,
    usage: &UseText,
) -> Result<Opening, Memory>
    ensures { IfOk result (λ opening. (k : typing.Knowledge) → KnowledgeHasTables k (knowledge_of known.now) →
        IsOpening Verified (typing.known_of k (Named (id_of value.now))).hi
        (effects.vouching (typing.known_of k (Named (id_of key.now)))
        (instances.use_in (name_number (setting_of setting.now)) (syntax.use_of usage.now))) opening) }
{
    let value = known.known_of(alloc, NmRef::Named(value))?;
    let key = known.known_of(alloc, NmRef::Named(key))?;
    let usage = use_in(alloc, &Naming::Handler(setting), usage)?;
    let guard = vouching(&key, &usage);
    Ok(opening_by(Way::Verified, &value.hi, &guard))
}

/// What is claimed of a key that is found, by the kind of its usage. It refuses out of memory alone.
fn found_claims(
    alloc: Global,
    cases: &Cases,
    owner: &Table,
    usage: StaticUse,
) -> Result<Items<Claim>, Memory>
    ensures { IfOk result (λ claims. (label : StaticLabel) → HasTable label owner.now →
        ClaimsHaveTables (effects.found_claims (map decl_of cases.now) label (types.use_of usage)) (claims_of claims)) }
{
    let mut claims = Items::new(alloc);
    if is_of_kind(cases, KindText::Pke, &usage.usage) {
        add_claim(&mut claims, Claim::Pk(*owner, usage))?;
    } else if is_of_kind(cases, KindText::Sig, &usage.usage) {
        add_claim(&mut claims, Claim::Vk(*owner, usage))?;
    }
    Ok(claims)
}

/// A name by its number, or nothing where it has none. It refuses out of memory alone.
fn numbers(alloc: Global, number: Option<u8>) -> Result<Items<u8>, Memory>
    ensures { IfOk result (λ numbers. numbers ≡ option_to_list number) }
{
    let mut numbers = Items::new(alloc);
    if let Some(number) = number {
        numbers.push(number)?;
    }
    Ok(numbers)
}

/// What is known of a key that is found: all may know it, and it is a key of its owner. It refuses out
/// of memory alone.
pub(crate) fn found_key(
    alloc: Global,
    setting: &Setting,
    usage: &Id,
    owner: &Nm,
) -> Result<Known, Memory>
    ensures { IfOk result (λ known. KnownHasTables (effects.found_key (setting_of setting.now) (id_of usage.now)
        (nm_of owner.now)) (known_of known)) }
{
    let number = setting.name_number(NmRef::of(owner));
    let usage = StaticUse {
        usage: usage.word.copy(),
        args: numbers(alloc, number)?,
    };
    let claims = found_claims(alloc, setting.cases, &name_table(number), usage)?;
    Ok(known_from(&public_table(), claims))
}
