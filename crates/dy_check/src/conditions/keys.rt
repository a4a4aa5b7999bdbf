ghost use Rattle.std.specs.Prelude.{◌↔◌, IsTrue, IfOk};
ghost use Rattle.dy_syntax.specs.Names.{Nm, Named};
ghost use Rattle.dy_syntax.specs.Meaning.{id_of, kind_of};
ghost use Rattle.dy_syntax.specs.Meaning as syntax;
ghost use Rattle.dy_types.specs.Meaning as types;
ghost use Rattle.dy_types.specs.Tables.{KnownHasTables};
ghost use Rattle.dy_typing.specs.Names.{name_number};
ghost use Rattle.dy_typing.specs.Instances as instances;
ghost use Rattle.dy_typing.specs.Knowledge as knowledge;
ghost use Rattle.dy_typing.specs.Demands.{SealedFor, OpenedBy, key_demands};
ghost use Rattle.dy_typing.specs.Conditions.{IsKeyFor, IsKeyToOpen};
ghost use Rattle.dy_check.specs.Meaning.{setting_of};
ghost use Rattle.dy_check.specs.OperationsMeaning.{operation_of, sealing_in};
ghost use Rattle.dy_check.specs.MirrorUnmet.{FindsUnmet, TellsIfMet};

use crate::conditions::sealing::{is_public, sealer_table};
use crate::conditions::unmet::{KEY, Unmet, unless_met};
use crate::knowledge::Knowledge;
use crate::labels::Naming;
use crate::operations::{Operation, Seal};
use crate::settings::Setting;
use crate::stands::NmRef;
use crate::types::use_in;
use dy_syntax::{Id, KindText, UseText};
use dy_term::Memory;
use dy_types::{Known, StaticUse, public_table};
use std::alloc::Global;

/// Whether a key of which this is known is one of this usage by which a tuple is sealed.
fn is_key_for(kind: KindText, key: &Known, usage: &StaticUse) -> bool
    ensures { (k : knowledge.Knowledge) (name : Nm) →
        KnownHasTables (knowledge.known_of k name) (types.known_of key.now) →
        (IsTrue result ↔ IsKeyFor (kind_of kind) k name (types.use_of usage.now)) }
{
    if kind == KindText::Pke {
        key.has_pk(&public_table(), usage)
    } else {
        key.has_use(usage)
    }
}

/// Whether a key of which this is known is one of this usage by which a value is opened or verified.
fn is_key_to_open(kind: KindText, key: &Known, usage: &StaticUse) -> bool
    ensures { (k : knowledge.Knowledge) (name : Nm) →
        KnownHasTables (knowledge.known_of k name) (types.known_of key.now) →
        (IsTrue result ↔ IsKeyToOpen (kind_of kind) k name (types.use_of usage.now)) }
{
    if kind == KindText::Sig {
        key.has_vk(&public_table(), usage)
    } else {
        key.has_use(usage)
    }
}

/// Whether the tuple is sealed with a key of its usage, or may be sealed by all. It refuses out of
/// memory alone.
fn is_sealed_for(
    alloc: Global,
    setting: &Setting<'_, '_>,
    known: &Knowledge,
    seal: &Seal<'_>,
) -> Result<bool, Memory>
    ensures { IfOk result (TellsIfMet setting.now known.now (SealedFor (sealing_in setting.now seal.now))) }
{
    let usage = use_in(alloc, &Naming::Handler(setting), seal.usage)?;
    let key = known.known_of(alloc, NmRef::of(seal.key))?;
    let sealer = sealer_table(alloc, setting, known, seal)?;
    Ok(is_key_for(seal.kind, &key, &usage) || is_public(&sealer))
}

/// Whether the value is opened or verified with a key of the usage. It refuses out of memory alone.
fn is_opened_by(
    alloc: Global,
    setting: &Setting<'_, '_>,
    known: &Knowledge,
    kind: KindText,
    key: &Id,
    usage: &UseText,
) -> Result<bool, Memory>
    ensures { IfOk result (TellsIfMet setting.now known.now (OpenedBy (kind_of kind) (Named (id_of key.now))
        (instances.use_in (name_number (setting_of setting.now)) (syntax.use_of usage.now)))) }
{
    let usage = use_in(alloc, &Naming::Handler(setting), usage)?;
    let key = known.known_of(alloc, NmRef::Named(key))?;
    Ok(is_key_to_open(kind, &key, &usage))
}

/// The demand on the key of an operation, where it is not met. It refuses out of memory alone.
pub(crate) fn unmet_key(
    alloc: Global,
    setting: &Setting<'_, '_>,
    known: &Knowledge,
    operation: &Operation<'_>,
) -> Result<Option<Unmet>, Memory>
    ensures { IfOk result (FindsUnmet setting.now known.now
        (key_demands (setting_of setting.now) (operation_of operation.now))) }
{
    match operation {
        Operation::Seals(seal) => {
            let met = is_sealed_for(alloc, setting, known, seal)?;
            Ok(unless_met(met, KEY, 0))
        }
        Operation::Opens { kind, key, usage } => {
            let met = is_opened_by(alloc, setting, known, *kind, key, usage)?;
            Ok(unless_met(met, KEY, 0))
        }
    }
}
