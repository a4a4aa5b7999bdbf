ghost use Rattle.std.specs.Prelude.{◌≡◌, IfOk};
ghost use Rattle.dy_syntax.specs.declared.names.KindText.TheVariants as kinds;
ghost use Rattle.dy_typing.specs.Demands.{ReadersMayKnow, reader_demands};
ghost use Rattle.dy_check.specs.Meaning.{setting_of};
ghost use Rattle.dy_check.specs.OperationsMeaning.{operation_of, sealing_in};
ghost use Rattle.dy_check.specs.MirrorUnmet.{FindsUnmet, TellsIfMet};

use crate::conditions::sealing::{content_table, implies, is_public};
use crate::conditions::unmet::{READER, Unmet, unless_met};
use crate::knowledge::Knowledge;
use crate::labels::Naming;
use crate::operations::{Operation, Seal};
use crate::settings::Setting;
use crate::stands::NmRef;
use crate::types::use_in;
use dy_syntax::KindText;
use dy_term::Memory;
use std::alloc::Global;

/// Whether the tuple is encrypted to the key of one who may know it, or all may know it. It refuses
/// out of memory alone.
fn is_for_its_reader(
    alloc: Global,
    setting: &Setting<'_, '_>,
    known: &Knowledge,
    seal: &Seal<'_>,
) -> Result<bool, Memory>
    requires { seal.now.kind ≡ kinds.Pke }
    ensures { IfOk result (TellsIfMet setting.now known.now (ReadersMayKnow (sealing_in setting.now seal.now))) }
{
    let content = content_table(alloc, setting, known, seal)?;
    let key = known.known_of(alloc, NmRef::of(seal.key))?;
    let usage = use_in(alloc, &Naming::Handler(setting), seal.usage)?;
    if key.has_pk(&content, &usage) {
        return Ok(true);
    }
    Ok(is_public(&content))
}

/// Whether who has the key may know the tuple that is encrypted with it. It refuses out of memory
/// alone.
fn may_be_read(
    alloc: Global,
    setting: &Setting<'_, '_>,
    known: &Knowledge,
    seal: &Seal<'_>,
) -> Result<bool, Memory>
    requires { seal.now.kind ≡ kinds.Aead }
    ensures { IfOk result (TellsIfMet setting.now known.now (ReadersMayKnow (sealing_in setting.now seal.now))) }
{
    let content = content_table(alloc, setting, known, seal)?;
    let key = known.known_of(alloc, NmRef::of(seal.key))?;
    Ok(implies(&key.lo, &content))
}

/// The demand on who may read what an operation seals, where it is not met. It refuses out of memory
/// alone.
pub(crate) fn unmet_reader(
    alloc: Global,
    setting: &Setting<'_, '_>,
    known: &Knowledge,
    operation: &Operation<'_>,
) -> Result<Option<Unmet>, Memory>
    ensures { IfOk result (FindsUnmet setting.now known.now
        (reader_demands (setting_of setting.now) (operation_of operation.now))) }
{
    let Operation::Seals(seal) = operation else {
        return Ok(None);
    };
    match seal.kind {
        KindText::Pke => {
            let met = is_for_its_reader(alloc, setting, known, seal)?;
            Ok(unless_met(met, READER, 0))
        }
        KindText::Aead => {
            let met = may_be_read(alloc, setting, known, seal)?;
            Ok(unless_met(met, READER, 0))
        }
        KindText::Nonce | KindText::Sig | KindText::Mac | KindText::Kdf => Ok(None),
    }
}
