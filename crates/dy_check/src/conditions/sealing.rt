ghost use Rattle.std.specs.Prelude.{◌↔◌, IsTrue, IfOk};
ghost use Rattle.dy_label.specs.Words.{StaticLabel, Implies};
ghost use Rattle.dy_types.specs.Tables.{HasTable};
ghost use Rattle.dy_typing.specs.Conditions.{IsPublic};
ghost use Rattle.dy_check.specs.OperationsMeaning.{sealing_in};
ghost use Rattle.dy_check.specs.MirrorUnmet.{IsContentTable, IsSealerTable};

use crate::expressions::known_together;
use crate::knowledge::Knowledge;
use crate::operations::Seal;
use crate::settings::Setting;
use crate::stands::NmRef;
use dy_label::{Table, within};
use dy_syntax::KindText;
use dy_term::Memory;
use dy_types::public_table;
use std::alloc::Global;

/// Whether the label of the first table implies that of the second.
pub(crate) fn implies(first: &Table, second: &Table) -> bool
    ensures { (label other : StaticLabel) → HasTable label first.now → HasTable other second.now →
        (IsTrue result ↔ Implies label other) }
{
    within(first, second)
}

/// Whether all may know what has the label of this table.
pub(crate) fn is_public(table: &Table) -> bool
    ensures { (label : StaticLabel) → HasTable label table.now → (IsTrue result ↔ IsPublic label) }
{
    implies(&public_table(), table)
}

/// The table of the label of who may know what is sealed. It refuses out of memory alone.
pub(crate) fn content_table(
    alloc: Global,
    setting: &Setting<'_, '_>,
    known: &Knowledge,
    seal: &Seal<'_>,
) -> Result<Table, Memory>
    ensures { IfOk result (IsContentTable setting.now known.now (sealing_in setting.now seal.now)) }
{
    let content = known_together(alloc, setting.cases, known, seal.fields)?;
    Ok(content.hi)
}

/// The table of the label of who may seal it. It refuses out of memory alone.
pub(crate) fn sealer_table(
    alloc: Global,
    setting: &Setting<'_, '_>,
    known: &Knowledge,
    seal: &Seal<'_>,
) -> Result<Table, Memory>
    ensures { IfOk result (IsSealerTable setting.now known.now (sealing_in setting.now seal.now)) }
{
    if seal.kind == KindText::Pke {
        return content_table(alloc, setting, known, seal);
    }
    let key = known.known_of(alloc, NmRef::of(seal.key))?;
    Ok(key.hi)
}
