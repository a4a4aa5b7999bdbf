ghost use Rattle.std.specs.Prelude.{map, IfOk};
ghost use Rattle.dy_syntax.specs.Meaning.{act_of, decl_of};
ghost use Rattle.dy_typing.specs.Demands.{demands_of};
ghost use Rattle.dy_check.specs.Meaning.{setting_of};
ghost use Rattle.dy_check.specs.MirrorUnmet.{FindsUnmet};
ghost use Rattle.dy_check.specs.Range.{AreShort};

use crate::conditions::each_operation::unmet_operation;
use crate::conditions::others::{unmet_other, unmet_sent};
use crate::conditions::unmet::Unmet;
use crate::knowledge::Knowledge;
use crate::operations::operations_of;
use crate::settings::Setting;
use dy_syntax::Act;
use dy_term::Memory;
use std::alloc::Global;

/// The first of a statement's demands that is not met, or `None` where all are met. It refuses out of
/// memory alone.
pub(crate) fn first_unmet<'x>(
    alloc: Global,
    setting: &Setting<'_, 'x>,
    known: &Knowledge,
    act: &'x Act,
) -> Result<Option<Unmet>, Memory>
    requires { AreShort (map decl_of setting.now.cases.now) }
    ensures { IfOk result (FindsUnmet setting.now known.now
        (demands_of (setting_of setting.now) (act_of act.now))) }
{
    if let Some(unmet) = unmet_sent(alloc, setting, known, act)? {
        return Ok(Some(unmet));
    }
    let operations = operations_of(alloc, act)?;
    if let Some(unmet) = unmet_operation(alloc, setting, known, operations.as_slice())? {
        return Ok(Some(unmet));
    }
    let other = unmet_other(alloc, setting, known, act)?;
    Ok(other)
}
