ghost use Rattle.std.specs.Prelude.{map, IfOk};
ghost use Rattle.std.specs.List.{flat_map};
ghost use Rattle.dy_syntax.specs.Meaning.{decl_of};
ghost use Rattle.dy_typing.specs.Demands.{operation_demands};
ghost use Rattle.dy_check.specs.Meaning.{setting_of};
ghost use Rattle.dy_check.specs.OperationsMeaning.{operation_of};
ghost use Rattle.dy_check.specs.MirrorUnmet.{FindsUnmet, demands_on_operation};
ghost use Rattle.dy_check.specs.Range.{AreShort};

use crate::conditions::events::unmet_event;
use crate::conditions::fields::unmet_field;
use crate::conditions::keys::unmet_key;
use crate::conditions::readers::unmet_reader;
use crate::conditions::unmet::Unmet;
use crate::knowledge::Knowledge;
use crate::operations::Operation;
use crate::settings::Setting;
use dy_term::Memory;
use std::alloc::Global;

/// What is asked of each operation.
#[derive(Clone, Copy)]
pub(crate) enum OnOperation {
    /// The key has the usage.
    Key,
    /// Who has the key may know what is encrypted.
    Reader,
    /// Each field fits its type.
    Fields,
    /// Each event that the case requires has happened.
    Events,
}

/// The first demand of this kind on an operation that is not met. It refuses out of memory alone.
fn unmet_on<'x>(
    alloc: Global,
    setting: &Setting<'_, 'x>,
    known: &Knowledge,
    asked: OnOperation,
    operation: &Operation<'x>,
) -> Result<Option<Unmet>, Memory>
    requires { AreShort (map decl_of setting.now.cases.now) }
    ensures { IfOk result (FindsUnmet setting.now known.now
        (demands_on_operation asked (setting_of setting.now) (operation_of operation.now))) }
{
    match asked {
        OnOperation::Key => unmet_key(alloc, setting, known, operation),
        OnOperation::Reader => unmet_reader(alloc, setting, known, operation),
        OnOperation::Fields => unmet_field(alloc, setting, known, operation),
        OnOperation::Events => unmet_event(alloc, setting, known, operation),
    }
}

/// The first demand of this kind on these operations that is not met. It refuses out of memory alone.
fn unmet_on_each<'x>(
    alloc: Global,
    setting: &Setting<'_, 'x>,
    known: &Knowledge,
    asked: OnOperation,
    operations: &[Operation<'x>],
) -> Result<Option<Unmet>, Memory>
    requires { AreShort (map decl_of setting.now.cases.now) }
    ensures { IfOk result (FindsUnmet setting.now known.now
        (flat_map (demands_on_operation asked (setting_of setting.now)) (map operation_of operations.now))) }
{
    for operation in operations {
        if let Some(unmet) = unmet_on(alloc, setting, known, asked, operation)? {
            return Ok(Some(unmet));
        }
    }
    Ok(None)
}

/// The first demand of conditions 2 to 5 on these operations that is not met. It refuses out of
/// memory alone.
pub(crate) fn unmet_operation<'x>(
    alloc: Global,
    setting: &Setting<'_, 'x>,
    known: &Knowledge,
    operations: &[Operation<'x>],
) -> Result<Option<Unmet>, Memory>
    requires { AreShort (map decl_of setting.now.cases.now) }
    ensures { IfOk result (FindsUnmet setting.now known.now
        (operation_demands (setting_of setting.now) (map operation_of operations.now))) }
{
    if let Some(unmet) = unmet_on_each(alloc, setting, known, OnOperation::Key, operations)? {
        return Ok(Some(unmet));
    }
    if let Some(unmet) = unmet_on_each(alloc, setting, known, OnOperation::Reader, operations)? {
        return Ok(Some(unmet));
    }
    if let Some(unmet) = unmet_on_each(alloc, setting, known, OnOperation::Fields, operations)? {
        return Ok(Some(unmet));
    }
    let events = unmet_on_each(alloc, setting, known, OnOperation::Events, operations)?;
    Ok(events)
}
