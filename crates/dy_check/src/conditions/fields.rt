ghost use Rattle.std.specs.Prelude.{map, IfOk};
ghost use Rattle.dy_syntax.specs.Meaning.{case_of, decl_of, use_of};
ghost use Rattle.dy_typing.specs.Demands.{case_field_demands, field_demands};
ghost use Rattle.dy_check.specs.Meaning.{setting_of};
ghost use Rattle.dy_check.specs.OperationsMeaning.{operation_of, sealing_in};
ghost use Rattle.dy_check.specs.MirrorUnmet.{FindsUnmet};
ghost use Rattle.dy_check.specs.Range.{AreShort, CaseIsShort};

use crate::conditions::members::{OnField, Reading, unmet_member};
use crate::conditions::sealing::sealer_table;
use crate::conditions::unmet::Unmet;
use crate::knowledge::Knowledge;
use crate::operations::{Operation, Seal};
use crate::settings::Setting;
use crate::stands::{case_stands, expr_places};
use dy_syntax::CaseDecl;
use dy_term::Memory;
use std::alloc::Global;

/// The first field of a case that does not fit its type, unless all may seal the tuple. It refuses
/// out of memory alone.
fn unmet_case_field<'x>(
    alloc: Global,
    setting: &Setting<'_, 'x>,
    known: &Knowledge,
    seal: &Seal<'x>,
    case: &'x CaseDecl,
) -> Result<Option<Unmet>, Memory>
    requires { CaseIsShort (case_of case.now) }
    ensures { IfOk result (FindsUnmet setting.now known.now (case_field_demands (setting_of setting.now)
        (sealing_in setting.now seal.now) (use_of seal.now.usage.now).args (case_of case.now))) }
{
    let args = seal.usage.args.as_slice();
    let places = expr_places(alloc, seal.fields)?;
    let stands = case_stands(alloc, setting.cases, args, case, places.as_slice())?;
    let reading = Reading {
        stands: stands.as_slice(),
        here: None,
    };
    let asked = OnField::Sealed(sealer_table(alloc, setting, known, seal)?);
    let fields = case.fields.as_slice();
    let found = unmet_member(alloc, setting, known, &reading, &asked, fields, seal.fields)?;
    Ok(found)
}

/// The first field of what an operation seals that does not fit its type, unless all may seal the
/// tuple. It refuses out of memory alone.
pub(crate) fn unmet_field<'x>(
    alloc: Global,
    setting: &Setting<'_, 'x>,
    known: &Knowledge,
    operation: &Operation<'x>,
) -> Result<Option<Unmet>, Memory>
    requires { AreShort (map decl_of setting.now.cases.now) }
    ensures { IfOk result (FindsUnmet setting.now known.now
        (field_demands (setting_of setting.now) (operation_of operation.now))) }
{
    let Operation::Seals(seal) = operation else {
        return Ok(None);
    };
    match setting.cases.case_of(&seal.usage.usage.word, seal.tag) {
        None => Ok(None),
        Some(case) => unmet_case_field(alloc, setting, known, seal, case),
    }
}
