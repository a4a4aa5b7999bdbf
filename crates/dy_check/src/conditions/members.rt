ghost use Rattle.std.specs.Prelude.{◌≡◌, ℕ, ◌≤◌, length, map, IfOk};
ghost use Rattle.dy_typing.specs.Demands.{Sealing, Fitted, condition_of};
ghost use Rattle.dy_check.specs.MirrorUnmet.{FindsUnmet, TellsIfMet, HasSealer, demand_on_field};
ghost use Rattle.dy_check.specs.MirrorMembers.{fitted_in, fields_in};
ghost use Rattle.dy_check.specs.declared.limits.TheConstants.{MAX_MEMBERS};

use crate::conditions::sealing::{implies, is_public};
use crate::conditions::unmet::{FIELD, KEPT, STORED, Unmet, unless_met};
use crate::expressions::known_of_expr;
use crate::knowledge::Knowledge;
use crate::labels::{Naming, Version, here_table};
use crate::settings::Setting;
use crate::stands::Standing;
use crate::types::type_in;
use dy_label::Table;
use dy_syntax::{Expr, Field};
use dy_term::Memory;
use dy_types::fits;
use std::alloc::Global;

/// What is asked of each field.
#[derive(Clone, Copy)]
pub(crate) enum OnField {
    /// It fits its type, unless all may seal it. The table is that of who may.
    Sealed(Table),
    /// It may be kept in the version that is stored.
    Kept,
    /// It fits its type.
    Stored,
}

/// How a declaration is read in a handler: what stands for its words, and the version that `here`
/// means.
#[derive(Clone, Copy)]
pub(crate) struct Reading<'n> {
    pub(crate) stands: &'n [Standing<'n>],
    pub(crate) here: Option<Version>,
}

impl OnField {
    /// The number of the condition.
    fn condition(&self) -> u8
        ensures { (sealing : Sealing) (field : Fitted) →
            result ≡ condition_of (demand_on_field self.now sealing field) }
    {
        match self {
            OnField::Sealed(_) => FIELD,
            OnField::Kept => KEPT,
            OnField::Stored => STORED,
        }
    }
}

/// Whether what is asked of a field holds of the expression in its place. It refuses out of memory
/// alone.
fn is_fitting(
    alloc: Global,
    setting: &Setting<'_, '_>,
    known: &Knowledge,
    reading: &Reading<'_>,
    asked: &OnField,
    field: &Field,
    value: &Expr,
) -> Result<bool, Memory>
    ensures { IfOk result (λ met. (sealing : Sealing) (number : ℕ) →
        HasSealer setting.now known.now asked.now sealing → TellsIfMet setting.now known.now
        (demand_on_field asked.now sealing (fitted_in setting.now reading.now number field.now value.now)) met) }
{
    let value = known_of_expr(alloc, setting.cases, known, value)?;
    if let OnField::Kept = asked {
        return Ok(implies(&here_table(Some(Version::Next)), &value.hi));
    }
    let naming = Naming::Declaration(setting, reading.stands);
    let declared = type_in(alloc, &naming, reading.here, &field.kind)?;
    match asked {
        OnField::Sealed(sealer) => Ok(fits(&value, &declared) || is_public(sealer)),
        _ => Ok(fits(&value, &declared)),
    }
}

/// The first of the fields of which what is asked does not hold. It refuses out of memory alone.
pub(crate) fn unmet_member(
    alloc: Global,
    setting: &Setting<'_, '_>,
    known: &Knowledge,
    reading: &Reading<'_>,
    asked: &OnField,
    fields: &[Field],
    values: &[Expr],
) -> Result<Option<Unmet>, Memory>
    requires { length fields.now ≤ MAX_MEMBERS }
    ensures { IfOk result (λ found. (sealing : Sealing) → HasSealer setting.now known.now asked.now sealing →
        FindsUnmet setting.now known.now (map (demand_on_field asked.now sealing)
        (fields_in setting.now reading.now fields.now values.now)) found) }
{
    for at in 0..fields.len() {
        if at >= values.len() {
            return Ok(None);
        }
        let met = is_fitting(
            alloc,
            setting,
            known,
            reading,
            asked,
            &fields[at],
            &values[at],
        )?;
        if let Some(unmet) = unless_met(met, asked.condition(), (at + 1) as u8) {
            return Ok(Some(unmet));
        }
    }
    Ok(None)
}
