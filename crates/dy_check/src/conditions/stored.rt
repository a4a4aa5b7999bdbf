ghost use Rattle.std.specs.Prelude.{map, IfOk};
ghost use Rattle.dy_syntax.specs.Meaning.{decl_of, expr_of, id_of, state_of};
ghost use Rattle.dy_typing.specs.Demands.{state_demands, store_demands};
ghost use Rattle.dy_check.specs.Meaning.{setting_of};
ghost use Rattle.dy_check.specs.MirrorMembers.{state_demands_in};
ghost use Rattle.dy_check.specs.MirrorUnmet.{FindsUnmet};
ghost use Rattle.dy_check.specs.Range.{AreShort, StateIsShort};

use crate::conditions::members::{OnField, Reading, unmet_member};
use crate::conditions::partners::unmet_among_partners;
use crate::conditions::unmet::Unmet;
use crate::knowledge::Knowledge;
use crate::labels::Version;
use crate::settings::Setting;
use crate::stands::{expr_places, state_stands};
use dy_syntax::{Expr, Id, StateDecl};
use dy_term::Memory;
use std::alloc::Global;

/// The first demand of a state with these fields that is not met, as its declaration is read. It
/// refuses out of memory alone.
fn unmet_as_read(
    alloc: Global,
    setting: &Setting<'_, '_>,
    known: &Knowledge,
    reading: &Reading<'_>,
    values: &[Expr],
    state: &StateDecl,
) -> Result<Option<Unmet>, Memory>
    requires { StateIsShort (state_of state.now) }
    ensures { IfOk result (FindsUnmet setting.now known.now
        (state_demands_in setting.now reading.now values.now state.now)) }
{
    let partners = state.knows.as_slice();
    if let Some(unmet) = unmet_among_partners(alloc, setting, known, reading, partners)? {
        return Ok(Some(unmet));
    }
    let fields = state.fields.as_slice();
    let kept = unmet_member(
        alloc,
        setting,
        known,
        reading,
        &OnField::Kept,
        fields,
        values,
    )?;
    if let Some(unmet) = kept {
        return Ok(Some(unmet));
    }
    let stored = unmet_member(
        alloc,
        setting,
        known,
        reading,
        &OnField::Stored,
        fields,
        values,
    )?;
    Ok(stored)
}

/// The first demand of a state with these fields that is not met. It refuses out of memory alone.
fn unmet_in_state<'x>(
    alloc: Global,
    setting: &Setting<'_, 'x>,
    known: &Knowledge,
    values: &'x [Expr],
    state: &'x StateDecl,
) -> Result<Option<Unmet>, Memory>
    requires { StateIsShort (state_of state.now) }
    ensures { IfOk result (FindsUnmet setting.now known.now
        (state_demands (setting_of setting.now) (map expr_of values.now) (state_of state.now))) }
{
    let places = expr_places(alloc, values)?;
    let stands = state_stands(alloc, state, places.as_slice())?;
    let reading = Reading {
        stands: stands.as_slice(),
        here: Some(Version::Next),
    };
    let found = unmet_as_read(alloc, setting, known, &reading, values, state)?;
    Ok(found)
}

/// The first demand of the state that is stored that is not met. It refuses out of memory alone.
pub(crate) fn unmet_stored<'x>(
    alloc: Global,
    setting: &Setting<'_, 'x>,
    known: &Knowledge,
    state: &Id,
    values: &'x [Expr],
) -> Result<Option<Unmet>, Memory>
    requires { AreShort (map decl_of setting.now.cases.now) }
    ensures { IfOk result (FindsUnmet setting.now known.now
        (store_demands (setting_of setting.now) (id_of state.now) (map expr_of values.now))) }
{
    match setting.cases.state_named(&state.word) {
        None => Ok(None),
        Some(declared) => unmet_in_state(alloc, setting, known, values, declared),
    }
}
