ghost use Rattle.std.specs.Prelude.{map, IfOk, OnOk};
ghost use Rattle.dy_label.specs.Labels.{Nobody};
ghost use Rattle.dy_syntax.specs.Meaning.{pattern_of, state_of};
ghost use Rattle.dy_typing.specs.Knowledge as typing;
ghost use Rattle.dy_typing.specs.Effects as effects;
ghost use Rattle.dy_check.specs.Meaning.{knowledge_of, setting_of, here_of};
ghost use Rattle.dy_check.specs.MirrorOpenings.{IsOpening};
ghost use Rattle.dy_check.specs.declared.effects.openings.Way.TheVariants.{Opened};
ghost use Rattle.dy_check.specs.Tables.{KnowledgeHasTables};

use crate::effects::events::add_state_events;
use crate::effects::fields::{knowns_by, match_fields};
use crate::effects::openings::{Opening, Way, opening_by};
use crate::knowledge::Knowledge;
use crate::labels::{Naming, Version};
use crate::settings::Setting;
use crate::stands::{pattern_places, state_stands};
use dy_syntax::{Pattern, StateDecl};
use dy_term::{Memory, Word};
use dy_types::nobody_table;
use std::alloc::Global;

/// A state is found as it was stored: nobody else may know its fields, and none may be forged.
fn from_state() -> Opening
    ensures { IsOpening Opened Nobody Nobody result }
{
    let nobody = nobody_table();
    opening_by(Way::Opened, &nobody, &nobody)
}

/// The fields of a state, each against its pattern, and then what the state knows has happened. It
/// refuses out of memory alone.
fn open_state<'x>(
    alloc: Global,
    setting: &'x Setting<'_, '_>,
    known: &mut Knowledge,
    here: Option<Version>,
    pats: &'x [Pattern],
    state: &'x StateDecl,
) -> Result<(), Memory>
    ensures { OnOk result ((k : typing.Knowledge) → KnowledgeHasTables k (knowledge_of known.old) →
        KnowledgeHasTables (effects.open_state (setting_of setting.now) k (here_of here) (map pattern_of pats.now)
        (state_of state.now)) (knowledge_of known.new)) }
{
    let places = pattern_places(alloc, pats)?;
    let stands = state_stands(alloc, state, places.as_slice())?;
    let stands = stands.as_slice();
    let naming = Naming::Declaration(setting, stands);
    let fields = knowns_by(alloc, &naming, here, &from_state(), state.fields.as_slice())?;
    match_fields(alloc, known, pats, fields.as_slice())?;
    add_state_events(alloc, setting, known, stands, here, state.knows.as_slice())
}

/// The fields of the state of this name, each against its pattern, and then what the state knows has
/// happened. It refuses out of memory alone.
pub(crate) fn match_state(
    alloc: Global,
    setting: &Setting,
    known: &mut Knowledge,
    here: Option<Version>,
    state: &Word,
    pats: &[Pattern],
) -> Result<(), Memory>
    ensures { OnOk result ((k : typing.Knowledge) → KnowledgeHasTables k (knowledge_of known.old) →
        KnowledgeHasTables (effects.match_state (setting_of setting.now) k (here_of here) state.now
        (map pattern_of pats.now)) (knowledge_of known.new)) }
{
    match setting.cases.state_named(state) {
        None => Ok(()),
        Some(state) => open_state(alloc, setting, known, here, pats, state),
    }
}
