ghost use Rattle.std.specs.Prelude.{map, OnOk};
ghost use Rattle.dy_label.specs.Words.{StaticLabel};
ghost use Rattle.dy_syntax.specs.Meaning.{nm_of, use_of, pattern_of, case_of};
ghost use Rattle.dy_typing.specs.Knowledge as typing;
ghost use Rattle.dy_typing.specs.Effects as effects;
ghost use Rattle.dy_check.specs.Meaning.{knowledge_of, setting_of};
ghost use Rattle.dy_check.specs.declared.effects.openings.Way as ways;
ghost use Rattle.dy_check.specs.MirrorOpenings as openings;
ghost use Rattle.dy_check.specs.MirrorOpenings.{IsOpening};
ghost use Rattle.dy_check.specs.Tables.{KnowledgeHasTables};

use crate::effects::events::add_case_events;
use crate::effects::fields::{knowns_by, match_fields};
use crate::effects::openings::Opening;
use crate::knowledge::Knowledge;
use crate::labels::Naming;
use crate::settings::Setting;
use crate::stands::{case_stands, pattern_places};
use dy_syntax::{CaseDecl, Nm, Pattern, UseText};
use dy_term::{Memory, Text};
use std::alloc::Global;

/// The fields of a case, each against its pattern, and then the case's events. It refuses out of
/// memory alone.
fn open_case<'x>(
    alloc: Global,
    setting: &'x Setting<'_, '_>,
    known: &mut Knowledge,
    opening: &Opening,
    args: &'x [Nm],
    pats: &'x [Pattern],
    case: &'x CaseDecl,
) -> Result<(), Memory>
    ensures { OnOk result ((k : typing.Knowledge) (way : ways.Way) (hi guard : StaticLabel) →
        KnowledgeHasTables k (knowledge_of known.old) → IsOpening way hi guard opening.now →
        KnowledgeHasTables (effects.open_case (setting_of setting.now) k (openings.known_by way hi guard)
        guard (map nm_of args.now) (map pattern_of pats.now) (case_of case.now)) (knowledge_of known.new)) }
{
    let places = pattern_places(alloc, pats)?;
    let stands = case_stands(alloc, setting.cases, args, case, places.as_slice())?;
    let stands = stands.as_slice();
    let naming = Naming::Declaration(setting, stands);
    let fields = knowns_by(alloc, &naming, None, opening, case.fields.as_slice())?;
    match_fields(alloc, known, pats, fields.as_slice())?;
    add_case_events(
        alloc,
        known,
        stands,
        &opening.guard,
        case.requires_.as_slice(),
    )
}

/// The fields of the case of this usage with this tag, each against its pattern, and then the case's
/// events. It refuses out of memory alone.
pub(crate) fn match_case(
    alloc: Global,
    setting: &Setting,
    known: &mut Knowledge,
    opening: &Opening,
    usage: &UseText,
    tag: &Text,
    pats: &[Pattern],
) -> Result<(), Memory>
    ensures { OnOk result ((k : typing.Knowledge) (way : ways.Way) (hi guard : StaticLabel) →
        KnowledgeHasTables k (knowledge_of known.old) → IsOpening way hi guard opening.now →
        KnowledgeHasTables (effects.match_case (setting_of setting.now) k (openings.known_by way hi guard)
        guard (use_of usage.now) tag.now (map pattern_of pats.now)) (knowledge_of known.new)) }
{
    match setting.cases.case_of(&usage.usage.word, tag) {
        None => Ok(()),
        Some(case) => open_case(
            alloc,
            setting,
            known,
            opening,
            usage.args.as_slice(),
            pats,
            case,
        ),
    }
}
