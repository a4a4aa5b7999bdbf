ghost use Rattle.std.specs.Prelude.{fold, zip, map, None, OnOk};
ghost use Rattle.dy_label.specs.Words.{StaticLabel};
ghost use Rattle.dy_syntax.specs.Meaning.{id_of, nm_of, use_of, field_of, case_of};
ghost use Rattle.dy_syntax.specs.Names.{Named};
ghost use Rattle.dy_types.specs.Tables.{HasTable};
ghost use Rattle.dy_typing.specs.Knowledge as typing;
ghost use Rattle.dy_typing.specs.Instances as instances;
ghost use Rattle.dy_typing.specs.Effects as effects;
ghost use Rattle.dy_typing.specs.Effects.{add_checked};
ghost use Rattle.dy_check.specs.Meaning.{knowledge_of, setting_of};
ghost use Rattle.dy_check.specs.MirrorNames.{numbers_of};
ghost use Rattle.dy_check.specs.Tables.{KnowledgeHasTables};

use crate::effects::events::add_case_events;
use crate::knowledge::Knowledge;
use crate::labels::Naming;
use crate::settings::Setting;
use crate::stands::{NmRef, case_stands, name_places};
use crate::types::type_in;
use dy_label::Table;
use dy_syntax::{CaseDecl, Field, Id, Nm, Quote, UseText};
use dy_term::Memory;
use dy_types::claims_of;
use std::alloc::Global;

/// Each argument is claimed to be what its field says, where the guard is not open. It refuses out of
/// memory alone.
fn claim_fields(
    alloc: Global,
    naming: &Naming,
    known: &mut Knowledge,
    guard: &Table,
    args: &[Nm],
    fields: &[Field],
) -> Result<(), Memory>
    ensures { OnOk result ((k : typing.Knowledge) (label : StaticLabel) →
        KnowledgeHasTables k (knowledge_of known.old) →
        HasTable label guard.now →
        KnowledgeHasTables (fold (add_checked label) k (zip (map nm_of args.now)
        (map (λ field. instances.type_in (numbers_of naming.now) None field.kind) (map field_of fields.now))))
        (knowledge_of known.new)) }
{
    for i in 0..args.len().min(fields.len()) {
        let declared = type_in(alloc, naming, None, &fields[i].kind)?;
        let claims = claims_of(alloc, &declared, guard)?;
        known.claim_value(alloc, NmRef::of(&args[i]), claims)?;
    }
    Ok(())
}

/// After a tag is checked, each argument is claimed to be what its field of the case says. The
/// case's events happened, where the guard is not open. It refuses out of memory alone.
fn check_fields<'x>(
    alloc: Global,
    setting: &'x Setting<'_, '_>,
    known: &mut Knowledge,
    guard: &Table,
    usage_args: &'x [Nm],
    args: &'x [Nm],
    case: &'x CaseDecl,
) -> Result<(), Memory>
    ensures { OnOk result ((k : typing.Knowledge) (label : StaticLabel) →
        KnowledgeHasTables k (knowledge_of known.old) →
        HasTable label guard.now →
        KnowledgeHasTables (effects.check_fields (setting_of setting.now) k label (map nm_of usage_args.now)
        (map nm_of args.now) (case_of case.now)) (knowledge_of known.new)) }
{
    let places = name_places(alloc, args)?;
    let stands = case_stands(alloc, setting.cases, usage_args, case, places.as_slice())?;
    let stands = stands.as_slice();
    let naming = Naming::Declaration(setting, stands);
    claim_fields(alloc, &naming, known, guard, args, case.fields.as_slice())?;
    add_case_events(alloc, known, stands, guard, case.requires_.as_slice())
}

/// What is known after a tag is checked under this key. It refuses out of memory alone.
pub(crate) fn check_case(
    alloc: Global,
    setting: &Setting,
    known: &mut Knowledge,
    key: &Id,
    usage: &UseText,
    tag: &Quote,
    args: &[Nm],
) -> Result<(), Memory>
    ensures { OnOk result ((k : typing.Knowledge) → KnowledgeHasTables k (knowledge_of known.old) →
        KnowledgeHasTables (effects.check_case (setting_of setting.now) k (Named (id_of key.now)) (use_of usage.now)
        tag.now.text (map nm_of args.now)) (knowledge_of known.new)) }
{
    match setting.cases.case_of(&usage.usage.word, &tag.text) {
        None => Ok(()),
        Some(case) => {
            let guard = known.known_of(alloc, NmRef::Named(key))?.lo;
            check_fields(
                alloc,
                setting,
                known,
                &guard,
                usage.args.as_slice(),
                args,
                case,
            )
        }
    }
}
