ghost use Rattle.std.specs.Prelude.{◌≡◌, fold, map, OnOk};
ghost use Rattle.dy_label.specs.Words.{StaticLabel};
ghost use Rattle.dy_syntax.specs.Meaning.{atom_of, partner_of};
ghost use Rattle.dy_types.specs.Tables.{HasTable};
ghost use Rattle.dy_typing.specs.Knowledge as typing;
ghost use Rattle.dy_typing.specs.Names as names;
ghost use Rattle.dy_typing.specs.Instances.{label_in};
ghost use Rattle.dy_typing.specs.Effects.{add_guarded};
ghost use Rattle.dy_check.specs.Meaning.{knowledge_of, stands_of, setting_of, here_of};
ghost use Rattle.dy_check.specs.MirrorEvents.{atom_event, atom_events, partner_events};
ghost use Rattle.dy_check.specs.Tables.{KnowledgeHasTables};

use crate::knowledge::Knowledge;
use crate::labels::{Naming, Version, label_table};
use crate::settings::Setting;
use crate::stands::{Standing, atom_names};
use dy_label::Table;
use dy_syntax::{AtomText, Partner};
use dy_term::Memory;
use std::alloc::Global;

/// The event of a declaration happened, or the guard is open. It refuses out of memory alone.
fn add_atom(
    alloc: Global,
    known: &mut Knowledge,
    stands: &[Standing],
    guard: &Table,
    atom: &AtomText,
) -> Result<(), Memory>
    ensures { OnOk result ((k : typing.Knowledge) (label : StaticLabel) →
        KnowledgeHasTables k (knowledge_of known.old) →
        HasTable label guard.now →
        KnowledgeHasTables (add_guarded k (atom_event (stands_of stands.now) label (atom_of atom.now)))
        (knowledge_of known.new)) }
{
    match atom_names(alloc, stands, atom)? {
        None => known.add_event(alloc, &atom.event.word, None, guard),
        Some(names) => known.add_event(alloc, &atom.event.word, Some(names.as_slice()), guard),
    }
}

/// The events that a case requires happened, or the guard is open. It refuses out of memory alone.
pub(crate) fn add_case_events(
    alloc: Global,
    known: &mut Knowledge,
    stands: &[Standing],
    guard: &Table,
    atoms: &[AtomText],
) -> Result<(), Memory>
    ensures { OnOk result ((k : typing.Knowledge) (label : StaticLabel) →
        KnowledgeHasTables k (knowledge_of known.old) →
        HasTable label guard.now →
        KnowledgeHasTables (fold add_guarded k (atom_events (stands_of stands.now) label (map atom_of atoms.now)))
        (knowledge_of known.new)) }
{
    for atom in atoms {
        add_atom(alloc, known, stands, guard, atom)?;
    }
    Ok(())
}

/// What a state knows has happened, each event unless its label is open. It refuses out of memory
/// alone.
pub(crate) fn add_state_events<'x>(
    alloc: Global,
    setting: &'x Setting<'_, '_>,
    known: &mut Knowledge,
    stands: &'x [Standing<'x>],
    here: Option<Version>,
    partners: &'x [Partner],
) -> Result<(), Memory>
    ensures { OnOk result ((k : typing.Knowledge) → KnowledgeHasTables k (knowledge_of known.old) →
        KnowledgeHasTables (fold add_guarded k (partner_events (setting_of setting.now) (stands_of stands.now)
        (here_of here) (map partner_of partners.now))) (knowledge_of known.new)) }
{
    let naming = Naming::Declaration(setting, stands);
    for partner in partners {
        let guard = label_table(&naming, here, &partner.unless);
        add_atom(alloc, known, stands, &guard, &partner.atom)?;
    }
    Ok(())
}
