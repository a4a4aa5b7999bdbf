ghost use Rattle.std.specs.Prelude.{◌≡◌, [], map, Some, None, IfOk, OnOk};
ghost use Rattle.dy_label.specs.Labels.{Nobody};
ghost use Rattle.dy_syntax.specs.Statements as s;
ghost use Rattle.dy_syntax.specs.Names as n;
ghost use Rattle.dy_syntax.specs.Expressions as e;
ghost use Rattle.dy_syntax.specs.Meaning.{id_of, use_of, label_of, atom_of, pattern_of, act_of};
ghost use Rattle.dy_types.specs.Claims as plain;
ghost use Rattle.dy_types.specs.Meaning.{known_of};
ghost use Rattle.dy_types.specs.Tables.{KnownHasTables};
ghost use Rattle.dy_typing.specs.Knowledge as typing;
ghost use Rattle.dy_typing.specs.Names.{name_number};
ghost use Rattle.dy_typing.specs.Instances as instances;
ghost use Rattle.dy_typing.specs.Effects as effects;
ghost use Rattle.dy_check.specs.Meaning.{knowledge_of, setting_of};
ghost use Rattle.dy_check.specs.Tables.{KnowledgeHasTables, ValuesHaveTables};

use crate::effects::fields::match_fields;
use crate::effects::keys::found_key;
use crate::effects::openings::known_from;
use crate::effects::readings::after_reading;
use crate::effects::states::match_state;
use crate::expressions::known_of_expr;
use crate::knowledge::Knowledge;
use crate::labels::{Naming, label_table};
use crate::settings::Setting;
use crate::stands::{NmRef, name_refs};
use crate::types::use_in;
use dy_syntax::{Act, AtomText, Id, LabelText, Pattern, UseText};
use dy_term::Memory;
use dy_types::{Claim, Known, add_claim, nobody_table};
use sqlite_items::Items;
use std::alloc::Global;

/// What a fresh value is known to be. It refuses out of memory alone.
fn fresh(
    alloc: Global,
    setting: &Setting,
    usage: &UseText,
    label: &LabelText,
) -> Result<Known, Memory>
    ensures { IfOk result (λ known. KnownHasTables (effects.fresh
        (instances.label_in (name_number (setting_of setting.now)) None (label_of label.now))
        (instances.use_in (name_number (setting_of setting.now)) (use_of usage.now))) (known_of known)) }
{
    let naming = Naming::Handler(setting);
    let table = label_table(&naming, None, label);
    let mut claims = Items::new(alloc);
    add_claim(&mut claims, Claim::Use(use_in(alloc, &naming, usage)?))?;
    Ok(Known {
        hi: table,
        lo: table,
        claims,
    })
}

/// After an event it has happened. It refuses out of memory alone.
fn after_event(alloc: Global, known: &mut Knowledge, atom: &AtomText) -> Result<(), Memory>
    ensures { OnOk result ((k : typing.Knowledge) → KnowledgeHasTables k (knowledge_of known.old) →
        KnowledgeHasTables (typing.add_event k (atom_of atom.now).event.word (Some (atom_of atom.now).args) Nobody)
        (knowledge_of known.new)) }
{
    let args = name_refs(alloc, atom.args.as_slice())?;
    let guard = nobody_table();
    known.add_event(alloc, &atom.event.word, Some(args.as_slice()), &guard)
}

/// For each pattern a part of the value, which all may know that know the value. It refuses out of
/// memory alone.
fn parts_of(alloc: Global, value: &Known, pats: &[Pattern]) -> Result<Items<Known>, Memory>
    ensures { IfOk result (λ parts. (whole : plain.Known) → KnownHasTables whole (known_of value.now) →
        ValuesHaveTables (map (λ pat. effects.shown_by whole []) (map pattern_of pats.now)) (map known_of parts)) }
{
    let mut parts = Items::new(alloc);
    for _pat in pats {
        parts.push(known_from(&value.hi, Items::new(alloc)))?;
    }
    Ok(parts)
}

/// After a split each part is known as far as the value is. It refuses out of memory alone.
fn after_split(
    alloc: Global,
    known: &mut Knowledge,
    value: &Id,
    pats: &[Pattern],
) -> Result<(), Memory>
    ensures { OnOk result ((k : typing.Knowledge) → KnowledgeHasTables k (knowledge_of known.old) →
        KnowledgeHasTables (effects.match_fields k (map pattern_of pats.now)
        (map (λ pat. effects.shown_by (typing.known_of k (n.Named (id_of value.now))) []) (map pattern_of pats.now)))
        (knowledge_of known.new)) }
{
    let value = known.known_of(alloc, NmRef::Named(value))?;
    let parts = parts_of(alloc, &value, pats)?;
    match_fields(alloc, known, pats, parts.as_slice())
}

/// What is known after a statement, in the place of what was known before it. It refuses out of
/// memory alone, and then nothing is said of what is known.
pub(crate) fn after(
    alloc: Global,
    setting: &Setting,
    known: &mut Knowledge,
    act: &Act,
) -> Result<(), Memory>
    ensures { OnOk result ((k : typing.Knowledge) → KnowledgeHasTables k (knowledge_of known.old) →
        KnowledgeHasTables (effects.after (setting_of setting.now) k (act_of act.now)) (knowledge_of known.new)) }
{
    match act {
        Act::New { name, usage, label } => {
            let value = fresh(alloc, setting, usage, label)?;
            known.bind(&name.word, value)
        }
        Act::Let { name, value } => {
            let value = known_of_expr(alloc, setting.cases, known, value)?;
            known.bind(&name.word, value)
        }
        Act::Find { usage, owner, name } => {
            let key = found_key(alloc, setting, usage, owner)?;
            known.bind(&name.word, key)
        }
        Act::Event(atom) => after_event(alloc, known, atom),
        Act::Send(_) | Act::Store { .. } | Act::Certify { .. } => Ok(()),
        Act::Recall { state, pats } => {
            match_state(alloc, setting, known, None, &state.word, pats.as_slice())
        }
        Act::Same(left, right) => { known.same_names(alloc, NmRef::of(left), NmRef::of(right)) }
        Act::Split { value, pats, .. } => after_split(alloc, known, value, pats.as_slice()),
        Act::Check { .. } => after_reading(alloc, setting, known, act),
        Act::Opened { .. } => after_reading(alloc, setting, known, act),
        Act::Popened { .. } => after_reading(alloc, setting, known, act),
        Act::Verify { .. } => after_reading(alloc, setting, known, act),
    }
}
