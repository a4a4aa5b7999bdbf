ghost use Rattle.std.specs.Prelude.{◌≡◌, List, map, IfOk, OnOk};
ghost use Rattle.dy_label.specs.Words.{StaticLabel};
ghost use Rattle.dy_syntax.specs.Meaning.{field_of, pattern_of};
ghost use Rattle.dy_types.specs.Claims as plain;
ghost use Rattle.dy_types.specs.Meaning.{known_of};
ghost use Rattle.dy_types.specs.Tables.{HasTable, KnownHasTables};
ghost use Rattle.dy_typing.specs.Knowledge as typing;
ghost use Rattle.dy_typing.specs.Instances as instances;
ghost use Rattle.dy_typing.specs.Effects as effects;
ghost use Rattle.dy_check.specs.Meaning.{knowledge_of, here_of};
ghost use Rattle.dy_check.specs.MirrorNames.{numbers_of};
ghost use Rattle.dy_check.specs.declared.effects.openings.Way as ways;
ghost use Rattle.dy_check.specs.MirrorOpenings as openings;
ghost use Rattle.dy_check.specs.MirrorOpenings.{IsOpening};
ghost use Rattle.dy_check.specs.Tables.{KnowledgeHasTables, ValuesHaveTables};

use crate::effects::openings::{Opening, known_by};
use crate::knowledge::Knowledge;
use crate::labels::{Naming, Version};
use crate::stands::NmRef;
use crate::types::type_in;
use dy_label::{Table, meet};
use dy_syntax::{Field, Pattern};
use dy_term::Memory;
use dy_types::{Known, public_table};
use sqlite_items::Items;
use std::alloc::Global;

/// What is known of fields by their types. It refuses out of memory alone.
pub(crate) fn knowns_by(
    alloc: Global,
    naming: &Naming,
    here: Option<Version>,
    opening: &Opening,
    fields: &[Field],
) -> Result<Items<Known>, Memory>
    ensures { IfOk result (λ knowns. (way : ways.Way) (hi guard : StaticLabel) → IsOpening way hi guard opening.now →
        ValuesHaveTables (map (openings.known_by way hi guard)
        (map (λ field. instances.type_in (numbers_of naming.now) (here_of here) field.kind) (map field_of fields.now)))
        (map known_of knowns)) }
{
    let mut knowns = Items::new(alloc);
    for field in fields {
        let declared = type_in(alloc, naming, here, &field.kind)?;
        knowns.push(known_by(alloc, opening, &declared)?)?;
    }
    Ok(knowns)
}

/// A field of which this is known, against a pattern, or out of memory.
pub(crate) fn match_field(
    alloc: Global,
    known: &mut Knowledge,
    pat: &Pattern,
    field: &Known,
) -> Result<(), Memory>
    ensures { OnOk result ((k : typing.Knowledge) (value : plain.Known) →
        KnowledgeHasTables k (knowledge_of known.old) →
        KnownHasTables value (known_of field.now) →
        KnowledgeHasTables (effects.match_field k (pattern_of pat.now, value)) (knowledge_of known.new)) }
{
    match pat {
        Pattern::Bind(name) => known.bind(&name.word, field.copy(alloc)?),
        Pattern::Named { name, .. } => known.bind(&name.word, Known::plain(alloc)),
        Pattern::Equal { to, .. } => known.identify_value(alloc, NmRef::of(to), field),
    }
}

/// Fields of which this is known, each against its pattern, or out of memory.
pub(crate) fn match_fields(
    alloc: Global,
    known: &mut Knowledge,
    pats: &[Pattern],
    fields: &[Known],
) -> Result<(), Memory>
    ensures { OnOk result ((k : typing.Knowledge) (values : List plain.Known) →
        KnowledgeHasTables k (knowledge_of known.old) → ValuesHaveTables values (map known_of fields.now) →
        KnowledgeHasTables (effects.match_fields k (map pattern_of pats.now) values) (knowledge_of known.new)) }
{
    for i in 0..pats.len().min(fields.len()) {
        match_field(alloc, known, &pats[i], &fields[i])?;
    }
    Ok(())
}

/// The table of the label where the fields of what was opened may be forged: all variables are open
/// that they were compared with. It refuses out of memory alone.
pub(crate) fn guard_of_compared(
    alloc: Global,
    known: &Knowledge,
    pats: &[Pattern],
) -> Result<Table, Memory>
    ensures { IfOk result (λ table. (k : typing.Knowledge) → KnowledgeHasTables k (knowledge_of known.now) →
        HasTable (effects.guard_of_compared k (map pattern_of pats.now)) table) }
{
    let mut table = public_table();
    for i in (0..pats.len()).rev() {
        if let Pattern::Equal { to, .. } = &pats[i] {
            let value = known.known_of(alloc, NmRef::of(to))?;
            table = meet(&value.lo, &table);
        }
    }
    Ok(table)
}
