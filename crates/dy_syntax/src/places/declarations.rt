ghost use Rattle.std.specs.Prelude.{◌≡◌, [], ◌∷◌, ◌++◌, map, IfOk, OnOk};
ghost use Rattle.std.specs.Option.{option_map_or};
ghost use Rattle.std.specs.List.{flat_map};
ghost use Rattle.dy_syntax.specs.LookUps as look_ups;
ghost use Rattle.dy_syntax.specs.Meaning.{id_of, row_of, usage_of, field_of, field_type_of, case_of, atom_of, partner_of, event_of, state_of, decl_of, file_of};
ghost use Rattle.dy_syntax.specs.MirrorMeaning.{least_of, scope_of};
ghost use Rattle.dy_syntax.specs.MirrorFaults.{note_lines, note_part, note_parts, note_places};
ghost use Rattle.dy_syntax.specs.Scopes as scopes;
ghost use Rattle.dy_syntax.specs.Parts as parts;
ghost use Rattle.dy_syntax.specs.Places as places;
ghost use Rattle.dy_syntax.specs.Rules.Declared.{lines_of_no_usage};
ghost use Rattle.dy_syntax.specs.Rules.Kinds as kinds;

use crate::declarations::{
    CaseDecl, Decl, EventDecl, Field, FieldType, Partner, Row, StateDecl, UsageDecl,
};
use crate::files::File;
use crate::least::Least;
use crate::look_ups::usage_named;
use crate::names::{AtomText, Id, KindText};
use crate::parts::labels::note_label;
use crate::parts::usages::{note_atom, note_key, note_use};
use crate::places::bindings::{
    field_names, param_names, push_field_names, push_ids, push_name_fields, push_name_params,
};
use crate::rules::doubles::{note_fields_as_params, note_same_names, note_same_texts};
use crate::rules::kinds::{has_cases, note_hidden_fields, note_row, note_wrong_table};
use crate::rules::words::note_first_param;
use crate::scopes::{Scope, Where, no_scope};
use dy_term::Word;
use sqlite_items::Items;
use std::alloc::{AllocError, Global};

/// The names stand in one declaration or handler.
#[tactic(auto, unfolding(crate::specs::MirrorFaults::note_part))]
pub(crate) fn note_bound(file: &File, scope: &Scope, ids: &[Id], least: &mut Least)
    ensures { least_of least.new ≡ note_part (file_of file.now) (scope_of scope.now) (parts.Bound (map id_of ids.now))
        (least_of least.old) }
{
    let _ = file;
    let _ = scope;
    note_same_names(5, ids, least);
}

#[tactic(auto, unfolding(crate::specs::MirrorFaults::note_part))]
fn note_of_usage(file: &File, scope: &Scope, usage: &UsageDecl, least: &mut Least)
    ensures { least_of least.new ≡ note_part (file_of file.now) (scope_of scope.now)
        (parts.OfUsage (usage_of usage.now)) (least_of least.old) }
{
    let _ = file;
    let _ = scope;
    note_same_texts(usage.rows.as_slice(), least);
    note_wrong_table(usage, least);
}

fn note_no_usage(decls: &[Decl], usage: &Id, least: &mut Least)
    ensures { least_of least.new ≡ note_lines 2 (lines_of_no_usage (map decl_of decls.now) (id_of usage.now))
        (least_of least.old) }
{
    if usage_named(decls, &usage.word).is_none() {
        least.note(2, usage.line);
    }
}

#[tactic(auto, unfolding(crate::specs::MirrorFaults::note_part))]
fn note_of_row(file: &File, scope: &Scope, usage: &UsageDecl, row: &Row, least: &mut Least)
    ensures { least_of least.new ≡ note_part (file_of file.now) (scope_of scope.now)
        (parts.OfRow (usage_of usage.now) (row_of row.now)) (least_of least.old) }
{
    let _ = scope;
    let decls = file.decls.as_slice();
    note_no_usage(decls, &row.usage, least);
    note_row(decls, usage, row, least);
}

fn note_rows(file: &File, scope: &Scope, usage: &UsageDecl, rows: &[Row], least: &mut Least)
    ensures { least_of least.new ≡ note_parts (file_of file.now) (scope_of scope.now)
        (map (parts.OfRow (usage_of usage.now)) (map row_of rows.now)) (least_of least.old) }
{
    for row in rows {
        note_of_row(file, scope, usage, row, least);
    }
}

/// A usage's declaration.
#[tactic(auto, using(crate::proofs::Noted::note_within))]
pub(crate) fn note_usage(alloc: Global, file: &File, usage: &UsageDecl, least: &mut Least)
    ensures { least_of least.new ≡ note_places (file_of file.now) (places.usage_places (usage_of usage.now))
        (least_of least.old) }
{
    let scope = no_scope(alloc);
    note_of_usage(file, &scope, usage, least);
    note_bound(file, &scope, usage.params.as_slice(), least);
    note_rows(file, &scope, usage, usage.rows.as_slice(), least);
}

#[tactic(auto, using(crate::proofs::Noted::note_parts_append))]
fn note_type(file: &File, scope: &Scope, kind: &FieldType, least: &mut Least)
    ensures { least_of least.new ≡ note_parts (file_of file.now) (scope_of scope.now)
        (parts.parts_of_type (field_type_of kind.now)) (least_of least.old) }
{
    match kind {
        FieldType::Name | FieldType::Any => {}
        FieldType::Upto(label) | FieldType::Secret(label) => note_label(file, scope, label, least),
        FieldType::Key(label, usage) => {
            note_label(file, scope, label, least);
            note_use(file, scope, usage, least);
        }
        FieldType::Pk(label, usage) => {
            note_label(file, scope, label, least);
            note_key(file, scope, KindText::Pke, usage, least);
        }
        FieldType::Vk(label, usage) => {
            note_label(file, scope, label, least);
            note_key(file, scope, KindText::Sig, usage, least);
        }
    }
}

#[tactic(auto, using(crate::proofs::Noted::note_parts_append))]
fn note_types(file: &File, scope: &Scope, fields: &[Field], least: &mut Least)
    ensures { least_of least.new ≡ note_parts (file_of file.now) (scope_of scope.now)
        (flat_map (λ f. parts.parts_of_type f.kind) (map field_of fields.now)) (least_of least.old) }
{
    for field in fields {
        note_type(file, scope, &field.kind, least);
    }
}

#[tactic(auto, using(crate::proofs::Noted::note_parts_append))]
fn note_atoms(file: &File, scope: &Scope, atoms: &[AtomText], least: &mut Least)
    ensures { least_of least.new ≡ note_parts (file_of file.now) (scope_of scope.now)
        (flat_map parts.parts_of_atom (map atom_of atoms.now)) (least_of least.old) }
{
    for atom in atoms {
        note_atom(file, scope, atom, least);
    }
}

#[tactic(auto, using(crate::proofs::Noted::note_parts_append), unfolding(crate::specs::Parts::parts_of_partner))]
fn note_partner(file: &File, scope: &Scope, partner: &Partner, least: &mut Least)
    ensures { least_of least.new ≡ note_parts (file_of file.now) (scope_of scope.now)
        (parts.parts_of_partner (partner_of partner.now)) (least_of least.old) }
{
    note_atom(file, scope, &partner.atom, least);
    note_label(file, scope, &partner.unless, least);
}

#[tactic(auto, using(crate::proofs::Noted::note_parts_append))]
fn note_partners(file: &File, scope: &Scope, partners: &[Partner], least: &mut Least)
    ensures { least_of least.new ≡ note_parts (file_of file.now) (scope_of scope.now)
        (flat_map parts.parts_of_partner (map partner_of partners.now)) (least_of least.old) }
{
    for partner in partners {
        note_partner(file, scope, partner, least);
    }
}

/// The parameters of a usage, none where it is not declared.
fn params_named<'f>(decls: &'f [Decl], usage: &Word) -> &'f [Id]
    ensures { map id_of result.now ≡ scopes.params_named (map decl_of decls.now) usage.now }
{
    match usage_named(decls, usage) {
        Some(usage) => usage.params.as_slice(),
        None => &[],
    }
}

fn case_scope(alloc: Global, decls: &[Decl], case: &CaseDecl) -> Result<Scope, AllocError>
    ensures { IfOk result (λ scope. scope_of scope ≡ scopes.case_scope (map decl_of decls.now) (case_of case.now)) }
{
    let params = params_named(decls, &case.usage.word);
    let fields = case.fields.as_slice();
    let mut names = Items::new(alloc);
    push_ids(&mut names, params)?;
    push_name_fields(&mut names, fields)?;
    let mut bound = Items::new(alloc);
    push_ids(&mut bound, params)?;
    push_field_names(&mut bound, fields)?;
    Ok(Scope {
        place: Where::InCase,
        names,
        bound,
    })
}

fn note_case_kind(decls: &[Decl], case: &CaseDecl, least: &mut Least)
    ensures { least_of least.new ≡ note_lines 4 (kinds.lines_of_case_kind (map decl_of decls.now) (case_of case.now))
        (least_of least.old) }
{
    if let Some(usage) = usage_named(decls, &case.usage.word) {
        least.note_if(!has_cases(usage.kind), 4, case.usage.line);
    }
}

fn note_shown_fields(decls: &[Decl], case: &CaseDecl, least: &mut Least)
    ensures { least_of least.new ≡ note_lines 8 (option_map_or
        (λ declared. kinds.lines_of_hidden_fields (kinds.shows_fields declared.kind) (map field_of case.now.fields))
        (look_ups.usage_named (map decl_of decls.now) case.now.usage.word) []) (least_of least.old) }
{
    if let Some(usage) = usage_named(decls, &case.usage.word) {
        note_hidden_fields(usage.kind, case.fields.as_slice(), least);
    }
}

#[tactic(auto, unfolding(crate::specs::MirrorFaults::note_part))]
fn note_of_case(file: &File, scope: &Scope, case: &CaseDecl, least: &mut Least)
    ensures { least_of least.new ≡ note_part (file_of file.now) (scope_of scope.now) (parts.OfCase (case_of case.now))
        (least_of least.old) }
{
    let _ = scope;
    let decls = file.decls.as_slice();
    note_no_usage(decls, &case.usage, least);
    note_case_kind(decls, case, least);
    let params = params_named(decls, &case.usage.word);
    note_fields_as_params(params, case.fields.as_slice(), least);
    note_shown_fields(decls, case, least);
}

#[tactic(auto, using(crate::proofs::Noted::note_parts_append))]
fn note_case_parts(file: &File, scope: &Scope, case: &CaseDecl, least: &mut Least)
    ensures { least_of least.new ≡ note_parts (file_of file.now) (scope_of scope.now)
        (flat_map (λ f. parts.parts_of_type f.kind) (map field_of case.now.fields) ++ flat_map parts.parts_of_atom
        (map atom_of case.now.requires_)) (least_of least.old) }
{
    note_types(file, scope, case.fields.as_slice(), least);
    note_atoms(file, scope, case.requires_.as_slice(), least);
}

/// A case's declaration, in its scope.
fn note_case_within(file: &File, scope: &Scope, names: &[Id], case: &CaseDecl, least: &mut Least)
    ensures { least_of least.new ≡ note_parts (file_of file.now) (scope_of scope.now)
        (parts.OfCase (case_of case.now) ∷ parts.Bound (map id_of names.now) ∷
        (flat_map (λ f. parts.parts_of_type f.kind) (map field_of case.now.fields) ++ flat_map parts.parts_of_atom
        (map atom_of case.now.requires_))) (least_of least.old) }
{
    note_of_case(file, scope, case, least);
    note_bound(file, scope, names, least);
    note_case_parts(file, scope, case, least);
}

/// A case's declaration.
#[tactic(auto, using(crate::proofs::Noted::note_within))]
pub(crate) fn note_case(
    alloc: Global,
    file: &File,
    case: &CaseDecl,
    least: &mut Least,
) -> Result<(), AllocError>
    ensures { OnOk result (least_of least.new ≡ note_places (file_of file.now)
        (places.case_places (map decl_of file.now.decls) (case_of case.now)) (least_of least.old)) }
{
    let scope = case_scope(alloc, file.decls.as_slice(), case)?;
    let names = field_names(alloc, case.fields.as_slice())?;
    note_case_within(file, &scope, names.as_slice(), case, least);
    Ok(())
}

fn event_scope(alloc: Global, event: &EventDecl) -> Result<Scope, AllocError>
    ensures { IfOk result (λ scope. scope_of scope ≡ scopes.event_scope (event_of event.now)) }
{
    let mut names = Items::new(alloc);
    push_name_params(&mut names, event.params.as_slice())?;
    let bound = param_names(alloc, event.params.as_slice())?;
    Ok(Scope {
        place: Where::InEvent,
        names,
        bound,
    })
}

#[tactic(auto, unfolding(crate::specs::MirrorFaults::note_part))]
fn note_of_event(file: &File, scope: &Scope, event: &EventDecl, least: &mut Least)
    ensures { least_of least.new ≡ note_part (file_of file.now) (scope_of scope.now)
        (parts.OfEvent (event_of event.now)) (least_of least.old) }
{
    let _ = file;
    let _ = scope;
    note_first_param(event, least);
}

/// An event's declaration.
#[tactic(auto, using(crate::proofs::Noted::note_within))]
pub(crate) fn note_event(
    alloc: Global,
    file: &File,
    event: &EventDecl,
    least: &mut Least,
) -> Result<(), AllocError>
    ensures { OnOk result (least_of least.new ≡ note_places (file_of file.now)
        (places.event_places (event_of event.now)) (least_of least.old)) }
{
    let scope = event_scope(alloc, event)?;
    let names = param_names(alloc, event.params.as_slice())?;
    note_of_event(file, &scope, event, least);
    note_bound(file, &scope, names.as_slice(), least);
    note_partners(file, &scope, event.after.as_slice(), least);
    Ok(())
}

fn state_scope(alloc: Global, state: &StateDecl) -> Result<Scope, AllocError>
    ensures { IfOk result (λ scope. scope_of scope ≡ scopes.state_scope (state_of state.now)) }
{
    let mut names = Items::new(alloc);
    push_name_fields(&mut names, state.fields.as_slice())?;
    let bound = field_names(alloc, state.fields.as_slice())?;
    Ok(Scope {
        place: Where::InState {
            lasting: state.lasting,
        },
        names,
        bound,
    })
}

/// A state's declaration.
#[tactic(auto, using(crate::proofs::Noted::note_within, crate::proofs::Noted::note_parts_append))]
pub(crate) fn note_state(
    alloc: Global,
    file: &File,
    state: &StateDecl,
    least: &mut Least,
) -> Result<(), AllocError>
    ensures { OnOk result (least_of least.new ≡ note_places (file_of file.now)
        (places.state_places (state_of state.now)) (least_of least.old)) }
{
    let scope = state_scope(alloc, state)?;
    let names = field_names(alloc, state.fields.as_slice())?;
    note_bound(file, &scope, names.as_slice(), least);
    note_types(file, &scope, state.fields.as_slice(), least);
    note_partners(file, &scope, state.knows.as_slice(), least);
    Ok(())
}
