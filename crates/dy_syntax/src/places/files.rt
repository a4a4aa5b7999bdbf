ghost use Rattle.std.specs.Prelude.{◌≡◌, ◌++◌, None, map, IfOk, OnOk};
ghost use Rattle.std.specs.List.{flat_map};
ghost use Rattle.dy_syntax.specs.Meaning.{id_of, decl_of, file_of};
ghost use Rattle.dy_syntax.specs.MirrorMeaning.{least_of, scope_of};
ghost use Rattle.dy_syntax.specs.MirrorFaults.{note_part, note_places};
ghost use Rattle.dy_syntax.specs.Parts as parts;
ghost use Rattle.dy_syntax.specs.Places as places;

use crate::declarations::Decl;
use crate::files::File;
use crate::least::{Least, no_fault};
use crate::names::Id;
use crate::places::declarations::{note_case, note_event, note_state, note_usage};
use crate::places::handlers::note_handler;
use crate::places::plans::note_plan;
use crate::rules::doubles::{note_same_cases, note_same_names};
use crate::scopes::{Scope, no_scope};
use sqlite_items::Items;
use std::alloc::{AllocError, Global};

fn usage_names(alloc: Global, decls: &[Decl]) -> Result<Items<Id>, AllocError>
    ensures { IfOk result (λ ids. map id_of ids ≡ flat_map places.usage_names_in (map decl_of decls.now)) }
{
    let mut ids = Items::new(alloc);
    for decl in decls {
        if let Decl::Usage(usage) = decl {
            ids.push(usage.name.copy())?;
        }
    }
    Ok(ids)
}

fn event_names(alloc: Global, decls: &[Decl]) -> Result<Items<Id>, AllocError>
    ensures { IfOk result (λ ids. map id_of ids ≡ flat_map places.event_names_in (map decl_of decls.now)) }
{
    let mut ids = Items::new(alloc);
    for decl in decls {
        if let Decl::Event(event) = decl {
            ids.push(event.name.copy())?;
        }
    }
    Ok(ids)
}

fn state_names(alloc: Global, decls: &[Decl]) -> Result<Items<Id>, AllocError>
    ensures { IfOk result (λ ids. map id_of ids ≡ flat_map places.state_names_in (map decl_of decls.now)) }
{
    let mut ids = Items::new(alloc);
    for decl in decls {
        if let Decl::State(state) = decl {
            ids.push(state.name.copy())?;
        }
    }
    Ok(ids)
}

fn handler_names(alloc: Global, decls: &[Decl]) -> Result<Items<Id>, AllocError>
    ensures { IfOk result (λ ids. map id_of ids ≡ flat_map places.handler_names_in (map decl_of decls.now)) }
{
    let mut ids = Items::new(alloc);
    for decl in decls {
        if let Decl::Handler(handler) = decl {
            ids.push(handler.name.copy())?;
        }
    }
    Ok(ids)
}

/// The names of what is declared of one sort.
#[tactic(auto, unfolding(crate::specs::MirrorFaults::note_part))]
fn note_declared_names(file: &File, scope: &Scope, ids: &[Id], least: &mut Least)
    ensures { least_of least.new ≡ note_part (file_of file.now) (scope_of scope.now)
        (parts.Declared (map id_of ids.now)) (least_of least.old) }
{
    let _ = file;
    let _ = scope;
    note_same_names(1, ids, least);
}

#[tactic(auto, unfolding(crate::specs::MirrorFaults::note_part))]
fn note_cases(file: &File, scope: &Scope, decls: &[Decl], least: &mut Least)
    ensures { least_of least.new ≡ note_part (file_of file.now) (scope_of scope.now)
        (parts.Cases (flat_map places.cases_in (map decl_of decls.now))) (least_of least.old) }
{
    let _ = file;
    let _ = scope;
    note_same_cases(decls, least);
}

/// What is declared, sort by sort.
#[tactic(auto, using(crate::proofs::Noted::note_within))]
fn note_declared(
    alloc: Global,
    file: &File,
    decls: &[Decl],
    least: &mut Least,
) -> Result<(), AllocError>
    ensures { OnOk result (least_of least.new ≡ note_places (file_of file.now)
        (places.declared_places (map decl_of decls.now)) (least_of least.old)) }
{
    let usages = usage_names(alloc, decls)?;
    let events = event_names(alloc, decls)?;
    let states = state_names(alloc, decls)?;
    let handlers = handler_names(alloc, decls)?;
    let scope = no_scope(alloc);
    note_declared_names(file, &scope, usages.as_slice(), least);
    note_declared_names(file, &scope, events.as_slice(), least);
    note_declared_names(file, &scope, states.as_slice(), least);
    note_declared_names(file, &scope, handlers.as_slice(), least);
    note_cases(file, &scope, decls, least);
    Ok(())
}

fn note_decl(alloc: Global, file: &File, decl: &Decl, least: &mut Least) -> Result<(), AllocError>
    ensures { OnOk result (least_of least.new ≡ note_places (file_of file.now)
        (places.decl_places (map decl_of file.now.decls) (decl_of decl.now)) (least_of least.old)) }
{
    match decl {
        Decl::Usage(usage) => {
            note_usage(alloc, file, usage, least);
            Ok(())
        }
        Decl::Case(case) => note_case(alloc, file, case, least),
        Decl::Event(event) => note_event(alloc, file, event, least),
        Decl::State(state) => note_state(alloc, file, state, least),
        Decl::Handler(handler) => note_handler(alloc, file, handler, least),
    }
}

#[tactic(auto, using(crate::proofs::Noted::note_places_append))]
fn note_decls(
    alloc: Global,
    file: &File,
    decls: &[Decl],
    least: &mut Least,
) -> Result<(), AllocError>
    ensures { OnOk result (least_of least.new ≡ note_places (file_of file.now)
        (flat_map (places.decl_places (map decl_of file.now.decls)) (map decl_of decls.now)) (least_of least.old)) }
{
    for decl in decls {
        note_decl(alloc, file, decl, least)?;
    }
    Ok(())
}

/// The first fault of the file.
#[tactic(auto, using(crate::proofs::Noted::note_places_append))]
pub(crate) fn first_fault(alloc: Global, file: &File) -> Result<Least, AllocError>
    ensures { IfOk result (λ least. least_of least ≡ note_places (file_of file.now)
        (places.places_in (file_of file.now)) None) }
{
    let mut least = no_fault();
    let decls = file.decls.as_slice();
    note_declared(alloc, file, decls, &mut least)?;
    note_decls(alloc, file, decls, &mut least)?;
    note_plan(alloc, file, file.plan.rounds.as_slice(), &mut least)?;
    Ok(least)
}
