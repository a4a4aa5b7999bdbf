ghost use Rattle.std.specs.Prelude.{◌≡◌, ◌++◌, map, IfOk, OnOk};
ghost use Rattle.std.specs.Option.{option_map};
ghost use Rattle.std.specs.List.{flat_map};
ghost use Rattle.dy_syntax.specs.Meaning.{id_of, pattern_of, on_part_of, act_of, statement_of, handler_of, file_of};
ghost use Rattle.dy_syntax.specs.MirrorMeaning.{least_of, scope_of};
ghost use Rattle.dy_syntax.specs.MirrorFaults.{note_parts, note_places};
ghost use Rattle.dy_syntax.specs.Scopes as scopes;
ghost use Rattle.dy_syntax.specs.Places as places;

use crate::files::File;
use crate::least::Least;
use crate::names::Id;
use crate::parts::statements::{note_act, note_all_compared, note_state_matched};
use crate::places::bindings::{
    push_act_binds, push_body_binds, push_body_names, push_ids, push_pattern_binds,
    push_pattern_names,
};
use crate::places::declarations::note_bound;
use crate::scopes::{Scope, Where, no_scope};
use crate::statements::{Act, Handler, OnPart, Pattern, Statement};
use sqlite_items::Items;
use std::alloc::{AllocError, Global};

fn on_pats(handler: &Handler) -> &[Pattern]
    ensures { map pattern_of result.now ≡ scopes.on_pats (handler_of handler.now) }
{
    match &handler.on {
        Some(on) => on.pats.as_slice(),
        None => &[],
    }
}

fn push_bound_first(ids: &mut Items<Id>, handler: &Handler) -> Result<(), AllocError>
    ensures { OnOk result (map id_of ids.new ≡ map id_of ids.old ++ scopes.bound_first (handler_of handler.now)) }
{
    push_ids(ids, handler.args.as_slice())?;
    if let Some(message) = &handler.recv {
        ids.push(message.copy())?;
    }
    Ok(())
}

/// The variables of a handler, as they stand in the text.
fn variables(alloc: Global, handler: &Handler) -> Result<Items<Id>, AllocError>
    ensures { IfOk result (λ ids. map id_of ids ≡ scopes.variables (handler_of handler.now)) }
{
    let mut ids = Items::new(alloc);
    push_pattern_binds(&mut ids, on_pats(handler))?;
    push_bound_first(&mut ids, handler)?;
    push_body_binds(&mut ids, handler.body.as_slice())?;
    Ok(ids)
}

fn handler_names(alloc: Global, handler: &Handler) -> Result<Items<Id>, AllocError>
    ensures { IfOk result (λ ids. map id_of ids ≡ scopes.handler_names (handler_of handler.now)) }
{
    let mut ids = Items::new(alloc);
    push_ids(&mut ids, handler.args.as_slice())?;
    push_pattern_names(&mut ids, on_pats(handler))?;
    push_body_names(&mut ids, handler.body.as_slice())?;
    Ok(ids)
}

fn is_store(act: &Act) -> bool
    ensures { result ≡ scopes.is_store (act_of act.now) }
{
    matches!(act, Act::Store { .. })
}

fn stores(body: &[Statement]) -> bool
    ensures { result ≡ scopes.body_stores (map statement_of body.now) }
{
    for statement in body {
        if is_store(&statement.act) {
            return true;
        }
    }
    false
}

/// A handler before its `on` part has run.
fn first_scope(alloc: Global, handler: &Handler) -> Result<Scope, AllocError>
    ensures { IfOk result (λ scope. scope_of scope ≡ scopes.handler_scope (handler_of handler.now)
        (scopes.bound_first (handler_of handler.now))) }
{
    let names = handler_names(alloc, handler)?;
    let mut bound = Items::new(alloc);
    push_bound_first(&mut bound, handler)?;
    Ok(Scope {
        place: Where::InHandler {
            goes_on: handler.on.is_some(),
            stores: stores(handler.body.as_slice()),
        },
        names,
        bound,
    })
}

/// Where more patterns have run.
fn bind_pats(scope: &mut Scope, pats: &[Pattern]) -> Result<(), AllocError>
    ensures { OnOk result (scope_of scope.new ≡ scopes.with_bound (scope_of scope.old)
        (flat_map scopes.pattern_binds (map pattern_of pats.now))) }
{
    push_pattern_binds(&mut scope.bound, pats)
}

/// Where one more statement has run.
fn bind_act(scope: &mut Scope, act: &Act) -> Result<(), AllocError>
    ensures { OnOk result (scope_of scope.new ≡ scopes.with_bound (scope_of scope.old)
        (scopes.act_binds (act_of act.now))) }
{
    push_act_binds(&mut scope.bound, act)
}

#[tactic(auto, using(crate::proofs::Noted::note_within))]
fn note_on(file: &File, scope: &Scope, on: &Option<OnPart>, least: &mut Least)
    ensures { least_of least.new ≡ note_places (file_of file.now)
        (places.on_places (scope_of scope.now) (option_map on_part_of on.now)) (least_of least.old) }
{
    if let Some(on) = on {
        note_state_matched(file, scope, &on.state, on.pats.as_slice(), least);
        note_all_compared(file, scope, on.pats.as_slice(), least);
    }
}

/// The statements, each with what is bound before it.
fn note_body(
    file: &File,
    scope: &mut Scope,
    body: &[Statement],
    least: &mut Least,
) -> Result<(), AllocError>
    ensures { OnOk result (least_of least.new ≡ note_places (file_of file.now)
        (places.body_places (scope_of scope.old) (map statement_of body.now)) (least_of least.old)) }
{
    for i in 0..body.len() {
        let statement = &body[i];
        let is_last = i + 1 == body.len();
        note_act(file, scope, statement.line, is_last, &statement.act, least);
        bind_act(scope, &statement.act)?;
    }
    Ok(())
}

/// A handler.
#[tactic(auto, using(crate::proofs::Noted::note_within, crate::proofs::Noted::note_places_append))]
pub(crate) fn note_handler(
    alloc: Global,
    file: &File,
    handler: &Handler,
    least: &mut Least,
) -> Result<(), AllocError>
    ensures { OnOk result (least_of least.new ≡ note_places (file_of file.now)
        (places.handler_places (handler_of handler.now)) (least_of least.old)) }
{
    let ids = variables(alloc, handler)?;
    note_bound(file, &no_scope(alloc), ids.as_slice(), least);
    let mut scope = first_scope(alloc, handler)?;
    note_on(file, &scope, &handler.on, least);
    bind_pats(&mut scope, on_pats(handler))?;
    note_body(file, &mut scope, handler.body.as_slice(), least)
}
