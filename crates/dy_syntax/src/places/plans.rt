ghost use Rattle.std.specs.Prelude.{◌≡◌, ◌++◌, map, IfOk, OnOk};
ghost use Rattle.std.specs.Option.{option_map, option_to_list};
ghost use Rattle.std.specs.List.{flat_map};
ghost use Rattle.dy_syntax.specs.Meaning.{id_of, on_step_of, numbered_of, action_of, step_of, round_of, file_of};
ghost use Rattle.dy_syntax.specs.MirrorMeaning.{least_of, scope_of};
ghost use Rattle.dy_syntax.specs.MirrorFaults.{note_part, note_parts, note_places};
ghost use Rattle.dy_syntax.specs.Parts as parts;
ghost use Rattle.dy_syntax.specs.Places as places;

use crate::files::File;
use crate::least::Least;
use crate::look_ups::handler_named;
use crate::names::Id;
use crate::parts::recipes::{note_recipe, note_step_named};
use crate::plans::{Action, OnStep, Round, Step};
use crate::recipes::Numbered;
use crate::rules::doubles::note_same_names;
use crate::rules::lengths::note_lengths;
use crate::rules::plans::{Wanted, note_start};
use crate::rules::sessions::note_same_session;
use crate::scopes::{Scope, no_scope};
use sqlite_items::Items;
use std::alloc::{AllocError, Global};

/// The names of the plan's steps.
#[tactic(auto, unfolding(crate::specs::MirrorFaults::note_part))]
fn note_step_names(file: &File, scope: &Scope, ids: &[Id], least: &mut Least)
    ensures { least_of least.new ≡ note_part (file_of file.now) (scope_of scope.now)
        (parts.StepNames (map id_of ids.now)) (least_of least.old) }
{
    let _ = file;
    let _ = scope;
    note_same_names(11, ids, least);
}

/// The steps of a round.
#[tactic(auto, unfolding(crate::specs::MirrorFaults::note_part))]
fn note_together(
    alloc: Global,
    file: &File,
    scope: &Scope,
    steps: &[Step],
    least: &mut Least,
) -> Result<(), AllocError>
    ensures { OnOk result (least_of least.new ≡ note_part (file_of file.now) (scope_of scope.now)
        (parts.Together (map step_of steps.now)) (least_of least.old)) }
{
    let _ = file;
    let _ = scope;
    note_same_session(alloc, steps, least)
}

/// A start step.
#[tactic(auto, unfolding(crate::specs::MirrorFaults::note_part))]
fn note_started(
    file: &File,
    scope: &Scope,
    handler: &Id,
    args: &[Id],
    on: &Option<OnStep>,
    msg: &Option<Numbered>,
    least: &mut Least,
)
    ensures { least_of least.new ≡ note_part (file_of file.now) (scope_of scope.now)
        (parts.Started (id_of handler.now) (map id_of args.now) (option_map on_step_of on.now)
        (option_map numbered_of msg.now)) (least_of least.old) }
{
    let _ = scope;
    match handler_named(file.decls.as_slice(), &handler.word) {
        None => least.note(2, handler.line),
        Some(declared) => {
            note_lengths(declared.args.as_slice(), args, handler.line, least);
            note_start(declared, handler, on, msg, least);
        }
    }
}

fn note_on_step(
    file: &File,
    scope: &Scope,
    round: usize,
    principal: &Id,
    on: &Option<OnStep>,
    least: &mut Least,
)
    ensures { least_of least.new ≡ note_parts (file_of file.now) (scope_of scope.now)
        (map (λ o. parts.StepNamed round (parts.OpeningOf principal.now.word) o.step)
        (option_to_list (option_map on_step_of on.now))) (least_of least.old) }
{
    if let Some(on) = on {
        note_step_named(
            file,
            scope,
            round,
            Wanted::OpeningOf(&principal.word),
            &on.step,
            least,
        );
    }
}

fn note_message(file: &File, scope: &Scope, round: usize, msg: &Option<Numbered>, least: &mut Least)
    ensures { least_of least.new ≡ note_parts (file_of file.now) (scope_of scope.now)
        (map (λ m. parts.StepNamed round parts.Sending m.step) (option_to_list (option_map numbered_of msg.now)))
        (least_of least.old) }
{
    if let Some(msg) = msg {
        note_step_named(file, scope, round, Wanted::Sending, &msg.step, least);
    }
}

/// What a step of the round of this number does.
#[tactic(auto, using(crate::proofs::Noted::note_parts_append))]
fn note_action(file: &File, scope: &Scope, round: usize, action: &Action, least: &mut Least)
    ensures { least_of least.new ≡ note_parts (file_of file.now) (scope_of scope.now)
        (places.parts_of_action round (action_of action.now)) (least_of least.old) }
{
    match action {
        Action::Start {
            principal,
            handler,
            args,
            on,
            msg,
        } => {
            note_started(file, scope, handler, args.as_slice(), on, msg, least);
            note_on_step(file, scope, round, principal, on, least);
            note_message(file, scope, round, msg, least);
        }
        Action::Corrupt {
            principal,
            session,
            version: _,
        } => note_step_named(
            file,
            scope,
            round,
            Wanted::OpeningOf(&principal.word),
            session,
            least,
        ),
        Action::Forge => {}
        Action::Inject(recipe) => note_recipe(file, scope, round, recipe, least),
    }
}

#[tactic(auto, using(crate::proofs::Noted::note_parts_append))]
fn note_actions(file: &File, scope: &Scope, round: usize, steps: &[Step], least: &mut Least)
    ensures { least_of least.new ≡ note_parts (file_of file.now) (scope_of scope.now)
        (flat_map (λ s. places.parts_of_action round s.action) (map step_of steps.now)) (least_of least.old) }
{
    for step in steps {
        note_action(file, scope, round, &step.action, least);
    }
}

/// The rounds, numbered from 0.
#[tactic(auto, using(crate::proofs::Noted::note_parts_append))]
fn note_rounds(
    alloc: Global,
    file: &File,
    scope: &Scope,
    rounds: &[Round],
    least: &mut Least,
) -> Result<(), AllocError>
    ensures { OnOk result (least_of least.new ≡ note_parts (file_of file.now) (scope_of scope.now)
        (places.parts_of_rounds 0 (map round_of rounds.now)) (least_of least.old)) }
{
    for i in 0..rounds.len() {
        let steps = rounds[i].steps.as_slice();
        note_together(alloc, file, scope, steps, least)?;
        note_actions(file, scope, i, steps, least);
    }
    Ok(())
}

fn push_step_names(ids: &mut Items<Id>, steps: &[Step]) -> Result<(), AllocError>
    ensures { OnOk result (map id_of ids.new ≡ map id_of ids.old ++ map (λ s. s.name) (map step_of steps.now)) }
{
    for step in steps {
        ids.push(step.name.copy())?;
    }
    Ok(())
}

fn step_names(alloc: Global, rounds: &[Round]) -> Result<Items<Id>, AllocError>
    ensures { IfOk result (λ ids. map id_of ids ≡ flat_map (λ r. map (λ s. s.name) r.steps) (map round_of rounds.now)) }
{
    let mut ids = Items::new(alloc);
    for round in rounds {
        push_step_names(&mut ids, round.steps.as_slice())?;
    }
    Ok(ids)
}

/// The plan.
#[tactic(auto, using(crate::proofs::Noted::note_within))]
pub(crate) fn note_plan(
    alloc: Global,
    file: &File,
    rounds: &[Round],
    least: &mut Least,
) -> Result<(), AllocError>
    ensures { OnOk result (least_of least.new ≡ note_places (file_of file.now)
        (places.plan_places (map round_of rounds.now)) (least_of least.old)) }
{
    let scope = no_scope(alloc);
    let ids = step_names(alloc, rounds)?;
    note_step_names(file, &scope, ids.as_slice(), least);
    note_rounds(alloc, file, &scope, rounds, least)
}
