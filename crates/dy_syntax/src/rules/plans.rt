//! w11: the steps of a plan.

ghost use Rattle.std.specs.Prelude.{◌≡◌, ◌++◌, None, map};
ghost use Rattle.std.specs.Option.{option_map, option_map_or};
ghost use Rattle.std.specs.List.{flat_map, list_any};
ghost use Rattle.dy_syntax.specs.Meaning.{id_of, handler_of, numbered_of, on_step_of, recipe_of, action_of, step_of, round_of, decl_of, file_of};
ghost use Rattle.dy_syntax.specs.MirrorMeaning.{least_of, wanted_of, step_at_of};
ghost use Rattle.dy_syntax.specs.MirrorFaults.{note_lines};
ghost use Rattle.dy_syntax.specs.Rules.Plans as rule;
ghost use Rattle.dy_syntax.specs.Rules.Doubles.{same_word};

use crate::declarations::Decl;
use crate::files::File;
use crate::least::Least;
use crate::look_ups::handler_named;
use crate::names::Id;
use crate::plans::{Action, OnStep, Round, Step};
use crate::recipes::Numbered;
use crate::statements::Handler;
use dy_term::Word;

/// What a step must be that another one names.
#[derive(Clone, Copy)]
pub(crate) enum Wanted<'f> {
    Forging,
    Starting,
    Sending,
    Opening,
    OpeningOf(&'f Word),
}

/// A step, and the number of its round.
#[derive(Clone, Copy)]
pub(crate) struct StepAt<'f> {
    pub(crate) round: usize,
    pub(crate) step: &'f Step,
}

/// The first step of this name in a round.
fn step_in<'f>(steps: &'f [Step], name: &Word) -> Option<&'f Step>
    ensures { option_map (λ step. step_of step.now) result ≡ rule.step_in (map step_of steps.now) name.now }
{
    for step in steps {
        if step.name.word.same(name) {
            return Some(step);
        }
    }
    None
}

/// The first step of this name.
pub(crate) fn step_named<'f>(rounds: &'f [Round], name: &Word) -> Option<StepAt<'f>>
    ensures { option_map step_at_of result ≡ rule.step_named 0 (map round_of rounds.now) name.now }
{
    for i in 0..rounds.len() {
        if let Some(step) = step_in(rounds[i].steps.as_slice(), name) {
            return Some(StepAt { round: i, step });
        }
    }
    None
}

/// The handler is declared and has no `on` part.
fn opens_session(decls: &[Decl], handler: &Id) -> bool
    ensures { result ≡ rule.opens_session (map decl_of decls.now) (id_of handler.now) }
{
    match handler_named(decls, &handler.word) {
        Some(declared) => declared.on.is_none(),
        None => false,
    }
}

fn is_wanted(decls: &[Decl], wanted: Wanted<'_>, action: &Action) -> bool
    ensures { result ≡ rule.is_wanted (map decl_of decls.now) (wanted_of wanted.entry) (action_of action.now) }
{
    match (wanted, action) {
        (Wanted::Forging, Action::Forge) => true,
        (Wanted::Starting | Wanted::Sending, Action::Start { .. }) => true,
        (Wanted::Sending, Action::Inject(_)) => true,
        (Wanted::Opening, Action::Start { handler, .. }) => opens_session(decls, handler),
        (
            Wanted::OpeningOf(owner),
            Action::Start {
                principal,
                handler,
                ..
            },
        ) => opens_session(decls, handler) && principal.word.same(owner),
        _ => false,
    }
}

/// A step names one that is not of an earlier round, or that is not what is wanted.
#[tactic(auto, using(crate::proofs::Noted::note_lines_append))]
pub(crate) fn note_step(file: &File, round: usize, wanted: Wanted<'_>, step: &Id, least: &mut Least)
    ensures { least_of least.new ≡ note_lines 11 (rule.lines_of_step (file_of file.now) round (wanted_of wanted.entry)
        (id_of step.now)) (least_of least.old) }
{
    match step_named(file.plan.rounds.as_slice(), &step.word) {
        Some(at) => {
            let is_earlier = at.round < round;
            least.note_if(!is_earlier, 11, step.line);
            let is_right = is_wanted(file.decls.as_slice(), wanted, &at.step.action);
            least.note_if(!is_right, 11, step.line);
        }
        None => least.note(11, step.line),
    }
}

fn note_on(declared: &Handler, on: &Option<OnStep>, least: &mut Least)
    ensures { least_of least.new ≡ note_lines 11 (rule.lines_of_on (handler_of declared.now)
        (option_map on_step_of on.now)) (least_of least.old) }
{
    if let Some(on) = on {
        least.note_if(declared.on.is_none(), 11, on.line);
    }
}

fn note_msg(declared: &Handler, msg: &Option<Numbered>, least: &mut Least)
    ensures { least_of least.new ≡ note_lines 11 (rule.lines_of_msg (handler_of declared.now)
        (option_map numbered_of msg.now)) (least_of least.old) }
{
    if let Some(msg) = msg {
        least.note_if(declared.recv.is_none(), 11, msg.line);
    }
}

#[tactic(auto, using(crate::proofs::Noted::note_lines_append))]
fn note_lacking(
    declared: &Handler,
    handler: &Id,
    on: &Option<OnStep>,
    msg: &Option<Numbered>,
    least: &mut Least,
)
    ensures { least_of least.new ≡ note_lines 11 (rule.lines_of_lacking (handler_of declared.now) (id_of handler.now)
        (option_map on_step_of on.now) (option_map numbered_of msg.now)) (least_of least.old) }
{
    let lacks_on = declared.on.is_some() && on.is_none();
    least.note_if(lacks_on, 11, handler.line);
    let lacks_msg = declared.recv.is_some() && msg.is_none();
    least.note_if(lacks_msg, 11, handler.line);
}

/// A start step has `on` or `msg` where its handler has no `on` or `recv`, or lacks one.
#[tactic(auto, using(crate::proofs::Noted::note_lines_append))]
pub(crate) fn note_start(
    declared: &Handler,
    handler: &Id,
    on: &Option<OnStep>,
    msg: &Option<Numbered>,
    least: &mut Least,
)
    ensures { least_of least.new ≡ note_lines 11 (rule.lines_of_start (handler_of declared.now) (id_of handler.now)
        (option_map on_step_of on.now) (option_map numbered_of msg.now)) (least_of least.old) }
{
    note_on(declared, on, least);
    note_msg(declared, msg, least);
    note_lacking(declared, handler, on, msg, least);
}
