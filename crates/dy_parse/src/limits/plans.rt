ghost use Rattle.std.specs.Prelude.{◌≡◌, [], map, OnOk};
ghost use Rattle.std.specs.List.{flat_map};
ghost use Rattle.dy_syntax.specs.Plans as plans;
ghost use Rattle.dy_syntax.specs.Meaning.{action_of, round_of, step_of};
ghost use Rattle.dy_parse.specs.Limits as limits;
ghost use Rattle.dy_parse.specs.Mirrors.Limits.{first_of, note_all};

use crate::errors::LimitName;
use crate::limits::counts::{Count, note_count};
use crate::limits::least::First;
use crate::limits::members::{
    Counted, Noted, Placed, count_each, count_members, note_each, note_fields, note_members,
};
use crate::limits::principals::count_principals;
use crate::limits::recipes::note_recipe;
use dy_syntax::{Action, Round, Step};
use std::alloc::{AllocError, Global};

impl Placed for Step {
    ghost Plain = { plans.Step };

    ghost plain = { step_of };

    ghost place = { λ step. step.line };

    fn line(&self) -> u32 {
        self.line
    }
}

impl Placed for Round {
    ghost Plain = { plans.Round };

    ghost plain = { round_of };

    ghost place = { λ round. round.line };

    fn line(&self) -> u32 {
        self.line
    }
}

impl Counted for Round {
    ghost use Rattle.std.specs.Prelude.{map};

    ghost Of = { plans.Round };

    ghost of = { round_of };

    ghost lines = { λ round. map (λ step. step.line) round.steps };

    fn count(&self, count: Count) -> Count {
        count_members(self.steps.as_slice(), count)
    }
}

/// What a step does.
fn note_action(action: &Action, first: &mut First)
    ensures { first_of first.new ≡ note_all (limits.excess_in_action (action_of action.now)) (first_of first.old) }
{
    match action {
        Action::Start { args, .. } => note_fields(args.as_slice(), first),
        Action::Corrupt { .. } | Action::Forge => {}
        Action::Inject(recipe) => note_recipe(LimitName::Nesting.most(), recipe, first),
    }
}

impl Noted for Step {
    ghost Whole = { plans.Step };

    ghost whole = { step_of };

    ghost excess = { λ step. limits.excess_in_action step.action };

    fn note(&self, first: &mut First) {
        note_action(&self.action, first);
    }
}

impl Noted for Round {
    ghost use Rattle.std.specs.List.{flat_map};

    ghost Whole = { plans.Round };

    ghost whole = { round_of };

    ghost excess = { λ round. flat_map (λ step. limits.excess_in_action step.action) round.steps };

    fn note(&self, first: &mut First) {
        note_each(self.steps.as_slice(), first);
    }
}

/// All steps of a plan.
#[tactic(auto, using(crate::proofs::LimitLaws::Folds::counted))]
fn note_steps(rounds: &[Round], first: &mut First)
    ensures { first_of first.new ≡ note_all (limits.counts LimitName.Steps
        (flat_map (λ round. map (λ step. step.line) round.steps) (map round_of rounds.now))) (first_of first.old) }
{
    let steps = count_each(rounds, Count::Room(LimitName::Steps.most()));
    note_count(LimitName::Steps, steps, first);
}

/// The different principals of a plan.
#[tactic(auto, using(crate::proofs::LimitLaws::Folds::counted))]
fn note_principals(alloc: Global, rounds: &[Round], first: &mut First) -> Result<(), AllocError>
    ensures { OnOk result (first_of first.new ≡ note_all (limits.counts LimitName.Principals
        (map (λ id. id.line) (limits.others [] (limits.principals_in (map round_of rounds.now)))))
        (first_of first.old)) }
{
    let principals = count_principals(alloc, rounds, LimitName::Principals.most())?;
    note_count(LimitName::Principals, principals, first);
    Ok(())
}

/// A plan.
#[tactic(auto, using(crate::proofs::LimitLaws::Folds::note_all_append))]
pub(crate) fn note_plan(
    alloc: Global,
    rounds: &[Round],
    first: &mut First,
) -> Result<(), AllocError>
    ensures { OnOk result (first_of first.new ≡ note_all
        (limits.excess_in_plan (map round_of rounds.now)) (first_of first.old)) }
{
    note_members(LimitName::Rounds, rounds, first);
    note_steps(rounds, first);
    note_principals(alloc, rounds, first)?;
    note_each(rounds, first);
    Ok(())
}
