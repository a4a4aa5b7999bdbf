ghost use Rattle.std.specs.Prelude.{◌≡◌, ◌<◌, ◌^◌, length, position, IfSome};
ghost use Rattle.std.specs.Option.{option_map, option_copied};
ghost use Rattle.std.specs.Str.{bytes_eq};
ghost use Rattle.dy_syntax.specs.Meaning.{plan_of, step_of};
ghost use Rattle.dy_plan.specs.Steps as steps;

use dy_syntax::{Plan, Step};
use dy_term::Word;

/// How many steps a plan has, which are fewer than 2^32.
pub fn step_count(plan: &Plan) -> u32
    requires { steps.step_count (plan_of plan.now) < 2 ^ 32 }
    ensures { result ≡ steps.step_count (plan_of plan.now) }
{
    let mut count = 0;
    for round in plan.rounds.as_slice() {
        count += round.steps.len() as u32;
    }
    count
}

/// The step of this number, or `None` where the plan has no such step.
pub(crate) fn numbered_step(plan: &Plan, number: u32) -> Option<&Step>
    ensures { option_map step_of (option_copied result) ≡ steps.numbered_step (plan_of plan.now) number }
{
    let mut place = number as usize;
    for round in plan.rounds.as_slice() {
        if let Some(step) = round.steps.get(place) {
            return Some(step);
        }
        place -= round.steps.len();
    }
    None
}

/// The place of the first of these steps that has the name.
fn place_of(steps: &[Step], name: &Word) -> Option<usize>
    ensures first { result ≡ position (λ step. bytes_eq step.name.word name.now) steps.now }
    ensures within { IfSome result (λ place. place < length steps.now) }
{
    steps.iter().position(|step| step.name.word.same(name))
}

/// The number of the first step of this name, or `None` where the plan has none. It has fewer than 2^32 steps.
pub(crate) fn number_of(plan: &Plan, name: &Word) -> Option<u32>
    requires { steps.step_count (plan_of plan.now) < 2 ^ 32 }
    ensures { result ≡ steps.number_of (plan_of plan.now) name.now }
{
    let mut before = 0;
    for round in plan.rounds.as_slice() {
        if let Some(place) = place_of(round.steps.as_slice(), name) {
            return Some(before + place as u32);
        }
        before += round.steps.len() as u32;
    }
    None
}
