ghost use Rattle.std.specs.Prelude.{◌≡◌, ◌≢◌, true, false};
ghost use Rattle.dy_syntax.specs.Plans as p;
ghost use Rattle.dy_syntax.specs.Meaning.{on_step_of, action_of, step_of, round_of};
ghost use Rattle.dy_syntax.specs.SameFiles as same;

use crate::plans::{Action, OnStep, Round, Step};
use crate::sameness::recipes::same_recipe;
use crate::sameness::{Part, same_option, same_parts};

impl Part for OnStep {
    ghost Plain = { p.OnStep };

    ghost plain = { on_step_of };

    ghost bare = { same.bare_on_step };

    fn same(&self, other: &OnStep) -> bool {
        self.step.same(&other.step)
    }
}

fn same_action(action: &Action, other: &Action) -> bool
    ensures same { result ≡ true → same.bare_action (action_of action.now) ≡ same.bare_action (action_of other.now) }
    ensures other { result ≡ false → same.bare_action (action_of action.now) ≢ same.bare_action (action_of other.now) }
{
    match (action, other) {
        (
            Action::Start {
                principal,
                handler,
                args,
                on,
                msg,
            },
            Action::Start {
                principal: other,
                handler: other_handler,
                args: other_args,
                on: other_on,
                msg: other_msg,
            },
        ) => {
            principal.same(other)
                && handler.same(other_handler)
                && same_parts(args.as_slice(), other_args.as_slice())
                && same_option(on, other_on)
                && same_option(msg, other_msg)
        }
        (
            Action::Corrupt {
                principal,
                session,
                version,
            },
            Action::Corrupt {
                principal: other,
                session: other_session,
                version: other_version,
            },
        ) => principal.same(other) && session.same(other_session) && version == other_version,
        (Action::Forge, Action::Forge) => true,
        (Action::Inject(recipe), Action::Inject(other)) => same_recipe(recipe, other),
        _ => false,
    }
}

impl Part for Step {
    ghost Plain = { p.Step };

    ghost plain = { step_of };

    ghost bare = { same.bare_step };

    fn same(&self, other: &Step) -> bool {
        self.name.same(&other.name) && same_action(&self.action, &other.action)
    }
}

impl Part for Round {
    ghost Plain = { p.Round };

    ghost plain = { round_of };

    ghost bare = { same.bare_round };

    fn same(&self, other: &Round) -> bool {
        same_parts(self.steps.as_slice(), other.steps.as_slice())
    }
}
