//! Plans.
#![tactic(auto, using(crate::proofs::Writing::put_all_append))]

ghost use Rattle.std.specs.Prelude.{◌≡◌, map, IfOk};
ghost use Rattle.std.specs.Option.{option_map};
ghost use Rattle.dy_grammar.specs.Parts.{ARound, AStep};
ghost use Rattle.dy_syntax.specs.Plans as p;
ghost use Rattle.dy_syntax.specs.Meaning.{id_of, numbered_of, on_step_of, action_of, step_of, round_of};
ghost use Rattle.dy_show.specs.Canonical as c;
ghost use Rattle.dy_show.specs.MirrorPages.{put_all};

use crate::lists::{Shown, all, commas};
use crate::pages::Page;
use crate::recipes::{numbered_item, recipe};
use dy_syntax::{Action, Id, Numbered, OnStep, Round, Step};
use std::alloc::AllocError;

/// `msg` and a number of a step, or nothing, and `;`.
#[tactic(auto, using(crate::proofs::Writing::put_all_append), unfolding(crate::specs::Canonical::msg_end))]
fn msg_end(page: &mut Page, msg: &Option<Numbered>) -> Result<(), AllocError>
    ensures { IfOk result (λ _. page.new ≡ put_all page.old (c.msg_end (option_map numbered_of msg.now))) }
{
    match msg {
        None => page.mark(b";"),
        Some(of) => {
            numbered_item(page, b"msg", of)?;
            page.mark(b";")
        }
    }
}

/// `on` and a step or nothing, and the message.
#[tactic(auto, using(crate::proofs::Writing::put_all_append), unfolding(crate::specs::Canonical::start_end))]
fn start_end(page: &mut Page, on: &Option<OnStep>, msg: &Option<Numbered>) -> Result<(), AllocError>
    ensures { IfOk result (λ _.
        page.new ≡ put_all page.old (c.start_end (option_map on_step_of on.now) (option_map numbered_of msg.now))) }
{
    match on {
        None => msg_end(page, msg),
        Some(on) => {
            page.word(b"on")?;
            page.name(&on.step)?;
            msg_end(page, msg)
        }
    }
}

/// A session that is given away.
#[tactic(auto, using(crate::proofs::Writing::put_all_append), unfolding(crate::specs::Canonical::action))]
fn corrupt(page: &mut Page, principal: &Id, session: &Id, version: u32) -> Result<(), AllocError>
    ensures { IfOk result (λ _.
        page.new ≡ put_all page.old (c.action (p.Corrupt (id_of principal.now) (id_of session.now) version))) }
{
    page.word(b"corrupt")?;
    page.name(principal)?;
    page.name(session)?;
    page.number(version)?;
    page.mark(b";")
}

#[tactic(auto, using(crate::proofs::Writing::put_all_append), unfolding(crate::specs::Canonical::action))]
fn action(page: &mut Page, action: &Action) -> Result<(), AllocError>
    ensures { IfOk result (λ _. page.new ≡ put_all page.old (c.action (action_of action.now))) }
{
    match action {
        Action::Start {
            principal,
            handler,
            args,
            on,
            msg,
        } => {
            page.name(principal)?;
            page.name(handler)?;
            page.mark(b"(")?;
            commas(page, args.as_slice())?;
            start_end(page, on, msg)
        }
        Action::Corrupt {
            principal,
            session,
            version,
        } => corrupt(page, principal, session, *version),
        Action::Forge => {
            page.word(b"forge")?;
            page.mark(b";")
        }
        Action::Inject(made) => {
            page.word(b"inject")?;
            recipe(page, made)?;
            page.mark(b";")
        }
    }
}

#[tactic(auto, using(crate::proofs::Writing::put_all_append), unfolding(crate::specs::Canonical::step))]
impl Shown for Step {
    ghost item = { AStep };

    ghost view = { step_of };

    fn write(&self, page: &mut Page) -> Result<(), AllocError> {
        page.name(&self.name)?;
        page.mark(b":")?;
        action(page, &self.action)
    }
}

#[tactic(auto, using(crate::proofs::Writing::put_all_append), unfolding(crate::specs::Canonical::round))]
impl Shown for Round {
    ghost item = { ARound };

    ghost view = { round_of };

    fn write(&self, page: &mut Page) -> Result<(), AllocError> {
        page.first_word(b"round")?;
        page.mark(b"{")?;
        all(page, self.steps.as_slice())?;
        page.mark(b"}")
    }
}

/// A plan, where it has rounds.
#[tactic(auto, using(crate::proofs::Writing::put_all_append, crate::proofs::Writing::plan_with_rounds), unfolding(crate::specs::Canonical::rounds))]
pub(crate) fn rounds(page: &mut Page, rounds: &[Round]) -> Result<(), AllocError>
    ensures { IfOk result (λ _. page.new ≡ put_all page.old (c.rounds (map round_of rounds.now))) }
{
    if rounds.is_empty() {
        return Ok(());
    }
    page.line(b"plan")?;
    page.mark(b"{")?;
    all(page, rounds)?;
    page.last_brace()?;
    Ok(())
}
