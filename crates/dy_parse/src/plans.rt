#![tactic(auto, using(dy_grammar::proofs::Stepwise::at_is_by_rules), unfolding(dy_grammar::specs::Grammar::rules, dy_grammar::specs::Grammar::item_rules))]

ghost use Rattle.std.specs.Prelude.{◌≡◌};
ghost use Rattle.std.specs.Option.{option_map};
ghost use Rattle.dy_syntax.specs.Meaning.{action_of, id_of, numbered_of, on_step_of, round_of, step_of};
ghost use Rattle.dy_grammar.specs.Parts.{One, AStep, AnAction, ARound, StartEnd, MsgEnd};
ghost use Rattle.dy_grammar.specs.Mirrors.Machine.{at};
ghost use Rattle.dy_parse.specs.Mirrors.Gives.{Gives};
ghost use Rattle.dy_parse.specs.Mirrors.Plans.{action_at, corrupt_at, forge_at, inject_at, start_at, start_step_at};

use crate::cursor::{Cursor, Fault, is_mark, is_word};
use crate::lists::{Listed, in_parentheses, many};
use crate::recipes::recipe;
use dy_syntax::{Action, Id, Numbered, OnStep, Round, Step};
use std::alloc::Global;

/// `msg` and a number of a step, or nothing, and `;`.
fn msg_end<'a>(tokens: &Cursor<'a>) -> Result<(Option<Numbered>, Cursor<'a>), Fault>
    ensures { Gives (λ x. (option_map numbered_of x.0, x.1)) result (at MsgEnd tokens.now) }
{
    let Some((token, rest)) = tokens.first() else {
        return Err(tokens.fault());
    };
    let line = token.line;
    if is_mark(token, b";") {
        return Ok((None, rest));
    }
    if is_word(token, b"msg") {
        let (step, rest) = rest.name()?;
        let (_, rest) = rest.mark(b".")?;
        let (number, rest) = rest.number()?;
        let (_, rest) = rest.mark(b";")?;
        return Ok((Some(Numbered { line, step, number }), rest));
    }
    Err(tokens.fault())
}

/// `on` and a step, or nothing, and then `msg` and a number of a step, or nothing, and `;`.
fn start_end<'a>(
    tokens: &Cursor<'a>,
) -> Result<((Option<OnStep>, Option<Numbered>), Cursor<'a>), Fault>
    ensures { Gives (λ x. ((option_map on_step_of x.0.0, option_map numbered_of x.0.1), x.1)) result
        (at StartEnd tokens.now) }
{
    let Some((token, rest)) = tokens.first() else {
        return Err(tokens.fault());
    };
    let line = token.line;
    if is_mark(token, b";") {
        return Ok(((None, None), rest));
    }
    if is_word(token, b"on") {
        let (step, rest) = rest.name()?;
        let (msg, rest) = msg_end(&rest)?;
        return Ok(((Some(OnStep { line, step }), msg), rest));
    }
    if is_word(token, b"msg") {
        let (step, rest) = rest.name()?;
        let (_, rest) = rest.mark(b".")?;
        let (number, rest) = rest.number()?;
        let (_, rest) = rest.mark(b";")?;
        return Ok(((None, Some(Numbered { line, step, number })), rest));
    }
    Err(tokens.fault())
}

/// A start step, whose principal is read.
#[tactic(auto)]
fn start<'a>(
    alloc: Global,
    principal: Id,
    tokens: &Cursor<'a>,
) -> Result<(Action, Cursor<'a>), Fault>
    ensures { Gives (λ x. (action_of x.0, x.1)) result (start_at (id_of principal) tokens.now) }
{
    let (handler, rest) = tokens.name()?;
    let (args, rest) = in_parentheses(alloc, &rest)?;
    let ((on, msg), rest) = start_end(&rest)?;
    let action = Action::Start {
        principal,
        handler,
        args,
        on,
        msg,
    };
    Ok((action, rest))
}

/// A corruption, whose word is read.
#[tactic(auto)]
fn corrupt<'a>(tokens: &Cursor<'a>) -> Result<(Action, Cursor<'a>), Fault>
    ensures { Gives (λ x. (action_of x.0, x.1)) result (corrupt_at tokens.now) }
{
    let (principal, rest) = tokens.name()?;
    let (session, rest) = rest.name()?;
    let (version, rest) = rest.number()?;
    let (_, rest) = rest.mark(b";")?;
    let action = Action::Corrupt {
        principal,
        session,
        version,
    };
    Ok((action, rest))
}

/// A start step.
#[tactic(auto)]
fn start_step<'a>(alloc: Global, tokens: &Cursor<'a>) -> Result<(Action, Cursor<'a>), Fault>
    ensures { Gives (λ x. (action_of x.0, x.1)) result (start_step_at tokens.now) }
{
    let (principal, rest) = tokens.name()?;
    start(alloc, principal, &rest)
}

/// What the attacker makes, whose word is read.
#[tactic(auto)]
fn inject<'a>(alloc: Global, tokens: &Cursor<'a>) -> Result<(Action, Cursor<'a>), Fault>
    ensures { Gives (λ x. (action_of x.0, x.1)) result (inject_at tokens.now) }
{
    let (recipe, rest) = recipe(alloc, 1, tokens)?;
    let (_, rest) = rest.mark(b";")?;
    Ok((Action::Inject(recipe), rest))
}

/// A nonce that the attacker makes, whose word is read.
#[tactic(auto)]
fn forge<'a>(tokens: &Cursor<'a>) -> Result<(Action, Cursor<'a>), Fault>
    ensures { Gives (λ x. (action_of x.0, x.1)) result (forge_at tokens.now) }
{
    let (_, rest) = tokens.mark(b";")?;
    Ok((Action::Forge, rest))
}

/// What a step does, and `;`.
#[tactic(auto, using(crate::proofs::Grammars::Decls::actions_are))]
fn action<'a>(alloc: Global, tokens: &Cursor<'a>) -> Result<(Action, Cursor<'a>), Fault>
    ensures { Gives (λ x. (action_of x.0, x.1)) result (at (One AnAction) tokens.now) }
{
    by_word(alloc, tokens)
}

/// What a step does, by its first word.
#[tactic(auto)]
fn by_word<'a>(alloc: Global, tokens: &Cursor<'a>) -> Result<(Action, Cursor<'a>), Fault>
    ensures { Gives (λ x. (action_of x.0, x.1)) result (action_at tokens.now) }
{
    let Some((token, rest)) = tokens.first() else {
        return Err(tokens.fault());
    };
    if is_word(token, b"corrupt") {
        return corrupt(&rest);
    }
    if is_word(token, b"forge") {
        return forge(&rest);
    }
    if is_word(token, b"inject") {
        return inject(alloc, &rest);
    }
    start_step(alloc, tokens)
}

impl Listed for Step {
    ghost item = { AStep };

    ghost view = { step_of };

    #[tactic(auto, using(dy_grammar::proofs::Stepwise::at_is_single), unfolding(dy_grammar::specs::Grammar::item_rules))]
    fn read<'a>(alloc: Global, tokens: &Cursor<'a>) -> Result<(Step, Cursor<'a>), Fault> {
        let (name, rest) = tokens.name()?;
        let (_, rest) = rest.mark(b":")?;
        let (action, rest) = action(alloc, &rest)?;
        Ok((
            Step {
                line: name.line,
                name,
                action,
            },
            rest,
        ))
    }
}

impl Listed for Round {
    ghost item = { ARound };

    ghost view = { round_of };

    #[tactic(auto, using(dy_grammar::proofs::Stepwise::at_is_single), unfolding(dy_grammar::specs::Grammar::item_rules))]
    fn read<'a>(alloc: Global, tokens: &Cursor<'a>) -> Result<(Round, Cursor<'a>), Fault> {
        let (line, rest) = tokens.word(b"round")?;
        let (_, rest) = rest.mark(b"{")?;
        let (steps, rest) = many(alloc, &rest)?;
        Ok((Round { line, steps }, rest))
    }
}
