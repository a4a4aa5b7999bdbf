#![tactic(auto, using(dy_grammar::proofs::Stepwise::at_is_by_rules), unfolding(dy_grammar::specs::Grammar::rules, dy_grammar::specs::Grammar::item_rules))]

ghost use Rattle.std.specs.Prelude.{◌≡◌, ◌≤◌, ◌<◌, ◌+◌};
ghost use Rattle.dy_syntax.specs.Meaning.{label_of};
ghost use Rattle.dy_grammar.specs.Parts.{One, ALabel, AnInner};
ghost use Rattle.dy_grammar.specs.Grammar as table;
ghost use Rattle.dy_grammar.specs.Mirrors.Machine.{at, after_first, built, by_these};
ghost use Rattle.dy_syntax.specs.Labels as meant;
ghost use Rattle.dy_parse.specs.Mirrors.Gives.{Gives};

use crate::cursor::{Cursor, Fault, is_word, name_of};
use crate::skipping::{Due, skip_over};
use dy_grammar::TOO_DEEP;
use dy_syntax::{LabelText, Nm};
use std::alloc::Global;

/// A label.
pub(crate) fn label<'a>(
    alloc: Global,
    tokens: &Cursor<'a>,
) -> Result<(LabelText, Cursor<'a>), Fault>
    ensures { Gives (λ x. (label_of x.0, x.1)) result (at (One ALabel) tokens.now) }
{
    if let Some((token, rest)) = tokens.first() {
        if is_word(token, b"public") {
            return Ok((LabelText::Public(token.line), rest));
        }
    }
    inner(alloc, 1, tokens)
}

/// A label too deep to be built: only its place is kept.
#[tactic(auto, using(crate::proofs::Grammars::Deep::deep_labels))]
fn deep_label<'a>(alloc: Global, tokens: &Cursor<'a>) -> Result<(LabelText, Cursor<'a>), Fault>
    ensures { Gives (λ x. (label_of x.0, x.1)) result (at (One (AnInner TOO_DEEP)) tokens.now) }
{
    let Some((token, _)) = tokens.first() else {
        return Err(tokens.fault());
    };
    let rest = skip_over(alloc, Due::Label, tokens)?;
    Ok((LabelText::Nobody(token.line), rest))
}

/// A label that may stand inside another, at this level.
#[cycle(label)]
#[tactic(auto, using(dy_grammar::proofs::Levels::labels_are_built))]
pub(crate) fn inner<'a>(
    alloc: Global,
    level: u8,
    tokens: &Cursor<'a>,
) -> Result<(LabelText, Cursor<'a>), Fault>
    requires { level ≤ TOO_DEEP }
    ensures { Gives (λ x. (label_of x.0, x.1)) result (at (One (AnInner level)) tokens.now) }
{
    if level == TOO_DEEP {
        deep_label(alloc, tokens)
    } else {
        built_label(alloc, level, tokens)
    }
}

/// A label that may stand inside another, at a level that is built.
#[cycle(label)]
#[tactic(auto, unfolding(dy_grammar::specs::Mirrors::Machine::token_at, dy_grammar::specs::Mirrors::Machine::token_value_if))]
fn built_label<'a>(
    alloc: Global,
    level: u8,
    tokens: &Cursor<'a>,
) -> Result<(LabelText, Cursor<'a>), Fault>
    requires { level < TOO_DEEP }
    ensures { Gives (λ x. (label_of x.0, x.1)) result
        (by_these meant.LabelText (table.inner_rules_with (level + 1) built) tokens.now) }
{
    let Some((token, rest)) = tokens.first() else {
        return Err(tokens.fault());
    };
    let line = token.line;
    if is_word(token, b"self") {
        return Ok((LabelText::One(Nm::Me { line }), rest));
    }
    if is_word(token, b"nobody") {
        return Ok((LabelText::Nobody(line), rest));
    }
    if is_word(token, b"session") {
        return Ok((LabelText::Session(line), rest));
    }
    if is_word(token, b"next") {
        return Ok((LabelText::Next(line), rest));
    }
    if is_word(token, b"prior") {
        return Ok((LabelText::Prior(line), rest));
    }
    if is_word(token, b"here") {
        return Ok((LabelText::Here(line), rest));
    }
    if is_word(token, b"join") {
        return join(alloc, level, line, &rest);
    }
    if is_word(token, b"meet") {
        return meet(alloc, level, line, &rest);
    }
    let (id, rest) = tokens.name()?;
    Ok((LabelText::One(Nm::Named(id)), rest))
}

/// Two labels, whose word `join` is read, on this line.
#[cycle(label)]
#[tactic(auto)]
fn join<'a>(
    alloc: Global,
    level: u8,
    line: u32,
    tokens: &Cursor<'a>,
) -> Result<(LabelText, Cursor<'a>), Fault>
    requires { level < TOO_DEEP }
    ensures { Gives (λ x. (label_of x.0, x.1)) result
        (after_first (table.join_rule (level + 1) built) line tokens.now) }
{
    let (_, rest) = tokens.mark(b"(")?;
    let (left, rest) = inner(alloc, level + 1, &rest)?;
    let (_, rest) = rest.mark(b",")?;
    let (right, rest) = inner(alloc, level + 1, &rest)?;
    let (_, rest) = rest.mark(b")")?;
    let left = Box::new(alloc, left)?;
    let right = Box::new(alloc, right)?;
    Ok((LabelText::Join(line, left, right), rest))
}

/// Two labels, whose word `meet` is read, on this line.
#[cycle(label)]
#[tactic(auto)]
fn meet<'a>(
    alloc: Global,
    level: u8,
    line: u32,
    tokens: &Cursor<'a>,
) -> Result<(LabelText, Cursor<'a>), Fault>
    requires { level < TOO_DEEP }
    ensures { Gives (λ x. (label_of x.0, x.1)) result
        (after_first (table.meet_rule (level + 1) built) line tokens.now) }
{
    let (_, rest) = tokens.mark(b"(")?;
    let (left, rest) = inner(alloc, level + 1, &rest)?;
    let (_, rest) = rest.mark(b",")?;
    let (right, rest) = inner(alloc, level + 1, &rest)?;
    let (_, rest) = rest.mark(b")")?;
    let left = Box::new(alloc, left)?;
    let right = Box::new(alloc, right)?;
    Ok((LabelText::Meet(line, left, right), rest))
}
