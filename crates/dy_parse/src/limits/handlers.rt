ghost use Rattle.std.specs.Prelude.{◌≡◌, map};
ghost use Rattle.std.specs.Option.{option_map};
ghost use Rattle.std.specs.List.{flat_map};
ghost use Rattle.dy_syntax.specs.Statements as statements;
ghost use Rattle.dy_syntax.specs.Meaning.{act_of, handler_of, on_part_of, pattern_of, statement_of};
ghost use Rattle.dy_parse.specs.Limits as limits;
ghost use Rattle.dy_parse.specs.Mirrors.Limits.{first_of, note_all, count_all};

use crate::errors::LimitName;
use crate::limits::counts::{Count, note_count};
use crate::limits::declarations::note_atom;
use crate::limits::expressions::{note_expr, note_use};
use crate::limits::labels::note_label;
use crate::limits::least::First;
use crate::limits::members::{
    Counted, Noted, Placed, count_each, count_members, note_each, note_fields, note_members,
};
use dy_syntax::{Act, Handler, OnPart, Pattern, Statement};

impl Placed for Pattern {
    ghost Plain = { statements.Pattern };

    ghost plain = { pattern_of };

    ghost place = { limits.pattern_line };

    fn line(&self) -> u32 {
        match self {
            Pattern::Bind(name) => name.line,
            Pattern::Named { line, .. } | Pattern::Equal { line, .. } => *line,
        }
    }
}

impl Placed for Statement {
    ghost Plain = { statements.Statement };

    ghost plain = { statement_of };

    ghost place = { λ statement. statement.line };

    fn line(&self) -> u32 {
        self.line
    }
}

impl Counted for Pattern {
    ghost Of = { statements.Pattern };

    ghost of = { pattern_of };

    ghost lines = { limits.name_lines };

    fn count(&self, count: Count) -> Count {
        match self {
            Pattern::Named { line, .. } => count.with(*line),
            _ => count,
        }
    }
}

impl Counted for Statement {
    ghost use Rattle.std.specs.List.{flat_map};

    ghost Of = { statements.Statement };

    ghost of = { statement_of };

    ghost lines = { λ statement. flat_map limits.name_lines (limits.patterns_of_act statement.act) };

    fn count(&self, count: Count) -> Count {
        count_act(&self.act, count)
    }
}

/// Counts the names that a statement's patterns bind.
fn count_act(act: &Act, count: Count) -> Count
    ensures { result ≡ count_all (flat_map limits.name_lines (limits.patterns_of_act (act_of act.now))) count }
{
    match act {
        Act::Recall { pats, .. }
        | Act::Split { pats, .. }
        | Act::Opened { pats, .. }
        | Act::Popened { pats, .. }
        | Act::Verify { pats, .. } => count_each(pats.as_slice(), count),
        _ => count,
    }
}

fn count_on(on: &Option<OnPart>, count: Count) -> Count
    ensures { result ≡ count_all
        (flat_map limits.name_lines (limits.patterns_of_on (option_map on_part_of on.now))) count }
{
    match on {
        Some(on) => count_each(on.pats.as_slice(), count),
        None => count,
    }
}

fn note_on(on: &Option<OnPart>, first: &mut First)
    ensures { first_of first.new ≡ note_all
        (limits.excess_in_patterns (limits.patterns_of_on (option_map on_part_of on.now))) (first_of first.old) }
{
    if let Some(on) = on {
        note_fields(on.pats.as_slice(), first);
    }
}

/// Counts the names of a handler.
#[tactic(auto, using(crate::proofs::LimitLaws::Folds::count_all_append))]
fn count_names(handler: &Handler, count: Count) -> Count
    ensures { result ≡ count_all (limits.names_of (handler_of handler.now)) count }
{
    let count = count.with(handler.line);
    let count = count_members(handler.args.as_slice(), count);
    let count = count_on(&handler.on, count);
    count_each(handler.body.as_slice(), count)
}

/// What a statement does.
#[tactic(auto, using(crate::proofs::LimitLaws::Folds::note_all_append))]
fn note_act(act: &Act, first: &mut First)
    ensures { first_of first.new ≡ note_all (limits.excess_in_act (act_of act.now)) (first_of first.old) }
{
    match act {
        Act::New { usage, label, .. } => {
            note_use(usage, first);
            note_label(label, first);
        }
        Act::Let { value, .. } | Act::Send(value) => note_expr(value, first),
        Act::Event(atom) => note_atom(atom, first),
        Act::Store { fields, .. } => {
            note_fields(fields.as_slice(), first);
            note_each(fields.as_slice(), first);
        }
        Act::Certify { .. } | Act::Find { .. } | Act::Same(_, _) => {}
        Act::Recall { pats, .. } | Act::Split { pats, .. } => note_fields(pats.as_slice(), first),
        Act::Opened {
            usage,
            pats,
            ad,
            ..
        } => {
            note_use(usage, first);
            note_fields(pats.as_slice(), first);
            note_expr(ad, first);
        }
        Act::Popened { usage, pats, .. } | Act::Verify { usage, pats, .. } => {
            note_use(usage, first);
            note_fields(pats.as_slice(), first);
        }
        Act::Check { usage, args, .. } => {
            note_use(usage, first);
            note_fields(args.as_slice(), first);
        }
    }
}

impl Noted for Statement {
    ghost Whole = { statements.Statement };

    ghost whole = { statement_of };

    ghost excess = { λ statement. limits.excess_in_act statement.act };

    fn note(&self, first: &mut First) {
        note_act(&self.act, first);
    }
}

/// The names of a handler.
#[tactic(auto, using(crate::proofs::LimitLaws::Folds::counted))]
fn note_names(handler: &Handler, first: &mut First)
    ensures { first_of first.new ≡ note_all
        (limits.counts LimitName.Names (limits.names_of (handler_of handler.now))) (first_of first.old) }
{
    let names = count_names(handler, Count::Room(LimitName::Names.most()));
    note_count(LimitName::Names, names, first);
}

/// A handler.
#[tactic(auto, using(crate::proofs::LimitLaws::Folds::note_all_append))]
pub(crate) fn note_handler(handler: &Handler, first: &mut First)
    ensures { first_of first.new ≡ note_all (limits.excess_in_handler (handler_of handler.now)) (first_of first.old) }
{
    note_names(handler, first);
    note_on(&handler.on, first);
    note_fields(handler.args.as_slice(), first);
    note_members(LimitName::Statements, handler.body.as_slice(), first);
    note_each(handler.body.as_slice(), first);
}
