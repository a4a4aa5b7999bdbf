ghost use Rattle.std.specs.Prelude.{◌≡◌, ◌∷◌, ◌++◌, map};
ghost use Rattle.std.specs.List.{flat_map};
ghost use Rattle.dy_syntax.specs.Expressions as expressions;
ghost use Rattle.dy_syntax.specs.Names as names;
ghost use Rattle.dy_syntax.specs.Meaning.{id_of, nm_of, kind_of, quote_of, use_of, expr_of, pattern_of, act_of, file_of};
ghost use Rattle.dy_syntax.specs.MirrorMeaning.{least_of, scope_of};
ghost use Rattle.dy_syntax.specs.MirrorFaults.{note_part, note_parts};
ghost use Rattle.dy_syntax.specs.Parts as parts;

use crate::expressions::Expr;
use crate::files::File;
use crate::least::Least;
use crate::look_ups::{case_named, state_named};
use crate::names::{Id, KindText, Nm, Quote, UseText};
use crate::parts::expressions::note_expr;
use crate::parts::labels::note_label;
use crate::parts::usages::{
    note_atom, note_certified, note_key, note_name_only, note_named, note_use, note_variable,
    note_variables,
};
use crate::rules::lengths::note_lengths;
use crate::rules::names::{note_exprs, note_field_args, note_patterns};
use crate::rules::words::{note_bare, note_first_arg};
use crate::scopes::Scope;
use crate::statements::{Act, Pattern};

/// A case with patterns for its fields.
#[tactic(auto, unfolding(crate::specs::MirrorFaults::note_part))]
fn note_matched(
    file: &File,
    scope: &Scope,
    usage: &Id,
    tag: &Quote,
    pats: &[Pattern],
    least: &mut Least,
)
    ensures { least_of least.new ≡ note_part (file_of file.now) (scope_of scope.now)
        (parts.Matched (id_of usage.now) (quote_of tag.now) (map pattern_of pats.now)) (least_of least.old) }
{
    match case_named(file.decls.as_slice(), &usage.word, &tag.text) {
        None => least.note(2, tag.line),
        Some(declared) => {
            let fields = declared.fields.as_slice();
            note_lengths(fields, pats, tag.line, least);
            note_patterns(scope, fields, pats, least);
        }
    }
}

/// A case with names for its fields.
#[tactic(auto, using(crate::proofs::Rows::names_as_exprs), unfolding(crate::specs::MirrorFaults::note_part))]
fn note_filled_by_names(
    file: &File,
    scope: &Scope,
    usage: &Id,
    tag: &Quote,
    args: &[Nm],
    least: &mut Least,
)
    ensures { least_of least.new ≡ note_part (file_of file.now) (scope_of scope.now)
        (parts.Filled (id_of usage.now) (quote_of tag.now) (map expressions.Nm (map nm_of args.now)))
        (least_of least.old) }
{
    match case_named(file.decls.as_slice(), &usage.word, &tag.text) {
        None => least.note(2, tag.line),
        Some(declared) => {
            let fields = declared.fields.as_slice();
            note_lengths(fields, args, tag.line, least);
            note_field_args(scope, fields, args, least);
        }
    }
}

/// A state with expressions for its fields.
#[tactic(auto, unfolding(crate::specs::MirrorFaults::note_part))]
fn note_state_filled(file: &File, scope: &Scope, state: &Id, args: &[Expr], least: &mut Least)
    ensures { least_of least.new ≡ note_part (file_of file.now) (scope_of scope.now)
        (parts.StateFilled (id_of state.now) (map expr_of args.now)) (least_of least.old) }
{
    match state_named(file.decls.as_slice(), &state.word) {
        None => least.note(2, state.line),
        Some(declared) => {
            let fields = declared.fields.as_slice();
            note_lengths(fields, args, state.line, least);
            note_exprs(scope, fields, args, least);
        }
    }
}

/// A state with patterns for its fields.
#[tactic(auto, unfolding(crate::specs::MirrorFaults::note_part))]
pub(crate) fn note_state_matched(
    file: &File,
    scope: &Scope,
    state: &Id,
    pats: &[Pattern],
    least: &mut Least,
)
    ensures { least_of least.new ≡ note_part (file_of file.now) (scope_of scope.now)
        (parts.StateMatched (id_of state.now) (map pattern_of pats.now)) (least_of least.old) }
{
    match state_named(file.decls.as_slice(), &state.word) {
        None => least.note(2, state.line),
        Some(declared) => {
            let fields = declared.fields.as_slice();
            note_lengths(fields, pats, state.line, least);
            note_patterns(scope, fields, pats, least);
        }
    }
}

/// A `store`, the last statement or not.
#[tactic(auto, unfolding(crate::specs::MirrorFaults::note_part))]
fn note_stored(file: &File, scope: &Scope, line: u32, is_last: bool, least: &mut Least)
    ensures { least_of least.new ≡ note_part (file_of file.now) (scope_of scope.now) (parts.Stored line is_last)
        (least_of least.old) }
{
    let _ = file;
    let _ = scope;
    least.note_if(!is_last, 9, line);
}

/// A `use` of a state.
#[tactic(auto, unfolding(crate::specs::MirrorFaults::note_part))]
fn note_recalled(file: &File, scope: &Scope, line: u32, state: &Id, least: &mut Least)
    ensures { least_of least.new ≡ note_part (file_of file.now) (scope_of scope.now)
        (parts.Recalled line (id_of state.now)) (least_of least.old) }
{
    let _ = scope;
    if let Some(declared) = state_named(file.decls.as_slice(), &state.word) {
        least.note_if(!declared.lasting, 9, line);
    }
}

/// The expression of a `let`.
#[tactic(auto, unfolding(crate::specs::MirrorFaults::note_part))]
fn note_defined(file: &File, scope: &Scope, value: &Expr, least: &mut Least)
    ensures { least_of least.new ≡ note_part (file_of file.now) (scope_of scope.now)
        (parts.Defined (expr_of value.now)) (least_of least.old) }
{
    let _ = file;
    let _ = scope;
    note_bare(value, least);
}

/// The arguments of an event statement.
#[tactic(auto, unfolding(crate::specs::MirrorFaults::note_part))]
fn note_triggered(file: &File, scope: &Scope, args: &[Nm], least: &mut Least)
    ensures { least_of least.new ≡ note_part (file_of file.now) (scope_of scope.now)
        (parts.Triggered (map nm_of args.now)) (least_of least.old) }
{
    let _ = file;
    let _ = scope;
    note_first_arg(args, least);
}

fn note_compared(file: &File, scope: &Scope, pattern: &Pattern, least: &mut Least)
    ensures { least_of least.new ≡ note_parts (file_of file.now) (scope_of scope.now)
        (parts.parts_of_pattern (pattern_of pattern.now)) (least_of least.old) }
{
    if let Pattern::Equal { line: _, to } = pattern {
        note_variable(file, scope, to, least);
    }
}

/// What patterns compare with.
#[tactic(auto, using(crate::proofs::Noted::note_parts_append))]
pub(crate) fn note_all_compared(file: &File, scope: &Scope, pats: &[Pattern], least: &mut Least)
    ensures { least_of least.new ≡ note_parts (file_of file.now) (scope_of scope.now)
        (flat_map parts.parts_of_pattern (map pattern_of pats.now)) (least_of least.old) }
{
    for pattern in pats {
        note_compared(file, scope, pattern, least);
    }
}

#[tactic(auto, using(crate::proofs::Noted::note_parts_append))]
fn note_all_exprs(file: &File, scope: &Scope, exprs: &[Expr], least: &mut Least)
    ensures { least_of least.new ≡ note_parts (file_of file.now) (scope_of scope.now)
        (flat_map parts.parts_of_expr (map expr_of exprs.now)) (least_of least.old) }
{
    for expr in exprs {
        note_expr(file, scope, expr, least);
    }
}

/// A value, a key, and what the value is opened as.
#[derive(Clone, Copy)]
struct Opening<'s> {
    value: &'s Id,
    key: &'s Id,
    usage: &'s UseText,
    tag: &'s Quote,
    pats: &'s [Pattern],
}

/// A value that is opened by a key.
#[tactic(auto, using(crate::proofs::Noted::note_parts_append), unfolding(crate::specs::Parts::parts_of_opening))]
fn note_opening(file: &File, scope: &Scope, kind: KindText, opened: Opening<'_>, least: &mut Least)
    ensures { least_of least.new ≡ note_parts (file_of file.now) (scope_of scope.now)
        (parts.parts_of_opening (kind_of kind) (id_of opened.entry.value.now) (id_of opened.entry.key.now)
        (use_of opened.entry.usage.now) (quote_of opened.entry.tag.now) (map pattern_of opened.entry.pats.now))
        (least_of least.old) }
{
    note_named(file, scope, opened.value, least);
    note_named(file, scope, opened.key, least);
    note_matched(
        file,
        scope,
        &opened.usage.usage,
        opened.tag,
        opened.pats,
        least,
    );
    note_key(file, scope, kind, opened.usage, least);
    note_all_compared(file, scope, opened.pats, least);
}

/// A message that is compared with a tag.
#[tactic(auto, using(crate::proofs::Noted::note_parts_append), unfolding(crate::specs::Parts::parts_of_sealed))]
fn note_checked(
    file: &File,
    scope: &Scope,
    key: &Id,
    usage: &UseText,
    tag: &Quote,
    args: &[Nm],
    least: &mut Least,
)
    ensures { least_of least.new ≡ note_parts (file_of file.now) (scope_of scope.now)
        (parts.parts_of_sealed names.Mac (names.Named (id_of key.now)) (use_of usage.now) (quote_of tag.now)
        (map expressions.Nm (map nm_of args.now)) ++ map parts.Variable (map nm_of args.now)) (least_of least.old) }
{
    note_named(file, scope, key, least);
    note_filled_by_names(file, scope, &usage.usage, tag, args, least);
    note_key(file, scope, KindText::Mac, usage, least);
    note_variables(file, scope, args, least);
}

/// A statement that begins on this line, the last one or not.
#[tactic(auto, using(crate::proofs::Noted::note_parts_append))]
pub(crate) fn note_act(
    file: &File,
    scope: &Scope,
    line: u32,
    is_last: bool,
    act: &Act,
    least: &mut Least,
)
    ensures { least_of least.new ≡ note_parts (file_of file.now) (scope_of scope.now)
        (parts.parts_of_act line is_last (act_of act.now)) (least_of least.old) }
{
    match act {
        Act::New {
            name: _,
            usage,
            label,
        } => {
            note_use(file, scope, usage, least);
            note_label(file, scope, label, least);
        }
        Act::Let { name: _, value } => {
            note_defined(file, scope, value, least);
            note_expr(file, scope, value, least);
        }
        Act::Event(atom) => {
            note_triggered(file, scope, atom.args.as_slice(), least);
            note_atom(file, scope, atom, least);
        }
        Act::Send(value) => note_expr(file, scope, value, least),
        Act::Store { state, fields } => {
            note_stored(file, scope, line, is_last, least);
            note_state_filled(file, scope, state, fields.as_slice(), least);
            note_all_exprs(file, scope, fields.as_slice(), least);
        }
        Act::Certify { key, usage } => {
            note_named(file, scope, key, least);
            note_certified(file, scope, usage, least);
        }
        Act::Find {
            usage,
            owner,
            name: _,
        } => {
            note_certified(file, scope, usage, least);
            note_name_only(file, scope, owner, least);
        }
        Act::Recall { state, pats } => {
            note_recalled(file, scope, line, state, least);
            note_state_matched(file, scope, state, pats.as_slice(), least);
            note_all_compared(file, scope, pats.as_slice(), least);
        }
        Act::Split {
            value,
            tag: _,
            pats,
        } => {
            note_named(file, scope, value, least);
            note_all_compared(file, scope, pats.as_slice(), least);
        }
        Act::Opened {
            value,
            key,
            usage,
            tag,
            pats,
            ad,
        } => {
            let pats = pats.as_slice();
            let opened = Opening {
                value,
                key,
                usage,
                tag,
                pats,
            };
            note_opening(file, scope, KindText::Aead, opened, least);
            note_expr(file, scope, ad, least);
        }
        Act::Popened {
            value,
            key,
            usage,
            tag,
            pats,
        } => {
            let pats = pats.as_slice();
            let opened = Opening {
                value,
                key,
                usage,
                tag,
                pats,
            };
            note_opening(file, scope, KindText::Pke, opened, least);
        }
        Act::Verify {
            value,
            key,
            usage,
            tag,
            pats,
        } => {
            let pats = pats.as_slice();
            let opened = Opening {
                value,
                key,
                usage,
                tag,
                pats,
            };
            note_opening(file, scope, KindText::Sig, opened, least);
        }
        Act::Check {
            value,
            key,
            usage,
            tag,
            args,
        } => {
            note_named(file, scope, value, least);
            note_checked(file, scope, key, usage, tag, args.as_slice(), least);
        }
        Act::Same(left, right) => {
            note_variable(file, scope, left, least);
            note_variable(file, scope, right, least);
        }
    }
}
