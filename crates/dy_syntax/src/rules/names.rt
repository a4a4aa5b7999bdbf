//! w6: a position for a name holds something else.

ghost use Rattle.std.specs.Prelude.{◌≡◌, map};
ghost use Rattle.dy_syntax.specs.Meaning.{nm_of, field_of, field_type_of, param_of, pattern_of, expr_of};
ghost use Rattle.dy_syntax.specs.MirrorMeaning.{least_of, scope_of};
ghost use Rattle.dy_syntax.specs.MirrorFaults.{note_lines};
ghost use Rattle.dy_syntax.specs.Expressions as expressions;
ghost use Rattle.dy_syntax.specs.Scopes as scopes;
ghost use Rattle.dy_syntax.specs.Rules.Lines.{lines_of_pairs};
ghost use Rattle.dy_syntax.specs.Rules.Names as rule;

use crate::declarations::{Field, FieldType, Param};
use crate::expressions::{Expr, line_of};
use crate::least::Least;
use crate::names::Nm;
use crate::scopes::{Scope, is_name};
use crate::statements::Pattern;

/// An argument of a usage, a reader in a label or the owner after `of` is no name.
pub(crate) fn note_no_name(scope: &Scope, name: &Nm, least: &mut Least)
    ensures { least_of least.new ≡ note_lines 6 (rule.lines_of_no_name (scope_of scope.now) (nm_of name.now))
        (least_of least.old) }
{
    least.note_if(!is_name(scope, name), 6, name.line());
}

/// An argument of an event at a `name` parameter is no name.
fn note_arg(scope: &Scope, param: &Param, arg: &Nm, least: &mut Least)
    ensures { least_of least.new ≡ note_lines 6 (rule.lines_of_arg (scope_of scope.now) (param_of param.now)
        (nm_of arg.now)) (least_of least.old) }
{
    least.note_if(param.is_name && !is_name(scope, arg), 6, arg.line());
}

#[tactic(auto, using(crate::proofs::Noted::note_pairs_end))]
pub(crate) fn note_args(scope: &Scope, params: &[Param], args: &[Nm], least: &mut Least)
    ensures { least_of least.new ≡ note_lines 6 (lines_of_pairs (rule.lines_of_arg (scope_of scope.now))
        (map param_of params.now) (map nm_of args.now)) (least_of least.old) }
{
    for i in 0..params.len().min(args.len()) {
        note_arg(scope, &params[i], &args[i], least);
    }
}

pub(crate) fn is_name_type(kind: &FieldType) -> bool
    ensures { result ≡ scopes.is_name_type (field_type_of kind.now) }
{
    matches!(kind, FieldType::Name)
}

fn is_name_expr(scope: &Scope, expr: &Expr) -> bool
    ensures { result ≡ rule.is_name_expr (scope_of scope.now) (expr_of expr.now) }
{
    match expr {
        Expr::Nm(name) => is_name(scope, name),
        _ => false,
    }
}

/// An expression at a `name` field is no name.
fn note_expr(scope: &Scope, field: &Field, expr: &Expr, least: &mut Least)
    ensures { least_of least.new ≡ note_lines 6 (rule.lines_of_expr (scope_of scope.now) (field_of field.now)
        (expr_of expr.now)) (least_of least.old) }
{
    least.note_if(
        is_name_type(&field.kind) && !is_name_expr(scope, expr),
        6,
        line_of(expr),
    );
}

#[tactic(auto, using(crate::proofs::Noted::note_pairs_end))]
pub(crate) fn note_exprs(scope: &Scope, fields: &[Field], exprs: &[Expr], least: &mut Least)
    ensures { least_of least.new ≡ note_lines 6 (lines_of_pairs (rule.lines_of_expr (scope_of scope.now))
        (map field_of fields.now) (map expr_of exprs.now)) (least_of least.old) }
{
    for i in 0..fields.len().min(exprs.len()) {
        note_expr(scope, &fields[i], &exprs[i], least);
    }
}

/// An argument at a `name` field is no name.
fn note_field_arg(scope: &Scope, field: &Field, arg: &Nm, least: &mut Least)
    ensures { least_of least.new ≡ note_lines 6 (rule.lines_of_expr (scope_of scope.now) (field_of field.now)
        (expressions.Nm (nm_of arg.now))) (least_of least.old) }
{
    least.note_if(
        is_name_type(&field.kind) && !is_name(scope, arg),
        6,
        arg.line(),
    );
}

#[tactic(auto, using(crate::proofs::Noted::note_pairs_end))]
pub(crate) fn note_field_args(scope: &Scope, fields: &[Field], args: &[Nm], least: &mut Least)
    ensures { least_of least.new ≡ note_lines 6 (lines_of_pairs (rule.lines_of_expr (scope_of scope.now))
        (map field_of fields.now) (map (λ n. expressions.Nm (nm_of n)) args.now)) (least_of least.old) }
{
    for i in 0..fields.len().min(args.len()) {
        note_field_arg(scope, &fields[i], &args[i], least);
    }
}

/// The pattern of a `name` field is no name, or that of another field is `name y`.
fn note_pattern(scope: &Scope, is_name_field: bool, pattern: &Pattern, least: &mut Least)
    ensures { least_of least.new ≡ note_lines 6 (rule.lines_of_pattern (scope_of scope.now) is_name_field
        (pattern_of pattern.now)) (least_of least.old) }
{
    match (is_name_field, pattern) {
        (true, Pattern::Bind(name)) => least.note(6, name.line),
        (true, Pattern::Equal { line: _, to }) => note_no_name(scope, to, least),
        (false, Pattern::Named { line, name: _ }) => least.note(6, *line),
        _ => {}
    }
}

#[tactic(auto, using(crate::proofs::Noted::note_pairs_end))]
pub(crate) fn note_patterns(scope: &Scope, fields: &[Field], pats: &[Pattern], least: &mut Least)
    ensures { least_of least.new ≡ note_lines 6 (lines_of_pairs (rule.lines_of_field_pattern (scope_of scope.now))
        (map field_of fields.now) (map pattern_of pats.now)) (least_of least.old) }
{
    for i in 0..fields.len().min(pats.len()) {
        note_pattern(scope, is_name_type(&fields[i].kind), &pats[i], least);
    }
}
