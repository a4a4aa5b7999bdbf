ghost use Rattle.std.specs.Prelude.{◌≡◌, ◌++◌, map};
ghost use Rattle.std.specs.List.{flat_map};
ghost use Rattle.dy_syntax.specs.Expressions as expressions;
ghost use Rattle.dy_syntax.specs.Meaning.{args_of, expr_of, nm_of, use_of};
ghost use Rattle.dy_syntax.specs.Names as names;
ghost use Rattle.dy_parse.specs.Limits as limits;
ghost use Rattle.dy_parse.specs.Mirrors.Limits.{first_of, note_all};

use crate::errors::LimitName;
use crate::limits::least::First;
use crate::limits::members::{Noted, Placed, note_fields};
use dy_syntax::{Expr, Nm, Tuple, UseText, line_of};

impl Placed for Nm {
    ghost Plain = { names.Nm };

    ghost plain = { nm_of };

    ghost place = { names.line_of };

    fn line(&self) -> u32 {
        Nm::line(self)
    }
}

impl Placed for Expr {
    ghost Plain = { expressions.Expr };

    ghost plain = { expr_of };

    ghost place = { expressions.line_of };

    fn line(&self) -> u32 {
        line_of(self)
    }
}

/// A usage with its arguments.
pub(crate) fn note_use(usage: &UseText, first: &mut First)
    ensures { first_of first.new ≡ note_all (limits.excess_in_use (use_of usage.now)) (first_of first.old) }
{
    note_fields(usage.args.as_slice(), first);
}

/// The fields of a tuple, which are counted.
#[tactic(auto, using(crate::proofs::LimitLaws::Rows::list_of_args))]
fn note_count_of_args(tuple: &Tuple, first: &mut First)
    ensures { first_of first.new ≡ note_all (limits.counts_args (args_of tuple.now)) (first_of first.old) }
{
    note_fields(tuple.args.as_slice(), first);
}

/// An expression, where so many may still stand inside each other.
#[cycle(expr_limits)]
fn note_within(room: usize, expr: &Expr, first: &mut First)
    ensures { first_of first.new ≡ note_all (limits.expr_within room (expr_of expr.now)) (first_of first.old) }
{
    if room == 0 {
        first.note(LimitName::Nesting, line_of(expr));
    } else {
        note_inside(room - 1, expr, first);
    }
}

#[cycle(expr_limits)]
#[tactic(auto, using(crate::proofs::LimitLaws::Folds::note_all_append))]
fn note_inside(room: usize, expr: &Expr, first: &mut First)
    ensures { first_of first.new ≡ note_all (limits.inside_expr room (expr_of expr.now)) (first_of first.old) }
{
    match expr {
        Expr::Nm(_) | Expr::Lit(_) | Expr::Pk(_, _) | Expr::Vk(_, _) => {}
        Expr::Tuple(tuple) => note_tuple(room, tuple, first),
        Expr::Pair(_, left, right) => {
            note_within(room, left, first);
            note_within(room, right, first);
        }
        Expr::Penc(_, _, usage, tuple)
        | Expr::Sign(_, _, usage, tuple)
        | Expr::Mac(_, _, usage, tuple) => {
            note_use(usage, first);
            note_tuple(room, tuple, first);
        }
        Expr::Aead(_, _, usage, tuple, ad) => {
            note_use(usage, first);
            note_tuple(room, tuple, first);
            note_within(room, ad, first);
        }
        Expr::Kdf(_, _, _, inner) | Expr::Hash(_, inner) => note_within(room, inner, first),
    }
}

/// The fields of a tuple.
#[cycle(expr_limits)]
#[tactic(auto, using(crate::proofs::LimitLaws::Folds::note_all_append, crate::proofs::LimitLaws::Rows::inside_args_listed))]
fn note_tuple(room: usize, tuple: &Tuple, first: &mut First)
    ensures { first_of first.new ≡ note_all
        (limits.counts_args (args_of tuple.now) ++ limits.inside_args room (args_of tuple.now)) (first_of first.old) }
{
    note_count_of_args(tuple, first);
    note_row(room, tuple.args.as_slice(), first);
}

#[cycle(expr_limits)]
fn note_row(room: usize, exprs: &[Expr], first: &mut First)
    ensures { first_of first.new ≡ note_all
        (flat_map (limits.expr_within room) (map expr_of exprs.now)) (first_of first.old) }
{
    for expr in exprs {
        note_within(room, expr, first);
    }
}

/// An expression.
pub(crate) fn note_expr(expr: &Expr, first: &mut First)
    ensures { first_of first.new ≡ note_all (limits.excess_in_expr (expr_of expr.now)) (first_of first.old) }
{
    note_within(LimitName::Nesting.most(), expr, first);
}

impl Noted for Expr {
    ghost Whole = { expressions.Expr };

    ghost whole = { expr_of };

    ghost excess = { limits.excess_in_expr };

    fn note(&self, first: &mut First) {
        note_expr(self, first);
    }
}
