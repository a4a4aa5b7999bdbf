ghost use Rattle.std.specs.Prelude.{◌≡◌, ◌≢◌, true, false, map};
ghost use Rattle.dy_syntax.specs.Expressions as e;
ghost use Rattle.dy_syntax.specs.Meaning.{quote_of, expr_of, args_of};
ghost use Rattle.dy_syntax.specs.SameFiles.{bare_quote, bare_expr, bare_exprs};

use crate::expressions::{Expr, Tuple};
use crate::sameness::Part;

#[cycle(same_expr)]
#[tactic(auto, using(crate::proofs::SameParts::differs_there, crate::proofs::SameParts::other_length))]
fn same_exprs(exprs: &Vec<Expr>, others: &Vec<Expr>) -> bool
    ensures same { result ≡ true →
        map bare_expr (map expr_of exprs.now.items) ≡ map bare_expr (map expr_of others.now.items) }
    ensures other { result ≡ false →
        map bare_expr (map expr_of exprs.now.items) ≢ map bare_expr (map expr_of others.now.items) }
{
    if exprs.len() != others.len() {
        return false;
    }
    for i in 0..exprs.len() {
        if !same_expr(&exprs[i], &others[i]) {
            return false;
        }
    }
    true
}

/// Whether the expressions of the two tuples are the same.
#[cycle(same_expr)]
fn same_args(tuple: &Tuple, other: &Tuple) -> bool
    ensures same { result ≡ true → bare_exprs (args_of tuple.now) ≡ bare_exprs (args_of other.now) }
    ensures other { result ≡ false → bare_exprs (args_of tuple.now) ≢ bare_exprs (args_of other.now) }
{
    same_exprs(&tuple.args, &other.args)
}

#[cycle(same_expr)]
pub(crate) fn same_expr(expr: &Expr, other: &Expr) -> bool
    ensures same { result ≡ true → bare_expr (expr_of expr.now) ≡ bare_expr (expr_of other.now) }
    ensures other { result ≡ false → bare_expr (expr_of expr.now) ≢ bare_expr (expr_of other.now) }
{
    match (expr, other) {
        (Expr::Nm(name), Expr::Nm(other)) => name.same(other),
        (Expr::Lit(quote), Expr::Lit(other)) => quote.same(other),
        (Expr::Tuple(tuple), Expr::Tuple(other)) => tuple.tag.same(&other.tag)
            && same_args(tuple, other),
        (Expr::Pair(_, first, second), Expr::Pair(_, other_first, other_second)) => {
            same_expr(first, other_first) && same_expr(second, other_second)
        }
        (Expr::Pk(_, key), Expr::Pk(_, other)) | (Expr::Vk(_, key), Expr::Vk(_, other)) => key.same(
            other,
        ),
        (Expr::Penc(_, key, usage, tuple), Expr::Penc(_, other_key, other_usage, other))
        | (Expr::Sign(_, key, usage, tuple), Expr::Sign(_, other_key, other_usage, other))
        | (Expr::Mac(_, key, usage, tuple), Expr::Mac(_, other_key, other_usage, other)) => {
            key.same(other_key)
                && usage.same(other_usage)
                && tuple.tag.same(&other.tag)
                && same_args(tuple, other)
        }
        (
            Expr::Aead(_, key, usage, tuple, ad),
            Expr::Aead(_, other_key, other_usage, other, other_ad),
        ) => {
            key.same(other_key)
                && usage.same(other_usage)
                && tuple.tag.same(&other.tag)
                && same_args(tuple, other)
                && same_expr(ad, other_ad)
        }
        (Expr::Kdf(_, key, context, input), Expr::Kdf(_, other_key, other_context, other_input)) =>
            { key.same(other_key) && context.same(other_context) && same_expr(input, other_input) }
        (Expr::Hash(_, message), Expr::Hash(_, other)) => same_expr(message, other),
        _ => false,
    }
}

impl Part for Expr {
    ghost Plain = { e.Expr };

    ghost plain = { expr_of };

    ghost bare = { bare_expr };

    fn same(&self, other: &Expr) -> bool {
        same_expr(self, other)
    }
}
