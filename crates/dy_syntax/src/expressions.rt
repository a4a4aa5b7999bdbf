ghost use Rattle.std.specs.Prelude.{◌≡◌};
ghost use Rattle.dy_syntax.specs.Meaning.{expr_of};
ghost use Rattle.dy_syntax.specs.Expressions as expressions;

use crate::names::{Nm, Quote, UseText};

/// A tag with the expressions of its fields.
#[cycle(expression)]
#[derive(Debug, Drop)]
pub struct Tuple {
    pub tag: Quote,
    pub args: Vec<Expr>,
}

/// An expression. The number that stands first is the line of its first word.
#[cycle(expression)]
#[derive(Debug, Drop)]
pub enum Expr {
    Nm(Nm),
    Lit(Quote),
    Tuple(Tuple),
    Pair(u32, Box<Expr>, Box<Expr>),
    Pk(u32, Nm),
    Vk(u32, Nm),
    Penc(u32, Nm, UseText, Tuple),
    Aead(u32, Nm, UseText, Tuple, Box<Expr>),
    Sign(u32, Nm, UseText, Tuple),
    Mac(u32, Nm, UseText, Tuple),
    Kdf(u32, Nm, Quote, Box<Expr>),
    Hash(u32, Box<Expr>),
}

/// The line of the expression's first token.
pub fn line_of(expr: &Expr) -> u32
    ensures { result ≡ expressions.line_of (expr_of expr.now) }
{
    match expr {
        Expr::Nm(Nm::Named(id)) => id.line,
        Expr::Nm(Nm::Me { line }) => *line,
        Expr::Lit(quote) => quote.line,
        Expr::Tuple(tuple) => tuple.tag.line,
        Expr::Pair(line, _, _)
        | Expr::Pk(line, _)
        | Expr::Vk(line, _)
        | Expr::Penc(line, _, _, _)
        | Expr::Aead(line, _, _, _, _)
        | Expr::Sign(line, _, _, _)
        | Expr::Mac(line, _, _, _)
        | Expr::Kdf(line, _, _, _)
        | Expr::Hash(line, _) => *line,
    }
}
