#![tactic(auto)]

ghost use Rattle.std.specs.Prelude.{◌≡◌, ◌≤◌, ◌<◌, ◌+◌, [], ◌∷◌, map};
ghost use Rattle.std.specs.Option.{option_map};
ghost use Rattle.dy_syntax.specs.Expressions as meant;
ghost use Rattle.dy_syntax.specs.Meaning.{nm_of, use_of, quote_of, expr_of, args_of};
ghost use Rattle.dy_grammar.specs.Grammar as table;
ghost use Rattle.dy_grammar.specs.Parts.{One, Commas, MaybeListed, AnExpr};
ghost use Rattle.dy_grammar.specs.Mirrors.Machine.{at, after_first, built, by_these, syms_at};
ghost use Rattle.dy_parse.specs.Mirrors.Gives.{Gives};
ghost use Rattle.dy_parse.specs.Mirrors.Lists.{with_prefix, rest_at, next_at};
ghost use Rattle.dy_parse.specs.declared.lists.Rest.TheVariants as rests;

use crate::cursor::{Cursor, Fault, is_word, text_of};
use crate::names::{nm, use_text};
use crate::skipping::{Due, skip_over};
use dy_grammar::TOO_DEEP;
use dy_syntax::{Expr, Nm, Quote, Tuple, UseText};
use dy_term::Text;
use std::alloc::Global;

/// An expression too deep to be built: only its place is kept.
#[tactic(auto, using(crate::proofs::Grammars::Deep::deep_exprs))]
fn deep_expr<'a>(alloc: Global, tokens: &Cursor<'a>) -> Result<(Expr, Cursor<'a>), Fault>
    ensures { Gives (λ x. (expr_of x.0, x.1)) result (at (One (AnExpr TOO_DEEP)) tokens.now) }
{
    let Some((token, _)) = tokens.first() else {
        return Err(tokens.fault());
    };
    let rest = skip_over(alloc, Due::Expr, tokens)?;
    let text = Text::new(b"").unwrap();
    let nothing = Quote {
        text,
        line: token.line,
    };
    Ok((Expr::Lit(nothing), rest))
}

/// An expression at this level.
#[cycle(expression)]
#[tactic(auto, using(dy_grammar::proofs::Levels::exprs_are_built))]
pub(crate) fn expr<'a>(
    alloc: Global,
    level: u8,
    tokens: &Cursor<'a>,
) -> Result<(Expr, Cursor<'a>), Fault>
    requires { level ≤ TOO_DEEP }
    ensures { Gives (λ x. (expr_of x.0, x.1)) result (at (One (AnExpr level)) tokens.now) }
{
    if level == TOO_DEEP {
        deep_expr(alloc, tokens)
    } else {
        built_expr(alloc, level, tokens)
    }
}

/// An expression at a level that is built.
#[cycle(expression)]
#[tactic(auto, unfolding(dy_grammar::specs::Mirrors::Machine::token_at, dy_grammar::specs::Mirrors::Machine::token_value_if))]
fn built_expr<'a>(
    alloc: Global,
    level: u8,
    tokens: &Cursor<'a>,
) -> Result<(Expr, Cursor<'a>), Fault>
    requires { level < TOO_DEEP }
    ensures { Gives (λ x. (expr_of x.0, x.1)) result
        (by_these meant.Expr (table.expr_rules_with (level + 1) built) tokens.now) }
{
    let Some((token, rest)) = tokens.first() else {
        return Err(tokens.fault());
    };
    let line = token.line;
    if is_word(token, b"self") {
        return Ok((Expr::Nm(Nm::Me { line }), rest));
    }
    if is_word(token, b"pair") {
        return pair(alloc, level, line, &rest);
    }
    if is_word(token, b"pk") {
        return pk(line, &rest);
    }
    if is_word(token, b"vk") {
        return vk(line, &rest);
    }
    if is_word(token, b"penc") {
        return penc(alloc, level, line, &rest);
    }
    if is_word(token, b"aead") {
        return aead(alloc, level, line, &rest);
    }
    if is_word(token, b"sign") {
        return sign(alloc, level, line, &rest);
    }
    if is_word(token, b"mac") {
        return mac(alloc, level, line, &rest);
    }
    if is_word(token, b"kdf") {
        return kdf(alloc, level, line, &rest);
    }
    if is_word(token, b"hash") {
        return hash(alloc, level, line, &rest);
    }
    if let Some(quote) = text_of(token) {
        return text_or_tuple(alloc, level, quote, &rest);
    }
    a_name(tokens)
}

/// A name.
#[tactic(auto, unfolding(dy_grammar::specs::Mirrors::Machine::token_at, dy_grammar::specs::Mirrors::Machine::token_value_if))]
fn a_name<'a>(tokens: &Cursor<'a>) -> Result<(Expr, Cursor<'a>), Fault>
    ensures { Gives (λ x. (expr_of x.0, x.1)) result
        (by_these meant.Expr (table.name_rule built ∷ []) tokens.now) }
{
    let (id, rest) = tokens.name()?;
    Ok((Expr::Nm(Nm::Named(id)), rest))
}

/// A text, or a tuple where fields follow.
#[cycle(expression)]
#[tactic(auto, using(crate::proofs::Grammars::Rows::row_of_args))]
fn text_or_tuple<'a>(
    alloc: Global,
    level: u8,
    quote: Quote,
    tokens: &Cursor<'a>,
) -> Result<(Expr, Cursor<'a>), Fault>
    requires { level < TOO_DEEP }
    ensures { Gives (λ x. (expr_of x.0, x.1)) result
        (after_first (table.text_rule (level + 1) built) (quote_of quote) tokens.now) }
{
    let (args, rest) = fields(alloc, level + 1, tokens)?;
    match args {
        Some(args) => Ok((Expr::Tuple(Tuple { tag: quote, args }), rest)),
        None => Ok((Expr::Lit(quote), rest)),
    }
}

/// The fields of a tuple, which may be left out.
#[cycle(expression)]
#[tactic(auto, using(dy_grammar::proofs::Stepwise::at_is_by_rules), unfolding(dy_grammar::specs::Grammar::rules, crate::specs::Mirrors::Lists::after_mark))]
fn fields<'a>(
    alloc: Global,
    level: u8,
    tokens: &Cursor<'a>,
) -> Result<(Option<Vec<Expr>>, Cursor<'a>), Fault>
    requires { level ≤ TOO_DEEP }
    ensures { Gives (λ x. (option_map (λ v. map expr_of v.items) x.0, x.1)) result
        (at (MaybeListed (AnExpr level)) tokens.now) }
{
    if let Some(rest) = tokens.after(b"(") {
        let (args, rest) = exprs(alloc, level, &rest)?;
        return Ok((Some(args), rest));
    }
    Ok((None, tokens.copy()))
}

/// Expressions with commas between them, and `)`.
#[cycle(expression)]
#[tactic(auto, using(crate::proofs::Grammars::Lists::commas_is))]
pub(crate) fn exprs<'a>(
    alloc: Global,
    level: u8,
    tokens: &Cursor<'a>,
) -> Result<(Vec<Expr>, Cursor<'a>), Fault>
    requires { level ≤ TOO_DEEP }
    ensures { Gives (λ x. (map expr_of x.0.items, x.1)) result
        (at (Commas (AnExpr level)) tokens.now) }
{
    let mut found = Vec::new(alloc);
    if let Some(rest) = tokens.after(b")") {
        return Ok((found, rest));
    }
    let (first, rest) = expr(alloc, level, tokens)?;
    found.push(first)?;
    more_exprs(alloc, level, found, &rest)
}

/// These expressions, and the rest of them up to `)`.
#[cycle(expression)]
fn more_exprs<'a>(
    alloc: Global,
    level: u8,
    prefix: Vec<Expr>,
    tokens: &Cursor<'a>,
) -> Result<(Vec<Expr>, Cursor<'a>), Fault>
    requires { level ≤ TOO_DEEP }
    ensures { Gives (λ x. (map expr_of x.0.items, x.1)) result
        (with_prefix (map expr_of prefix.items) (rest_at rests.Parentheses (AnExpr level) tokens.now)) }
{
    let mut found = prefix;
    let mut left = tokens.copy();
    'items: loop {
        if let Some(rest) = left.after(b")") {
            return Ok((found, rest));
        }
        let (item, rest) = next_expr(alloc, level, &left)?;
        found.push(item)?;
        left = rest;
    }
}

/// A comma, and an expression.
#[cycle(expression)]
fn next_expr<'a>(alloc: Global, level: u8, tokens: &Cursor<'a>) -> Result<(Expr, Cursor<'a>), Fault>
    requires { level ≤ TOO_DEEP }
    ensures { Gives (λ x. (expr_of x.0, x.1)) result
        (next_at rests.Parentheses (AnExpr level) tokens.now) }
{
    let (_, rest) = tokens.mark(b",")?;
    expr(alloc, level, &rest)
}

/// A public key, whose word `pk` is read, on this line.
fn pk<'a>(line: u32, tokens: &Cursor<'a>) -> Result<(Expr, Cursor<'a>), Fault>
    ensures { Gives (λ x. (expr_of x.0, x.1)) result (after_first (table.pk_rule built) line tokens.now) }
{
    let (_, rest) = tokens.mark(b"(")?;
    let (key, rest) = nm(&rest)?;
    let (_, rest) = rest.mark(b")")?;
    Ok((Expr::Pk(line, key), rest))
}

/// A verification key, whose word `vk` is read, on this line.
fn vk<'a>(line: u32, tokens: &Cursor<'a>) -> Result<(Expr, Cursor<'a>), Fault>
    ensures { Gives (λ x. (expr_of x.0, x.1)) result (after_first (table.vk_rule built) line tokens.now) }
{
    let (_, rest) = tokens.mark(b"(")?;
    let (key, rest) = nm(&rest)?;
    let (_, rest) = rest.mark(b")")?;
    Ok((Expr::Vk(line, key), rest))
}

/// Two expressions, whose word `pair` is read, on this line.
#[cycle(expression)]
fn pair<'a>(
    alloc: Global,
    level: u8,
    line: u32,
    tokens: &Cursor<'a>,
) -> Result<(Expr, Cursor<'a>), Fault>
    requires { level < TOO_DEEP }
    ensures { Gives (λ x. (expr_of x.0, x.1)) result
        (after_first (table.pair_rule (level + 1) built) line tokens.now) }
{
    let (_, rest) = tokens.mark(b"(")?;
    let (first, rest) = expr(alloc, level + 1, &rest)?;
    let (_, rest) = rest.mark(b",")?;
    let (second, rest) = expr(alloc, level + 1, &rest)?;
    let (_, rest) = rest.mark(b")")?;
    let first = Box::new(alloc, first)?;
    let second = Box::new(alloc, second)?;
    Ok((Expr::Pair(line, first, second), rest))
}

/// A tuple under a public key, whose word `penc` is read, on this line.
#[cycle(expression)]
#[tactic(auto, using(crate::proofs::Grammars::Rows::row_of_args))]
fn penc<'a>(
    alloc: Global,
    level: u8,
    line: u32,
    tokens: &Cursor<'a>,
) -> Result<(Expr, Cursor<'a>), Fault>
    requires { level < TOO_DEEP }
    ensures { Gives (λ x. (expr_of x.0, x.1)) result
        (after_first (table.penc_rule (level + 1) built) line tokens.now) }
{
    let (_, rest) = tokens.mark(b"(")?;
    let (key, rest) = nm(&rest)?;
    let (_, rest) = rest.word(b"using")?;
    let (usage, rest) = use_text(alloc, &rest)?;
    let (_, rest) = rest.mark(b",")?;
    let (tag, rest) = rest.text()?;
    let (_, rest) = rest.mark(b"(")?;
    let (args, rest) = exprs(alloc, level + 1, &rest)?;
    let (_, rest) = rest.mark(b")")?;
    Ok((Expr::Penc(line, key, usage, Tuple { tag, args }), rest))
}

/// A sealed tuple, with its associated data, whose word `aead` is read, on this line.
#[cycle(expression)]
#[tactic(auto, using(crate::proofs::Grammars::Rows::row_of_args))]
fn aead<'a>(
    alloc: Global,
    level: u8,
    line: u32,
    tokens: &Cursor<'a>,
) -> Result<(Expr, Cursor<'a>), Fault>
    requires { level < TOO_DEEP }
    ensures { Gives (λ x. (expr_of x.0, x.1)) result
        (after_first (table.aead_rule (level + 1) built) line tokens.now) }
{
    let (_, rest) = tokens.mark(b"(")?;
    let (key, rest) = nm(&rest)?;
    let (_, rest) = rest.word(b"using")?;
    let (usage, rest) = use_text(alloc, &rest)?;
    let (_, rest) = rest.mark(b",")?;
    let (tag, rest) = rest.text()?;
    let (_, rest) = rest.mark(b"(")?;
    let (args, rest) = exprs(alloc, level + 1, &rest)?;
    with_data(alloc, level, line, key, usage, Tuple { tag, args }, &rest)
}

/// A sealed tuple of these parts, with the associated data that is next.
#[cycle(expression)]
#[tactic(auto)]
fn with_data<'a>(
    alloc: Global,
    level: u8,
    line: u32,
    key: Nm,
    usage: UseText,
    tuple: Tuple,
    tokens: &Cursor<'a>,
) -> Result<(Expr, Cursor<'a>), Fault>
    requires { level < TOO_DEEP }
    ensures { Gives (λ x. (expr_of x.0, x.1)) result
        (syms_at meant.Expr (table.comma ∷ table.one (AnExpr (level + 1)) ∷ table.right_paren ∷ [])
        (λ ad. meant.Aead line (nm_of key) (use_of usage) (quote_of tuple.tag) (args_of tuple) ad) tokens.now) }
{
    let (_, rest) = tokens.mark(b",")?;
    let (ad, rest) = expr(alloc, level + 1, &rest)?;
    let (_, rest) = rest.mark(b")")?;
    let ad = Box::new(alloc, ad)?;
    Ok((Expr::Aead(line, key, usage, tuple, ad), rest))
}

/// A signed tuple, whose word `sign` is read, on this line.
#[cycle(expression)]
#[tactic(auto, using(crate::proofs::Grammars::Rows::row_of_args))]
fn sign<'a>(
    alloc: Global,
    level: u8,
    line: u32,
    tokens: &Cursor<'a>,
) -> Result<(Expr, Cursor<'a>), Fault>
    requires { level < TOO_DEEP }
    ensures { Gives (λ x. (expr_of x.0, x.1)) result
        (after_first (table.sign_rule (level + 1) built) line tokens.now) }
{
    let (_, rest) = tokens.mark(b"(")?;
    let (key, rest) = nm(&rest)?;
    let (_, rest) = rest.word(b"using")?;
    let (usage, rest) = use_text(alloc, &rest)?;
    let (_, rest) = rest.mark(b",")?;
    let (tag, rest) = rest.text()?;
    let (_, rest) = rest.mark(b"(")?;
    let (args, rest) = exprs(alloc, level + 1, &rest)?;
    let (_, rest) = rest.mark(b")")?;
    Ok((Expr::Sign(line, key, usage, Tuple { tag, args }), rest))
}

/// A tuple with its code, whose word `mac` is read, on this line.
#[cycle(expression)]
#[tactic(auto, using(crate::proofs::Grammars::Rows::row_of_args))]
fn mac<'a>(
    alloc: Global,
    level: u8,
    line: u32,
    tokens: &Cursor<'a>,
) -> Result<(Expr, Cursor<'a>), Fault>
    requires { level < TOO_DEEP }
    ensures { Gives (λ x. (expr_of x.0, x.1)) result
        (after_first (table.mac_rule (level + 1) built) line tokens.now) }
{
    let (_, rest) = tokens.mark(b"(")?;
    let (key, rest) = nm(&rest)?;
    let (_, rest) = rest.word(b"using")?;
    let (usage, rest) = use_text(alloc, &rest)?;
    let (_, rest) = rest.mark(b",")?;
    let (tag, rest) = rest.text()?;
    let (_, rest) = rest.mark(b"(")?;
    let (args, rest) = exprs(alloc, level + 1, &rest)?;
    let (_, rest) = rest.mark(b")")?;
    Ok((Expr::Mac(line, key, usage, Tuple { tag, args }), rest))
}

/// A derived key, whose word `kdf` is read, on this line.
#[cycle(expression)]
fn kdf<'a>(
    alloc: Global,
    level: u8,
    line: u32,
    tokens: &Cursor<'a>,
) -> Result<(Expr, Cursor<'a>), Fault>
    requires { level < TOO_DEEP }
    ensures { Gives (λ x. (expr_of x.0, x.1)) result
        (after_first (table.kdf_rule (level + 1) built) line tokens.now) }
{
    let (_, rest) = tokens.mark(b"(")?;
    let (key, rest) = nm(&rest)?;
    let (_, rest) = rest.mark(b",")?;
    let (context, rest) = rest.text()?;
    let (_, rest) = rest.mark(b",")?;
    let (input, rest) = expr(alloc, level + 1, &rest)?;
    let (_, rest) = rest.mark(b")")?;
    let input = Box::new(alloc, input)?;
    Ok((Expr::Kdf(line, key, context, input), rest))
}

/// A hash, whose word `hash` is read, on this line.
#[cycle(expression)]
fn hash<'a>(
    alloc: Global,
    level: u8,
    line: u32,
    tokens: &Cursor<'a>,
) -> Result<(Expr, Cursor<'a>), Fault>
    requires { level < TOO_DEEP }
    ensures { Gives (λ x. (expr_of x.0, x.1)) result
        (after_first (table.hash_rule (level + 1) built) line tokens.now) }
{
    let (_, rest) = tokens.mark(b"(")?;
    let (message, rest) = expr(alloc, level + 1, &rest)?;
    let (_, rest) = rest.mark(b")")?;
    let message = Box::new(alloc, message)?;
    Ok((Expr::Hash(line, message), rest))
}
