ghost use Rattle.std.specs.Prelude.{◌≡◌, ◌+◌, ◌++◌, ◌∷◌, ◌≤◌, [], suc, length, codes, Some, None, IfSome, IfNone, if◌then◌else◌};
ghost use Rattle.std.specs.Option.{option_map};
ghost use Rattle.dy_lex.specs.Tokens.{piece_of};
ghost use Rattle.dy_grammar.specs.declared.limits.TheConstants.{TOO_DEEP};
ghost use Rattle.dy_grammar.specs.Parts.{One, ANm, AUse, AnInner, AnExpr, ARecipe};
ghost use Rattle.dy_parse.specs.Mirrors.Skipping as skipping;
ghost use Rattle.dy_parse.specs.Mirrors.Skipping.{sym_of, syms_of, more_for, after_sym, items_for, GoesOn, IsOther, Skips};
ghost use Rattle.dy_grammar.specs.Terminals.{This, accepts};
ghost use Rattle.dy_grammar.specs.Mirrors.Machine.{skip};

use crate::cursor::{Cursor, Fault, is_free_word, is_mark, is_number, is_text, is_word};
use dy_lex::{Token, TokenKind};
use std::alloc::Global;

/// What is due where parts stand too deep to be built.
#[derive(Clone, Copy)]
pub(crate) enum Due {
    Opening,
    Comma,
    Closing,
    Dot,
    Using,
    Name,
    Text,
    Number,
    Nm,
    Use,
    /// Names and `)`.
    Nms,
    /// Names with a comma before each, and `)`.
    MoreNms,
    Label,
    Expr,
    /// Expressions and `)`.
    Exprs,
    MoreExprs,
    /// The fields of a tuple, which may be left out.
    Fields,
    Recipe,
    /// Recipes and `)`.
    Recipes,
    MoreRecipes,
    /// The parts of a tuple, which may be left out.
    Parts,
}

/// What follows the first token of a name or `self`.
#[tactic(auto, unfolding(dy_grammar::specs::Grammar::rules, dy_grammar::specs::Grammar::item_rules, crate::specs::Mirrors::Skipping::more_for))]
fn after_nm(token: &Token<'_>) -> Option<&'static [Due]>
    ensures more { option_map (λ more. syms_of more.now) result ≡ more_for (One ANm) (piece_of token.now) }
    ensures few { IfSome result (λ more. length more.now ≤ 11) }
{
    if is_word(token, b"self") || is_free_word(token) {
        Some(&[])
    } else {
        None
    }
}

/// What follows the first token of a usage with its arguments.
#[tactic(auto, unfolding(dy_grammar::specs::Grammar::rules, dy_grammar::specs::Grammar::item_rules, crate::specs::Mirrors::Skipping::more_for))]
fn after_use(token: &Token<'_>) -> Option<&'static [Due]>
    ensures more { option_map (λ more. syms_of more.now) result ≡ more_for (One AUse) (piece_of token.now) }
    ensures few { IfSome result (λ more. length more.now ≤ 11) }
{
    if is_free_word(token) {
        Some(&[Due::Nms, Due::Opening])
    } else {
        None
    }
}

/// What follows the first token of a label.
#[tactic(auto, unfolding(dy_grammar::specs::Grammar::rules, dy_grammar::specs::Grammar::item_rules, crate::specs::Mirrors::Skipping::more_for))]
fn after_label(token: &Token<'_>) -> Option<&'static [Due]>
    ensures more { option_map (λ more. syms_of more.now) result
        ≡ more_for (One (AnInner TOO_DEEP)) (piece_of token.now) }
    ensures few { IfSome result (λ more. length more.now ≤ 11) }
{
    if is_word(token, b"self")
        || is_word(token, b"nobody")
        || is_word(token, b"session")
        || is_word(token, b"next")
        || is_word(token, b"prior")
        || is_word(token, b"here")
    {
        return Some(&[]);
    }
    if is_word(token, b"join") || is_word(token, b"meet") {
        return Some(&[
            Due::Closing,
            Due::Label,
            Due::Comma,
            Due::Label,
            Due::Opening,
        ]);
    }
    if is_free_word(token) { Some(&[]) } else { None }
}

/// What follows the first token of an expression.
#[tactic(auto, unfolding(dy_grammar::specs::Grammar::rules, dy_grammar::specs::Grammar::item_rules, crate::specs::Mirrors::Skipping::more_for))]
fn after_expr(token: &Token<'_>) -> Option<&'static [Due]>
    ensures more { option_map (λ more. syms_of more.now) result
        ≡ more_for (One (AnExpr TOO_DEEP)) (piece_of token.now) }
    ensures few { IfSome result (λ more. length more.now ≤ 11) }
{
    if is_word(token, b"self") {
        return Some(&[]);
    }
    if is_word(token, b"pair") {
        return Some(&[Due::Closing, Due::Expr, Due::Comma, Due::Expr, Due::Opening]);
    }
    if is_word(token, b"pk") || is_word(token, b"vk") {
        return Some(&[Due::Closing, Due::Nm, Due::Opening]);
    }
    if is_word(token, b"penc") {
        return Some(&[
            Due::Closing,
            Due::Exprs,
            Due::Opening,
            Due::Text,
            Due::Comma,
            Due::Use,
            Due::Using,
            Due::Nm,
            Due::Opening,
        ]);
    }
    if is_word(token, b"aead") {
        return Some(&[
            Due::Closing,
            Due::Expr,
            Due::Comma,
            Due::Exprs,
            Due::Opening,
            Due::Text,
            Due::Comma,
            Due::Use,
            Due::Using,
            Due::Nm,
            Due::Opening,
        ]);
    }
    if is_word(token, b"sign") || is_word(token, b"mac") {
        return Some(&[
            Due::Closing,
            Due::Exprs,
            Due::Opening,
            Due::Text,
            Due::Comma,
            Due::Use,
            Due::Using,
            Due::Nm,
            Due::Opening,
        ]);
    }
    if is_word(token, b"kdf") {
        return Some(&[
            Due::Closing,
            Due::Expr,
            Due::Comma,
            Due::Text,
            Due::Comma,
            Due::Nm,
            Due::Opening,
        ]);
    }
    if is_word(token, b"hash") {
        return Some(&[Due::Closing, Due::Expr, Due::Opening]);
    }
    if is_text(token) {
        return Some(&[Due::Fields]);
    }
    if is_free_word(token) { Some(&[]) } else { None }
}

/// What follows the first token of a recipe.
#[tactic(auto, unfolding(dy_grammar::specs::Grammar::rules, dy_grammar::specs::Grammar::item_rules, crate::specs::Mirrors::Skipping::more_for))]
fn after_recipe(token: &Token<'_>) -> Option<&'static [Due]>
    ensures more { option_map (λ more. syms_of more.now) result
        ≡ more_for (One (ARecipe TOO_DEEP)) (piece_of token.now) }
    ensures few { IfSome result (λ more. length more.now ≤ 11) }
{
    const ONE: &[Due] = &[Due::Closing, Due::Recipe, Due::Opening];
    const TWO: &[Due] = &[
        Due::Closing,
        Due::Recipe,
        Due::Comma,
        Due::Recipe,
        Due::Opening,
    ];
    if is_word(token, b"name") {
        return Some(&[Due::Name]);
    }
    if is_word(token, b"msg") || is_word(token, b"cert") {
        return Some(&[Due::Number, Due::Dot, Due::Name]);
    }
    if is_word(token, b"nonce") {
        return Some(&[Due::Name]);
    }
    if is_word(token, b"field") {
        return Some(&[Due::Number, Due::Dot, Due::Number, Due::Dot, Due::Name]);
    }
    if is_word(token, b"pair") {
        return Some(TWO);
    }
    if is_word(token, b"pk") || is_word(token, b"vk") {
        return Some(ONE);
    }
    if is_word(token, b"penc") {
        return Some(TWO);
    }
    if is_word(token, b"aead") {
        return Some(&[
            Due::Closing,
            Due::Recipe,
            Due::Comma,
            Due::Recipe,
            Due::Comma,
            Due::Recipe,
            Due::Opening,
        ]);
    }
    if is_word(token, b"sign") || is_word(token, b"mac") {
        return Some(TWO);
    }
    if is_word(token, b"kdf") {
        return Some(&[
            Due::Closing,
            Due::Recipe,
            Due::Comma,
            Due::Text,
            Due::Comma,
            Due::Recipe,
            Due::Opening,
        ]);
    }
    if is_word(token, b"hash") || is_word(token, b"fst") || is_word(token, b"snd") {
        return Some(ONE);
    }
    if is_word(token, b"pdec") || is_word(token, b"adec") {
        return Some(TWO);
    }
    if is_word(token, b"ad") || is_word(token, b"body") {
        return Some(ONE);
    }
    if is_text(token) {
        Some(&[Due::Parts])
    } else {
        None
    }
}

/// Whether nothing may stand in its place.
fn can_pass(due: Due) -> bool
    ensures { result ≡ skipping.can_pass (sym_of due) }
{
    matches!(due, Due::Fields | Due::Parts)
}

/// Nothing more, where the token is the one that is due.
fn only(is_due: bool) -> Option<(&'static [Due], &'static [Due])>
    ensures more { option_map (λ x. syms_of x.1.now ++ syms_of x.0.now) result ≡ (if is_due then Some [] else None) }
    ensures few { IfSome result (λ x. length x.0.now + length x.1.now ≤ 12) }
{
    if is_due { Some((&[], &[])) } else { None }
}

/// What ends a list, or an item and the rest of the list.
fn items(
    token: &Token<'_>,
    item: Option<&'static [Due]>,
    later: &'static [Due],
) -> Option<(&'static [Due], &'static [Due])>
    ensures more { option_map (λ x. syms_of x.1.now ++ syms_of x.0.now) result
        ≡ items_for (accepts (This TokenKind.Symbol (codes ")")) (piece_of token.now))
        (option_map (λ m. syms_of m.now) item.entry) (syms_of later.now) }
    ensures few { IfSome item.entry (λ m. length m.now ≤ 11) → length later.now ≤ 1
        → IfSome result (λ x. length x.0.now + length x.1.now ≤ 12) }
{
    if is_mark(token, b")") {
        return Some((&[], &[]));
    }
    match item {
        Some(more) => Some((later, more)),
        None => None,
    }
}

/// What ends a list, or a comma and what follows it.
fn more(token: &Token<'_>, item: &'static [Due]) -> Option<(&'static [Due], &'static [Due])>
    ensures more { option_map (λ x. syms_of x.1.now ++ syms_of x.0.now) result
        ≡ (if accepts (This TokenKind.Symbol (codes ")")) (piece_of token.now) then Some []
        else if accepts (This TokenKind.Symbol (codes ",")) (piece_of token.now)
        then Some (syms_of item.now) else None) }
    ensures few { length item.now ≤ 2 → IfSome result (λ x. length x.0.now + length x.1.now ≤ 12) }
{
    if is_mark(token, b")") {
        return Some((&[], &[]));
    }
    if is_mark(token, b",") {
        return Some((&[], item));
    }
    None
}

/// What follows `(`.
fn if_opening(token: &Token<'_>, parts: &'static [Due]) -> Option<&'static [Due]>
    ensures more { option_map (λ more. syms_of more.now) result
        ≡ (if accepts (This TokenKind.Symbol (codes "(")) (piece_of token.now)
        then Some (syms_of parts.now) else None) }
    ensures few { length parts.now ≤ 1 → IfSome result (λ more. length more.now ≤ 11) }
{
    if is_mark(token, b"(") {
        Some(parts)
    } else {
        None
    }
}

/// What follows in a rule.
fn alone(more: Option<&'static [Due]>) -> Option<(&'static [Due], &'static [Due])>
    ensures more { option_map (λ x. syms_of x.1.now ++ syms_of x.0.now) result
        ≡ option_map (λ m. syms_of m.now) more.entry }
    ensures few { IfSome more.entry (λ m. length m.now ≤ 11) →
        IfSome result (λ x. length x.0.now + length x.1.now ≤ 12) }
{
    match more {
        Some(more) => Some((&[], more)),
        None => None,
    }
}

/// What follows the token in what is due, each part the last first: the second part comes before
/// the first.
#[tactic(auto, using(crate::proofs::Grammars::Skipping::commas_more), unfolding(dy_grammar::specs::Grammar::rules, crate::specs::Mirrors::Skipping::more_for))]
fn after_due(due: Due, token: &Token<'_>) -> Option<(&'static [Due], &'static [Due])>
    ensures more { option_map (λ x. syms_of x.1.now ++ syms_of x.0.now) result
        ≡ after_sym (sym_of due) (piece_of token.now) }
    ensures few { IfSome result (λ x. length x.0.now + length x.1.now ≤ 12) }
{
    match due {
        Due::Opening => only(is_mark(token, b"(")),
        Due::Comma => only(is_mark(token, b",")),
        Due::Closing => only(is_mark(token, b")")),
        Due::Dot => only(is_mark(token, b".")),
        Due::Using => only(is_word(token, b"using")),
        Due::Name => only(is_free_word(token)),
        Due::Text => only(is_text(token)),
        Due::Number => only(is_number(token)),
        Due::Nm => alone(after_nm(token)),
        Due::Use => alone(after_use(token)),
        Due::Label => alone(after_label(token)),
        Due::Expr => alone(after_expr(token)),
        Due::Recipe => alone(after_recipe(token)),
        Due::Nms => items(token, after_nm(token), &[Due::MoreNms]),
        Due::Exprs => items(token, after_expr(token), &[Due::MoreExprs]),
        Due::Recipes => items(token, after_recipe(token), &[Due::MoreRecipes]),
        Due::MoreNms => more(token, &[Due::MoreNms, Due::Nm]),
        Due::MoreExprs => more(token, &[Due::MoreExprs, Due::Expr]),
        Due::MoreRecipes => more(token, &[Due::MoreRecipes, Due::Recipe]),
        Due::Fields => alone(if_opening(token, &[Due::Exprs])),
        Due::Parts => alone(if_opening(token, &[Due::Recipes])),
    }
}

/// What is due after the first token, each part the last first: the second part comes before the
/// first. And the tokens after it. `None` where the token does not belong to what is due.
fn advance<'a>(
    due: Due,
    tokens: &Cursor<'a>,
) -> Option<(&'static [Due], &'static [Due], Cursor<'a>)>
    ensures some { IfSome result (λ x. GoesOn due tokens.now x.0.now x.1.now x.2) }
    ensures few { IfSome result (λ x. length x.0.now + length x.1.now ≤ 12) }
    ensures shorter { IfSome result (λ x. length tokens.now ≡ suc (length x.2)) }
    ensures none { IfNone result (IsOther (sym_of due) tokens.now) }
{
    let Some((token, rest)) = tokens.first() else {
        return None;
    };
    match after_due(due, token) {
        Some((later, more)) => Some((later, more, rest)),
        None => None,
    }
}

/// Reads on by the grammar up to the end of what is due, and builds nothing.
pub(crate) fn skip_over<'a>(
    alloc: Global,
    due: Due,
    tokens: &Cursor<'a>,
) -> Result<Cursor<'a>, Fault>
    ensures { Skips result (skip tokens.now (sym_of due ∷ [])) }
{
    let mut stack = Vec::new(alloc);
    stack.push(due)?;
    let mut left = tokens.copy();
    'dues: while let Some(next) = stack.pop() {
        match advance(next, &left) {
            Some((later, more, rest)) => {
                stack.extend_from_slice(later)?;
                stack.extend_from_slice(more)?;
                left = rest;
            }
            None if can_pass(next) => {}
            None => return Err(left.fault()),
        }
    }
    Ok(left)
}
