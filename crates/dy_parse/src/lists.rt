ghost use Rattle.std.specs.Prelude.{◌≡◌, List, map};
ghost use Rattle.dy_grammar.specs.Parts.{Item, ItemValue, One, ManyTo, Commas};
ghost use Rattle.dy_grammar.specs.Mirrors.Machine.{at};
ghost use Rattle.dy_parse.specs.Mirrors.Lists.{after_mark, rest_at, rest_mark, next_at, with_prefix, in_parentheses_at};
ghost use Rattle.dy_parse.specs.Mirrors.Gives.{Gives};

use crate::cursor::{Cursor, Fault};
use sqlite_items::Items;
use std::alloc::Global;

/// The rest of a list, by what ends it.
#[derive(Clone, Copy)]
pub(crate) enum Rest {
    /// Items up to `}`.
    Braces,
    /// Items with a comma before each, up to `)`.
    Parentheses,
    /// Items with a comma before each, up to `;`.
    Semicolon,
}

/// A part of a file that lists are made of.
pub(crate) trait Listed: Drop + Sized {
    ghost item: { Item };

    ghost view: { Self → ItemValue item };

    fn read<'a>(alloc: Global, tokens: &Cursor<'a>) -> Result<(Self, Cursor<'a>), Fault>
        ensures { Gives (λ x. (view x.0, x.1)) result (at (One item) tokens.now) };
}

/// What is left after the end of a list, if it stands here.
fn after_end<'a>(kind: Rest, tokens: &Cursor<'a>) -> Option<Cursor<'a>>
    ensures { result ≡ after_mark (rest_mark kind) tokens.now }
{
    match kind {
        Rest::Braces => tokens.after(b"}"),
        Rest::Parentheses => tokens.after(b")"),
        Rest::Semicolon => tokens.after(b";"),
    }
}

/// The next item of a list.
fn next<'a, P: Listed>(
    alloc: Global,
    kind: Rest,
    tokens: &Cursor<'a>,
) -> Result<(P, Cursor<'a>), Fault>
    ensures { Gives (λ x. (P.view x.0, x.1)) result (next_at kind P.item tokens.now) }
{
    match kind {
        Rest::Braces => P::read(alloc, tokens),
        Rest::Parentheses | Rest::Semicolon => {
            let (_, rest) = tokens.mark(b",")?;
            P::read(alloc, &rest)
        }
    }
}

/// These items, and the rest of the list.
pub(crate) fn read_rest<'a, P: Listed>(
    alloc: Global,
    kind: Rest,
    prefix: Items<P>,
    tokens: &Cursor<'a>,
) -> Result<(Items<P>, Cursor<'a>), Fault>
    ensures { Gives (λ x. (map P.view x.0, x.1)) result
        (with_prefix (map P.view prefix) (rest_at kind P.item tokens.now)) }
{
    let mut found = prefix;
    let mut left = tokens.copy();
    'items: loop {
        if let Some(rest) = after_end(kind, &left) {
            return Ok((found, rest));
        }
        let (item, rest) = next(alloc, kind, &left)?;
        found.push(item)?;
        left = rest;
    }
}

/// Items up to `}`.
#[tactic(auto, using(crate::proofs::Grammars::Lists::prefixed_nothing))]
pub(crate) fn many<'a, P: Listed>(
    alloc: Global,
    tokens: &Cursor<'a>,
) -> Result<(Items<P>, Cursor<'a>), Fault>
    ensures { Gives (λ x. (map P.view x.0, x.1)) result (at (ManyTo P.item) tokens.now) }
{
    read_rest(alloc, Rest::Braces, Items::new(alloc), tokens)
}

/// Items with commas between them, and `)`.
#[tactic(auto, using(crate::proofs::Grammars::Lists::commas_is))]
pub(crate) fn commas<'a, P: Listed>(
    alloc: Global,
    tokens: &Cursor<'a>,
) -> Result<(Items<P>, Cursor<'a>), Fault>
    ensures { Gives (λ x. (map P.view x.0, x.1)) result (at (Commas P.item) tokens.now) }
{
    let mut found = Items::new(alloc);
    if let Some(rest) = tokens.after(b")") {
        return Ok((found, rest));
    }
    let (first, rest) = P::read(alloc, tokens)?;
    found.push(first)?;
    read_rest(alloc, Rest::Parentheses, found, &rest)
}

/// Items in parentheses, with commas between them.
pub(crate) fn in_parentheses<'a, P: Listed>(
    alloc: Global,
    tokens: &Cursor<'a>,
) -> Result<(Items<P>, Cursor<'a>), Fault>
    ensures { Gives (λ x. (map P.view x.0, x.1)) result
        (in_parentheses_at P.item tokens.now) }
{
    let (_, rest) = tokens.mark(b"(")?;
    commas(alloc, &rest)
}
