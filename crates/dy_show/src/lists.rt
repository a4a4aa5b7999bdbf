//! Lists of items.
#![tactic(auto, using(crate::proofs::Writing::put_all_append))]

ghost use Rattle.std.specs.Prelude.{◌≡◌, ℕ, List, map, codes, IfOk};
ghost use Rattle.std.specs.List.{flat_map};
ghost use Rattle.dy_grammar.specs.Parts.{Item, ItemValue};
ghost use Rattle.dy_show.specs.Canonical as c;
ghost use Rattle.dy_show.specs.MirrorPages.{put, put_all, tokens_of, separator};

use crate::pages::Page;
use std::alloc::AllocError;

/// A part of a file that lists are made of.
pub(crate) trait Shown {
    ghost item: { Item };

    ghost view: { Self → ItemValue item };

    fn write(&self, page: &mut Page) -> Result<(), AllocError>
        ensures { IfOk result (λ _. page.new ≡ put_all page.old (tokens_of item (view self.now))) };
}

/// A comma, but not before the first item.
pub(crate) fn separate(page: &mut Page, is_first: bool) -> Result<(), AllocError>
    ensures { IfOk result (λ _. page.new ≡ put_all page.old (separator is_first)) }
{
    if is_first { Ok(()) } else { page.mark(b",") }
}

/// Items with commas between them, and the symbol that ends the list.
pub(crate) fn comma_list<T: Shown>(
    page: &mut Page,
    end: &[u8],
    items: &[T],
) -> Result<(), AllocError>
    ensures { IfOk result (λ _. page.new
        ≡ put_all page.old (c.comma_list (c.mark end.now) (tokens_of T.item) (map T.view items.now))) }
{
    let mut is_first = true;
    for item in items {
        separate(page, is_first)?;
        is_first = false;
        item.write(page)?;
    }
    page.mark(end)?;
    Ok(())
}

/// Items with commas between them, and `)`.
pub(crate) fn commas<T: Shown>(page: &mut Page, items: &[T]) -> Result<(), AllocError>
    ensures { IfOk result (λ _. page.new ≡ put_all page.old (c.commas (tokens_of T.item) (map T.view items.now))) }
{
    comma_list(page, b")", items)
}

/// Nothing, or a word and items with commas between them, and `;`.
#[tactic(auto, unfolding(crate::specs::Canonical::list_end))]
pub(crate) fn list_end<T: Shown>(
    page: &mut Page,
    word: &[u8],
    items: &[T],
) -> Result<(), AllocError>
    ensures { IfOk result (λ _. page.new
        ≡ put_all page.old (c.list_end word.now (tokens_of T.item) (map T.view items.now))) }
{
    match items {
        [] => page.mark(b";"),
        [_, ..] => {
            page.word(word)?;
            comma_list(page, b";", items)
        }
    }
}

/// Items, one after another.
pub(crate) fn all<T: Shown>(page: &mut Page, items: &[T]) -> Result<(), AllocError>
    ensures { IfOk result (λ _. page.new ≡ put_all page.old (flat_map (tokens_of T.item) (map T.view items.now))) }
{
    for item in items {
        item.write(page)?;
    }
    Ok(())
}
