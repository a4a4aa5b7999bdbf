//! Lists in parentheses.
ghost use Rattle.std.specs.Prelude.{◌≡◌, ◌++◌, ℕ, List, codes, IfOk};
ghost use Rattle.std.specs.List.{join_by};
ghost use Rattle.dy_trace_text.specs.ListText.{in_parentheses};

use crate::pages::Page;
use crate::term_text::put_term;
use dy_flat::FlatTerm;
use dy_term::{Memory, Word};

/// What a list is made of.
pub(crate) trait Written {
    ghost text: { Self → List ℕ };

    fn write(&self, page: &mut Page) -> Result<(), Memory>
        ensures { IfOk result (λ _. page.new ≡ page.old ++ text self.now) };
}

impl Written for Word {
    ghost text = { λ word. word };

    fn write(&self, page: &mut Page) -> Result<(), Memory> {
        page.put(self.as_bytes())
    }
}

impl Written for FlatTerm {
    ghost use Rattle.dy_term.specs.TermText.{term_text};

    ghost text = { term_text };

    fn write(&self, page: &mut Page) -> Result<(), Memory> {
        put_term(page, self.whole())
    }
}

/// Adds the items in parentheses, with commas between them.
pub(crate) fn put_list<T: Written>(page: &mut Page, items: &[T]) -> Result<(), Memory>
    ensures { IfOk result (λ _. page.new ≡ page.old ++ in_parentheses T.text items.now) }
{
    page.put(b"(")?;
    put_items(page, items)?;
    page.put(b")")
}

/// Adds the items, with commas between them.
fn put_items<T: Written>(page: &mut Page, items: &[T]) -> Result<(), Memory>
    ensures { IfOk result (λ _. page.new ≡ page.old ++ join_by T.text (codes ", ") items.now) }
{
    let Some((first, more)) = items.split_first() else {
        return Ok(());
    };
    first.write(page)?;
    for item in more {
        page.put(b", ")?;
        item.write(page)?;
    }
    Ok(())
}
