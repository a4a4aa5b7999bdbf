//! The text of a trace.
ghost use Rattle.std.specs.Prelude.{◌≡◌, IfOk};
ghost use Rattle.dy_entry.specs.Meaning.{entries_of};
ghost use Rattle.dy_trace_text.specs.TraceText.{trace_text, HasText};

use crate::counts_text::put_counts;
use crate::entry_text::put_line;
use crate::pages::Page;
use dy_entry::{Entry, counts};
use dy_term::Memory;
use std::alloc::Global;

/// The text of a trace of fewer than 2^32 entries. The first of them, and no other, is the `Setup`, of fewer than 2^32
/// bytes, and each value has at most 1,024 nodes. The one refusal is out of memory.
#[tactic(auto, using(crate::proofs::Lines::lines_more))]
pub fn write_trace(alloc: Global, entries: &[Entry]) -> Result<Vec<u8>, Memory>
    requires { HasText (entries_of entries.now) }
    ensures { IfOk result (λ text. text.items ≡ trace_text (entries_of entries.now)) }
{
    let mut page = Page::new(alloc);
    for (index, entry) in entries.iter().enumerate() {
        put_line(alloc, &mut page, index, entry)?;
    }
    put_counts(&mut page, b"total", &counts(entries))?;
    Ok(page.into_bytes())
}
