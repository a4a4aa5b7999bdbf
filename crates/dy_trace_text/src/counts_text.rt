//! The line of the counts of a trace.
ghost use Rattle.std.specs.Prelude.{◌≡◌, ◌++◌, IfOk};
ghost use Rattle.dy_entry.specs.Meaning.{counts_of};
ghost use Rattle.dy_trace_text.specs.CountsText.{counts_text, count_parts};
ghost use Rattle.dy_trace_text.specs.MirrorPages.{put_parts};

use crate::pages::Page;
use dy_entry::Counts;
use dy_term::Memory;
use std::alloc::Global;

/// The line of the counts that begins with the word, which is `total` or `snapshot`. The one refusal is out of memory.
pub fn write_counts(alloc: Global, word: &[u8], counts: &Counts) -> Result<Vec<u8>, Memory>
    ensures { IfOk result (λ text. text.items ≡ counts_text word.now (counts_of counts.now)) }
{
    let mut page = Page::new(alloc);
    put_counts(&mut page, word, counts)?;
    Ok(page.into_bytes())
}

/// Adds the line of the counts.
pub(crate) fn put_counts(page: &mut Page, word: &[u8], counts: &Counts) -> Result<(), Memory>
    ensures { IfOk result (λ _. page.new ≡ page.old ++ counts_text word.now (counts_of counts.now)) }
{
    page.put(word)?;
    put_count_parts(page, counts)?;
    page.put(b"\n")
}

/// Adds the parts of the line after its word.
fn put_count_parts(page: &mut Page, counts: &Counts) -> Result<(), Memory>
    ensures { IfOk result (λ _. page.new ≡ put_parts page.old (count_parts (counts_of counts.now))) }
{
    page.put_number_part(counts.total)?;
    page.put_named(b"start", counts.start)?;
    page.put_named(b"fresh", counts.fresh)?;
    page.put_named(b"message", counts.message)?;
    page.put_named(b"state", counts.state)?;
    page.put_named(b"event", counts.event)?;
    page.put_named(b"cert", counts.cert)?;
    page.put_named(b"done", counts.done)?;
    page.put_named(b"stopped", counts.stopped)?;
    page.put_named(b"corrupt", counts.corrupt)?;
    page.put_named(b"forge", counts.forge)?;
    page.put_named(b"inject", counts.inject)?;
    page.put_named(b"skip", counts.skip)
}
