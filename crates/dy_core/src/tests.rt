use super::*;
use dy_entry::Entry;
use dy_term::Word;
use sqlite_items::Items;
use std::alloc::Global;

mod answers;
mod attacks;

fn open(alloc: Global, source: &[u8]) -> Result<Book, OpenError> {
    let Ok(input) = source.to_vec(alloc) else {
        return Err(OpenError::Memory);
    };
    if input.len() > 1_000_000 {
        return Err(OpenError::Memory);
    }
    Book::open(alloc, input)
}

/// What comes of starting the instance of a step, or `None` where the step does not fit the file.
fn start(book: &mut Book, step: StartStep) -> Option<Started> {
    if !book.asks_right(&step) {
        return None;
    }
    Some(book.start(step))
}
