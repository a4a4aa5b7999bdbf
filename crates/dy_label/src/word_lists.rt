ghost use Rattle.std.specs.Prelude.{◌≡◌, ◌≢◌, true, false, IfOk};

use dy_term::{Memory, Word};
use sqlite_items::Items;
use std::alloc::Global;

/// Whether the two lists have the same words in the same order.
pub fn same_words(words: &[Word], others: &[Word]) -> bool
    ensures same { result ≡ true → words.now ≡ others.now }
    ensures other { result ≡ false → words.now ≢ others.now }
{
    if words.len() != others.len() {
        return false;
    }
    for i in 0..words.len() {
        if !words[i].same(&others[i]) {
            return false;
        }
    }
    true
}

/// The same words in memory of their own.
pub fn copy_words(alloc: Global, words: &[Word]) -> Result<Items<Word>, Memory>
    ensures { IfOk result (λ copied. copied ≡ words.now) }
{
    let mut copied = Items::new(alloc);
    for word in words {
        copied.push(word.copy())?;
    }
    Ok(copied)
}
