use crate::{Leaves, ROUNDS, Times, out_of_memory, text};
use dy_flat::{FlatTerm, View, first, lit, nonce, pair, pk, second};
use dy_term::Memory;
use std::alloc::Global;
use std::io;
use std::time::Instant;

/// A leaf of this number. Of mixed leaves the one of number 0 has a key around it, so that the nodes are 1,024.
fn leaf(alloc: Global, leaves: Leaves, number: u32) -> Result<FlatTerm, Memory> {
    match leaves {
        Leaves::Mixed if number == 0 => pk(alloc, nonce(alloc, number)?.whole()),
        Leaves::Mixed if number % 2 == 0 => nonce(alloc, number),
        _ => lit(alloc, &text(alloc, leaves, number)?),
    }
}

/// The pairs of neighbours. Of an odd number the last is left out.
fn pairs(alloc: Global, level: &[FlatTerm]) -> Result<Vec<FlatTerm>, Memory> {
    let mut level_above = Vec::new(alloc);
    for two in level.chunks_exact(2) {
        if let [a, b] = two {
            let both = pair(alloc, a.whole(), b.whole())?;
            if level_above.push(both).is_err() {
                return Err(Memory);
            }
        }
    }
    Ok(level_above)
}

/// 512 leaves in pairs of pairs.
pub(crate) fn build(alloc: Global, leaves: Leaves) -> Result<FlatTerm, Memory> {
    let mut level = Vec::new(alloc);
    for number in 0..512 {
        if level.push(leaf(alloc, leaves, number)?).is_err() {
            return Err(Memory);
        }
    }
    for _ in 0..9 {
        level = pairs(alloc, &level)?;
    }
    match level.pop() {
        Some(term) => Ok(term),
        None => Err(Memory),
    }
}

/// How many parts a term has that are no pairs, by going through it.
fn leaves(alloc: Global, term: View) -> Result<u32, Memory> {
    let mut found = 0u32;
    let mut rest = Vec::new(alloc);
    let mut next = Some(term);
    for _ in 0..1024 {
        let Some(term) = next else {
            break;
        };
        match (first(term), second(term)) {
            (Some(one), Some(two)) => {
                if rest.push(two).is_err() {
                    return Err(Memory);
                }
                next = Some(one);
            }
            _ => {
                found = found.saturating_add(1);
                next = rest.pop();
            }
        }
    }
    Ok(found)
}

pub(crate) fn measure(rt: &HostRuntime, kind: Leaves) -> io::Result<Times> {
    let start = Instant::now(rt)?;
    let mut term = build(rt.alloc(), kind).map_err(out_of_memory)?;
    for _ in 1..ROUNDS {
        term = build(rt.alloc(), kind).map_err(out_of_memory)?;
    }
    let building = start.elapsed(rt)?;
    let start = Instant::now(rt)?;
    let mut found = 0u64;
    let whole = term.whole();
    for _ in 0..ROUNDS {
        let once = leaves(rt.alloc(), whole).map_err(out_of_memory)?;
        found = found.saturating_add(u64::from(once));
    }
    let parting = start.elapsed(rt)?;
    Ok(Times {
        building,
        parting,
        found,
    })
}
