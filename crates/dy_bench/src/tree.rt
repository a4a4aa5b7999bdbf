use crate::{Leaves, ROUNDS, Times, out_of_memory, text};
use dy_term::{Memory, Term};
use std::alloc::Global;
use std::io;
use std::time::Instant;

fn in_box(alloc: Global, term: Term) -> Result<Box<Term>, Memory> {
    match Box::new(alloc, term) {
        Ok(boxed) => Ok(boxed),
        Err(_) => Err(Memory),
    }
}

/// A leaf of this number. Of mixed leaves the one of number 0 has a key around it, so that the nodes are 1,024.
fn leaf(alloc: Global, leaves: Leaves, number: u32) -> Result<Term, Memory> {
    match leaves {
        Leaves::Mixed if number == 0 => Ok(Term::Pk(in_box(alloc, Term::Nonce(number))?)),
        Leaves::Mixed if number % 2 == 0 => Ok(Term::Nonce(number)),
        _ => Ok(Term::Lit(text(alloc, leaves, number)?)),
    }
}

/// A copy of a term that is made of pairs, keys, nonces and literals. Others are copied as the nonce 0.
fn copy(alloc: Global, term: &Term) -> Result<Term, Memory> {
    match term {
        Term::Lit(text) => Ok(Term::Lit(text.copy())),
        Term::Nonce(index) => Ok(Term::Nonce(*index)),
        Term::Pk(key) => Ok(Term::Pk(in_box(alloc, copy(alloc, key)?)?)),
        Term::Pair(first, second) => {
            let first = in_box(alloc, copy(alloc, first)?)?;
            let second = in_box(alloc, copy(alloc, second)?)?;
            Ok(Term::Pair(first, second))
        }
        _ => Ok(Term::Nonce(0)),
    }
}

/// The pairs of neighbours, which are copied since they stay. Of an odd number the last is left out.
fn pairs(alloc: Global, level: &[Term]) -> Result<Vec<Term>, Memory> {
    let mut level_above = Vec::new(alloc);
    for two in level.chunks_exact(2) {
        if let [a, b] = two {
            let a = in_box(alloc, copy(alloc, a)?)?;
            let b = in_box(alloc, copy(alloc, b)?)?;
            if level_above.push(Term::Pair(a, b)).is_err() {
                return Err(Memory);
            }
        }
    }
    Ok(level_above)
}

/// 512 leaves in pairs of pairs.
fn build(alloc: Global, leaves: Leaves) -> Result<Term, Memory> {
    let mut level = Vec::new(alloc);
    for number in 0..512 {
        if level.push(leaf(alloc, leaves, number)?).is_err() {
            return Err(Memory);
        }
    }
    for _ in 0..9 {
        level = pairs(alloc, &level)?;
    }
    match level.pop() {
        Some(term) => Ok(term),
        None => Err(Memory),
    }
}

/// How many parts a term has that are no pairs, by going through it.
fn leaves(alloc: Global, term: &Term) -> Result<u32, Memory> {
    let mut found = 0u32;
    let mut rest: Vec<&Term> = Vec::new(alloc);
    let mut next = Some(term);
    for _ in 0..1024 {
        let Some(term) = next else {
            break;
        };
        match term {
            Term::Pair(first, second) => {
                if rest.push(second).is_err() {
                    return Err(Memory);
                }
                next = Some(first);
            }
            _ => {
                found = found.saturating_add(1);
                next = rest.pop();
            }
        }
    }
    Ok(found)
}

pub(crate) fn measure(rt: &HostRuntime, kind: Leaves) -> io::Result<Times> {
    let start = Instant::now(rt)?;
    let mut term = build(rt.alloc(), kind).map_err(out_of_memory)?;
    for _ in 1..ROUNDS {
        term = build(rt.alloc(), kind).map_err(out_of_memory)?;
    }
    let building = start.elapsed(rt)?;
    let start = Instant::now(rt)?;
    let mut found = 0u64;
    for _ in 0..ROUNDS {
        let once = leaves(rt.alloc(), &term).map_err(out_of_memory)?;
        found = found.saturating_add(u64::from(once));
    }
    let parting = start.elapsed(rt)?;
    Ok(Times {
        building,
        parting,
        found,
    })
}
