use crate::flat::build;
use crate::{Leaves, ROUNDS, out_of_memory};
use std::io;
use std::time::{Duration, Instant};

/// How long it took to copy a term, and as many bytes as it has.
#[derive(Drop)]
pub(crate) struct Times {
    pub(crate) terms: Duration,
    pub(crate) bytes: Duration,
}

/// Nodes of 8 bytes, of which there are 1,023, and 512 texts of 33.
const BYTES: usize = 8 * 1023 + 33 * 512;

pub(crate) fn measure(rt: &HostRuntime) -> io::Result<Times> {
    let mut term = build(rt.alloc(), Leaves::Literals).map_err(out_of_memory)?;
    let start = Instant::now(rt)?;
    for _ in 0..ROUNDS {
        term = term.copy(rt.alloc()).map_err(out_of_memory)?;
    }
    let terms = start.elapsed(rt)?;
    let mut bytes = vec![in rt.alloc(); 1u8; BYTES]?;
    let start = Instant::now(rt)?;
    for _ in 0..ROUNDS {
        bytes = bytes.clone()?;
    }
    let copies = start.elapsed(rt)?;
    Ok(Times {
        terms,
        bytes: copies,
    })
}
