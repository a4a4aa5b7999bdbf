ghost use Rattle.std.specs.Prelude.{◌≡◌, ℕ, List, ◌<◌, ◌≤◌, ◌^◌, length, IfOk, IsErrOf};
ghost use Rattle.dy_term.specs.Meaning.{tree_of};
ghost use Rattle.dy_term.specs.MirrorReader.{nodes_of, state_of};
ghost use Rattle.dy_term.specs.MirrorSteps.{Stops};
ghost use Rattle.dy_term.specs.Terms as trees;
ghost use Rattle.dy_term.specs.TermReading.{IsTextOf, IsBadFrom, StartsWithTerm, StartsWithNone};

use crate::Term;
use crate::limits::MAX_NODES;
use crate::reader::Reader;
use std::alloc::{AllocError, Global};

/// Why bytes are not read as a term.
#[derive(Clone, Copy, Debug, PartialEq, Eq)]
pub enum TermError {
    /// They are no text of a term, and the longest prefix of them that begins one has `at` bytes.
    BadTerm { at: u32 },
    /// They are the text of a term of this many nodes, more than 1,024.
    TooLarge { nodes: u32 },
    Memory,
}

/// The term at the beginning of bytes, and how many of them are its text.
#[derive(Debug, Drop)]
pub struct LeadingTerm {
    pub term: Term,
    pub end: usize,
}

/// Why no term at the beginning of bytes is read.
#[derive(Clone, Copy, Debug, PartialEq, Eq)]
pub enum LeadingError {
    /// The longest prefix of them that begins the text of a term has `at` bytes, and is no text of a term.
    BadTerm { at: u32 },
    /// They begin with the text of a term of this many nodes, more than 1,024. It has `end` bytes.
    TooLarge { nodes: u32, end: usize },
    Memory,
}

impl From<AllocError> for LeadingError {
    ghost use Rattle.std.specs.Prelude.{◌≡◌};
    ghost use Rattle.dy_term.specs.declared.term_reading.LeadingError.TheVariants as code;

    ghost from_gives = { λ _ e. e ≡ code.Memory };

    fn from(_: AllocError) -> LeadingError {
        LeadingError::Memory
    }
}

/// What is answered where no more than so many bytes were read.
fn answer(reader: Reader, end: usize) -> Result<LeadingTerm, LeadingError>
    requires nodes { nodes_of reader < 2 ^ 32 }
    requires end { end < 2 ^ 32 }
    ensures term { (bytes : List ℕ) → Stops MAX_NODES bytes end (state_of reader) →
        IfOk result (λ leading. StartsWithTerm bytes (tree_of leading.term) leading.end) }
    ensures small { (bytes : List ℕ) → Stops MAX_NODES bytes end (state_of reader) →
        IfOk result (λ leading. trees.size (tree_of leading.term) ≤ MAX_NODES) }
    ensures bad { (bytes : List ℕ) → Stops MAX_NODES bytes end (state_of reader) →
        (at : ℕ) → IsErrOf result (LeadingError.BadTerm at) → StartsWithNone bytes at }
    ensures large { (bytes : List ℕ) → Stops MAX_NODES bytes end (state_of reader) →
        (nodes last : ℕ) → IsErrOf result (LeadingError.TooLarge nodes last) →
        (term : trees.Term) × StartsWithTerm bytes term last × (trees.size term ≡ nodes) × (MAX_NODES < nodes) }
{
    match reader.end() {
        Some((Some(term), _)) => Ok(LeadingTerm { term, end }),
        Some((None, nodes)) => Err(LeadingError::TooLarge { nodes, end }),
        None => Err(LeadingError::BadTerm { at: end as u32 }),
    }
}

/// The term of at most 1,024 nodes with which these bytes begin, of which there are fewer than 2^32, and where its
/// text ends. By `term_ends` it ends there wherever neither a letter nor a digit nor `_` follows. A deep text takes
/// memory, and no deep calls.
pub fn read_leading_term(alloc: Global, bytes: &[u8]) -> Result<LeadingTerm, LeadingError>
    requires { length bytes.now < 2 ^ 32 }
    ensures term { IfOk result (λ leading. StartsWithTerm bytes.now (tree_of leading.term) leading.end) }
    ensures small { IfOk result (λ leading. trees.size (tree_of leading.term) ≤ MAX_NODES) }
    ensures bad { (at : ℕ) → IsErrOf result (LeadingError.BadTerm at) → StartsWithNone bytes.now at }
    ensures large { (nodes end : ℕ) → IsErrOf result (LeadingError.TooLarge nodes end) →
        (term : trees.Term) × StartsWithTerm bytes.now term end × (trees.size term ≡ nodes) × (MAX_NODES < nodes) }
{
    let mut reader = Reader::new(alloc);
    for (at, byte) in bytes.iter().enumerate() {
        if reader.ends_before(*byte) {
            return answer(reader, at);
        }
        let Some(next) = reader.step(alloc, *byte)? else {
            return Err(LeadingError::BadTerm { at: at as u32 });
        };
        reader = next;
    }
    answer(reader, bytes.len())
}

/// The term of at most 1,024 nodes whose text these bytes are, of which there are fewer than 2^32.
/// A deep text takes memory, and no deep calls.
pub fn read_term(alloc: Global, bytes: &[u8]) -> Result<Term, TermError>
    requires { length bytes.now < 2 ^ 32 }
    ensures term { IfOk result (λ term. IsTextOf (tree_of term) bytes.now) }
    ensures small { IfOk result (λ term. trees.size (tree_of term) ≤ MAX_NODES) }
    ensures bad { (at : ℕ) → IsErrOf result (TermError.BadTerm at) → IsBadFrom bytes.now at }
    ensures large { (nodes : ℕ) → IsErrOf result (TermError.TooLarge nodes) →
        (term : trees.Term) × IsTextOf term bytes.now × (trees.size term ≡ nodes) × (MAX_NODES < nodes) }
{
    match read_leading_term(alloc, bytes) {
        Ok(LeadingTerm { term, end }) if end == bytes.len() => Ok(term),
        Ok(LeadingTerm { term: _, end }) => Err(TermError::BadTerm { at: end as u32 }),
        Err(LeadingError::BadTerm { at }) => Err(TermError::BadTerm { at }),
        Err(LeadingError::TooLarge { nodes, end }) if end == bytes.len() => Err(
            TermError::TooLarge { nodes },
        ),
        Err(LeadingError::TooLarge { nodes: _, end }) => Err(TermError::BadTerm { at: end as u32 }),
        Err(LeadingError::Memory) => Err(TermError::Memory),
    }
}
