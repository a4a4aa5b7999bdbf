ghost use Rattle.std.specs.Prelude.{◌≡◌, ◌≢◌, true, false, IfOk};

use crate::word_lists::{copy_words, same_words};
use dy_term::{Memory, Word};
use sqlite_items::Items;
use std::alloc::Global;

/// What a key or a nonce is for.
#[derive(Clone, Copy, Debug, PartialEq, Eq)]
pub enum Kind {
    Nonce,
    /// The decryption key of public-key encryption.
    Pke,
    /// A signing key.
    Sig,
    /// A key of authenticated encryption.
    Aead,
    Mac,
    /// A key that others are derived from.
    Kdf,
}

/// What a value is for: a kind, a name that a file declares, and the principals that it is for.
#[derive(Debug, Drop)]
pub struct Usage {
    pub kind: Kind,
    pub name: Word,
    pub owners: Items<Word>,
}

/// How an instance of a handler ends: after its last statement, or at the statement of this
/// number.
#[derive(Clone, Copy, Debug, PartialEq, Eq)]
pub enum Outcome {
    Done,
    Stopped(u32),
}

impl Usage {
    /// Whether the two are the same usage, with the same owners in the same order.
    pub fn same(&self, other: &Usage) -> bool
        ensures same { result ≡ true → self.now ≡ other.now }
        ensures other { result ≡ false → self.now ≢ other.now }
    {
        self.kind == other.kind
            && self.name.same(&other.name)
            && same_words(self.owners.as_slice(), other.owners.as_slice())
    }

    /// An equal usage, in memory of its own.
    pub fn copy(&self, alloc: Global) -> Result<Usage, Memory>
        ensures { IfOk result (λ usage. usage ≡ self.now) }
    {
        Ok(Usage {
            kind: self.kind,
            name: self.name.copy(),
            owners: copy_words(alloc, self.owners.as_slice())?,
        })
    }
}
