ghost use Rattle.std.specs.Prelude.{◌≡◌, ◌↔◌, ◌<◌, ◌≤◌, [], ◌∷◌, ◌++◌, length, IfSome, IsSome};

use crate::limits::MAX_LENGTH;
use std::marker::Model;

/// At most 32 bytes, kept in place.
#[derive(Debug, Drop)]
pub(crate) struct Short {
    bytes: [u8; MAX_LENGTH],
    len: u8,
}

impl Model for Short {
    ghost use Rattle.std.specs.Prelude.{ℕ, ◌≤◌, List, take};
    ghost use Rattle.dy_term.specs.declared.limits.TheConstants.{MAX_LENGTH};

    ghost Value = { List ℕ };

    ghost view = { λ s. take s.len s.bytes };

    ghost invariant = { λ s. s.len ≤ MAX_LENGTH };
}

impl Short {
    pub(crate) fn new(bytes: &[u8]) -> Short
        requires { length bytes.now ≤ MAX_LENGTH }
        ensures { result ≡ bytes.now }
    {
        let mut copy = [0; MAX_LENGTH];
        copy[..bytes.len()].copy_from_slice(bytes);
        Short {
            bytes: copy,
            len: bytes.len() as u8,
        }
    }

    /// These bytes and one more, if there is room.
    pub(crate) fn with(&self, byte: u8) -> Option<Short>
        ensures bytes { IfSome result (λ longer. longer ≡ self.now ++ byte ∷ []) }
        ensures room { IsSome result ↔ (length self.now < MAX_LENGTH) }
    {
        let len = self.len as usize;
        if len == MAX_LENGTH {
            return None;
        }
        let mut bytes = self.bytes;
        bytes[len] = byte;
        Some(Short {
            bytes,
            len: self.len + 1,
        })
    }

    pub(crate) fn copy(&self) -> Short
        ensures { result ≡ self.now }
    {
        Short {
            bytes: self.bytes,
            len: self.len,
        }
    }

    pub(crate) fn as_bytes(&self) -> &[u8]
        ensures bytes { result.now ≡ self.now }
        ensures short { length self.now ≤ MAX_LENGTH }
    {
        &self.bytes[..self.len as usize]
    }
}
