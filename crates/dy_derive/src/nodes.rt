use crate::keys::{NameKey, TextKey};

/// A part of what was given, over the numbers of its own parts, or a place that may be corrupted.
#[derive(PartialEq, Eq, Hash, Drop)]
pub(crate) enum Node {
    Lit(TextKey),
    Name(NameKey),
    Nonce(u32),
    Pair(u32, u32),
    Pk(u32),
    Vk(u32),
    Penc(u32, u32),
    Aead(u32, u32, u32),
    Sign(u32, u32),
    Mac(u32, u32),
    Kdf(u32, TextKey, u32),
    Hash(u32),
    /// A principal, of which every value may be corrupted.
    Principal(NameKey),
    /// A session of a principal.
    Session(NameKey, u32),
    /// A version of a session's state.
    Version(NameKey, u32, u32),
}
