/// Why a fact follows.
#[derive(Clone, Copy, Debug, PartialEq, Eq)]
pub(crate) enum Reason {
    /// A term is built of its parts.
    Built,
    /// The first part of a pair.
    First,
    /// The second part of a pair.
    Second,
    /// The message of public-key encryption, opened with its key.
    Decrypted,
    /// The message of authenticated encryption, opened with its key.
    Opened,
    /// The associated data of authenticated encryption.
    Associated,
    /// The message of a signature.
    Signed,
    /// The value of the message of this index.
    Message(u32),
    /// The key of the certificate of this index.
    Cert(u32),
    /// The nonce that the entry of this index forged.
    Forge(u32),
    /// Of the state of this index, the field of this number, counted from 1.
    Field(u32, u32),
    /// What the entry of this index corrupted.
    Corrupt(u32),
}
