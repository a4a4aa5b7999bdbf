use dy_term::{Text, Word};

/// The constructor of a term, with its content and without its parts.
#[derive(Clone, Copy, Debug)]
pub enum Shape<'a> {
    Lit(&'a Text),
    Name(&'a Word),
    Nonce(u32),
    Pair,
    Pk,
    Vk,
    Penc,
    Aead,
    Sign,
    Mac,
    Kdf(&'a Text),
    Hash,
}
