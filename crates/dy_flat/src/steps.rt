use dy_term::{Text, Word};

/// A constructor with its content, and in the place of each part the number of an earlier step of a walk.
#[derive(Clone, Copy, Debug)]
pub enum Step<'a> {
    Lit(&'a Text),
    Name(&'a Word),
    Nonce(u32),
    Pair(usize, usize),
    Pk(usize),
    Vk(usize),
    Penc(usize, usize),
    Aead(usize, usize, usize),
    Sign(usize, usize),
    Mac(usize, usize),
    Kdf(usize, &'a Text, usize),
    Hash(usize),
}
