ghost use Rattle.std.specs.Prelude.{◌≡◌};
ghost use Rattle.dy_flat.specs.Meaning as meaning;

use std::alloc::AllocError;

/// A node of a term, without its parts, which follow it. The place of its text or name is one in the contents. A node
/// whose parts are lent and are more than one has the number of nodes before the last of them.
#[derive(Copy, Debug)]
pub(crate) enum Node {
    Lit(u32),
    Name(u32),
    Nonce(u32),
    Pair(u32),
    Pk,
    Vk,
    Penc(u32),
    Aead(u32),
    Sign(u32),
    Mac(u32),
    Kdf(u32),
    Hash,
}

impl Clone for Node {
    ghost use Rattle.std.specs.Prelude.{◌≡◌};

    ghost is_clone = { λ node copy. copy ≡ node };

    fn clone(&self) -> Result<Node, AllocError> {
        Ok(*self)
    }
}

/// How many parts a node has.
pub(crate) fn arity(node: Node) -> usize
    ensures { result ≡ meaning.arity node }
{
    match node {
        Node::Lit(_) | Node::Name(_) | Node::Nonce(_) => 0,
        Node::Pk | Node::Vk | Node::Hash => 1,
        Node::Pair(_) | Node::Penc(_) | Node::Sign(_) | Node::Mac(_) | Node::Kdf(_) => 2,
        Node::Aead(_) => 3,
    }
}
