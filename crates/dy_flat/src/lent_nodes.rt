ghost use Rattle.std.specs.Prelude.{◌≡◌, Some, IsSome};
ghost use Rattle.dy_flat.specs.Meaning.{read};
ghost use Rattle.dy_flat.specs.NodeMeaning.{node_of};

use crate::contents::Contents;
use crate::flat_nodes::Node;
use dy_term::{Text, Word};

/// A node of a term, without its parts, with its text or name lent.
#[derive(Clone, Copy)]
pub(crate) enum LentNode<'a> {
    Lit(&'a Text),
    Name(&'a Word),
    Nonce(u32),
    Pair(u32),
    Pk,
    Vk,
    Penc(u32),
    Aead(u32),
    Sign(u32),
    Mac(u32),
    Kdf(&'a Text),
    Hash,
}

/// Lends the text or name that a node has in these contents.
pub(crate) fn lend<'a>(node: Node, contents: &'a Contents) -> LentNode<'a>
    requires { IsSome (read contents.now node) }
    ensures { read contents.now node ≡ Some (node_of result) }
{
    match node {
        Node::Lit(place) => LentNode::Lit(contents.text(place)),
        Node::Name(place) => LentNode::Name(contents.name(place)),
        Node::Nonce(index) => LentNode::Nonce(index),
        Node::Pair(before) => LentNode::Pair(before),
        Node::Pk => LentNode::Pk,
        Node::Vk => LentNode::Vk,
        Node::Penc(before) => LentNode::Penc(before),
        Node::Aead(before) => LentNode::Aead(before),
        Node::Sign(before) => LentNode::Sign(before),
        Node::Mac(before) => LentNode::Mac(before),
        Node::Kdf(place) => LentNode::Kdf(contents.text(place)),
        Node::Hash => LentNode::Hash,
    }
}
