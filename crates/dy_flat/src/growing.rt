ghost use Rattle.dy_flat.specs.MirrorIndexes.{Indexes};

use crate::contents::Contents;
use crate::flat_nodes::Node;
use crate::indexing::Index;
use crate::lent_nodes::LentNode;
use crate::places::place;
use dy_term::{Memory, Text, Word};
use std::alloc::Global;

/// Contents to which texts and names are added, and where each of them is found.
#[derive(Debug, Drop)]
pub(crate) struct Growing {
    pub(crate) contents: Contents,
    texts: Index,
    names: Index,
    ghost texts_found: { Indexes (λ text. text) contents.texts.items texts },
    ghost names_found: { Indexes (λ name. name) contents.names.items names },
}

impl Growing {
    ghost use Rattle.std.specs.Prelude.{◌≡◌, [], Some, slice_get, IfOk};
    ghost use Rattle.dy_flat.specs.Growth.{Grows};
    ghost use Rattle.dy_flat.specs.Meaning.{read};
    ghost use Rattle.dy_flat.specs.NodeMeaning.{node_of};

    pub(crate) fn new(alloc: Global) -> Growing
        ensures texts { result.contents.texts.items ≡ [] }
        ensures names { result.contents.names.items ≡ [] }
    {
        Growing {
            contents: Contents::new(alloc),
            texts: Index::new(alloc),
            names: Index::new(alloc),
        }
    }

    /// The contents alone.
    pub(crate) fn into_contents(self) -> Contents
        ensures { result ≡ self.contents }
    {
        let Growing { contents, .. } = self;
        contents
    }

    /// The place of a text, which is added where it does not stand yet.
    pub(crate) fn place_text(&mut self, text: &Text) -> Result<u32, Memory>
        ensures place { IfOk result (λ place. slice_get self.new.contents.texts.items place ≡ Some text.now) }
        ensures kept { Grows self.old.contents self.new.contents }
    {
        place(&mut self.contents.texts, &mut self.texts, text)
    }

    /// The place of a name, which is added where it does not stand yet.
    pub(crate) fn place_name(&mut self, name: &Word) -> Result<u32, Memory>
        ensures place { IfOk result (λ place. slice_get self.new.contents.names.items place ≡ Some name.now) }
        ensures kept { Grows self.old.contents self.new.contents }
    {
        place(&mut self.contents.names, &mut self.names, name)
    }

    /// The node with the place of its text or name, which is added where it does not stand yet.
    #[tactic(auto, using(crate::proofs::Lookups::grows_by_none))]
    pub(crate) fn place_node(&mut self, node: LentNode) -> Result<Node, Memory>
        ensures node { IfOk result (λ placed. read self.new.contents placed ≡ Some (node_of node.entry)) }
        ensures kept { Grows self.old.contents self.new.contents }
    {
        match node {
            LentNode::Lit(text) => Ok(Node::Lit(self.place_text(text)?)),
            LentNode::Name(name) => Ok(Node::Name(self.place_name(name)?)),
            LentNode::Nonce(index) => Ok(Node::Nonce(index)),
            LentNode::Pair(before) => Ok(Node::Pair(before)),
            LentNode::Pk => Ok(Node::Pk),
            LentNode::Vk => Ok(Node::Vk),
            LentNode::Penc(before) => Ok(Node::Penc(before)),
            LentNode::Aead(before) => Ok(Node::Aead(before)),
            LentNode::Sign(before) => Ok(Node::Sign(before)),
            LentNode::Mac(before) => Ok(Node::Mac(before)),
            LentNode::Kdf(context) => Ok(Node::Kdf(self.place_text(context)?)),
            LentNode::Hash => Ok(Node::Hash),
        }
    }
}
