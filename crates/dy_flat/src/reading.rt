ghost use Rattle.std.specs.Prelude.{◌≡◌, ◌+◌, min};
ghost use Rattle.dy_term.specs.Terms as trees;
ghost use Rattle.dy_flat.specs.Shapes as shapes;
ghost use Rattle.dy_flat.specs.ShapeMeaning.{shape_of};
ghost use Rattle.dy_flat.specs.Views.{tree_of};

use crate::flat_nodes::Node;
use crate::shapes::Shape;
use crate::views::View;
use dy_term::limits::MAX_NODES;

/// The constructor of a term.
pub fn shape<'a>(view: View<'a>) -> Shape<'a>
    ensures { shape_of result ≡ shapes.shape (tree_of view.entry) }
{
    match view.nodes[0] {
        Node::Lit(place) => Shape::Lit(view.contents.text(place)),
        Node::Name(place) => Shape::Name(view.contents.name(place)),
        Node::Nonce(index) => Shape::Nonce(index),
        Node::Pair(_) => Shape::Pair,
        Node::Pk => Shape::Pk,
        Node::Vk => Shape::Vk,
        Node::Penc(_) => Shape::Penc,
        Node::Aead(_) => Shape::Aead,
        Node::Sign(_) => Shape::Sign,
        Node::Mac(_) => Shape::Mac,
        Node::Kdf(place) => Shape::Kdf(view.contents.text(place)),
        Node::Hash => Shape::Hash,
    }
}

/// The number of nodes of a term, or one more than `MAX_NODES` where there are more.
pub fn nodes(view: View) -> u32
    ensures { result ≡ min (trees.size (tree_of view.entry)) (MAX_NODES + 1) }
{
    view.nodes.len().min(MAX_NODES as usize + 1) as u32
}
