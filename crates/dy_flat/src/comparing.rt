ghost use Rattle.std.specs.Prelude.{◌≡◌, ◌≢◌, true, false, IsSome};
ghost use Rattle.dy_term.specs.Sameness.{is_same};
ghost use Rattle.dy_flat.specs.Meaning.{read};
ghost use Rattle.dy_flat.specs.Views.{tree_of};

use crate::contents::Contents;
use crate::flat_nodes::Node;
use crate::views::View;
use dy_term::sameness_is_equality;

/// Whether two nodes, each of its contents, are the same.
fn same_node(a: &Contents, m: Node, b: &Contents, n: Node) -> bool
    requires left { IsSome (read a.now m) }
    requires right { IsSome (read b.now n) }
    ensures same { result ≡ true → read a.now m ≡ read b.now n }
    ensures other { result ≡ false → read a.now m ≢ read b.now n }
{
    match (m, n) {
        (Node::Lit(i), Node::Lit(j)) => a.text(i).same(b.text(j)),
        (Node::Name(i), Node::Name(j)) => a.name(i).same(b.name(j)),
        (Node::Kdf(i), Node::Kdf(j)) => a.text(i).same(b.text(j)),
        (Node::Nonce(i), Node::Nonce(j)) => i == j,
        (Node::Pair(i), Node::Pair(j)) => i == j,
        (Node::Penc(i), Node::Penc(j)) => i == j,
        (Node::Aead(i), Node::Aead(j)) => i == j,
        (Node::Sign(i), Node::Sign(j)) => i == j,
        (Node::Mac(i), Node::Mac(j)) => i == j,
        (Node::Pk, Node::Pk) | (Node::Vk, Node::Vk) | (Node::Hash, Node::Hash) => true,
        _ => false,
    }
}

/// Whether the nodes of the two are the same, each beside the other.
fn have_same_nodes(a: View, b: View) -> bool
    ensures same { result ≡ true → tree_of a.entry ≡ tree_of b.entry }
    ensures other { result ≡ false → tree_of a.entry ≢ tree_of b.entry }
{
    if a.nodes.len() != b.nodes.len() {
        return false;
    }
    for (at, node) in a.nodes.iter().enumerate() {
        if !same_node(a.contents, *node, b.contents, b.nodes[at]) {
            return false;
        }
    }
    true
}

/// Whether the two are the same term. `sameness_is_equality` says that they then are equal.
pub fn same(a: View, b: View) -> bool
    ensures { result ≡ is_same (tree_of a.entry) (tree_of b.entry) }
{
    sameness_is_equality();
    have_same_nodes(a, b)
}
