ghost use Rattle.std.specs.Prelude.{◌≡◌, ◌<◌, ◌≤◌, Some, IsSome, length, drop, reverse, slice_index_or};
ghost use Rattle.std.specs.Prelude.{vec_len, vec_capacity};
ghost use Rattle.std.specs.Option.{option_map};
ghost use Rattle.dy_flat.specs.Meaning.{read, arity};
ghost use Rattle.dy_flat.specs.StepMeaning.{step_of};
ghost use Rattle.dy_flat.specs.MirrorWalks.{Unused, Unused-prop, step_over, first_number, without};

use crate::contents::Contents;
use crate::flat_nodes::Node;
use crate::steps::Step;
use crate::views::View;
use dy_term::Memory;
use std::alloc::Global;

/// A walk over the nodes of a lent term, from the last to the first. It gives each part after its own parts, and the
/// whole term last. Its steps count from 0.
#[derive(Drop)]
pub struct Walk<'a> {
    view: View<'a>,
    /// How many nodes, of the first, are left.
    left: usize,
    /// The numbers of the steps that no later step had as a part, the first part of the next step last.
    unused: Vec<usize>,
    ghost within: { left ≤ length view.nodes.now },
    ghost room: { length view.nodes.now ≤ vec_capacity unused },
    ghost numbers: { Unused unused.items view.nodes.now left } by { Unused-prop unused.items view.nodes.now left },
}

fn node_at(nodes: &[Node], at: usize) -> Node
    requires { at < length nodes.now }
    ensures { result ≡ slice_index_or nodes.now at (Node.Lit 0) }
{
    nodes[at]
}

/// Takes the number of the next part.
fn take_number(unused: &mut Vec<usize>) -> usize
    ensures number { result ≡ first_number (reverse unused.old.items) }
    ensures left { reverse unused.new.items ≡ drop 1 (reverse unused.old.items) }
    ensures capacity { vec_capacity unused.new ≡ vec_capacity unused.old }
    ensures len { vec_len unused.new ≤ vec_len unused.old }
{
    unused.pop().unwrap_or(0)
}

/// The step of a node. It takes the numbers of its parts.
fn step_at<'a>(node: Node, contents: &'a Contents, unused: &mut Vec<usize>) -> Step<'a>
    requires { IsSome (read contents.now node) }
    ensures step { option_map (λ n. step_over n (reverse unused.old.items)) (read contents.now node)
        ≡ Some (step_of result) }
    ensures left { reverse unused.new.items ≡ without (arity node) (reverse unused.old.items) }
    ensures capacity { vec_capacity unused.new ≡ vec_capacity unused.old }
    ensures len { vec_len unused.new ≤ vec_len unused.old }
{
    match node {
        Node::Lit(place) => Step::Lit(contents.text(place)),
        Node::Name(place) => Step::Name(contents.name(place)),
        Node::Nonce(index) => Step::Nonce(index),
        Node::Pair(_) => {
            let first = take_number(unused);
            let second = take_number(unused);
            Step::Pair(first, second)
        }
        Node::Pk => Step::Pk(take_number(unused)),
        Node::Vk => Step::Vk(take_number(unused)),
        Node::Penc(_) => {
            let to = take_number(unused);
            let message = take_number(unused);
            Step::Penc(to, message)
        }
        Node::Aead(_) => {
            let key = take_number(unused);
            let message = take_number(unused);
            let associated = take_number(unused);
            Step::Aead(key, message, associated)
        }
        Node::Sign(_) => {
            let key = take_number(unused);
            let message = take_number(unused);
            Step::Sign(key, message)
        }
        Node::Mac(_) => {
            let key = take_number(unused);
            let message = take_number(unused);
            Step::Mac(key, message)
        }
        Node::Kdf(place) => {
            let key = take_number(unused);
            let input = take_number(unused);
            Step::Kdf(key, contents.text(place), input)
        }
        Node::Hash => Step::Hash(take_number(unused)),
    }
}

impl<'a> Walk<'a> {
    ghost use Rattle.std.specs.Prelude.{◌≡◌, IfOk};
    ghost use Rattle.dy_flat.specs.Walks.{steps_of};
    ghost use Rattle.dy_flat.specs.Views.{tree_of};
    ghost use Rattle.dy_flat.specs.WalkMeaning.{steps_left};

    /// A walk over the parts of a term and then the term. It keeps room for a number of each node. The one refusal is
    /// out of memory.
    pub fn over(alloc: Global, view: View<'a>) -> Result<Walk<'a>, Memory>
        ensures { IfOk result (λ walk. steps_left walk ≡ steps_of (tree_of view.entry)) }
    {
        let left = view.nodes.len();
        let unused = Vec::with_capacity(alloc, left)?;
        Ok(Walk { view, left, unused })
    }
}

impl<'a> Iterator for Walk<'a> {
    ghost use Rattle.std.specs.Iterator.{YieldsFirstBy, item_count};
    ghost use Rattle.dy_flat.specs.StepMeaning.{step_of};
    ghost use Rattle.dy_flat.specs.WalkMeaning.{steps_left};

    type Item = Step<'a>;

    ghost next_gives = { YieldsFirstBy step_of steps_left };

    ghost remaining = { item_count steps_left };

    fn next(&mut self) -> Option<Step<'a>> {
        if self.left == 0 {
            return None;
        }
        let view = self.view;
        let at = self.left - 1;
        let number = view.nodes.len() - self.left;
        let node = node_at(view.nodes, at);
        let step = step_at(node, view.contents, &mut self.unused);
        // There is room for a number of each node.
        let _ = self.unused.push(number);
        self.left = at;
        Some(step)
    }
}
