ghost use Rattle.std.specs.Prelude.{◌≡◌, ◌+◌, ◌-◌, ◌≤◌, [], ◌++◌, length, drop, slice_get, vec_len, vec_capacity};
ghost use Rattle.std.specs.List.{cons_option};
ghost use Rattle.std.specs.Option.{option_and_then};
ghost use Rattle.dy_derive.specs.MirrorNonces.{nonce_of_node, nonces_in};

use crate::deductions::Deductions;
use crate::nodes::Node;
use dy_chains::Step;
use indexmap::IndexSet;

/// The nonce whose number this is, if it is that of a nonce.
fn nonce_at(nodes: &IndexSet<Node>, number: u32) -> Option<u32>
    ensures { result ≡ option_and_then nonce_of_node (slice_get nodes.now.keys number) }
{
    match nodes.get_index(number as usize)? {
        Node::Nonce(index) => Some(*index),
        _ => None,
    }
}

/// Adds what was found, if something was. There is room for it.
fn push_found(nonces: &mut Vec<u32>, found: Option<u32>)
    requires { vec_len nonces.old + 1 ≤ vec_capacity nonces.old }
    ensures items { nonces.new.items ≡ nonces.old.items ++ cons_option found [] }
    ensures one { vec_len nonces.new ≤ vec_len nonces.old + 1 }
    ensures capacity { vec_capacity nonces.new ≡ vec_capacity nonces.old }
{
    if let Some(index) = found {
        nonces.push_reserved(index);
    }
}

/// Adds the nonces of these steps, for which there is room.
fn push_each(nonces: &mut Vec<u32>, nodes: &IndexSet<Node>, steps: &[Step])
    requires { vec_len nonces.old + length steps.now ≤ vec_capacity nonces.old }
    ensures { nonces.new.items ≡ nonces.old.items ++ nonces_in nodes.now.keys steps.now }
{
    for step in steps {
        push_found(nonces, nonce_at(nodes, step.fact));
    }
}

impl Deductions {
    /// Adds the nonces of the steps of the log from this place on, for which there is room.
    pub(crate) fn push_nonces(&self, nonces: &mut Vec<u32>, seen: usize)
        requires within { seen ≤ length self.now.chain.chain.log }
        requires room { vec_len nonces.old + (length self.now.chain.chain.log - seen) ≤ vec_capacity nonces.old }
        ensures { nonces.new.items
            ≡ nonces.old.items ++ nonces_in self.now.nodes.keys (drop seen self.now.chain.chain.log) }
    {
        push_each(nonces, &self.nodes, &self.chain.chain.log()[seen..]);
    }
}
