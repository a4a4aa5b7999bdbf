ghost use Rattle.std.specs.Prelude.{◌≡◌, ℕ, ◌+◌, ◌<◌, ◌^◌, [], ◌∷◌, ◌++◌, length, slice_get, Some, IfSome, IfNone, IfOk, OnOk, OnErr};
ghost use Rattle.std.specs.List.{All};
ghost use Rattle.dy_chains.specs.Rules.{IsBelow};
ghost use Rattle.dy_derive.specs.Nodes.{AreBelow, AreOrdered};
ghost use Rattle.dy_derive.specs.MirrorRules as mirror;

use crate::nodes::Node;
use crate::reasoned_chains::ReasonedChain;
use crate::reasons::Reason;
use crate::rules::rules_of;
use dy_chains::Rule;
use dy_term::Memory;
use indexmap::IndexSet;
use std::alloc::Global;

/// The different parts of what was given, each once, and the rules by which they are derived. The number of a node is
/// that of its fact.
#[derive(Drop)]
pub(crate) struct Deductions {
    pub(crate) nodes: IndexSet<Node>,
    pub(crate) chain: ReasonedChain,
    ghost facts: { chain.chain.facts ≡ length nodes.keys },
    ghost few: { length nodes.keys < 2 ^ 32 },
    ghost ordered: { AreOrdered nodes.keys },
}

fn as_number(count: usize) -> Result<u32, Memory>
    ensures { IfOk result (λ number. number ≡ count) }
{
    match u32::try_from(count) {
        Ok(number) => Ok(number),
        Err(_) => Err(Memory),
    }
}

impl Deductions {
    ghost use Rattle.std.specs.Prelude.{map, ◌≤◌};
    ghost use Rattle.dy_chains.specs.Chains.{IsChain};
    ghost use Rattle.dy_derive.specs.MirrorKnowledge.{IsDeduced, Adds, AddsRules, Interns, IsUnchanged};

    /// No nodes and no rules.
    pub(crate) fn new(alloc: Global) -> Deductions
        ensures { IsDeduced result [] [] }
    {
        Deductions {
            nodes: IndexSet::new(alloc),
            chain: ReasonedChain::new(alloc),
        }
    }

    /// The number of a node, or `None` where it is not there.
    pub(crate) fn find(&self, node: &Node) -> Option<u32>
        ensures found { IfSome result (λ number. slice_get self.now.nodes.keys number ≡ Some node.now) }
        ensures missing { IfNone result ((number : ℕ) → slice_get self.now.nodes.keys number ≡ Some node.now → ⊥) }
    {
        match self.nodes.get_index_of(node) {
            Some(number) => Some(number as u32),
            None => None,
        }
    }

    /// The key that opens a node, if it is public-key encryption to the public key of one.
    fn decryption_key(&self, node: &Node) -> Option<u32>
        ensures { result ≡ mirror.decryption_key self.now.nodes.keys node.now }
    {
        let Node::Penc(to, _) = node else {
            return None;
        };
        match self.nodes.get_index(*to as usize)? {
            Node::Pk(key) => Some(*key),
            _ => None,
        }
    }

    /// Adds a node that is not there yet, whose parts are, with its rules. It refuses out of memory alone.
    fn add(&mut self, node: Node) -> Result<u32, Memory>
        requires parts { AreBelow (length self.old.nodes.keys) node }
        requires new { (number : ℕ) → slice_get self.old.nodes.keys number ≡ Some node → ⊥ }
        ensures ok { IfOk result (λ number. Adds self.old self.new node number) }
        ensures err { OnErr result (IsUnchanged self.old self.new) }
    {
        let count = as_number(self.nodes.len() + 1)?;
        let number = count - 1;
        let few = rules_of(number, self.decryption_key(&node), &node);
        self.nodes.reserve(1)?;
        self.chain
            .add(1, &few.rules[..few.count], &few.reasons[..few.count])?;
        // There is room for the node.
        let _ = self.nodes.insert(node);
        Ok(number)
    }

    /// The number of a node, which is added where it is not there yet. It refuses out of memory alone.
    pub(crate) fn intern(&mut self, node: Node) -> Result<u32, Memory>
        requires parts { AreBelow (length self.old.nodes.keys) node }
        ensures ok { IfOk result (λ number. Interns self.old self.new node number) }
        ensures within { IfOk result (λ number. number < length self.new.nodes.keys) }
        ensures err { OnErr result (IsUnchanged self.old self.new) }
    {
        match self.find(&node) {
            Some(number) => Ok(number),
            None => self.add(node),
        }
    }

    /// Adds rules, which speak of nodes that are there, and a reason for each. It refuses out of memory alone.
    pub(crate) fn add_rules(&mut self, rules: &[Rule], reasons: &[Reason]) -> Result<(), Memory>
        requires below { All (IsBelow (length self.old.nodes.keys)) rules.now }
        requires each { length reasons.now ≡ length rules.now }
        ensures ok { OnOk result (AddsRules self.old self.new rules.now reasons.now) }
        ensures err { OnErr result (IsUnchanged self.old self.new) }
    {
        self.chain.add(0, rules, reasons)
    }

    /// How many steps the log has, which are no more than the nodes.
    pub(crate) fn log_len(&self) -> usize
        ensures value { result ≡ length self.now.chain.chain.log }
        ensures within { result ≤ length self.now.nodes.keys }
        ensures chain { IsChain self.now.chain.chain }
    {
        self.chain.chain.log().len()
    }
}
