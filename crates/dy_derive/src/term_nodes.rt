ghost use Rattle.std.specs.Prelude.{◌≡◌, ◌+◌, ◌<◌, ◌≤◌, length, slice_index, IfOk, OnOk, OnErr};
ghost use Rattle.std.specs.List.{All};
ghost use Rattle.dy_term.specs.Terms.{size};
ghost use Rattle.dy_term.specs.declared.limits.TheConstants.{MAX_NODES};
ghost use Rattle.dy_flat.specs.Views.{tree_of};
ghost use Rattle.dy_flat.specs.StepMeaning.{step_of};
ghost use Rattle.dy_derive.specs.MirrorSteps.{AreEarlier};
ghost use Rattle.dy_derive.specs.MirrorSteps as mirror;

use crate::deductions::Deductions;
use crate::keys::{NameKey, TextKey};
use crate::nodes::Node;
use dy_flat::{Step, View, Walk};
use dy_term::Memory;
use std::alloc::Global;

/// The number at a place, or 0 where there is none.
fn number_at(numbers: &[u32], place: usize) -> u32
    ensures { result ≡ slice_index numbers.now place }
{
    match numbers.get(place) {
        Some(number) => *number,
        None => 0,
    }
}

/// The node of a step of a walk, over the numbers of the nodes of earlier steps.
fn node_of_step(step: Step, numbers: &[u32]) -> Node
    ensures { result ≡ mirror.node_of_step numbers.now (step_of step.entry) }
{
    match step {
        Step::Lit(text) => Node::Lit(TextKey::new(text)),
        Step::Name(principal) => Node::Name(NameKey::new(principal)),
        Step::Nonce(index) => Node::Nonce(index),
        Step::Pair(a, b) => Node::Pair(number_at(numbers, a), number_at(numbers, b)),
        Step::Pk(a) => Node::Pk(number_at(numbers, a)),
        Step::Vk(a) => Node::Vk(number_at(numbers, a)),
        Step::Penc(a, b) => Node::Penc(number_at(numbers, a), number_at(numbers, b)),
        Step::Aead(a, b, c) => Node::Aead(
            number_at(numbers, a),
            number_at(numbers, b),
            number_at(numbers, c),
        ),
        Step::Sign(a, b) => Node::Sign(number_at(numbers, a), number_at(numbers, b)),
        Step::Mac(a, b) => Node::Mac(number_at(numbers, a), number_at(numbers, b)),
        Step::Kdf(a, context, b) => Node::Kdf(
            number_at(numbers, a),
            TextKey::new(context),
            number_at(numbers, b),
        ),
        Step::Hash(a) => Node::Hash(number_at(numbers, a)),
    }
}

impl Deductions {
    ghost use Rattle.dy_derive.specs.Nodes.{IsTermAt};
    ghost use Rattle.dy_derive.specs.MirrorSteps.{AddsTerm, KeepsTerms};
    ghost use Rattle.dy_derive.specs.MirrorKnowledge.{Grows, AreAny};

    /// Adds the node of a step of a walk, and its number. It refuses out of memory alone.
    fn intern_step(&mut self, numbers: &mut Vec<u32>, step: Step) -> Result<(), Memory>
        requires earlier { AreEarlier (length numbers.old.items) (step_of step) }
        requires below { All (λ number. number < length self.old.nodes.keys) numbers.old.items }
        ensures below { OnOk result (All (λ number. number < length self.new.nodes.keys) numbers.new.items) }
        ensures one { OnOk result (length numbers.new.items ≡ length numbers.old.items + 1) }
        ensures ok { OnOk result (AddsTerm self.old self.new numbers.old.items numbers.new.items (step_of step.entry)) }
        ensures err { OnErr result (KeepsTerms self.old self.new numbers.old.items (step_of step.entry)) }
    {
        let node = node_of_step(step, numbers.as_slice());
        let number = self.intern(node)?;
        numbers.push(number)?;
        Ok(())
    }

    /// The number of a term, whose parts and itself are added where they are not there yet. It refuses out of memory
    /// alone.
    pub(crate) fn intern_term(&mut self, alloc: Global, term: View) -> Result<u32, Memory>
        requires { size (tree_of term) ≤ MAX_NODES }
        ensures ok { IfOk result (λ number.
            Grows self.old self.new (λ facts. IsTermAt facts number (tree_of term.entry))) }
        ensures within { IfOk result (λ number. number < length self.new.nodes.keys) }
        ensures err { OnErr result (Grows self.old self.new AreAny) }
    {
        let mut numbers = Vec::new(alloc);
        for step in Walk::over(alloc, term)? {
            self.intern_step(&mut numbers, step)?;
        }
        match numbers.last() {
            Some(number) => Ok(*number),
            None => unreachable!(),
        }
    }
}
