ghost use Rattle.std.specs.Prelude.{◌≡◌, ◌+◌, [], ◌++◌, length, OnOk, OnErr};
ghost use Rattle.std.specs.List.{All};
ghost use Rattle.dy_chains.specs.Rules.{IsBelow};
ghost use Rattle.dy_chains.specs.Chains.{Grows};

use crate::reasons::Reason;
use dy_chains::{Chain, Rule};
use dy_term::Memory;
use std::alloc::Global;

/// A chain of rules, and why each of them holds.
#[derive(Drop)]
pub(crate) struct ReasonedChain {
    pub(crate) chain: Chain,
    pub(crate) reasons: Vec<Reason>,
    ghost each: { length reasons.items ≡ length chain.rules },
}

impl ReasonedChain {
    /// A chain of no facts and no rules.
    pub(crate) fn new(alloc: Global) -> ReasonedChain
        ensures chain { result.chain ≡ record { facts = 0; rules = []; log = [] } }
        ensures reasons { result.reasons.items ≡ [] }
    {
        ReasonedChain {
            chain: Chain::new(alloc),
            reasons: Vec::new(alloc),
        }
    }

    /// Adds so many facts, and rules with a reason each. It refuses out of memory alone.
    pub(crate) fn add(
        &mut self,
        facts: u32,
        rules: &[Rule],
        reasons: &[Reason],
    ) -> Result<(), Memory>
        requires below { All (IsBelow (self.old.chain.facts + facts)) rules.now }
        requires each { length reasons.now ≡ length rules.now }
        ensures chain { OnOk result (Grows self.old.chain self.new.chain facts rules.now) }
        ensures reasons { OnOk result (self.new.reasons.items ≡ self.old.reasons.items ++ reasons.now) }
        ensures same_chain { OnErr result (self.new.chain ≡ self.old.chain) }
        ensures same_reasons { OnErr result (self.new.reasons.items ≡ self.old.reasons.items) }
    {
        self.reasons.reserve(reasons.len())?;
        self.chain.add(facts, rules)?;
        // There is room for the reasons.
        let _ = self.reasons.extend_from_slice(reasons);
        Ok(())
    }
}
