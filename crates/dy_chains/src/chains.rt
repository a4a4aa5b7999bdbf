ghost use Rattle.std.specs.Prelude.{◌≡◌, ◌≤◌, ◌+◌, [], length, ◌↔◌, IsTrue, IsSome, OnOk, OnErr};
ghost use Rattle.std.specs.List.{All};
ghost use Rattle.dy_chains.specs.Rules.{IsBelow, Follows};
ghost use Rattle.dy_chains.specs.Logs.{place_of};
ghost use Rattle.dy_chains.specs.Chains.{IsChain, Grows};

use crate::firing::fire_from;
use crate::growing::{extend_within, make_room};
use crate::logs::{Log, Step};
use crate::rules::Rule;
use crate::watchers::Watchers;
use dy_term::Memory;
use std::alloc::Global;
use std::marker::Model;

/// Numbered facts, rules over them, and the log of what follows. A fact is a number below the count of facts, and a
/// rule is named by its place among the rules.
#[derive(Drop)]
pub struct Chain {
    rules: Vec<Rule>,
    watchers: Watchers,
    log: Log,
}

impl Model for Chain {
    ghost use Rattle.dy_chains.specs.Chains.{Chain};
    ghost use Rattle.dy_chains.specs.MirrorChains.{chain_of, HoldsChain};

    ghost Value = { Chain };

    ghost view = { λ c. chain_of c.log c.rules.items };

    ghost invariant = { λ c. HoldsChain c.log c.rules.items c.watchers };
}

impl Chain {
    /// A chain of no facts and no rules. It takes no memory.
    pub fn new(alloc: Global) -> Chain
        ensures { result ≡ record { facts = 0; rules = []; log = [] } }
    {
        Chain {
            rules: Vec::new(alloc),
            watchers: Watchers::new(alloc),
            log: Log::new(alloc),
        }
    }

    /// Adds so many facts and these rules, which speak of facts of the chain alone, the new ones among them. It refuses
    /// out of memory alone, which it also is where facts or rules would be 2^32 or more. Then all is as before.
    pub fn add(&mut self, facts: u32, rules: &[Rule]) -> Result<(), Memory>
        requires { All (IsBelow (self.old.facts + facts)) rules.now }
        ensures ok { OnOk result (Grows self.old self.new facts rules.now) }
        ensures err { OnErr result (self.new ≡ self.old) }
    {
        let first = self.rules.len();
        make_room(&mut self.rules, rules.len())?;
        self.watchers.add_rules(rules, first as u32)?;
        self.log.grow(facts)?;
        extend_within(&mut self.rules, rules);
        fire_from(&self.rules, first as u32, &self.watchers, &mut self.log);
        Ok(())
    }

    /// Whether the fact follows.
    pub fn has(&self, fact: u32) -> bool
        ensures { IsTrue result ↔ Follows self.now.rules fact }
    {
        self.place(fact).is_some()
    }

    /// Where the fact stands in the log, or `None` where it does not follow.
    pub fn place(&self, fact: u32) -> Option<u32>
        ensures value { result ≡ place_of self.now.log fact }
        ensures exactly { IsSome result ↔ Follows self.now.rules fact }
    {
        self.log.place(fact)
    }

    /// Each fact that follows, once, after those that it follows from.
    pub fn log(&self) -> &[Step]
        ensures value { result.now ≡ self.now.log }
        ensures within { length result.now ≤ self.now.facts }
        ensures chain { IsChain self.now }
    {
        self.log.steps()
    }

    /// How many facts there are.
    pub fn facts(&self) -> u32
        ensures { result ≡ self.now.facts }
    {
        self.log.facts()
    }

    /// The rules, in the order in which they were added.
    pub fn rules(&self) -> &[Rule]
        ensures { result.now ≡ self.now.rules }
    {
        self.rules.as_slice()
    }
}
