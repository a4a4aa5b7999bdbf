ghost use Rattle.std.specs.Prelude.{◌≡◌, ◌<◌, ◌+◌, ◌^◌, [], ◌∷◌, ◌++◌, length, slice_get, replicate, ℕ, Some, None, OnOk, OnErr};
ghost use Rattle.dy_chains.specs.Rules.{EachPremise};
ghost use Rattle.dy_chains.specs.Lists.{Extends};
ghost use Rattle.dy_chains.specs.MirrorWatchers.{watcher_of, IsLastBefore, IsListed, AreWatchedFrom};

use crate::growing::as_number;
use crate::rules::{Premises, Rule};
use dy_term::Memory;
use std::alloc::Global;
use std::marker::Model;

/// A rule that has a fact as a premise, and where the one before it of the same fact stands.
#[derive(Clone, Copy)]
pub(crate) struct Watcher {
    pub(crate) fact: u32,
    pub(crate) rule: u32,
    pub(crate) before: Option<u32>,
}

/// The rules that have each fact as a premise.
#[derive(Drop)]
pub(crate) struct Watchers {
    watchers: Vec<Watcher>,
    newest: Vec<Option<u32>>,
}

impl Model for Watchers {
    ghost use Rattle.std.specs.Prelude.{List, map, length};
    ghost use Rattle.dy_chains.specs.MirrorWatchers.{Watcher, watcher_of, AreLinked};

    ghost Value = { List Watcher };

    ghost view = { λ w. map watcher_of w.watchers.items };

    ghost invariant = { λ w. AreLinked w.watchers.items w.newest.items };
}

/// Makes a place for the newest watcher of the fact, if there is none.
fn make_place(newest: &mut Vec<Option<u32>>, fact: u32) -> Result<(), Memory>
    ensures none { (more : ℕ) × (newest.new.items ≡ newest.old.items ++ replicate more None) }
    ensures place { OnOk result (fact < length newest.new.items) }
{
    let count = fact as usize + 1;
    if newest.len() < count {
        newest.resize(count, None)?;
    }
    Ok(())
}

impl Watchers {
    pub(crate) fn new(alloc: Global) -> Watchers
        ensures { result ≡ [] }
    {
        Watchers {
            watchers: Vec::new(alloc),
            newest: Vec::new(alloc),
        }
    }

    /// Where the newest watcher of the fact stands, if it has one.
    pub(crate) fn newest(&self, fact: u32) -> Option<u32>
        ensures { IsLastBefore self.now (length self.now) fact result }
    {
        match self.newest.get(fact as usize) {
            Some(place) => *place,
            None => None,
        }
    }

    /// The watcher at this place.
    pub(crate) fn at(&self, place: u32) -> Watcher
        requires { place < length self.now }
        ensures stands { slice_get self.now place ≡ Some (watcher_of result) }
        ensures before { IsLastBefore self.now place result.fact result.before }
    {
        self.watchers[place as usize]
    }

    /// Adds a rule that has the fact as a premise.
    fn add(&mut self, fact: u32, rule: u32) -> Result<(), Memory>
        ensures ok { OnOk result (self.new ≡ self.old ++ record { fact = fact; rule = rule } ∷ []) }
        ensures err { OnErr result (self.new ≡ self.old) }
    {
        let place = as_number(self.watchers.len())?;
        make_place(&mut self.newest, fact)?;
        let before = self.newest[fact as usize];
        self.watchers.push(Watcher { fact, rule, before })?;
        self.newest[fact as usize] = Some(place);
        Ok(())
    }

    /// Adds the rule of this number at each of its premises.
    fn add_rule(&mut self, rule: &Rule, number: u32) -> Result<(), Memory>
        ensures extends { Extends self.old self.new }
        ensures ok { OnOk result (EachPremise (IsListed self.new number) rule.now) }
    {
        match rule.premises {
            Premises::None => Ok(()),
            Premises::One(first) => self.add(first, number),
            Premises::Two(first, second) => {
                self.add(first, number)?;
                self.add(second, number)
            }
            Premises::Three(first, second, third) => {
                self.add(first, number)?;
                self.add(second, number)?;
                self.add(third, number)
            }
        }
    }

    /// Adds each of these rules, of which the first has this number, at its premises.
    pub(crate) fn add_rules(&mut self, rules: &[Rule], first: u32) -> Result<(), Memory>
        requires { first + length rules.now < 2 ^ 32 }
        ensures extends { Extends self.old self.new }
        ensures ok { OnOk result (AreWatchedFrom first self.new rules.now) }
    {
        for (place, rule) in rules.iter().enumerate() {
            self.add_rule(rule, first + place as u32)?;
        }
        Ok(())
    }
}
