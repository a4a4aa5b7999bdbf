ghost use Rattle.std.specs.Prelude.{◌≡◌, ◌<◌, ◌≤◌, ◌+◌, [], ◌∷◌, ◌++◌, length, ◌↔◌, IsTrue, None, OnOk, OnErr};
ghost use Rattle.dy_chains.specs.Logs.{place_of, IsAt, IsLogged};

use dy_term::Memory;
use std::alloc::Global;
use std::marker::Model;

/// A fact that follows, and the number of the rule by which it does.
#[derive(Clone, Copy, Debug, PartialEq, Eq)]
pub struct Step {
    pub fact: u32,
    pub rule: u32,
}

/// The facts that follow, and where each stands, with room for all facts.
#[derive(Drop)]
pub(crate) struct Log {
    steps: Vec<Step>,
    places: Vec<Option<u32>>,
}

impl Model for Log {
    ghost use Rattle.std.specs.Prelude.{◌<◌, ◌≤◌, ◌^◌, length, vec_capacity};
    ghost use Rattle.dy_chains.specs.MirrorLogs.{Log, HasPlaces};

    ghost Value = { Log };

    ghost view = { λ log. record { facts = length log.places.items; steps = log.steps.items } };

    ghost invariant = { λ log. HasPlaces log.steps.items log.places.items
        × (length log.places.items ≤ vec_capacity log.steps) × (length log.places.items < 2 ^ 32) };
}

impl Log {
    pub(crate) fn new(alloc: Global) -> Log
        ensures { result ≡ record { facts = 0; steps = [] } }
    {
        Log {
            steps: Vec::new(alloc),
            places: Vec::new(alloc),
        }
    }

    pub(crate) fn facts(&self) -> u32
        ensures { result ≡ self.now.facts }
    {
        self.places.len() as u32
    }

    pub(crate) fn len(&self) -> u32
        ensures value { result ≡ length self.now.steps }
        ensures within { result ≤ self.now.facts }
    {
        self.steps.len() as u32
    }

    pub(crate) fn steps(&self) -> &[Step]
        ensures value { result.now ≡ self.now.steps }
        ensures within { length result.now ≤ self.now.facts }
    {
        self.steps.as_slice()
    }

    /// The fact at this place.
    pub(crate) fn fact_at(&self, place: u32) -> u32
        requires { place < length self.now.steps }
        ensures { IsAt self.now.steps place result }
    {
        self.steps[place as usize].fact
    }

    /// Where the fact stands, if it does.
    pub(crate) fn place(&self, fact: u32) -> Option<u32>
        ensures { result ≡ place_of self.now.steps fact }
    {
        match self.places.get(fact as usize) {
            Some(place) => *place,
            None => None,
        }
    }

    pub(crate) fn has(&self, fact: u32) -> bool
        ensures { IsTrue result ↔ IsLogged self.now.steps fact }
    {
        self.place(fact).is_some()
    }

    /// Adds so many facts, which do not follow yet.
    pub(crate) fn grow(&mut self, facts: u32) -> Result<(), Memory>
        ensures ok { OnOk result (self.new ≡ record { facts = self.old.facts + facts; steps = self.old.steps }) }
        ensures err { OnErr result (self.new ≡ self.old) }
    {
        let Some(count) = self.facts().checked_add(facts) else {
            return Err(Memory);
        };
        let free = count as usize - self.steps.len();
        self.steps.reserve(free)?;
        self.places.resize(count as usize, None)?;
        Ok(())
    }

    /// Adds a fact that does not stand here yet.
    pub(crate) fn push(&mut self, step: Step)
        requires below { step.fact < self.old.facts }
        requires missing { place_of self.old.steps step.fact ≡ None }
        ensures { self.new ≡ record { facts = self.old.facts; steps = self.old.steps ++ step ∷ [] } }
    {
        let place = self.len();
        self.steps.push_reserved(step);
        self.places[step.fact as usize] = Some(place);
    }
}
