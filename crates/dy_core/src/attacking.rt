ghost use Rattle.std.specs.Prelude.{◌≡◌, ◌<◌};
ghost use Rattle.dy_label.specs.LabelsMeaning.{place_of_corruption};
ghost use Rattle.dy_entry.specs.Entries as entries;
ghost use Rattle.dy_recipe.specs.Meaning.{recipe_of};
ghost use Rattle.dy_traces.specs.declared.limits.TheConstants.{MAX_STEPS};
ghost use Rattle.dy_core.specs.BookMeaning.{trace_of, StaysInterleaved};
ghost use Rattle.dy_core.specs.Answers.{IsAdded, IsInjected};

use crate::answers::{Added, Injected};
use crate::books::Book;
use crate::given_leaves::GivenLeaves;
use crate::searching::step_at;
use dy_entry::Entry;
use dy_label::Corruption;
use dy_recipe::{Recipe, apply};
use dy_traces::a_recipe_gives_what_is_derived;

impl Book {
    /// The attacker takes what the corruption names. `Already` has the index of the entry of this step, where it has
    /// one. The other refusal is out of memory. After a refusal the Book is as it was. The step is below 1,024.
    pub fn corrupt(&mut self, step: u32, corruption: Corruption) -> Added
        requires { step < MAX_STEPS }
        ensures answer { IsAdded (trace_of self.old) step (entries.Corrupt step (place_of_corruption corruption)) result
            (trace_of self.new) }
        ensures file { self.new.file ≡ self.old.file }
        ensures interleaves { StaysInterleaved self.old self.new }
    {
        if let Some(index) = step_at(self.entries.as_slice(), step) {
            return Added::Already { index };
        }
        match self.add(Entry::Corrupt(step, corruption)) {
            Ok(index) => Added::Ok { index },
            Err(_) => Added::Memory,
        }
    }

    /// The attacker makes a nonce. It answers as `corrupt` does.
    pub fn forge(&mut self, step: u32) -> Added
        requires { step < MAX_STEPS }
        ensures answer { IsAdded (trace_of self.old) step (entries.Forge step) result (trace_of self.new) }
        ensures file { self.new.file ≡ self.old.file }
        ensures interleaves { StaysInterleaved self.old self.new }
    {
        if let Some(index) = step_at(self.entries.as_slice(), step) {
            return Added::Already { index };
        }
        match self.add(Entry::Forge(step)) {
            Ok(index) => Added::Ok { index },
            Err(_) => Added::Memory,
        }
    }

    /// A step is left out. It answers as `corrupt` does.
    pub fn skip(&mut self, step: u32) -> Added
        requires { step < MAX_STEPS }
        ensures answer { IsAdded (trace_of self.old) step (entries.Skip step) result (trace_of self.new) }
        ensures file { self.new.file ≡ self.old.file }
        ensures interleaves { StaysInterleaved self.old self.new }
    {
        if let Some(index) = step_at(self.entries.as_slice(), step) {
            return Added::Already { index };
        }
        match self.add(Entry::Skip(step)) {
            Ok(index) => Added::Ok { index },
            Err(_) => Added::Memory,
        }
    }

    /// The attacker sends the value of a recipe over the trace so far. `Already` comes as for `corrupt`. `Skipped`
    /// comes exactly where the step has no entry and the recipe no value; a Skip then has this index. The other refusal
    /// is out of memory. After a refusal the Book is as it was. The step is below 1,024.
    pub fn inject(&mut self, step: u32, recipe: &Recipe) -> Injected
        requires { step < MAX_STEPS }
        ensures answer { IsInjected (trace_of self.old) step (recipe_of recipe.now) result (trace_of self.new) }
        ensures file { self.new.file ≡ self.old.file }
        ensures interleaves { StaysInterleaved self.old self.new }
    {
        a_recipe_gives_what_is_derived();
        if let Some(index) = step_at(self.entries.as_slice(), step) {
            return Injected::Already { index };
        }
        let given = GivenLeaves {
            entries: self.entries.as_slice(),
        };
        match apply(self.alloc, recipe, &given) {
            Ok(Some(value)) => match self.add(Entry::Inject(step, value)) {
                Ok(index) => Injected::Ok { index },
                Err(_) => Injected::Memory,
            },
            Ok(None) => match self.add(Entry::Skip(step)) {
                Ok(index) => Injected::Skipped { index },
                Err(_) => Injected::Memory,
            },
            Err(_) => Injected::Memory,
        }
    }
}
