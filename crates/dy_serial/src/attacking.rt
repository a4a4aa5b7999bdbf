ghost use Rattle.std.specs.Prelude.{◌≡◌, ◌<◌, [], ◌∷◌, ◌++◌, OnOk};
ghost use Rattle.dy_label.specs.LabelsMeaning.{place_of_corruption};
ghost use Rattle.dy_entry.specs.Entries as entries;
ghost use Rattle.dy_recipe.specs.Meaning.{recipe_of};
ghost use Rattle.dy_traces.specs.declared.limits.TheConstants.{MAX_STEPS};
ghost use Rattle.dy_traces.specs.Steps.{IsUnused};
ghost use Rattle.dy_core.specs.BookMeaning.{trace_of};
ghost use Rattle.dy_plan.specs.Resolving as resolving;
ghost use Rattle.dy_plan.specs.Resolving.{entry_by};
ghost use Rattle.dy_serial.specs.Running.{GrowsTo};

use dy_core::{Added, Book, Injected};
use dy_label::Corruption;
use dy_recipe::Recipe;
use dy_term::Memory;

/// Adds a corruption by a step that has no entry. The one refusal is out of memory.
pub(crate) fn corrupt(book: &mut Book, step: u32, corruption: Corruption) -> Result<(), Memory>
    requires low { step < MAX_STEPS }
    requires unused { IsUnused (trace_of book.old) step }
    ensures added { OnOk result
        (trace_of book.new ≡ trace_of book.old ++ entries.Corrupt step (place_of_corruption corruption) ∷ []) }
    ensures grows { GrowsTo book.old book.new }
{
    match book.corrupt(step, corruption) {
        Added::Ok { .. } => Ok(()),
        Added::Memory => Err(Memory),
        Added::Already { .. } => unreachable!(),
    }
}

/// Adds a nonce of the attacker by a step that has no entry. The one refusal is out of memory.
pub(crate) fn forge(book: &mut Book, step: u32) -> Result<(), Memory>
    requires low { step < MAX_STEPS }
    requires unused { IsUnused (trace_of book.old) step }
    ensures added { OnOk result (trace_of book.new ≡ trace_of book.old ++ entries.Forge step ∷ []) }
    ensures grows { GrowsTo book.old book.new }
{
    match book.forge(step) {
        Added::Ok { .. } => Ok(()),
        Added::Memory => Err(Memory),
        Added::Already { .. } => unreachable!(),
    }
}

/// Leaves out a step that has no entry. The one refusal is out of memory.
pub(crate) fn skip(book: &mut Book, step: u32) -> Result<(), Memory>
    requires low { step < MAX_STEPS }
    requires unused { IsUnused (trace_of book.old) step }
    ensures added { OnOk result (trace_of book.new ≡ trace_of book.old ++ entries.Skip step ∷ []) }
    ensures grows { GrowsTo book.old book.new }
{
    match book.skip(step) {
        Added::Ok { .. } => Ok(()),
        Added::Memory => Err(Memory),
        Added::Already { .. } => unreachable!(),
    }
}

/// Adds a message of the attacker by a step that has no entry, or leaves the step out where the recipe has no value.
/// The one refusal is out of memory.
pub(crate) fn inject(book: &mut Book, step: u32, recipe: &Recipe) -> Result<(), Memory>
    requires low { step < MAX_STEPS }
    requires unused { IsUnused (trace_of book.old) step }
    ensures added { OnOk result (trace_of book.new ≡ trace_of book.old
        ++ entry_by (trace_of book.old) step (resolving.Inject (recipe_of recipe.now)) ∷ []) }
    ensures grows { GrowsTo book.old book.new }
{
    match book.inject(step, recipe) {
        Injected::Ok { .. } | Injected::Skipped { .. } => Ok(()),
        Injected::Memory => Err(Memory),
        Injected::Already { .. } => unreachable!(),
    }
}
