ghost use Rattle.std.specs.Prelude.{◌≡◌, ◌↔◌, List, map, IsTrue};
ghost use Rattle.std.specs.Str.{bytes_eq};
ghost use Rattle.std.specs.Option.{option_copied};
ghost use Rattle.dy_label.specs.Words.{StaticLabel};
ghost use Rattle.dy_types.specs.Facts as plain;
ghost use Rattle.dy_types.specs.Facts.{first_of, guard_of, guards_of, is_fact_of, HasFact};
ghost use Rattle.dy_types.specs.Meaning.{fact_of, facts_of};
ghost use Rattle.dy_types.specs.Tables.{HasTable, FactsHaveTables};
ghost use Rattle.dy_types.specs.MirrorMeets.{MeetIn};

use crate::meets::{meet_implies, meet_with};
use dy_label::Table;
use dy_term::Word;
use sqlite_items::Items;

/// An event happened with the values of these variables, or the guard is open.
#[derive(Debug, Drop)]
pub struct Fact {
    pub event: Word,
    pub args: Items<u32>,
    pub guard: Table,
}

/// The number of the first variable that is one with this one.
fn first_of(first: &[u32], variable: u32) -> u32
    ensures { result ≡ first_of first.now variable }
{
    first.get(variable as usize).copied().unwrap_or(variable)
}

/// Whether these variables have these values.
fn have_values(first: &[u32], variables: &[u32], values: &[u32]) -> bool
    ensures { result ≡ bytes_eq (map (first_of first.now) variables.now) values.now }
{
    if variables.len() != values.len() {
        return false;
    }
    for i in 0..variables.len() {
        if first_of(first, variables[i]) != values[i] {
            return false;
        }
    }
    true
}

impl Fact {
    /// The guard, where the fact is one of this event with these values.
    fn guard_for(&self, first: &[u32], event: &Word, values: &[u32]) -> Option<&Table>
        ensures { option_copied result ≡ guard_of first.now event.now values.now (fact_of self.now) }
    {
        if self.event.same(event) && have_values(first, self.args.as_slice(), values) {
            Some(&self.guard)
        } else {
            None
        }
    }
}

/// The meet of the guards of all facts of this event with these values, if there are any.
fn guards_table(facts: &[Fact], first: &[u32], event: &Word, values: &[u32]) -> Option<Table>
    ensures { MeetIn (guards_of first.now (facts_of facts.now) event.now values.now) result }
{
    let mut met = None;
    for fact in facts {
        if let Some(guard) = fact.guard_for(first, event, values) {
            met = Some(meet_with(met, guard));
        }
    }
    met
}

/// Whether the event is known to have happened with these values, or else the label is open that
/// has this table. At the place of each variable stands the first that is one with it.
pub fn has_fact(facts: &[Fact], first: &[u32], event: &Word, values: &[u32], table: &Table) -> bool
    ensures { (known : List plain.Fact) (label : StaticLabel) →
        FactsHaveTables known (facts_of facts.now) → HasTable label table.now →
        (IsTrue result ↔ HasFact first.now known event.now values.now label) }
{
    meet_implies(guards_table(facts, first, event, values), table)
}
