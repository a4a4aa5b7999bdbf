ghost use Rattle.std.specs.Prelude.{◌≡◌};
ghost use Rattle.std.specs.Option.{option_copied};
ghost use Rattle.dy_entry.specs.Meaning.{entry_of, entries_of};
ghost use Rattle.dy_eval.specs.Past.{key_certified};
ghost use Rattle.dy_eval.specs.Starts.{message_in};
ghost use Rattle.dy_recipe.specs.Values.{value_at};
ghost use Rattle.dy_traces.specs.Given.{given_by, field_given};

use dy_entry::{Entry, is_covered};
use dy_flat::FlatTerm;
use dy_recipe::{Given, Move};

/// What a trace gives to the attacker's recipes.
#[derive(Clone, Copy)]
pub(crate) struct GivenLeaves<'a> {
    pub(crate) entries: &'a [Entry],
}

impl Given for GivenLeaves<'_> {
    ghost leaves = { λ given. given_by (entries_of given.entries.now) };

    fn value(&self, leaf: &Move) -> Option<&FlatTerm> {
        match leaf {
            Move::Message(index) => message(self.entries.get(*index as usize)?),
            Move::Cert(index) => cert(self.entries.get(*index as usize)?),
            Move::State(index, field) => {
                covered_field(self.entries, self.entries.get(*index as usize)?, *field)
            }
            _ => None,
        }
    }

    fn is_forge(&self, index: u32) -> bool {
        matches!(self.entries.get(index as usize), Some(Entry::Forge(_)))
    }
}

/// The bytes of a message, of an instance or of the attacker.
pub(crate) fn message(entry: &Entry) -> Option<&FlatTerm>
    ensures { option_copied result ≡ message_in (entry_of entry.now) }
{
    match entry {
        Entry::Message(_, value) | Entry::Inject(_, value) => Some(value),
        _ => None,
    }
}

/// The key of a certificate.
pub(crate) fn cert(entry: &Entry) -> Option<&FlatTerm>
    ensures { option_copied result ≡ key_certified (entry_of entry.now) }
{
    match entry {
        Entry::Cert(_, _, _, key) => Some(key),
        _ => None,
    }
}

/// The field that a number names, counted from 1.
fn field_at(fields: &[FlatTerm], number: u32) -> Option<&FlatTerm>
    ensures { option_copied result ≡ value_at fields.now number }
{
    if number == 0 {
        return None;
    }
    fields.get(number as usize - 1)
}

/// The field that a number names of a state that some corruption covers, counted from 1.
fn covered_field<'a>(entries: &[Entry], entry: &'a Entry, field: u32) -> Option<&'a FlatTerm>
    ensures { option_copied result ≡ field_given (entries_of entries.now) field (entry_of entry.now) }
{
    match entry {
        Entry::State(_, principal, session, version, _, fields)
            if is_covered(entries, principal, *session, *version) => {
            field_at(fields.as_slice(), field)
        }
        _ => None,
    }
}
