ghost use Rattle.std.specs.Prelude.{◌≡◌, ◌<◌, ◌^◌, length, position, IfSome, MatchOption};
ghost use Rattle.std.specs.List.{slice_get};
ghost use Rattle.dy_entry.specs.Meaning.{entry_of, entries_of};
ghost use Rattle.dy_traces.specs.Steps as steps;
ghost use Rattle.dy_traces.specs.Instances as instances;

use dy_entry::Entry;

/// Whether the entry is that of the step of this number.
fn has_step(entry: &Entry, step: u32) -> bool
    ensures { result ≡ steps.has_step step (entry_of entry.now) }
{
    match entry {
        Entry::Start(other, ..)
        | Entry::Corrupt(other, _)
        | Entry::Forge(other)
        | Entry::Inject(other, _)
        | Entry::Skip(other) => *other == step,
        _ => false,
    }
}

fn first_of_step(entries: &[Entry], step: u32) -> Option<usize>
    ensures first { result ≡ position (λ entry. steps.has_step step (entry_of entry)) entries.now }
    ensures within { IfSome result (λ index. index < length entries.now) }
{
    entries.iter().position(|entry| has_step(entry, step))
}

/// The index of the first entry of a step, or `None` where there is none. The entries are fewer than 2^32.
pub fn step_at(entries: &[Entry], step: u32) -> Option<u32>
    requires { length entries.now < 2 ^ 32 }
    ensures { result ≡ steps.step_at (entries_of entries.now) step }
{
    let index = first_of_step(entries, step)?;
    Some(index as u32)
}

/// Whether the entry is the End of this instance.
fn is_end_of(entry: &Entry, instance: u32) -> bool
    ensures { result ≡ instances.is_end_of instance (entry_of entry.now) }
{
    matches!(entry, Entry::End(other, _) if *other == instance)
}

fn first_end(entries: &[Entry], instance: u32) -> Option<usize>
    ensures first { result ≡ position (λ entry. instances.is_end_of instance (entry_of entry)) entries.now }
    ensures within { IfSome result (λ index. index < length entries.now) }
{
    entries.iter().position(|entry| is_end_of(entry, instance))
}

/// The index of the End of an instance, or `None` where there is none.
pub(crate) fn end_of(entries: &[Entry], instance: u32) -> Option<u32>
    requires { length entries.now < 2 ^ 32 }
    ensures { result ≡ instances.end_of (entries_of entries.now) instance }
{
    let index = first_end(entries, instance)?;
    Some(index as u32)
}
