//! The line of an entry.
ghost use Rattle.std.specs.Prelude.{◌≡◌, ◌++◌, [], ◌∷◌, IfOk};
ghost use Rattle.std.specs.Fmt.{decimal};
ghost use Rattle.dy_term.specs.TermText.{term_text};
ghost use Rattle.dy_label.specs.Labels.{Version};
ghost use Rattle.dy_label.specs.LabelsMeaning.{place_of_corruption};
ghost use Rattle.dy_entry.specs.Entries.{Setup, End, Corrupt};
ghost use Rattle.dy_entry.specs.Meaning.{entry_of};
ghost use Rattle.dy_trace_text.specs.LabelText.{place_parts, label_text, usage_text};
ghost use Rattle.dy_trace_text.specs.ListText.{in_parentheses};
ghost use Rattle.dy_trace_text.specs.EntryText as texts;
ghost use Rattle.dy_trace_text.specs.MirrorPages.{put_part, put_parts};

use crate::label_text::{put_label, put_usage};
use crate::list_text::{Written, put_list};
use crate::pages::Page;
use crate::term_text::put_term;
use dy_entry::Entry;
use dy_flat::FlatTerm;
use dy_label::{Corruption, Label, Outcome, Usage};
use dy_term::{Memory, Word};
use std::alloc::Global;

/// Adds the line of the entry at this index.
pub(crate) fn put_line(
    alloc: Global,
    page: &mut Page,
    index: usize,
    entry: &Entry,
) -> Result<(), Memory>
    ensures { IfOk result (λ _. page.new ≡ page.old ++ texts.line_of index (entry_of entry.now)) }
{
    page.put_number(index as u64)?;
    put_entry(alloc, page, entry)?;
    page.put(b"\n")
}

/// Adds the parts of an entry's line after its index.
fn put_entry(alloc: Global, page: &mut Page, entry: &Entry) -> Result<(), Memory>
    ensures { IfOk result (λ _. page.new ≡ put_parts page.old (texts.entry_parts (entry_of entry.now))) }
{
    match entry {
        Entry::Setup(input) => put_setup(page, input.as_slice()),
        Entry::Start(step, handler, principal, session, args, message) => {
            page.put_named(b"start", *step)?;
            put_words(page, handler, principal)?;
            page.put_number_part(*session)?;
            put_list_part(page, args.as_slice())?;
            put_given(page, *message)
        }
        Entry::Fresh(instance, label, usage) => {
            page.put_named(b"fresh", *instance)?;
            put_label_part(alloc, page, label)?;
            put_usage_part(page, usage)
        }
        Entry::Message(instance, value) => put_value(page, b"message", *instance, value),
        Entry::State(instance, principal, session, version, tag, fields) => {
            page.put_named(b"state", *instance)?;
            put_version(page, principal, *session, *version)?;
            page.put_part(tag.as_bytes())?;
            put_list_part(page, fields.as_slice())
        }
        Entry::Event(instance, principal, name, args) => {
            page.put_named(b"event", *instance)?;
            put_words(page, principal, name)?;
            put_list_part(page, args.as_slice())
        }
        Entry::Cert(instance, principal, usage, key) => {
            page.put_named(b"cert", *instance)?;
            put_words(page, principal, usage)?;
            put_value_part(page, key)
        }
        Entry::End(instance, outcome) => put_end(page, *instance, *outcome),
        Entry::Corrupt(step, corruption) => put_corruption(page, *step, corruption),
        Entry::Forge(step) => page.put_named(b"forge", *step),
        Entry::Inject(step, value) => put_value(page, b"inject", *step, value),
        Entry::Skip(step) => page.put_named(b"skip", *step),
    }
}

/// Adds the parts of the first entry.
fn put_setup(page: &mut Page, input: &[u8]) -> Result<(), Memory>
    ensures { IfOk result (λ _. page.new ≡ put_parts page.old (texts.entry_parts (Setup input.now))) }
{
    page.put_part(b"setup")?;
    page.put(b" ")?;
    page.put_number(input.len() as u64)
}

/// Adds two words of a line.
fn put_words(page: &mut Page, first: &Word, second: &Word) -> Result<(), Memory>
    ensures { IfOk result (λ _. page.new ≡ put_parts page.old (first.now ∷ second.now ∷ [])) }
{
    page.put_part(first.as_bytes())?;
    page.put_part(second.as_bytes())
}

/// Adds the principal, session and version of a state.
fn put_version(page: &mut Page, principal: &Word, session: u32, version: u32) -> Result<(), Memory>
    ensures { IfOk result (λ _. page.new
        ≡ put_parts page.old (place_parts (Version principal.now session version))) }
{
    page.put_part(principal.as_bytes())?;
    page.put_number_part(session)?;
    page.put_number_part(version)
}

/// Adds a list of words or of terms, as a part of a line.
fn put_list_part<T: Written>(page: &mut Page, items: &[T]) -> Result<(), Memory>
    ensures { IfOk result (λ _. page.new ≡ put_part page.old (in_parentheses T.text items.now)) }
{
    page.put(b" ")?;
    put_list(page, items)
}

fn put_value_part(page: &mut Page, value: &FlatTerm) -> Result<(), Memory>
    ensures { IfOk result (λ _. page.new ≡ put_part page.old (term_text value.now)) }
{
    page.put(b" ")?;
    put_term(page, value.whole())
}

fn put_label_part(alloc: Global, page: &mut Page, label: &Label) -> Result<(), Memory>
    ensures { IfOk result (λ _. page.new ≡ put_part page.old (label_text label.now)) }
{
    page.put(b" ")?;
    put_label(alloc, page, label)
}

fn put_usage_part(page: &mut Page, usage: &Usage) -> Result<(), Memory>
    ensures { IfOk result (λ _. page.new ≡ put_part page.old (usage_text usage.now)) }
{
    page.put(b" ")?;
    put_usage(page, usage)
}

/// Adds the parts of an entry that has a number and a value.
fn put_value(page: &mut Page, word: &[u8], number: u32, value: &FlatTerm) -> Result<(), Memory>
    ensures { IfOk result (λ _. page.new
        ≡ put_parts page.old (word.now ∷ decimal number ∷ term_text value.now ∷ [])) }
{
    page.put_named(word, number)?;
    put_value_part(page, value)
}

/// Adds the index of the message that an instance is given, or `-`.
fn put_given(page: &mut Page, message: Option<u32>) -> Result<(), Memory>
    ensures { IfOk result (λ _. page.new ≡ put_part page.old (texts.given_text message)) }
{
    match message {
        None => page.put_part(b"-"),
        Some(index) => page.put_number_part(index),
    }
}

/// Adds the parts of an instance's end.
fn put_end(page: &mut Page, instance: u32, outcome: Outcome) -> Result<(), Memory>
    ensures { IfOk result (λ _. page.new ≡ put_parts page.old (texts.entry_parts (End instance outcome))) }
{
    page.put_named(b"end", instance)?;
    match outcome {
        Outcome::Done => page.put_part(b"done"),
        Outcome::Stopped(statement) => page.put_named(b"stopped", statement),
    }
}

/// Adds the parts of a corruption.
fn put_corruption(page: &mut Page, step: u32, corruption: &Corruption) -> Result<(), Memory>
    ensures { IfOk result (λ _. page.new
        ≡ put_parts page.old (texts.entry_parts (Corrupt step (place_of_corruption corruption.now)))) }
{
    page.put_named(b"corrupt", step)?;
    match corruption {
        Corruption::Principal(principal) => page.put_part(principal.as_bytes()),
        Corruption::Session(principal, session) => {
            page.put_part(principal.as_bytes())?;
            page.put_number_part(*session)
        }
        Corruption::Version(principal, session, version) => {
            put_version(page, principal, *session, *version)
        }
    }
}
