ghost use Rattle.std.specs.Prelude.{◌≡◌, ◌+◌, ◌<◌, ◌^◌, ◌==◌, take, length, position, slice_get, Some, None, IfOk, OnOk, OnErr, IfSome, vec_len};
ghost use Rattle.std.specs.Option.{option_and_then};
ghost use Rattle.dy_entry.specs.Meaning.{entry_of, entries_of};
ghost use Rattle.dy_eval.specs.Past.{HasEachVersionOnce};
ghost use Rattle.dy_eval.specs.Meaning.{standing_of};
ghost use Rattle.dy_eval.specs.Turns.{IsAsked, emit_of, standing_after, HasRoomForVersions};
ghost use Rattle.dy_traces.specs.Instances as instances;
ghost use Rattle.dy_core.specs.BookMeaning.{trace_of, decls_in, StaysInterleaved};
ghost use Rattle.dy_core.specs.MirrorBooks as mirror;
ghost use Rattle.dy_core.specs.Answers.{IsInstance, IsAdvanced};

use crate::answers::Advanced;
use crate::before_start::BeforeStart;
use crate::books::Book;
use crate::pushing::push_within;
use crate::running::Running;
use crate::searching::end_of;
use crate::sessions::is_instance;
use dy_entry::Entry;
use dy_eval::{Emit, Item, one_index_more_is_one_step_more};
use dy_term::{Memory, Word};
use dy_traces::{
    a_longer_interleaving, a_longer_short_trace, prefixes_are_interleavings, versions_stand_once,
};

/// The entry of an item, by its instance with its principal and session.
fn entry_for(instance: u32, principal: &Word, session: u32, item: Item) -> Entry
    ensures { entry_of result ≡ instances.entry_for instance principal.now session item }
{
    match item {
        Item::Fresh(label, usage) => Entry::Fresh(instance, label, usage),
        Item::Message(value) => Entry::Message(instance, value),
        Item::State(version, tag, fields) => {
            Entry::State(instance, principal.copy(), session, version, tag, fields)
        }
        Item::Event(name, args) => Entry::Event(instance, principal.copy(), name, args),
        Item::Cert(usage, key) => Entry::Cert(instance, principal.copy(), usage, key),
    }
}

/// The entry of an item of an instance, whose Start is among the entries.
fn item_entry(entries: &[Entry], instance: u32, item: Item) -> Entry
    requires { IsInstance (entries_of entries.now) instance }
    ensures { Some (entry_of result)
        ≡ option_and_then (mirror.item_entry instance item) (slice_get (entries_of entries.now) instance) }
{
    match sqlite_items::at(entries, instance as usize) {
        Some(Entry::Start(_, _, principal, session, _, _)) => {
            entry_for(instance, principal, *session, item)
        }
        _ => unreachable!(),
    }
}

/// What a running instance does next. Out of memory, the one refusal, it is as it was.
fn take_turn(entries: &[Entry], kept: &mut Running) -> Result<Emit, Memory>
    requires few { length entries.now < 2 ^ 32 }
    requires within { kept.old.start < length entries.now }
    requires once { HasEachVersionOnce (take kept.old.start (entries_of entries.now)) }
    requires room { HasRoomForVersions (take kept.old.start (entries_of entries.now)) }
    requires asked { IsAsked (standing_of kept.old.instance) kept.old.landed }
    ensures emit { IfOk result (λ emit. emit ≡ emit_of (mirror.next_of_kept (entries_of entries.now) kept.old)) }
    ensures stands { OnOk result
        (standing_of kept.new.instance ≡ standing_after (mirror.next_of_kept (entries_of entries.now) kept.old)) }
    ensures memory { OnErr result (standing_of kept.new.instance ≡ standing_of kept.old.instance) }
    ensures start { kept.new.start ≡ kept.old.start }
    ensures landed { kept.new.landed ≡ kept.old.landed }
{
    let past = BeforeStart {
        entries: &entries[..kept.start as usize],
    };
    kept.instance.next(&past, kept.landed)
}

/// The place among those that are kept of an instance, or `None` where it is not kept.
fn place_of(running: &[Running], instance: u32) -> Option<usize>
    ensures first { result ≡ position (λ kept. kept.start == instance) running.now }
    ensures within { IfSome result (λ at. at < length running.now) }
{
    running.iter().position(|kept| kept.start == instance)
}

impl Book {
    /// Takes the next step of the instance at this place among those that are kept. It refuses out of memory alone.
    fn take_step(&mut self, at: usize, instance: u32) -> Advanced
        requires within { at < vec_len self.old.running }
        requires place { position (λ kept. kept.start == instance) self.old.running.items ≡ Some at }
        requires stands { IsInstance (trace_of self.old) instance }
        requires goes_on { instances.end_of (trace_of self.old) instance ≡ None }
        ensures answer { IsAdvanced (decls_in self.old) (trace_of self.old) instance result (trace_of self.new) }
        ensures file { self.new.file ≡ self.old.file }
    {
        a_longer_interleaving();
        a_longer_short_trace();
        prefixes_are_interleavings();
        versions_stand_once();
        one_index_more_is_one_step_more();
        if self.entries.len() >= u32::MAX as usize || self.entries.reserve(1).is_err() {
            return Advanced::Memory;
        }
        let index = self.entries.len() as u32;
        let mut kept = self.running.remove(at);
        match take_turn(self.entries.as_slice(), &mut kept) {
            Ok(Emit::Put(item)) => {
                let entry = item_entry(self.entries.as_slice(), instance, item);
                push_within(&mut self.entries, entry);
                kept.landed = Some(index);
                push_within(&mut self.running, kept);
                Advanced::Put { index }
            }
            Ok(Emit::End(outcome)) => {
                push_within(&mut self.entries, Entry::End(instance, outcome));
                Advanced::Finished { index }
            }
            Err(_) => {
                push_within(&mut self.running, kept);
                Advanced::Memory
            }
        }
    }

    /// Takes the next step of an instance. `NoInstance` comes exactly where no Start stands at the index, and `Ended`
    /// with the index of its End exactly where it has one. `Put` has the index of the item that the instance puts next,
    /// and `Finished` that of the End that it puts next. The other refusal is out of memory. After a refusal the Book is
    /// as it was.
    pub fn advance(&mut self, instance: u32) -> Advanced
        ensures answer { IsAdvanced (decls_in self.old) (trace_of self.old) instance result (trace_of self.new) }
        ensures file { self.new.file ≡ self.old.file }
        ensures interleaves { StaysInterleaved self.old self.new }
    {
        a_longer_interleaving();
        if !is_instance(self.entries.as_slice(), instance) {
            return Advanced::NoInstance;
        }
        if let Some(at) = place_of(self.running.as_slice(), instance) {
            return self.take_step(at, instance);
        }
        match end_of(self.entries.as_slice(), instance) {
            Some(index) => Advanced::Ended { index },
            None => unreachable!(),
        }
    }
}
