use super::*;
use crate::entry_text::put_line;
use crate::label_text::put_label;
use crate::pages::Page;
use dy_entry::{Counts, Entry};
use dy_flat::{FlatTerm, aead, hash, kdf, lit, mac, name, nonce, pair, penc, pk, sign, vk};
use dy_label::{Corruption, Kind, Label, LabelStack, Outcome, Reader, Usage};
use dy_term::{Memory, Text, Word};
use sqlite_items::Items;
use std::alloc::Global;
use std::test::*;

/// These bytes as a word. They are one.
fn word(bytes: &[u8]) -> Result<Word, Memory> {
    match Word::new(bytes) {
        Some(word) => Ok(word),
        None => Err(Memory),
    }
}

/// These bytes as a text. They are one.
fn text(bytes: &[u8]) -> Result<Text, Memory> {
    match Text::new(bytes) {
        Some(text) => Ok(text),
        None => Err(Memory),
    }
}

fn words(alloc: Global, all: &[&[u8]]) -> Result<Items<Word>, Memory> {
    let mut words = Items::new(alloc);
    for bytes in all {
        words.push(word(bytes)?)?;
    }
    Ok(words)
}

/// `kdf(sign(#3, "m"), "c", hash(mac(#3, "m")))`
fn derived_key(alloc: Global) -> Result<FlatTerm, Memory> {
    let key = nonce(alloc, 3)?;
    let message = lit(alloc, &text(b"m")?)?;
    let signed = sign(alloc, key.whole(), message.whole())?;
    let tag = mac(alloc, key.whole(), message.whole())?;
    let digest = hash(alloc, tag.whole())?;
    kdf(alloc, signed.whole(), &text(b"c")?, digest.whole())
}

/// `aead(KEY, penc(pk(#3), @bob), pair(vk(#3), ""))`
fn ciphertext(alloc: Global) -> Result<FlatTerm, Memory> {
    let secret = nonce(alloc, 3)?;
    let bob = name(alloc, &word(b"bob")?)?;
    let to = pk(alloc, secret.whole())?;
    let message = penc(alloc, to.whole(), bob.whole())?;
    let verifies = vk(alloc, secret.whole())?;
    let nothing = lit(alloc, &text(b"")?)?;
    let data = pair(alloc, verifies.whole(), nothing.whole())?;
    let key = derived_key(alloc)?;
    aead(alloc, key.whole(), message.whole(), data.whole())
}

/// `@bob` and `#3`
fn two_terms(alloc: Global) -> Result<Items<FlatTerm>, Memory> {
    let mut terms = Items::new(alloc);
    terms.push(name(alloc, &word(b"bob")?)?)?;
    terms.push(nonce(alloc, 3)?)?;
    Ok(terms)
}

/// `meet(join(P(alice), S(bob, 7)), join(public, meet(nobody, V(carol, 8, 2))))`
fn label(alloc: Global) -> Result<Label, Memory> {
    let mut labels = LabelStack::new(alloc);
    labels.push_reader(Reader::Principal(word(b"alice")?))?;
    labels.push_reader(Reader::Session(word(b"bob")?, 7))?;
    labels.join()?;
    labels.push_public()?;
    labels.push_nobody()?;
    labels.push_reader(Reader::Version(word(b"carol")?, 8, 2))?;
    labels.meet()?;
    labels.join()?;
    labels.meet()?;
    match labels.finish() {
        Some(label) => Ok(label),
        None => Err(Memory),
    }
}

fn setup(alloc: Global) -> Result<Entry, Memory> {
    Ok(Entry::Setup(Items::from_slice(alloc, b"dystar 1\n".as_slice())?))
}

fn start(alloc: Global, args: &[&[u8]], message: Option<u32>) -> Result<Entry, Memory> {
    let args = words(alloc, args)?;
    Ok(Entry::Start(2, word(b"Init")?, word(b"alice")?, 5, args, message))
}

fn fresh(alloc: Global, kind: Kind, owners: &[&[u8]]) -> Result<Entry, Memory> {
    let usage = Usage {
        kind,
        name: word(b"Use")?,
        owners: words(alloc, owners)?,
    };
    Ok(Entry::Fresh(5, label(alloc)?, usage))
}

fn state(alloc: Global, fields: Items<FlatTerm>) -> Result<Entry, Memory> {
    Ok(Entry::State(5, word(b"alice")?, 4, 2, word(b"Keys")?, fields))
}

/// The entry at a place of the table below.
fn entry(alloc: Global, place: usize) -> Result<Entry, Memory> {
    match place {
        0 => setup(alloc),
        1 => start(alloc, &[], None),
        2 => start(alloc, &[b"bob", b"carol", b"bob"], Some(0)),
        3 => fresh(alloc, Kind::Nonce, &[b"alice", b"bob"]),
        4 => Ok(Entry::Message(5, ciphertext(alloc)?)),
        5 => state(alloc, two_terms(alloc)?),
        6 => state(alloc, Items::new(alloc)),
        7 => Ok(Entry::Event(5, word(b"alice")?, word(b"Begin")?, two_terms(alloc)?)),
        8 => Ok(Entry::Cert(5, word(b"alice")?, word(b"Sign")?, derived_key(alloc)?)),
        9 => Ok(Entry::End(5, Outcome::Done)),
        10 => Ok(Entry::End(5, Outcome::Stopped(3))),
        11 => Ok(Entry::Corrupt(6, Corruption::Principal(word(b"alice")?))),
        12 => Ok(Entry::Corrupt(6, Corruption::Session(word(b"alice")?, 4))),
        13 => Ok(Entry::Corrupt(6, Corruption::Version(word(b"alice")?, 4, 2))),
        14 => Ok(Entry::Forge(1023)),
        15 => Ok(Entry::Inject(4294967295, ciphertext(alloc)?)),
        _ => Ok(Entry::Skip(0)),
    }
}

/// The line of the entry at each place, where that is its index.
const LINES: [&[u8]; 17] = [
    b"0 setup 9\n",
    b"1 start 2 Init alice 5 () -\n",
    b"2 start 2 Init alice 5 (bob, carol, bob) 0\n",
    b"3 fresh 5 meet(join(P(alice), S(bob, 7)), join(public, meet(nobody, V(carol, 8, 2)))) nonce Use(alice, bob)\n",
    b"4 message 5 aead(kdf(sign(#3, \"m\"), \"c\", hash(mac(#3, \"m\"))), penc(pk(#3), @bob), pair(vk(#3), \"\"))\n",
    b"5 state 5 alice 4 2 Keys (@bob, #3)\n",
    b"6 state 5 alice 4 2 Keys ()\n",
    b"7 event 5 alice Begin (@bob, #3)\n",
    b"8 cert 5 alice Sign kdf(sign(#3, \"m\"), \"c\", hash(mac(#3, \"m\")))\n",
    b"9 end 5 done\n",
    b"10 end 5 stopped 3\n",
    b"11 corrupt 6 alice\n",
    b"12 corrupt 6 alice 4\n",
    b"13 corrupt 6 alice 4 2\n",
    b"14 forge 1023\n",
    b"15 inject 4294967295 aead(kdf(sign(#3, \"m\"), \"c\", hash(mac(#3, \"m\"))), penc(pk(#3), @bob), pair(vk(#3), \"\"))\n",
    b"16 skip 0\n",
];

/// The line of the entry at a place of the table.
fn line(alloc: Global, place: usize) -> Result<Vec<u8>, Memory> {
    let entry = entry(alloc, place)?;
    let mut page = Page::new(alloc);
    put_line(alloc, &mut page, place, &entry)?;
    Ok(page.into_bytes())
}

#[test]
fn lines_of_entries(rt: HostRuntime) -> Result<(), Fail> {
    for (place, wanted) in LINES.iter().enumerate() {
        assert_eq!(rt;
            line(rt.alloc(), place)?.as_slice(),
            *wanted,
            "line {place}"
        );
    }
    Ok(())
}

/// A trace of two entries, written.
fn two_entries(alloc: Global) -> Result<Vec<u8>, Memory> {
    let mut entries = Vec::new(alloc);
    entries.push(Entry::Setup(Items::from_slice(alloc, b"dystar 1\n".as_slice())?))?;
    entries.push(Entry::Forge(5))?;
    write_trace(alloc, &entries)
}

#[test]
fn a_trace_and_a_snapshot(rt: HostRuntime) -> Result<(), Fail> {
    let trace = two_entries(rt.alloc())?;
    assert_eq!(rt;
        trace.as_slice(),
        b"0 setup 9\n1 forge 5\ntotal 2 start 0 fresh 0 message 0 state 0 event 0 cert 0 done 0 stopped 0 corrupt 0 forge 1 inject 0 skip 0\n".as_slice()
    );
    let counts = Counts {
        total: 43,
        start: 2,
        fresh: 3,
        message: 4,
        state: 5,
        event: 6,
        cert: 7,
        done: 8,
        stopped: 9,
        corrupt: 10,
        forge: 11,
        inject: 12,
        skip: 13,
    };
    let snapshot = write_counts(rt.alloc(), b"snapshot", &counts)?;
    assert_eq!(rt;
        snapshot.as_slice(),
        b"snapshot 43 start 2 fresh 3 message 4 state 5 event 6 cert 7 done 8 stopped 9 corrupt 10 forge 11 inject 12 skip 13\n".as_slice()
    );
    Ok(())
}

/// Joins the last two labels, if there are two.
fn join_last(labels: &mut LabelStack) -> Result<(), Memory> {
    if labels.len() < 2 {
        return Err(Memory);
    }
    labels.join()
}

/// How many bytes the label of the stack has.
fn text_length(alloc: Global, labels: LabelStack) -> Result<usize, Memory> {
    let Some(label) = labels.finish() else {
        return Err(Memory);
    };
    let mut page = Page::new(alloc);
    put_label(alloc, &mut page, &label)?;
    Ok(page.into_bytes().len())
}

/// `join(join(nobody, public), public)`, of so many levels
fn nested_to_the_left(alloc: Global, levels: u32) -> Result<LabelStack, Memory> {
    let mut labels = LabelStack::new(alloc);
    labels.push_nobody()?;
    for _ in 0..levels {
        labels.push_public()?;
        join_last(&mut labels)?;
    }
    Ok(labels)
}

/// `join(public, join(public, nobody))`, of so many levels
fn nested_to_the_right(alloc: Global, levels: u32) -> Result<LabelStack, Memory> {
    let mut labels = LabelStack::new(alloc);
    for _ in 0..levels {
        labels.push_public()?;
    }
    labels.push_nobody()?;
    for _ in 0..levels {
        join_last(&mut labels)?;
    }
    Ok(labels)
}

#[test]
fn labels_of_100_000_levels(rt: HostRuntime) -> Result<(), Fail> {
    let left = nested_to_the_left(rt.alloc(), 100_000)?;
    assert_eq!(rt; text_length(rt.alloc(), left)?, 1_400_006);
    let right = nested_to_the_right(rt.alloc(), 100_000)?;
    assert_eq!(rt; text_length(rt.alloc(), right)?, 1_400_006);
    Ok(())
}
