use super::*;
use dy_term::{Memory, Word};
use sqlite_items::Items;
use std::alloc::Global;
use std::process::Abort;
use std::test::*;

fn word(bytes: &[u8]) -> Result<Word, Fail> {
    match Word::new(bytes) {
        Some(word) => Ok(word),
        None => Err("no word")?,
    }
}

fn readers(alloc: Global) -> Result<Vec<Reader>, Fail> {
    let mut readers = Vec::new(alloc);
    readers.push(Reader::Principal(word(b"alice")?))?;
    readers.push(Reader::Session(word(b"alice")?, 7))?;
    readers.push(Reader::Version(word(b"alice")?, 7, 2))?;
    Ok(readers)
}

fn corruptions(alloc: Global) -> Result<Vec<Corruption>, Fail> {
    let mut corruptions = Vec::new(alloc);
    corruptions.push(Corruption::Principal(word(b"alice")?))?;
    corruptions.push(Corruption::Session(word(b"alice")?, 7))?;
    corruptions.push(Corruption::Version(word(b"alice")?, 7, 2))?;
    corruptions.push(Corruption::Principal(word(b"bob")?))?;
    corruptions.push(Corruption::Session(word(b"bob")?, 7))?;
    corruptions.push(Corruption::Version(word(b"bob")?, 7, 2))?;
    corruptions.push(Corruption::Session(word(b"alice")?, 8))?;
    corruptions.push(Corruption::Version(word(b"alice")?, 8, 2))?;
    corruptions.push(Corruption::Version(word(b"alice")?, 7, 3))?;
    Ok(corruptions)
}

#[test]
fn corruptions_open_readers(rt: HostRuntime) -> Result<(), Fail> {
    let wanted = [
        [true, true, true],
        [true, true, true],
        [true, true, true],
        [false, false, false],
        [false, false, false],
        [false, false, false],
        [true, false, false],
        [true, false, false],
        [true, true, false],
    ];
    for (corruption, wanted) in corruptions(rt.alloc())?.into_iter().zip(wanted) {
        for (reader, wanted) in readers(rt.alloc())?.into_iter().zip(wanted) {
            let label = Label::one(rt.alloc(), reader)?;
            assert_eq!(rt;
                is_open(&label, [corruption.copy()].as_slice()),
                wanted,
                "{corruption:?}, {label:?}"
            );
        }
    }
    Ok(())
}

/// For each corruption, whether it covers version 2 or 3 of alice's session 7, or version 2 of 8.
#[test]
fn corruptions_cover_versions(rt: HostRuntime) -> Result<(), Fail> {
    let alice = word(b"alice")?;
    let wanted = [
        [true, true, true],
        [true, true, false],
        [true, false, false],
        [false, false, false],
        [false, false, false],
        [false, false, false],
        [false, false, true],
        [false, false, true],
        [false, true, false],
    ];
    for (corruption, wanted) in corruptions(rt.alloc())?.into_iter().zip(wanted) {
        let covered = [
            corruption.covers(&alice, 7, 2),
            corruption.covers(&alice, 7, 3),
            corruption.covers(&alice, 8, 2),
        ];
        assert_eq!(rt; covered, wanted, "{corruption:?}");
    }
    versions_are_covered_where_they_are_open();
    Ok(())
}

#[test]
fn readers_and_corruptions_are_the_same_by_their_parts(rt: HostRuntime) -> Result<(), Fail> {
    for (i, reader) in readers(rt.alloc())?.iter().enumerate() {
        for (j, other) in readers(rt.alloc())?.iter().enumerate() {
            assert_eq!(rt; reader.same(&other.copy()), i == j, "{reader:?}, {other:?}");
        }
    }
    for (i, corruption) in corruptions(rt.alloc())?.iter().enumerate() {
        for (j, other) in corruptions(rt.alloc())?.iter().enumerate() {
            assert_eq!(rt;
                corruption.same(&other.copy()),
                i == j,
                "{corruption:?}, {other:?}"
            );
        }
    }
    Ok(())
}

fn principal(alloc: Global, name: &[u8]) -> Result<Label, Fail> {
    Ok(Label::one(alloc, Reader::Principal(word(name)?))?)
}

/// A corruption of alice, one of a session of bob, both or neither.
fn corruptions_of(alloc: Global, alice: bool, bob: bool) -> Result<Vec<Corruption>, Fail> {
    let mut some = Vec::new(alloc);
    if alice {
        some.push(Corruption::Principal(word(b"alice")?))?;
    }
    if bob {
        some.push(Corruption::Session(word(b"bob")?, 1))?;
    }
    Ok(some)
}

#[test]
fn joins_and_meets(rt: HostRuntime) -> Result<(), Fail> {
    let join = principal(rt.alloc(), b"alice")?.join(principal(rt.alloc(), b"bob")?)?;
    let meet = principal(rt.alloc(), b"alice")?.meet(principal(rt.alloc(), b"bob")?)?;
    let public = Label::public(rt.alloc())?;
    let nobody = Label::nobody(rt.alloc())?;
    for (alice, bob) in [(false, false), (true, false), (false, true), (true, true)] {
        let some = corruptions_of(rt.alloc(), alice, bob)?;
        assert_eq!(rt; is_open(&join, &some), alice || bob);
        assert_eq!(rt; is_open(&meet, &some), alice && bob);
        assert!(rt; is_open(&public, &some));
        assert!(rt; !is_open(&nobody, &some));
    }
    more_corruptions_close_no_label();
    Ok(())
}

#[test]
fn labels_are_the_same_by_their_parts(rt: HostRuntime) -> Result<(), Fail> {
    let join = principal(rt.alloc(), b"alice")?.join(principal(rt.alloc(), b"bob")?)?;
    let meet = principal(rt.alloc(), b"alice")?.meet(principal(rt.alloc(), b"bob")?)?;
    let turned = principal(rt.alloc(), b"bob")?.join(principal(rt.alloc(), b"alice")?)?;
    assert!(rt; join.same(&join.copy(rt.alloc())?));
    assert!(rt; !join.same(&meet));
    assert!(rt; !join.same(&turned));
    Ok(())
}

/// Adds the part that has no say at this level: a closed label for a join, an open one for a meet.
fn push_idle(stack: &mut LabelStack, level: u32) -> Result<(), Memory> {
    if level % 2 == 0 {
        stack.push_nobody()
    } else {
        stack.push_public()
    }
}

/// Puts the whole of this level in the place of the last two labels, where two are there.
fn put_together(stack: &mut LabelStack, level: u32) -> Result<(), Memory> {
    if stack.len() < 2 {
        Ok(())
    } else if level % 2 == 0 {
        stack.join()
    } else {
        stack.meet()
    }
}

/// Labels of so many levels. The deepest part is this reader. The join of a closed label or the
/// meet of an open one stands at each level. So the whole is open where the reader is.
fn nested_to_the_left(alloc: Global, levels: u32, reader: Reader) -> Result<Label, Fail> {
    let mut stack = LabelStack::new(alloc);
    stack.push_reader(reader)?;
    for level in 0..levels {
        push_idle(&mut stack, level)?;
        put_together(&mut stack, level)?;
    }
    finish(stack)
}

fn nested_to_the_right(alloc: Global, levels: u32, reader: Reader) -> Result<Label, Fail> {
    let mut stack = LabelStack::new(alloc);
    for level in 0..levels {
        push_idle(&mut stack, level)?;
    }
    stack.push_reader(reader)?;
    for level in (0..levels).rev() {
        put_together(&mut stack, level)?;
    }
    finish(stack)
}

fn finish(stack: LabelStack) -> Result<Label, Fail> {
    match stack.finish() {
        Some(label) => Ok(label),
        None => Err("no label")?,
    }
}

/// The number of leaves, or that of some of them where there are more than `limit` nodes.
fn leaves(alloc: Global, label: &Label, limit: u32) -> Result<u32, Fail> {
    let mut views = Vec::new(alloc);
    views.push(label.whole())?;
    let mut leaves = 0u32;
    for _ in 0..limit {
        let Some(view) = views.pop() else {
            return Ok(leaves);
        };
        match view.shape() {
            LabelShape::Join(first, second) | LabelShape::Meet(first, second) => {
                views.push(first)?;
                views.push(second)?;
            }
            LabelShape::Public | LabelShape::Nobody | LabelShape::One(_) => {
                leaves = leaves.wrapping_add(1);
            }
        }
    }
    Ok(leaves)
}

/// Copies the label, asks of the copy what is known of such a label, and lets both go.
fn try_nested(rt: &impl Abort, alloc: Global, label: Label) -> Result<(), Fail> {
    let copied = label.copy(alloc)?;
    assert!(rt; label.same(&copied));
    assert_eq!(rt; leaves(alloc, &copied, 300_000)?, 100_001);
    for (corruption, wanted) in [
        (Corruption::Version(word(b"alice")?, 7, 1), true),
        (Corruption::Version(word(b"alice")?, 8, 1), false),
    ] {
        assert_eq!(rt; is_open(&copied, [corruption].as_slice()), wanted);
    }
    Ok(())
}

#[test]
fn labels_of_100_000_levels(rt: HostRuntime) -> Result<(), Fail> {
    let reader = Reader::Session(word(b"alice")?, 7);
    let left = nested_to_the_left(rt.alloc(), 100_000, reader.copy())?;
    let right = nested_to_the_right(rt.alloc(), 100_000, reader)?;
    assert!(rt; !left.same(&right));
    try_nested(&rt, rt.alloc(), left)?;
    try_nested(&rt, rt.alloc(), right)
}

#[test]
fn a_stack_of_labels(rt: HostRuntime) -> Result<(), Fail> {
    let mut stack = LabelStack::new(rt.alloc());
    assert!(rt; stack.is_empty());
    stack.push_reader(Reader::Principal(word(b"alice")?))?;
    stack.push_nobody()?;
    assert_eq!(rt; stack.len(), 2);
    stack.join()?;
    stack.push_public()?;
    assert_eq!(rt; stack.len(), 2);
    stack.meet()?;
    let label = finish(stack)?;
    let wanted = principal(rt.alloc(), b"alice")?
        .join(Label::nobody(rt.alloc())?)?
        .meet(Label::public(rt.alloc())?)?;
    assert!(rt; label.same(&wanted));
    assert!(rt; LabelStack::new(rt.alloc()).finish().is_none());
    Ok(())
}

fn usage(alloc: Global, kind: Kind, owners: &[&[u8]]) -> Result<Usage, Fail> {
    let mut words = Items::new(alloc);
    for owner in owners {
        words.push(word(owner)?)?;
    }
    Ok(Usage {
        kind,
        name: word(b"Key")?,
        owners: words,
    })
}

#[test]
fn usages_are_the_same_by_their_parts(rt: HostRuntime) -> Result<(), Fail> {
    let sig = usage(rt.alloc(), Kind::Sig, &[b"alice", b"bob"])?;
    assert!(rt; sig.same(&sig.copy(rt.alloc())?));
    assert!(rt; !sig.same(&usage(rt.alloc(), Kind::Mac, &[b"alice", b"bob"])?));
    assert!(rt; !sig.same(&usage(rt.alloc(), Kind::Sig, &[b"bob", b"alice"])?));
    assert!(rt; !sig.same(&usage(rt.alloc(), Kind::Sig, &[b"alice"])?));
    let owners = copy_words(rt.alloc(), sig.owners.as_slice())?;
    assert!(rt; same_words(owners.as_slice(), sig.owners.as_slice()));
    assert!(rt; Outcome::Stopped(3) == Outcome::Stopped(3));
    assert!(rt; Outcome::Stopped(3) != Outcome::Done);
    for kind in [
        Kind::Nonce,
        Kind::Pke,
        Kind::Sig,
        Kind::Aead,
        Kind::Mac,
        Kind::Kdf,
    ] {
        assert_eq!(rt; kind == Kind::Aead, matches!(kind, Kind::Aead));
    }
    Ok(())
}
