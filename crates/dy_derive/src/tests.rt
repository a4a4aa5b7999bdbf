ghost use Rattle.std.specs.Prelude.{IfOk};
ghost use Rattle.dy_entry.specs.Meaning.{entry_of};
ghost use Rattle.dy_derive.specs.KnowledgeMeaning.{IsSmallTerm, GivesSmallValues};

use super::*;
use dy_entry::Entry;
use dy_flat::{FlatTerm, from_tree};
use dy_label::Corruption;
use dy_term::{Memory, Term, Text, Word, read_term};
use sqlite_items::Items;
use std::alloc::Global;
use std::test::*;

/// The term of this text, flat.
fn flat(alloc: Global, text: &[u8]) -> Result<FlatTerm, Memory>
    ensures { IfOk result (λ term. IsSmallTerm term) }
{
    if text.len() > 1_000 {
        return Err(Memory);
    }
    match read_term(alloc, text) {
        Ok(term) => from_tree(alloc, &term),
        Err(_) => Err(Memory),
    }
}

fn message(alloc: Global, text: &[u8]) -> Result<Entry, Memory>
    ensures { IfOk result (λ entry. GivesSmallValues (entry_of entry)) }
{
    Ok(Entry::Message(0, flat(alloc, text)?))
}

fn word(bytes: &[u8]) -> Result<Word, Memory> {
    Word::new(bytes).ok_or(Memory)
}

/// A state of session 3 of A, in this version, with one field.
fn state(alloc: Global, version: u32, field: &[u8]) -> Result<Entry, Memory>
    ensures { IfOk result (λ entry. GivesSmallValues (entry_of entry)) }
{
    let mut fields = Items::new(alloc);
    fields.push(flat(alloc, field)?)?;
    Ok(Entry::State(3, word(b"A")?, 3, version, word(b"Tag")?, fields))
}

#[test]
fn a_key_opens_what_was_sent_before_it(rt: HostRuntime) -> Result<(), Fail> {
    let alloc = rt.alloc();
    let mut knowledge = Knowledge::new(alloc)?;
    knowledge.push(&message(alloc, b"aead(hash(#7), #8, \"a\")")?)?;
    assert_eq!(rt; knowledge.nonces().len(), 0);
    knowledge.push(&message(alloc, b"#7")?)?;
    assert_eq!(rt; knowledge.nonces(), [7, 8].as_slice());
    Ok(())
}

#[test]
fn a_corruption_gives_earlier_and_later_fields(rt: HostRuntime) -> Result<(), Fail> {
    let alloc = rt.alloc();
    let mut knowledge = Knowledge::new(alloc)?;
    knowledge.push(&state(alloc, 1, b"#5")?)?;
    knowledge.push(&state(alloc, 2, b"#6")?)?;
    assert_eq!(rt; knowledge.nonces().len(), 0);
    knowledge.push(&Entry::Corrupt(0, Corruption::Version(word(b"A")?, 3, 1)))?;
    assert_eq!(rt; knowledge.nonces(), [5].as_slice());
    knowledge.push(&Entry::Corrupt(1, Corruption::Session(word(b"A")?, 3)))?;
    knowledge.push(&state(alloc, 3, b"#9")?)?;
    assert_eq!(rt; knowledge.nonces(), [5, 6, 9].as_slice());
    Ok(())
}

/// How many moves the recipe of the term of this text has, or 0 if there is none.
fn moves_of(alloc: Global, knowledge: &Knowledge, text: &[u8]) -> Result<usize, Memory> {
    if text.len() > 1_000 {
        return Err(Memory);
    }
    let Ok(term) = read_term(alloc, text) else {
        return Err(Memory);
    };
    match knowledge.derivable(&term)? {
        Some(recipe) => Ok(recipe.moves.len()),
        None => Ok(0),
    }
}

#[test]
fn a_key_that_was_never_sent_is_built(rt: HostRuntime) -> Result<(), Fail> {
    let alloc = rt.alloc();
    let mut knowledge = Knowledge::new(alloc)?;
    knowledge.push(&message(alloc, b"aead(hash(pair(\"a\", @bob)), #1, \"\")")?)?;
    // The message, "a", @bob, the pair, the hash, and what the message hides.
    assert_eq!(rt; moves_of(alloc, &knowledge, b"#1")?, 6);
    assert_eq!(rt; moves_of(alloc, &knowledge, b"mac(#1, \"x\")")?, 8);
    assert_eq!(rt; moves_of(alloc, &knowledge, b"pair(#1, #2)")?, 0);
    Ok(())
}

#[test]
fn a_recipe_of_a_nonce_opens_what_hides_it(rt: HostRuntime) -> Result<(), Fail> {
    let alloc = rt.alloc();
    let mut knowledge = Knowledge::of(alloc, &[])?;
    knowledge.push(&message(alloc, b"#7")?)?;
    knowledge.push(&message(alloc, b"aead(hash(#7), #8, \"a\")")?)?;
    assert_eq!(rt; knowledge.nonces(), [7, 8].as_slice());
    // Both messages, the hash, and what is under it.
    match knowledge.recipe_of_nonce(8)? {
        Some(recipe) => assert_eq!(rt; recipe.moves.len(), 4),
        None => panic!(rt; "no recipe"),
    }
    assert!(rt; knowledge.recipe_of_nonce(9)?.is_none());
    Ok(())
}

/// What is derived after these messages.
fn after(alloc: Global, sent: &[&[u8]]) -> Result<Knowledge, Memory> {
    let mut knowledge = Knowledge::new(alloc)?;
    for text in sent {
        knowledge.push(&message(alloc, text)?)?;
    }
    Ok(knowledge)
}

/// Messages, a term, and how many moves its recipe has, or 0 if it is not derived.
#[derive(Drop)]
struct Way {
    sent: &'static [&'static [u8]],
    term: &'static [u8],
    moves: usize,
}

fn case(sent: &'static [&'static [u8]], term: &'static [u8], moves: usize) -> Way {
    Way { sent, term, moves }
}

/// The place of the first way that is not as it says.
fn wrong_way(alloc: Global, ways: &[Way]) -> Result<Option<usize>, Memory> {
    for (place, way) in ways.iter().enumerate() {
        let knowledge = after(alloc, way.sent)?;
        if moves_of(alloc, &knowledge, way.term)? != way.moves {
            return Ok(Some(place));
        }
    }
    Ok(None)
}

#[test]
fn each_way_to_open(rt: HostRuntime) -> Result<(), Fail> {
    let ways = [
        case(&[b"pair(#1, #2)"], b"#1", 2),
        case(&[b"pair(#1, #2)"], b"#2", 2),
        case(&[b"hash(pair(#1, #2))"], b"#1", 0),
        case(&[b"penc(pk(#1), #2)", b"#1"], b"#2", 3),
        case(&[b"penc(pk(#1), #2)", b"pk(#1)"], b"#2", 0),
        case(&[b"penc(#1, #2)", b"#1"], b"#2", 0),
        case(&[b"aead(#1, #2, \"a\")", b"#1"], b"#2", 3),
        case(&[b"aead(#1, #2, \"a\")", b"#3"], b"#2", 0),
        case(&[b"aead(#1, #2, #3)"], b"#3", 2),
        case(&[b"aead(#1, #2, #3)"], b"#1", 0),
        case(&[b"sign(#1, #2)"], b"#2", 2),
        case(&[b"sign(#1, #2)"], b"#1", 0),
    ];
    assert_eq!(rt; wrong_way(rt.alloc(), &ways)?, None);
    Ok(())
}

#[test]
fn each_way_to_build(rt: HostRuntime) -> Result<(), Fail> {
    let ways = [
        case(&[], b"\"a\"", 1),
        case(&[], b"@bob", 1),
        case(&[], b"#0", 0),
        case(&[b"#1"], b"pair(#1, #1)", 2),
        case(&[b"#1"], b"pk(#1)", 2),
        case(&[b"pk(#1)"], b"vk(#1)", 0),
        case(&[b"#1"], b"vk(#1)", 2),
        case(&[b"pk(#1)"], b"penc(pk(#1), \"a\")", 3),
        case(&[b"#1"], b"sign(#1, @bob)", 3),
        case(&[b"vk(#1)"], b"sign(#1, @bob)", 0),
        case(&[b"#1", b"#2"], b"mac(#1, #2)", 3),
        case(&[b"mac(#1, #2)", b"#2"], b"#1", 0),
        case(&[b"#1"], b"kdf(#1, \"k\", \"i\")", 3),
        case(&[b"kdf(#1, \"k\", #2)"], b"#2", 0),
        case(&[b"hash(#1)"], b"hash(#1)", 1),
        case(&[b"hash(#1)"], b"#1", 0),
    ];
    assert_eq!(rt; wrong_way(rt.alloc(), &ways)?, None);
    Ok(())
}

#[test]
fn the_order_of_messages_does_not_matter(rt: HostRuntime) -> Result<(), Fail> {
    let alloc = rt.alloc();
    let sent: [&[u8]; 3] = [b"penc(pk(hash(#1)), #2)", b"aead(#2, #3, \"a\")", b"#1"];
    for [first, second, third] in [
        [0, 1, 2],
        [0, 2, 1],
        [1, 0, 2],
        [1, 2, 0],
        [2, 0, 1],
        [2, 1, 0],
    ] {
        let knowledge = after(alloc, &[sent[first], sent[second], sent[third]])?;
        assert_eq!(rt; knowledge.nonces(), [1, 2, 3].as_slice());
        assert_eq!(rt; moves_of(alloc, &knowledge, b"#3")?, 6);
    }
    Ok(())
}

#[test]
fn a_session_that_is_corrupted_gives_its_own_fields_alone(rt: HostRuntime) -> Result<(), Fail> {
    let alloc = rt.alloc();
    let mut knowledge = Knowledge::new(alloc)?;
    knowledge.push(&state(alloc, 1, b"#5")?)?;
    knowledge.push(&Entry::Corrupt(0, Corruption::Session(word(b"A")?, 4)))?;
    knowledge.push(&Entry::Corrupt(1, Corruption::Version(word(b"A")?, 3, 2)))?;
    knowledge.push(&Entry::Corrupt(2, Corruption::Principal(word(b"B")?)))?;
    assert_eq!(rt; knowledge.nonces().len(), 0);
    knowledge.push(&Entry::Corrupt(3, Corruption::Principal(word(b"A")?)))?;
    assert_eq!(rt; knowledge.nonces(), [5].as_slice());
    Ok(())
}

#[test]
fn an_attacker_has_what_it_forges_and_injects(rt: HostRuntime) -> Result<(), Fail> {
    let alloc = rt.alloc();
    let mut knowledge = Knowledge::new(alloc)?;
    knowledge.push(&Entry::Forge(0))?;
    knowledge.push(&Entry::Inject(1, flat(alloc, b"hash(#7)")?))?;
    assert_eq!(rt; moves_of(alloc, &knowledge, b"#0")?, 1);
    assert_eq!(rt; moves_of(alloc, &knowledge, b"hash(#7)")?, 1);
    assert_eq!(rt; moves_of(alloc, &knowledge, b"#7")?, 0);
    Ok(())
}
