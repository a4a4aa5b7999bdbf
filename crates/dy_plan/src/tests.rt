ghost use Rattle.std.specs.Prelude.{◌≡◌, ◌<◌, ◌^◌, true};
ghost use Rattle.dy_syntax.specs.Meaning.{plan_of};
ghost use Rattle.dy_plan.specs.Steps as steps;

use super::*;
use dy_entry::Entry;
use dy_flat::{FlatTerm, lit};
use dy_label::Corruption;
use dy_parse::parse;
use dy_recipe::Move;
use dy_syntax::{File, Plan};
use dy_term::{Text, Word};
use sqlite_items::Items;
use std::alloc::Global;
use std::test::*;

/// A round of five steps.
const FIVE_STEPS: &[u8] =
    b"dystar 1\nplan {\n  round { a: forge; b: forge; c: forge; d: forge; e: forge; }\n}\n";

/// Steps of each kind, and recipes of each kind of leaf. Of the steps, `s`, `f` and `i` have entries in the trace.
const RESOLVED: &[u8] = b"dystar 1
plan {
  round {
    s: alice Make(bob);
    f: forge;
    i: inject \"yes\";
    g: alice Go() on s msg i.1;
    x: corrupt alice s 1;
    m: inject msg s.2;
    c: inject cert s.1;
    n: inject nonce f;
    d: inject field s.1.2;
    p: inject name bob;
    t: inject \"tag\"(nonce f, pair(msg i.1, name bob));
  }
}
";

/// Steps that name what the trace has not.
const UNRESOLVED: &[u8] = b"dystar 1
plan {
  round {
    s: alice Make(bob);
    f: forge;
    i: inject \"yes\";
    l: forge;
    a: corrupt bob s 1;
    b: corrupt alice f 1;
    c: alice Go() on i;
    d: alice Go() msg s.3;
    e: inject msg i.2;
    g: inject msg s.0;
    h: inject cert s.2;
    j: inject nonce i;
    k: inject nonce l;
    m: inject field s.2.1;
    n: inject pair(name bob, nonce zoe);
  }
}
";

/// One literal as a list.
fn one_literal(alloc: Global, text: &[u8]) -> Option<Items<FlatTerm>> {
    let mut terms = Items::new(alloc);
    terms.push(literal(alloc, text)?).ok()?;
    Some(terms)
}

fn literal(alloc: Global, text: &[u8]) -> Option<FlatTerm> {
    lit(alloc, &Text::new(text)?).ok()
}

/// The start of step 0, which opens session 1 of alice.
fn start_of_alice(alloc: Global) -> Option<Entry> {
    let mut args = Items::new(alloc);
    args.push(Word::new(b"bob")?).ok()?;
    let handler = Word::new(b"Make")?;
    Some(Entry::Start(0, handler, Word::new(b"alice")?, 1, args, None))
}

fn state_of_alice(alloc: Global) -> Option<Entry> {
    let fields = one_literal(alloc, b"kept")?;
    Some(Entry::State(1, Word::new(b"alice")?, 1, 1, Word::new(b"Kept")?, fields))
}

fn cert_of_alice(alloc: Global) -> Option<Entry> {
    let key = literal(alloc, b"key")?;
    Some(Entry::Cert(1, Word::new(b"alice")?, Word::new(b"Own")?, key))
}

/// What alice's instance puts at these indices, with a forged nonce at 3 and a message of the attacker at 5.
fn trace(alloc: Global) -> Option<Items<Entry>> {
    let mut entries = Items::new(alloc);
    entries.push(Entry::Setup(Items::new(alloc))).ok()?;
    entries.push(start_of_alice(alloc)?).ok()?;
    entries
        .push(Entry::Message(1, literal(alloc, b"one")?))
        .ok()?;
    entries.push(Entry::Forge(1)).ok()?;
    entries.push(state_of_alice(alloc)?).ok()?;
    entries
        .push(Entry::Inject(2, literal(alloc, b"yes")?))
        .ok()?;
    entries
        .push(Entry::Message(1, literal(alloc, b"two")?))
        .ok()?;
    entries.push(cert_of_alice(alloc)?).ok()?;
    Some(entries)
}

/// The file of a short text.
fn file_of(alloc: Global, text: &[u8]) -> Option<File> {
    if text.len() > 1_000 {
        return None;
    }
    parse(alloc, text).ok()
}

/// Whether a plan has one round, of few steps.
fn is_short(plan: &Plan) -> bool
    ensures { result ≡ true → steps.step_count (plan_of plan.now) < 2 ^ 32 }
{
    match plan.rounds.as_slice() {
        [round] => round.steps.len() <= 100,
        _ => false,
    }
}

/// What a step of a short plan comes to in a trace of few entries.
fn resolved(alloc: Global, file: &File, step: u32, entries: &[Entry]) -> Option<Resolved> {
    if !is_short(&file.plan) || entries.len() > 100 {
        return None;
    }
    resolve(alloc, &file.plan, step, entries).ok()
}

/// How many steps a short plan has.
fn count_of(file: &File) -> Option<u32> {
    if !is_short(&file.plan) {
        return None;
    }
    Some(step_count(&file.plan))
}

/// A kind of move, and the numbers that it names.
fn numbers_of(step: &Move) -> (u32, u32, u32) {
    match step {
        Move::Message(index) => (1, *index, 0),
        Move::Cert(index) => (2, *index, 0),
        Move::Forge(index) => (3, *index, 0),
        Move::State(index, field) => (4, *index, *field),
        Move::Lit(_) => (5, 0, 0),
        Move::Name(_) => (6, 0, 0),
        Move::Pair(first, second) => (7, *first, *second),
        _ => (0, 0, 0),
    }
}

fn are_moves(moves: &[Move], expected: &[(u32, u32, u32)]) -> bool {
    if moves.len() != expected.len() {
        return false;
    }
    for (step, numbers) in moves.iter().zip(expected) {
        if numbers_of(step) != *numbers {
            return false;
        }
    }
    true
}

fn injects(found: &Resolved, expected: &[(u32, u32, u32)]) -> bool {
    match found {
        Resolved::Inject(recipe) => are_moves(recipe.moves.as_slice(), expected),
        _ => false,
    }
}

fn starts(found: &Resolved, session: Option<u32>, args: usize, message: Option<u32>) -> bool {
    match found {
        Resolved::Start(step) => {
            step.session == session && step.args.len() == args && step.message == message
        }
        _ => false,
    }
}

/// Whether the attacker's steps of the first file inject the values of these entries.
fn are_injected(alloc: Global, file: &File, entries: &[Entry]) -> Option<bool> {
    let literal = injects(&resolved(alloc, file, 2, entries)?, &[(5, 0, 0)]);
    let message = injects(&resolved(alloc, file, 5, entries)?, &[(1, 6, 0)]);
    let cert = injects(&resolved(alloc, file, 6, entries)?, &[(2, 7, 0)]);
    let nonce = injects(&resolved(alloc, file, 7, entries)?, &[(3, 3, 0)]);
    let field = injects(&resolved(alloc, file, 8, entries)?, &[(4, 4, 2)]);
    let name = injects(&resolved(alloc, file, 9, entries)?, &[(6, 0, 0)]);
    Some(literal && message && cert && nonce && field && name)
}

/// Whether a tuple is injected by its parts from left to right, and then pairs from right to left.
fn is_tuple_injected(alloc: Global, file: &File, entries: &[Entry]) -> Option<bool> {
    let found = resolved(alloc, file, 10, entries)?;
    Some(injects(
        &found,
        &[
            (5, 0, 0),
            (3, 3, 0),
            (1, 5, 0),
            (6, 0, 0),
            (7, 3, 4),
            (7, 2, 5),
            (7, 1, 6),
        ],
    ))
}

/// Whether the other steps of the first file come to what they say.
fn are_resolved(alloc: Global, file: &File, entries: &[Entry]) -> Option<bool> {
    let begins = starts(&resolved(alloc, file, 0, entries)?, None, 1, None);
    let forges = matches!(&resolved(alloc, file, 1, entries)?, Resolved::Forge);
    let goes_on = starts(&resolved(alloc, file, 3, entries)?, Some(1), 0, Some(5));
    Some(begins && forges && goes_on && corrupts(&resolved(alloc, file, 4, entries)?)?)
}

/// Whether the first version of session 1 of alice is corrupted.
fn corrupts(found: &Resolved) -> Option<bool> {
    let version = Corruption::Version(Word::new(b"alice")?, 1, 1);
    match found {
        Resolved::Corrupt(corruption) => Some(corruption.same(&version)),
        _ => Some(false),
    }
}

fn resolves(alloc: Global) -> Option<bool> {
    let file = file_of(alloc, RESOLVED)?;
    let entries = trace(alloc)?;
    let injected = are_injected(alloc, &file, entries.as_slice())?
        && is_tuple_injected(alloc, &file, entries.as_slice())?;
    Some(injected && are_resolved(alloc, &file, entries.as_slice())? && count_of(&file)? == 11)
}

/// Whether the steps from the fifth on are unresolved, and a number that no step has.
fn leaves_unresolved(alloc: Global) -> Option<bool> {
    let file = file_of(alloc, UNRESOLVED)?;
    let entries = trace(alloc)?;
    for step in 4..16 {
        let found = resolved(alloc, &file, step, entries.as_slice())?;
        if !matches!(found, Resolved::Unresolved) {
            return Some(false);
        }
    }
    Some(count_of(&file)? == 15)
}

fn is_dealt(alloc: Global, file: &File, worker: u32, places: &[u32]) -> Option<bool> {
    if worker >= 2 {
        return None;
    }
    let round = file.plan.rounds.get(0)?;
    let dealt = deal(alloc, round, 2, worker).ok()?;
    Some(dealt.as_slice() == places)
}

fn deals(alloc: Global) -> Option<bool> {
    let file = file_of(alloc, FIVE_STEPS)?;
    Some(is_dealt(alloc, &file, 0, &[0, 2, 4])? && is_dealt(alloc, &file, 1, &[1, 3])?)
}

#[test]
fn each_step_has_one_worker(rt: HostRuntime) {
    assert_eq!(rt; deals(rt.alloc()), Some(true));
}

#[test]
fn each_kind_of_step_is_resolved(rt: HostRuntime) {
    assert_eq!(rt; resolves(rt.alloc()), Some(true));
}

#[test]
fn what_is_not_there_is_unresolved(rt: HostRuntime) {
    assert_eq!(rt; leaves_unresolved(rt.alloc()), Some(true));
}
