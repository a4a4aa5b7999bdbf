ghost use Rattle.std.specs.Prelude.{◌≡◌, ◌<◌, true, IfOk};
ghost use Rattle.dy_label.specs.Words.{uses_names_below};
ghost use Rattle.dy_label.specs.WordsMeaning.{static_label_of};

use super::*;
use crate::label_nodes::Whole;
use crate::{Atom, Scope, StaticLabel};
use dy_term::Word;
use std::alloc::{AllocError, Global};
use std::process::Abort;
use std::test::*;

/// The label of the name of this number.
fn name(number: u8) -> StaticLabel
    requires { number < 9 }
    ensures { uses_names_below 9 (static_label_of result) ≡ true }
{
    StaticLabel::One(Atom::Name(number))
}

/// The label of this kind whose parts the two are.
fn label_of_two(
    alloc: Global,
    whole: Whole,
    first: StaticLabel,
    second: StaticLabel,
) -> Result<StaticLabel, AllocError>
    requires first { uses_names_below 9 (static_label_of first) ≡ true }
    requires second { uses_names_below 9 (static_label_of second) ≡ true }
    ensures { IfOk result (λ label. uses_names_below 9 (static_label_of label) ≡ true) }
{
    let first = Box::new(alloc, first)?;
    let second = Box::new(alloc, second)?;
    Ok(match whole {
        Whole::Join => StaticLabel::Join(first, second),
        Whole::Meet => StaticLabel::Meet(first, second),
    })
}

fn nine(rt: &impl Abort) -> Scope
    ensures { result ≡ 9 }
{
    Scope::new(9).expect(rt, "9 names are a scope")
}

/// Whether the one label implies the other, as the tables say it; `entails` must say the same.
fn implies(rt: &impl Abort, first: &StaticLabel, second: &StaticLabel) -> bool
    requires first { uses_names_below 9 (static_label_of first.now) ≡ true }
    requires second { uses_names_below 9 (static_label_of second.now) ≡ true }
{
    let scope = nine(rt);
    let by_tables = within(&table_of(first, &scope), &table_of(second, &scope));
    assert_eq!(rt; entails(first, second, &scope), by_tables);
    by_tables
}

#[test]
fn scopes_have_from_1_to_9_names(rt: HostRuntime) {
    assert!(rt; Scope::new(0).is_none());
    assert_eq!(rt; Scope::new(1).expect(&rt, "a scope").names(), 1);
    assert_eq!(rt; nine(&rt).names(), 9);
    assert!(rt; Scope::new(10).is_none());
}

#[test]
fn rows_of_words(rt: HostRuntime) {
    let scope = nine(&rt);
    let own = table_of(&name(0), &scope);
    assert_eq!(rt; own[0], 0xaaaa_aaaa_aaaa_aaaa);
    assert_eq!(rt; own[63], 0xaaaa_aaaa_aaaa_aaaa);
    let name_6 = table_of(&name(6), &scope);
    assert_eq!(rt;
        (name_6[0], name_6[1], name_6[2], name_6[3]),
        (0, u64::MAX, 0, u64::MAX)
    );
    let session = table_of(&StaticLabel::One(Atom::Session), &scope);
    assert_eq!(rt;
        (session[7], session[8], session[15], session[16]),
        (0, u64::MAX, u64::MAX, 0)
    );
    let prior = table_of(&StaticLabel::One(Atom::Prior), &scope);
    assert_eq!(rt;
        (prior[15], prior[16], prior[31], prior[32]),
        (0, u64::MAX, u64::MAX, 0)
    );
    let next = table_of(&StaticLabel::One(Atom::Next), &scope);
    assert_eq!(rt;
        (next[0], next[31], next[32], next[63]),
        (0, 0, u64::MAX, u64::MAX)
    );
    assert_eq!(rt; join(&own, &session)[8], u64::MAX);
    assert_eq!(rt; join(&own, &session)[7], 0xaaaa_aaaa_aaaa_aaaa);
    assert_eq!(rt; meet(&own, &session)[8], 0xaaaa_aaaa_aaaa_aaaa);
    assert_eq!(rt; meet(&own, &session)[7], 0);
}

#[test]
fn words_of_one_session(rt: HostRuntime) {
    let session = StaticLabel::One(Atom::Session);
    let next = StaticLabel::One(Atom::Next);
    let prior = StaticLabel::One(Atom::Prior);
    assert!(rt; implies(&rt, &next, &session));
    assert!(rt; !implies(&rt, &session, &next));
    assert!(rt; implies(&rt, &prior, &session));
    assert!(rt; implies(&rt, &session, &name(0)));
    assert!(rt; !implies(&rt, &name(0), &session));
    assert!(rt; !implies(&rt, &session, &name(1)));
    assert!(rt; !implies(&rt, &prior, &next));
    assert!(rt; !implies(&rt, &next, &prior));
}

#[test]
fn joins_and_meets(rt: HostRuntime) -> Result<(), Fail> {
    let alloc = rt.alloc();
    let either = label_of_two(alloc, Whole::Join, name(1), name(2))?;
    assert!(rt; !implies(&rt, &either, &name(1)));
    assert!(rt; implies(&rt, &name(1), &either));
    let both = label_of_two(alloc, Whole::Meet, name(1), StaticLabel::One(Atom::Next))?;
    assert!(rt; implies(&rt, &both, &name(0)));
    assert!(rt; implies(&rt, &both, &name(1)));
    assert!(rt; !implies(&rt, &name(1), &both));
    Ok(())
}

#[test]
fn laws_are_called(_rt: HostRuntime) {
    labels_are_open_as_their_words_are();
    readers_are_put_in_place::<Word>();
    states_are_in_one_order();
    implication_by_rows();
    choices_and_rows();
    versions_decide_implication();
    tables_never_fall();
}

#[test]
fn public_and_nobody(rt: HostRuntime) {
    let next = StaticLabel::One(Atom::Next);
    assert!(rt; implies(&rt, &StaticLabel::Nobody, &next));
    assert!(rt; !implies(&rt, &next, &StaticLabel::Nobody));
    assert!(rt; implies(&rt, &next, &StaticLabel::Public));
    assert!(rt; !implies(&rt, &StaticLabel::Public, &next));
}

/// `join(meet(a, b), meet(c, d))`
fn either_pair(
    alloc: Global,
    a: StaticLabel,
    b: StaticLabel,
    c: StaticLabel,
    d: StaticLabel,
) -> Result<StaticLabel, AllocError>
    requires a { uses_names_below 9 (static_label_of a) ≡ true }
    requires b { uses_names_below 9 (static_label_of b) ≡ true }
    requires c { uses_names_below 9 (static_label_of c) ≡ true }
    requires d { uses_names_below 9 (static_label_of d) ≡ true }
    ensures { IfOk result (λ label. uses_names_below 9 (static_label_of label) ≡ true) }
{
    let first = label_of_two(alloc, Whole::Meet, a, b)?;
    let second = label_of_two(alloc, Whole::Meet, c, d)?;
    label_of_two(alloc, Whole::Join, first, second)
}

/// The names 0 to 7 by pairs, of which one is open.
fn some_pair(alloc: Global) -> Result<StaticLabel, AllocError>
    ensures { IfOk result (λ label. uses_names_below 9 (static_label_of label) ≡ true) }
{
    let low = either_pair(alloc, name(0), name(1), name(2), name(3))?;
    let high = either_pair(alloc, name(4), name(5), name(6), name(7))?;
    label_of_two(alloc, Whole::Join, low, high)
}

// 16 leaves, with nine names and every other word. Its second half is open just where `self` is:
// by itself, and by each of the others only together with it.
#[test]
fn a_label_of_the_greatest_size(rt: HostRuntime) -> Result<(), Fail> {
    let alloc = rt.alloc();
    let session = StaticLabel::One(Atom::Session);
    let prior = StaticLabel::One(Atom::Prior);
    let next = StaticLabel::One(Atom::Next);
    let words = either_pair(alloc, name(8), session, prior, next)?;
    let rest = either_pair(
        alloc,
        StaticLabel::Public,
        name(0),
        StaticLabel::Nobody,
        name(1),
    )?;
    let own = label_of_two(alloc, Whole::Join, words, rest)?;
    let label = label_of_two(alloc, Whole::Meet, some_pair(alloc)?, own)?;
    let short = label_of_two(alloc, Whole::Meet, some_pair(alloc)?, name(0))?;
    assert!(rt; implies(&rt, &label, &short));
    assert!(rt; implies(&rt, &short, &label));
    assert!(rt; implies(&rt, &label, &name(0)));
    assert!(rt; !implies(&rt, &label, &name(1)));
    assert!(rt; !implies(&rt, &label, &StaticLabel::One(Atom::Session)));
    assert!(rt; !implies(&rt, &name(0), &label));
    Ok(())
}
