ghost use Rattle.std.specs.Prelude.{◌≡◌, ◌<◌, true, IfOk};
ghost use Rattle.dy_label.specs.Words.{uses_names_below};
ghost use Rattle.dy_label.specs.WordsMeaning.{static_label_of};

use super::*;
use dy_label::{Atom, Scope, StaticLabel, Table, join, meet, table_of, within};
use dy_term::Word;
use sqlite_items::Items;
use std::alloc::Global;
use std::process::Abort;
use std::test::*;

/// The table of a label of a scope of 9 names.
fn table(rt: &impl Abort, label: StaticLabel) -> Table
    requires { uses_names_below 9 (static_label_of label) ≡ true }
{
    table_of(&label, &Scope::new(9).expect(rt, "9 names are a scope"))
}

/// The table of the name of this number.
fn name(rt: &impl Abort, number: u8) -> Table
    requires { number < 9 }
{
    table(rt, StaticLabel::One(Atom::Name(number)))
}

fn word(bytes: &[u8]) -> Result<Word, Fail> {
    match Word::new(bytes) {
        Some(word) => Ok(word),
        None => Err("no word")?,
    }
}

fn usage(alloc: Global, name: &[u8], args: &[u8]) -> Result<StaticUse, Fail> {
    Ok(StaticUse {
        usage: word(name)?,
        args: Items::from_slice(alloc, args)?,
    })
}

/// Whether the two tables are of labels that imply one another.
fn same(first: &Table, second: &Table) -> bool {
    within(first, second) && within(second, first)
}

#[test]
fn usages_are_the_same_by_their_parts(rt: HostRuntime) -> Result<(), Fail> {
    let key = usage(rt.alloc(), b"K", &[1, 2])?;
    assert!(rt; key.same(&key.copy(rt.alloc())?));
    assert!(rt; !key.same(&usage(rt.alloc(), b"K", &[2, 1])?));
    assert!(rt; !key.same(&usage(rt.alloc(), b"K", &[1])?));
    assert!(rt; !key.same(&usage(rt.alloc(), b"L", &[1, 2])?));
    Ok(())
}

#[test]
fn a_field_that_was_opened_is_known_by_its_type(rt: HostRuntime) -> Result<(), Fail> {
    let alloc = rt.alloc();
    let own = name(&rt, 0);
    let peer = name(&rt, 1);
    let third = name(&rt, 2);
    let secret = narrow(alloc, &Declared::Secret(own), &peer, &third)?;
    assert!(rt; same(&secret.hi, &join(&own, &peer)));
    assert!(rt; same(&secret.lo, &join(&own, &third)));
    assert!(rt; secret.claims.is_empty());
    let upto = narrow(alloc, &Declared::Upto(own), &peer, &third)?;
    assert!(rt; same(&upto.hi, &join(&own, &peer)));
    assert!(rt; same(&upto.lo, &table(&rt, StaticLabel::Public)));
    let key = narrow(
        alloc,
        &Declared::Key(own, usage(alloc, b"K", &[0])?),
        &peer,
        &third,
    )?;
    assert!(rt; same(&key.lo, &join(&own, &third)));
    assert!(rt; key.has_use(&usage(alloc, b"K", &[0])?));
    let public = narrow(
        alloc,
        &Declared::Pk(own, usage(alloc, b"K", &[0])?),
        &peer,
        &third,
    )?;
    assert!(rt; same(&public.hi, &peer));
    let label = public.pk_table(&usage(alloc, b"K", &[0])?).ok_or("no pk")?;
    assert!(rt; same(&label, &join(&own, &third)));
    assert!(rt; public.vk_table(&usage(alloc, b"K", &[0])?).is_none());
    for declared in [Declared::Name, Declared::Any] {
        assert!(rt; claims_of(alloc, &declared, &third)?.is_empty());
    }
    Ok(())
}

#[test]
fn values_fit_types(rt: HostRuntime) -> Result<(), Fail> {
    let alloc = rt.alloc();
    let own = name(&rt, 0);
    let peer = name(&rt, 1);
    let nobody = table(&rt, StaticLabel::Nobody);
    let key = narrow(
        alloc,
        &Declared::Key(own, usage(alloc, b"K", &[0])?),
        &nobody,
        &nobody,
    )?;
    assert!(rt; fits(&key, &Declared::Name));
    assert!(rt; fits(&key, &Declared::Any));
    assert!(rt; fits(&key, &Declared::Upto(own)));
    assert!(rt; !fits(&key, &Declared::Upto(join(&own, &peer))));
    assert!(rt; fits(&key, &Declared::Secret(own)));
    assert!(rt; !fits(&key, &Declared::Secret(meet(&own, &peer))));
    assert!(rt; fits(&key, &Declared::Key(own, usage(alloc, b"K", &[0])?)));
    assert!(rt; !fits(&key, &Declared::Key(own, usage(alloc, b"K", &[1])?)));
    assert!(rt; !fits(&Known::plain(alloc), &Declared::Secret(own)));
    assert!(rt; fits(&Known::plain(alloc), &Declared::Upto(nobody)));
    assert!(rt; !fits(&Known::unknown(alloc), &Declared::Upto(own)));
    Ok(())
}

/// Two claims on keys of one usage are one with the meet of their labels, wherever they stand.
#[test]
fn claims_on_keys_are_taken_together(rt: HostRuntime) -> Result<(), Fail> {
    let alloc = rt.alloc();
    let own = name(&rt, 0);
    let peer = name(&rt, 1);
    let both = meet(&own, &peer);
    let mut known = Known::unknown(alloc);
    add_claim(&mut known.claims, Claim::Pk(own, usage(alloc, b"K", &[0])?))?;
    add_claim(&mut known.claims, Claim::Use(usage(alloc, b"K", &[0])?))?;
    add_claim(&mut known.claims, Claim::Vk(own, usage(alloc, b"K", &[0])?))?;
    let mut other = known.copy(alloc)?;
    assert!(rt; !fits(&known, &Declared::Pk(both, usage(alloc, b"K", &[0])?)));
    add_claim(
        &mut other.claims,
        Claim::Pk(peer, usage(alloc, b"K", &[0])?),
    )?;
    let one = identify(alloc, &known, &other)?;
    assert!(rt; fits(&one, &Declared::Pk(own, usage(alloc, b"K", &[0])?)));
    assert!(rt; fits(&one, &Declared::Pk(peer, usage(alloc, b"K", &[0])?)));
    assert!(rt; !fits(&known, &Declared::Pk(peer, usage(alloc, b"K", &[0])?)));
    assert!(rt; one.has_pk(&join(&own, &peer), &usage(alloc, b"K", &[0])?));
    assert!(rt;
        same(
            &one.pk_table(&usage(alloc, b"K", &[0])?).ok_or("no pk")?,
            &both
        )
    );
    assert!(rt;
        same(
            &one.vk_table(&usage(alloc, b"K", &[0])?).ok_or("no vk")?,
            &own
        )
    );
    assert!(rt; fits(&one, &Declared::Vk(own, usage(alloc, b"K", &[0])?)));
    assert!(rt; !one.has_vk(&peer, &usage(alloc, b"K", &[0])?));
    assert!(rt; !one.has_pk(&own, &usage(alloc, b"K", &[1])?));
    Ok(())
}

/// Forty times one with itself: what is claimed already is not claimed again.
#[test]
fn knowledge_does_not_grow_by_what_it_has(rt: HostRuntime) -> Result<(), Fail> {
    let alloc = rt.alloc();
    let mut known = narrow(
        alloc,
        &Declared::Pk(name(&rt, 0), usage(alloc, b"K", &[0])?),
        &name(&rt, 1),
        &name(&rt, 2),
    )?;
    add_claim(&mut known.claims, Claim::Use(usage(alloc, b"K", &[0])?))?;
    for _ in 0..40 {
        known = identify(alloc, &known, &known)?;
    }
    assert_eq!(rt; known.claims.len(), 2);
    assert!(rt; same(&known.hi, &name(&rt, 1)));
    Ok(())
}

#[test]
fn two_values_that_are_one_are_known_by_both(rt: HostRuntime) -> Result<(), Fail> {
    let alloc = rt.alloc();
    let own = name(&rt, 0);
    let peer = name(&rt, 1);
    let nobody = table(&rt, StaticLabel::Nobody);
    let first = narrow(alloc, &Declared::Secret(own), &nobody, &nobody)?;
    let second = narrow(
        alloc,
        &Declared::Key(peer, usage(alloc, b"K", &[0])?),
        &nobody,
        &nobody,
    )?;
    let one = identify(alloc, &first, &second)?;
    assert!(rt; same(&one.hi, &join(&own, &peer)));
    assert!(rt; same(&one.lo, &meet(&own, &peer)));
    assert!(rt; one.has_use(&usage(alloc, b"K", &[0])?));
    assert!(rt; !first.has_use(&usage(alloc, b"K", &[0])?));
    Ok(())
}

fn fact(alloc: Global, event: &[u8], args: &[u32], guard: Table) -> Result<Fact, Fail> {
    Ok(Fact {
        event: word(event)?,
        args: Items::from_slice(alloc, args)?,
        guard,
    })
}

/// Variable 2 is one with variable 1; variable 5 is past the list, and its own value.
#[test]
fn facts_are_found_by_the_values_of_their_variables(rt: HostRuntime) -> Result<(), Fail> {
    let alloc = rt.alloc();
    let own = name(&rt, 0);
    let peer = name(&rt, 1);
    let both = meet(&own, &peer);
    let mut facts = Items::new(alloc);
    facts.push(fact(alloc, b"Sent", &[0, 2], own)?)?;
    facts.push(fact(alloc, b"Sent", &[0, 3], peer)?)?;
    facts.push(fact(alloc, b"Sent", &[0, 1], peer)?)?;
    facts.push(fact(alloc, b"Took", &[0, 1, 5], own)?)?;
    let first = [0, 1, 1, 3];
    let found = |event: &Word, values: &[u32], label: &Table| {
        has_fact(facts.as_slice(), first.as_slice(), event, values, label)
    };
    let sent = word(b"Sent")?;
    assert!(rt; found(&sent, [0, 1].as_slice(), &peer));
    assert!(rt; found(&sent, [0, 1].as_slice(), &own));
    assert!(rt; !found(&sent, [0, 1].as_slice(), &table(&rt, StaticLabel::Nobody)));
    assert!(rt; !found(&sent, [0, 3].as_slice(), &own));
    assert!(rt; !found(&sent, [0, 2].as_slice(), &peer));
    assert!(rt; !found(&sent, [0].as_slice(), &peer));
    assert!(rt; found(&word(b"Took")?, [0, 1, 5].as_slice(), &own));
    assert!(rt; !found(&word(b"Took")?, [0, 1].as_slice(), &own));
    assert!(rt; !within(&own, &both));
    Ok(())
}

#[test]
fn all_may_know_what_is_public(rt: HostRuntime) {
    assert!(rt; within(&nobody_table(), &public_table()));
    assert!(rt; !within(&public_table(), &nobody_table()));
}

#[test]
fn laws_are_there() {
    what_a_meet_implies();
    weaker_knowledge_is_ordered();
    stronger_knowledge_has_more();
    weaker_parts_give_weaker_knowledge();
}
