use super::*;
use dy_entry::Entry;
use dy_flat::{name, nonce};
use dy_label::{Corruption, Kind, Label, Reader, Usage};
use dy_recipe::{Move, Recipe};
use dy_syntax::{AtomText, Decl, EventDecl, File, Id, LabelText, Nm, Param, Partner, Plan};
use dy_term::Word;
use sqlite_items::Items;
use std::alloc::Global;
use std::test::*;

fn id(bytes: &[u8]) -> Option<Id> {
    Some(Id {
        word: Word::new(bytes)?,
        line: 1,
    })
}

fn one<T: Drop>(alloc: Global, item: T) -> Option<Items<T>> {
    let mut items = Items::new(alloc);
    items.push(item).ok()?;
    Some(items)
}

/// `event Name(name a, ..)`, after the event that is given, unless `a` is corrupted.
fn event(alloc: Global, called: &[u8], after: Option<&[u8]>) -> Option<Decl> {
    let mut partners = Items::new(alloc);
    if let Some(partner) = after {
        let atom = AtomText {
            event: id(partner)?,
            args: one(alloc, Nm::Named(id(b"a")?))?,
        };
        partners
            .push(Partner {
                atom,
                unless: LabelText::One(Nm::Named(id(b"a")?)),
            })
            .ok()?;
    }
    Some(Decl::Event(EventDecl {
        line: 1,
        name: id(called)?,
        params: one(
            alloc,
            Param {
                line: 1,
                is_name: true,
                name: id(b"a")?,
            },
        )?,
        after: partners,
    }))
}

/// A file that declares `Asked(name a)` and `Granted(name a) after Asked(a) unless a`.
fn file(alloc: Global) -> Option<File> {
    let mut decls = Items::new(alloc);
    decls.push(event(alloc, b"Asked", None)?).ok()?;
    decls.push(event(alloc, b"Granted", Some(b"Asked"))?).ok()?;
    Some(File {
        version: 1,
        decls,
        plan: Plan {
            rounds: Items::new(alloc),
        },
    })
}

/// An entry of a trace.
#[derive(Drop)]
enum Step {
    Fresh,
    Sent(u32),
    Corrupted(&'static [u8]),
    Happens(&'static [u8], &'static [u8]),
}

/// A nonce that alice alone may read.
fn fresh(alloc: Global) -> Option<Entry> {
    let label = Label::one(alloc, Reader::Principal(Word::new(b"alice")?)).ok()?;
    Some(Entry::Fresh(
        0,
        label,
        Usage {
            kind: Kind::Nonce,
            name: Word::new(b"Rand")?,
            owners: Items::new(alloc),
        },
    ))
}

/// The event of this name, of this principal.
fn happens(alloc: Global, called: &[u8], whose: &[u8]) -> Option<Entry> {
    let value = name(alloc, &Word::new(whose)?).ok()?;
    Some(Entry::Event(0, Word::new(whose)?, Word::new(called)?, one(alloc, value)?))
}

fn push(alloc: Global, auditor: &mut Auditor, step: &Step) -> Option<()> {
    match step {
        Step::Fresh => {
            let Some(Entry::Fresh(instance, label, usage)) = fresh(alloc) else {
                return None;
            };
            auditor.push(&Entry::Fresh(instance, label, usage)).ok()
        }
        Step::Sent(index) => {
            let Ok(value) = nonce(alloc, *index) else {
                return None;
            };
            auditor.push(&Entry::Message(0, value)).ok()
        }
        Step::Corrupted(whose) => {
            let corruption = Corruption::Principal(Word::new(whose)?);
            auditor.push(&Entry::Corrupt(0, corruption)).ok()
        }
        Step::Happens(called, whose) => {
            let Some(Entry::Event(instance, principal, name, args)) = happens(alloc, called, whose)
            else {
                return None;
            };
            auditor
                .push(&Entry::Event(instance, principal, name, args))
                .ok()
        }
    }
}

/// The number of breaches after these entries.
fn breaches(alloc: Global, steps: &[Step]) -> Option<u64> {
    let mut auditor = Auditor::open(alloc, &file(alloc)?).ok()?;
    for step in steps {
        push(alloc, &mut auditor, step)?;
    }
    let report = auditor.report().ok()?;
    if report.breaches.len() as u64 != auditor.breaches() {
        return None;
    }
    Some(auditor.breaches())
}

#[test]
fn a_nonce_that_is_sent_is_breached_unless_its_owner_was_corrupted(rt: HostRuntime) {
    let alloc = rt.alloc();
    let corrupted = Step::Corrupted(b"alice");
    assert_eq!(rt; breaches(alloc, &[Step::Fresh, Step::Sent(0)]), Some(1));
    assert_eq!(rt;
        breaches(alloc, &[Step::Fresh, corrupted, Step::Sent(0)]),
        Some(0)
    );
    let corrupted = Step::Corrupted(b"alice");
    assert_eq!(rt;
        breaches(alloc, &[Step::Fresh, Step::Sent(0), corrupted]),
        Some(1)
    );
}

#[test]
fn an_event_without_its_partner_is_breached_unless_its_label_was_open(rt: HostRuntime) {
    let alloc = rt.alloc();
    let asked = || Step::Happens(b"Asked", b"bob");
    let granted = || Step::Happens(b"Granted", b"bob");
    assert_eq!(rt; breaches(alloc, &[asked(), granted()]), Some(0));
    assert_eq!(rt; breaches(alloc, &[granted(), asked()]), Some(1));
    assert_eq!(rt;
        breaches(alloc, &[Step::Happens(b"Asked", b"alice"), granted()]),
        Some(1)
    );
    assert_eq!(rt;
        breaches(alloc, &[Step::Corrupted(b"bob"), granted()]),
        Some(0)
    );
    assert_eq!(rt;
        breaches(alloc, &[granted(), Step::Corrupted(b"bob")]),
        Some(1)
    );
}

#[test]
fn a_report_is_written(rt: HostRuntime) -> Result<(), Fail> {
    let mut moves = Items::new(rt.alloc());
    moves.push(Move::Message(10))?;
    moves.push(Move::State(3, 1))?;
    moves.push(Move::Adec(1, 2))?;
    let mut report = Report {
        known: Items::new(rt.alloc()),
        breaches: Items::new(rt.alloc()),
    };
    report.known.push(KnownFrom { nonce: 4, from: 11 })?;
    report.breaches.push(Breach::Nonce {
        nonce: 4,
        from: 11,
        recipe: Recipe { moves },
    })?;
    report.breaches.push(Breach::Event {
        event: 12,
        partner: 2,
    })?;
    let text = write_audit(rt.alloc(), &report)?;
    let expected =
        b"known 4 from 11\nbreach nonce 4 from 11 by m10; s3.1; adec(1, 2)\nbreach event 12 partner 2\nbreaches 2\n";
    assert!(rt; text.as_slice() == expected.as_slice());
    Ok(())
}
