use super::*;
use dy_label::Corruption;
use dy_recipe::{Move, Recipe};
use std::test::*;

/// A file of one handler, which stores the name that it is given.
const ONE_HANDLER: &[u8] = b"dystar 1
state Kept (a: name);
handler Keep args(a) { store Kept(a); }
";

/// A Book in which the instance of step 0, of alice, stored bob's name and ended.
fn book_with_state(alloc: Global) -> Option<Book> {
    let mut book = open(alloc, ONE_HANDLER).ok()?;
    let mut args = Items::new(alloc);
    args.push(Word::new(b"bob")?).ok()?;
    let step = StartStep {
        step: 0,
        handler: Word::new(b"Keep")?,
        principal: Word::new(b"alice")?,
        session: None,
        args,
        message: None,
    };
    if start(&mut book, step)? != (Started::Ok { index: 1 }) {
        return None;
    }
    if book.advance(1) != (Advanced::Put { index: 2 }) {
        return None;
    }
    if book.advance(1) != (Advanced::Finished { index: 3 }) {
        return None;
    }
    Some(book)
}

/// What comes of a message of the attacker that one move gives.
fn injects(alloc: Global, book: &mut Book, step: u32, by: Move) -> Option<Injected> {
    if step >= 1_024 {
        return None;
    }
    let mut moves = Items::new(alloc);
    moves.push(by).ok()?;
    let recipe = Recipe { moves };
    Some(book.inject(step, &recipe))
}

fn corrupts(book: &mut Book, step: u32, corruption: Corruption) -> Option<Added> {
    if step >= 1_024 {
        return None;
    }
    Some(book.corrupt(step, corruption))
}

/// Whether a field is given once a corruption covers its state, by its number, counted from 1.
fn gives_fields(alloc: Global) -> Option<bool> {
    let mut book = book_with_state(alloc)?;
    let before = injects(alloc, &mut book, 1, Move::State(2, 1))? == Injected::Skipped { index: 4 };
    let other = Corruption::Session(Word::new(b"bob")?, 1);
    let elsewhere = corrupts(&mut book, 2, other)? == Added::Ok { index: 5 };
    let still = injects(alloc, &mut book, 3, Move::State(2, 1))? == Injected::Skipped { index: 6 };
    let version = Corruption::Version(Word::new(b"alice")?, 1, 1);
    let corrupted = corrupts(&mut book, 4, version)? == Added::Ok { index: 7 };
    let zero = injects(alloc, &mut book, 5, Move::State(2, 0))? == Injected::Skipped { index: 8 };
    let first = injects(alloc, &mut book, 6, Move::State(2, 1))? == Injected::Ok { index: 9 };
    let second = injects(alloc, &mut book, 7, Move::State(2, 2))?
        == Injected::Skipped { index: 10 };
    let again = injects(alloc, &mut book, 6, Move::State(2, 1))? == Injected::Already { index: 9 };
    Some(before && elsewhere && still && corrupted && zero && first && second && again)
}

/// Whether what the attacker adds has its index, and each step is taken once.
fn attacks(alloc: Global) -> Option<bool> {
    let mut book = open(alloc, ONE_HANDLER).ok()?;
    let forged = book.forge(7) == Added::Ok { index: 1 };
    let corrupted = corrupts(&mut book, 5, Corruption::Principal(Word::new(b"bob")?))?
        == Added::Ok { index: 2 };
    let injected = injects(alloc, &mut book, 6, Move::Forge(1))? == Injected::Ok { index: 3 };
    let left_out = injects(alloc, &mut book, 1_023, Move::Forge(2))?
        == Injected::Skipped { index: 4 };
    let skipped = book.skip(9) == Added::Ok { index: 5 };
    let again = book.skip(7) == Added::Already { index: 1 }
        && book.forge(6) == Added::Already { index: 3 }
        && corrupts(&mut book, 1_023, Corruption::Principal(Word::new(b"bob")?))?
            == Added::Already { index: 4 };
    Some(forged && corrupted && injected && left_out && skipped && again)
}

#[test]
fn the_attacker_takes_and_sends(rt: HostRuntime) {
    assert_eq!(rt; attacks(rt.alloc()), Some(true));
    assert_eq!(rt; gives_fields(rt.alloc()), Some(true));
}
