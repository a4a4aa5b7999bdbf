use super::*;
use dy_flat::{Parts, take_apart};
use std::test::*;

/// A handler that sends a nonce and stores the name that it is given, and one that goes on from it with a message.
const TWO_HANDLERS: &[u8] = b"dystar 1
usage nonce Rand();
state Kept (a: name);
handler Make args(a) { new x : Rand() secret self; send x; store Kept(a); }
handler Take on Kept(name a) args() recv m { send a; }
";

/// The step of this number, in which this principal runs `Make`.
fn make(alloc: Global, step: u32, principal: &[u8]) -> Option<StartStep> {
    let mut args = Items::new(alloc);
    args.push(Word::new(b"bob")?).ok()?;
    Some(StartStep {
        step,
        handler: Word::new(b"Make")?,
        principal: Word::new(principal)?,
        session: None,
        args,
        message: None,
    })
}

/// The step of this number, in which this principal runs `Take` in a session, with the message at an index.
fn take(
    alloc: Global,
    step: u32,
    principal: &[u8],
    session: u32,
    message: u32,
) -> Option<StartStep> {
    Some(StartStep {
        step,
        handler: Word::new(b"Take")?,
        principal: Word::new(principal)?,
        session: Some(session),
        args: Items::new(alloc),
        message: Some(message),
    })
}

/// Whether steps that may not start an instance are refused by the first cause, while instance 1 of alice runs.
fn refuses(alloc: Global, book: &mut Book) -> Option<bool> {
    let again = start(book, take(alloc, 0, b"alice", 9, 9)?)? == Started::Already { index: 1 };
    let unknown = start(book, take(alloc, 1, b"alice", 9, 9)?)? == Started::NoSession;
    let other = start(book, take(alloc, 1, b"bob", 1, 9)?)? == Started::NoSession;
    let busy = start(book, take(alloc, 1, b"alice", 1, 9)?)? == Started::Busy { instance: 1 };
    Some(again && unknown && other && busy && book.entries().len() == 2)
}

/// Whether instance 1 puts its items and ends, and is refused then.
fn ends(book: &mut Book) -> bool {
    book.advance(1) == Advanced::Put { index: 2 }
        && book.advance(1) == Advanced::Put { index: 3 }
        && book.advance(1) == Advanced::Put { index: 4 }
        && book.advance(1) == Advanced::Finished { index: 5 }
        && book.advance(1) == Advanced::Ended { index: 5 }
        && book.advance(2) == Advanced::NoInstance
        && book.advance(6) == Advanced::NoInstance
        && book.entries().len() == 6
}

/// Whether a session goes on once its instance ended, where there is a message.
fn goes_on(alloc: Global, book: &mut Book) -> Option<bool> {
    let no_message = start(book, take(alloc, 1, b"alice", 1, 4)?)? == Started::NoMessage;
    let later = start(book, take(alloc, 1, b"alice", 1, 6)?)? == Started::NoMessage;
    let started = start(book, take(alloc, 1, b"alice", 1, 3)?)? == Started::Ok { index: 6 };
    let put = book.advance(6) == Advanced::Put { index: 7 };
    let not_opened = start(book, take(alloc, 2, b"alice", 6, 3)?)? == Started::NoSession;
    let busy = start(book, take(alloc, 2, b"alice", 1, 3)?)? == Started::Busy { instance: 6 };
    let finished = book.advance(6) == Advanced::Finished { index: 8 };
    Some(no_message && later && started && put && not_opened && busy && finished)
}

fn answers_in_order(alloc: Global) -> Option<bool> {
    let mut book = open(alloc, TWO_HANDLERS).ok()?;
    let started = start(&mut book, make(alloc, 0, b"alice")?)? == Started::Ok { index: 1 };
    let refused = refuses(alloc, &mut book)?;
    let ended = ends(&mut book);
    Some(started && refused && ended && goes_on(alloc, &mut book)?)
}

/// Whether a step is not right for the file: its handler, its arguments, session, message or number.
fn asks_wrong(alloc: Global) -> Option<bool> {
    let book = open(alloc, TWO_HANDLERS).ok()?;
    let mut wrong = true;
    for number in 0..6 {
        let mut step = make(alloc, 0, b"alice")?;
        match number {
            0 => step.handler = Word::new(b"Kept")?,
            1 => step.args.push(Word::new(b"bob")?).ok()?,
            2 => step.session = Some(1),
            3 => step.message = Some(1),
            4 => step.step = 1_024,
            _ => step.handler = Word::new(b"Take")?,
        }
        wrong = wrong && !book.asks_right(&step);
    }
    let right = book.asks_right(&make(alloc, 1_023, b"alice")?);
    Some(wrong && right && book.asks_right(&take(alloc, 1, b"bob", 7, 7)?))
}

/// Whether two instances that take turns each put the nonce of their own entry.
fn take_turns(alloc: Global) -> Option<bool> {
    let mut book = open(alloc, TWO_HANDLERS).ok()?;
    let one = start(&mut book, make(alloc, 5, b"alice")?)? == Started::Ok { index: 1 };
    let two = start(&mut book, make(alloc, 3, b"alice")?)? == Started::Ok { index: 2 };
    let first = book.advance(2) == Advanced::Put { index: 3 };
    let second = book.advance(1) == Advanced::Put { index: 4 };
    let sent = book.advance(1) == Advanced::Put { index: 5 };
    let also_sent = book.advance(2) == Advanced::Put { index: 6 };
    let steps = stands_at(book.entries(), 3, Some(2)) && stands_at(book.entries(), 0, None);
    let nonces = sends_nonce(book.entries(), 5, 4) && sends_nonce(book.entries(), 6, 3);
    Some(one && two && first && second && sent && also_sent && steps && nonces)
}

/// Whether the entry of a step, among a few entries, has this index.
fn stands_at(entries: &[Entry], step: u32, index: Option<u32>) -> bool {
    entries.len() < 1_000 && step_at(entries, step) == index
}

/// Whether the entry at an index is a message, which is the nonce of this other index.
fn sends_nonce(entries: &[Entry], index: usize, nonce: u32) -> bool {
    match entries.get(index) {
        Some(Entry::Message(_, value)) => {
            matches!(take_apart(value.whole()), Parts::Nonce(made) if made == nonce)
        }
        _ => false,
    }
}

fn is_bad(alloc: Global, source: &[u8], line: u32) -> bool {
    match open(alloc, source) {
        Ok(_) => false,
        Err(error) => error == OpenError::BadInput { line },
    }
}

#[test]
fn answers_come_in_order(rt: HostRuntime) {
    assert_eq!(rt; answers_in_order(rt.alloc()), Some(true));
    assert_eq!(rt; asks_wrong(rt.alloc()), Some(true));
}

#[test]
fn instances_take_turns(rt: HostRuntime) {
    assert_eq!(rt; take_turns(rt.alloc()), Some(true));
}

#[test]
fn only_a_file_is_opened(rt: HostRuntime) {
    assert!(rt;
        is_bad(
            rt.alloc(),
            b"dystar 1\nhandler A args(a) {\n  send b;\n}\n",
            3
        )
    );
    assert!(rt;
        is_bad(
            rt.alloc(),
            b"dystar 1\nhandler A args(a) {\n  send \n}\n",
            4
        )
    );
    assert!(rt; is_bad(rt.alloc(), b"", 1));
}
