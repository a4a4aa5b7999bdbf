use super::*;
use dy_flat::{FlatTerm, Parts, take_apart};
use dy_label::Outcome;
use dy_syntax::{Act, Decl, Expr, File, Handler, Id, Nm, Plan, Quote, Statement, handler_named};
use dy_term::{Memory, Text, Word};
use sqlite_items::Items;
use std::alloc::Global;
use std::test::*;

/// A trace without entries.
#[derive(Drop)]
struct NoPast;

impl Past for NoPast {
    ghost use Rattle.std.specs.Prelude.{[]};

    ghost trace = { λ _. [] };

    fn state_at(&self, _: &Word, _: u32, _: u32) -> Option<u32> {
        None
    }

    fn newest(&self, _: &Word, _: u32) -> u32 {
        0
    }

    fn find_state(&self, _: &Word, _: &Word, _: Option<(u32, u32)>) -> Option<u32> {
        None
    }

    fn find_cert(&self, _: &Word, _: &Word) -> Option<u32> {
        None
    }

    fn state(&self, _: u32) -> Option<Stored<'_>> {
        None
    }

    fn cert(&self, _: u32) -> Option<&FlatTerm> {
        None
    }
}

fn statement(act: Act) -> Statement {
    Statement { line: 1, act }
}

/// A file of one handler of this name, which sends a text and then fails where another principal runs it than this.
fn file(alloc: Global, name: Word, text: Text, owner: Word) -> Result<File, Memory> {
    let mut args = Items::new(alloc);
    args.push(Id {
        word: owner.copy(),
        line: 1,
    })?;
    let mut body = Items::new(alloc);
    body.push(statement(Act::Send(Expr::Lit(Quote { text, line: 1 }))))?;
    body.push(statement(Act::Same(
        Nm::Me { line: 1 },
        Nm::Named(Id {
            word: owner,
            line: 1,
        }),
    )))?;
    let mut decls = Items::new(alloc);
    decls.push(Decl::Handler(Handler {
        line: 1,
        name: Id {
            word: name,
            line: 1,
        },
        on: None,
        args,
        recv: None,
        body,
    }))?;
    Ok(File {
        version: 1,
        decls,
        plan: Plan {
            rounds: Items::new(alloc),
        },
    })
}

/// Whether an instance of the handler, run by alice with this name for its argument, sends the text and ends so.
fn runs(alloc: Global, name: &[u8], wanted: Outcome) -> Option<bool> {
    let handler = Word::new(b"Ping")?;
    let alice = Word::new(b"alice")?;
    let file = file(alloc, handler.copy(), Text::new(b"ping")?, Word::new(b"a")?).ok()?;
    let mut args = Items::new(alloc);
    args.push(Word::new(name)?).ok()?;
    if handler_named(file.decls.as_slice(), &handler).is_none() {
        return None;
    }
    let mut instance = Instance::begin(
        alloc,
        &file,
        &handler,
        &alice,
        1,
        args.as_slice(),
        None,
    ).ok()?;
    let Emit::Put(Item::Message(message)) = instance.next(&NoPast, None).ok()? else {
        return Some(false);
    };
    let Emit::End(outcome) = instance.next(&NoPast, Some(2)).ok()? else {
        return Some(false);
    };
    let is_text = matches!(take_apart(message.whole()), Parts::Lit(_));
    Some(is_text && outcome == wanted)
}

#[test]
fn an_instance_puts_and_ends(rt: HostRuntime) {
    assert_eq!(rt; runs(rt.alloc(), b"alice", Outcome::Done), Some(true));
    assert_eq!(rt; runs(rt.alloc(), b"bob", Outcome::Stopped(2)), Some(true));
}
