use super::*;
use dy_syntax::{
    Act, Action, Decl, Expr, File, Handler, Id, KindText, Plan, Quote, Round, Row, Statement, Step,
    UsageDecl,
};
use dy_term::{Text, Word};
use sqlite_items::Items;
use std::alloc::Global;
use std::test::*;

fn id(bytes: &[u8]) -> Result<Id, Fail> {
    match Word::new(bytes) {
        Some(word) => Ok(Id { word, line: 7 }),
        None => Err("no word")?,
    }
}

fn quote(bytes: &[u8]) -> Result<Quote, Fail> {
    match Text::new(bytes) {
        Some(text) => Ok(Quote { text, line: 7 }),
        None => Err("no text")?,
    }
}

/// `send "ping";` in a handler of this name.
fn sends_ping(alloc: Global, name: &[u8]) -> Result<Decl, Fail> {
    let mut body = Items::new(alloc);
    body.push(Statement {
        line: 3,
        act: Act::Send(Expr::Lit(quote(b"ping")?)),
    })?;
    Ok(Decl::Handler(Handler {
        line: 2,
        name: id(name)?,
        on: None,
        args: Items::new(alloc),
        recv: None,
        body,
    }))
}

/// A step that starts a handler without arguments.
fn starts(alloc: Global, step: &[u8], principal: &[u8], handler: &[u8]) -> Result<Step, Fail> {
    Ok(Step {
        line: 5,
        name: id(step)?,
        action: Action::Start {
            principal: id(principal)?,
            handler: id(handler)?,
            args: Items::new(alloc),
            on: None,
            msg: None,
        },
    })
}

fn usage(alloc: Global, kind: KindText, name: &[u8]) -> Result<UsageDecl, Fail> {
    Ok(UsageDecl {
        line: 2,
        kind,
        kind_line: 2,
        name: id(name)?,
        params: Items::new(alloc),
        rows: Items::new(alloc),
    })
}

fn file(decls: Items<Decl>, rounds: Items<Round>) -> File {
    File {
        version: 1,
        decls,
        plan: Plan { rounds },
    }
}

/// A handler that sends a literal, and a plan that starts it.
fn ping(alloc: Global) -> Result<File, Fail> {
    let mut decls = Items::new(alloc);
    decls.push(sends_ping(alloc, b"Ping")?)?;
    let mut steps = Items::new(alloc);
    steps.push(starts(alloc, b"a", b"alice", b"Ping")?)?;
    let mut rounds = Items::new(alloc);
    rounds.push(Round { line: 5, steps })?;
    Ok(file(decls, rounds))
}

/// Usages with a table and without one, and no plan.
fn keys(alloc: Global) -> Result<File, Fail> {
    let mut root = usage(alloc, KindText::Kdf, b"Root")?;
    root.rows.push(Row {
        text: quote(b"c")?,
        kind: KindText::Aead,
        kind_line: 4,
        usage: id(b"Box")?,
    })?;
    let mut decls = Items::new(alloc);
    decls.push(Decl::Usage(usage(alloc, KindText::Aead, b"Box")?))?;
    decls.push(Decl::Usage(root))?;
    Ok(file(decls, Items::new(alloc)))
}

/// One step, a round of none, and two steps.
fn rounds(alloc: Global) -> Result<File, Fail> {
    let mut first = Items::new(alloc);
    first.push(starts(alloc, b"s", b"alice", b"Send")?)?;
    let mut last = Items::new(alloc);
    last.push(starts(alloc, b"t", b"bob", b"Send")?)?;
    last.push(Step {
        line: 5,
        name: id(b"x")?,
        action: Action::Corrupt {
            principal: id(b"alice")?,
            session: id(b"s")?,
            version: 10,
        },
    })?;
    let mut rounds = Items::new(alloc);
    rounds.push(Round {
        line: 5,
        steps: first,
    })?;
    rounds.push(Round {
        line: 5,
        steps: Items::new(alloc),
    })?;
    rounds.push(Round {
        line: 5,
        steps: last,
    })?;
    Ok(file(Items::new(alloc), rounds))
}

#[test]
fn a_handler_and_a_plan_stand_on_lines_of_their_own(rt: HostRuntime) -> Result<(), Fail> {
    let text = show(rt.alloc(), &ping(rt.alloc())?)?;
    assert_eq!(rt;
        text.as_slice(),
        b"dystar 1\nhandler Ping args() {\n  send \"ping\";\n}\nplan {\n  round { a: alice Ping(); }\n}\n".as_slice()
    );
    Ok(())
}

#[test]
fn an_empty_table_and_an_empty_plan_are_left_out(rt: HostRuntime) -> Result<(), Fail> {
    let text = show(rt.alloc(), &keys(rt.alloc())?)?;
    assert_eq!(rt;
        text.as_slice(),
        b"dystar 1\nusage aead Box();\nusage kdf Root() { \"c\" -> aead Box; };\n".as_slice()
    );
    let empty = file(Items::new(rt.alloc()), Items::new(rt.alloc()));
    assert_eq!(rt;
        show(rt.alloc(), &empty)?.as_slice(),
        b"dystar 1\n".as_slice()
    );
    Ok(())
}

#[test]
fn each_round_stands_on_one_line(rt: HostRuntime) -> Result<(), Fail> {
    let text = show(rt.alloc(), &rounds(rt.alloc())?)?;
    assert_eq!(rt;
        text.as_slice(),
        b"dystar 1\nplan {\n  round { s: alice Send(); }\n  round { }\n  round { t: bob Send(); x: corrupt alice s 10; }\n}\n".as_slice()
    );
    Ok(())
}
