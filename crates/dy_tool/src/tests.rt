ghost use Rattle.std.specs.Prelude.{◌<◌};

use super::*;
use dy_io::{MemSink, MemSource};
use dy_lex::MAX_SOURCE_BYTES;
use std::alloc::{AllocError, Global};
use std::process::Abort;
use std::test::*;

mod plans;
mod plays;
mod protocols;
mod rules;
mod typing;

/// A job that is opened and closed, once as the protocol says.
const JOB: &[u8] = b"dystar 1
event Open(name a, name b);
event Close(name a, name b) after Open(a, b) unless b;
handler Job args(b) {
  event Open(self, b);
  send \"job\";
  send b;
  event Close(self, b);
}
";

/// What is said is signed, and is heard only where it was said. A statement is to stand on line 9.
const SAY_FIRST: &str = "dystar 1
usage sig Sign(owner);
event Said(name a, x);
event Heard(name b, name a, x) after Said(a, x) unless a;
case Sign \"say\"(x: any) requires Said(owner, x);
state Key lasting (k: key self Sign(self));
handler Say args() recv x {
  use Key(k);
  ";

/// What follows that statement.
const SAY_THEN: &str = "
  send sign(k using Sign(self), \"say\"(x));
}
handler Hear args(a) recv m {
  find Sign of a as v;
  verify m with v using Sign(a) as \"say\"(x);
  event Heard(self, a, x);
}
";

/// What a command answered and wrote, and what its source and sink counted.
#[derive(Drop)]
struct Outcome {
    status: Status,
    written: Vec<u8>,
    left: usize,
    reads: u64,
}

/// How the source and the sink behave: the bytes of a piece, and the calls that fail.
#[derive(Clone, Copy)]
struct Outside {
    piece: usize,
    failing_read: u64,
    failing_write: u64,
}

/// Nothing fails, and everything comes at once.
const KIND: Outside = Outside {
    piece: 1000,
    failing_read: 0,
    failing_write: 0,
};

fn carry_out(
    alloc: Global,
    words: &[&str],
    input: &[u8],
    outside: Outside,
) -> Result<Outcome, AllocError> {
    let mut owned = Vec::new(alloc);
    for word in words {
        owned.push(String::from_str(alloc, word)?)?;
    }
    let piece = outside.piece.max(1);
    let mut source = MemSource::new(
        input.to_vec(alloc)?,
        piece,
        vec![in alloc; outside.failing_read]?,
    );
    let mut sink = MemSink::new(
        Vec::new(alloc),
        piece,
        vec![in alloc; outside.failing_write]?,
    );
    let status = tool(alloc, &owned, &mut source, &mut sink);
    Ok(Outcome {
        status,
        written: sink.held.clone()?,
        left: source.bytes.len(),
        reads: source.calls,
    })
}

fn assert_answers(
    rt: &(impl AllocGlobal + Abort),
    input: &[u8],
    status: Status,
    text: &[u8],
) -> Result<(), AllocError> {
    let got = carry_out(rt.alloc(), &["check"], input, KIND)?;
    assert_eq!(rt; got.status, status);
    assert_eq!(rt; got.written.as_slice(), text);
    assert_eq!(rt; got.left, 0);
    Ok(())
}

#[test]
fn an_event_after_its_partner_is_accepted(rt: HostRuntime) -> Result<(), Fail> {
    assert_answers(&rt, JOB, Status::Done, b"accepted 1 handlers\n")?;
    // a variable may have the name of a handler, an event or a handler the same
    let renamed = b"dystar 1
event Job(name a, name b);
event Close(name a, name b) after Job(a, b) unless b;
handler Job args(Job) { event Job(self, Job); event Close(self, Job); }
handler Close args(a, b) { event Job(self, b); send a; event Close(self, b); }
";
    assert_answers(&rt, renamed, Status::Done, b"accepted 2 handlers\n")?;
    assert_answers(&rt, b"dystar 1", Status::Done, b"accepted 0 handlers\n")?;
    Ok(())
}

#[test]
fn the_first_statement_that_lacks_a_partner_is_refused(rt: HostRuntime) -> Result<(), Fail> {
    let events = "dystar 1
event Ask(name a, name b);
event Pay(name a, b);
event Ship(name a, name b) after Ask(a, b) unless b, Pay(b, a) unless a;
";
    let cases: [(&str, &str); 7] = [
        // the second partner is missing: it has the principals the other way round
        (
            "handler Sell args(c) { event Ask(self, c); event Pay(self, c);\nevent Ship(self, c); }",
            "refused line 6 c6 field 2\n",
        ),
        // the first one is missing, and the second too
        (
            "handler Sell args(c) { event Ship(self, c); }",
            "refused line 5 c6 field 1\n",
        ),
        // with `self` in both places the two orders are one
        (
            "handler Sell args() { event Pay(self, self); event Ask(self, self); event Ship(self, self); }",
            "accepted 1 handlers\n",
        ),
        // another name is another argument
        (
            "handler Sell args(c, d) { event Ask(self, d);\n\nevent Ship(self, c); }",
            "refused line 7 c6 field 1\n",
        ),
        // a later statement does not help
        (
            "handler Sell args(c) { event Ship(self, c); event Ask(self, c); }",
            "refused line 5 c6 field 1\n",
        ),
        // nor does another handler
        (
            "handler First args(c) { event Ask(self, c); }\nhandler Sell args(c) { event Ship(self, c); }",
            "refused line 6 c6 field 1\n",
        ),
        // the first refused handler is named, and its first refused statement
        (
            "handler Sell args(c) { event Ask(self, c); send c;\nevent Ship(self, c);\nevent Ship(self, self); }\nhandler Again args() { event Ship(self, self); }",
            "refused line 6 c6 field 2\n",
        ),
    ];
    for (handlers, text) in cases {
        let input = format!(in rt.alloc(); "{events}{handlers}")?;
        let got = carry_out(rt.alloc(), &["check"], input.as_bytes(), KIND)?;
        assert_eq!(rt; got.written.as_slice(), text.as_bytes(), "{handlers}");
    }
    Ok(())
}

#[test]
fn what_is_no_protocol_is_refused_at_its_line(rt: HostRuntime) -> Result<(), Fail> {
    let cases: [(&str, &str); 7] = [
        ("", "1: syntax"),
        ("dystar 2", "1: syntax"),
        ("dystar 1\nhandler H args() { send \"pi", "2: syntax"),
        ("dystar 1\nevent E(name a)\n", "3: syntax"),
        (
            "dystar 1 handler H args(a, b, c, d, e,\nf, g) { }",
            "2: limit names",
        ),
        // the least line, and the least rule on it
        (
            "dystar 1 handler H args(a,\na) { send b;\nsend c; }",
            "2: rule w2",
        ),
        ("dystar 1\n/ handler H args(a, a) { }", "2: syntax"),
    ];
    for (input, fault) in cases {
        let text = format!(in rt.alloc(); "line {fault}\n")?;
        assert_answers(&rt, input.as_bytes(), Status::Input, text.as_bytes())?;
        for word in ["show", "run", "play"] {
            let got = carry_out(rt.alloc(), &[word], input.as_bytes(), KIND)?;
            assert_eq!(rt; got.status, Status::Input);
            assert_eq!(rt; got.written.as_slice(), text.as_bytes());
        }
    }
    Ok(())
}

#[test]
fn a_protocol_is_typed_or_refused_at_a_place(rt: HostRuntime) -> Result<(), Fail> {
    let cases: [(&str, Status, &str); 4] = [
        (
            "event Said(self, x);",
            Status::Done,
            "accepted 2 handlers\n",
        ),
        // who signs has not said it
        (
            "send x;",
            Status::NotAccepted,
            "refused line 10 c5 field 1\n",
        ),
        // the key is for `self` alone
        (
            "send k;",
            Status::NotAccepted,
            "refused line 9 c1 field 0\n",
        ),
        // a rule comes before what is typed
        ("send y;", Status::Input, "line 9: rule w2\n"),
    ];
    for (statement, status, text) in cases {
        let input = format!(in rt.alloc(); "{SAY_FIRST}{statement}{SAY_THEN}")?;
        assert_answers(&rt, input.as_bytes(), status, text.as_bytes())?;
    }
    Ok(())
}

#[test]
fn a_file_is_shown_in_its_canonical_text(rt: HostRuntime) -> Result<(), Fail> {
    let input: &[u8] = b"dystar 1  handler Ping args ( )  {  send \"ping\" ; }
plan{round{a:alice Ping();}}";
    let text: &[u8] = b"dystar 1
handler Ping args() {
  send \"ping\";
}
plan {
  round { a: alice Ping(); }
}
";
    for bytes in [input, text] {
        let got = carry_out(rt.alloc(), &["show"], bytes, KIND)?;
        assert_eq!(rt; got.status, Status::Done);
        assert_eq!(rt; got.written.as_slice(), text);
    }
    let job = carry_out(rt.alloc(), &["show"], JOB, KIND)?;
    assert_eq!(rt; job.written.as_slice(), JOB);
    Ok(())
}

#[test]
fn one_byte_past_the_limit_is_too_long(rt: HostRuntime) -> Result<(), Fail> {
    let mut input = vec![in rt.alloc(); b' '; MAX_SOURCE_BYTES]?;
    for (place, byte) in input.iter_mut().zip(b"dystar 1") {
        *place = *byte;
    }
    let big = Outside {
        piece: 1 << 20,
        ..KIND
    };
    let got = carry_out(rt.alloc(), &["check"], &input, big)?;
    assert_eq!(rt; got.status, Status::Done);
    input.push(b' ')?;
    let got = carry_out(rt.alloc(), &["check"], &input, big)?;
    assert_eq!(rt; got.status, Status::TooLong);
    assert_eq!(rt; got.written.as_slice(), b"too long\n".as_slice());
    Ok(())
}

#[test]
fn refused_words_read_nothing(rt: HostRuntime) -> Result<(), Fail> {
    let lists: [&[&str]; 12] = [
        &[],
        &["run", "check"],
        &["Run"],
        &["play", "run"],
        &["Play"],
        &["show", "show"],
        &["Show"],
        &["check", "x"],
        &["check", "check"],
        &["Check"],
        &["check "],
        &[""],
    ];
    for words in lists {
        let got = carry_out(rt.alloc(), words, JOB, KIND)?;
        assert_eq!(rt; got.status, Status::Words);
        assert_eq!(rt; got.written.as_slice(), b"bad words\n".as_slice());
        assert_eq!(rt; got.reads, 0);
    }
    Ok(())
}

#[test]
fn each_read_that_fails_leaves_nothing_written(rt: HostRuntime) -> Result<(), Fail> {
    // the reads that a piece takes, and the one after the last byte
    for (piece, reads) in [(1, 188), (7, 28), (40, 6)] {
        for failing_read in 1..=reads {
            let outside = Outside {
                piece,
                failing_read,
                failing_write: 0,
            };
            let got = carry_out(rt.alloc(), &["check"], JOB, outside)?;
            assert_eq!(rt;
                got.status,
                Status::ReadFault,
                "read {failing_read} of {piece}"
            );
            assert!(rt; got.written.is_empty());
        }
    }
    Ok(())
}

#[test]
fn each_write_that_fails_leaves_a_prefix(rt: HostRuntime) -> Result<(), Fail> {
    let text: &[u8] = b"accepted 1 handlers\n";
    for (piece, writes) in [(1, 20), (7, 3), (40, 1)] {
        for failing_write in 1..=writes {
            let outside = Outside {
                piece,
                failing_read: 0,
                failing_write,
            };
            let got = carry_out(rt.alloc(), &["check"], JOB, outside)?;
            assert_eq!(rt;
                got.status,
                Status::WriteFault,
                "write {failing_write} of {piece}"
            );
            assert!(rt; text.starts_with(&got.written));
            assert_eq!(rt;
                got.written.len() as u64,
                (failing_write - 1) * piece as u64
            );
        }
        let all = Outside {
            piece,
            failing_read: 0,
            failing_write: writes + 1,
        };
        assert_eq!(rt;
            carry_out(rt.alloc(), &["check"], JOB, all)?.status,
            Status::Done
        );
    }
    Ok(())
}

#[test]
fn a_refusal_that_cannot_be_written_is_a_write_fault(rt: HostRuntime) -> Result<(), Fail> {
    let outside = Outside {
        failing_write: 1,
        ..KIND
    };
    for (words, input) in [(["check"], b"".as_slice()), (["shown"], JOB)] {
        let got = carry_out(rt.alloc(), &words, input, outside)?;
        assert_eq!(rt; got.status, Status::WriteFault);
        assert!(rt; got.written.is_empty());
    }
    Ok(())
}

#[test]
fn each_status_has_its_number(rt: HostRuntime) {
    for (status, number) in [
        (Status::Done, 0),
        (Status::NotAccepted, 1),
        (Status::Words, 2),
        (Status::Input, 3),
        (Status::ReadFault, 4),
        (Status::WriteFault, 5),
        (Status::Memory, 6),
        (Status::TooLong, 7),
    ] {
        assert_eq!(rt; status.number(), number);
    }
}
