//! Plans that are played. What their traces and audits say was worked out by hand.

use super::protocols::{NAMED, NAMELESS, protocol};
use super::*;

/// Alice and Bob run the protocol.
const BOTH_RUN: &str = "plan {
  round { k1: alice MakeKey(); k2: bob MakeKey(); }
  round { i: alice Ask(bob); }
  round { r: bob Reply() msg i.1; }
  round { f: alice Confirm() on i msg r.1; }
  round { a: bob Accept() on r msg f.1; }
}
";

/// Its end.
const BOTH_RUN_END: &str = "28 end 26 done
total 29 start 6 fresh 4 message 3 state 4 event 3 cert 2 done 6 stopped 0 corrupt 0 forge 0 inject 0 skip 0
breaches 0
";

/// Alice runs it with herself, and her key is taken.
const ALONE: &str = "plan {
  round { k1: alice MakeKey(); }
  round { i: alice Ask(alice); }
  round { c: corrupt alice k1 1; }
}
";

/// Its end.
const ALONE_END: &str = "11 corrupt 2 alice 1 1
total 12 start 2 fresh 2 message 1 state 2 event 0 cert 1 done 2 stopped 0 corrupt 1 forge 0 inject 0 skip 0
known 2 from 11
known 7 from 11
breaches 0
";

/// Carol's key opens what Alice sends to her, and Bob is sent it.
const ATTACK: &str = "plan {
  round { k1: alice MakeKey(); k2: bob MakeKey(); k3: carol MakeKey(); }
  round { x: corrupt carol k3 1; }
  round { i: alice Ask(carol); }
  round { j1: inject penc(cert k2.1, pdec(msg i.1, field k3.1.1)); }
  round { r: bob Reply() msg j1.1; }
  round { i2: alice Confirm() on i msg r.1; }
  round { j2: inject penc(cert k2.1, pdec(msg i2.1, field k3.1.1)); }
  round { r2: bob Accept() on r msg j2.1; }
}
";

/// What stands after its entries, up to the recipe.
const ATTACK_BREACH: &str =
    "total 37 start 7 fresh 5 message 3 state 5 event 3 cert 3 done 7 stopped 0 corrupt 1 forge 0 inject 2 skip 0
known 12 from 16
known 18 from 19
known 24 from 31
breach nonce 24 from 31 by ";

/// What stands after the recipe.
const ATTACK_END: &str = "
breach event 35 partner 1
breaches 2
";

/// A box is sent. Another handler opens what it is given, with a key of its own.
const BOX: &str = "dystar 1
usage aead Box();
case Box \"d\"(x: any);
handler Send args() {
  new k : Box() secret nobody;
  send aead(k using Box(), \"d\"(\"hi\"), \"\");
}
handler Get args() recv m {
  new k : Box() secret nobody;
  send \"got\";
  open m with k using Box() as \"d\"(x) ad \"\";
}
";

/// It is given the box.
const GIVEN: &str = "plan {
  round { s: alice Send(); }
  round { }
  round { g: bob Get() msg s.1; }
}
";

/// Its end.
const GIVEN_END: &str = "5 start 1 Get bob 5 () 3
6 fresh 5 nobody aead Box()
7 message 5 \"got\"
8 end 5 stopped 3
total 9 start 2 fresh 2 message 2 state 0 event 0 cert 0 done 1 stopped 1 corrupt 0 forge 0 inject 0 skip 0
breaches 0
";

/// It is to be given a second message, and there is none.
const NOT_GIVEN: &str = "plan {
  round { s: alice Send(); }
  round { n: forge; }
  round { g: bob Get() msg s.2; }
}
";

/// Its end.
const NOT_GIVEN_END: &str = "5 forge 1
6 skip 2
total 7 start 1 fresh 1 message 1 state 0 event 0 cert 0 done 1 stopped 0 corrupt 0 forge 1 inject 0 skip 1
breaches 0
";

/// Each version of a session has a key of its own, and that of the first is taken.
const VERSIONS: &str = "dystar 1
usage aead Box();
usage nonce Rand();
case Box \"d\"(x: any);
state S (k: key here Box());
handler One args() {
  new k : Box() secret next;
  new x : Rand() secret next;
  send aead(k using Box(), \"d\"(x), \"\");
  store S(k);
}
handler Two on S(old) args() {
  new k : Box() secret next;
  new x : Rand() secret next;
  send aead(k using Box(), \"d\"(x), \"\");
  store S(k);
}
plan {
  round { a: alice One(); }
  round { b: alice Two() on a; }
  round { c: corrupt alice a 1; }
}
";

/// Its end.
const VERSIONS_END: &str = "13 corrupt 2 alice 1 1
total 14 start 2 fresh 4 message 2 state 2 event 0 cert 0 done 2 stopped 0 corrupt 1 forge 0 inject 0 skip 0
known 2 from 13
known 3 from 13
breaches 0
";

/// A value of 1,024 nodes is sent, and one of 1,025 is not.
const LARGE: &str = "dystar 1
handler Big args() {
  let a = \"x\";
  let b = pair(a, a);
  let c = pair(b, b);
  let d = pair(c, c);
  let e = pair(d, d);
  let f = pair(e, e);
  let g = pair(f, f);
  let h = pair(g, g);
  let i = pair(h, h);
  let j = pair(i, i);
  send hash(j);
  send hash(hash(j));
}
plan {
  round { s: alice Big(); }
}
";

/// Its end.
const LARGE_END: &str = "3 end 1 stopped 12
total 4 start 1 fresh 0 message 1 state 0 event 0 cert 0 done 0 stopped 1 corrupt 0 forge 0 inject 0 skip 0
breaches 0
";

/// What stands after so many lines.
fn after_lines(text: &[u8], count: usize) -> &[u8] {
    let mut rest = text;
    for _ in 0..count {
        match rest.iter().position(|byte| *byte == b'\n') {
            Some(end) => rest = &rest[end + 1..],
            None => return &[],
        }
    }
    rest
}

/// Whether the text begins so, and ends so after that.
fn begins_and_ends(text: &[u8], begins: &str, ends: &str) -> bool {
    let Some(rest) = text.len().checked_sub(ends.len()) else {
        return false;
    };
    begins.len() <= rest && text.starts_with(begins.as_bytes()) && &text[rest..] == ends.as_bytes()
}

/// What `play` writes of a file, where it is done.
fn played(alloc: Global, input: &str) -> Option<Vec<u8>> {
    let got = carry_out(alloc, &["play"], input.as_bytes(), KIND).ok()?;
    match got.status {
        Status::Done => Some(got.written),
        _ => None,
    }
}

/// Whether this is all that `play` writes of a file after so many lines.
fn plays(alloc: Global, input: &str, count: usize, text: &str) -> bool {
    match played(alloc, input) {
        Some(written) => after_lines(written.as_slice(), count) == text.as_bytes(),
        None => false,
    }
}

#[test]
fn a_plan_is_played_and_audited(rt: HostRuntime) -> Result<(), Fail> {
    let both = protocol(rt.alloc(), NAMED, BOTH_RUN)?;
    let alone = protocol(rt.alloc(), NAMED, ALONE)?;
    let given = format!(in rt.alloc(); "{BOX}{GIVEN}")?;
    let not_given = format!(in rt.alloc(); "{BOX}{NOT_GIVEN}")?;
    for (input, count, text) in [
        (both.as_str(), 28, BOTH_RUN_END),
        (alone.as_str(), 11, ALONE_END),
        (given.as_str(), 5, GIVEN_END),
        (not_given.as_str(), 5, NOT_GIVEN_END),
        (VERSIONS, 13, VERSIONS_END),
        (LARGE, 3, LARGE_END),
    ] {
        assert!(rt; plays(rt.alloc(), input, count, text), "{text}");
    }
    Ok(())
}

#[test]
fn the_attack_on_the_nameless_protocol_is_found(rt: HostRuntime) -> Result<(), Fail> {
    let input = protocol(rt.alloc(), NAMELESS, ATTACK)?;
    let found = match played(rt.alloc(), input.as_str()) {
        Some(text) => begins_and_ends(after_lines(text.as_slice(), 37), ATTACK_BREACH, ATTACK_END),
        None => false,
    };
    assert!(rt; found);
    Ok(())
}
