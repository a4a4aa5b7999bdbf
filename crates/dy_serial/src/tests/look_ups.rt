//! Which state and which certificate a statement takes, and how large what it puts may be.

use super::statements::{LARGE, runs_by};
use super::*;
use std::test::*;

/// Of two certificates of bob the first is found, and of alice there is none.
const CERTIFICATES: &str = r#"handler Make args() {
  new k : P(self) secret self; certify k as P;
  new s : S(self) secret self; certify s as S;
}
handler Find args(a) { find S of a as v; find P of a as p; send "t"(p, v); }
plan {
  round { k: bob Make(); }
  round { l: bob Make(); }
  round { f: alice Find(bob); g: alice Find(alice); }
}"#;

const FOUND: &str = r#"13 start 2 Find alice 13 (bob) -
14 message 13 pair("t", pair(pk(#2), vk(#4)))
15 end 13 done
16 start 3 Find alice 16 (alice) -
17 end 16 stopped 1
"#;

/// Of two sessions that match the lesser is taken, and of a principal its own states alone.
const STATES: &str = r#"handler Put args(y) recv x { store L(x, y); }
handler Use args(y) { use L(x, =y); send x; }
plan {
  round { a: inject "first"; b: inject "second"; }
  round { p: bob Put(eve) msg a.1; q: bob Put(eve) msg b.1; r: bob Put(ann) msg b.1; }
  round { u: bob Use(eve); v: bob Use(ann); w: bob Use(bob); x: ann Use(ann); }
}"#;

const USED: &str = r#"12 start 5 Use bob 12 (eve) -
13 message 12 "first"
14 end 12 done
15 start 6 Use bob 15 (ann) -
16 message 15 "second"
17 end 15 done
18 start 7 Use bob 18 (bob) -
19 end 18 stopped 1
20 start 8 Use ann 20 (ann) -
21 end 20 stopped 1
"#;

/// A session goes on from its newest version, where that is of this state and matches.
const SESSION: &str = r#"handler Begin args() { store T("one"); }
handler Next on T(x) args() { store T(hash(x)); }
handler Mine on T(=self) args() { send self; }
handler Stop on T(x) args() { store U(x); }
plan {
  round { b: bob Begin(); }
  round { n: bob Next() on b; }
  round { m: bob Mine() on b; }
  round { s: bob Stop() on b; }
  round { t: bob Next() on b; }
}"#;

const WENT_ON: &str = r#"4 start 1 Next bob 1 () -
5 state 4 bob 1 2 T (hash("one"))
6 end 4 done
7 start 2 Mine bob 1 () -
8 end 7 stopped 0
9 start 3 Stop bob 1 () -
10 state 9 bob 1 3 U (hash("one"))
11 end 9 done
12 start 4 Next bob 1 () -
13 end 12 stopped 0
"#;

#[test]
fn states_and_certificates_are_taken_in_order(rt: HostRuntime) {
    for (parts, count, lines) in [
        (CERTIFICATES, 13, FOUND),
        (STATES, 12, USED),
        (SESSION, 4, WENT_ON),
    ] {
        assert!(rt; runs_by(rt.alloc(), parts, count, lines), "{parts}");
    }
}

/// Whether the handler of ten statements, and these after them, goes by these lines after so many.
fn ends(alloc: Global, statements: &str, count: usize, lines: &str) -> bool {
    let parts = format!(in alloc;
        "handler H args() {{ {LARGE} {statements} }}
plan {{ round {{ h: bob H(); }} }}"
    );
    match parts {
        Ok(parts) => runs_by(alloc, parts.as_str(), count, lines),
        Err(_) => false,
    }
}

#[test]
fn what_is_put_has_at_most_1024_nodes(rt: HostRuntime) {
    for (statements, count, lines) in [
        ("send hash(j);", 3, "3 end 1 done\n"),
        ("send hash(hash(j));", 2, "2 end 1 stopped 11\n"),
        ("let k = pair(j, j);", 2, "2 end 1 stopped 11\n"),
        (r#"store L(j, "x");"#, 3, "3 end 1 done\n"),
        (r#"store L(j, hash("x"));"#, 2, "2 end 1 stopped 11\n"),
        ("event E(self, j);", 3, "3 end 1 done\n"),
        (
            "let k = hash(j); event E(self, k);",
            2,
            "2 end 1 stopped 12\n",
        ),
    ] {
        assert!(rt; ends(rt.alloc(), statements, count, lines), "{statements}");
    }
}
