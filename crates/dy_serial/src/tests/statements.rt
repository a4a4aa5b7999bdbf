//! What each kind of statement takes, and where it stops.

use super::*;
use std::test::*;

const DECLARED: &str = r#"dystar 1
usage nonce N();
usage aead A();
usage pke P(o);
usage sig S(o);
usage mac M();
case A "a"(x: any, n: name);
case P "p"(x: any);
case S "s"(x: any);
case M "m"(x: any);
event E(name a, x);
state T (x: any);
state U (x: any);
state L lasting (x: any, y: any);
"#;

/// A pair of 1,023 nodes, in ten statements.
pub(super) const LARGE: &str =
    r#"let a = "x"; let b = pair(a, a); let c = pair(b, b); let d = pair(c, c);
let e = pair(d, d); let f = pair(e, e); let g = pair(f, f); let h = pair(g, g); let i = pair(h, h); let j = pair(i, i);
"#;

/// With these statements, and a message of this value, these are the lines of Bob's instance after its Start.
#[derive(Drop)]
struct Example {
    statements: &'static str,
    recipe: &'static str,
    lines: &'static str,
}

const fn case(statements: &'static str, recipe: &'static str, lines: &'static str) -> Example {
    Example {
        statements,
        recipe,
        lines,
    }
}

/// Whether the text of a trace goes on by these lines after so many, and ends with the counts.
fn goes_on(alloc: Global, text: &[u8], count: usize, lines: &str) -> bool {
    match format!(in alloc; "{lines}total ") {
        Ok(wanted) => after_lines(text, count).starts_with(wanted.as_bytes()),
        Err(_) => false,
    }
}

/// Whether the trace of these handlers and this plan goes on by these lines after so many, and ends with the counts.
pub(super) fn runs_by(alloc: Global, parts: &str, count: usize, lines: &str) -> bool {
    match run(alloc, DECLARED, parts) {
        Some(text) => goes_on(alloc, text.as_slice(), count, lines),
        None => false,
    }
}

/// Whether Bob's instance goes by the lines of the case.
fn holds(alloc: Global, case: &Example) -> bool {
    let statements = case.statements;
    let recipe = case.recipe;
    let parts = format!(in alloc;
        "handler H args() recv m {{ {statements} }}
plan {{ round {{ j: inject {recipe}; }} round {{ h: bob H() msg j.1; }} }}"
    );
    match parts {
        Ok(parts) => runs_by(alloc, parts.as_str(), 3, case.lines),
        Err(_) => false,
    }
}

const SPLIT: &str = r#"split m as "t"(x, y); send pair(y, x);"#;

const SPLIT_NONE: &str = r#"split m as "t"(); send m;"#;

const SPLIT_ONE: &str = r#"split m as "t"(x); send x;"#;

const SPLIT_NAMES: &str = r#"split m as "t"(name x, =self); send x;"#;

#[test]
fn a_tuple_is_split_by_its_tag_and_length(rt: HostRuntime) {
    for case in [
        case(
            SPLIT,
            r#""t"("a", "b")"#,
            "3 message 2 pair(\"b\", \"a\")\n4 end 2 done\n",
        ),
        // the last of two fields is all that is left
        case(
            SPLIT,
            r#""t"("a", "b", "c")"#,
            "3 message 2 pair(pair(\"b\", \"c\"), \"a\")\n4 end 2 done\n",
        ),
        case(SPLIT, r#""u"("a", "b")"#, "3 end 2 stopped 1\n"),
        case(SPLIT, r#""t"("a")"#, "3 end 2 stopped 1\n"),
        case(SPLIT, r#""t""#, "3 end 2 stopped 1\n"),
        case(
            SPLIT,
            r#"pair(name t, pair("a", "b"))"#,
            "3 end 2 stopped 1\n",
        ),
        case(SPLIT, r#"hash("t"("a", "b"))"#, "3 end 2 stopped 1\n"),
        case(SPLIT_NONE, r#""t""#, "3 message 2 \"t\"\n4 end 2 done\n"),
        case(SPLIT_NONE, r#""u""#, "3 end 2 stopped 1\n"),
        case(SPLIT_NONE, r#""t"("a")"#, "3 end 2 stopped 1\n"),
        case(
            SPLIT_ONE,
            r#""t"("a")"#,
            "3 message 2 \"a\"\n4 end 2 done\n",
        ),
        case(SPLIT_ONE, r#""t""#, "3 end 2 stopped 1\n"),
        case(
            SPLIT_NAMES,
            r#""t"(name carol, name bob)"#,
            "3 message 2 @carol\n4 end 2 done\n",
        ),
        case(
            SPLIT_NAMES,
            r#""t"("carol", name bob)"#,
            "3 end 2 stopped 1\n",
        ),
        case(
            SPLIT_NAMES,
            r#""t"(name carol, name carol)"#,
            "3 end 2 stopped 1\n",
        ),
        case(
            SPLIT_NAMES,
            r#""t"(name carol, "bob")"#,
            "3 end 2 stopped 1\n",
        ),
        case(
            r#"let x = "x"; send x; split m as "t"(=x); send m;"#,
            r#""t"("x")"#,
            "3 message 2 \"x\"\n4 message 2 pair(\"t\", \"x\")\n5 end 2 done\n",
        ),
        case(
            r#"let x = "x"; send x; split m as "t"(=x); send m;"#,
            r#""t"("y")"#,
            "3 message 2 \"x\"\n4 end 2 stopped 3\n",
        ),
    ] {
        assert!(rt;
            holds(rt.alloc(), &case),
            "{} {}",
            case.statements,
            case.recipe
        );
    }
}

const OPEN: &str =
    r#"split m as "t"(c, k); open c with k using A() as "a"(x, name n) ad "d"; send pair(x, n);"#;

#[test]
fn only_the_key_and_the_data_open(rt: HostRuntime) {
    for (recipe, lines) in [
        (
            r#""t"(aead("k", "a"("x", name eve), "d"), "k")"#,
            "3 message 2 pair(\"x\", @eve)\n4 end 2 done\n",
        ),
        // another key
        (
            r#""t"(aead("k", "a"("x", name eve), "d"), "l")"#,
            "3 end 2 stopped 2\n",
        ),
        // other data
        (
            r#""t"(aead("k", "a"("x", name eve), "e"), "k")"#,
            "3 end 2 stopped 2\n",
        ),
        // another tag
        (
            r#""t"(aead("k", "b"("x", name eve), "d"), "k")"#,
            "3 end 2 stopped 2\n",
        ),
        // too few fields
        (
            r#""t"(aead("k", "a"("x"), "d"), "k")"#,
            "3 end 2 stopped 2\n",
        ),
        // no name
        (
            r#""t"(aead("k", "a"("x", "eve"), "d"), "k")"#,
            "3 end 2 stopped 2\n",
        ),
        // not encrypted so
        (r#""t"("c", "k")"#, "3 end 2 stopped 2\n"),
        (
            r#""t"(penc("k", "a"("x", name eve)), "k")"#,
            "3 end 2 stopped 2\n",
        ),
        (
            r#""t"(mac("k", "a"("x", name eve)), "k")"#,
            "3 end 2 stopped 2\n",
        ),
    ] {
        assert!(rt; holds(rt.alloc(), &case(OPEN, recipe, lines)), "{recipe}");
    }
}

const POPEN: &str = r#"split m as "t"(c, k); popen c with k using P(self) as "p"(x); send x;"#;

const VERIFY: &str = r#"split m as "t"(c, v); verify c with v using S(self) as "s"(x); send x;"#;

#[test]
fn only_the_key_that_belongs_opens_and_verifies(rt: HostRuntime) {
    for (statements, recipe, lines) in [
        (
            POPEN,
            r#""t"(penc(pk("k"), "p"("x")), "k")"#,
            "3 message 2 \"x\"\n4 end 2 done\n",
        ),
        (
            POPEN,
            r#""t"(penc(pk("k"), "p"("x")), "l")"#,
            "3 end 2 stopped 2\n",
        ),
        // encrypted to what is no public key
        (
            POPEN,
            r#""t"(penc(vk("k"), "p"("x")), "k")"#,
            "3 end 2 stopped 2\n",
        ),
        (
            POPEN,
            r#""t"(penc("k", "p"("x")), "k")"#,
            "3 end 2 stopped 2\n",
        ),
        // opened with the public key
        (
            POPEN,
            r#""t"(penc(pk("k"), "p"("x")), pk("k"))"#,
            "3 end 2 stopped 2\n",
        ),
        (
            POPEN,
            r#""t"(penc(pk("k"), "q"("x")), "k")"#,
            "3 end 2 stopped 2\n",
        ),
        (
            POPEN,
            r#""t"(aead(pk("k"), "p"("x"), ""), "k")"#,
            "3 end 2 stopped 2\n",
        ),
        (
            VERIFY,
            r#""t"(sign("k", "s"("x")), vk("k"))"#,
            "3 message 2 \"x\"\n4 end 2 done\n",
        ),
        (
            VERIFY,
            r#""t"(sign("k", "s"("x")), vk("l"))"#,
            "3 end 2 stopped 2\n",
        ),
        (
            VERIFY,
            r#""t"(sign("k", "s"("x")), pk("k"))"#,
            "3 end 2 stopped 2\n",
        ),
        // verified with the signing key
        (
            VERIFY,
            r#""t"(sign("k", "s"("x")), "k")"#,
            "3 end 2 stopped 2\n",
        ),
        (
            VERIFY,
            r#""t"(sign("k", "u"("x")), vk("k"))"#,
            "3 end 2 stopped 2\n",
        ),
        (
            VERIFY,
            r#""t"(mac("k", "s"("x")), vk("k"))"#,
            "3 end 2 stopped 2\n",
        ),
    ] {
        assert!(rt;
            holds(rt.alloc(), &case(statements, recipe, lines)),
            "{recipe}"
        );
    }
}

const CHECK: &str = r#"split m as "t"(c, k, x); check c = mac(k using M(), "m"(x)); send x;"#;

const SAME: &str = "same m self; send m;";

#[test]
fn only_what_is_equal_is_checked_and_the_same(rt: HostRuntime) {
    for (statements, recipe, lines) in [
        (
            CHECK,
            r#""t"(mac("k", "m"("x")), "k", "x")"#,
            "3 message 2 \"x\"\n4 end 2 done\n",
        ),
        (
            CHECK,
            r#""t"(mac("k", "m"("x")), "k", "y")"#,
            "3 end 2 stopped 2\n",
        ),
        (
            CHECK,
            r#""t"(mac("l", "m"("x")), "k", "x")"#,
            "3 end 2 stopped 2\n",
        ),
        (
            CHECK,
            r#""t"(mac("k", "n"("x")), "k", "x")"#,
            "3 end 2 stopped 2\n",
        ),
        (
            CHECK,
            r#""t"(sign("k", "m"("x")), "k", "x")"#,
            "3 end 2 stopped 2\n",
        ),
        (SAME, "name bob", "3 message 2 @bob\n4 end 2 done\n"),
        (SAME, "name alice", "3 end 2 stopped 1\n"),
        (SAME, r#""bob""#, "3 end 2 stopped 1\n"),
    ] {
        assert!(rt;
            holds(rt.alloc(), &case(statements, recipe, lines)),
            "{recipe}"
        );
    }
}
