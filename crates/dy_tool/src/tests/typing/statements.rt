//! The typing rules of statements: files that are typed, and twins that are refused at a place.

use super::*;

#[test]
fn what_is_opened_has_a_guard(rt: HostRuntime) -> Result<(), Fail> {
    let cases: [(&str, &str, &str); 27] = [
        // the guard of `open` and `popen`
        (
            "who has the key has sealed",
            "open m with aead_k using A(self) as \"said\"(x, z) ad b;\nevent F(self, x);",
            TYPED,
        ),
        (
            "b has this key too",
            "open m with aead_ours using A(self) as \"said\"(x, z) ad b;\nevent F(self, x);",
            "refused line 31 c6 field 1\n",
        ),
        (
            "a compared secret guards with it",
            "open m with aead_ours using A(self) as \"said\"(x, =mine) ad b;\nevent F(self, x);",
            TYPED,
        ),
        (
            "a compared message guards nothing",
            "open m with aead_ours using A(self) as \"said\"(x, =m) ad b;\nevent F(self, x);",
            "refused line 31 c6 field 1\n",
        ),
        (
            "for a public key everyone seals",
            "popen m with pke_k using P(self) as \"said\"(x, z);\nevent F(self, x);",
            "refused line 31 c6 field 1\n",
        ),
        (
            "but for a compared secret",
            "popen m with pke_k using P(self) as \"said\"(x, =mine);\nevent F(self, x);",
            TYPED,
        ),
        (
            "b has this secret too",
            "popen m with pke_k using P(self) as \"said\"(x, =ours);\nevent F(self, x);",
            "refused line 31 c6 field 1\n",
        ),
        (
            "two compared secrets guard together",
            "popen m with pke_k using P(self) as \"said\"(=ours, =mine);\nevent F(self, ours);",
            TYPED,
        ),
        // the fields
        (
            "the hi joins that of the key",
            "new j : A(self) secret self;
open m with j using A(self) as \"any\"(x) ad b; store Upto(x);",
            TYPED,
        ),
        (
            "here b alone has the key",
            "new j : A(self) secret b; open m with j using A(self) as \"any\"(x) ad b;
store Upto(x);",
            "refused line 31 c7 field 1\n",
        ),
        (
            "so with `popen`",
            "new j : P(self) secret self;\npopen m with j using P(self) as \"any\"(x); store Upto(x);",
            TYPED,
        ),
        (
            "here b alone has the key",
            "new j : P(self) secret b; popen m with j using P(self) as \"any\"(x);\nstore Upto(x);",
            "refused line 31 c7 field 1\n",
        ),
        (
            "the hi joins that of the type",
            "new j : A(b) secret self; find P of b as q; open m with j using A(b) as \"upto\"(x) ad b;
send penc(q using P(b), \"any\"(x));",
            TYPED,
        ),
        (
            "`any` names no readers",
            "new j : A(b) secret self; find P of b as q; open m with j using A(b) as \"any\"(x) ad b;
send penc(q using P(b), \"any\"(x));",
            "refused line 31 c3 field 0\n",
        ),
        (
            "a secret is secret",
            "open m with aead_k using A(self) as \"secret\"(x, z) ad b;\nstore Secret(x, z);",
            TYPED,
        ),
        (
            "but where the guard is open",
            "open m with aead_ours using A(self) as \"secret\"(x, z) ad b;\nstore Secret(x, z);",
            "refused line 31 c8 field 1\n",
        ),
        (
            "`upto` is no secret",
            "open m with aead_k using A(self) as \"upto\"(x) ad b;\nstore Secret(x, b);",
            "refused line 31 c8 field 1\n",
        ),
        (
            "for a public key everyone may make one",
            "popen m with pke_k using P(self) as \"secret\"(x, z);\nstore Secret(x, z);",
            "refused line 31 c8 field 1\n",
        ),
        (
            "but for a compared secret",
            "popen m with pke_k using P(self) as \"secret\"(x, =mine);\nstore Secret(x, mine);",
            TYPED,
        ),
        (
            "a key has its usage",
            "open m with aead_k using A(self) as \"key\"(j) ad b;
send aead(j using A(self), \"any\"(mine), b);",
            TYPED,
        ),
        (
            "a secret has none",
            "open m with aead_k using A(self) as \"secret\"(j, z) ad b;
send aead(j using A(self), \"any\"(mine), b);",
            "refused line 31 c2 field 0\n",
        ),
        (
            "a public key may be forged where the guard is open",
            "open m with aead_ours using A(self) as \"pk\"(q) ad b;
send penc(q using P(self), \"any\"(mine));",
            "refused line 31 c3 field 0\n",
        ),
        (
            "not elsewhere",
            "open m with aead_k using A(self) as \"pk\"(q) ad b;
send penc(q using P(self), \"any\"(mine));",
            TYPED,
        ),
        (
            "a verification key may be forged where the guard is open",
            "open m with aead_ours using A(self) as \"vk\"(v) ad b; verify m with v using S(self) as \"said\"(x, z);
event F(self, x);",
            "refused line 31 c6 field 1\n",
        ),
        (
            "not elsewhere",
            "open m with aead_k using A(self) as \"vk\"(v) ad b; verify m with v using S(self) as \"said\"(x, z);
event F(self, x);",
            TYPED,
        ),
        (
            "a compared value has the field's claims",
            "split m as \"t\"(q); open m with aead_k using A(self) as \"pk\"(=q) ad b;
send penc(q using P(self), \"any\"(mine));",
            TYPED,
        ),
        (
            "`any` has none",
            "split m as \"t\"(q); open m with aead_k using A(self) as \"any\"(=q) ad b;
send penc(q using P(self), \"any\"(mine));",
            "refused line 31 c2 field 0\n",
        ),
    ];
    for (what, body, answer) in cases {
        let got = check_body(rt.alloc(), body)?;
        assert_eq!(rt; got.written.as_slice(), answer.as_bytes(), "{what}");
    }
    Ok(())
}

#[test]
fn other_statements_give_what_their_rules_say(rt: HostRuntime) -> Result<(), Fail> {
    let cases: [(&str, &str, &str); 43] = [
        ("the message is public", "send m; store Upto(m);", TYPED),
        (
            "it is no secret",
            "store Secret(m, b);",
            "refused line 30 c8 field 1\n",
        ),
        (
            "what a state knows has happened",
            "use Told(x, name z);\nevent F(self, x);",
            TYPED,
        ),
        (
            "or its label is open",
            "use Heard(x, name z);\nevent F(self, x);",
            "refused line 31 c6 field 1\n",
        ),
        (
            "an own event is certain",
            "event E(self, b);\nevent C(self, b);",
            TYPED,
        ),
        (
            "one that is signed is not",
            "verify m with vk_x using S(self) as \"said\"(x, z);\nevent C(self, x);",
            "refused line 31 c6 field 1\n",
        ),
        (
            "a key that is found is public, and its owner's",
            "find P of b as q; send q; send penc(q using P(b), \"any\"(ours));
find S of b as v; send v; verify m with v using S(b) as \"said\"(x, z); event G(self, b, x);",
            TYPED,
        ),
        (
            "its owner may not read this",
            "find P of b as q;\nsend penc(q using P(b), \"any\"(mine));",
            "refused line 31 c3 field 0\n",
        ),
        (
            "it is for the owner's name",
            "find S of c as v;\nverify m with v using S(b) as \"any\"(x);",
            "refused line 31 c2 field 0\n",
        ),
        (
            "who signed is not c",
            "find S of b as v; verify m with v using S(b) as \"said\"(x, z);\nevent G(self, c, x);",
            "refused line 31 c6 field 1\n",
        ),
        (
            "parts of a message are public",
            "split m as \"t\"(x);\nsend x;",
            TYPED,
        ),
        (
            "parts of a secret are not",
            "split secret_x as \"t\"(x);\nsend x;",
            "refused line 31 c1 field 0\n",
        ),
        (
            "nor are they secrets",
            "split secret_x as \"t\"(x);\nstore Secret(x, b);",
            "refused line 31 c8 field 1\n",
        ),
        (
            "a compared value is one with the part",
            "split m as \"t\"(=mine);\nsend mine;",
            TYPED,
        ),
        (
            "a part of a secret is no more public",
            "split secret_x as \"t\"(=mine);\nsend mine;",
            "refused line 31 c1 field 0\n",
        ),
        (
            "they may be read with the whole",
            "split secret_x as \"t\"(x);\nstore Upto(x);",
            TYPED,
        ),
        (
            "what is signed in a message is public",
            "verify m with vk_x using S(self) as \"any\"(x);\nsend x;",
            TYPED,
        ),
        (
            "in a secret it is not",
            "verify secret_x with vk_x using S(self) as \"any\"(x);\nsend x;",
            "refused line 31 c1 field 0\n",
        ),
        (
            "nor is it a secret",
            "verify secret_x with vk_x using S(self) as \"any\"(x);\nstore Secret(x, b);",
            "refused line 31 c8 field 1\n",
        ),
        (
            "it may be read with the signature",
            "verify secret_x with vk_x using S(self) as \"any\"(x);\nstore Upto(x);",
            TYPED,
        ),
        (
            "a signed key is guarded by the label of the verification key",
            "let u = vk(sig_k); verify m with u using S(self) as \"vk\"(z, v);\nstore Vk(v);",
            TYPED,
        ),
        (
            "here b signs too",
            "let u = vk(sig_ours); verify m with u using S(self) as \"vk\"(z, v);\nstore Vk(v);",
            "refused line 31 c8 field 1\n",
        ),
        (
            "a code gives facts and claims by the lo of its key",
            "split m as \"t\"(v); check m = mac(mac_k using M(self), \"said\"(b, c)); event F(self, b);
check m = mac(mac_k using M(self), \"vk\"(b, v)); store Vk(v);",
            TYPED,
        ),
        (
            "here b has the key too",
            "check m = mac(mac_ours using M(self), \"said\"(b, c));\nevent F(self, b);",
            "refused line 31 c6 field 1\n",
        ),
        (
            "and may make the claim",
            "split m as \"t\"(v); check m = mac(mac_ours using M(self), \"vk\"(b, v));\nstore Vk(v);",
            "refused line 31 c8 field 1\n",
        ),
        // `same`
        (
            "one value has the readers of both",
            "same mine m;\nsend mine;",
            TYPED,
        ),
        (
            "here they are no more",
            "same mine ours;\nsend mine;",
            "refused line 31 c1 field 0\n",
        ),
        (
            "one value is as secret as both",
            "same mine m;\nstore Secret(m, b);",
            TYPED,
        ),
        (
            "here neither is for `self` alone",
            "same ours m;\nstore Secret(m, b);",
            "refused line 31 c8 field 1\n",
        ),
        (
            "one value has the claims of both",
            "same vk_x m;\nstore Vk(m);",
            TYPED,
        ),
        (
            "here neither has that one",
            "same pk_x m;\nstore Vk(m);",
            "refused line 31 c8 field 1\n",
        ),
        (
            "facts follow a later `same`",
            "event E(self, mine); same mine m;\nevent F(self, m);",
            TYPED,
        ),
        (
            "here it is of another value",
            "event E(self, mine); same ours m;\nevent F(self, m);",
            "refused line 31 c6 field 1\n",
        ),
        (
            "usages and labels keep the name that was written",
            "same b c; find P of b as q;\nsend penc(q using P(b), \"any\"(ours));",
            TYPED,
        ),
        (
            "c is another reader",
            "same b c; new x : N() secret join(self, c); find P of b as q;
send penc(q using P(b), \"any\"(x));",
            "refused line 31 c3 field 0\n",
        ),
        (
            "c is another usage",
            "same b c; find P of b as q;\nsend penc(q using P(c), \"any\"(ours));",
            "refused line 31 c2 field 0\n",
        ),
        (
            "and its key is for another reader",
            "same b c; find P of c as q;\nsend penc(q using P(c), \"any\"(ours));",
            "refused line 31 c3 field 0\n",
        ),
        // what is one has the meet of the labels
        (
            "two public keys are one",
            "new i : P(self) secret b; new j : P(self) secret c; new x : N() secret meet(b, c);
let q = pk(i); let r = pk(j); same q r; send penc(q using P(self), \"any\"(x));",
            TYPED,
        ),
        (
            "one claim is not enough",
            "new i : P(self) secret b; new j : P(self) secret c; new x : N() secret meet(b, c);
let q = pk(i); let r = pk(j); same q q; send penc(q using P(self), \"any\"(x));",
            "refused line 31 c3 field 0\n",
        ),
        (
            "two verification keys are one",
            "new i : S(self) secret b; new j : S(self) secret c; let v = vk(i); let r = vk(j); same v r;
verify m with v using S(self) as \"said\"(x, z); event V(self, b, c, x);",
            TYPED,
        ),
        (
            "one claim is not enough",
            "new i : S(self) secret b; new j : S(self) secret c; let v = vk(i); let r = vk(j); same v v;
verify m with v using S(self) as \"said\"(x, z); event V(self, b, c, x);",
            "refused line 31 c6 field 1\n",
        ),
        (
            "two facts are one",
            "find S of b as v; verify m with v using S(b) as \"of\"(=self, x);
find S of c as r; verify m with r using S(c) as \"of\"(=self, =x); event V(self, b, c, x);",
            TYPED,
        ),
        (
            "one fact is not enough",
            "find S of b as v; verify m with v using S(b) as \"of\"(=self, x);
find S of c as r; verify m with r using S(c) as \"of\"(=c, =x); event V(self, b, c, x);",
            "refused line 31 c6 field 1\n",
        ),
    ];
    for (what, body, answer) in cases {
        let got = check_body(rt.alloc(), body)?;
        assert_eq!(rt; got.written.as_slice(), answer.as_bytes(), "{what}");
    }
    Ok(())
}

#[test]
fn a_session_goes_on_from_its_state(rt: HostRuntime) -> Result<(), Fail> {
    let cases: [(&str, &str, &str); 12] = [
        (
            "a handler of no statements is typed",
            "handler H on Last(x, y) args(b) recv m { }",
            TYPED,
        ),
        (
            "a secret of the state may be stored",
            "handler H on Upto(x) args() { store Upto(x); }",
            TYPED,
        ),
        (
            "it may not be sent",
            "handler H on Upto(x) args() {\nsend x; }",
            "refused line 16 c1 field 0\n",
        ),
        (
            "what the state knows has happened",
            "handler H on Last(x, y) args() {\nevent F(self, x); }",
            TYPED,
        ),
        (
            "with this value",
            "handler H on Last(x, y) args() {\nevent F(self, y); }",
            "refused line 16 c6 field 1\n",
        ),
        (
            "or its label is open",
            "handler H on Last(x, y) args() {\nevent C(self, x); }",
            "refused line 16 c6 field 1\n",
        ),
        (
            "`here` is the version that is stored",
            "state Now (x: secret here); handler H args() {\nnew x : N() secret next; store Now(x); }",
            TYPED,
        ),
        (
            "not the session",
            "state Now (x: secret here); handler H args() {
new x : N() secret session; store Now(x); }",
            "refused line 16 c8 field 1\n",
        ),
        (
            "after `on` it is the version before",
            "state Now (x: secret here); handler H on Now(x) args() {\nstore Now(x); }",
            "refused line 16 c7 field 1\n",
        ),
        (
            "what is for the session may be stored again",
            "state Now (x: secret session); handler H on Now(x) args() {\nstore Now(x); }",
            TYPED,
        ),
        (
            "a fact of the session may be stored again",
            "state Now (x: upto public) knows E(self, x) unless session; handler H on Now(x) args() {
store Now(x); }",
            TYPED,
        ),
        (
            "not one of the version before",
            "state Now (x: upto public) knows E(self, x) unless here; handler H on Now(x) args() {
store Now(x); }",
            "refused line 16 c6 field 1\n",
        ),
    ];
    for (what, part, answer) in cases {
        let got = check_part(rt.alloc(), part)?;
        assert_eq!(rt; got.written.as_slice(), answer.as_bytes(), "{what}");
    }
    Ok(())
}
