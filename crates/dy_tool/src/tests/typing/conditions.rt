//! Each condition: files that meet it, and twins that are refused; and which place is named.

use super::*;

#[test]
fn each_condition_is_met_or_named(rt: HostRuntime) -> Result<(), Fail> {
    let cases: [(&str, &str, &str); 38] = [
        // c2
        (
            "c2: each key is for its use",
            "send penc(pk_x using P(self), \"any\"(mine)); send aead(aead_k using A(self), \"any\"(b), b);
send sign(sig_k using S(self), \"any\"(b)); send mac(mac_k using M(self), \"any\"(b));
open m with aead_k using A(self) as \"any\"(x) ad b; popen m with pke_k using P(self) as \"any\"(z);
verify m with vk_x using S(self) as \"any\"(w); check m = mac(mac_k using M(self), \"any\"(b));",
            TYPED,
        ),
        (
            "c2: `mine` is no public key",
            "send penc(mine using P(self), \"any\"(mine));",
            "refused line 30 c2 field 0\n",
        ),
        (
            "c2: `aead` under a key for another",
            "send aead(aead_k using A(b), \"any\"(b), b);",
            "refused line 30 c2 field 0\n",
        ),
        (
            "c2: `sign` with a key for another",
            "send sign(sig_k using S(b), \"any\"(b));",
            "refused line 30 c2 field 0\n",
        ),
        (
            "c2: `mac` with a key for another",
            "send mac(mac_k using M(b), \"any\"(b));",
            "refused line 30 c2 field 0\n",
        ),
        (
            "c2: `open` with a key for another",
            "open m with aead_k using A(b) as \"any\"(x) ad b;",
            "refused line 30 c2 field 0\n",
        ),
        (
            "c2: `popen` with a key for another",
            "popen m with pke_k using P(b) as \"any\"(x);",
            "refused line 30 c2 field 0\n",
        ),
        (
            "c2: `verify` with a key of another",
            "verify m with vk_x using S(b) as \"any\"(x);",
            "refused line 30 c2 field 0\n",
        ),
        (
            "c2: `check` with a key for another",
            "check m = mac(mac_k using M(b), \"any\"(b));",
            "refused line 30 c2 field 0\n",
        ),
        (
            "c2 to c5: what anyone seals owes nothing",
            "send penc(mine using P(b), \"any\"(b)); send aead(m using A(b), \"any\"(b), b);
send sign(m using S(b), \"any\"(b)); send mac(m using M(b), \"any\"(b));
send penc(mine using P(self), \"secret\"(b, c)); send aead(m using A(self), \"secret\"(b, c), b);
send sign(m using S(self), \"vk\"(b, c)); send mac(m using M(self), \"vk\"(b, c));
send penc(mine using P(self), \"said\"(b, c));
send aead(m using A(self), \"said\"(b, c), b); send sign(m using S(self), \"said\"(b, c));
send mac(m using M(self), \"said\"(b, c));",
            TYPED,
        ),
        (
            "c2: to open, a public value is no key",
            "open m with m using A(self) as \"any\"(x) ad b;",
            "refused line 30 c2 field 0\n",
        ),
        // c3
        (
            "c3: who has the key may read",
            "send aead(aead_k using A(self), \"any\"(ours), b);",
            TYPED,
        ),
        (
            "c3: the lo of the key, not the hi",
            "same aead_k m;\nsend aead(aead_k using A(self), \"any\"(mine), b);",
            TYPED,
        ),
        (
            "c3: b has the key too",
            "send aead(aead_ours using A(self), \"any\"(mine), b);",
            "refused line 30 c3 field 0\n",
        ),
        (
            "c3: everyone has a public key",
            "send aead(m using A(self), \"any\"(mine), b);",
            "refused line 30 c3 field 0\n",
        ),
        // c4
        (
            "c4: each field fits",
            "send penc(pk_x using P(self), \"secret\"(mine, b));
send aead(aead_k using A(self), \"secret\"(mine, b), b);
send sign(sig_k using S(self), \"vk\"(b, vk(sig_k))); send mac(mac_k using M(self), \"vk\"(b, vk(sig_k)));",
            TYPED,
        ),
        (
            "c4: `penc`",
            "send penc(pk_x using P(self), \"secret\"(b, mine));",
            "refused line 30 c4 field 1\n",
        ),
        (
            "c4: `aead`",
            "send aead(aead_k using A(self), \"secret\"(b, mine), b);",
            "refused line 30 c4 field 1\n",
        ),
        (
            "c4: `sign`",
            "send sign(sig_k using S(self), \"vk\"(b, vk(sig_ours)));",
            "refused line 30 c4 field 2\n",
        ),
        (
            "c4: `mac`",
            "send mac(mac_k using M(self), \"vk\"(b, vk(sig_ours)));",
            "refused line 30 c4 field 2\n",
        ),
        // c5
        (
            "c5: the event has happened",
            "event E(self, b); send penc(pk_x using P(self), \"said\"(b, mine));
send aead(aead_k using A(self), \"said\"(b, c), b); send sign(sig_k using S(self), \"said\"(b, c));
send mac(mac_k using M(self), \"said\"(b, c));",
            TYPED,
        ),
        (
            "c5: `penc`",
            "event E(self, c);\nsend penc(pk_x using P(self), \"said\"(b, mine));",
            "refused line 31 c5 field 1\n",
        ),
        (
            "c5: `aead`",
            "event E(self, c);\nsend aead(aead_k using A(self), \"said\"(b, c), b);",
            "refused line 31 c5 field 1\n",
        ),
        (
            "c5: `sign`",
            "event E(self, c);\nsend sign(sig_k using S(self), \"said\"(b, c));",
            "refused line 31 c5 field 1\n",
        ),
        (
            "c5: `mac`",
            "event E(self, c);\nsend mac(mac_k using M(self), \"said\"(b, c));",
            "refused line 31 c5 field 1\n",
        ),
        (
            "c5: the hi of the key, not the lo",
            "same aead_k m;\nsend aead(aead_k using A(self), \"said\"(b, c), b);",
            TYPED,
        ),
        (
            "c5: the guard implies the sealer's label",
            "new j : A(b) secret join(self, b); find S of b as v; verify m with v using S(b) as \"said\"(x, z);
send aead(j using A(b), \"said\"(x, z), b);",
            TYPED,
        ),
        (
            "c5: here b cannot seal",
            "new j : A(b) secret self; find S of b as v; verify m with v using S(b) as \"said\"(x, z);
send aead(j using A(b), \"said\"(x, z), b);",
            "refused line 31 c5 field 1\n",
        ),
        (
            "c5: a variable has facts",
            "let x = hash(b); event E(self, x);\nsend mac(mac_k using M(self), \"said\"(x, c));",
            TYPED,
        ),
        (
            "c5: another expression has none",
            "let x = hash(b); event E(self, x);\nsend mac(mac_k using M(self), \"said\"(hash(b), c));",
            "refused line 31 c5 field 1\n",
        ),
        // c6 to c9
        (
            "c6 to c8: what is stored",
            "event E(self, mine);\nstore Last(mine, b);",
            TYPED,
        ),
        (
            "c6: the event is of another value",
            "event E(self, ours);\nstore Last(mine, b);",
            "refused line 31 c6 field 1\n",
        ),
        (
            "c7: b alone may read it",
            "new x : N() secret b; event E(self, mine);\nstore Last(mine, x);",
            "refused line 31 c7 field 2\n",
        ),
        (
            "c8: b has it too",
            "event E(self, ours);\nstore Last(ours, b);",
            "refused line 31 c8 field 1\n",
        ),
        (
            "c9: one's own keys",
            "certify sig_k as S; certify pke_k as P; new j : S(self) secret session; certify j as S;",
            TYPED,
        ),
        (
            "c9: b has it too",
            "certify sig_ours as S;",
            "refused line 30 c9 field 0\n",
        ),
        (
            "c9: it has another usage",
            "certify sig_k as P;",
            "refused line 30 c9 field 0\n",
        ),
        (
            "c9: it is for another name",
            "new j : S(b) secret self;\ncertify j as S;",
            "refused line 31 c9 field 0\n",
        ),
    ];
    for (what, body, answer) in cases {
        let got = check_body(rt.alloc(), body)?;
        assert_eq!(rt; got.written.as_slice(), answer.as_bytes(), "{what}");
    }
    Ok(())
}

#[test]
fn the_first_condition_that_fails_is_named(rt: HostRuntime) -> Result<(), Fail> {
    let cases: [(&str, &str, &str); 23] = [
        (
            "c1 comes before c2",
            "send pair(mine, mac(mac_k using M(b), \"any\"(b)));",
            "refused line 30 c1 field 0\n",
        ),
        (
            "without a secret c2 is named",
            "send pair(m, mac(mac_k using M(b), \"any\"(b)));",
            "refused line 30 c2 field 0\n",
        ),
        (
            "a later c2 comes before an earlier c5",
            "send pair(mac(mac_k using M(self), \"said\"(b, c)),\nmac(mac_k using M(b), \"any\"(b)));",
            "refused line 30 c2 field 0\n",
        ),
        (
            "an inner c2 comes before an outer c5",
            "send mac(mac_k using M(self), \"said\"(b, mac(mac_k using M(b), \"any\"(b))));",
            "refused line 30 c2 field 0\n",
        ),
        (
            "a later c3 comes before an earlier c4",
            "send pair(aead(aead_k using A(self), \"secret\"(b, c), b),
aead(aead_ours using A(self), \"any\"(mine), b));",
            "refused line 30 c3 field 0\n",
        ),
        (
            "a later c4 comes before an earlier c5",
            "send pair(mac(mac_k using M(self), \"said\"(b, c)),
aead(aead_k using A(self), \"secret\"(b, c), b));",
            "refused line 30 c4 field 1\n",
        ),
        (
            "the left operation comes first",
            "send pair(aead(aead_k using A(self), \"for\"(c, ours), b),
aead(aead_k using A(self), \"secret\"(b, c), b));",
            "refused line 30 c4 field 2\n",
        ),
        (
            "whatever the field",
            "send pair(aead(aead_k using A(self), \"secret\"(b, c), b),
aead(aead_k using A(self), \"for\"(c, ours), b));",
            "refused line 30 c4 field 1\n",
        ),
        (
            "the outer operation comes first",
            "send mac(mac_k using M(self), \"vk\"(aead(aead_k using A(self), \"secret\"(b, c), b), m));",
            "refused line 30 c4 field 2\n",
        ),
        (
            "where it is met the inner one is named",
            "send mac(mac_k using M(self), \"vk\"(aead(aead_k using A(self), \"secret\"(b, c), b), vk(sig_k)));",
            "refused line 30 c4 field 1\n",
        ),
        (
            "the tuple comes before the associated data",
            "send aead(aead_k using A(self), \"any\"(aead(aead_k using A(self), \"for\"(c, ours), b)),
aead(aead_k using A(self), \"secret\"(b, c), b));",
            "refused line 30 c4 field 2\n",
        ),
        (
            "operations in `ad` of `open` count",
            "open m with aead_k using A(self) as \"any\"(x) ad mac(mac_k using M(self), \"said\"(b, c));",
            "refused line 30 c5 field 1\n",
        ),
        (
            "this one is met",
            "open m with aead_k using A(self) as \"any\"(x) ad mac(mac_k using M(self), \"any\"(b));",
            TYPED,
        ),
        (
            "operations inside `store` count",
            "store Upto(mac(mac_k using M(self), \"said\"(b, c)));",
            "refused line 30 c5 field 1\n",
        ),
        (
            "this one is met",
            "store Upto(mac(mac_k using M(self), \"any\"(b)));",
            TYPED,
        ),
        (
            "operations inside `let` and `hash` count",
            "let x = hash(mac(mac_k using M(self), \"said\"(b, c)));",
            "refused line 30 c5 field 1\n",
        ),
        (
            "the input of `kdf` counts",
            "let x = kdf(kdf_k, \"m\", mac(mac_k using M(self), \"said\"(b, c)));",
            "refused line 30 c5 field 1\n",
        ),
        (
            "c6 comes before c7",
            "new x : N() secret b; event E(self, b);\nstore Last(m, x);",
            "refused line 31 c6 field 1\n",
        ),
        (
            "c7 of a later field comes before c8",
            "new x : N() secret b; event E(self, m);\nstore Last(m, x);",
            "refused line 31 c7 field 2\n",
        ),
        (
            "then comes c8",
            "event E(self, m);\nstore Last(m, b);",
            "refused line 31 c8 field 1\n",
        ),
        (
            "fields go by number",
            "store Secrets(mine, m, mine, mine, m, mine, mine, mine);",
            "refused line 30 c8 field 2\n",
        ),
        (
            "the first statement is named",
            "send b;
send mine;
send ours; }
handler I args(b) { event F(self, b);",
            "refused line 31 c1 field 0\n",
        ),
        (
            "the first handler is named",
            "send b;
send m; }
handler I args(b) {
event F(self, b); }
handler J args(b) { event F(self, b);",
            "refused line 33 c6 field 1\n",
        ),
    ];
    for (what, body, answer) in cases {
        let got = check_body(rt.alloc(), body)?;
        assert_eq!(rt; got.written.as_slice(), answer.as_bytes(), "{what}");
    }
    Ok(())
}
