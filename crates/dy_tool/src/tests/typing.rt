//! The typing rules of expressions and field types: files that are typed, and twins that are refused at a place.

use super::*;

mod conditions;
mod statements;

/// Declarations on lines 1 to 14.
const DECLARED: &str = "dystar 1
usage nonce N(); usage pke P(o); usage sig S(o); usage aead A(o); usage mac M(o); usage kdf K(o) { \"m\" -> mac M; };
event E(name a, x); event C(name a, x) after E(a, x) unless nobody; event F(name a, x) after E(a, x) unless a;
event G(name a, name b, x) after E(b, x) unless b;
event V(name a, name b, name c, x) after E(a, x) unless meet(b, c);
case P \"any\"(x: any); case P \"secret\"(x: secret o, y: any); case P \"said\"(x: any, y: any) requires E(o, x);
case A \"any\"(x: any); case A \"secret\"(x: secret o, y: any); case A \"said\"(x: any, y: any) requires E(o, x);
case A \"upto\"(x: upto o); case A \"for\"(b: name, x: secret join(o, b));
case A \"key\"(k: key o A(o)); case A \"pk\"(k: pk o P(o)); case A \"vk\"(k: vk o S(o));
case S \"any\"(x: any); case S \"said\"(x: any, y: any) requires E(o, x); case S \"vk\"(x: any, k: vk o S(o));
case S \"of\"(a: name, x: any) requires E(a, x);
case M \"any\"(x: any); case M \"said\"(x: any, y: any) requires E(o, x); case M \"vk\"(x: any, k: vk o S(o));
state Upto (x: upto self); state Secret (x: secret self, y: any); state Vk (k: vk self S(self));
state Last (x: secret self, y: any) knows E(self, x) unless self;
";

/// Lines 15 to 29: what a handler has. `mine` is for `self` alone, and `ours` for `self` and b. So are the keys.
const HANDLER: &str =
    "state Typed (n: name, x: any, u: upto self, s: secret self, k: key self A(self), p: pk self P(self),
v: vk self S(self));
state Secrets (a: secret self, b: secret self, c: secret self, d: secret self, e: secret self, f: secret self,
g: secret self, h: secret self);
state Held lasting (n: name, x: any, u: upto self, o: upto public, s: secret self, k: key self A(self),
p: pk self P(self), v: vk self S(self));
state Told lasting (x: any, b: name) knows E(self, x) unless self;
state Heard lasting (x: any, b: name) knows E(self, x) unless b;
handler H args(b, c) recv m { use Held(name y, any_x, upto_x, public_x, secret_x, key_x, pk_x, vk_x);
new mine : N() secret self; new ours : N() secret join(self, b);
new aead_k : A(self) secret self; new aead_ours : A(self) secret join(self, b);
new mac_k : M(self) secret self; new mac_ours : M(self) secret join(self, b);
new kdf_k : K(self) secret self; new kdf_ours : K(self) secret join(self, b);
new pke_k : P(self) secret self; new pke_ours : P(self) secret join(self, b);
new sig_k : S(self) secret self; new sig_ours : S(self) secret join(self, b);
";

/// What is printed of a file with one handler that is typed.
const TYPED: &str = "accepted 1 handlers\n";

/// What `check` says of these declarations and a last part from line 15.
fn check_part(alloc: Global, part: &str) -> Result<Outcome, AllocError> {
    let input = format!(in alloc; "{DECLARED}{part}")?;
    carry_out(alloc, &["check"], input.as_bytes(), KIND)
}

/// What `check` says of a handler that goes on with these statements from line 30.
fn check_body(alloc: Global, body: &str) -> Result<Outcome, AllocError> {
    let input = format!(in alloc; "{DECLARED}{HANDLER}{body} }}")?;
    carry_out(alloc, &["check"], input.as_bytes(), KIND)
}

#[test]
fn expressions_have_labels_and_claims_by_their_parts(rt: HostRuntime) -> Result<(), Fail> {
    let cases: [(&str, &str, &str); 34] = [
        (
            "what is public may be sent",
            "send b; send \"x\"; send \"t\"(b, m); send \"t\"(); send pair(b, m); send pk(pke_k); send vk(sig_k);
send penc(pk_x using P(self), \"any\"(mine)); send aead(aead_k using A(self), \"any\"(mine), b);
send sign(sig_k using S(self), \"any\"(b)); send mac(mac_k using M(self), \"any\"(b)); send hash(b);
new j : K(self) secret public; send kdf(j, \"m\", mine);",
            TYPED,
        ),
        (
            "a secret is not public",
            "send mine;",
            "refused line 30 c1 field 0\n",
        ),
        (
            "a tuple shows its parts",
            "send \"t\"(b, mine);",
            "refused line 30 c1 field 0\n",
        ),
        (
            "a pair shows its parts",
            "send pair(mine, b);",
            "refused line 30 c1 field 0\n",
        ),
        (
            "`aead` shows the associated data",
            "send aead(aead_k using A(self), \"any\"(b), mine);",
            "refused line 30 c1 field 0\n",
        ),
        (
            "a signature shows its tuple",
            "send sign(sig_k using S(self), \"any\"(mine));",
            "refused line 30 c1 field 0\n",
        ),
        (
            "a code shows its tuple",
            "send mac(mac_k using M(self), \"any\"(mine));",
            "refused line 30 c1 field 0\n",
        ),
        (
            "a hash shows its value",
            "send hash(mine);",
            "refused line 30 c1 field 0\n",
        ),
        (
            "a derived key has the label of its key alone",
            "send kdf(kdf_k, \"m\", b);",
            "refused line 30 c1 field 0\n",
        ),
        (
            "what has a secret part is secret",
            "store Secrets(mine, \"t\"(m, mine), pair(mine, m), aead(aead_k using A(self), \"any\"(b), mine),
sign(sig_k using S(self), \"any\"(mine)), mac(mac_k using M(self), \"any\"(mine)), hash(mine), kdf(kdf_k, \"m\", b));",
            TYPED,
        ),
        (
            "a text is no secret",
            "store Secret(\"x\", b);",
            "refused line 30 c8 field 1\n",
        ),
        (
            "the secret must be one for `self` alone",
            "store Secret(\"t\"(m, ours), b);",
            "refused line 30 c8 field 1\n",
        ),
        (
            "in a pair too",
            "store Secret(pair(ours, m), b);",
            "refused line 30 c8 field 1\n",
        ),
        (
            "a public key is no secret",
            "store Secret(pk(pke_k), b);",
            "refused line 30 c8 field 1\n",
        ),
        (
            "a ciphertext is no secret",
            "store Secret(penc(pk_x using P(self), \"any\"(mine)), b);",
            "refused line 30 c8 field 1\n",
        ),
        (
            "the tuple makes `aead` no secret",
            "store Secret(aead(aead_k using A(self), \"any\"(mine), b), b);",
            "refused line 30 c8 field 1\n",
        ),
        (
            "a signature is as secret as its tuple",
            "store Secret(sign(sig_k using S(self), \"any\"(ours)), b);",
            "refused line 30 c8 field 1\n",
        ),
        (
            "a code is as secret as its tuple",
            "store Secret(mac(mac_k using M(self), \"any\"(ours)), b);",
            "refused line 30 c8 field 1\n",
        ),
        (
            "a hash is as secret as its value",
            "store Secret(hash(ours), b);",
            "refused line 30 c8 field 1\n",
        ),
        (
            "the input makes a derived key no more secret",
            "store Secret(kdf(kdf_ours, \"m\", mine), b);",
            "refused line 30 c8 field 1\n",
        ),
        (
            "a public key is one of its key's usage",
            "let q = pk(pke_k);\nsend penc(q using P(self), \"any\"(mine));",
            TYPED,
        ),
        (
            "the key must be one for decryption",
            "let q = pk(sig_k);\nsend penc(q using P(self), \"any\"(mine));",
            "refused line 31 c2 field 0\n",
        ),
        (
            "its label is the lo of the key",
            "let q = pk(pke_ours);\nsend penc(q using P(self), \"any\"(mine));",
            "refused line 31 c3 field 0\n",
        ),
        (
            "the lo, not the hi",
            "same pke_k m; let q = pk(pke_k);\nsend penc(q using P(self), \"any\"(mine));",
            TYPED,
        ),
        (
            "a verification key vouches by the lo of its key",
            "let v = vk(sig_k); verify m with v using S(self) as \"said\"(x, z);\nevent F(self, x);",
            TYPED,
        ),
        (
            "here b has the key too",
            "let v = vk(sig_ours); verify m with v using S(self) as \"said\"(x, z);
event F(self, x);",
            "refused line 31 c6 field 1\n",
        ),
        (
            "the key must be one for signing",
            "let v = vk(pke_k);\nverify m with v using S(self) as \"said\"(x, z);",
            "refused line 31 c2 field 0\n",
        ),
        (
            "a derived key has the usage of its row",
            "let j = kdf(kdf_k, \"m\", b);\nsend mac(j using M(self), \"any\"(b));",
            TYPED,
        ),
        (
            "it is for the name of the key's",
            "new j : K(b) secret self; let i = kdf(j, \"m\", b);\nsend mac(i using M(b), \"any\"(b));",
            TYPED,
        ),
        (
            "another context has no row",
            "let j = kdf(kdf_k, \"x\", b);\nsend mac(j using M(self), \"any\"(b));",
            "refused line 31 c2 field 0\n",
        ),
        (
            "another key has no table",
            "let j = kdf(mac_k, \"m\", b);\nsend mac(j using M(self), \"any\"(b));",
            "refused line 31 c2 field 0\n",
        ),
        (
            "it is for no other name",
            "let j = kdf(kdf_k, \"m\", b);\nsend mac(j using M(b), \"any\"(b));",
            "refused line 31 c2 field 0\n",
        ),
        (
            "`aead` of a key has no usage",
            "let j = aead(aead_k using A(self), \"any\"(b), mac_k);
send mac(j using M(self), \"any\"(b));",
            "refused line 31 c2 field 0\n",
        ),
        (
            "a hash of a key has no usage",
            "let j = hash(mac_k);\nsend mac(j using M(self), \"any\"(b));",
            "refused line 31 c2 field 0\n",
        ),
    ];
    for (what, body, answer) in cases {
        let got = check_body(rt.alloc(), body)?;
        assert_eq!(rt; got.written.as_slice(), answer.as_bytes(), "{what}");
    }
    Ok(())
}

#[test]
fn a_field_is_what_its_type_says(rt: HostRuntime) -> Result<(), Fail> {
    let cases: [(&str, &str, &str); 25] = [
        // what is known of a field of a state
        (
            "each type gives its labels and claims",
            "send y; send public_x; send aead(key_x using A(self), \"any\"(mine), b);
send penc(pk_x using P(self), \"any\"(mine)); verify m with vk_x using S(self) as \"said\"(x, z);
event F(self, x); store Secrets(mine, secret_x, key_x, mine, mine, mine, mine, mine);",
            TYPED,
        ),
        (
            "nobody is known to read `any`",
            "send any_x;",
            "refused line 30 c1 field 0\n",
        ),
        (
            "so it is not stored again",
            "store Secret(mine, any_x);",
            "refused line 30 c7 field 2\n",
        ),
        (
            "all may read `upto public`, not `upto self`",
            "send upto_x;",
            "refused line 30 c1 field 0\n",
        ),
        (
            "`upto` gives no secret",
            "store Secret(upto_x, b);",
            "refused line 30 c8 field 1\n",
        ),
        (
            "`secret` gives no usage",
            "send aead(secret_x using A(self), \"any\"(mine), b);",
            "refused line 30 c2 field 0\n",
        ),
        (
            "`pk` gives one usage",
            "send penc(pk_x using P(b), \"any\"(mine));",
            "refused line 30 c2 field 0\n",
        ),
        (
            "nobody is known to read `pk`",
            "send pk_x;",
            "refused line 30 c1 field 0\n",
        ),
        (
            "nobody is known to read `vk`",
            "send vk_x;",
            "refused line 30 c1 field 0\n",
        ),
        (
            "the lo of `secret self` is `self`",
            "popen m with pke_k using P(self) as \"said\"(x, =secret_x);\nevent F(self, x);",
            TYPED,
        ),
        (
            "that of `any` is public",
            "popen m with pke_k using P(self) as \"said\"(x, =any_x);\nevent F(self, x);",
            "refused line 31 c6 field 1\n",
        ),
        (
            "that of `upto` is public",
            "popen m with pke_k using P(self) as \"said\"(x, =upto_x);\nevent F(self, x);",
            "refused line 31 c6 field 1\n",
        ),
        // what fits
        (
            "each of these fits",
            "store Typed(b, ours, ours, mine, aead_k, pk(pke_k), vk(sig_k));",
            TYPED,
        ),
        (
            "`upto` asks for readers",
            "new x : N() secret session;
store Typed(b, ours, x, mine, aead_k, pk(pke_k), vk(sig_k));",
            "refused line 31 c8 field 3\n",
        ),
        (
            "`secret` asks for readers",
            "new x : N() secret session;
store Typed(b, ours, ours, x, aead_k, pk(pke_k), vk(sig_k));",
            "refused line 31 c8 field 4\n",
        ),
        (
            "`secret` asks that there are no others",
            "store Typed(b, ours, ours, ours, aead_k, pk(pke_k), vk(sig_k));",
            "refused line 30 c8 field 4\n",
        ),
        (
            "`key` asks for the usage",
            "store Typed(b, ours, ours, mine, mine, pk(pke_k), vk(sig_k));",
            "refused line 30 c8 field 5\n",
        ),
        (
            "`key` asks that there are no other readers",
            "store Typed(b, ours, ours, mine, aead_ours, pk(pke_k), vk(sig_k));",
            "refused line 30 c8 field 5\n",
        ),
        (
            "`pk` asks for the claim",
            "store Typed(b, ours, ours, mine, aead_k, pk(sig_k), vk(sig_k));",
            "refused line 30 c8 field 6\n",
        ),
        (
            "`pk` asks for its label",
            "store Typed(b, ours, ours, mine, aead_k, pk(pke_ours), vk(sig_k));",
            "refused line 30 c8 field 6\n",
        ),
        (
            "`vk` asks for the claim",
            "store Typed(b, ours, ours, mine, aead_k, pk(pke_k), vk(pke_k));",
            "refused line 30 c8 field 7\n",
        ),
        (
            "`vk` asks for its label",
            "store Typed(b, ours, ours, mine, aead_k, pk(pke_k), vk(sig_ours));",
            "refused line 30 c8 field 7\n",
        ),
        // what words of a declaration stand for
        (
            "a parameter stands for the argument, a field for what is there",
            "new j : A(b) secret self; send aead(j using A(b), \"upto\"(ours), b);
send aead(aead_k using A(self), \"for\"(b, ours), b);",
            TYPED,
        ),
        (
            "b may not read what is for `self`",
            "new j : A(b) secret self;\nsend aead(j using A(b), \"upto\"(mine), b);",
            "refused line 31 c4 field 1\n",
        ),
        (
            "c may not read what is for `self` and b",
            "send aead(aead_k using A(self), \"for\"(c, ours), b);",
            "refused line 30 c4 field 2\n",
        ),
    ];
    for (what, body, answer) in cases {
        let got = check_body(rt.alloc(), body)?;
        assert_eq!(rt; got.written.as_slice(), answer.as_bytes(), "{what}");
    }
    Ok(())
}
