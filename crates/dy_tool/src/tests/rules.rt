//! Each sentence of each rule is broken once. The token that breaks it stands first on line 8.

use super::*;

/// Declarations on lines 2 to 6 that the rows below name.
const DECLARED: &str = "dystar 1
usage nonce N(); usage mac M(); usage pke P(o); usage sig S(o); usage aead A(o); usage kdf K(o) { \"p\" -> pke P; };
case P \"p\"(x: any, n: name); case S \"s\"(x: any); case A \"a\"(x: any); case M \"m\"(x: any);
event E(name a, b); event F(name a, name b);
state T (x: any, n: name); state L lasting (x: any, n: name);
handler Begin args(b) { send b; store T(b, b); } handler Next on T(x, name b) args() recv m { send m; }
";

/// What the program prints of a file with these declarations and a last part.
fn show(alloc: Global, part: &str) -> Result<Outcome, AllocError> {
    let input = format!(in alloc; "{DECLARED}{part}")?;
    carry_out(alloc, &["show"], input.as_bytes(), KIND)
}

/// Each of these parts breaks the rule of this name on line 8.
fn assert_breaks(
    rt: &(impl AllocGlobal + Abort),
    rule: &str,
    parts: &[&str],
) -> Result<(), AllocError> {
    let text = format!(in rt.alloc(); "line 8: rule {rule}\n")?;
    for part in parts {
        let got = show(rt.alloc(), part)?;
        assert_eq!(rt; got.status, Status::Input, "{part}");
        assert_eq!(rt; got.written.as_slice(), text.as_bytes(), "{part}");
    }
    Ok(())
}

#[test]
fn nothing_is_declared_twice(rt: HostRuntime) -> Result<(), Fail> {
    let parts = [
        "usage mac\nM();",
        "event\nE(name a);",
        "state\nT ();",
        "handler\nBegin args() { }",
        "case P\n\"p\"();",
        "usage kdf J() { \"m\" -> mac M;\n\"m\" -> mac M; };",
    ];
    assert_breaks(&rt, "w1", &parts)?;
    Ok(())
}

#[test]
fn what_is_named_is_declared_or_bound(rt: HostRuntime) -> Result<(), Fail> {
    let parts = [
        "case\nQ \"q\"();",
        "usage kdf J() { \"m\" -> mac\nQ; };",
        "case M \"q\"(x: any) requires\nG(x);",
        "handler H on\nU() args() { }",
        "handler H args() { store\nU(); }",
        "handler H args() recv m { send mac(m using M(),\n\"q\"()); }",
        "plan { round { s: alice\nH(); } }",
        "handler H args() { send\nk; }",
        "handler H args() { send\nk; new k : N() secret public; }",
        "handler H args() { use L(=\nx, name n); }",
        "case P \"q\"(x: any) requires E(o,\ny);",
        "case P \"q\"(x: any) requires E(o,\nself);",
        "event G(name a) after E(a,\nb) unless a;",
        "event G(name a) after E(a,\nself) unless a;",
        "state U (x: any) knows E(self,\ny) unless self;",
    ];
    assert_breaks(&rt, "w2", &parts)?;
    Ok(())
}

#[test]
fn lists_have_the_length_of_their_declaration(rt: HostRuntime) -> Result<(), Fail> {
    let parts = [
        "handler H args() { new k :\nP() secret self; }",
        "handler H args() { event\nE(self); }",
        "case P \"q\"() requires\nE(o);",
        "event G(name a) after\nE(a) unless a;",
        "state U () knows\nE(self) unless self;",
        "handler H args() { store\nT(self); }",
        "handler H on\nT(x) args() { }",
        "handler H args() { use\nL(x); }",
        "handler H args() recv m { send penc(m using P(self),\n\"p\"(m)); }",
        "handler H args() recv m { send aead(m using A(self),\n\"a\"(m, m), m); }",
        "handler H args() recv m { send sign(m using S(self),\n\"s\"()); }",
        "handler H args() recv m { send mac(m using M(),\n\"m\"()); }",
        "handler H args() recv m { open m with m using A(self) as\n\"a\"() ad m; }",
        "handler H args() recv m { popen m with m using P(self) as\n\"p\"(x); }",
        "handler H args() recv m { verify m with m using S(self) as\n\"s\"(x, y); }",
        "handler H args() recv m { check m = mac(m using M(),\n\"m\"(m, m)); }",
        "plan { round { s: alice\nBegin(); } }",
    ];
    assert_breaks(&rt, "w3", &parts)?;
    Ok(())
}

#[test]
fn usages_have_the_kind_that_is_asked_for(rt: HostRuntime) -> Result<(), Fail> {
    let parts = [
        "usage\nmac J() { \"m\" -> mac M; };",
        "usage kdf J() { \"m\" ->\nsig M; };",
        "usage kdf J() { \"p\" -> pke\nP; };",
        "case\nN \"n\"();",
        "case\nK \"k\"();",
        "handler H args() recv m { send penc(m using\nS(self), \"s\"(m)); }",
        "handler H args() recv m { popen m with m using\nS(self) as \"s\"(x); }",
        "state U (x: pk self\nS(self));",
        "handler H args() recv m { send sign(m using\nM(), \"m\"(m)); }",
        "handler H args() recv m { verify m with m using\nM() as \"m\"(x); }",
        "state U (x: vk self\nP(self));",
        "handler H args() recv m { send aead(m using\nM(), \"m\"(m), m); }",
        "handler H args() recv m { open m with m using\nM() as \"m\"(x) ad m; }",
        "handler H args() recv m { send mac(m using\nA(self), \"a\"(m)); }",
        "handler H args() recv m { check m = mac(m using\nA(self), \"a\"(m)); }",
        "handler H args() recv m { certify m as\nA; }",
        "handler H args() { find\nK of self as k; }",
        "usage sig Z(a, b); handler H args() recv m { certify m as\nZ; }",
        "usage pke Z(); handler H args() { find\nZ of self as k; }",
    ];
    assert_breaks(&rt, "w4", &parts)?;
    Ok(())
}

#[test]
fn nothing_is_bound_twice(rt: HostRuntime) -> Result<(), Fail> {
    let parts = [
        "handler H args(a,\na) { }",
        "handler H args(a) recv\na { }",
        "handler H on T(\na, name n) args(a) { }",
        "handler H args(a) { let\na = hash(a); }",
        "handler H args(a) { new\na : N() secret public; }",
        "handler H args(a) { find P of a as\na; }",
        "handler H args(a) { use L(x, name\na); }",
        "handler H args() { use L(x, name n); use L(\nx, =n); }",
        "usage mac Z(a,\na);",
        "event G(name a,\na);",
        "state U (x: any,\nx: name);",
        "case M \"q\"(x: any,\nx: any);",
        "case P \"q\"(\no: any);",
    ];
    assert_breaks(&rt, "w5", &parts)?;
    Ok(())
}

#[test]
fn places_for_names_take_names(rt: HostRuntime) -> Result<(), Fail> {
    let parts = [
        "handler H args() recv m { new k : P(\nm) secret self; }",
        "handler H args() recv m { new k : N() secret\nm; }",
        "handler H args() recv m { find P of\nm as k; }",
        "handler H args() recv m { event F(self,\nm); }",
        "handler H args() { store T(self,\n\"x\"); }",
        "handler H args() recv m { send penc(m using P(self), \"p\"(m,\nm)); }",
        "handler H args() recv m { use L(x, =\nm); }",
        "handler H args() { use L(x,\ny); }",
        "handler H args() { use L(\nname x, name n); }",
        "handler H on T(\nname x, name n) args() { }",
        "handler H args() recv m { open m with m using A(self) as \"a\"(\nname x) ad m; }",
        "handler H args() recv m { popen m with m using P(self) as \"p\"(x,\ny); }",
        "handler H args() recv m { verify m with m using S(self) as \"s\"(\nname x); }",
        "case P \"q\"(x: upto\nx);",
        "case P \"q\"(x: any) requires F(o,\nx);",
        "case P \"q\"(x: upto\nself);",
        "event G(name a) after F(a, a) unless\nself;",
        "state U (x: secret\nx);",
        "event G(name a, b) after F(a,\nb) unless a;",
        "event G(name a, b) after F(a, a) unless\nb;",
    ];
    assert_breaks(&rt, "w6", &parts)?;
    Ok(())
}

#[test]
fn words_of_labels_have_their_places(rt: HostRuntime) -> Result<(), Fail> {
    let parts = [
        "case P \"q\"(x: upto\nsession);",
        "case P \"q\"(x: upto\nnext);",
        "case P \"q\"(x: upto\nprior);",
        "case P \"q\"(x: upto\nhere);",
        "state U (x: secret\nnext);",
        "state U (x: secret\nprior);",
        "state U lasting (x: secret\nsession);",
        "state U lasting (x: secret\nhere);",
        "handler H args() { new k : N() secret\nhere; }",
    ];
    assert_breaks(&rt, "w7", &parts)?;
    Ok(())
}

#[test]
fn what_is_signed_may_be_read(rt: HostRuntime) -> Result<(), Fail> {
    let parts = [
        "case S \"q\"(x:\nupto public);",
        "case M \"q\"(x:\nsecret public);",
        "case S \"q\"(x:\nkey public M());",
    ];
    assert_breaks(&rt, "w8", &parts)?;
    Ok(())
}

#[test]
fn statements_have_their_places(rt: HostRuntime) -> Result<(), Fail> {
    let parts = [
        "handler H args(b) {\nstore T(b, b); send b; }",
        "handler H args() {\nuse T(x, name n); }",
        "handler H args() { new k : N() secret\nnext; }",
        "handler H args() { new k : N() secret\nprior; }",
        "event G(\na);",
        "event\nG();",
        "handler H args(b) { event F(\nb, self); }",
    ];
    assert_breaks(&rt, "w9", &parts)?;
    let parts = [
        "handler H args(b) { let x =\nb; }",
        "handler H args() { let x =\nself; }",
    ];
    assert_breaks(&rt, "w10", &parts)?;
    Ok(())
}

#[test]
fn steps_name_earlier_ones_of_their_sort(rt: HostRuntime) -> Result<(), Fail> {
    let parts = [
        "plan { round { s: forge;\ns: forge; } }",
        "plan { round { s: forge; t: inject nonce\ns; } }",
        "plan { round { t: inject nonce\ns; } round { s: forge; } }",
        "plan { round { s: forge; u: inject \"x\"; } round { t: alice Next() on\ns msg u.1; } }",
        "plan { round { s: forge; } round { t: corrupt alice\ns 1; } }",
        "plan { round { s: forge; } round { t: inject field\ns.1.1; } }",
        "plan { round { s: forge; } round { t: inject cert\ns.1; } }",
        "plan { round { s: forge; } round { t: inject msg\ns.1; } }",
    ];
    assert_breaks(&rt, "w11", &parts)?;
    let after_a_start = [
        "t: alice Begin(bob)\non s;",
        "t: alice Begin(bob)\nmsg s.1;",
        "t: alice\nNext() msg s.1;",
        "t: alice\nNext() on s;",
        "t: bob Next() on\ns msg s.1;",
        "t: corrupt bob\ns 1;",
        "t: inject nonce\ns;",
        "t: alice Next() on s msg s.1; } round { u: alice Next() on\nt msg s.1;",
        "t: alice Next() on s msg s.1; u: alice Next() on\ns msg s.1;",
        "t: alice Next() on s msg s.1; u: inject field\ns.1.1;",
    ];
    for steps in after_a_start {
        let plan = format!(in rt.alloc();
            "plan {{ round {{ s: alice Begin(bob); }} round {{ {steps} }} }}"
        )?;
        assert_breaks(&rt, "w11", &[plan.as_str()])?;
    }
    Ok(())
}

#[test]
fn what_comes_near_to_breaking_a_rule_is_well_formed(rt: HostRuntime) -> Result<(), Fail> {
    let parts = [
        "event M(name a); state E (); handler E args() { } case S \"p\"();",
        "usage kdf J(a) { \"p\" -> pke P; \"s\" -> sig S; };",
        "case M \"q\"(x: any, n: name, k: pk public P(n));",
        "state U (x: secret join(session, here), n: name) knows F(self, n) unless meet(self, n);",
        "handler H on T(x, name b) args() { new k : N() secret join(next, prior); store T(k, b); }",
        "handler H args() { use L(x, =self); let y = pair(x, self); send y; }",
        "plan { round { s: alice Begin(bob); f: forge; } round { t: alice Next() on s msg s.1; }
            round { c: corrupt alice s 1; i: inject pair(nonce f, field s.1.1); } }",
    ];
    for part in parts {
        assert_eq!(rt; show(rt.alloc(), part)?.status, Status::Done, "{part}");
    }
    Ok(())
}
