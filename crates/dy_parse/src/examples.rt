//! Protocol files that are read whole.

/// A public-key protocol of three messages, and a run of it.
pub(crate) const REPAIRED_PROTOCOL: &[u8] = br#"dystar 1
usage pke Dec(owner);
usage nonce Rand();
event Respond(name b, name a, nb);
event Finish(name a, name b, nb) after Respond(b, a, nb) unless join(a, b);
event Accept(name b, name a, nb) after Finish(a, b, nb) unless join(a, b);
case Dec "m1"(na: secret join(a, owner), a: name);
case Dec "m2"(na: upto join(owner, b), nb: secret join(owner, b), b: name) requires Respond(b, owner, nb);
case Dec "m3"(nb: upto join(a, owner), a: name) requires Finish(a, owner, nb);
state Key lasting (sk: key self Dec(self));
state Init (na: secret join(self, b), b: name);
state Resp (nb: secret join(self, a), a: name);
handler Keygen args() {
  new sk : Dec(self) secret self;
  certify sk as Dec;
  store Key(sk);
}
handler Init1 args(b) {
  find Dec of b as pkb;
  new na : Rand() secret join(self, b);
  send penc(pkb using Dec(b), "m1"(na, self));
  store Init(na, b);
}
handler Resp1 args() recv m {
  use Key(sk);
  popen m with sk using Dec(self) as "m1"(na, name a);
  find Dec of a as pka;
  new nb : Rand() secret join(self, a);
  event Respond(self, a, nb);
  send penc(pka using Dec(a), "m2"(na, nb, self));
  store Resp(nb, a);
}
handler Init2 on Init(na, name b) args() recv m {
  use Key(sk);
  popen m with sk using Dec(self) as "m2"(=na, nb, =b);
  event Finish(self, b, nb);
  find Dec of b as pkb;
  send penc(pkb using Dec(b), "m3"(nb, self));
}
handler Resp2 on Resp(nb, name a) args() recv m {
  use Key(sk);
  popen m with sk using Dec(self) as "m3"(=nb, =a);
  event Accept(self, a, nb);
}
plan {
  round { k1: alice Keygen(); k2: bob Keygen(); }
  round { i: alice Init1(bob); }
  round { r: bob Resp1() msg i.1; }
  round { f: alice Init2() on i msg r.1; }
  round { a: bob Resp2() on r msg f.1; }
}
"#;

/// The same with its middle message weakened, and an attack on it.
pub(crate) const PUBLIC_KEY_PROTOCOL: &[u8] = br#"dystar 1
usage pke Dec(owner);
usage nonce Rand();
event Respond(name b, name a, nb);
event Finish(name a, name b, nb) after Respond(b, a, nb) unless join(a, b);
event Accept(name b, name a, nb) after Finish(a, b, nb) unless join(a, b);
case Dec "m1"(na: secret join(a, owner), a: name);
case Dec "m2"(na: upto owner, nb: secret owner);
case Dec "m3"(nb: upto join(a, owner), a: name) requires Finish(a, owner, nb);
state Key lasting (sk: key self Dec(self));
state Init (na: secret join(self, b), b: name);
state Resp (nb: secret join(self, a), a: name);
handler Keygen args() {
  new sk : Dec(self) secret self;
  certify sk as Dec;
  store Key(sk);
}
handler Init1 args(b) {
  find Dec of b as pkb;
  new na : Rand() secret join(self, b);
  send penc(pkb using Dec(b), "m1"(na, self));
  store Init(na, b);
}
handler Resp1 args() recv m {
  use Key(sk);
  popen m with sk using Dec(self) as "m1"(na, name a);
  find Dec of a as pka;
  new nb : Rand() secret join(self, a);
  event Respond(self, a, nb);
  send penc(pka using Dec(a), "m2"(na, nb));
  store Resp(nb, a);
}
handler Init2 on Init(na, name b) args() recv m {
  use Key(sk);
  popen m with sk using Dec(self) as "m2"(=na, nb);
  event Finish(self, b, nb);
  find Dec of b as pkb;
  send penc(pkb using Dec(b), "m3"(nb, self));
}
handler Resp2 on Resp(nb, name a) args() recv m {
  use Key(sk);
  popen m with sk using Dec(self) as "m3"(=nb, =a);
  event Accept(self, a, nb);
}
plan {
  round { k1: alice Keygen(); k2: bob Keygen(); k3: carol Keygen(); }
  round { x: corrupt carol k3 1; }
  round { i: alice Init1(carol); }
  round { j1: inject penc(cert k2.1, pdec(msg i.1, field k3.1.1)); }
  round { r: bob Resp1() msg j1.1; }
  round { i2: alice Init2() on i msg r.1; }
  round { j2: inject penc(cert k2.1, pdec(msg i2.1, field k3.1.1)); }
  round { r2: bob Resp2() on r msg j2.1; }
}
"#;

/// One message.
pub(crate) const ONE_MESSAGE: &[u8] = br#"dystar 1
handler Ping args() {
  send "ping";
}
plan {
  round { a: alice Ping(); }
}
"#;

/// A signature, and an event that follows another one.
pub(crate) const SIGNED_QUESTION: &[u8] = br#"dystar 1
usage sig Sk(owner);
event Ask(name b, x);
event Done(name a, name b, x) after Ask(b, x) unless a;
case Sk "ask"(x: any) requires Ask(owner, x);
handler Take args(b) recv m {
  find Sk of b as v;
  verify m with v using Sk(b) as "ask"(x);
  event Done(self, b, x);
}
"#;
