//! The protocol of Needham and Schroeder with public keys, as it was and as Lowe repaired it.

use super::*;

/// Lines 1 to 7.
const DECLARED: &str = "dystar 1
usage pke Dec(owner);
usage nonce Rand();
event Reply(name b, name a, nb);
event Confirm(name a, name b, nb) after Reply(b, a, nb) unless join(a, b);
event Accept(name b, name a, nb) after Confirm(a, b, nb) unless join(a, b);
case Dec \"ask\"(na: secret join(a, owner), a: name);
";

/// Lines 9 to 29.
const ASKED: &str = "
case Dec \"confirm\"(nb: upto join(a, owner), a: name) requires Confirm(a, owner, nb);
state Key lasting (sk: key self Dec(self));
state Asked (na: secret join(self, b), b: name);
state Replied (nb: secret join(self, a), a: name);
handler MakeKey args() {
  new sk : Dec(self) secret self;
  certify sk as Dec;
  store Key(sk);
}
handler Ask args(b) {
  find Dec of b as pb;
  new na : Rand() secret join(self, b);
  send penc(pb using Dec(b), \"ask\"(na, self));
  store Asked(na, b);
}
handler Reply args() recv m {
  use Key(sk);
  popen m with sk using Dec(self) as \"ask\"(na, name a);
  find Dec of a as pa;
  new nb : Rand() secret join(self, a);
  event Reply(self, a, nb);
";

/// Lines 31 to 34.
const REPLIED: &str = "
  store Replied(nb, a);
}
handler Confirm on Asked(na, name b) args() recv m {
  use Key(sk);
";

/// Lines 36 to 44.
const CONFIRMED: &str = "
  event Confirm(self, b, nb);
  find Dec of b as pb;
  send penc(pb using Dec(b), \"confirm\"(nb, self));
}
handler Accept on Replied(nb, name a) args() recv m {
  use Key(sk);
  popen m with sk using Dec(self) as \"confirm\"(=nb, =a);
  event Accept(self, a, nb);
}
";

/// Lines 8, 30 and 35: the case of message 2, and how it is sent and read.
#[derive(Clone, Copy)]
pub(super) struct Reply {
    case: &'static str,
    sent: &'static str,
    read: &'static str,
}

/// The responder's name stands in message 2.
pub(super) const NAMED: Reply = Reply {
    case: "case Dec \"reply\"(na: upto join(owner, b), nb: secret join(owner, b), b: name) requires Reply(b, owner, nb);",
    sent: "  send penc(pa using Dec(a), \"reply\"(na, nb, self));",
    read: "  popen m with sk using Dec(self) as \"reply\"(=na, nb, =b);",
};

/// It does not.
pub(super) const NAMELESS: Reply = Reply {
    case: "case Dec \"reply\"(na: upto owner, nb: secret owner);",
    sent: "  send penc(pa using Dec(a), \"reply\"(na, nb));",
    read: "  popen m with sk using Dec(self) as \"reply\"(=na, nb);",
};

/// The protocol with this message 2, and a plan.
pub(super) fn protocol(alloc: Global, reply: Reply, plan: &str) -> Result<String, AllocError> {
    let Reply { case, sent, read } = reply;
    format!(in alloc; "{DECLARED}{case}{ASKED}{sent}{REPLIED}{read}{CONFIRMED}{plan}")
}

#[test]
fn the_name_of_the_responder_is_needed(rt: HostRuntime) -> Result<(), Fail> {
    for (reply, text) in [
        (NAMED, "accepted 5 handlers\n"),
        (NAMELESS, "refused line 30 c4 field 2\n"),
    ] {
        let input = protocol(rt.alloc(), reply, "")?;
        let got = carry_out(rt.alloc(), &["check"], input.as_bytes(), KIND)?;
        assert_eq!(rt; got.written.as_slice(), text.as_bytes());
    }
    Ok(())
}
