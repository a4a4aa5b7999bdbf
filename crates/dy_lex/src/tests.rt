use super::*;
use std::alloc::Global;
use std::test::*;

/// The public-key protocol with Lowe's repair.
const PROTOCOL: &[u8] = br#"dystar 1
usage pke Dec(owner);
usage nonce Rand();
event Respond(name b, name a, nb);
event Finish(name a, name b, nb) after Respond(b, a, nb) unless join(a, b);
event Accept(name b, name a, nb) after Finish(a, b, nb) unless join(a, b);
case Dec "m1"(na: secret join(a, owner), a: name);
case Dec "m2"(na: upto join(owner, b), nb: secret join(owner, b), b: name) requires Respond(b, owner, nb);
case Dec "m3"(nb: upto join(a, owner), a: name) requires Finish(a, owner, nb);
state Key lasting (sk: key self Dec(self));
state Init (na: secret join(self, b), b: name);
state Resp (nb: secret join(self, a), a: name);
handler Keygen args() {
  new sk : Dec(self) secret self;
  certify sk as Dec;
  store Key(sk);
}
handler Init1 args(b) {
  find Dec of b as pkb;
  new na : Rand() secret join(self, b);
  send penc(pkb using Dec(b), "m1"(na, self));
  store Init(na, b);
}
handler Resp1 args() recv m {
  use Key(sk);
  popen m with sk using Dec(self) as "m1"(na, name a);
  find Dec of a as pka;
  new nb : Rand() secret join(self, a);
  event Respond(self, a, nb);
  send penc(pka using Dec(a), "m2"(na, nb, self));
  store Resp(nb, a);
}
handler Init2 on Init(na, name b) args() recv m {
  use Key(sk);
  popen m with sk using Dec(self) as "m2"(=na, nb, =b);
  event Finish(self, b, nb);
  find Dec of b as pkb;
  send penc(pkb using Dec(b), "m3"(nb, self));
}
handler Resp2 on Resp(nb, name a) args() recv m {
  use Key(sk);
  popen m with sk using Dec(self) as "m3"(=nb, =a);
  event Accept(self, a, nb);
}
plan {
  round { k1: alice Keygen(); k2: bob Keygen(); }
  round { i: alice Init1(bob); }
  round { r: bob Resp1() msg i.1; }
  round { f: alice Init2() on i msg r.1; }
  round { a: bob Resp2() on r msg f.1; }
}
"#;

/// `lex`, at the short sources of these tests.
fn lex_short<'a>(alloc: Global, source: &'a [u8]) -> Result<Vec<Token<'a>>, LexError> {
    if source.len() > 2000 {
        return Err(LexError::Memory);
    }
    lex(alloc, source)
}

#[test]
fn a_source_is_cut_into_its_tokens(rt: HostRuntime) -> Result<(), Fail> {
    let wanted: [(TokenKind, &[u8], usize, u32); 8] = [
        (TokenKind::Word, b"dystar", 0, 1),
        (TokenKind::Number, b"1", 7, 1),
        (TokenKind::Word, b"handler", 9, 2),
        (TokenKind::Word, b"H", 17, 2),
        (TokenKind::Word, b"args", 19, 2),
        (TokenKind::Symbol, b"(", 23, 2),
        (TokenKind::Symbol, b")", 24, 2),
        (TokenKind::Symbol, b"{", 26, 2),
    ];
    let tokens = lex_short(rt.alloc(), b"dystar 1\nhandler H args() {")?;
    assert_eq!(rt; tokens.len(), wanted.len());
    for (token, (kind, text, at, line)) in tokens.iter().zip(wanted) {
        assert_eq!(rt; token.kind, kind, "the token at {at}");
        assert_eq!(rt; token.text, text);
        assert_eq!(rt; token.at, at);
        assert_eq!(rt; token.line, line, "the token at {at}");
    }
    Ok(())
}

#[test]
fn each_kind_is_one_token(rt: HostRuntime) -> Result<(), Fail> {
    let sources: [(&[u8], TokenKind); 8] = [
        (b"a_1", TokenKind::Word),
        (b"handler2", TokenKind::Word),
        (b"0", TokenKind::Number),
        (b"999999", TokenKind::Number),
        (b"\"\"", TokenKind::Text),
        (b"\"a b -> 007!\"", TokenKind::Text),
        (b"->", TokenKind::Symbol),
        (b".", TokenKind::Symbol),
    ];
    for (source, kind) in sources {
        let tokens = lex_short(rt.alloc(), source)?;
        assert_eq!(rt; tokens.len(), 1);
        for token in &tokens {
            assert_eq!(rt; token.kind, kind);
            assert_eq!(rt; token.text, source);
            assert_eq!(rt; token.at, 0);
            assert_eq!(rt; token.line, 1);
        }
    }
    Ok(())
}

#[test]
fn a_byte_that_begins_no_token_is_refused(rt: HostRuntime) {
    let sources: [(&[u8], u32); 9] = [
        (b"-", 1),
        (b"a\n\n - >", 3),
        (b"a;\n\"b\n\"", 2),
        (b"\"a\\b\"", 1),
        (b"007", 1),
        (b"1\n1a", 2),
        (b"1234567", 1),
        (b"\n\n\x80", 3),
        (b"_a", 1),
    ];
    for (source, line) in sources {
        assert_eq!(rt;
            lex_short(rt.alloc(), source).err(),
            Some(LexError::Bad { line })
        );
    }
}

#[test]
fn blanks_have_no_tokens(rt: HostRuntime) -> Result<(), Fail> {
    let sources: [&[u8]; 2] = [b"", b" \t\r\n\n"];
    for source in sources {
        assert!(rt; lex_short(rt.alloc(), source)?.is_empty());
    }
    Ok(())
}

#[test]
fn a_fault_is_printed_with_its_line(rt: HostRuntime) -> Result<(), Fail> {
    let fault = LexError::Bad { line: 7 };
    assert_eq!(rt;
        format!(in rt.alloc(); "{fault}")?.as_str(),
        "line 7: no token begins here"
    );
    Ok(())
}

/// How many of the tokens are of this kind.
fn count(tokens: &[Token<'_>], kind: TokenKind) -> usize {
    tokens.iter().filter(|token| token.kind == kind).count()
}

#[test]
fn the_tokens_of_a_protocol_are_counted(rt: HostRuntime) -> Result<(), Fail> {
    let tokens = lex_short(rt.alloc(), PROTOCOL)?;
    assert_eq!(rt; count(&tokens, TokenKind::Word), 316);
    assert_eq!(rt; count(&tokens, TokenKind::Symbol), 272);
    assert_eq!(rt; count(&tokens, TokenKind::Text), 9);
    assert_eq!(rt; count(&tokens, TokenKind::Number), 4);
    let odd: [(&[u8], usize, u32); 13] = [
        (b"1", 7, 1),
        (b"\"m1\"", 246, 7),
        (b"\"m2\"", 297, 8),
        (b"\"m3\"", 404, 9),
        (b"\"m1\"", 830, 21),
        (b"\"m1\"", 952, 26),
        (b"\"m2\"", 1094, 30),
        (b"\"m2\"", 1240, 35),
        (b"\"m3\"", 1342, 38),
        (b"\"m3\"", 1463, 42),
        (b"1", 1630, 48),
        (b"1", 1673, 49),
        (b"1", 1714, 50),
    ];
    let found = tokens.iter().filter(|token| matches!(
        token.kind,
        TokenKind::Text | TokenKind::Number
    ));
    for (token, (text, at, line)) in found.zip(odd) {
        assert_eq!(rt; token.text, text);
        assert_eq!(rt; token.at, at);
        assert_eq!(rt; token.line, line, "the token at {at}");
    }
    Ok(())
}
