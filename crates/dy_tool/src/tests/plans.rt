//! Plans that are run.

use super::*;

/// One message.
const PING: &str = "dystar 1
handler Ping args() {
  send \"ping\";
}
plan {
  round { a: alice Ping(); }
}
";

/// A secret is sent.
const SECRET_SENT: &str = "dystar 1
usage nonce N();
handler Send args() {
  new n : N() secret nobody;
  send n;
}
plan {
  round { s: alice Send(); }
}
";

const PINGED: &str = "0 setup 86
1 start 0 Ping alice 1 () -
2 message 1 \"ping\"
3 end 1 done
total 4 start 1 fresh 0 message 1 state 0 event 0 cert 0 done 1 stopped 0 corrupt 0 forge 0 inject 0 skip 0
";

#[test]
fn a_run_prints_its_trace(rt: HostRuntime) -> Result<(), Fail> {
    let got = carry_out(rt.alloc(), &["run"], PING.as_bytes(), KIND)?;
    assert_eq!(rt; got.status, Status::Done);
    assert_eq!(rt; got.written.as_slice(), PINGED.as_bytes());
    Ok(())
}

#[test]
fn a_refused_file_is_not_run(rt: HostRuntime) -> Result<(), Fail> {
    let refused = carry_out(rt.alloc(), &["run"], SECRET_SENT.as_bytes(), KIND)?;
    assert_eq!(rt; refused.status, Status::NotAccepted);
    assert_eq!(rt;
        refused.written.as_slice(),
        b"refused line 5 c1 field 0\n".as_slice()
    );
    Ok(())
}

#[test]
fn a_write_that_fails_leaves_a_prefix_of_the_trace(rt: HostRuntime) -> Result<(), Fail> {
    let outside = Outside {
        piece: 7,
        failing_read: 0,
        failing_write: 3,
    };
    let got = carry_out(rt.alloc(), &["run"], PING.as_bytes(), outside)?;
    assert_eq!(rt; got.status, Status::WriteFault);
    assert_eq!(rt; got.written.as_slice(), b"0 setup 86\n1 s".as_slice());
    Ok(())
}

#[test]
fn quiet_plays_a_plan_and_does_not_run_it(rt: HostRuntime) -> Result<(), Fail> {
    let alloc = rt.alloc();
    let played = format!(in alloc; "{PINGED}breaches 0\n")?;
    for (word, status, text) in [
        ("run", Status::Words, "bad words\n"),
        ("check", Status::Done, "accepted 1 handlers\n"),
        ("play", Status::Done, played.as_str()),
    ] {
        let words = vec![in alloc; String::from_str(alloc, word)?]?;
        let mut source = MemSource::new(PING.as_bytes().to_vec(alloc)?, 1000, Vec::new(alloc));
        let mut sink = MemSink::new(Vec::new(alloc), 1000, Vec::new(alloc));
        assert_eq!(rt; quiet(alloc, &words, &mut source, &mut sink), status);
        assert_eq!(rt; sink.held.as_slice(), text.as_bytes());
    }
    Ok(())
}
