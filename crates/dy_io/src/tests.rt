ghost use Rattle.std.specs.Prelude.{◌<◌};

use super::*;
use std::alloc::{AllocError, Global};
use std::io::{self, Cursor, ErrorKind, Read, Write};
use std::test::*;

/// 90 bytes: more than two pieces of 40.
const TEXT: [u8; 90] = [b'x'; 90];

fn source(
    alloc: Global,
    text: &[u8],
    piece: usize,
    failing: &[u64],
) -> Result<MemSource, AllocError>
    requires { 0 < piece }
{
    Ok(MemSource::new(text.to_vec(alloc)?, piece, failing.to_vec(alloc)?))
}

fn sink(alloc: Global, piece: usize, failing: &[u64]) -> Result<MemSink, AllocError>
    requires { 0 < piece }
{
    Ok(MemSink::new(Vec::new(alloc), piece, failing.to_vec(alloc)?))
}

#[test]
fn all_is_read_in_pieces_of_any_size(rt: HostRuntime) -> Result<(), Fail> {
    for (piece, calls) in [(1, 91), (7, 14), (40, 4), (90, 2), (5000, 2)] {
        if piece > 0 {
            let mut from = source(rt.alloc(), &TEXT, piece, &[])?;
            let bytes = read_all(rt.alloc(), &mut from, 90)?;
            assert_eq!(rt; bytes.as_slice(), TEXT.as_slice());
            assert_eq!(rt; from.calls, calls, "pieces of {piece}");
            assert!(rt; from.bytes.is_empty());
        }
    }
    Ok(())
}

#[test]
fn one_byte_past_the_limit_is_too_long(rt: HostRuntime) -> Result<(), Fail> {
    let mut from = source(rt.alloc(), &TEXT, 40, &[])?;
    assert_eq!(rt;
        read_all(rt.alloc(), &mut from, 80).err(),
        Some(ReadError::TooLong)
    );
    // 81 bytes came, and the last read asked for one alone
    assert_eq!(rt; from.bytes.len(), 9);
    assert_eq!(rt; from.calls, 3);
    assert_eq!(rt; from.faults, 0);
    Ok(())
}

#[test]
fn each_failing_read_is_a_fault(rt: HostRuntime) -> Result<(), Fail> {
    // of three reads of bytes, and the one after the last byte
    for (failing, left) in [(1, 90), (2, 50), (3, 10), (4, 0)] {
        let mut from = source(rt.alloc(), &TEXT, 40, &[failing])?;
        assert_eq!(rt;
            read_all(rt.alloc(), &mut from, 100).err(),
            Some(ReadError::Fault)
        );
        assert_eq!(rt; from.bytes.len(), left, "read {failing} fails");
        assert_eq!(rt; from.faults, 1);
    }
    Ok(())
}

#[test]
fn all_is_written_in_pieces_of_any_size(rt: HostRuntime) -> Result<(), Fail> {
    for (piece, calls) in [(1, 90), (7, 13), (40, 3), (90, 1), (5000, 1)] {
        if piece > 0 {
            let mut to = sink(rt.alloc(), piece, &[])?;
            write_all(&mut to, &TEXT)?;
            assert_eq!(rt; to.held.as_slice(), TEXT.as_slice());
            assert_eq!(rt; to.calls, calls, "pieces of {piece}");
        }
    }
    Ok(())
}

#[test]
fn each_failing_write_leaves_a_prefix(rt: HostRuntime) -> Result<(), Fail> {
    for (failing, held) in [(1, 0), (2, 40), (3, 80)] {
        let mut to = sink(rt.alloc(), 40, &[failing])?;
        assert_eq!(rt; write_all(&mut to, &TEXT), Err(WriteError::Fault));
        assert_eq!(rt; to.held.len(), held, "write {failing} fails");
        assert_eq!(rt; to.faults, 1);
    }
    Ok(())
}

#[test]
fn nothing_to_write_takes_no_call(rt: HostRuntime) -> Result<(), Fail> {
    let mut to = sink(rt.alloc(), 8, &[1])?;
    write_all(&mut to, b"")?;
    assert_eq!(rt; to.calls, 0);
    Ok(())
}

#[test]
fn plain_forms_never_fail(rt: HostRuntime) -> Result<(), Fail> {
    let mut from = PlainSource {
        bytes: TEXT.to_vec(rt.alloc())?,
    };
    assert_eq!(rt; read_all(rt.alloc(), &mut from, 90)?.len(), 90);
    assert_eq!(rt; write_all(&mut PlainSink, &TEXT), Ok(()));
    Ok(())
}

/// A reader that gives at most three bytes a call, and fails once they are gone. A writer that takes at
/// most three, and fails once it holds nine.
#[derive(Drop)]
struct Narrow {
    bytes: Vec<u8>,
}

impl Read for Narrow {
    fn read(&mut self, buf: &mut [u8]) -> io::Result<usize> {
        let n = buf.len().min(self.bytes.len()).min(3);
        if n == 0 {
            return Err(ErrorKind::Other.into());
        }
        buf[..n].copy_from_slice(&self.bytes[..n]);
        self.bytes.drain(..n);
        Ok(n)
    }
}

impl Write for Narrow {
    fn write(&mut self, buf: &[u8]) -> io::Result<usize> {
        let n = buf.len().min(3);
        if self.bytes.len() >= 9 {
            return Err(ErrorKind::Other.into());
        }
        self.bytes.extend_from_slice(&buf[..n])?;
        Ok(n)
    }

    fn flush(&mut self) -> io::Result<()> {
        Ok(())
    }
}

#[test]
fn a_long_input_of_a_reader_is_read_whole(rt: HostRuntime) -> Result<(), Fail> {
    let mut text = vec![in rt.alloc(); b'a'; 9000]?;
    text.push(b'z')?;
    let mut source = ReaderSource::new(text.as_slice());
    let bytes = read_all(rt.alloc(), &mut source, 9001)?;
    assert_eq!(rt; bytes.as_slice(), text.as_slice());
    Ok(())
}

#[test]
fn a_reader_that_gives_few_bytes_is_read_until_it_fails(rt: HostRuntime) -> Result<(), Fail> {
    let mut source = ReaderSource::new(Narrow {
        bytes: b"seven by".to_vec(rt.alloc())?,
    });
    let mut piece = [b'.'; 8];
    for text in [b"sev".as_slice(), b"en ", b"by"] {
        assert_eq!(rt; source.read(&mut piece), Ok(text.len()));
        assert!(rt; piece.starts_with(text));
    }
    assert_eq!(rt; source.read(&mut piece), Err(Failed));
    assert_eq!(rt;
        read_all(rt.alloc(), &mut source, 90).err(),
        Some(ReadError::Fault)
    );
    Ok(())
}

#[test]
fn a_writer_that_takes_few_bytes_is_given_the_rest(rt: HostRuntime) -> Result<(), Fail> {
    let mut sink = WriterSink::new(Narrow {
        bytes: Vec::new(rt.alloc()),
    });
    assert_eq!(rt; sink.write(b"four"), Ok(3));
    assert_eq!(rt; write_all(&mut sink, b"a line"), Ok(()));
    assert_eq!(rt; write_all(&mut sink, b"more"), Err(WriteError::Fault));
    Ok(())
}

#[test]
fn a_writer_that_takes_nothing_has_failed(rt: HostRuntime) -> Result<(), Fail> {
    let mut room = [b'.'; 4];
    let mut sink = WriterSink::new(Cursor::new(room.as_mut_slice()));
    assert_eq!(rt; sink.write(b"six by"), Ok(4));
    assert_eq!(rt; sink.write(b"te"), Err(Failed));
    assert_eq!(rt; sink.write(b""), Ok(0));
    Ok(())
}

#[test]
fn each_error_has_its_text(rt: HostRuntime) -> Result<(), Fail> {
    for (error, text) in [
        (ReadError::Fault, "reading failed"),
        (ReadError::TooLong, "more bytes came than the limit"),
        (ReadError::Memory, "out of memory"),
    ] {
        assert_eq!(rt; error.to_string(rt.alloc())?.as_str(), text);
    }
    assert_eq!(rt;
        WriteError::Fault.to_string(rt.alloc())?.as_str(),
        "writing failed"
    );
    Ok(())
}

#[test]
fn standard_input_gives_nothing_into_no_room(rt: HostRuntime) {
    assert_eq!(rt; StdinSource::new(rt.stdin()).read(&mut []), Ok(0));
}

#[test]
fn standard_output_takes_a_line(rt: HostRuntime) {
    assert_eq!(rt;
        write_all(&mut StdoutSink::new(rt.stdout()), b"a line\n"),
        Ok(())
    );
}
