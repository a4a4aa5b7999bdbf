ghost use Rattle.std.specs.Prelude.{◌≡◌, ◌≤◌, OnOk, OnErr};
ghost use Rattle.std.specs.Io.KnownBytes.{Appends};
ghost use Rattle.dy_io.specs.Bytes.{AppendsPrefix};
ghost use Rattle.dy_io.specs.Faults.{Rose};

use crate::errors::WriteError;
use crate::sinks::Sink;

/// Writes all the bytes to a sink. It takes no memory of its own.
///
/// `Fault` comes only where the sink's count of faults rose; a prefix of the bytes was added then.
pub fn write_all<K: Sink>(sink: &mut K, bytes: &[u8]) -> Result<(), WriteError>
    ensures written { OnOk result (Appends (K.held sink.old) (K.held sink.new) bytes.now) }
    ensures prefix { OnErr result (AppendsPrefix (K.held sink.old) (K.held sink.new) bytes.now) }
    ensures later { K.faults sink.old ≤ K.faults sink.new }
    ensures fault { OnErr result (Rose (K.faults sink.old) (K.faults sink.new)) }
    ensures no_fault { OnOk result (K.faults sink.new ≡ K.faults sink.old) }
{
    let mut done = 0;
    while done < bytes.len() {
        match sink.write(&bytes[done..]) {
            Err(_) => return Err(WriteError::Fault),
            Ok(0) => return Err(WriteError::Fault),
            Ok(n) => done += n,
        }
    }
    Ok(())
}
