ghost use Rattle.std.specs.Prelude.{◌≡◌, ◌≢◌, ◌+◌, ◌^◌, ◌<◌, ◌≤◌, length};
ghost use Rattle.std.specs.Prelude.{IfSome, IfOk, OnOk, IsErrOf, Err};
ghost use Rattle.std.specs.Io.KnownBytes.{Consumes, IsAtEnd};
ghost use Rattle.dy_io.specs.Bytes.{Came, CameAtMost};
ghost use Rattle.dy_io.specs.Faults.{Rose};

use crate::errors::ReadError;
use crate::sources::Source;
use std::alloc::Global;

/// How many bytes are asked for at once.
const PIECE: usize = 4096;

/// Reads a source to its end. The limit, below the greatest `usize`, is how many bytes may come.
///
/// `TooLong` comes exactly where `limit + 1` bytes came, and no more than these are ever taken.
/// `Fault` comes only where the source's count of faults rose.
pub fn read_all<S: Source>(
    alloc: Global,
    source: &mut S,
    limit: usize,
) -> Result<Vec<u8>, ReadError>
    requires { limit + 1 < 2 ^ 64 }
    // The answer is all that was left, and nothing is left.
    ensures whole { IfOk result (λ bytes. IfSome (S.left source.old) (λ left. bytes.items ≡ left)) }
    ensures taken { IfOk result (λ bytes. Consumes (S.left source.old) (S.left source.new) bytes.items) }
    ensures ended { OnOk result (IsAtEnd (S.left source.new)) }
    ensures within { IfOk result (λ bytes. length bytes.items ≤ limit) }

    // After an error the bytes that came stay taken, and no others are.
    ensures too_long { IsErrOf result ReadError.TooLong →
        Came (limit + 1) (S.left source.old) (S.left source.new) }
    ensures fault_within { IsErrOf result ReadError.Fault →
        CameAtMost limit (S.left source.old) (S.left source.new) }
    ensures memory_within { IsErrOf result ReadError.Memory →
        CameAtMost limit (S.left source.old) (S.left source.new) }

    ensures later { S.faults source.old ≤ S.faults source.new }
    ensures fault { IsErrOf result ReadError.Fault → Rose (S.faults source.old) (S.faults source.new) }
    ensures no_fault { result ≢ Err ReadError.Fault → S.faults source.new ≡ S.faults source.old }
{
    let mut bytes = Vec::new(alloc);
    let mut piece = [0u8; PIECE];
    loop {
        let room = (limit + 1 - bytes.len()).min(PIECE);
        match source.read(&mut piece[..room]) {
            Err(_) => return Err(ReadError::Fault),
            Ok(0) => return Ok(bytes),
            Ok(n) if n > limit - bytes.len() => return Err(ReadError::TooLong),
            Ok(n) => {
                if bytes.extend_from_slice(&piece[..n]).is_err() {
                    return Err(ReadError::Memory);
                }
            }
        }
    }
}
