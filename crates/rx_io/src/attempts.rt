// Calls of std that are tried again where they were interrupted, a bounded number of times.
ghost use Rattle.std.specs.Prelude.{◌≡◌, ℕ, ◌<◌, ◌≤◌, List, [], length, take, Option, None, IfOk, IfSome};
ghost use Rattle.std.specs.Io.KnownBytes.{Appends, Consumes, IsAtEnd, Keeps};

use std::io::{Error, ErrorKind, Read, Write};

/// How often a call is tried before its interruption is a fault.
pub const TRIES: u32 = 1000;

/// One read, or none where it failed, which took no byte.
pub fn read_some<R: Read>(reader: &mut R, buf: &mut [u8]) -> Option<usize>
    ensures count { IfSome result (λ n. n ≤ length buf.old) }
    ensures bytes { IfSome result (λ n. Consumes (R.remaining reader.old) (R.remaining reader.new) (take n buf.new)) }
    ensures end { IfSome result (λ n. n ≡ 0 → 0 < length buf.old → IsAtEnd (R.remaining reader.new)) }
    ensures kept { result ≡ None → Keeps (R.remaining reader.old) (R.remaining reader.new) }
{
    'tries: for _ in 0..TRIES {
        match reader.read(buf) {
            Ok(count) => return Some(count),
            Err(e) => {
                if e.kind() != ErrorKind::Interrupted {
                    return None;
                }
            }
        }
    }
    None
}

/// One write of at least a byte, or why it failed; one that took no byte did.
pub fn try_write<W: Write>(writer: &mut W, bytes: &[u8]) -> Result<usize, Error>
    ensures some { IfOk result (λ n. 0 < n) }
    ensures count { IfOk result (λ n. n ≤ length bytes.now) }
    ensures bytes { IfOk result (λ n. Appends (W.contents writer.old) (W.contents writer.new) (take n bytes.now)) }
{
    'tries: for _ in 0..TRIES {
        match writer.write(bytes) {
            Ok(0) => return Err(Error::from(ErrorKind::WriteZero)),
            Ok(count) => return Ok(count),
            Err(e) => {
                if e.kind() != ErrorKind::Interrupted {
                    return Err(e);
                }
            }
        }
    }
    Err(Error::from(ErrorKind::Interrupted))
}

/// One write of at least a byte, or none where it failed or took no byte.
pub fn write_some<W: Write>(writer: &mut W, bytes: &[u8]) -> Option<usize>
    ensures some { IfSome result (λ n. 0 < n) }
    ensures count { IfSome result (λ n. n ≤ length bytes.now) }
    ensures bytes { IfSome result (λ n. Appends (W.contents writer.old) (W.contents writer.new) (take n bytes.now)) }
{
    match try_write(writer, bytes) {
        Ok(count) => Some(count),
        Err(_) => None,
    }
}
