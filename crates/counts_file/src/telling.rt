// What a line is read as. A line tells two numbers by its places; it is of its form where they are in their ranges and it is what
// is written of them.
ghost use Rattle.std.specs.Prelude.{◌≡◌};
ghost use Rattle.text_lines.specs.Written.{Tells};
ghost use Rattle.counts_file.specs.Telling.{is_count, count_in};

use crate::writing::count_line;
use rx_base::{CONNECTIONS, Conn};
use std::alloc::{AllocError, Global};
use text_lines::{is_same, two_numbers};

fn is_count(least: Conn, conn: u64, count: u64) -> bool
    ensures { result ≡ is_count least (conn, count) }
{
    u64::from(least) <= conn && conn < u64::from(CONNECTIONS) && count < 1 << 63
}

// What a line says, if it is one of a connection from `least` on.
pub(crate) fn count_in(
    alloc: Global,
    least: Conn,
    line: &[u8],
) -> Result<Option<(Conn, u64)>, AllocError>
    ensures { Tells (count_in least line.now) result }
{
    let (conn, count) = two_numbers(line);
    if !is_count(least, conn, count) {
        return Ok(None);
    }
    let conn = conn as Conn;
    let text = count_line(alloc, conn, count)?;
    if is_same(text.as_slice(), line) {
        Ok(Some((conn, count)))
    } else {
        Ok(None)
    }
}
