// What a line says.
ghost use Rattle.std.specs.Prelude.{◌≡◌, IfOk};
ghost use Rattle.trunk_text.specs.Lines.{Says, is_arrow, line_of, lone, numbered, piece_of};
ghost use Rattle.trunk_text.specs.Frames.{IsShort};
ghost use Rattle.trunk_text.specs.Numbers.{number};
ghost use Rattle.trunk_text.specs.Escapes.{spelled};

use crate::escapes::spelled;
use crate::line::{Flaw, Line, LineFault};
use crate::numbers::{is_digit, number};
use rx_base::Bytes;
use std::alloc::Global;

// The number that these bytes are.
fn whole_number(bytes: &[u8]) -> Option<u16>
    ensures { result ≡ lone (number bytes.now) }
{
    match number(bytes) {
        Some((conn, [])) => Some(conn),
        _ => None,
    }
}

fn is_arrow(byte: u8) -> bool
    ensures { result ≡ is_arrow byte }
{
    byte == b'>' || byte == b'<'
}

// The piece of a connection whose text this is.
fn piece_of(alloc: Global, conn: u16, text: &[u8]) -> Result<Line, LineFault>
    ensures says { Says (piece_of conn (spelled text.now)) result }
    ensures short { IfOk result IsShort }
{
    let bytes = match spelled(alloc, text) {
        Ok(bytes) => bytes,
        Err(fault) => return Err(fault),
    };
    if bytes.len() > 65535 {
        return Err(LineFault::Refused(Flaw::LongPiece));
    }
    Ok(Line::Piece(conn, Bytes::from_vec(bytes)))
}

// What a line says that begins with a digit.
fn numbered(alloc: Global, line: &[u8]) -> Result<Line, LineFault>
    ensures says { Says (numbered (number line.now)) result }
    ensures short { IfOk result IsShort }
{
    let Some((conn, rest)) = number(line) else {
        return Err(LineFault::Refused(Flaw::Number));
    };
    let [arrow, text @ ..] = rest else {
        return Err(LineFault::Refused(Flaw::Form));
    };
    if !is_arrow(*arrow) {
        return Err(LineFault::Refused(Flaw::Form));
    }
    piece_of(alloc, conn, text)
}

/// What a line says, without its line feed.
pub fn read_line(alloc: Global, line: &[u8]) -> Result<Line, LineFault>
    ensures says { Says (line_of line.now) result }
    ensures short { IfOk result IsShort }
{
    let [first, rest @ ..] = line else {
        return Ok(Line::Nothing);
    };
    if *first == b'#' {
        return Ok(Line::Nothing);
    }
    if *first == b'+' {
        return match whole_number(rest) {
            Some(conn) => Ok(Line::Opens(conn)),
            None => Err(LineFault::Refused(Flaw::Number)),
        };
    }
    if *first == b'-' {
        return match whole_number(rest) {
            Some(conn) => Ok(Line::Closes(conn)),
            None => Err(LineFault::Refused(Flaw::Number)),
        };
    }
    if is_digit(*first) {
        return numbered(alloc, line);
    }
    if line == b"settle".as_slice() {
        return Ok(Line::Settles);
    }
    Err(LineFault::Refused(Flaw::Form))
}
