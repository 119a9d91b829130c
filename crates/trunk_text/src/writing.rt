// How a line is written, and the frame of it.
ghost use Rattle.std.specs.Prelude.{◌≡◌, ◌++◌, ◌∷◌, [], ◌<◌, ◌≤◌, ◌^◌, length, IfOk, OnOk};
ghost use Rattle.trunk_text.specs.Lines.{text_of};
ghost use Rattle.trunk_text.specs.Frames.{IsShort, frame_of};
ghost use Rattle.trunk_wire.specs.Frames.{frame};

use crate::escapes::push_piece;
use crate::line::Line;
use crate::numbers::push_number;
use std::alloc::{AllocError, Global};

const OPEN: u8 = 1;

const BYTES: u8 = 2;

const CLOSE: u8 = 3;

const SETTLE: u8 = 4;

fn push_text(text: &mut Vec<u8>, line: &Line) -> Result<(), AllocError>
    ensures { OnOk result (text.new.items ≡ text.old.items ++ text_of line.now) }
{
    match line {
        Line::Opens(conn) => {
            text.push(b'+')?;
            push_number(text, *conn)
        }
        Line::Piece(conn, bytes) => {
            push_number(text, *conn)?;
            text.push(b'<')?;
            push_piece(text, bytes.as_slice())
        }
        Line::Closes(conn) => {
            text.push(b'-')?;
            push_number(text, *conn)
        }
        Line::Settles => text.extend_from_slice(b"settle"),
        Line::Nothing => Ok(()),
    }
}

/// A line as it is written, with its line feed.
pub fn text_of(alloc: Global, line: &Line) -> Result<Vec<u8>, AllocError>
    ensures { IfOk result (λ text. text.items ≡ text_of line.now ++ 10 ∷ []) }
{
    let mut text = Vec::new(alloc);
    push_text(&mut text, line)?;
    text.push(b'\n')?;
    Ok(text)
}

fn frame(alloc: Global, kind: u8, conn: u16, payload: &[u8]) -> Result<Vec<u8>, AllocError>
    requires { length payload.now < 2 ^ 16 }
    ensures { IfOk result (λ bytes. bytes.items ≡ frame kind conn payload.now) }
{
    let length = payload.len();
    let header = [
        kind,
        (conn % 256) as u8,
        (conn / 256 % 256) as u8,
        (length % 256) as u8,
        (length / 256 % 256) as u8,
    ];
    let mut bytes = Vec::from_slice(alloc, &header)?;
    bytes.extend_from_slice(payload)?;
    Ok(bytes)
}

/// The frame of a line, which is empty where the line says nothing.
pub fn frame_of(alloc: Global, line: &Line) -> Result<Vec<u8>, AllocError>
    requires { IsShort line.now }
    ensures { IfOk result (λ bytes. bytes.items ≡ frame_of line.now) }
{
    match line {
        Line::Opens(conn) => frame(alloc, OPEN, *conn, &[]),
        Line::Piece(conn, bytes) => frame(alloc, BYTES, *conn, bytes.as_slice()),
        Line::Closes(conn) => frame(alloc, CLOSE, *conn, &[]),
        Line::Settles => frame(alloc, SETTLE, 0, &[]),
        Line::Nothing => Ok(Vec::new(alloc)),
    }
}
