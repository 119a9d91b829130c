// What a line says, and why one isn't read.
use rx_base::Bytes;

/// What a line says: a connection opens, has a piece of bytes or closes, or all output is asked for; or it says nothing.
#[derive(Debug, Drop)]
pub enum Line {
    Opens(u16),
    Piece(u16, Bytes),
    Closes(u16),
    Settles,
    Nothing,
}

/// Why a line or a frame is refused.
#[derive(Clone, Copy, Debug, PartialEq, Eq)]
pub enum Flaw {
    /// No line begins so, or goes on so.
    Form,
    /// It isn't a decimal number from 0 to 65535 without a zero in front.
    Number,
    /// A backslash isn't followed by `n`, `r`, `t`, a backslash, or `x` and two hexadecimal digits.
    Escape,
    /// A control byte stands in the text of a piece.
    Control,
    /// A piece has more than 65535 bytes.
    LongPiece,
    /// A line has more bytes than any piece needs.
    LongLine,
    /// The kind of a frame isn't 1 to 4.
    Kind,
    /// A frame that isn't of kind 2 has a payload.
    Payload,
    /// The input ends within a frame.
    Cut,
}

/// Why there is no value of a line.
#[derive(Clone, Copy, Debug, PartialEq, Eq)]
pub enum LineFault {
    Refused(Flaw),
    Memory,
}
