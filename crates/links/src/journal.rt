// What a link was asked and what it answered, as plain data.
use rx_base::{Bytes, Conn};

/// What comes next over a link: a connection opens, sends a piece of bytes or closes, all output is asked for, or the
/// link ends.
#[derive(Debug, Drop)]
pub enum LinkEvent {
    Opens(Conn),
    Piece(Conn, Bytes),
    Closes(Conn),
    Settles,
    Ends,
}

/// Why a call on a link gave nothing, or not all.
#[derive(Clone, Copy, Debug, PartialEq, Eq)]
pub enum LinkFault {
    /// The link's grammar has no event at this offset, by this kind of refusal.
    Refused { kind: u8, offset: u64 },
    /// Taking an event failed: the link's count of failed takes rose.
    ReadFault,
    /// Giving a piece failed: the link's count of failed gives rose.
    WriteFault,
    /// Memory ran out.
    Memory,
}

/// How much of a piece was given: all of it, or so many of its first bytes before its connection was gone.
#[derive(Clone, Copy, Debug, PartialEq, Eq)]
pub enum Given {
    All,
    Gone(usize),
}

/// An event that was taken from a link, or a piece that was given to a connection of it: the bytes that went out, and
/// whether the connection was gone.
#[derive(Debug, Drop)]
pub enum Entry {
    Took(LinkEvent),
    Gave {
        conn: Conn,
        bytes: Bytes,
        gone: bool,
    },
}
