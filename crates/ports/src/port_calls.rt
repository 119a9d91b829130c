// What a port was asked and what it answered, as plain data.
use rx_base::{Bytes, Conn};

/// What is awaited besides the connections that are open: a client, and that somebody asks for a stop.
#[derive(Clone, Copy, Debug, PartialEq, Eq)]
pub struct Awaited {
    pub client: bool,
    pub stop: bool,
}

/// What can be done without waiting: a client can be accepted, or a connection be read of; or a stop was asked for.
#[derive(Clone, Copy, Debug, PartialEq, Eq)]
pub enum Ready {
    Accepts,
    Reads(Conn),
    Stops,
}

/// A kind of calls on a port that can fail.
#[derive(Clone, Copy, Debug, PartialEq, Eq)]
pub enum PortCall {
    Bind,
    Wait,
    Accept,
    Take,
    Give,
}

/// A call that failed. A take and a give have their connection.
#[derive(Clone, Copy, Debug, PartialEq, Eq)]
pub enum FailedCall {
    Bind,
    Wait,
    Accept,
    Take(Conn),
    Give(Conn),
}

/// A call on a port with its answer. `Accepted`, `Took`, `Gave` and `Closed` have the number of their connection. `Took` has
/// besides the bytes that were taken and the buffer's length, `Gave` the bytes that were given and how many were offered. A
/// call that answered `Memory` leaves no entry.
#[derive(Debug, Drop)]
pub enum PortEntry {
    Bound(u16),
    Waited {
        awaited: Awaited,
        ready: Ready,
    },
    Accepted(Conn),
    Took {
        conn: Conn,
        bytes: Bytes,
        room: usize,
    },
    Gave {
        conn: Conn,
        bytes: Bytes,
        offered: usize,
    },
    Closed(Conn),
    Failed(FailedCall),
}
