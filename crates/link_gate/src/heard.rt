// What is heard of a link's next event.
use rx_base::Conn;

/// What the next event was.
#[derive(Clone, Copy, Debug, PartialEq, Eq)]
pub enum Heard {
    /// A connection opened, or sent a piece: the log has the items that it brought, of which there may be none.
    Items,
    /// A connection closed: the log has the item of it, and the ledger doesn't know of it yet.
    Closes(Conn),
    /// All that is held back is asked for.
    Settles,
    /// The link has ended.
    Ends,
}

/// Why nothing was heard.
#[derive(Clone, Copy, Debug, PartialEq, Eq)]
pub enum HearFault {
    /// The link's grammar has no event there.
    Refused { kind: u8, offset: u64 },
    /// The event is one more than a session may have.
    LimitEvents,
    /// A message of this connection is too long.
    TooLong(Conn),
    /// More items would be received than a session may receive.
    LimitItems,
    /// Taking an event failed: the link's count of failed takes rose.
    ReadFault,
    /// Memory ran out.
    Memory,
}
