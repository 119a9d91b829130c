// The kinds of items, and how many connections there are.

/// The kind of an item that says that a connection opened.
pub const OPENED: u8 = 1;

/// The kind of an item that is a message.
pub const MESSAGE: u8 = 2;

/// The kind of an item that says that a connection closed.
pub const CLOSED: u8 = 3;

/// How many connections there are; their numbers are below this.
pub const CONNECTIONS: usize = rx_base::CONNECTIONS as usize;
