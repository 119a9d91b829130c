// What a guest receives.
use crate::Bytes;

/// The number of a connection. It is wider than the two bytes that a frame has for it, and as wide as a register of a guest.
pub type Conn = u32;

/// How many connections there are: they have the numbers below this.
pub const CONNECTIONS: Conn = 4096;

/// The most items that a session receives.
pub const MAX_ITEMS: u64 = 1 << 20;

/// For how many items behind a failure the environment of the trial that is adopted stays in force.
pub const KEEP: u64 = 4;

/// What a guest receives: an open (kind 1), a message (2) or a close (3) of a connection. An open and a close have no bytes.
#[derive(Debug, Drop)]
pub struct Item {
    pub kind: u8,
    pub conn: Conn,
    pub bytes: Bytes,
}
