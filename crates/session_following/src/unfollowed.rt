// Why a session that follows isn't released.
use rx_base::Conn;
use session_history::Stop;

/// Why a second host that takes over isn't released. Nothing was given to its link.
#[derive(Clone, Copy, Debug, PartialEq, Eq)]
pub enum Unfollowed {
    /// Record and report aren't of this program and these items: so it is behind so many instructions of the run.
    Mismatch { step: u64 },
    /// The client of this connection, the least such one, has more bytes than were sent to it.
    Short { conn: Conn },
    /// The session stopped before it was released.
    Stops(Stop),
}
