// The phases of all connections, as a table.
ghost use Rattle.std.specs.Prelude.{◌≡◌, ◌<◌, ℕ, true};

use crate::LinkEvent;
use rx_base::{CONNECTIONS, Conn};

#[derive(Clone, Copy, Drop, PartialEq, Eq)]
enum State {
    Unopened,
    Open,
    Closed,
}

/// Which connections below 4096 were opened and closed. It takes no memory.
#[derive(Drop)]
pub struct ConnectionTable {
    states: [State; 4096],
}

impl ConnectionTable {
    ghost use Rattle.links.specs.Links.{IsFresh, phases_after};
    ghost use Rattle.links.specs.ConnectionTables.{phases_in, is_unopened, is_open, is_in_order};

    /// No connection was opened.
    pub fn new() -> ConnectionTable
        ensures { IsFresh (phases_in result) }
    {
        ConnectionTable {
            states: [State::Unopened; 4096],
        }
    }

    /// Whether a connection was never opened.
    pub fn is_unopened(&self, conn: Conn) -> bool
        requires { conn < 4096 }
        ensures { result ≡ is_unopened (phases_in self.now conn) }
    {
        match self.states[conn as usize] {
            State::Unopened => true,
            State::Open => false,
            State::Closed => false,
        }
    }

    /// Whether a connection is open.
    pub fn is_open(&self, conn: Conn) -> bool
        requires { conn < 4096 }
        ensures { result ≡ is_open (phases_in self.now conn) }
    {
        match self.states[conn as usize] {
            State::Open => true,
            State::Unopened | State::Closed => false,
        }
    }

    /// Whether an event is in order for its connection.
    pub fn is_in_order(&self, event: &LinkEvent) -> bool
        ensures { result ≡ is_in_order (phases_in self.now) event.now }
    {
        match event {
            LinkEvent::Opens(conn) => *conn < CONNECTIONS && self.is_unopened(*conn),
            LinkEvent::Piece(conn, _) => *conn < CONNECTIONS && self.is_open(*conn),
            LinkEvent::Closes(conn) => *conn < CONNECTIONS && self.is_open(*conn),
            LinkEvent::Settles => true,
            LinkEvent::Ends => true,
        }
    }

    /// Enters an event that is in order.
    pub fn enter(&mut self, event: &LinkEvent)
        requires { is_in_order (phases_in self.old) event.now ≡ true }
        ensures { (conn : ℕ) → phases_in self.new conn ≡ phases_after event.now (phases_in self.old) conn }
    {
        match event {
            LinkEvent::Opens(conn) => self.states[*conn as usize] = State::Open,
            LinkEvent::Closes(conn) => self.states[*conn as usize] = State::Closed,
            LinkEvent::Piece(_, _) => {}
            LinkEvent::Settles => {}
            LinkEvent::Ends => {}
        }
    }
}
