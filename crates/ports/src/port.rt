// Where connections come from.
ghost use Rattle.std.specs.Prelude.{◌≡◌, ◌^◌, ◌<◌, ◌≤◌, ℕ, Bool, true, false, List, length, Option, IfOk};
ghost use Rattle.ports.specs.declared.port_calls.PortEntry.{PortEntry};
ghost use Rattle.ports.specs.Connections.{accepted, is_open, open_count, without, IsBoundAfter, IsConnectedAfter, IsReady};
ghost use Rattle.ports.specs.Calls.{PortBinds, PortWaits, PortAccepts, PortTakes, PortGives, Logs, closed};
ghost use Rattle.rx_base.specs.Faults.{HasCause};
ghost use Rattle.rx_base.specs.Taking.{IsPart};

use crate::{Awaited, PortEntry, Ready};
use rx_base::{Conn, IoFault};

/// A port at which connections are accepted, of which one or several are open at the same time. They are numbered from 0 in the order in
/// which they are accepted, anew behind each bind.
pub trait Port {
    /// All calls with their answers, in order, if the port tells them.
    ghost told: { Self → Option (List PortEntry) };

    /// Of each connection that was accepted since the last bind, in order, whether it is open.
    ghost connections: { Self → List Bool };

    /// How often a `bind`, a `wait` or an `accept` has failed. It never falls.
    ghost faults: { Self → ℕ };

    /// How often a `take` or a `give` has failed. It never falls.
    ghost connection_faults: { Self → ℕ };

    /// What of it no call changes.
    ghost Fixed: { Type 0 };

    /// It stays as it is.
    ghost fixed: { Self → Fixed };

    /// Listens at this port of the address 127.0.0.1. No connection was accepted then; one that was open is closed. After an
    /// `Err` all is as before.
    fn bind(&mut self, port: u16) -> Result<(), IoFault>
        ensures call { PortBinds (told self.old) (told self.new) port result }
        ensures connections { IsBoundAfter (connections self.old) (connections self.new) result }
        ensures fixed { fixed self.new ≡ fixed self.old }
        ensures cause { HasCause (faults self.old) (faults self.new) result }
        ensures other { connection_faults self.new ≡ connection_faults self.old };

    /// Waits until an open connection can be read of: it has bytes, or its client sends no more, or it has failed. Where that is
    /// asked for, it waits for a client that can be accepted too, and for a stop. Which of several is answered isn't said.
    fn wait(&mut self, awaited: Awaited) -> Result<Ready, IoFault>
        requires some { awaited.client ≡ false → 0 < open_count (connections self.old) }
        ensures ready { IfOk result (λ ready. IsReady awaited (connections self.old) ready) }
        ensures call { PortWaits (told self.old) (told self.new) awaited result }
        ensures connections { connections self.new ≡ connections self.old }
        ensures fixed { fixed self.new ≡ fixed self.old }
        ensures cause { HasCause (faults self.old) (faults self.new) result }
        ensures other { connection_faults self.new ≡ connection_faults self.old };

    /// Waits for the next connection, whose number is how many were accepted before.
    fn accept(&mut self) -> Result<(), IoFault>
        requires few { accepted (connections self.old) < 2 ^ 16 }
        ensures call { PortAccepts (told self.old) (told self.new) (accepted (connections self.old)) result }
        ensures connections { IsConnectedAfter (connections self.old) (connections self.new) result }
        ensures fixed { fixed self.new ≡ fixed self.old }
        ensures cause { HasCause (faults self.old) (faults self.new) result }
        ensures other { connection_faults self.new ≡ connection_faults self.old };

    /// Takes at most as many bytes of an open connection as `buf` has, puts them at its front, and answers how many. 0 is the
    /// end. After an `Err` no byte was taken.
    fn take(&mut self, conn: Conn, buf: &mut [u8]) -> Result<usize, IoFault>
        requires connected { is_open conn (connections self.old) ≡ true }
        requires room { 0 < length buf.old }
        ensures count { IfOk result (λ n. n ≤ length buf.old) }
        ensures call { PortTakes (told self.old) (told self.new) conn result buf.new }
        ensures connections { connections self.new ≡ connections self.old }
        ensures fixed { fixed self.new ≡ fixed self.old }
        ensures cause { HasCause (connection_faults self.old) (connection_faults self.new) result }
        ensures other { faults self.new ≡ faults self.old };

    /// Gives bytes to an open connection, which takes the first ones, at least one, and answers how many. After an `Err` it took none.
    fn give(&mut self, conn: Conn, bytes: &[u8]) -> Result<usize, IoFault>
        requires connected { is_open conn (connections self.old) ≡ true }
        requires offered { 0 < length bytes.now }
        ensures count { IfOk result (λ n. IsPart n (length bytes.now)) }
        ensures call { PortGives (told self.old) (told self.new) conn result bytes.now }
        ensures connections { connections self.new ≡ connections self.old }
        ensures fixed { fixed self.new ≡ fixed self.old }
        ensures cause { HasCause (connection_faults self.old) (connection_faults self.new) result }
        ensures other { faults self.new ≡ faults self.old };

    /// Ends an open connection. The numbers of the others stay.
    fn close(&mut self, conn: Conn)
        requires { is_open conn (connections self.old) ≡ true }
        ensures call { Logs (told self.old) (told self.new) (closed conn) }
        ensures connections { connections self.new ≡ without conn (connections self.old) }
        ensures fixed { fixed self.new ≡ fixed self.old }
        ensures faults { faults self.new ≡ faults self.old }
        ensures other { connection_faults self.new ≡ connection_faults self.old };
}
