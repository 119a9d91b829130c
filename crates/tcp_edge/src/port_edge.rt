// The port over the system's TCP.
ghost use Rattle.std.specs.Prelude.{◌≡◌, [], None};
ghost use Rattle.ports.specs.Connections.{is_open};

use crate::setting::patience_of;
use crate::sockets::Sockets;
use crate::stop_input::StopInput;
use ports::{Awaited, Port, Ready};
use rx_base::{Conn, IoFault};
use std::alloc::Global;
use std::io::Read;
use std::net::{Ipv4Addr, Net, TcpListener};
use std::time::Clock;

/// A port of 127.0.0.1 and its clients, on one thread, of which nothing is told. A call that was interrupted is tried again, a
/// bounded number of times.
///
/// Clients that can be read of take turns, and one that waits to be accepted comes before them. A client that has sent and taken
/// nothing for the whole patience has its turn too, and then its take fails. A give waits within the patience for a client that
/// doesn't read, and all others wait with it. Behind a stop the port is free again, and clients that are still connected when the time
/// for that is over are as those that were idle for too long.
#[derive(Drop)]
pub struct TcpPortEdge<'a, R: Net + Clock, I: Read + Drop> {
    system: &'a R,
    sockets: Sockets<R::Listener, R::Stream, I>,
    opened: Vec<bool>,
    faults: u64,
    connection_faults: u64,
}

// Whether a connection is open.
fn is_open(conn: Conn, opened: &[bool]) -> bool
    ensures { result ≡ is_open conn opened.now }
{
    match opened.get(conn as usize) {
        Some(is) => *is,
        None => false,
    }
}

impl<'a, R: Net + Clock, I: Read + Drop> TcpPortEdge<'a, R, I> {
    /// It listens at no port yet. A client that is idle for longer than `patience` seconds is a take that fails, and a give that
    /// waits for longer fails; at 0 it waits without limit. A stop is asked for by `stop`, if there is such an input.
    pub fn make(
        system: &'a R,
        alloc: Global,
        patience: u64,
        stop: Option<StopInput<I>>,
    ) -> TcpPortEdge<'a, R, I>
        ensures connections { ⟦<TcpPortEdge<'a, R, I> as Port>⟧.connections result ≡ [] }
        ensures faults { ⟦<TcpPortEdge<'a, R, I> as Port>⟧.faults result ≡ 0 }
        ensures connection_faults { ⟦<TcpPortEdge<'a, R, I> as Port>⟧.connection_faults result ≡ 0 }
    {
        TcpPortEdge {
            system,
            sockets: Sockets::make(alloc, patience_of(patience), stop),
            opened: Vec::new(alloc),
            faults: 0,
            connection_faults: 0,
        }
    }
}

impl<R: Net + Clock, I: Read + Drop> Port for TcpPortEdge<'_, R, I> {
    ghost told = { λ _. None };

    ghost connections = { λ s. s.opened.items };

    ghost faults = { λ s. s.faults };

    ghost connection_faults = { λ s. s.connection_faults };

    ghost Fixed = { Unit {0} };

    ghost fixed = { λ _. tt };

    fn bind(&mut self, port: u16) -> Result<(), IoFault> {
        match TcpListener::bind(self.system, (Ipv4Addr::LOCALHOST, port)) {
            Ok(listener) => {
                self.sockets.listen(listener);
                self.opened.clear();
                Ok(())
            }
            Err(_) => {
                self.faults = self.faults.saturating_add(1);
                Err(IoFault::Failed)
            }
        }
    }

    fn wait(&mut self, awaited: Awaited) -> Result<Ready, IoFault> {
        match self.sockets.wait(self.system, awaited) {
            Ok(Ready::Accepts) if awaited.client => Ok(Ready::Accepts),
            Ok(Ready::Reads(conn)) if is_open(conn, &self.opened) => Ok(Ready::Reads(conn)),
            Ok(Ready::Stops) if awaited.stop => Ok(Ready::Stops),
            Err(IoFault::Memory) => Err(IoFault::Memory),
            _ => {
                self.faults = self.faults.saturating_add(1);
                Err(IoFault::Failed)
            }
        }
    }

    fn accept(&mut self) -> Result<(), IoFault> {
        if self.opened.reserve(1).is_err() {
            return Err(IoFault::Memory);
        }
        match self.sockets.accept(self.opened.len() as Conn) {
            Ok(()) => {
                self.opened.push_reserved(true);
                Ok(())
            }
            Err(IoFault::Memory) => Err(IoFault::Memory),
            Err(IoFault::Failed) => {
                self.faults = self.faults.saturating_add(1);
                Err(IoFault::Failed)
            }
        }
    }

    fn take(&mut self, conn: Conn, buf: &mut [u8]) -> Result<usize, IoFault> {
        match self.sockets.take(conn, buf) {
            Some(count) => Ok(count),
            None => {
                self.connection_faults = self.connection_faults.saturating_add(1);
                Err(IoFault::Failed)
            }
        }
    }

    fn give(&mut self, conn: Conn, bytes: &[u8]) -> Result<usize, IoFault> {
        match self.sockets.give(conn, bytes) {
            Some(count) => Ok(count),
            None => {
                self.connection_faults = self.connection_faults.saturating_add(1);
                Err(IoFault::Failed)
            }
        }
    }

    fn close(&mut self, conn: Conn) {
        self.sockets.close(conn);
        self.opened[conn as usize] = false;
    }
}
