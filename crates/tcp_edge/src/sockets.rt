// The sockets of a port and of its clients.
ghost use Rattle.std.specs.Prelude.{◌<◌, ◌≤◌, length, IfSome};

use crate::clients::{Client, Seen, Waiting, longest_idle, next_turn, note_answers, place_of};
use crate::setting::{accept_some, set_up};
use crate::stop_input::StopInput;
use libc::net::{POLLIN, poll};
use libc::types::pollfd;
use ports::{Awaited, Ready};
use rx_base::{Conn, IoFault};
use rx_io::TRIES;
use std::alloc::Global;
use std::io::{Read, Write};
use std::net::{OpenListener, OpenStream};
use std::os::fd::AsRawFd;
use std::time::{Clock, Duration, Instant};

/// A port that is listened at, an input that may ask for a stop, its clients in the order of their numbers, and what the system is asked
/// of all: of the port first, and then of the input.
#[derive(Drop)]
pub struct Sockets<L: Drop, S: Drop, I: Read + Drop> {
    waiting: Waiting,
    listener: Option<L>,
    stop: Option<StopInput<I>>,
    clients: Vec<Client<S>>,
    asked: Vec<pollfd>,
    next: Conn,
}

// A question whether a descriptor can be read of. That of no descriptor is answered by nothing.
fn question(fd: i32) -> pollfd {
    pollfd {
        fd,
        events: POLLIN,
        revents: 0,
    }
}

// No descriptor.
const NONE: i32 = -1;

// For how many milliseconds is waited that are left: without limit where nothing is said.
fn wait_millis(left: Option<Duration>) -> i32 {
    let Some(left) = left else {
        return -1;
    };
    if left.is_zero() {
        return 0;
    }
    i32::try_from(left.as_millis())
        .unwrap_or(i32::MAX)
        .saturating_add(1)
}

// What a look at the sockets saw: what is ready; nothing; or nothing but words that ask for no stop.
enum Look {
    Ready(Ready),
    Nothing,
    Words,
}

impl<L, S, I> Sockets<L, S, I>
where
    L: OpenListener<Stream = S> + AsRawFd + Drop,
    S: Read + Write + OpenStream + AsRawFd + Drop,
    I: Read + Drop,
{
    /// None is there yet.
    pub fn make(
        alloc: Global,
        patience: Option<Duration>,
        stop: Option<StopInput<I>>,
    ) -> Sockets<L, S, I> {
        Sockets {
            waiting: Waiting {
                patience,
                until: None,
            },
            listener: None,
            stop,
            clients: Vec::new(alloc),
            asked: Vec::new(alloc),
            next: 0,
        }
    }

    /// Listens with this one, for clients that are numbered anew.
    pub fn listen(&mut self, listener: L) {
        self.clients.clear();
        self.next = 0;
        self.listener = Some(listener);
    }

    // What the system is asked: of the port, where a client may be accepted, of the input that asks for a stop, where one is awaited, and of
    // each client. It fails where that is nothing, since nothing would ever come.
    fn ask(&mut self, awaited: Awaited) -> Result<(), IoFault> {
        let port = match &self.listener {
            Some(listener) if awaited.client => listener.as_raw_fd(),
            _ => NONE,
        };
        let stop = match &self.stop {
            Some(stop) if awaited.stop => stop.fd(),
            _ => NONE,
        };
        if port == NONE && stop == NONE && self.clients.is_empty() {
            return Err(IoFault::Failed);
        }
        self.asked.clear();
        if self.asked.push(question(port)).is_err() || self.asked.push(question(stop)).is_err() {
            return Err(IoFault::Memory);
        }
        'clients: for client in &self.clients {
            if self
                .asked
                .push(question(client.stream.as_raw_fd()))
                .is_err()
            {
                return Err(IoFault::Memory);
            }
        }
        Ok(())
    }

    // A stop was asked for: the port is free for others, and clients are waited for no longer than they may stay.
    fn begin_stop(&mut self, now: Instant, drain: Duration) {
        self.listener = None;
        self.waiting.until = now.checked_add(drain);
        let patience = match self.waiting.patience {
            Some(patience) => patience.min(drain),
            None => drain,
        };
        let patience = Some(patience.max(Duration::from_millis(1)));
        'clients: for client in &self.clients {
            set_up(&client.stream, patience);
        }
    }

    // Whether what the input says asks for a stop, by the system's answer. Then it begins.
    fn is_stopped(&mut self, now: Instant, answered: i16) -> bool {
        let Some(stop) = &mut self.stop else {
            return false;
        };
        if answered == 0 || !stop.asks() {
            return false;
        }
        let drain = stop.drain();
        self.begin_stop(now, drain);
        true
    }

    // What is ready by the system's answers, if something is: a stop, the port, or else the client whose turn it is.
    fn turn(&mut self, now: Instant) -> Look {
        let [port, stop, clients @ ..] = self.asked.as_slice() else {
            return Look::Nothing;
        };
        let (port, stop) = (port.revents, stop.revents);
        note_answers(&mut self.clients, clients, now, self.waiting);
        if self.is_stopped(now, stop) {
            return Look::Ready(Ready::Stops);
        }
        if port != 0 {
            return Look::Ready(Ready::Accepts);
        }
        match next_turn(&self.clients, self.next) {
            Some(conn) => {
                self.next = conn.saturating_add(1);
                Look::Ready(Ready::Reads(conn))
            }
            None if stop != 0 => Look::Words,
            None => Look::Nothing,
        }
    }

    // Waits once, for as long as no client gets late: what is ready, or nothing, as where the wait was interrupted.
    fn look<R: Clock>(&mut self, clock: &R, awaited: Awaited) -> Result<Look, IoFault> {
        let Ok(now) = Instant::now(clock) else {
            return Err(IoFault::Failed);
        };
        let idle = longest_idle(&mut self.clients, now);
        self.ask(awaited)?;
        if poll(&mut self.asked, wait_millis(self.waiting.left(idle, now))) < 0 {
            return Ok(Look::Nothing);
        }
        let Ok(now) = Instant::now(clock) else {
            return Err(IoFault::Failed);
        };
        Ok(self.turn(now))
    }

    // What is waited for where that is one thing alone: the next client, or the one that is connected. The call that follows waits for
    // it, within the patience of a client, and the system isn't asked. Where a stop may come, or came, that isn't all.
    fn alone(&mut self, awaited: Awaited) -> Option<Ready> {
        if awaited.stop || self.waiting.until.is_some() {
            return None;
        }
        if awaited.client {
            return (self.clients.is_empty() && self.listener.is_some()).then_some(Ready::Accepts);
        }
        let [client] = self.clients.as_mut_slice() else {
            return None;
        };
        client.seen = Seen::Quiet;
        Some(Ready::Reads(client.conn))
    }

    /// Waits until a client can be accepted or a stop is asked for, where that is awaited, or a client can be read of, or one is late.
    /// Clients take turns. Where the next client or one that is connected is all that can come, it is answered at once.
    pub fn wait<R: Clock>(&mut self, clock: &R, awaited: Awaited) -> Result<Ready, IoFault> {
        if let Some(ready) = self.alone(awaited) {
            return Ok(ready);
        }
        let mut vain = 0u32;
        'looks: for _ in 0..u64::MAX {
            match self.look(clock, awaited)? {
                Look::Ready(ready) => return Ok(ready),
                Look::Words => {}
                Look::Nothing => {
                    vain = vain.saturating_add(1);
                    if vain >= TRIES {
                        return Err(IoFault::Failed);
                    }
                }
            }
        }
        Err(IoFault::Failed)
    }

    /// Accepts the next client, under this number, which is larger than that of each other one.
    pub fn accept(&mut self, conn: Conn) -> Result<(), IoFault> {
        if self.clients.reserve(1).is_err() {
            return Err(IoFault::Memory);
        }
        let accepted = match &self.listener {
            Some(listener) => accept_some(listener),
            None => None,
        };
        let Some(stream) = accepted else {
            return Err(IoFault::Failed);
        };
        set_up(&stream, self.waiting.patience);
        self.clients.push_reserved(Client {
            conn,
            stream,
            idle_since: None,
            seen: Seen::Quiet,
            is_full: false,
        });
        Ok(())
    }

    // The client of a connection, if it has one.
    fn client(&mut self, conn: Conn) -> Option<&mut Client<S>> {
        let place = place_of(&self.clients, conn)?;
        self.clients.get_mut(place)
    }

    /// Takes bytes of a client, or none where that failed.
    pub fn take(&mut self, conn: Conn, buf: &mut [u8]) -> Option<usize>
        ensures { IfSome result (λ n. n ≤ length buf.old) }
    {
        self.client(conn)?.take(buf)
    }

    /// Gives a client at least a byte, or none where that failed.
    pub fn give(&mut self, conn: Conn, bytes: &[u8]) -> Option<usize>
        ensures some { IfSome result (λ n. 0 < n) }
        ensures count { IfSome result (λ n. n ≤ length bytes.now) }
    {
        let is_limited = self.waiting.patience.is_some() || self.waiting.until.is_some();
        self.client(conn)?.give(bytes, is_limited)
    }

    /// Closes a client's socket.
    pub fn close(&mut self, conn: Conn) {
        if let Some(place) = place_of(&self.clients, conn) {
            drop(self.clients.remove(place));
        }
    }
}
