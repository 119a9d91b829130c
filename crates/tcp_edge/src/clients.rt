// The clients that are connected, and whose turn it is.
ghost use Rattle.std.specs.Prelude.{◌<◌, ◌≤◌, length, IfSome};

use libc::types::pollfd;
use rx_base::Conn;
use rx_io::{read_some, write_some};
use std::io::{Read, Write};
use std::time::{Duration, Instant};

/// What the last wait saw of a client. One that was idle for the whole patience is late.
#[derive(Clone, Copy)]
pub enum Seen {
    Quiet,
    Ready,
    Late,
}

/// A client: the number of its connection, since when it is idle, where a wait came behind its last call, and whether a give waited
/// for it in vain.
#[derive(Drop)]
pub struct Client<S: Drop> {
    pub conn: Conn,
    pub stream: S,
    pub idle_since: Option<Instant>,
    pub seen: Seen,
    pub is_full: bool,
}

impl<S: Read + Write + Drop> Client<S> {
    /// Takes bytes of it, or none where that failed. Of a late one none are taken.
    pub fn take(&mut self, buf: &mut [u8]) -> Option<usize>
        ensures { IfSome result (λ n. n ≤ length buf.old) }
    {
        if let Seen::Late = self.seen {
            return None;
        }
        self.idle_since = None;
        read_some(&mut self.stream, buf)
    }

    /// Gives it at least a byte, or none where that failed. Where waiting is limited, a give that took a part has waited for as long
    /// as may be, and none is made behind it.
    pub fn give(&mut self, bytes: &[u8], is_limited: bool) -> Option<usize>
        ensures some { IfSome result (λ n. 0 < n) }
        ensures count { IfSome result (λ n. n ≤ length bytes.now) }
    {
        if self.is_full {
            return None;
        }
        self.idle_since = None;
        let count = write_some(&mut self.stream, bytes)?;
        self.is_full = is_limited && count < bytes.len();
        Some(count)
    }
}

/// How long the client has been idle that has been so the longest, if there is one. One that had a call since the last wait is idle
/// from now on.
pub fn longest_idle<S: Drop>(clients: &mut [Client<S>], now: Instant) -> Option<Duration> {
    let mut longest = None;
    'clients: for client in clients.iter_mut() {
        let since = client.idle_since.unwrap_or(now);
        client.idle_since = Some(since);
        longest = longest.max(Some(now.duration_since(since)));
    }
    longest
}

/// Until when clients are waited for: each for the patience, and behind a stop all until it is over.
#[derive(Clone, Copy)]
pub struct Waiting {
    pub patience: Option<Duration>,
    pub until: Option<Instant>,
}

impl Waiting {
    // What is seen of a client of which the system answered this.
    fn seen(&self, answered: i16, idle_since: Option<Instant>, now: Instant) -> Seen {
        if let Some(until) = self.until {
            if now >= until {
                return Seen::Late;
            }
        }
        if answered != 0 {
            return Seen::Ready;
        }
        match (idle_since, self.patience) {
            (Some(since), Some(patience)) if now.duration_since(since) >= patience => Seen::Late,
            _ => Seen::Quiet,
        }
    }

    /// How long is waited where a client has been idle for so long: without limit where there is none.
    pub fn left(&self, idle: Option<Duration>, now: Instant) -> Option<Duration> {
        let of_idle = match (self.patience, idle) {
            (Some(patience), Some(idle)) => Some(patience.saturating_sub(idle)),
            _ => None,
        };
        let of_stop = self.until.map(|until| until.duration_since(now));
        match (of_idle, of_stop) {
            (Some(idle), Some(stop)) => Some(idle.min(stop)),
            (idle, stop) => idle.or(stop),
        }
    }
}

/// Notes of each client what the system answered, in their order.
pub fn note_answers<S: Drop>(
    clients: &mut [Client<S>],
    answers: &[pollfd],
    now: Instant,
    waiting: Waiting,
) {
    'clients: for (client, answer) in clients.iter_mut().zip(answers) {
        client.seen = waiting.seen(answer.revents, client.idle_since, now);
    }
}

/// The connection whose turn it is, of those that are ready or late: the first one from the number `next` on, or else the first
/// one. Clients stand in the order of their numbers.
pub fn next_turn<S: Drop>(clients: &[Client<S>], next: Conn) -> Option<Conn> {
    let mut first = None;
    'clients: for client in clients {
        if let Seen::Quiet = client.seen {
            continue 'clients;
        }
        if client.conn >= next {
            return Some(client.conn);
        }
        first = first.or(Some(client.conn));
    }
    first
}

/// The place of a connection among the clients.
pub fn place_of<S: Drop>(clients: &[Client<S>], conn: Conn) -> Option<usize>
    ensures { IfSome result (λ place. place < length clients.now) }
{
    clients.iter().position(|client| client.conn == conn)
}
