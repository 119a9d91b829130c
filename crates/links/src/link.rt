// What a session talks to: events in, pieces of output out, over many connections.
ghost use Rattle.std.specs.Prelude.{◌≡◌, ◌^◌, ◌<◌, true, length};
ghost use Rattle.links.specs.Seen.{Seen, IsSound, NextShows, GiveShows};

use crate::{Given, LinkEvent, LinkFault};
use rx_base::Conn;

/// A link to clients over connections below 4096. Events are taken from it one after another, and pieces of output are given
/// to its connections.
pub trait Link {
    /// What it shows of itself: what was taken and given, what comes, and which calls may be made.
    ghost seen: { Self → Seen };

    /// How a link goes on: a relation between a link and itself later, which every call keeps.
    ghost Went: { Self → Self → Type 0 };

    /// Takes the next event, which is in order for its connection; `Ends` says that none is left. After an `Err` no event
    /// was taken, and none is taken any more.
    ///
    /// # Errors
    ///
    /// `Refused` exactly where the link's grammar has no event there, with the kind and the offset of the refusal;
    /// `ReadFault` only where the count of failed takes rose; `Memory`. Never `WriteFault`.
    fn next(&mut self) -> Result<LinkEvent, LinkFault>
        requires { (seen self.old).takes ≡ true }
        ensures shows { NextShows (seen self.old) (seen self.new) result }
        ensures went { Went self.old self.new };

    /// Gives 1 to 65,535 bytes to a connection, to which the link gives. A link gives to a connection from its opening until it is
    /// asked for an event after its close. `Gone(n)`: the first n bytes went out, and the connection is gone. After an `Err`
    /// some first bytes went out, or none, and no piece is given any more.
    ///
    /// # Errors
    ///
    /// `WriteFault` only where the count of failed gives rose; `Memory`. Never `Refused` or `ReadFault`.
    fn give(&mut self, conn: Conn, bytes: &[u8]) -> Result<Given, LinkFault>
        requires may { (seen self.old).gives ≡ true }
        requires connected { (seen self.old).gives_to conn ≡ true }
        requires some { 0 < length bytes.now }
        requires few { length bytes.now < 2 ^ 16 }
        ensures shows { GiveShows (seen self.old) (seen self.new) conn bytes.now result }
        ensures went { Went self.old self.new };

    /// A link gives to each connection that is open, and each of these is below 4096.
    ghost sound: { (link : Self) → IsSound (seen link) };

    /// A link without a call between has gone on.
    ghost went_same: { (link : Self) → Went link link };

    /// A link that went on twice has gone on.
    ghost went_on: { (first second third : Self) → Went first second → Went second third → Went first third };
}
