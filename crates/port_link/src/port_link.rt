// A link over a port.
ghost use Rattle.std.specs.Prelude.{◌≡◌, ◌≤◌, true};
ghost use Rattle.rx_base.specs.Faults.{Rose};
ghost use Rattle.links.specs.Links.{IsGone};
ghost use Rattle.port_link.specs.Stages.{gones_behind};
ghost use Rattle.port_link.specs.Standing.{IsWhole, Stands};

use crate::giving::give_present;
use crate::place::{Closing, Place, PortLimits, fresh_stages};
use crate::taking::next_event;
use links::{Given, Link, LinkEvent, LinkFault};
use ports::Port;
use rx_base::Conn;
use std::alloc::Global;

/// A link over a port that was bound. Its connections are numbered from 0, in the order in which they are accepted, and as many
/// of them as its limits say are served at the same time; after so many in all as they say it ends. Behind a stop no client is accepted
/// any more, and it ends once all are closed. It gives to each connection that isn't closed, and never answers `Refused` or `WriteFault`.
#[derive(Drop)]
pub struct PortLink<P: Port> {
    alloc: Global,
    port: P,
    limits: PortLimits,
    place: Place,
    handed: Option<(Conn, usize)>,
    takes: bool,
    gives: bool,
    gones: u64,
    ghost some: { 1 ≤ limits.at_once },
    ghost few: { limits.conns ≤ 4096 },
    ghost stands: { Stands (P.told port) (P.connections port) limits place },
    ghost whole: { gives ≡ true → IsWhole (P.told port) },
}

// One more, where a connection was gone.
fn gones_behind(gones: u64, answer: &Result<Given, LinkFault>) -> u64
    ensures { result ≡ gones_behind gones answer.now }
{
    match answer {
        Ok(Given::Gone(_)) => gones.saturating_add(1),
        _ => gones,
    }
}

impl<P: Port> PortLink<P> {
    ghost use Rattle.std.specs.Prelude.{[]};
    ghost use Rattle.links.specs.Seen.{IsFreshLink};
    ghost use Rattle.port_link.specs.PortLinks.{seen_of, port_of, limits_of, told_nothing};
    ghost use Rattle.port_link.specs.Standing.{IsJustBound};

    /// No connection was accepted. The port was bound, and no connection was accepted since. It takes no memory; `alloc` is for the
    /// pieces to come.
    pub fn make(alloc: Global, port: P, limits: PortLimits) -> PortLink<P>
        requires some { 1 ≤ limits.at_once }
        requires few { limits.conns ≤ 4096 }
        requires none { P.connections port ≡ [] }
        requires bound { IsJustBound (P.told port) }
        ensures shows { IsFreshLink (seen_of P.told P.faults result) }
        ensures told { (seen_of P.told P.faults result).told ≡ told_nothing (P.told port) }
        ensures port { port_of result ≡ port }
        ensures limits { limits_of result ≡ limits }
    {
        PortLink {
            alloc,
            port,
            limits,
            place: Place {
                stages: fresh_stages(),
                accepted: 0,
                closed: 0,
                closing: Closing::Nothing,
                ends: 0,
                stopped: false,
            },
            handed: None,
            takes: true,
            gives: true,
            gones: 0,
        }
    }
}

impl<P: Port> Link for PortLink<P> {
    ghost use Rattle.std.specs.Prelude.{◌<◌, ◌^◌, length};
    ghost use Rattle.links.specs.Seen.{NextShows, GiveShows};
    ghost use Rattle.port_link.specs.PortLinks.{seen_of, port_of, PortWent};
    ghost use Rattle.port_link.specs.PortLaws.{port_sound, port_same, port_on};

    ghost seen = { seen_of P.told P.faults };

    ghost sound = { port_sound P.told P.faults };

    ghost Went = { PortWent P.fixed P.told };

    ghost went_same = { port_same P.fixed P.told };

    ghost went_on = { port_on P.fixed P.told };

    /// Answers the close of a connection to which a give failed, if there is one. Else it waits for a client, where one may be
    /// accepted, or for a connection that can be read of, and answers the next connection, or the next bytes of that one, at most
    /// 4096. The end of its input is its close; so is a take that failed. A connection is closed when the event behind its close is
    /// asked for. A wait or an accept that fails is `ReadFault`.
    fn next(&mut self) -> Result<LinkEvent, LinkFault>
        requires { (seen_of P.told P.faults self.old).takes ≡ true }
        ensures shows { NextShows (seen_of P.told P.faults self.old) (seen_of P.told P.faults self.new) result }
        ensures went { PortWent P.fixed P.told self.old self.new }
    {
        let answer = next_event(self.alloc, &mut self.port, &mut self.place, self.limits);
        self.takes = answer.is_ok();
        answer
    }

    /// Gives a piece to a connection that isn't closed. Where a give fails, the connection is gone.
    #[tactic(auto, using(crate::proofs::ShowLemmas::given_below))]
    fn give(&mut self, conn: Conn, bytes: &[u8]) -> Result<Given, LinkFault>
        requires may { (seen_of P.told P.faults self.old).gives ≡ true }
        requires connected { (seen_of P.told P.faults self.old).gives_to conn ≡ true }
        requires some { 0 < length bytes.now }
        requires few { length bytes.now < 2 ^ 16 }
        ensures shows { GiveShows (seen_of P.told P.faults self.old) (seen_of P.told P.faults self.new) conn bytes.now result }
        ensures went { PortWent P.fixed P.told self.old self.new }
        ensures gone { IsGone result → Rose (P.connection_faults (port_of self.old)) (P.connection_faults (port_of self.new)) }
    {
        self.handed = Some((conn, bytes.len()));
        let answer = give_present(&mut self.port, &mut self.place, self.limits, conn, bytes);
        self.gones = gones_behind(self.gones, &answer);
        self.gives = answer.is_ok();
        answer
    }
}
