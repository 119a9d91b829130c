// A link whose events are frames of a source, and whose pieces go out as frames of a sink.
use crate::reading::take_event;
use crate::refusal::{Refusal, refusal_in};
use crate::writing::write_frame;
use links::{ConnectionTable, Given, Link, LinkEvent, LinkFault};
use rx_base::Conn;
use rx_io::{Sink, Source};
use std::alloc::Global;

/// A link over a source and a sink. It gives to every connection below `CONNECTIONS` at all times, and never answers `Gone`. It takes
/// no byte behind the frame that it answers.
#[derive(Drop)]
pub struct TrunkLink<S, K> {
    alloc: Global,
    source: S,
    sink: K,
    table: ConnectionTable,
    took: u64,
    wrote: u64,
    handed: Option<(Conn, usize)>,
    takes: bool,
    refused: Option<Refusal>,
    gives: bool,
}

impl<S: Source, K: Sink> TrunkLink<S, K> {
    ghost use Rattle.std.specs.Prelude.{◌≡◌};
    ghost use Rattle.links.specs.Seen.{IsFreshLink};
    ghost use Rattle.trunk_wire.specs.TrunkLinks.{source_of, sink_of, seen_of, told_of, IsFreshTrunk};
    ghost use Rattle.trunk_wire.specs.Tellings.{told_nothing};

    /// No byte was taken and none was written. It takes no memory; `alloc` is for the payloads to come.
    pub fn make(alloc: Global, source: S, sink: K) -> TrunkLink<S, K>
        ensures fresh { IsFreshTrunk source sink result }
        ensures shows { IsFreshLink (seen_of S.told S.faults K.told K.faults result) }
        ensures told { told_of S.told K.told result ≡ told_nothing (S.told source) (K.told sink) }
    {
        TrunkLink {
            alloc,
            source,
            sink,
            table: ConnectionTable::new(),
            took: 0,
            wrote: 0,
            handed: None,
            takes: true,
            refused: None,
            gives: true,
        }
    }

    /// The source and the sink, as the link left them. Where they are references, a caller knows more of what is behind them if it
    /// drops the link.
    pub fn into_parts(self) -> (S, K)
        ensures source { result.0 ≡ source_of self }
        ensures sink { result.1 ≡ sink_of self }
    {
        let TrunkLink { source, sink, .. } = self;
        (source, sink)
    }
}

impl<S: Source, K: Sink> Link for TrunkLink<S, K> {
    ghost use Rattle.std.specs.Prelude.{◌≡◌, ◌<◌, ◌^◌, true, length};
    ghost use Rattle.links.specs.Seen.{NextShows, GiveShows};
    ghost use Rattle.trunk_wire.specs.TrunkLinks.{seen_of, NextTakes, GiveWrites, TrunkWent};
    ghost use Rattle.trunk_wire.specs.GoingLaws.{trunk_sound, trunk_same, trunk_on};

    ghost seen = { seen_of S.told S.faults K.told K.faults };

    ghost sound = { trunk_sound S.told S.faults K.told K.faults };

    ghost Went = { TrunkWent S.fixed S.told K.fixed K.told };

    ghost went_same = { trunk_same S.fixed S.told K.fixed K.told };

    ghost went_on = { trunk_on S.fixed S.told K.fixed K.told };

    /// Takes the next frame, and no byte behind it: at an event the whole frame, at a refused header its five bytes, at a frame
    /// that is cut short all that is left. After a fault of the source or want of memory a part of one frame was taken.
    fn next(&mut self) -> Result<LinkEvent, LinkFault>
        requires { (seen_of S.told S.faults K.told K.faults self.old).takes ≡ true }
        ensures shows { NextShows (seen_of S.told S.faults K.told K.faults self.old) (seen_of S.told S.faults K.told K.faults self.new) result }
        ensures went { TrunkWent S.fixed S.told K.fixed K.told self.old self.new }
        ensures frame { NextTakes S.told self.old self.new result }
    {
        let answer = take_event(
            self.alloc,
            &mut self.source,
            &mut self.took,
            &mut self.table,
        );
        self.takes = answer.is_ok();
        self.refused = refusal_in(&answer);
        answer
    }

    /// Gives a piece as one frame. After an `Err` a first part of the frame was written, perhaps none or all of it.
    fn give(&mut self, conn: Conn, bytes: &[u8]) -> Result<Given, LinkFault>
        requires may { (seen_of S.told S.faults K.told K.faults self.old).gives ≡ true }
        requires connected { (seen_of S.told S.faults K.told K.faults self.old).gives_to conn ≡ true }
        requires some { 0 < length bytes.now }
        requires few { length bytes.now < 2 ^ 16 }
        ensures shows { GiveShows (seen_of S.told S.faults K.told K.faults self.old) (seen_of S.told S.faults K.told K.faults self.new) conn bytes.now result }
        ensures went { TrunkWent S.fixed S.told K.fixed K.told self.old self.new }
        ensures frame { GiveWrites K.told self.old self.new conn bytes.now result }
    {
        self.handed = Some((conn, bytes.len()));
        let answer = write_frame(&mut self.sink, &mut self.wrote, conn, bytes);
        self.gives = answer.is_ok();
        answer
    }
}
