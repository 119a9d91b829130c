// Who gives the sends of a replay to a trunk.
use links::{Given, Link, LinkFault};
use replay::Giver;
use rx_base::Conn;
use rx_io::{Sink, Source};
use trunk_wire::TrunkLink;

/// Gives as a trunk does: a call writes a first part of the frame of its send, perhaps none of it, perhaps all.
#[derive(Clone, Copy, Debug)]
pub struct FrameGiver;

impl<S: Source, K: Sink> Giver<TrunkLink<S, K>> for FrameGiver {
    ghost use Rattle.trunk_wire.specs.Frames.{piece_frame};
    ghost use Rattle.trunk_wire.specs.TrunkLinks.{sink_of};
    ghost use Rattle.routes.specs.Replaying.{WritesFirst};

    ghost Gave = { λ old new conn bytes. WritesFirst (K.told (sink_of old)) (K.told (sink_of new)) (piece_frame conn bytes) };

    fn give(
        &self,
        link: &mut TrunkLink<S, K>,
        conn: Conn,
        bytes: &[u8],
    ) -> Result<Given, LinkFault> {
        link.give(conn, bytes)
    }
}
