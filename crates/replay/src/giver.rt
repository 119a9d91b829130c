// Who gives the sends of a replay to its link.
ghost use Rattle.std.specs.Prelude.{◌≡◌, ◌^◌, ◌<◌, ℕ, true, List, length};
ghost use Rattle.links.specs.Seen.{GiveShows};

use links::{Given, Link, LinkFault};
use rx_base::Conn;

/// Gives a send to a link. Its one call is a `give` of the link, of which more may be known than each link says.
pub trait Giver<K: Link> {
    /// What is known of a call besides: a relation between the link before and after, by connection and bytes.
    ghost Gave: { K → K → ℕ → List ℕ → Type 0 };

    /// Gives 1 to 65,535 bytes to a connection, as `give` of a link does.
    fn give(&self, link: &mut K, conn: Conn, bytes: &[u8]) -> Result<Given, LinkFault>
        requires may { (K.seen link.old).gives ≡ true }
        requires connected { (K.seen link.old).gives_to conn ≡ true }
        requires some { 0 < length bytes.now }
        requires few { length bytes.now < 2 ^ 16 }
        ensures shows { GiveShows (K.seen link.old) (K.seen link.new) conn bytes.now result }
        ensures gave { Gave link.old link.new conn bytes.now }
        ensures went { K.Went link.old link.new };
}

/// Gives as each link does: where the link tells its pieces, this one is the one that it was handed last.
#[derive(Clone, Copy, Debug)]
pub struct AnyGiver;

impl<K: Link> Giver<K> for AnyGiver {
    ghost use Rattle.replay.specs.Giving.{WasHanded};

    ghost Gave = { WasHanded K.seen };

    fn give(&self, link: &mut K, conn: Conn, bytes: &[u8]) -> Result<Given, LinkFault> {
        link.give(conn, bytes)
    }
}
