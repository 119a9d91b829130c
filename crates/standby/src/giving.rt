// Pieces go to connections.
ghost use Rattle.std.specs.Prelude.{◌≡◌, ◌<◌, ◌≤◌, ◌^◌, ℕ, List, length, true};
ghost use Rattle.links.specs.declared.journal.Entry.{Entry};
ghost use Rattle.links.specs.Links.{Told, Open};
ghost use Rattle.schedule_file.specs.declared.recorded.Recorded.{Recorded};
ghost use Rattle.replay.specs.Playing.{stage_of};
ghost use Rattle.standby.specs.Hearing.{HasHeard};
ghost use Rattle.standby.specs.Giving.{PassesBy, MayPass, KeepsGuest, LinkPasses, one_send};
ghost use Rattle.standby.specs.Missing.{in_pieces};

use crate::follower::Follower;
use links::{Given, Link};
use replay::answer_to;
use run_history::Answer;
use rx_base::Conn;

// The most bytes of a piece.
const PIECE: usize = 65535;

impl Follower {
    // Gives bytes to a connection as one piece. Nothing is given to one that was found gone.
    pub(crate) fn pass<K: Link>(
        &mut self,
        link: &mut K,
        conn: Conn,
        bytes: &[u8],
    ) -> Result<(), Answer>
        requires may { MayPass (K.seen link.old) conn }
        requires some { 0 < length bytes.now }
        requires few { length bytes.now < 2 ^ 16 }
        ensures passes { (recorded : Recorded) (began : Told) (entries : List Entry) (stamp : ℕ) → HasHeard recorded began (K.seen link.old) entries (stage_of self.old.player)
            → PassesBy recorded began (K.seen link.new) entries (one_send conn bytes.now stamp) (stage_of self.new.player) result }
        ensures keeps { KeepsGuest self.old self.new }
        ensures link { LinkPasses (K.seen link.old) (K.seen link.new) result }
        ensures went { K.Went link.old link.new }
    {
        if self.player.gone.has(conn) {
            return Ok(());
        }
        match link.give(conn, bytes) {
            Ok(Given::All) => Ok(()),
            Ok(Given::Gone(_)) => {
                self.player.gone.add(conn);
                Ok(())
            }
            Err(fault) => Err(answer_to(fault)),
        }
    }

    // Gives bytes to a connection in pieces of 65,535 bytes, the last one the rest.
    pub(crate) fn pass_all<K: Link>(
        &mut self,
        link: &mut K,
        conn: Conn,
        bytes: &[u8],
    ) -> Result<(), Answer>
        requires may { MayPass (K.seen link.old) conn }
        ensures passes { (recorded : Recorded) (began : Told) (entries : List Entry) → HasHeard recorded began (K.seen link.old) entries (stage_of self.old.player)
            → PassesBy recorded began (K.seen link.new) entries (in_pieces conn bytes.now) (stage_of self.new.player) result }
        ensures keeps { KeepsGuest self.old self.new }
        ensures link { LinkPasses (K.seen link.old) (K.seen link.new) result }
        ensures went { K.Went link.old link.new }
    {
        let mut rest = bytes;
        'pieces: while !rest.is_empty() {
            let (piece, more) = rest.split_at(PIECE.min(rest.len()));
            if let Err(answer) = self.pass(link, conn, piece) {
                return Err(answer);
            }
            rest = more;
        }
        Ok(())
    }
}
