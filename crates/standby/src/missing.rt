// What clients miss where a record ended is given.
ghost use Rattle.std.specs.Prelude.{◌≡◌, ◌<◌, List, length};
ghost use Rattle.links.specs.declared.journal.Entry.{Entry};
ghost use Rattle.links.specs.Links.{Told, events_in};
ghost use Rattle.schedule_file.specs.declared.recorded.Recorded.{Recorded};
ghost use Rattle.counts_file.specs.Counts.{count_of};
ghost use Rattle.replay.specs.Playing.{stage_of};
ghost use Rattle.standby.specs.Hearing.{HasHeard};
ghost use Rattle.standby.specs.Giving.{PassesBy, StandsHeard, KeepsGuest, LinkPasses};
ghost use Rattle.standby.specs.Following.{kept_to};
ghost use Rattle.standby.specs.Missing.{missing, missing_of};

use crate::follower::Follower;
use crate::kept::joined;
use counts_file::Counts;
use links::Link;
use run_history::Answer;
use rx_base::{CONNECTIONS, Conn};

impl Follower {
    // Gives what the clients of open connections miss, one connection after another, in rising order.
    pub(crate) fn give_missing<K: Link>(
        &mut self,
        counts: &Counts,
        link: &mut K,
    ) -> Result<(), Answer>
        requires stands { StandsHeard (K.seen link.old) (stage_of self.old.player) }
        ensures passes { (recorded : Recorded) (began : Told) (entries : List Entry) → HasHeard recorded began (K.seen link.old) entries (stage_of self.old.player)
            → PassesBy recorded began (K.seen link.new) entries (missing counts.now (events_in entries) (λ conn. kept_to conn self.old.kept.items)) (stage_of self.new.player) result }
        ensures keeps { KeepsGuest self.old self.new }
        ensures link { LinkPasses (K.seen link.old) (K.seen link.new) result }
        ensures went { K.Went link.old link.new }
    {
        'connections: for conn in 0..CONNECTIONS {
            if let Err(answer) = self.give_rest(conn, counts, link) {
                return Err(answer);
            }
        }
        Ok(())
    }

    // Gives what the client of a connection misses, if it is open.
    fn give_rest<K: Link>(
        &mut self,
        conn: Conn,
        counts: &Counts,
        link: &mut K,
    ) -> Result<(), Answer>
        requires stands { StandsHeard (K.seen link.old) (stage_of self.old.player) }
        requires low { conn < 4096 }
        ensures passes { (recorded : Recorded) (began : Told) (entries : List Entry) → HasHeard recorded began (K.seen link.old) entries (stage_of self.old.player)
            → PassesBy recorded began (K.seen link.new) entries (missing_of counts.now (events_in entries) (λ conn. kept_to conn self.old.kept.items) conn) (stage_of self.new.player) result }
        ensures keeps { KeepsGuest self.old self.new }
        ensures link { LinkPasses (K.seen link.old) (K.seen link.new) result }
        ensures went { K.Went link.old link.new }
    {
        if !self.player.log.is_open(conn) {
            return Ok(());
        }
        let Ok(all) = joined(self.player.alloc, self.kept.as_slice(), conn) else {
            return Err(Answer::Memory);
        };
        let bytes = all.as_slice();
        let (_, rest) = bytes.split_at((counts.of(conn) as usize).min(bytes.len()));
        self.pass_all(link, conn, rest)
    }
}
