// A send of the guest is given to its connection.
ghost use Rattle.std.specs.Prelude.{◌≡◌};
ghost use Rattle.links.specs.Links.{Told};
ghost use Rattle.guest_image.specs.declared.image.Image.{Image};
ghost use Rattle.schedule_file.specs.declared.recorded.Recorded.{Recorded};
ghost use Rattle.replay.specs.Differing.{DiffersBy, Never};
ghost use Rattle.replay.specs.Giving.{IsLastSend};
ghost use Rattle.replay.specs.Playing.{stage_of, IsSending, StandsSending, TurnsBy, LinkTurns};

use crate::giver::Giver;
use crate::hearing::answer_to;
use crate::player::Player;
use links::{Given, Link};
use run_history::Answer;
use rx_base::{Bytes, Conn};

impl Player {
    // Gives what the guest has just sent, as one piece. Nothing is given to a connection that was found gone.
    pub(crate) fn send<K: Link, G: Giver<K>>(
        &mut self,
        giver: &G,
        link: &mut K,
        conn: Conn,
        bytes: &Bytes,
    ) -> Result<(), Answer>
        requires sends { StandsSending (K.seen link.old) conn bytes.now (stage_of self.old) }
        ensures sends { (image : Image) (recorded : Recorded) (began : Told) → IsSending image recorded began (K.seen link.old) conn bytes.now (stage_of self.old)
            → TurnsBy image recorded began (K.seen link.new) (IsLastSend began (K.seen link.old).told (G.Gave link.old link.new)) (stage_of self.new) result }
        ensures cpu { self.new.cpu ≡ self.old.cpu }
        ensures differs { DiffersBy Never self.old.difference self.new.difference result }
        ensures takes { (K.seen link.new).takes ≡ (K.seen link.old).takes }
        ensures link { LinkTurns (K.seen link.old) (K.seen link.new) result }
        ensures went { K.Went link.old link.new }
    {
        if self.gone.has(conn) {
            return Ok(());
        }
        match giver.give(link, conn, bytes.as_slice()) {
            Ok(Given::All) => Ok(()),
            Ok(Given::Gone(_)) => {
                self.gone.add(conn);
                Ok(())
            }
            Err(fault) => Err(answer_to(fault)),
        }
    }
}
