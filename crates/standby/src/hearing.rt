// The next events of a link come into the log, while the run waits for an item.
ghost use Rattle.std.specs.Prelude.{◌≡◌, ◌<◌, ◌≤◌, List, IsTrue, IfOk};
ghost use Rattle.links.specs.declared.journal.Entry.{Entry};
ghost use Rattle.links.specs.Links.{Told};
ghost use Rattle.schedule_file.specs.declared.recorded.Recorded.{Recorded};
ghost use Rattle.item_log.specs.Connections.{in_order};
ghost use Rattle.item_log.specs.Log.{received};
ghost use Rattle.replay.specs.Playing.{stage_of, LinkHears, CountsEvent};
ghost use Rattle.standby.specs.Hearing.{HasHeard, HearsBy, MayHear, HearsEvent, KeepsRun};

use crate::follower::Follower;
use links::{Link, LinkEvent};
use replay::answer_to;
use run_history::Answer;

impl Follower {
    // Hears the link until the item is there that the guest asks for. `Finished`: the link has ended.
    pub(crate) fn await_item<K: Link>(&mut self, link: &mut K) -> Result<(), Answer>
        requires may { MayHear (K.seen link.old) (stage_of self.old.player) }
        ensures hears { (recorded : Recorded) (began : Told) (entries : List Entry) → HasHeard recorded began (K.seen link.old) entries (stage_of self.old.player)
            → HearsBy recorded began (K.seen link.new) entries self.old.player.cpu.slots.live.guest.machine.taken (stage_of self.new.player) result }
        ensures there { IfOk result (λ _. self.new.player.cpu.slots.live.guest.machine.taken < received self.new.player.log) }
        ensures keeps { KeepsRun self.old self.new }
        ensures link { LinkHears (K.seen link.old) (K.seen link.new) result }
        ensures went { K.Went link.old link.new }
    {
        'waits: while self.player.log.received() <= self.player.cpu.marks().taken {
            if let Err(answer) = self.hear(link) {
                return Err(answer);
            }
        }
        Ok(())
    }

    // Takes the next event, while the guest asks for an item that isn't received yet.
    fn hear<K: Link>(&mut self, link: &mut K) -> Result<(), Answer>
        requires may { MayHear (K.seen link.old) (stage_of self.old.player) }
        requires none_left { received self.old.player.log ≤ self.old.player.cpu.slots.live.guest.machine.taken }
        ensures hears { (recorded : Recorded) (began : Told) (entries : List Entry) → HasHeard recorded began (K.seen link.old) entries (stage_of self.old.player)
            → HearsBy recorded began (K.seen link.new) entries self.old.player.cpu.slots.live.guest.machine.taken (stage_of self.new.player) result }
        ensures counts { CountsEvent self.old.player self.new.player result }
        ensures keeps { KeepsRun self.old self.new }
        ensures link { LinkHears (K.seen link.old) (K.seen link.new) result }
        ensures went { K.Went link.old link.new }
    {
        match link.next() {
            Ok(event) => self.heed(&event),
            Err(fault) => Err(answer_to(fault)),
        }
    }

    // An event comes in; the end of the link is none.
    fn heed(&mut self, event: &LinkEvent) -> Result<(), Answer>
        requires in_order { IsTrue (in_order self.old.player.log.rests event.now) }
        ensures hears { HearsEvent event.now (stage_of self.old.player) (stage_of self.new.player) result }
        ensures keeps { KeepsRun self.old self.new }
    {
        match event {
            LinkEvent::Ends => Err(Answer::Finished),
            _ => self.player.note(event),
        }
    }
}
