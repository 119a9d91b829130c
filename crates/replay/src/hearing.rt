// The next event of a link comes into the log.
ghost use Rattle.std.specs.Prelude.{◌≡◌, ◌≢◌, ◌<◌, ◌≤◌, IsTrue, IfOk};
ghost use Rattle.links.specs.Links.{Told};
ghost use Rattle.guest_image.specs.declared.image.Image.{Image};
ghost use Rattle.schedule_file.specs.declared.recorded.Recorded.{Recorded};
ghost use Rattle.item_log.specs.Connections.{in_order};
ghost use Rattle.item_log.specs.Log.{received};
ghost use Rattle.replay.specs.Differing.{DiffersBy, IsInputEnd, Never};
ghost use Rattle.replay.specs.Hearing.{answer_of, refusal_answer, LogsEvent, HeedsEvent};
ghost use Rattle.replay.specs.Playing.{stage_of, IsWaiting, StandsWaiting, WaitsBy, LinkHears, CountsEvent};

use crate::difference::Difference;
use crate::player::Player;
use item_log::ItemRefusal;
use links::{Link, LinkEvent, LinkFault};
use run_history::Answer;

// The most events that a session may have.
const MAX_EVENTS: u64 = 1 << 32;

/// A fault of a link as an answer.
pub fn answer_to(fault: LinkFault) -> Answer
    ensures { result ≡ answer_of fault }
{
    match fault {
        LinkFault::Refused { kind, offset } => Answer::InputRefused { kind, offset },
        LinkFault::ReadFault => Answer::ReadFault,
        LinkFault::WriteFault => Answer::WriteFault,
        LinkFault::Memory => Answer::Memory,
    }
}

// Why an event wasn't logged, as an answer.
fn refused_by(refusal: ItemRefusal) -> Answer
    ensures { result ≡ refusal_answer refusal }
{
    match refusal {
        ItemRefusal::TooLong(conn) => Answer::MessageTooLong { conn },
        ItemRefusal::Items => Answer::LimitItems,
        ItemRefusal::Memory => Answer::Memory,
    }
}

impl Player {
    // Hears the link until the item is there that the guest asks for.
    pub(crate) fn await_item<K: Link>(&mut self, link: &mut K) -> Result<(), Answer>
        requires waits { (recorded : Recorded) × StandsWaiting recorded (K.seen link.old) (stage_of self.old) }
        ensures hears { (image : Image) (recorded : Recorded) (began : Told) → IsWaiting image recorded began (K.seen link.old) (stage_of self.old)
            → WaitsBy image recorded began (K.seen link.new) (stage_of self.new) result }
        ensures there { IfOk result (λ _. self.new.cpu.slots.live.guest.machine.taken < received self.new.log) }
        ensures cpu { self.new.cpu ≡ self.old.cpu }
        ensures differs { DiffersBy IsInputEnd self.old.difference self.new.difference result }
        ensures link { LinkHears (K.seen link.old) (K.seen link.new) result }
        ensures went { K.Went link.old link.new }
    {
        'waits: while self.log.received() <= self.cpu.marks().taken {
            if let Err(answer) = self.hear(link) {
                return Err(answer);
            }
        }
        Ok(())
    }

    // Takes the next event, while the guest asks for an item that isn't received yet.
    fn hear<K: Link>(&mut self, link: &mut K) -> Result<(), Answer>
        requires waits { (recorded : Recorded) × StandsWaiting recorded (K.seen link.old) (stage_of self.old) }
        requires none_left { received self.old.log ≤ self.old.cpu.slots.live.guest.machine.taken }
        ensures hears { (image : Image) (recorded : Recorded) (began : Told) → IsWaiting image recorded began (K.seen link.old) (stage_of self.old)
            → WaitsBy image recorded began (K.seen link.new) (stage_of self.new) result }
        ensures counts { CountsEvent self.old self.new result }
        ensures differs { DiffersBy IsInputEnd self.old.difference self.new.difference result }
        ensures link { LinkHears (K.seen link.old) (K.seen link.new) result }
        ensures went { K.Went link.old link.new }
    {
        match link.next() {
            Ok(event) => self.heed(&event),
            Err(fault) => Err(answer_to(fault)),
        }
    }

    // An event comes in; the end of the link is none.
    fn heed(&mut self, event: &LinkEvent) -> Result<(), Answer>
        requires in_order { IsTrue (in_order self.old.log.rests event.now) }
        ensures heeds { HeedsEvent event.now (stage_of self.old) (stage_of self.new) result }
        ensures cpu { self.new.cpu ≡ self.old.cpu }
        ensures differs { DiffersBy IsInputEnd self.old.difference self.new.difference result }
    {
        match event {
            LinkEvent::Ends => {
                self.difference = Some(Difference::InputEnded);
                Err(self.mismatch())
            }
            _ => self.note(event),
        }
    }

    /// Logs and counts an event, where there may be one more.
    pub fn note(&mut self, event: &LinkEvent) -> Result<(), Answer>
        requires in_order { IsTrue (in_order self.old.log.rests event.now) }
        requires counted { event.now ≢ LinkEvent.Ends }
        ensures logs { LogsEvent event.now (stage_of self.old) (stage_of self.new) result }
        ensures cpu { self.new.cpu ≡ self.old.cpu }
        ensures differs { DiffersBy Never self.old.difference self.new.difference result }
    {
        if self.events >= MAX_EVENTS {
            return Err(Answer::LimitEvents);
        }
        match self.log.event(event) {
            Ok(()) => {
                self.events += 1;
                Ok(())
            }
            Err(refusal) => Err(refused_by(refusal)),
        }
    }
}
