// The next event of a link comes into the log, and into the ledger where it opens a connection.
ghost use Rattle.std.specs.Prelude.{◌≡◌, ◌≢◌, List, length, None, OnErr};
ghost use Rattle.links.specs.declared.journal.Entry.{Entry};
ghost use Rattle.rx_base.specs.Sends.{Send};
ghost use Rattle.session_history.specs.Heeding.{Bounds, events_of};
ghost use Rattle.session_history.specs.Keeping.{KeepsReplies, KeepsItems, KeepsPhases};
ghost use Rattle.links.specs.declared.journal.LinkFault.TheVariants.{WriteFault};
ghost use Rattle.link_gate.specs.Taking.{IsFaultOf};
ghost use Rattle.link_gate.specs.Calls.{MayHear, HearsBy, HearsEvent, HearShows, KeepsHearing};

use crate::taking::take_or_end;
use crate::{HearFault, Heard};
use item_log::ItemLog;
use links::{Link, LinkEvent, LinkFault};
use reply_ledger::Replies;

/// Takes the next event of a link into the log, and into the ledger where it opens a connection. `events` counts the events so
/// far, of which there may be `max_events`. An event that is refused changes neither log nor ledger.
///
/// # Errors
///
/// `Refused` exactly where the link's grammar has no event there; `LimitEvents`, `TooLong` and `LimitItems` exactly by the first
/// of these causes that holds; `ReadFault` only where the link's count of failed takes rose; `Memory`, also behind an event
/// that was taken.
pub fn hear<K: Link>(
    link: &mut K,
    log: &mut ItemLog,
    replies: &mut Replies,
    events: &mut u64,
    max_events: u64,
) -> Result<Heard, HearFault>
    requires { MayHear log.old replies.old (K.seen link.old) events.old max_events }
    ensures hears { (bounds : Bounds) (entries : List Entry) (sends : List Send) → bounds.max_events ≡ max_events → events.old ≡ length (events_of bounds entries)
        → KeepsItems bounds entries log.old → KeepsReplies bounds entries None sends replies.old → KeepsPhases bounds entries (K.seen link.old).phases
        → HearsBy bounds entries sends log.new replies.new events.new (K.seen link.old) (K.seen link.new) result }
    ensures shows { HearShows (K.seen link.old) (K.seen link.new) replies.new result }
    ensures keeps { KeepsHearing log.old log.new replies.old replies.new events.old events.new max_events result }
    ensures went { K.Went link.old link.new }
{
    let mut event = LinkEvent::Ends;
    hear_into(link, log, replies, events, max_events, &mut event)
}

/// Takes the next event of a link as `hear` does. Where it was taken in, it stands in `event` then; at an error `event` stays as it was.
///
/// # Errors
///
/// As those of `hear`.
pub fn hear_into<K: Link>(
    link: &mut K,
    log: &mut ItemLog,
    replies: &mut Replies,
    events: &mut u64,
    max_events: u64,
    event: &mut LinkEvent,
) -> Result<Heard, HearFault>
    requires { MayHear log.old replies.old (K.seen link.old) events.old max_events }
    ensures hears { (bounds : Bounds) (entries : List Entry) (sends : List Send) → bounds.max_events ≡ max_events → events.old ≡ length (events_of bounds entries)
        → KeepsItems bounds entries log.old → KeepsReplies bounds entries None sends replies.old → KeepsPhases bounds entries (K.seen link.old).phases
        → HearsEvent bounds entries sends log.new replies.new events.new (K.seen link.old) (K.seen link.new) event.new result }
    ensures shows { HearShows (K.seen link.old) (K.seen link.new) replies.new result }
    ensures keeps { KeepsHearing log.old log.new replies.old replies.new events.old events.new max_events result }
    ensures left { OnErr result (event.new ≡ event.old) }
    ensures went { K.Went link.old link.new }
{
    match link.next() {
        Ok(next) => {
            let heard = take_or_end(&next, log, replies, events, max_events);
            if heard.is_ok() {
                *event = next;
            }
            heard
        }
        Err(fault) => Err(fault_of(fault)),
    }
}

// A fault of the link's next event as one of hearing it.
fn fault_of(fault: LinkFault) -> HearFault
    requires { fault ≢ WriteFault }
    ensures { IsFaultOf fault result }
{
    match fault {
        LinkFault::Refused { kind, offset } => HearFault::Refused { kind, offset },
        LinkFault::ReadFault => HearFault::ReadFault,
        LinkFault::WriteFault => unreachable!(),
        LinkFault::Memory => HearFault::Memory,
    }
}
