// An event that was taken from a link comes into the log and the ledger.
ghost use Rattle.std.specs.Prelude.{◌≡◌, ◌≢◌, IsTrue, OnOk, OnErr};
ghost use Rattle.item_log.specs.Connections.{in_order};
ghost use Rattle.link_gate.specs.Calls.{IsShown};
ghost use Rattle.link_gate.specs.Taking.{IsRefusedBy, IsNew, entered, LogsEvent, TakesIn, TakesOrEnds};

use crate::{HearFault, Heard};
use item_log::{ItemLog, ItemRefusal};
use links::LinkEvent;
use reply_ledger::Replies;
use std::alloc::AllocError;

// An event comes in; the end of the link is none.
pub(crate) fn take_or_end(
    event: &LinkEvent,
    log: &mut ItemLog,
    replies: &mut Replies,
    events: &mut u64,
    max_events: u64,
) -> Result<Heard, HearFault>
    requires in_order { IsTrue (in_order log.old.rests event.now) }
    requires unknown { IsNew event.now replies.old }
    ensures { TakesOrEnds event.now log.old log.new replies.old replies.new events.old events.new max_events result }
{
    match event {
        LinkEvent::Ends => Ok(Heard::Ends),
        _ => take_in(event, log, replies, events, max_events),
    }
}

// An event comes into the log, and into the ledger where it opens a connection.
fn take_in(
    event: &LinkEvent,
    log: &mut ItemLog,
    replies: &mut Replies,
    events: &mut u64,
    max_events: u64,
) -> Result<Heard, HearFault>
    requires in_order { IsTrue (in_order log.old.rests event.now) }
    requires counted { event.now ≢ LinkEvent.Ends }
    requires unknown { IsNew event.now replies.old }
    ensures { TakesIn event.now log.old log.new replies.old replies.new events.old events.new max_events result }
{
    match count_in(event, log, events, max_events) {
        Ok(()) => match open_in(event, replies) {
            Ok(()) => Ok(shown(event)),
            Err(AllocError) => Err(HearFault::Memory),
        },
        Err(fault) => Err(fault),
    }
}

// Logs an event where there may be one more, and counts it.
fn count_in(
    event: &LinkEvent,
    log: &mut ItemLog,
    events: &mut u64,
    max_events: u64,
) -> Result<(), HearFault>
    requires in_order { IsTrue (in_order log.old.rests event.now) }
    requires counted { event.now ≢ LinkEvent.Ends }
    ensures { LogsEvent event.now log.old log.new events.old events.new max_events result }
{
    if *events >= max_events {
        return Err(HearFault::LimitEvents);
    }
    match log.event(event) {
        Ok(()) => {
            *events += 1;
            Ok(())
        }
        Err(refusal) => Err(refused_by(refusal)),
    }
}

// Why an event wasn't logged.
fn refused_by(refusal: ItemRefusal) -> HearFault
    ensures { IsRefusedBy refusal result }
{
    match refusal {
        ItemRefusal::TooLong(conn) => HearFault::TooLong(conn),
        ItemRefusal::Items => HearFault::LimitItems,
        ItemRefusal::Memory => HearFault::Memory,
    }
}

// The ledger gets the connection that an event opens.
fn open_in(event: &LinkEvent, replies: &mut Replies) -> Result<(), AllocError>
    requires { IsNew event.now replies.old }
    ensures ok { OnOk result (replies.new ≡ entered event.now replies.old) }
    ensures err { OnErr result (replies.new ≡ replies.old) }
{
    match event {
        LinkEvent::Opens(conn) => replies.opens(*conn),
        LinkEvent::Piece(..) | LinkEvent::Closes(_) | LinkEvent::Settles | LinkEvent::Ends => Ok(
            (),
        ),
    }
}

// What an event was.
fn shown(event: &LinkEvent) -> Heard
    ensures { IsShown event.now result }
{
    match event {
        LinkEvent::Opens(_) | LinkEvent::Piece(_, _) => Heard::Items,
        LinkEvent::Closes(conn) => Heard::Closes(*conn),
        LinkEvent::Settles => Heard::Settles,
        LinkEvent::Ends => Heard::Ends,
    }
}
