// A link in memory that plays a list of events, and of which certain calls fail.
ghost use Rattle.std.specs.Prelude.{◌≡◌, ◌^◌, ◌<◌, ◌≤◌, ◌+◌, ℕ, nat_lt, Option, Some, None, [], length, drop, true, Ok, IfOk};
ghost use Rattle.links.specs.Links.{Enters};
ghost use Rattle.links.specs.ConnectionTables.{phases_in, is_in_order};
ghost use Rattle.links.specs.MemoryLinks.{event_or_ends, gone_at, given_of, IsWithin, AnswersAs, taken_after, counts_in, counts_after_next, counts_after_give, after_taking, after_giving};

use crate::{ConnectionTable, Entry, Given, Link, LinkEvent, LinkFault};
use rx_base::{Bytes, Conn, Fails};
use std::alloc::{AllocError, Global};

// How often a link has failed to take and to give, and how often a connection was gone.
#[derive(Drop)]
struct LinkCounts {
    takes: u64,
    gives: u64,
    gones: u64,
}

/// A link that plays a list of events and keeps its journal. It gives to every connection below 4096 at all times.
#[derive(Drop)]
pub struct MemoryLink {
    alloc: Global,
    events: Vec<LinkEvent>,
    taken: usize,
    fails: Fails,
    gones: Vec<(u64, usize)>,
    table: ConnectionTable,
    journal: Vec<Entry>,
    handed: Option<(Conn, usize)>,
    takes: bool,
    gives: bool,
    counts: LinkCounts,
}

impl LinkCounts {
    // Counts the answer of a `next`.
    fn count_next(&mut self, answer: &Result<LinkEvent, LinkFault>)
        ensures { counts_in self.new ≡ counts_after_next (counts_in self.old) answer.now }
    {
        if let Err(LinkFault::ReadFault) = answer {
            self.takes = self.takes.saturating_add(1);
        }
    }

    // Counts the answer of a `give`.
    fn count_give(&mut self, answer: &Result<Given, LinkFault>)
        ensures { counts_in self.new ≡ counts_after_give (counts_in self.old) answer.now }
    {
        match answer {
            Err(LinkFault::WriteFault) => self.gives = self.gives.saturating_add(1),
            Ok(Given::Gone(_)) => self.gones = self.gones.saturating_add(1),
            _ => {}
        }
    }
}

// A copy of an event.
fn copy_event(alloc: Global, event: &LinkEvent) -> Result<LinkEvent, AllocError>
    ensures { IfOk result (λ copy. copy ≡ event.now) }
{
    match event {
        LinkEvent::Opens(conn) => Ok(LinkEvent::Opens(*conn)),
        LinkEvent::Piece(conn, bytes) => {
            let copy = bytes.as_slice().to_vec(alloc)?;
            Ok(LinkEvent::Piece(*conn, Bytes::from_vec(copy)))
        }
        LinkEvent::Closes(conn) => Ok(LinkEvent::Closes(*conn)),
        LinkEvent::Settles => Ok(LinkEvent::Settles),
        LinkEvent::Ends => Ok(LinkEvent::Ends),
    }
}

// A copy of the event at a place, or `Ends` where there is none.
fn copy_at(alloc: Global, events: &[LinkEvent], place: usize) -> Result<LinkEvent, AllocError>
    ensures { IfOk result (λ copy. copy ≡ event_or_ends (drop place events.now)) }
{
    match events.get(place) {
        Some(event) => copy_event(alloc, event),
        None => Ok(LinkEvent::Ends),
    }
}

// Whether the event at a place is in order, as `Ends` is.
fn is_in_order_at(table: &ConnectionTable, events: &[LinkEvent], place: usize) -> bool
    ensures { result ≡ is_in_order (phases_in table.now) (event_or_ends (drop place events.now)) }
{
    match events.get(place) {
        Some(event) => table.is_in_order(event),
        None => true,
    }
}

// Takes the next event: it is noted in the journal and answered, and its connection's phase changes.
fn take_next(
    alloc: Global,
    events: &[LinkEvent],
    taken: &mut usize,
    table: &mut ConnectionTable,
    journal: &mut Vec<Entry>,
) -> Result<LinkEvent, LinkFault>
    requires { is_in_order (phases_in table.old) (event_or_ends (drop taken.old events.now)) ≡ true }
    ensures answer { AnswersAs (Ok (event_or_ends (drop taken.old events.now))) result }
    ensures taken { taken.new ≡ taken_after (length events.now) taken.old result }
    ensures order { Enters (phases_in table.old) (phases_in table.new) result }
    ensures journal { journal.new.items ≡ after_taking journal.old.items result }
{
    let Ok(event) = copy_at(alloc, events, *taken) else {
        return Err(LinkFault::Memory);
    };
    let Ok(noted) = copy_at(alloc, events, *taken) else {
        return Err(LinkFault::Memory);
    };
    let Ok(()) = journal.push(Entry::Took(noted)) else {
        return Err(LinkFault::Memory);
    };
    table.enter(&event);
    match &event {
        LinkEvent::Ends => {}
        _ => {
            if *taken < events.len() {
                *taken += 1;
            }
        }
    }
    Ok(event)
}

// What a give of so many bytes finds at this call: the connection gone, or not.
fn given_at(call: u64, gones: &[(u64, usize)], len: usize) -> Given
    ensures given { result ≡ given_of len (gone_at call gones.now) }
    ensures within { IsWithin len result }
{
    'gones: for gone in gones {
        if gone.0 == call {
            return Given::Gone(gone.1.min(len));
        }
    }
    Given::All
}

// Notes a piece in the journal, or as much of it as went out.
fn note_given(
    alloc: Global,
    journal: &mut Vec<Entry>,
    conn: Conn,
    bytes: &[u8],
    given: Given,
) -> Result<Given, LinkFault>
    requires { IsWithin (length bytes.now) given }
    ensures answer { AnswersAs (Ok given) result }
    ensures journal { journal.new.items ≡ after_giving conn bytes.now journal.old.items result }
{
    let (went, gone) = match given {
        Given::All => (bytes, false),
        Given::Gone(count) => (bytes.split_at(count).0, true),
    };
    let Ok(copy) = went.to_vec(alloc) else {
        return Err(LinkFault::Memory);
    };
    let bytes = Bytes::from_vec(copy);
    match journal.push(Entry::Gave { conn, bytes, gone }) {
        Ok(()) => Ok(given),
        Err(_) => Err(LinkFault::Memory),
    }
}

impl MemoryLink {
    ghost use Rattle.std.specs.Prelude.{◌≡◌, [], length};
    ghost use Rattle.links.specs.Links.{Enters};
    ghost use Rattle.links.specs.Seen.{IsFreshLink, no_faults};
    ghost use Rattle.links.specs.MemoryLinks.{first_script, seen_in, link_script, link_journal, link_phases, planned_next, planned_give, AnswersAs, after_next, after_script_call, after_taking, after_giving};

    /// Plays these events and then answers `Ends`. Calls of `next` and `give` are counted together from 1. The calls whose
    /// numbers are in `fails` answer `ReadFault` or `WriteFault`, and no byte goes out. The gives whose numbers are in
    /// `gones` answer `Gone` with the number that stands beside it, or the piece's length where that is less.
    pub fn make(
        alloc: Global,
        events: Vec<LinkEvent>,
        fails: Vec<u64>,
        gones: Vec<(u64, usize)>,
    ) -> MemoryLink
        ensures script { link_script result ≡ first_script events.items fails.items gones.items }
        ensures journal { link_journal result ≡ [] }
        ensures fresh { IsFreshLink (seen_in result) }
        ensures counts { (seen_in result).counts ≡ no_faults }
    {
        MemoryLink {
            alloc,
            events,
            taken: 0,
            fails: Fails::make(fails),
            gones,
            table: ConnectionTable::new(),
            journal: Vec::new(alloc),
            handed: None,
            takes: true,
            gives: true,
            counts: LinkCounts {
                takes: 0,
                gives: 0,
                gones: 0,
            },
        }
    }

    /// The events taken, `Ends` among them, and the pieces given, in order.
    pub fn journal(&self) -> &[Entry]
        ensures { result.now ≡ link_journal self.now }
    {
        &self.journal
    }

    // The answer of a `next`, before its fault is counted.
    fn play_next(&mut self) -> Result<LinkEvent, LinkFault>
        ensures answer { AnswersAs (planned_next (link_phases self.old) (link_script self.old)) result }
        ensures script { link_script self.new ≡ after_next (link_script self.old) result }
        ensures order { Enters (link_phases self.old) (link_phases self.new) result }
        ensures journal { link_journal self.new ≡ after_taking (link_journal self.old) result }
        ensures counts { self.new.counts ≡ self.old.counts }
        ensures handed { self.new.handed ≡ self.old.handed }
        ensures gives { self.new.gives ≡ self.old.gives }
    {
        if self.fails.call_fails() {
            return Err(LinkFault::ReadFault);
        }
        if !is_in_order_at(&self.table, &self.events, self.taken) {
            return Err(LinkFault::Refused {
                kind: 4,
                offset: self.taken as u64,
            });
        }
        take_next(
            self.alloc,
            &self.events,
            &mut self.taken,
            &mut self.table,
            &mut self.journal,
        )
    }

    // The answer of a `give`, before its fault is counted.
    fn play_give(&mut self, conn: Conn, bytes: &[u8]) -> Result<Given, LinkFault>
        ensures answer { AnswersAs (planned_give (length bytes.now) (link_script self.old)) result }
        ensures script { link_script self.new ≡ after_script_call (link_script self.old) }
        ensures journal { link_journal self.new ≡ after_giving conn bytes.now (link_journal self.old) result }
        ensures table { self.new.table ≡ self.old.table }
        ensures counts { self.new.counts ≡ self.old.counts }
        ensures handed { self.new.handed ≡ self.old.handed }
        ensures takes { self.new.takes ≡ self.old.takes }
    {
        if self.fails.call_fails() {
            return Err(LinkFault::WriteFault);
        }
        let given = given_at(self.fails.calls(), &self.gones, bytes.len());
        note_given(self.alloc, &mut self.journal, conn, bytes, given)
    }
}

impl Link for MemoryLink {
    ghost use Rattle.std.specs.Prelude.{◌≡◌, ◌<◌, ◌^◌, true, length};
    ghost use Rattle.links.specs.Seen.{NextShows, GiveShows};
    ghost use Rattle.links.specs.MemoryLinks.{seen_in, PlaysNext, PlaysGive, MemoryWent};
    ghost use Rattle.links.specs.MemoryLaws.{memory_sound, memory_same, memory_on};

    ghost seen = { seen_in };

    ghost sound = { memory_sound };

    ghost Went = { MemoryWent };

    ghost went_same = { memory_same };

    ghost went_on = { memory_on };

    /// Takes the next event of the list, or `Ends` behind its last. An event that isn't in order for its connection, or whose
    /// connection is 4096 or above, is refused by kind 4 with its place in the list, counted from 0. `Ends` isn't gone past.
    fn next(&mut self) -> Result<LinkEvent, LinkFault>
        requires { (seen_in self.old).takes ≡ true }
        ensures shows { NextShows (seen_in self.old) (seen_in self.new) result }
        ensures went { MemoryWent self.old self.new }
        ensures plays { PlaysNext self.old self.new result }
    {
        let answer = self.play_next();
        self.counts.count_next(&answer);
        self.takes = answer.is_ok();
        answer
    }

    /// Gives a piece, as the call's number has it.
    fn give(&mut self, conn: Conn, bytes: &[u8]) -> Result<Given, LinkFault>
        requires may { (seen_in self.old).gives ≡ true }
        requires connected { (seen_in self.old).gives_to conn ≡ true }
        requires some { 0 < length bytes.now }
        requires few { length bytes.now < 2 ^ 16 }
        ensures shows { GiveShows (seen_in self.old) (seen_in self.new) conn bytes.now result }
        ensures went { MemoryWent self.old self.new }
        ensures plays { PlaysGive self.old self.new conn bytes.now result }
    {
        self.handed = Some((conn, bytes.len()));
        let answer = self.play_give(conn, bytes);
        self.counts.count_give(&answer);
        self.gives = answer.is_ok();
        answer
    }
}
