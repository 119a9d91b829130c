// The items of a link.
ghost use Rattle.std.specs.Prelude.{◌≡◌, ◌≢◌, ℕ, ◌+◌, ◌≤◌, ◌<◌, [], Some, IsTrue, IfOk, OnOk, ◌↔◌, slice_get};
ghost use Rattle.item_log.specs.Connections.{is_open, in_order};
ghost use Rattle.item_log.specs.Log.{empty_log, received, item_at, number_in_connection, trimmed, logged, Logs, Shows, ShowsMore, ShowsStill, IsItemOf, IsNumberOf};
ghost use Rattle.item_log.specs.Taking.{Brings, HasReceived, Takes};
ghost use Rattle.item_log.specs.Watching.{IsMessageOf};

use crate::connections::Connections;
use crate::kept::{drop_front, push_bare, push_message, push_messages};
use crate::kinds::{CLOSED, CONNECTIONS, OPENED};
use crate::{ItemRefusal, counting};
use links::LinkEvent;
use msg_frame::Framing;
use rx_base::{Conn, Item};
use std::alloc::{AllocError, Global};
use std::collections::VecDeque;
use std::marker::Model;

/// The items of the events of a link, numbered from 0 in their order. It keeps those that weren't given up, the rests of the connections
/// that are open, and how many messages each connection had since it opened, among the items that were given up.
#[derive(Debug, Drop)]
pub struct ItemLog {
    alloc: Global,
    max_items: u64,
    first: u64,
    items: VecDeque<Item>,
    connections: Connections,
    counts: Vec<u64>,
}

impl Model for ItemLog {
    ghost use Rattle.std.specs.Prelude.{ℕ, ◌+◌, ◌^◌, ◌<◌, ◌≤◌, All, length};
    ghost use Rattle.item_log.specs.Log.{Log};

    ghost Value = { Log };

    ghost view = { λ l. record { framing = l.connections.framing; max_items = l.max_items; first = l.first; kept = l.items.items; rests = l.connections.rests; counts = l.counts.items } };

    ghost invariant = { λ l. (l.first + length l.items.items ≤ l.max_items) × (l.max_items < 2 ^ 64) × All (λ (count : ℕ). count ≤ l.first) l.counts.items };
}

impl ItemLog {
    /// A log at the start of a link whose pieces are cut so, for at most so many items.
    pub fn make(alloc: Global, framing: Framing, max_items: u64) -> Result<ItemLog, AllocError>
        ensures made { IfOk result (λ log. log ≡ empty_log framing max_items) }
        ensures shows { IfOk result (Shows framing []) }
    {
        Ok(ItemLog {
            alloc,
            max_items,
            first: 0,
            items: VecDeque::new(alloc),
            connections: Connections::make(alloc, framing)?,
            counts: vec![in alloc; 0; CONNECTIONS]?,
        })
    }

    /// How many items were received, with those that were given up.
    pub fn received(&self) -> u64
        ensures count { result ≡ received self.now }
        ensures most { result ≤ self.now.max_items }
    {
        self.first + self.items.len() as u64
    }

    /// The number of the oldest item that is kept, and of the next one where none is.
    pub fn first(&self) -> u64
        ensures { result ≡ self.now.first }
    {
        self.first
    }

    /// Whether a connection is open by the events so far.
    pub fn is_open(&self, conn: Conn) -> bool
        ensures { result ≡ is_open self.now.rests conn }
    {
        self.connections.is_open(conn)
    }

    /// The item of a number that was received and not given up.
    pub fn item(&self, number: u64) -> &Item
        requires kept { self.now.first ≤ number }
        requires there { number < received self.now }
        ensures item { item_at self.now number ≡ Some result.now }
        ensures of_events { IsItemOf self.now number result.now }
    {
        &self.items[(number - self.first) as usize]
    }

    /// The number among the messages of its connection of the item of a number that was received and not given up: how many messages
    /// the connection had since it opened, with this item. So the first message behind an open has 1.
    pub fn number_in_connection(&self, number: u64) -> u64
        requires kept { self.now.first ≤ number }
        requires there { number < received self.now }
        ensures number { result ≡ number_in_connection self.now number }
        ensures of_events { IsNumberOf self.now number result }
    {
        counting::number_at(
            self.counts.as_slice(),
            &self.items,
            (number - self.first) as usize,
        )
    }

    /// Gives the items before a number up. All others keep their numbers.
    pub fn trim(&mut self, before: u64)
        requires { before ≤ received self.old }
        ensures trimmed { self.new ≡ trimmed self.old before }
        ensures received { received self.new ≡ received self.old }
        ensures later { (number : ℕ) → self.new.first ≤ number → item_at self.new number ≡ item_at self.old number }
        ensures shows { ShowsStill self.old self.new }
    {
        if self.first < before {
            let count = (before - self.first) as usize;
            drop_front(&mut self.items, self.counts.as_mut_slice(), count);
            self.first = before;
        }
    }

    /// Logs one more event: an open and a close as items without bytes, and each message that a piece makes whole. A rest
    /// that is no whole message is dropped at the close. After an `Err` the log is as it was.
    pub fn event(&mut self, e: &LinkEvent) -> Result<(), ItemRefusal>
        requires in_order { IsTrue (in_order self.old.rests e.now) }
        requires counted { e.now ≢ LinkEvent.Ends }
        ensures logged { Logs self.old e.now self.new result }
        ensures shows { OnOk result (ShowsMore self.old e.now self.new) }
    {
        if let LinkEvent::Piece(conn, piece) = e {
            // Most pieces are one message, and need no list of messages.
            if self.connections.is_message(*conn, piece.as_slice()) {
                return self.put_message(*conn, piece.as_slice());
            }
        }
        let count = self.brings(e)?;
        if !self.has_room(count) {
            return Err(ItemRefusal::Items);
        }
        self.take(e, count)?;
        Ok(())
    }

    // How many items an event brings, if no message of it is too long.
    fn brings(&self, e: &LinkEvent) -> Result<usize, ItemRefusal>
        requires { IsTrue (in_order self.now.rests e.now) }
        ensures { Brings self.now e.now result }
    {
        match e {
            LinkEvent::Opens(_) | LinkEvent::Closes(_) => Ok(1),
            LinkEvent::Piece(conn, piece) => match self
                .connections
                .completes(*conn, piece.as_slice())
            {
                Some(count) => Ok(count),
                None => Err(ItemRefusal::TooLong(*conn)),
            },
            LinkEvent::Settles | LinkEvent::Ends => Ok(0),
        }
    }

    // Whether so many more items may be received.
    fn has_room(&self, count: usize) -> bool
        ensures { IsTrue result ↔ (received self.now + count ≤ self.now.max_items) }
    {
        count as u64 <= self.max_items - self.received()
    }

    // Takes an event that brings so many items, for which there is room.
    fn take(&mut self, e: &LinkEvent, count: usize) -> Result<(), AllocError>
        requires in_order { IsTrue (in_order self.old.rests e.now) }
        requires counted { e.now ≢ LinkEvent.Ends }
        requires brings { HasReceived (received self.old + count) (logged self.old e.now) }
        requires room { received self.old + count ≤ self.old.max_items }
        ensures { Takes self.old e.now self.new result }
    {
        match e {
            LinkEvent::Opens(conn) => self.open(*conn),
            LinkEvent::Piece(conn, piece) => self.put_messages(*conn, piece.as_slice(), count),
            LinkEvent::Closes(conn) => self.close(*conn),
            LinkEvent::Settles => Ok(()),
            LinkEvent::Ends => unreachable!(),
        }
    }

    fn open(&mut self, conn: Conn) -> Result<(), AllocError>
        requires in_order { IsTrue (in_order self.old.rests (LinkEvent.Opens conn)) }
        requires room { received self.old + 1 ≤ self.old.max_items }
        ensures { Takes self.old (LinkEvent.Opens conn) self.new result }
    {
        push_bare(self.alloc, &mut self.items, OPENED, conn)?;
        self.connections.open(conn);
        Ok(())
    }

    fn close(&mut self, conn: Conn) -> Result<(), AllocError>
        requires in_order { IsTrue (in_order self.old.rests (LinkEvent.Closes conn)) }
        requires room { received self.old + 1 ≤ self.old.max_items }
        ensures { Takes self.old (LinkEvent.Closes conn) self.new result }
    {
        push_bare(self.alloc, &mut self.items, CLOSED, conn)?;
        self.connections.close(conn);
        Ok(())
    }

    // Logs a piece that is one message.
    fn put_message(&mut self, conn: Conn, piece: &[u8]) -> Result<(), ItemRefusal>
        requires in_order { IsTrue (in_order self.old.rests (LinkEvent.Piece conn piece.now)) }
        requires message { IsMessageOf self.old.framing self.old.rests conn piece.now }
        ensures { Logs self.old (LinkEvent.Piece conn piece.now) self.new result }
    {
        if !self.has_room(1) {
            return Err(ItemRefusal::Items);
        }
        push_message(self.alloc, &mut self.items, conn, piece)?;
        Ok(())
    }

    fn put_messages(&mut self, conn: Conn, piece: &[u8], count: usize) -> Result<(), AllocError>
        requires in_order { IsTrue (in_order self.old.rests (LinkEvent.Piece conn piece.now)) }
        requires brings { HasReceived (received self.old + count) (logged self.old (LinkEvent.Piece conn piece.now)) }
        requires room { received self.old + count ≤ self.old.max_items }
        ensures { Takes self.old (LinkEvent.Piece conn piece.now) self.new result }
    {
        self.items.reserve(count)?;
        let Ok(messages) = self.connections.feed(conn, piece) else {
            return Err(AllocError);
        };
        push_messages(&mut self.items, conn, messages);
        Ok(())
    }
}
