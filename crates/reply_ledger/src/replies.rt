// The sends of a survivor and of a trial, and what was passed of them.
ghost use Rattle.std.specs.Prelude.{◌≡◌, ℕ, ◌+◌, ◌-◌, ◌<◌, ◌≤◌, ◌↔◌, true, None, Some, IsNone, IsSome, List, [], ◌∷◌, ◌++◌, length, take, drop, IfOk, OnOk, OnErr, IsTrue};
ghost use Rattle.std.specs.Option.{option_map, option_copied};
ghost use Rattle.rx_base.specs.Sends.{Send, sent_to};
ghost use Rattle.reply_ledger.specs.Ledger.{Ledger, no_replies, connection_of, IsOpened, is_open, passed_to, stamped_to, changed, new_connection, closed_connection, gone_connection, bytes_of, NotBefore, times_of, stamps_of, with_send, with_passed, with_connection, with_change};
ghost use Rattle.reply_ledger.specs.Parts.{next_part, rest_part, shown_part};
ghost use Rattle.reply_ledger.specs.Trials.{agree, trial_sends, with_trial_send, begun, adopted, discarded, Agrees, Covers, CoversBefore};
ghost use Rattle.reply_ledger.specs.Trimming.{trimmed, IsLawful};

use crate::account::give_room_back;
use crate::accounts;
use crate::accounts::Accounts;
use crate::comparing::compare;
use crate::entry::{Entry, part_of, rest_of};
use crate::sends::{drop_oldest, first_of_more, first_waiting, first_with_rest, recount, reserve};
use indexmap::IndexMap;
use rx_base::{Bytes, Conn};
use std::alloc::{AllocError, Global};
use std::collections::VecDeque;
use std::marker::Model;

/// What a survivor and a trial sent to each connection, and what was passed of it.
///
/// The survivor's sends are numbered from 0. A trial begins with the survivor's first ones; its sends are compared with what was
/// passed, and it becomes the survivor by `adopt`. A count that would pass 2^64 answers `AllocError`, as want of memory does.
#[derive(Debug, Drop)]
pub struct Replies {
    alloc: Global,
    first: u64,
    sends: VecDeque<Entry>,
    next: usize,
    shared: Option<usize>,
    own: VecDeque<Entry>,
    seen: usize,
    accounts: Accounts,
}

impl Model for Replies {
    ghost use Rattle.std.specs.VecDeque.{deque_capacity};
    ghost use Rattle.std.specs.Map.{keys_of};
    ghost use Rattle.reply_ledger.specs.Ledger.{Ledger};
    ghost use Rattle.reply_ledger.specs.Accounts.{account_at};
    ghost use Rattle.reply_ledger.specs.Entries.{sends_of};
    ghost use Rattle.reply_ledger.specs.Inside.{Holds, connections_of, ledger_of};

    ghost Value = { Ledger };

    ghost view = { λ r. ledger_of r.first r.sends.items r.own.items r.shared (connections_of (sends_of r.sends.items) (account_at r.accounts.entries) (keys_of r.accounts.entries)) };

    ghost invariant = { λ r. Holds (account_at r.accounts.entries) (keys_of r.accounts.entries) r.sends.items r.own.items (deque_capacity r.sends) r.shared r.next };
}

impl Replies {
    /// What holds of every ledger, for whoever proves something of one. It does nothing.
    pub fn sound(&self)
        ensures lawful { IsLawful self.now }
    {
        let _first = self.first;
    }

    /// Nothing sent, and no connection.
    #[tactic(auto, unfolding(crate::specs::Inside::connections_of, crate::specs::Entries::sends_of))]
    pub fn make(alloc: Global) -> Result<Replies, AllocError>
        ensures { IfOk result (λ replies. replies ≡ no_replies) }
    {
        Ok(Replies {
            alloc,
            first: 0,
            sends: VecDeque::new(alloc),
            next: 0,
            shared: None,
            own: VecDeque::new(alloc),
            seen: 0,
            accounts: IndexMap::new(alloc),
        })
    }

    /// Opens a connection that wasn't opened before.
    #[tactic(auto, using(crate::proofs::StandsLemmas::opening))]
    pub fn opens(&mut self, conn: Conn) -> Result<(), AllocError>
        requires { connection_of self.old.connections conn ≡ None }
        ensures ok { OnOk result (self.new ≡ with_connection self.old conn) }
        ensures err { OnErr result (self.new ≡ self.old) }
    {
        accounts::open(&mut self.accounts, self.alloc, conn)?;
        Ok(())
    }

    /// Marks a connection closed. Nothing more is due on it.
    #[tactic(auto, using(crate::proofs::StandsLemmas::changing))]
    pub fn closes(&mut self, conn: Conn)
        requires { IsOpened self.old conn }
        ensures { self.new ≡ with_change self.old conn closed_connection }
    {
        accounts::close(&mut self.accounts, conn);
        self.next = first_waiting(&self.sends, &self.accounts, self.next);
    }

    /// Marks a connection gone: its link takes nothing more.
    #[tactic(auto, using(crate::proofs::StandsLemmas::changing))]
    pub fn gone(&mut self, conn: Conn)
        requires { IsOpened self.old conn }
        ensures { self.new ≡ with_change self.old conn gone_connection }
    {
        accounts::leave(&mut self.accounts, conn);
        self.next = first_waiting(&self.sends, &self.accounts, self.next);
    }

    /// Whether a connection was opened, wasn't closed, and isn't gone.
    #[tactic(auto, using(crate::proofs::StandsLemmas::opened))]
    pub fn is_open(&self, conn: Conn) -> bool
        ensures { result ≡ is_open self.now.connections conn }
    {
        accounts::is_open(&self.accounts, conn)
    }

    /// A send of the survivor, made with so many items taken. After an `Err` the handed bytes are given up.
    #[tactic(auto, using(crate::proofs::StandsLemmas::sending))]
    pub fn sent(&mut self, conn: Conn, bytes: Bytes, taken: u64) -> Result<(), AllocError>
        requires opened { IsOpened self.old conn }
        requires nonempty { 0 < length bytes }
        requires survivor { self.old.trial ≡ None }
        requires later { NotBefore taken (times_of self.old.kept) }
        ensures ok { OnOk result (self.new ≡ with_send self.old (record { conn = conn; bytes = bytes; taken = taken })) }
        ensures err { OnErr result (self.new ≡ self.old) }
    {
        reserve(&mut self.sends, 1)?;
        let count = bytes.as_slice().len() as u64;
        let Some(place) = accounts::send(&mut self.accounts, conn, count) else {
            return Err(AllocError);
        };
        self.sends.push_back_reserved(Entry {
            conn,
            bytes,
            taken,
            end: place.0,
        });
        self.next = first_of_more(self.next, self.sends.len(), place.1);
        Ok(())
    }

    /// A trial begins: its sends are the survivor's first so many.
    #[tactic(auto, using(crate::proofs::StandsLemmas::sending))]
    pub fn begin_trial(&mut self, sends: u64)
        requires survivor { self.old.trial ≡ None }
        requires kept { self.old.first ≤ sends }
        requires within { sends ≤ self.old.first + length self.old.kept }
        ensures begun { self.new ≡ begun self.old sends }
        ensures agrees { Agrees self.new }
    {
        let shared = (sends - self.first) as usize;
        recount(&mut self.accounts, &self.sends, shared);
        self.own.clear();
        self.seen = shared;
        self.shared = Some(shared);
    }

    /// A send of the trial, made with so many items taken: whether it differs at no place from what was passed. After an `Err` the handed
    /// bytes are given up.
    pub fn trial_sent(&mut self, conn: Conn, bytes: Bytes, taken: u64) -> Result<bool, AllocError>
        requires opened { IsOpened self.old conn }
        requires nonempty { 0 < length bytes }
        requires trial { IsSome self.old.trial }
        requires later { NotBefore taken (times_of (trial_sends self.old)) }
        ensures sent { OnOk result (self.new ≡ with_trial_send self.old (record { conn = conn; bytes = bytes; taken = taken })) }
        ensures compared { IfOk result (λ same. same ≡ agree bytes (drop (length (sent_to conn (trial_sends self.old))) (passed_to self.old conn))) }
        ensures agrees { IfOk result (λ same. same ≡ true → Agrees self.old → Agrees self.new) }
        ensures err { OnErr result (self.new ≡ self.old) }
    {
        let count = bytes.as_slice().len() as u64;
        let Some(end) = accounts::end(&self.accounts, conn).checked_add(count) else {
            return Err(AllocError);
        };
        let same = compare(
            &self.accounts,
            &self.sends,
            self.seen,
            conn,
            bytes.as_slice(),
        );
        reserve(&mut self.sends, self.own.len() + 1)?;
        self.own.push_back(Entry {
            conn,
            bytes,
            taken,
            end,
        })?;
        accounts::set_end(&mut self.accounts, conn, end);
        self.seen = same.unwrap_or(self.seen);
        Ok(same.is_some())
    }

    /// Whether the trial sends each passed byte, those of closed and gone connections too.
    pub fn covers(&self) -> bool
        requires trial { IsSome self.now.trial }
        requires agrees { Agrees self.now }
        ensures { IsTrue result ↔ Covers self.now }
    {
        accounts::covers(&self.accounts)
    }

    /// The same for the bytes that were passed with so many items received, or fewer.
    pub fn covers_before(&self, item: u64) -> bool
        requires trial { IsSome self.now.trial }
        requires agrees { Agrees self.now }
        ensures { IsTrue result ↔ CoversBefore self.now item }
    {
        accounts::covers_until(&self.accounts, item)
    }

    /// The trial is the survivor from now on.
    pub fn adopt(&mut self)
        requires trial { IsSome self.old.trial }
        requires agrees { Agrees self.old }
        requires covers { Covers self.old }
        ensures { self.new ≡ adopted self.old }
    {
        let Some(shared) = self.shared else {
            return;
        };
        self.sends.truncate(shared);
        let _ = self.sends.append(&mut self.own);
        self.shared = None;
        self.next = first_waiting(&self.sends, &self.accounts, 0);
    }

    /// Gives up the trial, if there is one.
    pub fn discard(&mut self)
        ensures { self.new ≡ discarded self.old }
    {
        match self.shared {
            Some(_) => {
                recount(&mut self.accounts, &self.sends, self.sends.len());
                self.own.clear();
                self.shared = None;
            }
            None => {}
        }
    }

    /// The first part that wasn't passed, of a send to an open connection that was made with so many items taken at most: its connection
    /// and its bytes, of which there is at least one.
    #[tactic(auto, using(crate::proofs::StandsLemmas::nexting))]
    pub fn next_piece(&self, until: u64) -> Option<(Conn, &[u8])>
        ensures { option_map (λ piece. (piece.0, piece.1.now)) result ≡ option_map shown_part (next_part self.now until) }
    {
        if self.next >= self.sends.len() {
            return None;
        }
        let entry = &self.sends[self.next];
        if entry.taken > until {
            return None;
        }
        Some((
            entry.conn,
            rest_of(entry, accounts::passed(&self.accounts, entry.conn)),
        ))
    }

    /// The first part of one connection that wasn't passed, whenever it was sent, and whether or not the connection is open.
    #[tactic(auto, using(crate::proofs::StandsLemmas::resting))]
    pub fn rest_of(&self, conn: Conn) -> Option<&[u8]>
        requires { IsOpened self.now conn }
        ensures { option_copied result ≡ option_map (λ part. part.bytes) (rest_part self.now conn) }
    {
        let at = accounts::passed(&self.accounts, conn);
        let from = first_with_rest(&self.accounts, conn, self.next);
        for i in from..self.sends.len() {
            let rest = part_of(&self.sends[i], conn, at);
            if !rest.is_empty() {
                return Some(rest);
            }
        }
        None
    }

    /// The next bytes of a connection's stream were passed with so many items received.
    #[tactic(auto, using(crate::proofs::StandsLemmas::changing))]
    pub fn passed(&mut self, conn: Conn, count: usize, stamp: u64) -> Result<(), AllocError>
        requires survivor { self.old.trial ≡ None }
        requires opened { IsOpened self.old conn }
        requires sent { length (passed_to self.old conn) + count ≤ length (sent_to conn self.old.kept) }
        requires later { NotBefore stamp (stamps_of (stamped_to self.old.connections conn)) }
        ensures ok { OnOk result (self.new ≡ with_passed self.old conn count stamp) }
        ensures err { OnErr result (self.new ≡ self.old) }
    {
        accounts::pass(&mut self.accounts, conn, count, stamp)?;
        self.next = first_waiting(&self.sends, &self.accounts, self.next);
        Ok(())
    }

    /// Gives up the sends before this number, up to the first that may still be passed.
    #[tactic(auto, using(crate::proofs::PositionLemmas::positions))]
    pub fn trim(&mut self, sends: u64)
        requires survivor { self.old.trial ≡ None }
        requires within { sends ≤ self.old.first + length self.old.kept }
        ensures { self.new ≡ trimmed self.old sends }
    {
        let count = sends.saturating_sub(self.first).min(self.next as u64);
        drop_oldest(&mut self.sends, &mut self.accounts, count);
        self.first += count;
        self.next -= count as usize;
        give_room_back(&mut self.sends);
        give_room_back(&mut self.own);
    }

    /// The number of the survivor's oldest kept send, or of its next one where none is kept.
    pub fn first_send(&self) -> u64
        ensures first { result ≡ self.now.first }
        ensures lawful { IsLawful self.now }
    {
        self.sound();
        self.first
    }
}
