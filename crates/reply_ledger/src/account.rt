// What is kept of one connection.
ghost use Rattle.std.specs.Prelude.{◌≡◌, ℕ, ◌+◌, ◌^◌, ◌-◌, ◌<◌, ◌≤◌, ◌&&◌, not, true, false, ◌++◌, length, take, drop, filter, replicate, nat_le, OnOk, OnErr, IfSome, IfNone, OnSome, if◌then◌else◌};
ghost use Rattle.reply_ledger.specs.Ledger.{IsInOrder};
ghost use Rattle.std.specs.VecDeque.{deque_len};
ghost use Rattle.reply_ledger.specs.Accounts.{new_account, is_open_account, passed_end, runs_past, stamps_in, RunsRise};

use std::alloc::{AllocError, Global};
use std::collections::VecDeque;
use std::marker::Model;

/// Bytes that were passed at one stamp: up to where in the connection's stream they go.
#[derive(Clone, Copy, Debug)]
pub struct Run {
    pub end: u64,
    pub stamp: u64,
}

/// What is kept of one connection. Places are counted from the first byte that was ever sent to it. The bytes stand in the sends.
#[derive(Debug, Drop)]
pub struct Account {
    closed: bool,
    gone: bool,
    earlier: u64,
    runs: VecDeque<Run>,
    end: u64,
}

impl Model for Account {
    ghost use Rattle.reply_ledger.specs.Accounts.{Kept, stamps_in, RunsRise};

    ghost Value = { Kept };

    ghost view = { λ a. record { closed = a.closed; gone = a.gone; earlier = a.earlier; stamps = stamps_in a.earlier a.runs.items; end = a.end } };

    ghost invariant = { λ a. RunsRise a.earlier a.runs.items };
}

impl Account {
    /// A connection to which nothing was sent.
    #[tactic(auto, unfolding(crate::specs::Accounts::stamps_in, crate::specs::Accounts::RunsRise))]
    pub fn new(alloc: Global) -> Account
        ensures { result ≡ new_account }
    {
        Account {
            closed: false,
            gone: false,
            earlier: 0,
            runs: VecDeque::new(alloc),
            end: 0,
        }
    }

    /// Marks it closed.
    pub fn close(&mut self)
        ensures { self.new ≡ record self.old { closed = true } }
    {
        self.closed = true;
    }

    /// Marks it gone.
    pub fn leave(&mut self)
        ensures { self.new ≡ record self.old { gone = true } }
    {
        self.gone = true;
    }

    /// Whether it is neither closed nor gone.
    pub fn is_open(&self) -> bool
        ensures { result ≡ is_open_account self.now }
    {
        !self.closed && !self.gone
    }

    /// Where the bytes of the sends that aren't kept any more end.
    pub fn earlier(&self) -> u64
        ensures { result ≡ self.now.earlier }
    {
        self.earlier
    }

    /// Where the stream ends that is being written.
    pub fn end(&self) -> u64
        ensures { result ≡ self.now.end }
    {
        self.end
    }

    /// Where the bytes end that were passed.
    pub fn passed(&self) -> u64
        ensures { result ≡ passed_end self.now }
    {
        last_end(&self.runs, self.earlier)
    }

    /// Where the bytes end that were passed with so many items received, or fewer.
    pub fn passed_until(&self, item: u64) -> u64
        requires { IsInOrder self.now.stamps }
        ensures { result ≡ self.now.earlier + length (filter (λ stamp. nat_le stamp item) self.now.stamps) }
    {
        let count = self.runs.partition_point(|run| run.stamp <= item);
        end_of(&self.runs, count, self.earlier)
    }

    /// Moves the end of the stream by so many bytes, and answers where it is then: nothing, where it would pass 2^64 - 1.
    pub fn send(&mut self, count: u64) -> Option<u64>
        ensures end { IfSome result (λ end. end ≡ self.old.end + count) }
        ensures moved { OnSome result (self.new ≡ record self.old { end = self.old.end + count }) }
        ensures full { IfNone result (self.new ≡ self.old) }
    {
        let Some(end) = self.end.checked_add(count) else {
            return None;
        };
        self.end = end;
        Some(end)
    }

    /// Moves the end of the stream.
    pub fn set_end(&mut self, end: u64)
        ensures { self.new ≡ record self.old { end = end } }
    {
        self.end = end;
    }

    /// Moves the end of the stream to where the kept sends begin.
    pub fn restart(&mut self)
        ensures { self.new ≡ record self.old { end = self.old.earlier } }
    {
        self.end = self.earlier;
    }

    /// The next so many bytes of the connection's stream were passed at a stamp.
    pub fn pass(&mut self, count: usize, stamp: u64) -> Result<(), AllocError>
        requires { passed_end self.old + count ≤ self.old.end }
        ensures ok { OnOk result (self.new ≡ record self.old { stamps = self.old.stamps ++ replicate count stamp }) }
        ensures err { OnErr result (self.new ≡ self.old) }
    {
        note(&mut self.runs, self.earlier, count as u64, stamp)?;
        Ok(())
    }

    /// Gives up the oldest bytes of the stream, and what is kept of those that were passed of them.
    #[tactic(auto, using(crate::proofs::RunLemmas::stamps_past))]
    pub fn give_up(&mut self, count: u64)
        requires { self.old.earlier + count ≤ self.old.end }
        ensures { self.new ≡ record self.old { earlier = self.old.earlier + count; stamps = drop count self.old.stamps } }
    {
        self.earlier += count;
        drop_runs(&mut self.runs, self.earlier);
        give_room_back(&mut self.runs);
    }
}

/// A place before which no send has anything of a connection that wasn't passed: that of the first send that may still be passed, where the
/// connection is open.
pub fn first_left(opened: bool, next: usize) -> usize
    ensures { result ≡ (if opened then next else 0) }
{
    if opened { next } else { 0 }
}

// Where the first so many runs end, of those that begin at this place.
#[tactic(auto, using(crate::proofs::RunLemmas::last_end), unfolding(crate::specs::Accounts::stamps_in))]
fn end_of(runs: &VecDeque<Run>, count: usize, from: u64) -> u64
    requires within { count ≤ length runs.now.items }
    requires rise { RunsRise from runs.now.items }
    ensures { result ≡ from + length (stamps_in from (take count runs.now.items)) }
{
    if count == 0 {
        from
    } else {
        runs[count - 1].end
    }
}

// Where all of them end.
fn last_end(runs: &VecDeque<Run>, from: u64) -> u64
    requires { RunsRise from runs.now.items }
    ensures { result ≡ from + length (stamps_in from runs.now.items) }
{
    end_of(runs, runs.len(), from)
}

// Notes a stamp for so many bytes behind those that the runs have, which begin at this place.
#[tactic(auto, using(crate::proofs::RunLemmas::noting))]
fn note(runs: &mut VecDeque<Run>, from: u64, count: u64, stamp: u64) -> Result<(), AllocError>
    requires rise { RunsRise from runs.old.items }
    requires fits { from + length (stamps_in from runs.old.items) + count < 2 ^ 64 }
    ensures rise { RunsRise from runs.new.items }
    ensures ok { OnOk result (stamps_in from runs.new.items ≡ stamps_in from runs.old.items ++ replicate count stamp) }
    ensures err { OnErr result (stamps_in from runs.new.items ≡ stamps_in from runs.old.items) }
{
    if count == 0 {
        return Ok(());
    }
    let end = last_end(runs, from) + count;
    let length = runs.len();
    if length > 0 && runs[length - 1].stamp == stamp {
        runs[length - 1].end = end;
        return Ok(());
    }
    runs.push_back(Run { end, stamp })?;
    Ok(())
}

// Drops the runs that end at or before a place of the stream.
#[tactic(auto, using(crate::proofs::RunLemmas::dropping))]
fn drop_runs(runs: &mut VecDeque<Run>, at: u64)
    ensures { runs.new.items ≡ runs_past at runs.old.items }
{
    'old: while !runs.is_empty() {
        if runs[0].end > at {
            return;
        }
        runs.pop_front();
    }
}

/// Gives memory back where less than a quarter of it is used.
pub fn give_room_back<T>(queue: &mut VecDeque<T>)
    ensures items { queue.new.items ≡ queue.old.items }
    ensures len { deque_len queue.new ≡ deque_len queue.old }
{
    if queue.len() < queue.capacity() / 4 {
        queue.shrink_to(2 * queue.len());
    }
}
