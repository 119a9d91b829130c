// The survivor's sends beside what is kept of their connections.
ghost use Rattle.std.specs.Prelude.{◌≡◌, ℕ, ◌+◌, ◌-◌, ◌<◌, ◌≤◌, length, take, drop, if◌then◌else◌, nat_lt, OnOk};
ghost use Rattle.std.specs.List.{position_or_len};
ghost use Rattle.std.specs.Map.{keys_of};
ghost use Rattle.std.specs.VecDeque.{deque_capacity, deque_len};
ghost use Rattle.reply_ledger.specs.Accounts.{account_at, is_open_account};
ghost use Rattle.reply_ledger.specs.Inside.{Laid, Writes, ending, given_up, waits_in};

use crate::account::first_left;
use crate::accounts;
use crate::accounts::Accounts;
use crate::entry::{Entry, rest_of};
use rx_base::Conn;
use std::alloc::AllocError;
use std::collections::VecDeque;

/// Whether a send may still be passed: something is left of it, and its connection is open.
#[tactic(auto, using(crate::proofs::AccountLemmas::accounts))]
fn waits(accounts: &Accounts, entry: &Entry) -> bool
    ensures { result ≡ waits_in (account_at accounts.now.entries) entry.now }
{
    match accounts.get(&entry.conn) {
        Some(account) => account.is_open() && !rest_of(entry, account.passed()).is_empty(),
        None => false,
    }
}

/// The place of the first send that may still be passed, or the number of sends. It is `from` or stands behind it.
#[tactic(auto, using(crate::proofs::PositionLemmas::positions))]
pub fn first_waiting(sends: &VecDeque<Entry>, accounts: &Accounts, from: usize) -> usize
    requires { from ≤ position_or_len (waits_in (account_at accounts.now.entries)) sends.now.items }
    ensures { result ≡ position_or_len (waits_in (account_at accounts.now.entries)) sends.now.items }
{
    for i in from..sends.len() {
        if waits(accounts, &sends[i]) {
            return i;
        }
    }
    sends.len()
}

/// The place of the first send that may still be passed, once one more stands last among so many. It has bytes, and none of them was passed.
pub fn first_of_more(next: usize, count: usize, opened: bool) -> usize
    requires { next < count }
    ensures { result ≡ (if opened then next else if nat_lt (next + 1) count then next else next + 1) }
{
    if opened || next + 1 < count {
        next
    } else {
        next + 1
    }
}

/// A place before which no send has anything of a connection that wasn't passed: the place of the first that may still be passed, where the
/// connection is open.
pub fn first_with_rest(accounts: &Accounts, conn: Conn, next: usize) -> usize
    ensures { result ≡ (if is_open_account (account_at accounts.now.entries conn) then next else 0) }
{
    first_left(accounts::is_open(accounts, conn), next)
}

/// The streams that are being written end where the first so many sends do.
pub fn recount(accounts: &mut Accounts, sends: &VecDeque<Entry>, count: usize)
    requires laid { Laid (account_at accounts.old.entries) (keys_of accounts.old.entries) sends.now.items }
    requires within { count ≤ length sends.now.items }
    ensures keys { keys_of accounts.new.entries ≡ keys_of accounts.old.entries }
    ensures ends { (conn : ℕ) → account_at accounts.new.entries conn ≡ ending (account_at accounts.old.entries) (take count sends.now.items) conn }
{
    accounts::restart(accounts);
    for i in 0..count {
        let entry = &sends[i];
        accounts::set_end(accounts, entry.conn, entry.end);
    }
}

/// Makes room for so many more sends, and for as many again where there was none.
pub fn reserve(sends: &mut VecDeque<Entry>, more: usize) -> Result<(), AllocError>
    ensures items { sends.new.items ≡ sends.old.items }
    ensures len { deque_len sends.new ≡ deque_len sends.old }
    ensures capacity { deque_capacity sends.old ≤ deque_capacity sends.new }
    ensures ok { OnOk result (deque_len sends.new + more ≤ deque_capacity sends.new) }
{
    if sends.capacity() - sends.len() < more {
        sends.reserve(more.saturating_mul(2))?;
    }
    Ok(())
}

/// Gives up so many of the oldest sends, and what was passed of them.
pub fn drop_oldest(sends: &mut VecDeque<Entry>, accounts: &mut Accounts, count: u64)
    requires writes { Writes (account_at accounts.old.entries) (keys_of accounts.old.entries) sends.old.items }
    requires within { count ≤ length sends.old.items }
    ensures items { sends.new.items ≡ drop count sends.old.items }
    ensures keys { keys_of accounts.new.entries ≡ keys_of accounts.old.entries }
    ensures given { (conn : ℕ) → account_at accounts.new.entries conn ≡ given_up (account_at accounts.old.entries) (take count sends.old.items) conn }
{
    for _ in 0..count {
        let Some(entry) = sends.pop_front() else {
            return;
        };
        accounts::give_up(accounts, entry.conn, entry.bytes.as_slice().len() as u64);
    }
}
