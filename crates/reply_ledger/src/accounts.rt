// What is kept of all connections, in the order in which they were opened.
ghost use Rattle.std.specs.Prelude.{◌≡◌, ℕ, ◌+◌, ◌≤◌, true, None, All, [], ◌∷◌, ◌++◌, drop, replicate, nat_eq, OnOk, OnErr, IfSome, IfNone, OnSome};
ghost use Rattle.std.specs.Map.{lookup, keys_of, set_value, values_of};
ghost use Rattle.std.specs.List.{list_all, IsDistinct};
ghost use Rattle.reply_ledger.specs.Ledger.{IsInOrder};
ghost use Rattle.reply_ledger.specs.Accounts.{new_account, account_at, is_covered, is_covered_until, is_open_account, passed_end, restarted};

use crate::account::Account;
use indexmap::IndexMap;
use rx_base::Conn;
use std::alloc::{AllocError, Global};

pub type Accounts = IndexMap<Conn, Account>;

/// Where a connection's stream stands: where the bytes of the sends that aren't kept any more end, those that were passed, and the stream
/// that is being written.
#[derive(Clone, Copy, Debug)]
pub struct StreamPlaces {
    pub earlier: u64,
    pub passed: u64,
    pub end: u64,
}

/// Opens a connection that wasn't opened before.
#[tactic(auto, using(crate::proofs::AccountLemmas::opening))]
pub fn open(accounts: &mut Accounts, alloc: Global, conn: Conn) -> Result<(), AllocError>
    requires { lookup (nat_eq conn) accounts.old.entries ≡ None }
    ensures ok { OnOk result (accounts.new.entries ≡ accounts.old.entries ++ (conn, new_account) ∷ []) }
    ensures err { OnErr result (accounts.new.entries ≡ accounts.old.entries) }
    ensures unique { IsDistinct nat_eq (keys_of accounts.new.entries) }
{
    accounts.insert(conn, Account::new(alloc))?;
    Ok(())
}

/// Marks a connection closed.
#[tactic(auto, using(crate::proofs::AccountLemmas::writing))]
pub fn close(accounts: &mut Accounts, conn: Conn)
    ensures { accounts.new.entries ≡ set_value (nat_eq conn) accounts.old.entries (record (account_at accounts.old.entries conn) { closed = true }) }
{
    if let Some(account) = accounts.get_mut(&conn) {
        account.close();
    }
}

/// Marks a connection gone.
#[tactic(auto, using(crate::proofs::AccountLemmas::writing))]
pub fn leave(accounts: &mut Accounts, conn: Conn)
    ensures { accounts.new.entries ≡ set_value (nat_eq conn) accounts.old.entries (record (account_at accounts.old.entries conn) { gone = true }) }
{
    if let Some(account) = accounts.get_mut(&conn) {
        account.leave();
    }
}

/// Whether a connection is open.
#[tactic(auto, unfolding(crate::specs::Accounts::account_at))]
pub fn is_open(accounts: &Accounts, conn: Conn) -> bool
    ensures { result ≡ is_open_account (account_at accounts.now.entries conn) }
{
    match accounts.get(&conn) {
        Some(account) => account.is_open(),
        None => false,
    }
}

/// Where the bytes end that were passed to a connection.
#[tactic(auto, unfolding(crate::specs::Accounts::account_at))]
pub fn passed(accounts: &Accounts, conn: Conn) -> u64
    ensures { result ≡ passed_end (account_at accounts.now.entries conn) }
{
    match accounts.get(&conn) {
        Some(account) => account.passed(),
        None => 0,
    }
}

/// Where a connection's stream ends that is being written.
#[tactic(auto, unfolding(crate::specs::Accounts::account_at))]
pub fn end(accounts: &Accounts, conn: Conn) -> u64
    ensures { result ≡ (account_at accounts.now.entries conn).end }
{
    match accounts.get(&conn) {
        Some(account) => account.end(),
        None => 0,
    }
}

/// Where a connection's stream stands.
#[tactic(auto, unfolding(crate::specs::Accounts::account_at))]
pub fn places(accounts: &Accounts, conn: Conn) -> StreamPlaces
    ensures earlier { result.earlier ≡ (account_at accounts.now.entries conn).earlier }
    ensures passed { result.passed ≡ passed_end (account_at accounts.now.entries conn) }
    ensures end { result.end ≡ (account_at accounts.now.entries conn).end }
{
    match accounts.get(&conn) {
        Some(account) => StreamPlaces {
            earlier: account.earlier(),
            passed: account.passed(),
            end: account.end(),
        },
        None => StreamPlaces {
            earlier: 0,
            passed: 0,
            end: 0,
        },
    }
}

/// Moves the end of a connection's stream by so many bytes, and answers where it is then, and whether the connection is open: nothing, where
/// the end would pass 2^64 - 1, or where it wasn't opened.
#[tactic(auto, using(crate::proofs::AccountLemmas::writing))]
pub fn send(accounts: &mut Accounts, conn: Conn, count: u64) -> Option<(u64, bool)>
    ensures end { IfSome result (λ at. at.0 ≡ (account_at accounts.old.entries conn).end + count) }
    ensures opened { IfSome result (λ at. at.1 ≡ is_open_account (account_at accounts.old.entries conn)) }
    ensures moved { OnSome result (accounts.new.entries ≡ set_value (nat_eq conn) accounts.old.entries (record (account_at accounts.old.entries conn) { end = (account_at accounts.old.entries conn).end + count })) }
    ensures full { IfNone result (accounts.new.entries ≡ accounts.old.entries) }
{
    match accounts.get_mut(&conn) {
        Some(account) => {
            let opened = account.is_open();
            match account.send(count) {
                Some(end) => Some((end, opened)),
                None => None,
            }
        }
        None => None,
    }
}

/// Moves the end of a connection's stream.
#[tactic(auto, using(crate::proofs::AccountLemmas::writing))]
pub fn set_end(accounts: &mut Accounts, conn: Conn, end: u64)
    ensures { accounts.new.entries ≡ set_value (nat_eq conn) accounts.old.entries (record (account_at accounts.old.entries conn) { end = end }) }
{
    if let Some(account) = accounts.get_mut(&conn) {
        account.set_end(end);
    }
}

/// The next so many bytes of a connection's stream were passed at a stamp.
#[tactic(auto, using(crate::proofs::AccountLemmas::writing))]
pub fn pass(accounts: &mut Accounts, conn: Conn, count: usize, stamp: u64) -> Result<(), AllocError>
    requires { passed_end (account_at accounts.old.entries conn) + count ≤ (account_at accounts.old.entries conn).end }
    ensures ok { OnOk result (accounts.new.entries ≡ set_value (nat_eq conn) accounts.old.entries (record (account_at accounts.old.entries conn) { stamps = (account_at accounts.old.entries conn).stamps ++ replicate count stamp })) }
    ensures err { OnErr result (accounts.new.entries ≡ accounts.old.entries) }
{
    match accounts.get_mut(&conn) {
        Some(account) => account.pass(count, stamp),
        None => Ok(()),
    }
}

/// Gives up the oldest bytes of a connection's stream.
#[tactic(auto, using(crate::proofs::AccountLemmas::writing))]
pub fn give_up(accounts: &mut Accounts, conn: Conn, count: u64)
    requires { (account_at accounts.old.entries conn).earlier + count ≤ (account_at accounts.old.entries conn).end }
    ensures { accounts.new.entries ≡ set_value (nat_eq conn) accounts.old.entries (record (account_at accounts.old.entries conn) { earlier = (account_at accounts.old.entries conn).earlier + count; stamps = drop count (account_at accounts.old.entries conn).stamps }) }
{
    if let Some(account) = accounts.get_mut(&conn) {
        account.give_up(count);
    }
}

/// Moves the end of each stream to where the kept sends begin.
#[tactic(auto, using(crate::proofs::AccountLemmas::restarting))]
pub fn restart(accounts: &mut Accounts)
    ensures { accounts.new.entries ≡ restarted accounts.old.entries }
{
    for i in 0..accounts.len() {
        accounts[i].restart();
    }
}

/// Whether the stream that is being written is at least as long as what was passed, on each connection.
pub fn covers(accounts: &Accounts) -> bool
    ensures { result ≡ list_all is_covered (values_of accounts.now.entries) }
{
    accounts
        .values()
        .all(|account| account.passed() <= account.end())
}

/// The same for what was passed with so many items received, or fewer.
pub fn covers_until(accounts: &Accounts, item: u64) -> bool
    requires { All (λ k. IsInOrder k.stamps) (values_of accounts.now.entries) }
    ensures { result ≡ list_all (is_covered_until item) (values_of accounts.now.entries) }
{
    accounts
        .values()
        .all(|account| account.passed_until(item) <= account.end())
}
