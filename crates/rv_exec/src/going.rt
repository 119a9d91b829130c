// Entries that are done as the loop over them counts: with the number of the entry that comes next, and the limit up to which
// entries are done if no jump comes.
ghost use Rattle.std.specs.Prelude.{◌≡◌, ◌+◌, ◌^◌, ◌<◌, ◌≤◌};
ghost use Rattle.std.specs.Bool.{OnTrue};
ghost use Rattle.code_table.specs.Kinds.{HasOp, AreTwo, AreThree, AreFour};
ghost use Rattle.rv_exec.specs.Entries.{Goes, GoesTo, Lands, MayRun, Runs, tried};

use crate::anew::enter_anew;
use crate::entries::Next;
use crate::tiles::{Gone, enter_four, enter_one, enter_three, enter_two};
use block_book::Book;
use code_table::{Entry, EntryOp};
use guest_space::{AccessRule, GuestSpace, Windows};
use rx_base::Steps;
use std::sync::ledger::Ledger;

/// Goes on from what was done, and counts a step for the last entry. A jump moves the limit. Whether all up to the last entry may be
/// done from there; not where an entry stopped.
#[inline]
fn go_on<L: Ledger>(
    gone: Gone,
    count: usize,
    number: &mut usize,
    limit: &mut u64,
    steps: &mut Steps<L>,
) -> bool
    requires lands { Lands count (number.old + gone.behind) gone.next }
    requires enough { count ≤ limit.old }
    requires room { limit.old + count < 2 ^ 64 + number.old }
    ensures to { GoesTo (number.old + gone.behind) limit.old gone.next number.new limit.new }
    ensures counted { steps.new ≡ steps.old + tried gone.next }
    ensures goes { OnTrue result (Goes count (number.old + gone.behind) limit.old number.new limit.new) }
{
    let at = *number + gone.behind;
    match gone.next {
        Next::Behind => {
            steps.tick();
            *number = at + 1;
            true
        }
        Next::To(other) => {
            steps.tick();
            *limit = *limit - at as u64 - 1 + other as u64;
            *number = other;
            *limit >= count as u64
        }
        Next::Stops => {
            *number = at;
            false
        }
    }
}

/// Does the entry of the number alone, which has this operation.
#[inline]
pub fn run_one<R: AccessRule, L: Ledger>(
    one: EntryOp,
    x: &mut [u32; 33],
    entries: &[Entry],
    start: u32,
    count: usize,
    number: &mut usize,
    limit: &mut u64,
    space: &mut GuestSpace,
    book: &Book,
    rule: &R,
    steps: &mut Steps<L>,
    windows: &Windows,
) -> bool
    requires fits { HasOp entries.now number.old one }
    requires may { MayRun entries.now start count number.old limit.old x.old space.old windows.now }
    ensures { Runs (R.rule rule.now) book.now start count number.old limit.old steps.old x.old space.old result number.new limit.new steps.new x.new space.new windows.now }
{
    let gone = enter_one(
        one, x, entries, start, count, *number, space, book, rule, steps, windows,
    );
    go_on(gone, count, number, limit, steps)
}

/// Does it and the one behind it, which have these operations.
#[inline]
pub fn run_two<R: AccessRule, L: Ledger>(
    one: EntryOp,
    other: EntryOp,
    x: &mut [u32; 33],
    entries: &[Entry],
    start: u32,
    count: usize,
    number: &mut usize,
    limit: &mut u64,
    space: &mut GuestSpace,
    book: &Book,
    rule: &R,
    steps: &mut Steps<L>,
    windows: &Windows,
) -> bool
    requires fits { AreTwo entries.now number.old one other }
    requires may { MayRun entries.now start count number.old limit.old x.old space.old windows.now }
    ensures { Runs (R.rule rule.now) book.now start count number.old limit.old steps.old x.old space.old result number.new limit.new steps.new x.new space.new windows.now }
{
    let gone = enter_two(
        one, other, x, entries, start, count, *number, space, book, rule, steps, windows,
    );
    go_on(gone, count, number, limit, steps)
}

/// The same of three entries.
#[inline]
pub fn run_three<R: AccessRule, L: Ledger>(
    one: EntryOp,
    other: EntryOp,
    third: EntryOp,
    x: &mut [u32; 33],
    entries: &[Entry],
    start: u32,
    count: usize,
    number: &mut usize,
    limit: &mut u64,
    space: &mut GuestSpace,
    book: &Book,
    rule: &R,
    steps: &mut Steps<L>,
    windows: &Windows,
) -> bool
    requires fits { AreThree entries.now number.old one other third }
    requires may { MayRun entries.now start count number.old limit.old x.old space.old windows.now }
    ensures { Runs (R.rule rule.now) book.now start count number.old limit.old steps.old x.old space.old result number.new limit.new steps.new x.new space.new windows.now }
{
    let gone = enter_three(
        one, other, third, x, entries, start, count, *number, space, book, rule, steps, windows,
    );
    go_on(gone, count, number, limit, steps)
}

/// The same of four entries.
#[inline]
pub fn run_four<R: AccessRule, L: Ledger>(
    one: EntryOp,
    other: EntryOp,
    third: EntryOp,
    fourth: EntryOp,
    x: &mut [u32; 33],
    entries: &[Entry],
    start: u32,
    count: usize,
    number: &mut usize,
    limit: &mut u64,
    space: &mut GuestSpace,
    book: &Book,
    rule: &R,
    steps: &mut Steps<L>,
    windows: &Windows,
) -> bool
    requires fits { AreFour entries.now number.old one other third fourth }
    requires may { MayRun entries.now start count number.old limit.old x.old space.old windows.now }
    ensures { Runs (R.rule rule.now) book.now start count number.old limit.old steps.old x.old space.old result number.new limit.new steps.new x.new space.new windows.now }
{
    let gone = enter_four(
        one, other, third, fourth, x, entries, start, count, *number, space, book, rule, steps,
        windows,
    );
    go_on(gone, count, number, limit, steps)
}

/// Does the entry of the number, where it is a load or a store, by a look at the memory: the window of its base is moved there.
#[inline]
pub fn run_anew<R: AccessRule, L: Ledger>(
    x: &mut [u32; 33],
    entries: &[Entry],
    start: u32,
    count: usize,
    number: &mut usize,
    limit: &mut u64,
    space: &mut GuestSpace,
    book: &Book,
    rule: &R,
    steps: &mut Steps<L>,
    windows: &mut Windows,
) -> bool
    requires may { MayRun entries.now start count number.old limit.old x.old space.old windows.old }
    ensures { Runs (R.rule rule.now) book.now start count number.old limit.old steps.old x.old space.old result number.new limit.new steps.new x.new space.new windows.new }
{
    let next = enter_anew(
        x, entries, start, count, *number, space, book, rule, windows,
    );
    go_on(Gone { behind: 0, next }, count, number, limit, steps)
}
