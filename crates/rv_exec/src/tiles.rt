// Entries that are done one behind the other, at one dispatch.
ghost use Rattle.std.specs.Prelude.{◌≡◌, ◌+◌, slice_index};
ghost use Rattle.guest_space.specs.Windows.{AreWindows};
ghost use Rattle.code_table.specs.Kinds.{HasOp, AreTwo, AreThree, AreFour};
ghost use Rattle.rv_exec.specs.Entries.{IsAt, WentOn};

use crate::entries::{Next, enter_as};
use block_book::Book;
use code_table::{Entry, EntryOp};
use guest_space::{AccessRule, GuestSpace, Windows};
use rx_base::Steps;
use std::sync::ledger::Ledger;

/// How many entries were done one behind the other, and what comes of the one behind these.
#[derive(Clone, Copy, Debug)]
pub struct Gone {
    pub behind: usize,
    pub next: Next,
}

/// Does an entry alone, which has this operation.
#[inline]
pub fn enter_one<R: AccessRule, L: Ledger>(
    one: EntryOp,
    x: &mut [u32; 33],
    entries: &[Entry],
    start: u32,
    count: usize,
    number: usize,
    space: &mut GuestSpace,
    book: &Book,
    rule: &R,
    steps: &mut Steps<L>,
    windows: &Windows,
) -> Gone
    requires kind { HasOp entries.now number one }
    requires entries { entries.now ≡ space.old.code.entries }
    requires place { IsAt start count number space.old }
    requires zero { slice_index x.old 0 ≡ 0 }
    requires holds { AreWindows space.old windows.now }
    ensures code { space.new.code ≡ space.old.code }
    ensures holds { AreWindows space.new windows.now }
    ensures gone { WentOn (R.rule rule.now) book.now start count number result.behind x.old space.old result.next x.new space.new }
    ensures counted { steps.new ≡ steps.old + result.behind }
{
    let next = enter_as(
        one, x, entries, start, count, number, space, book, rule, windows,
    );
    let _steps = steps;
    Gone { behind: 0, next }
}

/// Does the entries of a number and of the one behind it, which have these operations. A step is counted for each but the last that was tried.
#[inline]
pub fn enter_two<R: AccessRule, L: Ledger>(
    one: EntryOp,
    other: EntryOp,
    x: &mut [u32; 33],
    entries: &[Entry],
    start: u32,
    count: usize,
    number: usize,
    space: &mut GuestSpace,
    book: &Book,
    rule: &R,
    steps: &mut Steps<L>,
    windows: &Windows,
) -> Gone
    requires two { AreTwo entries.now number one other }
    requires entries { entries.now ≡ space.old.code.entries }
    requires place { IsAt start count number space.old }
    requires zero { slice_index x.old 0 ≡ 0 }
    requires holds { AreWindows space.old windows.now }
    ensures code { space.new.code ≡ space.old.code }
    ensures holds { AreWindows space.new windows.now }
    ensures gone { WentOn (R.rule rule.now) book.now start count number result.behind x.old space.old result.next x.new space.new }
    ensures counted { steps.new ≡ steps.old + result.behind }
{
    match enter_as(
        one, x, entries, start, count, number, space, book, rule, windows,
    ) {
        Next::Behind => {
            steps.tick();
            let next = enter_as(
                other,
                x,
                entries,
                start,
                count,
                number + 1,
                space,
                book,
                rule,
                windows,
            );
            Gone { behind: 1, next }
        }
        next => Gone { behind: 0, next },
    }
}

/// The same of three entries.
#[inline]
pub fn enter_three<R: AccessRule, L: Ledger>(
    one: EntryOp,
    other: EntryOp,
    third: EntryOp,
    x: &mut [u32; 33],
    entries: &[Entry],
    start: u32,
    count: usize,
    number: usize,
    space: &mut GuestSpace,
    book: &Book,
    rule: &R,
    steps: &mut Steps<L>,
    windows: &Windows,
) -> Gone
    requires all { AreThree entries.now number one other third }
    requires entries { entries.now ≡ space.old.code.entries }
    requires place { IsAt start count number space.old }
    requires zero { slice_index x.old 0 ≡ 0 }
    requires holds { AreWindows space.old windows.now }
    ensures code { space.new.code ≡ space.old.code }
    ensures holds { AreWindows space.new windows.now }
    ensures gone { WentOn (R.rule rule.now) book.now start count number result.behind x.old space.old result.next x.new space.new }
    ensures counted { steps.new ≡ steps.old + result.behind }
{
    match enter_as(
        one, x, entries, start, count, number, space, book, rule, windows,
    ) {
        Next::Behind => {
            steps.tick();
            let rest = enter_two(
                other,
                third,
                x,
                entries,
                start,
                count,
                number + 1,
                space,
                book,
                rule,
                steps,
                windows,
            );
            Gone {
                behind: rest.behind + 1,
                next: rest.next,
            }
        }
        next => Gone { behind: 0, next },
    }
}

/// The same of four entries.
#[inline]
pub fn enter_four<R: AccessRule, L: Ledger>(
    one: EntryOp,
    other: EntryOp,
    third: EntryOp,
    fourth: EntryOp,
    x: &mut [u32; 33],
    entries: &[Entry],
    start: u32,
    count: usize,
    number: usize,
    space: &mut GuestSpace,
    book: &Book,
    rule: &R,
    steps: &mut Steps<L>,
    windows: &Windows,
) -> Gone
    requires all { AreFour entries.now number one other third fourth }
    requires entries { entries.now ≡ space.old.code.entries }
    requires place { IsAt start count number space.old }
    requires zero { slice_index x.old 0 ≡ 0 }
    requires holds { AreWindows space.old windows.now }
    ensures code { space.new.code ≡ space.old.code }
    ensures holds { AreWindows space.new windows.now }
    ensures gone { WentOn (R.rule rule.now) book.now start count number result.behind x.old space.old result.next x.new space.new }
    ensures counted { steps.new ≡ steps.old + result.behind }
{
    match enter_as(
        one, x, entries, start, count, number, space, book, rule, windows,
    ) {
        Next::Behind => {
            steps.tick();
            let rest = enter_three(
                other,
                third,
                fourth,
                x,
                entries,
                start,
                count,
                number + 1,
                space,
                book,
                rule,
                steps,
                windows,
            );
            Gone {
                behind: rest.behind + 1,
                next: rest.next,
            }
        }
        next => Gone { behind: 0, next },
    }
}
