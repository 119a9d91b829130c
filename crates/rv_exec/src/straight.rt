// Instructions by the entries of a table, whose budget is counted once for a straight run of them.
ghost use Rattle.std.specs.Prelude.{◌≡◌, ◌+◌, ◌^◌, ◌<◌, ◌≤◌, Some, length, slice_get, slice_index};
ghost use Rattle.guest_space.specs.Code.{word_count};
ghost use Rattle.guest_space.specs.Windows.{AreWindows};
ghost use Rattle.rv_exec.specs.Quick.{Ran};
ghost use Rattle.rv_exec.specs.Entries.{counter, IsAt};

use crate::entries::{counter_of, with_last, without_last};
use crate::kinds::advance;
use crate::quick::run_words;
use block_book::Book;
use code_table::Kind;
use guest_space::{AccessRule, GuestSpace, Windows};
use run_history::Regs;
use rx_base::Steps;
use std::sync::ledger::Ledger;

// The kind of a number.
#[inline(always)]
fn kind_at(kinds: &[Kind], number: usize) -> Kind
    requires { number < length kinds.now }
    ensures { slice_get kinds.now number ≡ Some result }
{
    kinds[number]
}

/// Does instructions that are no calls one after another by their entries, from the one of a number on, and counts a step for
/// each. The answer is how many were done, at most so many as are given. A straight run goes from an entry to the next jump, so
/// it has no more entries than stand there up to the last one. As long as all of these may be done, the run is counted at the
/// jump. It may stop before any instruction, and does where fewer may be done.
#[inline(never)]
fn run_straight<R: AccessRule, L: Ledger>(
    regs: &mut Regs,
    first: usize,
    space: &mut GuestSpace,
    book: &Book,
    rule: &R,
    most: u64,
    steps: &mut Steps<L>,
    windows: &mut Windows,
) -> u64
    requires place { IsAt space.old.code.start (word_count space.old.code) first space.old }
    requires counter { regs.old.pc ≡ counter space.old.code.start first }
    requires enough { word_count space.old.code ≤ most }
    requires room { most + word_count space.old.code < 2 ^ 64 }
    requires zero { slice_index regs.old.x 0 ≡ 0 }
    requires holds { AreWindows space.old windows.old }
    ensures holds { AreWindows space.new windows.new }
    ensures ran { Ran (R.rule rule.now) book.now result regs.old space.old regs.new space.new }
    ensures within { result ≤ most }
    ensures counted { steps.new ≡ steps.old + result }
{
    space.sound();
    let start = space.code_start();
    let count = space.code_len() - 1;
    let code = match space.code() {
        Ok(code) => code,
        Err(_) => return 0,
    };
    let entries = code.entries();
    let kinds = code.kinds();
    let mut x = with_last(&regs.x);
    let mut number = first;
    // The number before which as many are done as are given, if no jump comes.
    let mut limit = most + first as u64;
    'run: loop {
        let kind = kind_at(kinds, number);
        if !advance(
            kind,
            &mut x,
            entries,
            start,
            count,
            &mut number,
            &mut limit,
            space,
            book,
            rule,
            steps,
            windows,
        ) {
            break 'run;
        }
    }
    regs.x = without_last(&x);
    regs.pc = counter_of(start, number);
    most - (limit - number as u64)
}

/// Does instructions that are no calls one after another by their entries, from the one of a number on, and counts a step for
/// each. The answer is how many were done, at most so many as are given. It may stop before any instruction. Where fewer are given
/// than there are entries, they are done by words: so the loop over entries stands once in the program, and all of it in one place.
#[inline(always)]
pub fn run_entries<R: AccessRule, L: Ledger>(
    regs: &mut Regs,
    first: usize,
    space: &mut GuestSpace,
    book: &Book,
    rule: &R,
    most: u64,
    steps: &mut Steps<L>,
    windows: &mut Windows,
) -> u64
    requires place { IsAt space.old.code.start (word_count space.old.code) first space.old }
    requires counter { regs.old.pc ≡ counter space.old.code.start first }
    requires zero { slice_index regs.old.x 0 ≡ 0 }
    requires holds { AreWindows space.old windows.old }
    ensures holds { AreWindows space.new windows.new }
    ensures ran { Ran (R.rule rule.now) book.now result regs.old space.old regs.new space.new }
    ensures within { result ≤ most }
    ensures counted { steps.new ≡ steps.old + result }
{
    space.sound();
    let count = (space.code_len() - 1) as u64;
    let given = most.min(u64::MAX - count);
    if given < count {
        windows.forget();
        return run_words(regs, space, book, rule, most, steps);
    }
    run_straight(regs, first, space, book, rule, given, steps, windows)
}
