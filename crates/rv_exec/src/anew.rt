// Loads and stores whose address the window of their base doesn't have.
ghost use Rattle.std.specs.Prelude.{◌≡◌, ◌<◌, ℕ, slice_index};
ghost use Rattle.guest_space.specs.Windows.{AreWindows};
ghost use Rattle.code_table.specs.Entries.{of_load, of_store};
ghost use Rattle.code_table.specs.declared.entry.Entry.{Entry};
ghost use Rattle.rv_exec.specs.Quick.{KeepsAreas};
ghost use Rattle.rv_exec.specs.Entries.{IsWritten, EntryDone, IsAmong, IsAt, Entered};

use crate::entries::{Next, entry_of};
use block_book::Book;
use code_table::{Entry, EntryOp};
use guest_space::{AccessRule, GuestSpace, Windows};
use rv_isa::{LoadOp, StoreOp, bytes_loaded, bytes_stored, displace, extend};

/// A load of one kind, by a look at the memory: the window of its base is moved to its address.
#[inline(always)]
fn load_anew<R: AccessRule>(
    x: &mut [u32; 33],
    e: &Entry,
    space: &GuestSpace,
    book: &Book,
    rule: &R,
    windows: &mut Windows,
    op: LoadOp,
) -> Next
    requires kind { e.now.op ≡ of_load op }
    requires zero { slice_index x.old 0 ≡ 0 }
    requires holds { AreWindows space.now windows.old }
    ensures holds { AreWindows space.now windows.new }
    ensures done { (start number : ℕ) → EntryDone (R.rule rule.now) book.now start number e.now x.old space.now result x.new space.now }
    ensures among { (count : ℕ) → IsAmong count result }
{
    let at = displace(x[e.rs1 as usize], e.imm);
    let size = bytes_loaded(op);
    if !rule.permits(book, at, size) {
        return Next::Stops;
    }
    let Some(value) = space.load_from(windows, e.rs1, at, size) else {
        return Next::Stops;
    };
    x[e.rd as usize] = extend(op, value);
    Next::Behind
}

/// A store of one kind, so. Its entry is one of the memory, so it comes in parts.
#[inline(always)]
fn store_anew<R: AccessRule>(
    x: &[u32; 33],
    rs1: u8,
    rs2: u8,
    imm: i32,
    space: &mut GuestSpace,
    book: &Book,
    rule: &R,
    windows: &mut Windows,
    op: StoreOp,
) -> Next
    requires first { rs1 < 32 }
    requires second { rs2 < 32 }
    requires zero { slice_index x.now 0 ≡ 0 }
    requires holds { AreWindows space.old windows.old }
    ensures holds { AreWindows space.new windows.new }
    ensures stays { KeepsAreas space.old space.new }
    ensures done { (start number : ℕ) (entry : Entry) → IsWritten (of_store op) rs1 rs2 imm entry → EntryDone (R.rule rule.now) book.now start number entry x.now space.old result x.now space.new }
    ensures among { (count : ℕ) → IsAmong count result }
{
    let at = displace(x[rs1 as usize], imm);
    let size = bytes_stored(op);
    if !rule.permits(book, at, size) {
        return Next::Stops;
    }
    if !space.store_from(windows, rs1, at, size, x[rs2 as usize]) {
        return Next::Stops;
    }
    Next::Behind
}

/// Does the entry of a number, where it is a load or a store.
#[cold]
#[inline(never)]
pub fn enter_anew<R: AccessRule>(
    x: &mut [u32; 33],
    entries: &[Entry],
    start: u32,
    count: usize,
    number: usize,
    space: &mut GuestSpace,
    book: &Book,
    rule: &R,
    windows: &mut Windows,
) -> Next
    requires entries { entries.now ≡ space.old.code.entries }
    requires place { IsAt start count number space.old }
    requires zero { slice_index x.old 0 ≡ 0 }
    requires holds { AreWindows space.old windows.old }
    ensures code { space.new.code ≡ space.old.code }
    ensures holds { AreWindows space.new windows.new }
    ensures done { Entered (R.rule rule.now) book.now start count number x.old space.old result x.new space.new }
{
    space.sound();
    let e = entry_of(entries, number);
    match e.op {
        EntryOp::Lb => load_anew(x, e, space, book, rule, windows, LoadOp::Lb),
        EntryOp::Lh => load_anew(x, e, space, book, rule, windows, LoadOp::Lh),
        EntryOp::Lw => load_anew(x, e, space, book, rule, windows, LoadOp::Lw),
        EntryOp::Lbu => load_anew(x, e, space, book, rule, windows, LoadOp::Lbu),
        EntryOp::Lhu => load_anew(x, e, space, book, rule, windows, LoadOp::Lhu),
        EntryOp::Sb => {
            let (rs1, rs2, imm) = (e.rs1, e.rs2, e.imm);
            store_anew(x, rs1, rs2, imm, space, book, rule, windows, StoreOp::Sb)
        }
        EntryOp::Sh => {
            let (rs1, rs2, imm) = (e.rs1, e.rs2, e.imm);
            store_anew(x, rs1, rs2, imm, space, book, rule, windows, StoreOp::Sh)
        }
        EntryOp::Sw => {
            let (rs1, rs2, imm) = (e.rs1, e.rs2, e.imm);
            store_anew(x, rs1, rs2, imm, space, book, rule, windows, StoreOp::Sw)
        }
        _ => Next::Stops,
    }
}
