// Instructions that are done by the entries of a table. What none of these functions does is left to `step`.
ghost use Rattle.std.specs.Prelude.{◌≡◌, ◌+◌, ◌*◌, ◌%◌, ◌^◌, ◌<◌, ◌≤◌, ℕ, Bool, IfSome, Some, length, slice_get, slice_index};
ghost use Rattle.block_book.specs.Heap.{Heap};
ghost use Rattle.guest_space.specs.Space.{GuestPages};
ghost use Rattle.guest_space.specs.Windows.{AreWindows};
ghost use Rattle.code_table.specs.Entries.{address, of_reg, of_imm, of_branch, of_load, of_store, IsLinked};
ghost use Rattle.code_table.specs.Kinds.{HasOp};
ghost use Rattle.code_table.specs.declared.entry.Entry.{Entry};
ghost use Rattle.guest_space.specs.Code.{word_count};
ghost use Rattle.rv_exec.specs.Quick.{KeepsAreas, Ran};
ghost use Rattle.rv_exec.specs.Entries.{counter, number_of, seen, IsWritten, EntryDone, IsAmong, IsAt, Entered};

use block_book::Book;
use code_table::{Entry, EntryOp};
use guest_space::{AccessRule, GuestSpace, Windows};
use rv_isa::{
    BranchOp, ImmOp, LoadOp, RegOp, StoreOp, alu, alu_imm, bytes_loaded, bytes_stored, compare,
    displace, extend, target_of_jalr, upper_word,
};

/// What comes after an entry: the one behind it, or another one by its number; or it wasn't done, and nothing changed.
#[derive(Clone, Copy, Debug)]
pub enum Next {
    Behind,
    To(usize),
    Stops,
}

/// The program counter of a word, by its number.
#[inline(always)]
pub fn counter_of(start: u32, number: usize) -> u32
    requires { address start number ≤ 2 ^ 32 }
    ensures { result ≡ counter start number }
{
    start.wrapping_add((number as u32).wrapping_mul(4))
}

/// The program counter behind a word, by the word's number. Inlined, it would be one more count that a loop over entries
/// carries along.
#[inline(never)]
fn counter_behind(start: u32, number: usize) -> u32
    requires { address start number ≤ 2 ^ 32 }
    ensures { result ≡ counter start (number + 1) }
{
    counter_of(start, number).wrapping_add(4)
}

/// The number of the word at an address, where that is one of so many words from a start on.
#[inline(always)]
pub fn number_at(start: u32, count: usize, at: u32) -> Option<usize>
    requires { address start count ≤ 2 ^ 32 }
    ensures { IfSome result (λ number. (number < count) × (address start number ≡ at)) }
{
    let away = at.wrapping_sub(start);
    if away % 4 != 0 {
        return None;
    }
    let number = (away / 4) as usize;
    if number >= count {
        return None;
    }
    Some(number)
}

/// LUI and AUIPC.
#[inline(always)]
fn enter_set(x: &mut [u32; 33], e: &Entry) -> Next
    requires kind { e.now.op ≡ EntryOp.Set }
    requires zero { slice_index x.old 0 ≡ 0 }
    ensures done { (rule : Heap → ℕ → ℕ → Bool) (heap : Heap) (space : GuestPages) (start number : ℕ) → EntryDone rule heap start number e.now x.old space result x.new space }
    ensures among { (count : ℕ) → IsAmong count result }
{
    x[e.rd as usize] = upper_word(e.imm);
    Next::Behind
}

/// JAL.
#[inline(always)]
fn enter_jal(x: &mut [u32; 33], e: &Entry, start: u32, number: usize) -> Next
    requires kind { e.now.op ≡ EntryOp.Jal }
    requires whole { start % 4 ≡ 0 }
    requires below { address start number ≤ 2 ^ 32 }
    requires zero { slice_index x.old 0 ≡ 0 }
    ensures done { (rule : Heap → ℕ → ℕ → Bool) (heap : Heap) (space : GuestPages) → EntryDone rule heap start number e.now x.old space result x.new space }
    ensures among { (count : ℕ) → IsLinked count e.now → IsAmong count result }
{
    x[e.rd as usize] = counter_behind(start, number);
    Next::To(upper_word(e.imm) as usize)
}

/// JALR to one of so many words: the base is read before the register is written, which may be the same one.
#[inline(always)]
fn enter_jalr(x: &mut [u32; 33], e: &Entry, start: u32, count: usize, number: usize) -> Next
    requires kind { e.now.op ≡ EntryOp.Jalr }
    requires whole { start % 4 ≡ 0 }
    requires below { address start count ≤ 2 ^ 32 }
    requires within { number ≤ count }
    requires zero { slice_index x.old 0 ≡ 0 }
    ensures done { (rule : Heap → ℕ → ℕ → Bool) (heap : Heap) (space : GuestPages) → EntryDone rule heap start number e.now x.old space result x.new space }
    ensures among { IsAmong count result }
{
    let target = target_of_jalr(x[e.rs1 as usize], e.imm);
    let Some(other) = number_at(start, count, target) else {
        return Next::Stops;
    };
    x[e.rd as usize] = counter_behind(start, number);
    Next::To(other)
}

/// A conditional branch of one kind.
#[inline(always)]
fn enter_branch(x: &[u32; 33], e: &Entry, op: BranchOp) -> Next
    requires kind { e.now.op ≡ of_branch op }
    requires zero { slice_index x.now 0 ≡ 0 }
    ensures done { (rule : Heap → ℕ → ℕ → Bool) (heap : Heap) (space : GuestPages) (start number : ℕ) → start % 4 ≡ 0 → EntryDone rule heap start number e.now x.now space result x.now space }
    ensures among { (count : ℕ) → IsLinked count e.now → IsAmong count result }
{
    if compare(op, x[e.rs1 as usize], x[e.rs2 as usize]) {
        return Next::To(upper_word(e.imm) as usize);
    }
    Next::Behind
}

/// A load of one kind, where the window of its base has the address.
#[inline(always)]
fn enter_load<R: AccessRule>(
    x: &mut [u32; 33],
    e: &Entry,
    space: &GuestSpace,
    book: &Book,
    rule: &R,
    windows: &Windows,
    op: LoadOp,
) -> Next
    requires kind { e.now.op ≡ of_load op }
    requires zero { slice_index x.old 0 ≡ 0 }
    requires holds { AreWindows space.now windows.now }
    ensures done { (start number : ℕ) → EntryDone (R.rule rule.now) book.now start number e.now x.old space.now result x.new space.now }
    ensures among { (count : ℕ) → IsAmong count result }
{
    let at = displace(x[e.rs1 as usize], e.imm);
    let size = bytes_loaded(op);
    if !rule.permits(book, at, size) {
        return Next::Stops;
    }
    let Some(value) = space.load_within(windows, e.rs1, at, size) else {
        return Next::Stops;
    };
    x[e.rd as usize] = extend(op, value);
    Next::Behind
}

/// A store of one kind, where the window of its base has the address. Its entry is one of the memory, so it comes in parts.
#[inline(always)]
fn enter_store<R: AccessRule>(
    x: &[u32; 33],
    rs1: u8,
    rs2: u8,
    imm: i32,
    space: &mut GuestSpace,
    book: &Book,
    rule: &R,
    windows: &Windows,
    op: StoreOp,
) -> Next
    requires first { rs1 < 32 }
    requires second { rs2 < 32 }
    requires zero { slice_index x.now 0 ≡ 0 }
    requires holds { AreWindows space.old windows.now }
    ensures holds { AreWindows space.new windows.now }
    ensures stays { KeepsAreas space.old space.new }
    ensures done { (start number : ℕ) (entry : Entry) → IsWritten (of_store op) rs1 rs2 imm entry → EntryDone (R.rule rule.now) book.now start number entry x.now space.old result x.now space.new }
    ensures among { (count : ℕ) → IsAmong count result }
{
    let at = displace(x[rs1 as usize], imm);
    let size = bytes_stored(op);
    if !rule.permits(book, at, size) {
        return Next::Stops;
    }
    if !space.store_within(windows, rs1, at, size, x[rs2 as usize]) {
        return Next::Stops;
    }
    Next::Behind
}

/// An operation of one kind on a register and an immediate.
#[inline(always)]
fn enter_op_imm(x: &mut [u32; 33], e: &Entry, op: ImmOp) -> Next
    requires kind { e.now.op ≡ of_imm op }
    requires zero { slice_index x.old 0 ≡ 0 }
    ensures done { (rule : Heap → ℕ → ℕ → Bool) (heap : Heap) (space : GuestPages) (start number : ℕ) → EntryDone rule heap start number e.now x.old space result x.new space }
    ensures among { (count : ℕ) → IsAmong count result }
{
    x[e.rd as usize] = alu_imm(op, x[e.rs1 as usize], e.imm);
    Next::Behind
}

/// An operation of one kind on two registers.
#[inline(always)]
fn enter_op(x: &mut [u32; 33], e: &Entry, op: RegOp) -> Next
    requires kind { e.now.op ≡ of_reg op }
    requires zero { slice_index x.old 0 ≡ 0 }
    ensures done { (rule : Heap → ℕ → ℕ → Bool) (heap : Heap) (space : GuestPages) (start number : ℕ) → EntryDone rule heap start number e.now x.old space result x.new space }
    ensures among { (count : ℕ) → IsAmong count result }
{
    x[e.rd as usize] = alu(op, x[e.rs1 as usize], x[e.rs2 as usize]);
    Next::Behind
}

/// The entry of a number.
#[inline(always)]
pub fn entry_of(entries: &[Entry], number: usize) -> &Entry
    requires { number < length entries.now }
    ensures { slice_get entries.now number ≡ Some result.now }
{
    &entries[number]
}

/// Does the entry of a number, which has this operation. A load or a store stops where the window of its base doesn't have the address.
#[inline]
pub fn enter_as<R: AccessRule>(
    op: EntryOp,
    x: &mut [u32; 33],
    entries: &[Entry],
    start: u32,
    count: usize,
    number: usize,
    space: &mut GuestSpace,
    book: &Book,
    rule: &R,
    windows: &Windows,
) -> Next
    requires kind { HasOp entries.now number op }
    requires entries { entries.now ≡ space.old.code.entries }
    requires place { IsAt start count number space.old }
    requires zero { slice_index x.old 0 ≡ 0 }
    requires holds { AreWindows space.old windows.now }
    ensures code { space.new.code ≡ space.old.code }
    ensures holds { AreWindows space.new windows.now }
    ensures done { Entered (R.rule rule.now) book.now start count number x.old space.old result x.new space.new }
{
    space.sound();
    let e = entry_of(entries, number);
    match op {
        EntryOp::Stop => Next::Stops,
        EntryOp::Set => enter_set(x, e),
        EntryOp::Jal => enter_jal(x, e, start, number),
        EntryOp::Jalr => enter_jalr(x, e, start, count, number),
        EntryOp::Beq => enter_branch(x, e, BranchOp::Beq),
        EntryOp::Bne => enter_branch(x, e, BranchOp::Bne),
        EntryOp::Blt => enter_branch(x, e, BranchOp::Blt),
        EntryOp::Bge => enter_branch(x, e, BranchOp::Bge),
        EntryOp::Bltu => enter_branch(x, e, BranchOp::Bltu),
        EntryOp::Bgeu => enter_branch(x, e, BranchOp::Bgeu),
        EntryOp::Lb => enter_load(x, e, space, book, rule, windows, LoadOp::Lb),
        EntryOp::Lh => enter_load(x, e, space, book, rule, windows, LoadOp::Lh),
        EntryOp::Lw => enter_load(x, e, space, book, rule, windows, LoadOp::Lw),
        EntryOp::Lbu => enter_load(x, e, space, book, rule, windows, LoadOp::Lbu),
        EntryOp::Lhu => enter_load(x, e, space, book, rule, windows, LoadOp::Lhu),
        EntryOp::Sb => {
            let (rs1, rs2, imm) = (e.rs1, e.rs2, e.imm);
            enter_store(x, rs1, rs2, imm, space, book, rule, windows, StoreOp::Sb)
        }
        EntryOp::Sh => {
            let (rs1, rs2, imm) = (e.rs1, e.rs2, e.imm);
            enter_store(x, rs1, rs2, imm, space, book, rule, windows, StoreOp::Sh)
        }
        EntryOp::Sw => {
            let (rs1, rs2, imm) = (e.rs1, e.rs2, e.imm);
            enter_store(x, rs1, rs2, imm, space, book, rule, windows, StoreOp::Sw)
        }
        EntryOp::Addi => enter_op_imm(x, e, ImmOp::Addi),
        EntryOp::Slti => enter_op_imm(x, e, ImmOp::Slti),
        EntryOp::Sltiu => enter_op_imm(x, e, ImmOp::Sltiu),
        EntryOp::Xori => enter_op_imm(x, e, ImmOp::Xori),
        EntryOp::Ori => enter_op_imm(x, e, ImmOp::Ori),
        EntryOp::Andi => enter_op_imm(x, e, ImmOp::Andi),
        EntryOp::Slli => enter_op_imm(x, e, ImmOp::Slli),
        EntryOp::Srli => enter_op_imm(x, e, ImmOp::Srli),
        EntryOp::Srai => enter_op_imm(x, e, ImmOp::Srai),
        EntryOp::Add => enter_op(x, e, RegOp::Add),
        EntryOp::Sub => enter_op(x, e, RegOp::Sub),
        EntryOp::Sll => enter_op(x, e, RegOp::Sll),
        EntryOp::Slt => enter_op(x, e, RegOp::Slt),
        EntryOp::Sltu => enter_op(x, e, RegOp::Sltu),
        EntryOp::Xor => enter_op(x, e, RegOp::Xor),
        EntryOp::Srl => enter_op(x, e, RegOp::Srl),
        EntryOp::Sra => enter_op(x, e, RegOp::Sra),
        EntryOp::Or => enter_op(x, e, RegOp::Or),
        EntryOp::And => enter_op(x, e, RegOp::And),
        EntryOp::Mul => enter_op(x, e, RegOp::Mul),
        EntryOp::Mulh => enter_op(x, e, RegOp::Mulh),
        EntryOp::Mulhsu => enter_op(x, e, RegOp::Mulhsu),
        EntryOp::Mulhu => enter_op(x, e, RegOp::Mulhu),
        EntryOp::Div => enter_op(x, e, RegOp::Div),
        EntryOp::Divu => enter_op(x, e, RegOp::Divu),
        EntryOp::Rem => enter_op(x, e, RegOp::Rem),
        EntryOp::Remu => enter_op(x, e, RegOp::Remu),
    }
}

/// The registers with one more, which takes what is written to register 0.
#[inline(always)]
pub fn with_last(x: &[u32; 32]) -> [u32; 33]
    ensures { seen result ≡ x.now }
{
    let mut all = [0; 33];
    let (front, _) = all.split_at_mut(32);
    front.copy_from_slice(x);
    all
}

/// The registers without the last one.
#[inline(always)]
pub fn without_last(all: &[u32; 33]) -> [u32; 32]
    ensures { result ≡ seen all.now }
{
    let mut x = [0; 32];
    let (front, _) = all.split_at(32);
    x.copy_from_slice(front);
    x
}
