// What is done of the entries of a table by their kinds. `tools/tiles.py` writes the arms.
ghost use Rattle.code_table.specs.Kinds.{Fits};
ghost use Rattle.rv_exec.specs.Entries.{MayRun, Runs};

use crate::going::{run_anew, run_four, run_one, run_three, run_two};
use block_book::Book;
use code_table::{Entry, EntryOp, Kind};
use guest_space::{AccessRule, GuestSpace, Windows};
use rx_base::Steps;
use std::sync::ledger::Ledger;

/// Does what a kind says of the entry of the number. So that each operation is a constant here, and all is put in place in the loop, a
/// single entry has a kind, too.
#[inline(always)]
fn enter_kind<R: AccessRule, L: Ledger>(
    kind: Kind,
    x: &mut [u32; 33],
    entries: &[Entry],
    start: u32,
    count: usize,
    number: &mut usize,
    limit: &mut u64,
    space: &mut GuestSpace,
    book: &Book,
    rule: &R,
    steps: &mut Steps<L>,
    windows: &Windows,
) -> bool
    requires fits { Fits entries.now number.old kind }
    requires may { MayRun entries.now start count number.old limit.old x.old space.old windows.now }
    ensures { Runs (R.rule rule.now) book.now start count number.old limit.old steps.old x.old space.old result number.new limit.new steps.new x.new space.new windows.now }
{
    macro_rules! one {
        ($one:ident) => {
            run_one(
                EntryOp::$one, x, entries, start, count, number, limit, space, book, rule, steps, windows,
            )
        };
    }
    macro_rules! two {
        ($one:ident, $other:ident) => {
            run_two(
                EntryOp::$one, EntryOp::$other, x, entries, start, count, number, limit, space, book, rule, steps, windows,
            )
        };
    }
    macro_rules! three {
        ($one:ident, $other:ident, $third:ident) => {
            run_three(
                EntryOp::$one, EntryOp::$other, EntryOp::$third, x, entries, start, count, number, limit, space, book, rule, steps, windows,
            )
        };
    }
    macro_rules! four {
        ($one:ident, $other:ident, $third:ident, $fourth:ident) => {
            run_four(
                EntryOp::$one, EntryOp::$other, EntryOp::$third, EntryOp::$fourth, x, entries, start, count, number, limit, space, book, rule, steps, windows,
            )
        };
    }
    match kind {
        Kind::Slow => false,
        Kind::OneSet => one!(Set),
        Kind::OneJal => one!(Jal),
        Kind::OneJalr => one!(Jalr),
        Kind::OneBeq => one!(Beq),
        Kind::OneBne => one!(Bne),
        Kind::OneBlt => one!(Blt),
        Kind::OneBge => one!(Bge),
        Kind::OneBltu => one!(Bltu),
        Kind::OneBgeu => one!(Bgeu),
        Kind::OneLb => one!(Lb),
        Kind::OneLh => one!(Lh),
        Kind::OneLw => one!(Lw),
        Kind::OneLbu => one!(Lbu),
        Kind::OneLhu => one!(Lhu),
        Kind::OneSb => one!(Sb),
        Kind::OneSh => one!(Sh),
        Kind::OneSw => one!(Sw),
        Kind::OneAddi => one!(Addi),
        Kind::OneSlti => one!(Slti),
        Kind::OneSltiu => one!(Sltiu),
        Kind::OneXori => one!(Xori),
        Kind::OneOri => one!(Ori),
        Kind::OneAndi => one!(Andi),
        Kind::OneSlli => one!(Slli),
        Kind::OneSrli => one!(Srli),
        Kind::OneSrai => one!(Srai),
        Kind::OneAdd => one!(Add),
        Kind::OneSub => one!(Sub),
        Kind::OneSll => one!(Sll),
        Kind::OneSlt => one!(Slt),
        Kind::OneSltu => one!(Sltu),
        Kind::OneXor => one!(Xor),
        Kind::OneSrl => one!(Srl),
        Kind::OneSra => one!(Sra),
        Kind::OneOr => one!(Or),
        Kind::OneAnd => one!(And),
        Kind::OneMul => one!(Mul),
        Kind::OneMulh => one!(Mulh),
        Kind::OneMulhsu => one!(Mulhsu),
        Kind::OneMulhu => one!(Mulhu),
        Kind::OneDiv => one!(Div),
        Kind::OneDivu => one!(Divu),
        Kind::OneRem => one!(Rem),
        Kind::OneRemu => one!(Remu),
        Kind::AddiBneAddiAddi => four!(Addi, Bne, Addi, Addi),
        Kind::BneAddiAddiAddi => four!(Bne, Addi, Addi, Addi),
        Kind::LwAddSlliXor => four!(Lw, Add, Slli, Xor),
        Kind::AddSlliXorSrli => four!(Add, Slli, Xor, Srli),
        Kind::XorSwAddi => three!(Xor, Sw, Addi),
        Kind::LbuLbuLbuLbu => four!(Lbu, Lbu, Lbu, Lbu),
        Kind::AddiSbBneJalr => four!(Addi, Sb, Bne, Jalr),
        Kind::SbSbSbSb => four!(Sb, Sb, Sb, Sb),
        Kind::LwAddiSwBne => four!(Lw, Addi, Sw, Bne),
        Kind::AddiSwBneLw => four!(Addi, Sw, Bne, Lw),
        Kind::LwSwLw => three!(Lw, Sw, Lw),
        Kind::AddiAddi => two!(Addi, Addi),
        Kind::LwLwLwLw => four!(Lw, Lw, Lw, Lw),
        Kind::SlliSlliOrOr => four!(Slli, Slli, Or, Or),
        Kind::SwSwSwSw => four!(Sw, Sw, Sw, Sw),
        Kind::SwSwSw => three!(Sw, Sw, Sw),
        Kind::SlliLbuLbuLbu => four!(Slli, Lbu, Lbu, Lbu),
        Kind::SlliSrli => two!(Slli, Srli),
        Kind::BgeAddiSlliSub => four!(Bge, Addi, Slli, Sub),
        Kind::AddiBneLbuLbu => four!(Addi, Bne, Lbu, Lbu),
        Kind::SbSb => two!(Sb, Sb),
        Kind::SlliAdd => two!(Slli, Add),
        Kind::OrOr => two!(Or, Or),
        Kind::SrliOrOr => three!(Srli, Or, Or),
        Kind::SltSltSubJalr => four!(Slt, Slt, Sub, Jalr),
        Kind::AddSwSw => three!(Add, Sw, Sw),
        Kind::XorXor => two!(Xor, Xor),
        Kind::XorXorAdd => three!(Xor, Xor, Add),
        Kind::AddiAddiAddiAddi => four!(Addi, Addi, Addi, Addi),
        Kind::LwLw => two!(Lw, Lw),
        Kind::XorSwAddiBne => four!(Xor, Sw, Addi, Bne),
        Kind::OrSlliOrSb => four!(Or, Slli, Or, Sb),
        Kind::SrliSrliSrliSb => four!(Srli, Srli, Srli, Sb),
        Kind::LwXorOrLw => four!(Lw, Xor, Or, Lw),
        Kind::XorLwAddXori => four!(Xor, Lw, Add, Xori),
        Kind::LwAddXoriAdd => four!(Lw, Add, Xori, Add),
        Kind::XorAddOrAnd => four!(Xor, Add, Or, And),
        Kind::AddOrAndAnd => four!(Add, Or, And, And),
        Kind::BltuSlliAddLw => four!(Bltu, Slli, Add, Lw),
        Kind::SlliAddLwJalr => four!(Slli, Add, Lw, Jalr),
        Kind::BgeuSwSetLw => four!(Bgeu, Sw, Set, Lw),
        Kind::SlliSlliSrli => three!(Slli, Slli, Srli),
        Kind::AddiSlliAddi => three!(Addi, Slli, Addi),
        Kind::AddiSwSet => three!(Addi, Sw, Set),
        Kind::SwSet => two!(Sw, Set),
        Kind::LwLbuBltuBgeu => four!(Lw, Lbu, Bltu, Bgeu),
        Kind::AddiAndiAddiAddi => four!(Addi, Andi, Addi, Addi),
        Kind::AddAddiAddSw => four!(Add, Addi, Add, Sw),
        Kind::SwAddi => two!(Sw, Addi),
        Kind::AddiAddiBneAddi => four!(Addi, Addi, Bne, Addi),
        Kind::BneAddiLwLw => four!(Bne, Addi, Lw, Lw),
        Kind::LwLwLwAnd => four!(Lw, Lw, Lw, And),
        Kind::AndXorSlliSrli => four!(And, Xor, Slli, Srli),
        Kind::XorSlliSrliXor => four!(Xor, Slli, Srli, Xor),
        Kind::LbuBeqAddiBeq => four!(Lbu, Beq, Addi, Beq),
        Kind::AddiLw => two!(Addi, Lw),
        Kind::LbuLbuBeqSub => four!(Lbu, Lbu, Beq, Sub),
        Kind::LbuBeqSubJalr => four!(Lbu, Beq, Sub, Jalr),
    }
}

/// The same. A load or a store that stops, as the window of its base doesn't have the address, is tried once more.
#[inline(always)]
pub fn advance<R: AccessRule, L: Ledger>(
    kind: Kind,
    x: &mut [u32; 33],
    entries: &[Entry],
    start: u32,
    count: usize,
    number: &mut usize,
    limit: &mut u64,
    space: &mut GuestSpace,
    book: &Book,
    rule: &R,
    steps: &mut Steps<L>,
    windows: &mut Windows,
) -> bool
    requires fits { Fits entries.now number.old kind }
    requires may { MayRun entries.now start count number.old limit.old x.old space.old windows.old }
    ensures { Runs (R.rule rule.now) book.now start count number.old limit.old steps.old x.old space.old result number.new limit.new steps.new x.new space.new windows.new }
{
    if enter_kind(
        kind, x, entries, start, count, number, limit, space, book, rule, steps, windows,
    ) {
        return true;
    }
    if *limit < count as u64 {
        return false;
    }
    run_anew(
        x, entries, start, count, number, limit, space, book, rule, steps, windows,
    )
}
