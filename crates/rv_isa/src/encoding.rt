// Encoding: each format puts its operands into the places of its fields.
ghost use Rattle.std.specs.Prelude.{ℕ, ℤ, ◌≡◌, ◌<◌, ◌^◌, ◌/◌, ◌%◌, Some};
ghost use Rattle.rv_isa.specs.Listing.{
  IsFormatB,
  IsFormatI,
  IsFormatJ,
  IsFormatR,
  IsFormatS,
  IsFormatShift,
  IsFormatU,
  IsImmRow,
  IsRegRow,
  IsRow,
  branch_code,
  load_code,
  store_code,
};
ghost use Rattle.rv_isa.specs.Ranges.{IsImmediate, IsInRange, IsOperand, IsRegister, IsShift};
ghost use Rattle.rv_isa.specs.Table.{row};
ghost use Rattle.rv_isa.specs.Words.{field, signed};

use crate::{BranchOp, ImmOp, Instr, LoadOp, RegOp, StoreOp};

/// The word of six fields.
#[tactic(auto, unfolding(crate::specs::Words::opcode, crate::specs::Words::rd, crate::specs::Words::funct3, crate::specs::Words::rs1, crate::specs::Words::rs2, crate::specs::Words::funct7))]
fn format_r(opcode: u8, funct3: u8, funct7: u8, rd: u8, rs1: u8, rs2: u8) -> u32
    requires opcode_in { opcode < 2 ^ 7 }
    requires funct3_in { funct3 < 2 ^ 3 }
    requires funct7_in { funct7 < 2 ^ 7 }
    requires rd_in { IsRegister rd }
    requires rs1_in { IsRegister rs1 }
    requires rs2_in { IsRegister rs2 }
    ensures { IsFormatR result opcode funct3 funct7 rd rs1 rs2 }
{
    u32::from(opcode)
        + (u32::from(rd) << 7)
        + (u32::from(funct3) << 12)
        + (u32::from(rs1) << 15)
        + (u32::from(rs2) << 20)
        + (u32::from(funct7) << 25)
}

/// The word of an opcode, a register and the twenty bits above them.
fn join_upper(opcode: u8, rd: u8, upper: u32) -> u32
    requires opcode_in { opcode < 2 ^ 7 }
    requires rd_in { IsRegister rd }
    requires upper_in { upper < 2 ^ 20 }
    ensures opcode_is { field 6 0 result ≡ opcode }
    ensures rd_is { field 11 7 result ≡ rd }
    ensures upper_is { field 31 12 result ≡ upper }
{
    u32::from(opcode) + (u32::from(rd) << 7) + (upper << 12)
}

/// The twelve bits of an immediate.
fn bits_12(imm: i32) -> u32
    requires { IsImmediate 12 1 imm }
    ensures below { result < 2 ^ 12 }
    ensures value { signed 12 result ≡ imm }
{
    imm.cast_unsigned() & 0xfff
}

/// The thirteen bits of a branch's offset, the lowest of which is 0.
fn bits_13(imm: i32) -> u32
    requires { IsImmediate 13 2 imm }
    ensures below { result < 2 ^ 13 }
    ensures even { result % 2 ≡ 0 }
    ensures value { signed 13 result ≡ imm }
{
    imm.cast_unsigned() & 0x1fff
}

/// The twenty-one bits of a jump's offset, the lowest of which is 0.
fn bits_21(imm: i32) -> u32
    requires { IsImmediate 21 2 imm }
    ensures below { result < 2 ^ 21 }
    ensures even { result % 2 ≡ 0 }
    ensures value { signed 21 result ≡ imm }
{
    imm.cast_unsigned() & 0x1f_ffff
}

#[tactic(auto, unfolding(crate::specs::Words::rs2, crate::specs::Words::funct7, crate::specs::Words::imm_i))]
fn format_i(opcode: u8, funct3: u8, rd: u8, rs1: u8, imm: i32) -> u32
    requires opcode_in { opcode < 2 ^ 7 }
    requires funct3_in { funct3 < 2 ^ 3 }
    requires rd_in { IsRegister rd }
    requires rs1_in { IsRegister rs1 }
    requires imm_in { IsImmediate 12 1 imm }
    ensures { IsFormatI result opcode funct3 rd rs1 imm }
{
    let bits = bits_12(imm);
    format_r(
        opcode,
        funct3,
        (bits >> 5) as u8,
        rd,
        rs1,
        (bits & 0x1f) as u8,
    )
}

fn format_shift(opcode: u8, funct3: u8, funct7: u8, rd: u8, rs1: u8, amount: i32) -> u32
    requires opcode_in { opcode < 2 ^ 7 }
    requires funct3_in { funct3 < 2 ^ 3 }
    requires funct7_in { funct7 < 2 ^ 7 }
    requires rd_in { IsRegister rd }
    requires rs1_in { IsRegister rs1 }
    requires amount_in { IsShift amount }
    ensures { IsFormatShift result opcode funct3 funct7 rd rs1 amount }
{
    format_r(opcode, funct3, funct7, rd, rs1, amount as u8)
}

#[tactic(auto, unfolding(crate::specs::Words::rd, crate::specs::Words::funct7, crate::specs::Words::imm_s))]
fn format_s(opcode: u8, funct3: u8, rs1: u8, rs2: u8, imm: i32) -> u32
    requires opcode_in { opcode < 2 ^ 7 }
    requires funct3_in { funct3 < 2 ^ 3 }
    requires rs1_in { IsRegister rs1 }
    requires rs2_in { IsRegister rs2 }
    requires imm_in { IsImmediate 12 1 imm }
    ensures { IsFormatS result opcode funct3 rs1 rs2 imm }
{
    let bits = bits_12(imm);
    format_r(
        opcode,
        funct3,
        (bits >> 5) as u8,
        (bits & 0x1f) as u8,
        rs1,
        rs2,
    )
}

#[tactic(auto, unfolding(crate::specs::Words::rd, crate::specs::Words::funct7, crate::specs::Words::imm_b))]
fn format_b(opcode: u8, funct3: u8, rs1: u8, rs2: u8, imm: i32) -> u32
    requires opcode_in { opcode < 2 ^ 7 }
    requires funct3_in { funct3 < 2 ^ 3 }
    requires rs1_in { IsRegister rs1 }
    requires rs2_in { IsRegister rs2 }
    requires imm_in { IsImmediate 13 2 imm }
    ensures { IsFormatB result opcode funct3 rs1 rs2 imm }
{
    let bits = bits_13(imm);
    let low = ((bits >> 1 & 0xf) << 1) + (bits >> 11 & 1);
    let high = (bits >> 12 << 6) + (bits >> 5 & 0x3f);
    format_r(opcode, funct3, high as u8, low as u8, rs1, rs2)
}

#[tactic(auto, unfolding(crate::specs::Words::opcode, crate::specs::Words::rd, crate::specs::Words::imm_u))]
fn format_u(opcode: u8, rd: u8, imm: i32) -> u32
    requires opcode_in { opcode < 2 ^ 7 }
    requires rd_in { IsRegister rd }
    requires imm_in { IsImmediate 32 4096 imm }
    ensures { IsFormatU result opcode rd imm }
{
    join_upper(opcode, rd, imm.cast_unsigned() >> 12)
}

#[tactic(auto, unfolding(crate::specs::Words::opcode, crate::specs::Words::rd, crate::specs::Words::imm_j))]
fn format_j(opcode: u8, rd: u8, imm: i32) -> u32
    requires opcode_in { opcode < 2 ^ 7 }
    requires rd_in { IsRegister rd }
    requires imm_in { IsImmediate 21 2 imm }
    ensures { IsFormatJ result opcode rd imm }
{
    let bits = bits_21(imm);
    let upper = (bits >> 20 << 19)
        + ((bits >> 1 & 0x3ff) << 9)
        + ((bits >> 11 & 1) << 8)
        + (bits >> 12 & 0xff);
    join_upper(opcode, rd, upper)
}

/// A branch's funct3.
fn branch_code_of(op: BranchOp) -> u8
    ensures value { result ≡ branch_code op }
    ensures below { result < 2 ^ 3 }
{
    match op {
        BranchOp::Beq => 0b000,
        BranchOp::Bne => 0b001,
        BranchOp::Blt => 0b100,
        BranchOp::Bge => 0b101,
        BranchOp::Bltu => 0b110,
        BranchOp::Bgeu => 0b111,
    }
}

/// A load's funct3.
fn load_code_of(op: LoadOp) -> u8
    ensures value { result ≡ load_code op }
    ensures below { result < 2 ^ 3 }
{
    match op {
        LoadOp::Lb => 0b000,
        LoadOp::Lh => 0b001,
        LoadOp::Lw => 0b010,
        LoadOp::Lbu => 0b100,
        LoadOp::Lhu => 0b101,
    }
}

/// A store's funct3.
fn store_code_of(op: StoreOp) -> u8
    ensures value { result ≡ store_code op }
    ensures below { result < 2 ^ 3 }
{
    match op {
        StoreOp::Sb => 0b000,
        StoreOp::Sh => 0b001,
        StoreOp::Sw => 0b010,
    }
}

fn encode_imm(op: ImmOp, rd: u8, rs1: u8, imm: i32) -> u32
    requires rd_in { IsRegister rd }
    requires rs1_in { IsRegister rs1 }
    requires imm_in { IsOperand op imm }
    ensures { IsImmRow result op rd rs1 imm }
{
    match op {
        ImmOp::Addi => format_i(0b001_0011, 0b000, rd, rs1, imm),
        ImmOp::Slti => format_i(0b001_0011, 0b010, rd, rs1, imm),
        ImmOp::Sltiu => format_i(0b001_0011, 0b011, rd, rs1, imm),
        ImmOp::Xori => format_i(0b001_0011, 0b100, rd, rs1, imm),
        ImmOp::Ori => format_i(0b001_0011, 0b110, rd, rs1, imm),
        ImmOp::Andi => format_i(0b001_0011, 0b111, rd, rs1, imm),
        ImmOp::Slli => format_shift(0b001_0011, 0b001, 0b000_0000, rd, rs1, imm),
        ImmOp::Srli => format_shift(0b001_0011, 0b101, 0b000_0000, rd, rs1, imm),
        ImmOp::Srai => format_shift(0b001_0011, 0b101, 0b010_0000, rd, rs1, imm),
    }
}

fn encode_op(op: RegOp, rd: u8, rs1: u8, rs2: u8) -> u32
    requires rd_in { IsRegister rd }
    requires rs1_in { IsRegister rs1 }
    requires rs2_in { IsRegister rs2 }
    ensures { IsRegRow result op rd rs1 rs2 }
{
    match op {
        RegOp::Add => format_r(0b011_0011, 0b000, 0b000_0000, rd, rs1, rs2),
        RegOp::Sub => format_r(0b011_0011, 0b000, 0b010_0000, rd, rs1, rs2),
        RegOp::Sll => format_r(0b011_0011, 0b001, 0b000_0000, rd, rs1, rs2),
        RegOp::Slt => format_r(0b011_0011, 0b010, 0b000_0000, rd, rs1, rs2),
        RegOp::Sltu => format_r(0b011_0011, 0b011, 0b000_0000, rd, rs1, rs2),
        RegOp::Xor => format_r(0b011_0011, 0b100, 0b000_0000, rd, rs1, rs2),
        RegOp::Srl => format_r(0b011_0011, 0b101, 0b000_0000, rd, rs1, rs2),
        RegOp::Sra => format_r(0b011_0011, 0b101, 0b010_0000, rd, rs1, rs2),
        RegOp::Or => format_r(0b011_0011, 0b110, 0b000_0000, rd, rs1, rs2),
        RegOp::And => format_r(0b011_0011, 0b111, 0b000_0000, rd, rs1, rs2),
        RegOp::Mul => format_r(0b011_0011, 0b000, 0b000_0001, rd, rs1, rs2),
        RegOp::Mulh => format_r(0b011_0011, 0b001, 0b000_0001, rd, rs1, rs2),
        RegOp::Mulhsu => format_r(0b011_0011, 0b010, 0b000_0001, rd, rs1, rs2),
        RegOp::Mulhu => format_r(0b011_0011, 0b011, 0b000_0001, rd, rs1, rs2),
        RegOp::Div => format_r(0b011_0011, 0b100, 0b000_0001, rd, rs1, rs2),
        RegOp::Divu => format_r(0b011_0011, 0b101, 0b000_0001, rd, rs1, rs2),
        RegOp::Rem => format_r(0b011_0011, 0b110, 0b000_0001, rd, rs1, rs2),
        RegOp::Remu => format_r(0b011_0011, 0b111, 0b000_0001, rd, rs1, rs2),
    }
}

fn word_of(instr: &Instr) -> u32
    requires { IsInRange instr.now }
    ensures { IsRow result instr.now }
{
    match *instr {
        Instr::Lui { rd, imm } => format_u(0b011_0111, rd, imm),
        Instr::Auipc { rd, imm } => format_u(0b001_0111, rd, imm),
        Instr::Jal { rd, imm } => format_j(0b110_1111, rd, imm),
        Instr::Jalr { rd, rs1, imm } => format_i(0b110_0111, 0b000, rd, rs1, imm),
        Instr::Branch { op, rs1, rs2, imm } => format_b(
            0b110_0011,
            branch_code_of(op),
            rs1,
            rs2,
            imm,
        ),
        Instr::Load { op, rd, rs1, imm } => format_i(0b000_0011, load_code_of(op), rd, rs1, imm),
        Instr::Store { op, rs1, rs2, imm } => format_s(
            0b010_0011,
            store_code_of(op),
            rs1,
            rs2,
            imm,
        ),
        Instr::OpImm { op, rd, rs1, imm } => encode_imm(op, rd, rs1, imm),
        Instr::Op { op, rd, rs1, rs2 } => encode_op(op, rd, rs1, rs2),
        Instr::Fence { word } => word,
        Instr::Ecall => 0x0000_0073,
        Instr::Ebreak => 0x0010_0073,
    }
}

/// The word of an instruction: the only one that `decode` reads as this instruction.
#[tactic(auto, using(crate::proofs::Rows::row_from))]
pub fn encode(instr: &Instr) -> u32
    requires { IsInRange instr.now }
    ensures listed { IsRow result instr.now }
    ensures value { row result ≡ Some instr.now }
    ensures only { (word : ℕ) → word < 2 ^ 32 → row word ≡ Some instr.now → word ≡ result }
{
    word_of(instr)
}
