// Decoding: each field and immediate is a small function, and the table is nested cases over them.
ghost use Rattle.std.specs.Prelude.{ℕ, ℤ, ◌≡◌, ◌<◌, ◌^◌, IfSome};
ghost use Rattle.rv_isa.specs.Words.{opcode, rd, funct3, rs1, rs2, funct7, imm_i, imm_s, imm_b, imm_u, imm_j, signed};
ghost use Rattle.rv_isa.specs.Ranges.{IsImmediate, IsInRange, IsOperand, IsRegister};
ghost use Rattle.rv_isa.specs.Table.{
  row,
  jalr_row,
  branch_op,
  branch_row,
  load_op,
  load_row,
  store_op,
  store_row,
  imm_op,
  shift_op,
  shift_row,
  imm_row,
  base_op,
  second_op,
  multiply_op,
  reg_op,
  op_row,
  fence_row,
  system_row,
};

use crate::{BranchOp, ImmOp, Instr, LoadOp, RegOp, StoreOp};

/// The opcode of a word, which tells its format.
#[inline(always)]
#[tactic(auto, unfolding(crate::specs::Words::opcode))]
pub fn opcode_of(word: u32) -> u8
    ensures { result ≡ opcode word }
{
    (word & 0x7f) as u8
}

/// The register that a word names as its destination.
#[inline(always)]
#[tactic(auto, unfolding(crate::specs::Words::rd))]
pub fn rd_of(word: u32) -> u8
    ensures value { result ≡ rd word }
    ensures in_range { IsRegister result }
{
    (word >> 7 & 0x1f) as u8
}

/// The three bits of a word that tell operations of an opcode apart.
#[inline(always)]
#[tactic(auto, unfolding(crate::specs::Words::funct3))]
pub fn funct3_of(word: u32) -> u8
    ensures { result ≡ funct3 word }
{
    (word >> 12 & 7) as u8
}

/// The register that a word names as its first source.
#[inline(always)]
#[tactic(auto, unfolding(crate::specs::Words::rs1))]
pub fn rs1_of(word: u32) -> u8
    ensures value { result ≡ rs1 word }
    ensures in_range { IsRegister result }
{
    (word >> 15 & 0x1f) as u8
}

/// The register that a word names as its second source, or the amount of a shift.
#[inline(always)]
#[tactic(auto, unfolding(crate::specs::Words::rs2))]
pub fn rs2_of(word: u32) -> u8
    ensures value { result ≡ rs2 word }
    ensures in_range { IsRegister result }
{
    (word >> 20 & 0x1f) as u8
}

/// The highest seven bits of a word, which tell further operations apart.
#[inline(always)]
#[tactic(auto, unfolding(crate::specs::Words::funct7))]
pub fn funct7_of(word: u32) -> u8
    ensures { result ≡ funct7 word }
{
    (word >> 25) as u8
}

/// What the low thirteen bits stand for in two's complement: the highest one is taken off twice.
#[inline(always)]
fn signed_13(bits: u32) -> i32
    requires { bits < 2 ^ 13 }
    ensures { result ≡ signed 13 bits }
{
    bits as i32 - ((bits >> 12) << 13) as i32
}

#[inline(always)]
fn signed_21(bits: u32) -> i32
    requires { bits < 2 ^ 21 }
    ensures { result ≡ signed 21 bits }
{
    bits as i32 - ((bits >> 20) << 21) as i32
}

/// The immediate of the I format.
#[inline(always)]
#[tactic(auto, unfolding(crate::specs::Words::imm_i))]
pub fn imm_i_of(word: u32) -> i32
    ensures value { result ≡ imm_i word }
    ensures in_range { IsImmediate 12 1 result }
{
    word.cast_signed() >> 20
}

/// The immediate of the S format.
#[inline(always)]
#[tactic(auto, unfolding(crate::specs::Words::imm_s))]
pub fn imm_s_of(word: u32) -> i32
    ensures value { result ≡ imm_s word }
    ensures in_range { IsImmediate 12 1 result }
{
    (word.cast_signed() >> 25 << 5) + (word >> 7 & 0x1f) as i32
}

/// The immediate of the B format.
#[inline(always)]
#[tactic(auto, unfolding(crate::specs::Words::imm_b))]
pub fn imm_b_of(word: u32) -> i32
    ensures value { result ≡ imm_b word }
    ensures in_range { IsImmediate 13 2 result }
{
    signed_13(
        (word >> 31 << 12)
            + ((word >> 7 & 1) << 11)
            + ((word >> 25 & 0x3f) << 5)
            + ((word >> 8 & 0xf) << 1),
    )
}

/// The immediate of the U format.
#[inline(always)]
#[tactic(auto, unfolding(crate::specs::Words::imm_u))]
pub fn imm_u_of(word: u32) -> i32
    ensures value { result ≡ imm_u word }
    ensures in_range { IsImmediate 32 4096 result }
{
    (word >> 12 << 12).cast_signed()
}

/// The immediate of the J format.
#[inline(always)]
#[tactic(auto, unfolding(crate::specs::Words::imm_j))]
pub fn imm_j_of(word: u32) -> i32
    ensures value { result ≡ imm_j word }
    ensures in_range { IsImmediate 21 2 result }
{
    signed_21(
        (word >> 31 << 20)
            + ((word >> 12 & 0xff) << 12)
            + ((word >> 20 & 1) << 11)
            + ((word >> 21 & 0x3ff) << 1),
    )
}

#[inline(always)]
#[tactic(auto, unfolding(crate::specs::Table::jalr_row))]
fn decode_jalr(word: u32) -> Option<Instr>
    ensures value { result ≡ jalr_row word }
    ensures in_range { IfSome result IsInRange }
{
    if funct3_of(word) == 0b000 {
        Some(Instr::Jalr {
            rd: rd_of(word),
            rs1: rs1_of(word),
            imm: imm_i_of(word),
        })
    } else {
        None
    }
}

#[inline(always)]
#[tactic(auto, unfolding(crate::specs::Table::branch_op))]
fn branch_op_of(funct3: u8) -> Option<BranchOp>
    ensures { result ≡ branch_op funct3 }
{
    match funct3 {
        0b000 => Some(BranchOp::Beq),
        0b001 => Some(BranchOp::Bne),
        0b100 => Some(BranchOp::Blt),
        0b101 => Some(BranchOp::Bge),
        0b110 => Some(BranchOp::Bltu),
        0b111 => Some(BranchOp::Bgeu),
        _ => None,
    }
}

#[inline(always)]
#[tactic(auto, unfolding(crate::specs::Table::branch_row))]
fn decode_branch(word: u32) -> Option<Instr>
    ensures value { result ≡ branch_row word }
    ensures in_range { IfSome result IsInRange }
{
    let op = branch_op_of(funct3_of(word))?;
    Some(Instr::Branch {
        op,
        rs1: rs1_of(word),
        rs2: rs2_of(word),
        imm: imm_b_of(word),
    })
}

#[inline(always)]
#[tactic(auto, unfolding(crate::specs::Table::load_op))]
fn load_op_of(funct3: u8) -> Option<LoadOp>
    ensures { result ≡ load_op funct3 }
{
    match funct3 {
        0b000 => Some(LoadOp::Lb),
        0b001 => Some(LoadOp::Lh),
        0b010 => Some(LoadOp::Lw),
        0b100 => Some(LoadOp::Lbu),
        0b101 => Some(LoadOp::Lhu),
        _ => None,
    }
}

#[inline(always)]
#[tactic(auto, unfolding(crate::specs::Table::load_row))]
fn decode_load(word: u32) -> Option<Instr>
    ensures value { result ≡ load_row word }
    ensures in_range { IfSome result IsInRange }
{
    let op = load_op_of(funct3_of(word))?;
    Some(Instr::Load {
        op,
        rd: rd_of(word),
        rs1: rs1_of(word),
        imm: imm_i_of(word),
    })
}

#[inline(always)]
#[tactic(auto, unfolding(crate::specs::Table::store_op))]
fn store_op_of(funct3: u8) -> Option<StoreOp>
    ensures { result ≡ store_op funct3 }
{
    match funct3 {
        0b000 => Some(StoreOp::Sb),
        0b001 => Some(StoreOp::Sh),
        0b010 => Some(StoreOp::Sw),
        _ => None,
    }
}

#[inline(always)]
#[tactic(auto, unfolding(crate::specs::Table::store_row))]
fn decode_store(word: u32) -> Option<Instr>
    ensures value { result ≡ store_row word }
    ensures in_range { IfSome result IsInRange }
{
    let op = store_op_of(funct3_of(word))?;
    Some(Instr::Store {
        op,
        rs1: rs1_of(word),
        rs2: rs2_of(word),
        imm: imm_s_of(word),
    })
}

#[inline(always)]
#[tactic(auto, unfolding(crate::specs::Table::imm_op))]
fn imm_op_of(funct3: u8) -> Option<ImmOp>
    ensures value { result ≡ imm_op funct3 }
    ensures no_shift { IfSome result (λ op. (imm : ℤ) → IsImmediate 12 1 imm → IsOperand op imm) }
{
    match funct3 {
        0b000 => Some(ImmOp::Addi),
        0b010 => Some(ImmOp::Slti),
        0b011 => Some(ImmOp::Sltiu),
        0b100 => Some(ImmOp::Xori),
        0b110 => Some(ImmOp::Ori),
        0b111 => Some(ImmOp::Andi),
        _ => None,
    }
}

#[inline(always)]
#[tactic(auto, unfolding(crate::specs::Table::shift_op))]
fn shift_op_of(funct7: u8, funct3: u8) -> Option<ImmOp>
    ensures { result ≡ shift_op funct7 funct3 }
{
    match funct7 {
        0b000_0000 => match funct3 {
            0b001 => Some(ImmOp::Slli),
            0b101 => Some(ImmOp::Srli),
            _ => None,
        },
        0b010_0000 => {
            if funct3 == 0b101 {
                Some(ImmOp::Srai)
            } else {
                None
            }
        }
        _ => None,
    }
}

#[inline(always)]
#[tactic(auto, unfolding(crate::specs::Table::shift_row))]
fn decode_shift(word: u32) -> Option<Instr>
    ensures value { result ≡ shift_row word }
    ensures in_range { IfSome result IsInRange }
{
    let op = shift_op_of(funct7_of(word), funct3_of(word))?;
    Some(Instr::OpImm {
        op,
        rd: rd_of(word),
        rs1: rs1_of(word),
        imm: rs2_of(word) as i32,
    })
}

#[inline(always)]
#[tactic(auto, unfolding(crate::specs::Table::imm_row))]
fn decode_imm(word: u32) -> Option<Instr>
    ensures value { result ≡ imm_row word }
    ensures in_range { IfSome result IsInRange }
{
    let funct3 = funct3_of(word);
    if funct3 == 0b001 || funct3 == 0b101 {
        return decode_shift(word);
    }
    let op = imm_op_of(funct3)?;
    Some(Instr::OpImm {
        op,
        rd: rd_of(word),
        rs1: rs1_of(word),
        imm: imm_i_of(word),
    })
}

#[inline(always)]
#[tactic(auto, unfolding(crate::specs::Table::base_op))]
fn base_op_of(funct3: u8) -> Option<RegOp>
    ensures { result ≡ base_op funct3 }
{
    match funct3 {
        0b000 => Some(RegOp::Add),
        0b001 => Some(RegOp::Sll),
        0b010 => Some(RegOp::Slt),
        0b011 => Some(RegOp::Sltu),
        0b100 => Some(RegOp::Xor),
        0b101 => Some(RegOp::Srl),
        0b110 => Some(RegOp::Or),
        0b111 => Some(RegOp::And),
        _ => None,
    }
}

#[inline(always)]
#[tactic(auto, unfolding(crate::specs::Table::second_op))]
fn second_op_of(funct3: u8) -> Option<RegOp>
    ensures { result ≡ second_op funct3 }
{
    match funct3 {
        0b000 => Some(RegOp::Sub),
        0b101 => Some(RegOp::Sra),
        _ => None,
    }
}

#[inline(always)]
#[tactic(auto, unfolding(crate::specs::Table::multiply_op))]
fn multiply_op_of(funct3: u8) -> Option<RegOp>
    ensures { result ≡ multiply_op funct3 }
{
    match funct3 {
        0b000 => Some(RegOp::Mul),
        0b001 => Some(RegOp::Mulh),
        0b010 => Some(RegOp::Mulhsu),
        0b011 => Some(RegOp::Mulhu),
        0b100 => Some(RegOp::Div),
        0b101 => Some(RegOp::Divu),
        0b110 => Some(RegOp::Rem),
        0b111 => Some(RegOp::Remu),
        _ => None,
    }
}

#[inline(always)]
#[tactic(auto, unfolding(crate::specs::Table::reg_op))]
fn reg_op_of(funct7: u8, funct3: u8) -> Option<RegOp>
    ensures { result ≡ reg_op funct7 funct3 }
{
    match funct7 {
        0b000_0000 => base_op_of(funct3),
        0b010_0000 => second_op_of(funct3),
        0b000_0001 => multiply_op_of(funct3),
        _ => None,
    }
}

#[inline(always)]
#[tactic(auto, unfolding(crate::specs::Table::op_row))]
fn decode_op(word: u32) -> Option<Instr>
    ensures value { result ≡ op_row word }
    ensures in_range { IfSome result IsInRange }
{
    let op = reg_op_of(funct7_of(word), funct3_of(word))?;
    Some(Instr::Op {
        op,
        rd: rd_of(word),
        rs1: rs1_of(word),
        rs2: rs2_of(word),
    })
}

#[inline(always)]
#[tactic(auto, unfolding(crate::specs::Table::fence_row))]
fn decode_fence(word: u32) -> Option<Instr>
    requires { opcode word ≡ 0b0001111 }
    ensures value { result ≡ fence_row word }
    ensures in_range { IfSome result IsInRange }
{
    if funct3_of(word) == 0b000 {
        Some(Instr::Fence { word })
    } else {
        None
    }
}

#[inline(always)]
#[tactic(auto, unfolding(crate::specs::Table::system_row))]
fn decode_system(word: u32) -> Option<Instr>
    ensures value { result ≡ system_row word }
    ensures in_range { IfSome result IsInRange }
{
    match word {
        0x0000_0073 => Some(Instr::Ecall),
        0x0010_0073 => Some(Instr::Ebreak),
        _ => None,
    }
}

/// The instruction of a word, by the table of the manual; `None` exactly where no row has the word.
#[inline(always)]
#[tactic(auto, unfolding(crate::specs::Table::row))]
pub fn decode(word: u32) -> Option<Instr>
    ensures value { result ≡ row word }
    ensures in_range { IfSome result IsInRange }
{
    match opcode_of(word) {
        0b011_0111 => Some(Instr::Lui {
            rd: rd_of(word),
            imm: imm_u_of(word),
        }),
        0b001_0111 => Some(Instr::Auipc {
            rd: rd_of(word),
            imm: imm_u_of(word),
        }),
        0b110_1111 => Some(Instr::Jal {
            rd: rd_of(word),
            imm: imm_j_of(word),
        }),
        0b110_0111 => decode_jalr(word),
        0b110_0011 => decode_branch(word),
        0b000_0011 => decode_load(word),
        0b010_0011 => decode_store(word),
        0b001_0011 => decode_imm(word),
        0b011_0011 => decode_op(word),
        0b000_1111 => decode_fence(word),
        0b111_0011 => decode_system(word),
        _ => None,
    }
}
