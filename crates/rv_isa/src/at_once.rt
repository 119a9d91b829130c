// Operations that are decoded and done at once, with no value of an instruction between.
ghost use Rattle.std.specs.Prelude.{◌≡◌, ◌==◌, option_map, pos};
ghost use Rattle.rv_isa.specs.Words.{funct7, rs2};
ghost use Rattle.rv_isa.specs.Table.{base_op, second_op, multiply_op, imm_op, shift_op};
ghost use Rattle.rv_isa.specs.Meaning.{value_of, imm_value_of};
ghost use Rattle.rv_isa.specs.AtOnce.{op_result, imm_result, branch_result};

use crate::decoding::{funct3_of, funct7_of, imm_i_of, rs2_of};
use crate::{BranchOp, ImmOp, RegOp, alu, alu_imm, compare};

// Whether the highest seven bits of a word are 0. A comparison of the word is tested first, which LLVM doesn't join with the
// tests of the other values.
#[inline(always)]
#[tactic(auto, unfolding(crate::specs::Words::funct7))]
fn has_no_funct7(word: u32) -> bool
    ensures { result ≡ (funct7 word == 0) }
{
    word < 1 << 25
}

#[inline(always)]
#[tactic(auto, unfolding(crate::specs::Table::base_op))]
fn base_value(funct3: u8, a: u32, b: u32) -> Option<u32>
    ensures { result ≡ option_map (λ op. value_of op a b) (base_op funct3) }
{
    match funct3 {
        0b000 => Some(alu(RegOp::Add, a, b)),
        0b001 => Some(alu(RegOp::Sll, a, b)),
        0b010 => Some(alu(RegOp::Slt, a, b)),
        0b011 => Some(alu(RegOp::Sltu, a, b)),
        0b100 => Some(alu(RegOp::Xor, a, b)),
        0b101 => Some(alu(RegOp::Srl, a, b)),
        0b110 => Some(alu(RegOp::Or, a, b)),
        0b111 => Some(alu(RegOp::And, a, b)),
        _ => None,
    }
}

#[inline(always)]
#[tactic(auto, unfolding(crate::specs::Table::second_op))]
fn second_value(funct3: u8, a: u32, b: u32) -> Option<u32>
    ensures { result ≡ option_map (λ op. value_of op a b) (second_op funct3) }
{
    match funct3 {
        0b000 => Some(alu(RegOp::Sub, a, b)),
        0b101 => Some(alu(RegOp::Sra, a, b)),
        _ => None,
    }
}

#[inline(always)]
#[tactic(auto, unfolding(crate::specs::Table::multiply_op))]
fn multiply_value(funct3: u8, a: u32, b: u32) -> Option<u32>
    ensures { result ≡ option_map (λ op. value_of op a b) (multiply_op funct3) }
{
    match funct3 {
        0b000 => Some(alu(RegOp::Mul, a, b)),
        0b001 => Some(alu(RegOp::Mulh, a, b)),
        0b010 => Some(alu(RegOp::Mulhsu, a, b)),
        0b011 => Some(alu(RegOp::Mulhu, a, b)),
        0b100 => Some(alu(RegOp::Div, a, b)),
        0b101 => Some(alu(RegOp::Divu, a, b)),
        0b110 => Some(alu(RegOp::Rem, a, b)),
        0b111 => Some(alu(RegOp::Remu, a, b)),
        _ => None,
    }
}

/// What an operation on two registers writes, from its word and the words in them; `None` where the word is none.
#[inline(always)]
#[tactic(auto, unfolding(crate::specs::Table::reg_op))]
pub fn op_value(word: u32, a: u32, b: u32) -> Option<u32>
    ensures { result ≡ op_result word a b }
{
    if has_no_funct7(word) {
        return base_value(funct3_of(word), a, b);
    }
    match funct7_of(word) {
        0b010_0000 => second_value(funct3_of(word), a, b),
        0b000_0001 => multiply_value(funct3_of(word), a, b),
        _ => None,
    }
}

#[inline(always)]
#[tactic(auto, unfolding(crate::specs::Table::shift_op))]
fn shift_left_value(word: u32, a: u32) -> Option<u32>
    ensures { result ≡ option_map (λ op. imm_value_of op a (pos (rs2 word))) (shift_op (funct7 word) 0b001) }
{
    match funct7_of(word) {
        0b000_0000 => Some(alu_imm(ImmOp::Slli, a, rs2_of(word) as i32)),
        _ => None,
    }
}

#[inline(always)]
#[tactic(auto, unfolding(crate::specs::Table::shift_op))]
fn shift_right_value(word: u32, a: u32) -> Option<u32>
    ensures { result ≡ option_map (λ op. imm_value_of op a (pos (rs2 word))) (shift_op (funct7 word) 0b101) }
{
    if has_no_funct7(word) {
        return Some(alu_imm(ImmOp::Srli, a, rs2_of(word) as i32));
    }
    match funct7_of(word) {
        0b010_0000 => Some(alu_imm(ImmOp::Srai, a, rs2_of(word) as i32)),
        _ => None,
    }
}

/// What an operation on a register and an immediate writes, from its word and the word in the register; `None` where the
/// word is none.
#[inline(always)]
#[tactic(auto, unfolding(crate::specs::Table::imm_op))]
pub fn imm_value(word: u32, a: u32) -> Option<u32>
    ensures { result ≡ imm_result word a }
{
    match funct3_of(word) {
        0b000 => Some(alu_imm(ImmOp::Addi, a, imm_i_of(word))),
        0b001 => shift_left_value(word, a),
        0b010 => Some(alu_imm(ImmOp::Slti, a, imm_i_of(word))),
        0b011 => Some(alu_imm(ImmOp::Sltiu, a, imm_i_of(word))),
        0b100 => Some(alu_imm(ImmOp::Xori, a, imm_i_of(word))),
        0b101 => shift_right_value(word, a),
        0b110 => Some(alu_imm(ImmOp::Ori, a, imm_i_of(word))),
        0b111 => Some(alu_imm(ImmOp::Andi, a, imm_i_of(word))),
        _ => None,
    }
}

/// Whether a branch is taken, from its word and the words of its registers; `None` where the word is none.
#[inline(always)]
#[tactic(auto, unfolding(crate::specs::Table::branch_op))]
pub fn branch_taken(word: u32, a: u32, b: u32) -> Option<bool>
    ensures { result ≡ branch_result word a b }
{
    match funct3_of(word) {
        0b000 => Some(compare(BranchOp::Beq, a, b)),
        0b001 => Some(compare(BranchOp::Bne, a, b)),
        0b100 => Some(compare(BranchOp::Blt, a, b)),
        0b101 => Some(compare(BranchOp::Bge, a, b)),
        0b110 => Some(compare(BranchOp::Bltu, a, b)),
        0b111 => Some(compare(BranchOp::Bgeu, a, b)),
        _ => None,
    }
}
