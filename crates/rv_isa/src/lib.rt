//! The instruction words of RV32IM: what each word says, by the instruction table of the RISC-V unprivileged manual,
//! the word of each instruction, and what each operation gives.
//!
//! The table and the listing are two definitions, and a law says that they agree on every word.
//! So who trusts one of them trusts both, and no word is two instructions.
//! The meanings of operations stand on numbers; the code computes on 32-bit words.
//! Registers, memory and the program counter are no part of this crate: `rv_exec` has them.
#![tactic(auto)]

mod at_once;
mod decoding;
mod encoding;
mod instr;
mod laws;
mod meaning;

pub use at_once::{branch_taken, imm_value, op_value};
pub use decoding::{
    decode, funct3_of, imm_b_of, imm_i_of, imm_j_of, imm_s_of, imm_u_of, opcode_of, rd_of, rs1_of,
    rs2_of,
};
pub use encoding::encode;
pub use instr::{BranchOp, ImmOp, Instr, LoadOp, RegOp, StoreOp};
pub use laws::{decode_of_encode, table_is_the_listing};
pub use meaning::{
    alu, alu_imm, bytes_loaded, bytes_stored, compare, displace, extend, target_of_jalr, upper_word,
};
