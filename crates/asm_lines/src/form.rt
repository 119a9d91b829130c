// What a mnemonic asks for.
use rv_isa::{BranchOp, ImmOp, LoadOp, RegOp, StoreOp};

/// Where a statement's bytes go: the text section has the instructions, the data section the variables.
#[derive(Clone, Copy, Debug, PartialEq, Eq)]
pub enum Section {
    Text,
    Data,
}

/// What a mnemonic asks for, and the operands that it takes.
#[derive(Clone, Copy, Debug, PartialEq, Eq)]
pub enum Form {
    /// `rd, rs1, rs2`
    Op(RegOp),
    /// `rd, rs1, number`
    OpImm(ImmOp),
    /// `rd, number(rs1)`
    Load(LoadOp),
    /// `rs2, number(rs1)`
    Store(StoreOp),
    /// `rs1, rs2, label`
    Branch(BranchOp),
    /// `rs, label`, where the other register is x0
    BranchZero(BranchOp),
    /// `rd, number(rs1)`
    Jalr,
    /// `rd, label`
    Jal,
    /// `label`; the return address goes to this register
    Jump(u8),
    /// `rd, number`, the upper twenty bits
    Lui,
    Auipc,
    /// `rd, rs`
    Mv,
    /// `rd, number`
    Li,
    /// `rd, label`
    La,
    /// No operands.
    Ecall,
    Ebreak,
    Fence,
    Nop,
    Ret,
    /// `.text` and `.data`: no operands.
    Into(Section),
    /// `.word` with a number or a label.
    Word,
    /// `.byte` with a number.
    Byte,
    /// `.space` with a number of zeros.
    Space,
    /// `.ascii` with a text in quotes.
    Ascii,
}
