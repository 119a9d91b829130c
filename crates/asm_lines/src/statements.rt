// The statement of each form, by its operands.
ghost use Rattle.std.specs.Prelude.{◌≡◌};
ghost use Rattle.asm_lines.specs.Statements.{
  operands_of,
  op_statement,
  op_imm_statement,
  load_statement,
  jalr_statement,
  store_statement,
  branch_statement,
  branch_zero_statement,
  jal_statement,
  la_statement,
  jump_statement,
  lui_statement,
  auipc_statement,
  li_statement,
  mv_statement,
  lone_statement,
  word_statement,
  byte_statement,
  space_statement,
  ascii_statement,
  statement_of,
};
ghost use Rattle.asm_lines.specs.declared.statement.Statement.TheVariants.{Instruction, Into};

use crate::flaw::Flaw;
use crate::form::{Form, Section};
use crate::numbers::{number_of, number_within};
use crate::operands::{
    address, any_byte, any_word, immediate, label, offset, one, quoted, register, three, two, upper,
};
use crate::statement::Statement;
use rv_isa::{BranchOp, ImmOp, Instr, LoadOp, RegOp, StoreOp};

// `addi x0, x0, 0`
const NOP: Instr = Instr::OpImm {
    op: ImmOp::Addi,
    rd: 0,
    rs1: 0,
    imm: 0,
};

// `jalr x0, 0(x1)`
const RET: Instr = Instr::Jalr {
    rd: 0,
    rs1: 1,
    imm: 0,
};

// All memory and device accesses before all behind it.
const FENCE: Instr = Instr::Fence { word: 0x0ff0_000f };

#[tactic(auto, unfolding(crate::specs::Statements::op_statement))]
fn op_statement<'a>(op: RegOp, operands: &'a [u8]) -> Result<Statement<'a>, Flaw>
    ensures { result ≡ op_statement op (operands_of operands.now) }
{
    let (rd, rs1, rs2) = three(operands)?;
    let rd = register(rd)?;
    let rs1 = register(rs1)?;
    let rs2 = register(rs2)?;
    Ok(Statement::Instruction(Instr::Op { op, rd, rs1, rs2 }))
}

#[tactic(auto, unfolding(crate::specs::Statements::op_imm_statement))]
fn op_imm_statement<'a>(op: ImmOp, operands: &'a [u8]) -> Result<Statement<'a>, Flaw>
    ensures { result ≡ op_imm_statement op (operands_of operands.now) }
{
    let (rd, rs1, imm) = three(operands)?;
    let rd = register(rd)?;
    let rs1 = register(rs1)?;
    let imm = immediate(op, imm)?;
    Ok(Statement::Instruction(Instr::OpImm { op, rd, rs1, imm }))
}

#[tactic(auto, unfolding(crate::specs::Statements::load_statement))]
fn load_statement<'a>(op: LoadOp, operands: &'a [u8]) -> Result<Statement<'a>, Flaw>
    ensures { result ≡ load_statement op (operands_of operands.now) }
{
    let (rd, at) = two(operands)?;
    let rd = register(rd)?;
    let (imm, rs1) = address(at)?;
    let imm = offset(imm)?;
    Ok(Statement::Instruction(Instr::Load { op, rd, rs1, imm }))
}

#[tactic(auto, unfolding(crate::specs::Statements::jalr_statement))]
fn jalr_statement<'a>(operands: &'a [u8]) -> Result<Statement<'a>, Flaw>
    ensures { result ≡ jalr_statement (operands_of operands.now) }
{
    let (rd, at) = two(operands)?;
    let rd = register(rd)?;
    let (imm, rs1) = address(at)?;
    let imm = offset(imm)?;
    Ok(Statement::Instruction(Instr::Jalr { rd, rs1, imm }))
}

#[tactic(auto, unfolding(crate::specs::Statements::store_statement))]
fn store_statement<'a>(op: StoreOp, operands: &'a [u8]) -> Result<Statement<'a>, Flaw>
    ensures { result ≡ store_statement op (operands_of operands.now) }
{
    let (rs2, at) = two(operands)?;
    let rs2 = register(rs2)?;
    let (imm, rs1) = address(at)?;
    let imm = offset(imm)?;
    Ok(Statement::Instruction(Instr::Store { op, rs1, rs2, imm }))
}

#[tactic(auto, unfolding(crate::specs::Statements::branch_statement))]
fn branch_statement<'a>(op: BranchOp, operands: &'a [u8]) -> Result<Statement<'a>, Flaw>
    ensures { result ≡ branch_statement op (operands_of operands.now) }
{
    let (rs1, rs2, name) = three(operands)?;
    let rs1 = register(rs1)?;
    let rs2 = register(rs2)?;
    let label = label(name)?;
    Ok(Statement::Branch {
        op,
        rs1,
        rs2,
        label,
    })
}

// A branch on one register, where the other is x0.
#[tactic(auto, unfolding(crate::specs::Statements::branch_zero_statement))]
fn branch_zero_statement<'a>(op: BranchOp, operands: &'a [u8]) -> Result<Statement<'a>, Flaw>
    ensures { result ≡ branch_zero_statement op (operands_of operands.now) }
{
    let (rs, name) = two(operands)?;
    let rs1 = register(rs)?;
    let label = label(name)?;
    Ok(Statement::Branch {
        op,
        rs1,
        rs2: 0,
        label,
    })
}

#[tactic(auto, unfolding(crate::specs::Statements::jal_statement))]
fn jal_statement<'a>(operands: &'a [u8]) -> Result<Statement<'a>, Flaw>
    ensures { result ≡ jal_statement (operands_of operands.now) }
{
    let (rd, name) = two(operands)?;
    let rd = register(rd)?;
    let label = label(name)?;
    Ok(Statement::Jump { rd, label })
}

#[tactic(auto, unfolding(crate::specs::Statements::la_statement))]
fn la_statement<'a>(operands: &'a [u8]) -> Result<Statement<'a>, Flaw>
    ensures { result ≡ la_statement (operands_of operands.now) }
{
    let (rd, name) = two(operands)?;
    let rd = register(rd)?;
    let label = label(name)?;
    Ok(Statement::LoadAddress { rd, label })
}

// A jump with the label alone: `j` and `call`.
#[tactic(auto, unfolding(crate::specs::Statements::jump_statement))]
fn jump_statement<'a>(rd: u8, operands: &'a [u8]) -> Result<Statement<'a>, Flaw>
    ensures { result ≡ jump_statement rd (operands_of operands.now) }
{
    let name = one(operands)?;
    let label = label(name)?;
    Ok(Statement::Jump { rd, label })
}

#[tactic(auto, unfolding(crate::specs::Statements::lui_statement))]
fn lui_statement<'a>(operands: &'a [u8]) -> Result<Statement<'a>, Flaw>
    ensures { result ≡ lui_statement (operands_of operands.now) }
{
    let (rd, number) = two(operands)?;
    let rd = register(rd)?;
    let imm = upper(number)?;
    Ok(Statement::Instruction(Instr::Lui { rd, imm }))
}

#[tactic(auto, unfolding(crate::specs::Statements::auipc_statement))]
fn auipc_statement<'a>(operands: &'a [u8]) -> Result<Statement<'a>, Flaw>
    ensures { result ≡ auipc_statement (operands_of operands.now) }
{
    let (rd, number) = two(operands)?;
    let rd = register(rd)?;
    let imm = upper(number)?;
    Ok(Statement::Instruction(Instr::Auipc { rd, imm }))
}

#[tactic(auto, unfolding(crate::specs::Statements::li_statement))]
fn li_statement<'a>(operands: &'a [u8]) -> Result<Statement<'a>, Flaw>
    ensures { result ≡ li_statement (operands_of operands.now) }
{
    let (rd, number) = two(operands)?;
    let rd = register(rd)?;
    let value = any_word(number)?;
    Ok(Statement::LoadNumber { rd, value })
}

// `addi rd, rs, 0`
#[tactic(auto, unfolding(crate::specs::Statements::mv_statement))]
fn mv_statement<'a>(operands: &'a [u8]) -> Result<Statement<'a>, Flaw>
    ensures { result ≡ mv_statement (operands_of operands.now) }
{
    let (rd, rs) = two(operands)?;
    let rd = register(rd)?;
    let rs1 = register(rs)?;
    Ok(Statement::Instruction(Instr::OpImm {
        op: ImmOp::Addi,
        rd,
        rs1,
        imm: 0,
    }))
}

// An instruction that takes no operands.
#[tactic(auto, unfolding(crate::specs::Statements::lone_statement))]
fn lone_instruction<'a>(instr: Instr, operands: &'a [u8]) -> Result<Statement<'a>, Flaw>
    ensures { result ≡ lone_statement (Instruction instr) (operands_of operands.now) }
{
    if operands.is_empty() {
        Ok(Statement::Instruction(instr))
    } else {
        Err(Flaw::BadOperand)
    }
}

// `.text` or `.data`.
#[tactic(auto, unfolding(crate::specs::Statements::lone_statement))]
fn into_section<'a>(section: Section, operands: &'a [u8]) -> Result<Statement<'a>, Flaw>
    ensures { result ≡ lone_statement (Into section) (operands_of operands.now) }
{
    if operands.is_empty() {
        Ok(Statement::Into(section))
    } else {
        Err(Flaw::BadOperand)
    }
}

// A number, or else the address of a label.
#[tactic(auto, unfolding(crate::specs::Statements::word_statement))]
fn word_statement<'a>(operands: &'a [u8]) -> Result<Statement<'a>, Flaw>
    ensures { result ≡ word_statement (operands_of operands.now) }
{
    let operand = one(operands)?;
    if number_of(operand).is_some() {
        let value = any_word(operand)?;
        return Ok(Statement::Word(value));
    }
    let label = label(operand)?;
    Ok(Statement::Address(label))
}

#[tactic(auto, unfolding(crate::specs::Statements::byte_statement))]
fn byte_statement<'a>(operands: &'a [u8]) -> Result<Statement<'a>, Flaw>
    ensures { result ≡ byte_statement (operands_of operands.now) }
{
    let number = one(operands)?;
    let value = any_byte(number)?;
    Ok(Statement::Byte(value))
}

#[tactic(auto, unfolding(crate::specs::Statements::space_statement))]
fn space_statement<'a>(operands: &'a [u8]) -> Result<Statement<'a>, Flaw>
    ensures { result ≡ space_statement (operands_of operands.now) }
{
    let number = one(operands)?;
    let count = number_within(0, 65536, number)?;
    Ok(Statement::Space(count as u32))
}

#[tactic(auto, unfolding(crate::specs::Statements::ascii_statement))]
fn ascii_statement<'a>(operands: &'a [u8]) -> Result<Statement<'a>, Flaw>
    ensures { result ≡ ascii_statement operands.now }
{
    let text = quoted(operands)?;
    Ok(Statement::Ascii(text))
}

/// The statement of a form with these operands, or the first flaw of them: BadOperand goes before Range.
pub fn statement_of<'a>(form: Form, operands: &'a [u8]) -> Result<Statement<'a>, Flaw>
    ensures { result ≡ statement_of form operands.now }
{
    match form {
        Form::Op(op) => op_statement(op, operands),
        Form::OpImm(op) => op_imm_statement(op, operands),
        Form::Load(op) => load_statement(op, operands),
        Form::Store(op) => store_statement(op, operands),
        Form::Branch(op) => branch_statement(op, operands),
        Form::BranchZero(op) => branch_zero_statement(op, operands),
        Form::Jalr => jalr_statement(operands),
        Form::Jal => jal_statement(operands),
        Form::Jump(rd) => jump_statement(rd, operands),
        Form::Lui => lui_statement(operands),
        Form::Auipc => auipc_statement(operands),
        Form::Mv => mv_statement(operands),
        Form::Li => li_statement(operands),
        Form::La => la_statement(operands),
        Form::Ecall => lone_instruction(Instr::Ecall, operands),
        Form::Ebreak => lone_instruction(Instr::Ebreak, operands),
        Form::Fence => lone_instruction(FENCE, operands),
        Form::Nop => lone_instruction(NOP, operands),
        Form::Ret => lone_instruction(RET, operands),
        Form::Into(section) => into_section(section, operands),
        Form::Word => word_statement(operands),
        Form::Byte => byte_statement(operands),
        Form::Space => space_statement(operands),
        Form::Ascii => ascii_statement(operands),
    }
}
