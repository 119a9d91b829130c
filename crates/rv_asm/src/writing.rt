// The bytes of statements. Each label has its address now.
ghost use Rattle.std.specs.Prelude.{◌≡◌, ℕ, ◌≤◌, ◌^◌, ◌≤ℤ◌, ◌<ℤ◌, List, [], ◌∷◌, Option, true, pos, neg_ℤ, OnOk, replicate};
ghost use Rattle.rv_isa.specs.Words.{little_bytes};
ghost use Rattle.rv_isa.specs.Ranges.{IsInRange, IsRegister};
ghost use Rattle.asm_lines.specs.Statements.{characters};
ghost use Rattle.rv_asm.specs.Refusals.{reaches};
ghost use Rattle.rv_asm.specs.Sound.{IsSound, IsReady, IsEncodable, IsPlain};
ghost use Rattle.rv_asm.specs.Steps.{Puts, Reaches, WritesStatement, WritesPlaced, WritesSections};
ghost use Rattle.rv_asm.specs.Assembling.{Coded, Raw, loading, low_part, high_part, cells_at};
ghost use Rattle.rv_asm.specs.Passes.{label_address};
ghost use Rattle.asm_lines.specs.declared.statement.Statement.TheVariants.{Branch, Jump, LoadAddress, Address};

use crate::asm_refusal::{Stop, Trouble};
use crate::layout::Layout;
use crate::placed::Placed;
use crate::sections::Sections;
use asm_lines::{Flaw, Part, Section, Statement};
use rv_isa::{BranchOp, ImmOp, Instr, encode};
use rx_base::Bytes;
use std::alloc::{AllocError, Global};

// Puts a word behind other bytes, its lowest byte first.
fn push_word(out: &mut Vec<u8>, word: u32) -> Result<(), AllocError>
    ensures { OnOk result (Puts out.old.items out.new.items (Raw (little_bytes 4 word) ∷ [])) }
{
    out.extend_from_slice(&word.to_le_bytes())?;
    Ok(())
}

// Puts the word of an instruction behind other bytes.
fn push_instr(out: &mut Vec<u8>, instr: &Instr) -> Result<(), AllocError>
    requires { IsInRange instr.now }
    ensures { OnOk result (Puts out.old.items out.new.items (Coded instr.now ∷ [])) }
{
    push_word(out, encode(instr))
}

// The low twelve bits of a number, as a signed number.
fn low_part(value: u32) -> i32
    ensures { result ≡ low_part value }
{
    let low = (value & 0xfff) as i32;
    if low < 2048 { low } else { low - 4096 }
}

// What is left of a number without its low part.
fn high_part(value: u32) -> i32
    ensures { result ≡ high_part value }
{
    value
        .wrapping_sub(low_part(value).cast_unsigned())
        .cast_signed()
}

// Puts the two instructions behind other bytes that load a number.
fn push_loading(out: &mut Vec<u8>, rd: u8, value: u32) -> Result<(), AllocError>
    requires { IsRegister rd }
    ensures { OnOk result (Puts out.old.items out.new.items (loading rd value)) }
{
    let upper = Instr::Lui {
        rd,
        imm: high_part(value),
    };
    push_instr(out, &upper)?;
    let lower = Instr::OpImm {
        op: ImmOp::Addi,
        rd,
        rs1: rd,
        imm: low_part(value),
    };
    push_instr(out, &lower)
}

// Puts so many zeros behind other bytes.
fn push_zeros(out: &mut Vec<u8>, count: u32) -> Result<(), AllocError>
    ensures { OnOk result (Puts out.old.items out.new.items (Raw (replicate count 0) ∷ [])) }
{
    'zeros: for _ in 0..count {
        out.push(0)?;
    }
    Ok(())
}

// Puts the characters of a text behind other bytes.
fn push_characters(out: &mut Vec<u8>, text: &[u8]) -> Result<(), AllocError>
    ensures { OnOk result (Puts out.old.items out.new.items (Raw (characters text.now) ∷ [])) }
{
    let mut rest = text;
    'bytes: while let [first, behind @ ..] = rest {
        if let [b'\\', b'n', more @ ..] = rest {
            out.push(b'\n')?;
            rest = more;
            continue 'bytes;
        }
        out.push(*first)?;
        rest = behind;
    }
    Ok(())
}

// The address of a label, if it is defined.
fn address_of(layout: &Layout<'_>, name: &[u8]) -> Option<u32>
    requires { IsSound layout.now }
    ensures { result ≡ label_address layout.now name.now }
{
    match layout.labels.get(name) {
        Some(spot) => Some(layout.address_at(spot)),
        None => None,
    }
}

// Whether a distance is even, and from this far backwards to just below this far forwards.
fn is_reached(most: u32, far: i64) -> bool
    ensures value { result ≡ reaches most far }
    ensures near { result ≡ true → (neg_ℤ (pos most) ≤ℤ far) × (far <ℤ pos most) }
{
    -i64::from(most) <= far && far < i64::from(most) && far % 2 == 0
}

// How far it is to a label, if that is even, from this far backwards to just below this far forwards.
fn distance_to(layout: &Layout<'_>, most: u32, at: u32, name: &[u8]) -> Result<i32, Flaw>
    requires sound { IsSound layout.now }
    requires most { most ≤ 2 ^ 20 }
    ensures { Reaches most at layout.now name.now result }
{
    let Some(target) = address_of(layout, name) else {
        return Err(Flaw::Label);
    };
    let far = i64::from(target) - i64::from(at);
    if !is_reached(most, far) {
        return Err(Flaw::Range);
    }
    Ok(far as i32)
}

fn write_branch(
    out: &mut Vec<u8>,
    layout: &Layout<'_>,
    at: u32,
    op: BranchOp,
    rs1: u8,
    rs2: u8,
    name: &Part<'_>,
) -> Result<(), Trouble>
    requires sound { IsSound layout.now }
    requires rs1_in { IsRegister rs1 }
    requires rs2_in { IsRegister rs2 }
    ensures { WritesStatement layout.now at (Branch op rs1 rs2 name.now) out.old.items out.new.items result }
{
    match distance_to(layout, 4096, at, name.as_slice()) {
        Ok(imm) => {
            push_instr(out, &Instr::Branch { op, rs1, rs2, imm })?;
            Ok(())
        }
        Err(flaw) => Err(Trouble::Flawed(flaw)),
    }
}

fn write_jump(
    out: &mut Vec<u8>,
    layout: &Layout<'_>,
    at: u32,
    rd: u8,
    name: &Part<'_>,
) -> Result<(), Trouble>
    requires sound { IsSound layout.now }
    requires rd_in { IsRegister rd }
    ensures { WritesStatement layout.now at (Jump rd name.now) out.old.items out.new.items result }
{
    match distance_to(layout, 1_048_576, at, name.as_slice()) {
        Ok(imm) => {
            push_instr(out, &Instr::Jal { rd, imm })?;
            Ok(())
        }
        Err(flaw) => Err(Trouble::Flawed(flaw)),
    }
}

fn write_load_address(
    out: &mut Vec<u8>,
    layout: &Layout<'_>,
    at: u32,
    rd: u8,
    name: &Part<'_>,
) -> Result<(), Trouble>
    requires sound { IsSound layout.now }
    requires rd_in { IsRegister rd }
    ensures { WritesStatement layout.now at (LoadAddress rd name.now) out.old.items out.new.items result }
{
    match address_of(layout, name.as_slice()) {
        Some(address) => {
            push_loading(out, rd, address)?;
            Ok(())
        }
        None => Err(Trouble::Flawed(Flaw::Label)),
    }
}

fn write_address(
    out: &mut Vec<u8>,
    layout: &Layout<'_>,
    at: u32,
    name: &Part<'_>,
) -> Result<(), Trouble>
    requires { IsSound layout.now }
    ensures { WritesStatement layout.now at (Address name.now) out.old.items out.new.items result }
{
    match address_of(layout, name.as_slice()) {
        Some(address) => {
            push_word(out, address)?;
            Ok(())
        }
        None => Err(Trouble::Flawed(Flaw::Label)),
    }
}

// Puts a byte behind others.
fn push_byte(out: &mut Vec<u8>, byte: u8) -> Result<(), AllocError>
    ensures { OnOk result (Puts out.old.items out.new.items (Raw (byte ∷ []) ∷ [])) }
{
    out.push(byte)?;
    Ok(())
}

// Puts the bytes of a statement behind others that has no label.
fn write_plain(out: &mut Vec<u8>, statement: &Statement<'_>) -> Result<(), AllocError>
    requires encodable { IsEncodable statement.now }
    requires plain { IsPlain statement.now }
    ensures { (labels : List ℕ → Option ℕ) (at : ℕ) → OnOk result (Puts out.old.items out.new.items (cells_at labels at statement.now)) }
{
    match statement {
        Statement::Instruction(instr) => push_instr(out, instr),
        Statement::LoadNumber { rd, value } => push_loading(out, *rd, *value),
        Statement::Word(value) => push_word(out, *value),
        Statement::Byte(value) => push_byte(out, *value),
        Statement::Space(count) => push_zeros(out, *count),
        Statement::Ascii(text) => push_characters(out, text.as_slice()),
        _ => Ok(()),
    }
}

// Puts the bytes of a statement at this address behind others.
fn write_statement(
    out: &mut Vec<u8>,
    layout: &Layout<'_>,
    at: u32,
    statement: &Statement<'_>,
) -> Result<(), Trouble>
    requires sound { IsSound layout.now }
    requires encodable { IsEncodable statement.now }
    ensures { WritesStatement layout.now at statement.now out.old.items out.new.items result }
{
    match statement {
        Statement::Branch {
            op,
            rs1,
            rs2,
            label,
        } => write_branch(out, layout, at, *op, *rs1, *rs2, label),
        Statement::Jump { rd, label } => write_jump(out, layout, at, *rd, label),
        Statement::LoadAddress { rd, label } => write_load_address(out, layout, at, *rd, label),
        Statement::Address(label) => write_address(out, layout, at, label),
        _ => {
            write_plain(out, statement)?;
            Ok(())
        }
    }
}

// Puts the bytes of a statement behind those of its section.
fn write_placed(
    code: &mut Vec<u8>,
    variables: &mut Vec<u8>,
    layout: &Layout<'_>,
    placed: &Placed<'_>,
) -> Result<(), Trouble>
    requires sound { IsSound layout.now }
    requires ready { IsReady placed.now }
    ensures { WritesPlaced layout.now placed.now code.old.items code.new.items variables.old.items variables.new.items result }
{
    let at = layout.address_at(placed.spot);
    match placed.spot.section {
        Section::Text => write_statement(code, layout, at, &placed.statement),
        Section::Data => write_statement(variables, layout, at, &placed.statement),
    }
}

/// The bytes of all statements in their sections, or the first statement whose label isn't defined or isn't reached.
pub fn write_sections(alloc: Global, layout: &Layout<'_>) -> Result<Sections, Stop>
    requires { IsSound layout.now }
    ensures { WritesSections layout.now result }
{
    let mut code = Vec::new(alloc);
    let mut variables = Vec::new(alloc);
    'statements: for placed in layout.statements.as_slice() {
        if let Err(trouble) = write_placed(&mut code, &mut variables, layout, placed) {
            return Err(trouble.at_line(placed.line));
        }
    }
    Ok(Sections {
        code: Bytes::from_vec(code),
        variables: Bytes::from_vec(variables),
    })
}
