// What a person is told of a refusal.
use crate::bytes::{is_allowed, split_word, trimmed};
use crate::form::{Form, Section};
use crate::line::Line;
use crate::lines::{line_of, split_line};
use crate::mnemonics::stands_in;
use crate::operands::{one, three, two};
use std::alloc::{AllocError, Global};

// The line with this number, counted from 1, and the section in force in front of it.
fn line_at(text: &[u8], number: u32) -> (&[u8], Section) {
    let mut section = Section::Text;
    let (mut line, mut rest) = split_line(text);
    'lines: for _ in 1..number {
        if rest.is_empty() {
            break 'lines;
        }
        if let Some(
            Line {
                label: _,
                words: Some(words),
            },
        ) = line_of(line)
        {
            if let Form::Into(next) = words.form {
                section = next;
            }
        }
        (line, rest) = split_line(rest);
    }
    (line, section)
}

// The operands that a form takes.
fn operands_of(form: Form) -> &'static str {
    match form {
        Form::Op(_) => "rd, rs1, rs2",
        Form::OpImm(_) => "rd, rs1, number",
        Form::Load(_) | Form::Jalr =>
            "rd, number(rs1), where the number and the register stand without blanks",
        Form::Store(_) =>
            "rs2, number(rs1), where the number and the register stand without blanks",
        Form::Branch(_) => "rs1, rs2, label",
        Form::BranchZero(_) => "rs, label",
        Form::Jal | Form::La => "rd, label",
        Form::Jump(_) => "label",
        Form::Lui | Form::Auipc | Form::Li => "rd, number",
        Form::Mv => "rd, rs",
        Form::Ecall | Form::Ebreak | Form::Fence | Form::Nop | Form::Ret | Form::Into(_) => {
            "no operands"
        }
        Form::Word => "a number or a label",
        Form::Byte => "a number",
        Form::Space => "a number of zeros",
        Form::Ascii =>
            "a text in quotes, of bytes from the space to ~ without quotes and \\ inside, but \\n for a line feed",
    }
}

// The range of a form's number, or how far its label may be.
fn range_of(form: Form) -> &'static str {
    match form {
        Form::OpImm(op) => match op {
            rv_isa::ImmOp::Slli | rv_isa::ImmOp::Srli | rv_isa::ImmOp::Srai => {
                "the number is from 0 to 31"
            }
            _ => "the number is from -2048 to 2047",
        },
        Form::Load(_) | Form::Store(_) | Form::Jalr => "the number is from -2048 to 2047",
        Form::Lui | Form::Auipc => "the number is from 0 to 1048575",
        Form::Li | Form::Word => "the number is from -2147483648 to 4294967295",
        Form::Byte => "the number is from -128 to 255",
        Form::Space => "the number is from 0 to 65536",
        Form::Branch(_) | Form::BranchZero(_) => {
            "the label is at an even distance from -4096 to 4094 bytes"
        }
        Form::Jal | Form::Jump(_) => {
            "the label is at an even distance from -1048576 to 1048574 bytes"
        }
        _ => "it ends within the limit",
    }
}

// Puts bytes behind a text; those that no line may have are shown as `?`.
fn push_bytes(out: &mut String, bytes: &[u8]) -> Result<(), AllocError> {
    'bytes: for byte in bytes {
        out.push(if is_allowed(*byte) {
            char::from(*byte)
        } else {
            '?'
        })?;
    }
    Ok(())
}

// Puts bytes behind a text, with what stands in front of them and behind them.
fn push_name(out: &mut String, front: &str, bytes: &[u8], behind: &str) -> Result<(), AllocError> {
    out.push_str(front)?;
    push_bytes(out, bytes)?;
    out.push_str(behind)
}

// The label that stands among a statement's operands, as the last of them.
fn label_in(operands: &[u8]) -> &[u8] {
    if let Ok((_, _, last)) = three(operands) {
        return last;
    }
    if let Ok((_, last)) = two(operands) {
        return last;
    }
    match one(operands) {
        Ok(only) => only,
        Err(_) => operands,
    }
}

// Why a line has nothing that is known.
fn push_no_line(alloc: Global, out: &mut String, bytes: &[u8]) -> Result<(), AllocError> {
    if let Some(byte) = bytes.iter().find(|byte| !is_allowed(**byte)) {
        out.push_str("a line has tabs and the bytes from the space to ~, and not the byte ")?;
        let number = format!(in alloc; "{}", *byte)?;
        return out.push_str(number.as_str());
    }
    let (word, _) = split_word(trimmed(bytes));
    push_name(
        out,
        "`",
        word,
        "` begins no statement that is known, and no label with its colon",
    )
}

// Why a line isn't known, though it is one.
fn unknown(line: Line<'_>, section: Section) -> &'static str {
    match line.words {
        Some(words) => {
            if stands_in(section, words.form) {
                return "the text section has no bytes up to here, the last line";
            }
            match section {
                Section::Text => "this stands in the data section, behind `.data`",
                Section::Data => "this stands in the text section, behind `.text`",
            }
        }
        None => "the text section has no bytes up to here, the last line",
    }
}

// Why a line isn't known.
fn push_unknown(
    alloc: Global,
    out: &mut String,
    bytes: &[u8],
    section: Section,
) -> Result<(), AllocError> {
    match line_of(bytes) {
        Some(line) => out.push_str(unknown(line, section)),
        None => push_no_line(alloc, out, bytes),
    }
}

// What would be right in place of an operand, a number or a label.
fn push_right(out: &mut String, line: Line<'_>, kind: u8) -> Result<(), AllocError> {
    let Line { label, words } = line;
    if kind == 5 {
        let name = match label {
            Some(name) => name.as_slice(),
            None => &[],
        };
        return push_name(out, "the label `", name, "` is defined on an earlier line");
    }
    let Some(words) = words else {
        return out.push_str("no statement stands here");
    };
    match kind {
        2 => {
            out.push_str("the operands are: ")?;
            out.push_str(operands_of(words.form))
        }
        3 => {
            out.push_str(range_of(words.form))?;
            out.push_str(", and both sections together have at most 524288 bytes")
        }
        _ => push_name(
            out,
            "the label `",
            label_in(words.operands.as_slice()),
            "` is defined on no line",
        ),
    }
}

/// What stands on the line of a refusal, and what would be right there, for a person: `kind` and `line` are those that
/// `assemble` answered for this text.
pub fn explain(alloc: Global, text: &[u8], kind: u8, line: u32) -> Result<String, AllocError> {
    let (bytes, section) = line_at(text, line);
    let mut out = format!(in alloc; "line {line}: ")?;
    push_name(&mut out, "", trimmed(bytes), ": ")?;
    if kind == 1 {
        push_unknown(alloc, &mut out, bytes, section)?;
        return Ok(out);
    }
    match line_of(bytes) {
        Some(line) => push_right(&mut out, line, kind)?,
        None => out.push_str("no statement stands here")?,
    }
    Ok(out)
}
