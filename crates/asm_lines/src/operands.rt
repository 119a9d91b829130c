// The operands of a statement.
ghost use Rattle.std.specs.Prelude.{◌≡◌, Ok, Err, MatchResult, is_some, pos};
ghost use Rattle.asm_lines.specs.Bytes.{cut};
ghost use Rattle.asm_lines.specs.Statements.{operands_of, one, two, three, register, label, number, immediate, offset, any_word, any_byte, upper, address, quoted, is_plain, is_written};

use crate::bytes::{cut, ended, is_name, trimmed};
use crate::flaw::Flaw;
use crate::numbers::number_within;
use crate::part::Part;
use crate::registers::register_of;
use rv_isa::ImmOp;

// Whether a comma stands among these bytes.
fn has_comma(bytes: &[u8]) -> bool
    ensures { result ≡ is_some (cut 44 bytes.now) }
{
    cut(bytes, b',').is_some()
}

/// The only operand.
pub fn one(operands: &[u8]) -> Result<&[u8], Flaw>
    ensures { MatchResult result (λ part. one (operands_of operands.now) ≡ Ok part.now) (λ flaw. one (operands_of operands.now) ≡ Err flaw) }
{
    if operands.is_empty() {
        return Err(Flaw::BadOperand);
    }
    if has_comma(operands) {
        return Err(Flaw::BadOperand);
    }
    Ok(trimmed(operands))
}

/// Two operands, and no more.
pub fn two(operands: &[u8]) -> Result<(&[u8], &[u8]), Flaw>
    ensures { MatchResult result (λ parts. two (operands_of operands.now) ≡ Ok (parts.0.now, parts.1.now)) (λ flaw. two (operands_of operands.now) ≡ Err flaw) }
{
    let Some((first, second)) = cut(operands, b',') else {
        return Err(Flaw::BadOperand);
    };
    if has_comma(second) {
        return Err(Flaw::BadOperand);
    }
    Ok((trimmed(first), trimmed(second)))
}

/// Three operands, and no more.
pub fn three(operands: &[u8]) -> Result<(&[u8], &[u8], &[u8]), Flaw>
    ensures { MatchResult result (λ parts. three (operands_of operands.now) ≡ Ok (parts.0.now, parts.1.now, parts.2.now)) (λ flaw. three (operands_of operands.now) ≡ Err flaw) }
{
    let Some((first, rest)) = cut(operands, b',') else {
        return Err(Flaw::BadOperand);
    };
    let Some((second, third)) = cut(rest, b',') else {
        return Err(Flaw::BadOperand);
    };
    if has_comma(third) {
        return Err(Flaw::BadOperand);
    }
    Ok((trimmed(first), trimmed(second), trimmed(third)))
}

/// A register.
#[tactic(auto, unfolding(crate::specs::Statements::register))]
pub fn register(bytes: &[u8]) -> Result<u8, Flaw>
    ensures { result ≡ register bytes.now }
{
    match register_of(bytes) {
        Some(number) => Ok(number),
        None => Err(Flaw::BadOperand),
    }
}

/// The name of a label.
#[tactic(auto, unfolding(crate::specs::Statements::label))]
pub fn label<'a>(bytes: &'a [u8]) -> Result<Part<'a>, Flaw>
    ensures { result ≡ label bytes.now }
{
    if is_name(bytes) {
        Ok(Part::new(bytes))
    } else {
        Err(Flaw::BadOperand)
    }
}

/// An offset from a register.
#[tactic(auto, unfolding(crate::specs::Statements::offset))]
pub fn offset(bytes: &[u8]) -> Result<i32, Flaw>
    ensures { result ≡ offset bytes.now }
{
    let number = number_within(-2048, 2047, bytes)?;
    Ok(number as i32)
}

// The amount of a shift.
fn amount(bytes: &[u8]) -> Result<i32, Flaw>
    ensures { result ≡ number (pos 0) (pos 31) bytes.now }
{
    let number = number_within(0, 31, bytes)?;
    Ok(number as i32)
}

/// The immediate of an operation: the amount of a shift, or twelve bits with a sign.
#[tactic(auto, unfolding(crate::specs::Statements::immediate, crate::specs::Statements::offset))]
pub fn immediate(op: ImmOp, bytes: &[u8]) -> Result<i32, Flaw>
    ensures { result ≡ immediate op bytes.now }
{
    match op {
        ImmOp::Slli | ImmOp::Srli | ImmOp::Srai => amount(bytes),
        _ => offset(bytes),
    }
}

/// A number in a word.
#[tactic(auto, unfolding(crate::specs::Statements::any_word))]
pub fn any_word(bytes: &[u8]) -> Result<u32, Flaw>
    ensures { result ≡ any_word bytes.now }
{
    let number = number_within(-2_147_483_648, 4_294_967_295, bytes)?;
    Ok((number.cast_unsigned() & 0xffff_ffff) as u32)
}

/// A number in a byte.
#[tactic(auto, unfolding(crate::specs::Statements::any_byte))]
pub fn any_byte(bytes: &[u8]) -> Result<u8, Flaw>
    ensures { result ≡ any_byte bytes.now }
{
    let number = number_within(-128, 255, bytes)?;
    Ok((number.cast_unsigned() & 0xff) as u8)
}

/// The immediate of LUI and AUIPC, by its upper twenty bits.
#[tactic(auto, unfolding(crate::specs::Statements::upper))]
pub fn upper(bytes: &[u8]) -> Result<i32, Flaw>
    ensures { result ≡ upper bytes.now }
{
    let number = number_within(0, 1_048_575, bytes)?;
    Ok(((number as u32) << 12).cast_signed())
}

/// The text of a number, and the register that stands behind it in parentheses.
#[tactic(auto, unfolding(crate::specs::Statements::address))]
pub fn address(bytes: &[u8]) -> Result<(&[u8], u8), Flaw>
    ensures { MatchResult result (λ at. address bytes.now ≡ Ok (at.0.now, at.1)) (λ flaw. address bytes.now ≡ Err flaw) }
{
    let Some((number, behind)) = cut(bytes, b'(') else {
        return Err(Flaw::BadOperand);
    };
    let Some(name) = ended(behind, b')') else {
        return Err(Flaw::BadOperand);
    };
    let base = register(name)?;
    Ok((number, base))
}

fn is_plain(byte: u8) -> bool
    ensures { result ≡ is_plain byte }
{
    b' ' <= byte && byte <= b'~' && byte != b'"' && byte != b'\\'
}

// Whether these bytes may stand in a text between its quotes.
fn is_written(bytes: &[u8]) -> bool
    ensures { result ≡ is_written bytes.now }
{
    let mut rest = bytes;
    'bytes: while let [first, behind @ ..] = rest {
        if let [b'\\', b'n', more @ ..] = rest {
            rest = more;
            continue 'bytes;
        }
        if !is_plain(*first) {
            return false;
        }
        rest = behind;
    }
    true
}

/// What stands between the quotes of a text.
#[tactic(auto, unfolding(crate::specs::Statements::quoted))]
pub fn quoted<'a>(bytes: &'a [u8]) -> Result<Part<'a>, Flaw>
    ensures { result ≡ quoted bytes.now }
{
    let [b'"', rest @ ..] = bytes else {
        return Err(Flaw::BadOperand);
    };
    match ended(rest, b'"') {
        Some(text) => {
            if is_written(text) {
                Ok(Part::new(text))
            } else {
                Err(Flaw::BadOperand)
            }
        }
        None => Err(Flaw::BadOperand),
    }
}
