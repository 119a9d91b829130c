// The text of a piece, and the bytes that it spells.
ghost use Rattle.std.specs.Prelude.{◌≡◌, ◌<◌, ◌++◌, ◌∷◌, [], Ok, Err, OnOk, IfOk, IfSome};
ghost use Rattle.trunk_text.specs.Escapes.{IsSmall, IsSmallStep, is_control, hex_value, hex_digit, on_whole, on_backslash, on_hex, on_digit, next, at_end, Spells, Puts, spelled, escaped, piece_text};

use crate::line::{Flaw, LineFault};
use std::alloc::{AllocError, Global};

/// What stands before the next byte of a text: a byte that is whole, a backslash, a backslash and `x`, or these and one digit.
#[derive(Clone, Copy, Drop)]
pub(crate) enum Before {
    Whole,
    Backslash,
    Hex,
    Digit(u8),
}

/// What one more byte of a text does: it spells a byte, or stands before the next one.
#[derive(Clone, Copy, Drop)]
pub(crate) enum Step {
    Spells(u8),
    Stands(Before),
}

/// A byte below the space, or that behind `~`.
pub(crate) fn is_control(byte: u8) -> bool
    ensures { result ≡ is_control byte }
{
    byte < 32 || byte == 127
}

// The value of a hexadecimal digit, in either case.
fn hex_value(byte: u8) -> Option<u8>
    ensures value { result ≡ hex_value byte }
    ensures small { IfSome result (λ n. n < 16) }
{
    match byte {
        b'0'..=b'9' => Some(byte - b'0'),
        b'a'..=b'f' => Some(byte - b'a' + 10),
        b'A'..=b'F' => Some(byte - b'A' + 10),
        _ => None,
    }
}

fn hex_digit(number: u8) -> u8
    requires { number < 16 }
    ensures { result ≡ hex_digit number }
{
    if number < 10 {
        number + b'0'
    } else {
        number - 10 + b'a'
    }
}

fn on_whole(byte: u8) -> Result<Step, Flaw>
    ensures { result ≡ on_whole byte }
{
    if byte == b'\\' {
        return Ok(Step::Stands(Before::Backslash));
    }
    if is_control(byte) {
        return Err(Flaw::Control);
    }
    Ok(Step::Spells(byte))
}

fn on_backslash(byte: u8) -> Result<Step, Flaw>
    ensures { result ≡ on_backslash byte }
{
    if byte == b'\\' {
        return Ok(Step::Spells(b'\\'));
    }
    if byte == b'n' {
        return Ok(Step::Spells(b'\n'));
    }
    if byte == b'r' {
        return Ok(Step::Spells(b'\r'));
    }
    if byte == b't' {
        return Ok(Step::Spells(b'\t'));
    }
    if byte == b'x' {
        return Ok(Step::Stands(Before::Hex));
    }
    Err(Flaw::Escape)
}

fn on_hex(byte: u8) -> Result<Step, Flaw>
    ensures next { result ≡ on_hex byte }
    ensures small { IfOk result IsSmallStep }
{
    match hex_value(byte) {
        Some(value) => Ok(Step::Stands(Before::Digit(value))),
        None => Err(Flaw::Escape),
    }
}

fn on_digit(high: u8, byte: u8) -> Result<Step, Flaw>
    requires { high < 16 }
    ensures { result ≡ on_digit high byte }
{
    match hex_value(byte) {
        Some(value) => Ok(Step::Spells(16 * high + value)),
        None => Err(Flaw::Escape),
    }
}

// What one more byte does behind what stands before it.
fn next(before: Before, byte: u8) -> Result<Step, Flaw>
    requires { IsSmall before }
    ensures next { result ≡ next before byte }
    ensures small { IfOk result IsSmallStep }
{
    match before {
        Before::Whole => on_whole(byte),
        Before::Backslash => on_backslash(byte),
        Before::Hex => on_hex(byte),
        Before::Digit(high) => on_digit(high, byte),
    }
}

// Puts what a byte spells behind some bytes, and says what stands before the next one.
fn put(step: Step, bytes: &mut Vec<u8>) -> Result<Before, AllocError>
    requires { IsSmallStep step }
    ensures put { Puts step bytes.old.items bytes.new.items result }
    ensures small { IfOk result IsSmall }
{
    match step {
        Step::Spells(byte) => {
            bytes.push(byte)?;
            Ok(Before::Whole)
        }
        Step::Stands(before) => Ok(before),
    }
}

// Ends a text: behind a whole byte the line feed of its line is added, and behind a single backslash none is.
fn at_end(before: Before, mut bytes: Vec<u8>) -> Result<Vec<u8>, LineFault>
    ensures { Spells (at_end before bytes.items) result }
{
    match before {
        Before::Whole => match bytes.push(b'\n') {
            Ok(()) => Ok(bytes),
            Err(_) => Err(LineFault::Memory),
        },
        Before::Backslash => Ok(bytes),
        _ => Err(LineFault::Refused(Flaw::Escape)),
    }
}

/// The bytes that the text of a piece spells.
pub(crate) fn spelled(alloc: Global, text: &[u8]) -> Result<Vec<u8>, LineFault>
    ensures { Spells (spelled text.now) result }
{
    let mut bytes = Vec::new(alloc);
    let mut before = Before::Whole;
    let mut rest = text;
    'text: while let [byte, behind @ ..] = rest {
        let step = match next(before, *byte) {
            Ok(step) => step,
            Err(flaw) => return Err(LineFault::Refused(flaw)),
        };
        before = match put(step, &mut bytes) {
            Ok(after) => after,
            Err(_) => return Err(LineFault::Memory),
        };
        rest = behind;
    }
    at_end(before, bytes)
}

// Puts a backslash and a byte behind a text.
fn push_backslash(text: &mut Vec<u8>, byte: u8) -> Result<(), AllocError>
    ensures { OnOk result (text.new.items ≡ text.old.items ++ 92 ∷ byte ∷ []) }
{
    text.push(b'\\')?;
    text.push(byte)?;
    Ok(())
}

// Puts a byte behind a text, as it is written there.
fn push_escaped(text: &mut Vec<u8>, byte: u8) -> Result<(), AllocError>
    ensures { OnOk result (text.new.items ≡ text.old.items ++ escaped byte) }
{
    if byte == b'\\' {
        return push_backslash(text, b'\\');
    }
    if byte == b'\n' {
        return push_backslash(text, b'n');
    }
    if byte == b'\r' {
        return push_backslash(text, b'r');
    }
    if byte == b'\t' {
        return push_backslash(text, b't');
    }
    if !is_control(byte) {
        text.push(byte)?;
        return Ok(());
    }
    let escape = [b'\\', b'x', hex_digit(byte / 16), hex_digit(byte % 16)];
    text.extend_from_slice(&escape)
}

/// Puts the text of a piece behind what a line has already.
pub(crate) fn push_piece(text: &mut Vec<u8>, bytes: &[u8]) -> Result<(), AllocError>
    ensures { OnOk result (text.new.items ≡ text.old.items ++ piece_text bytes.now) }
{
    let mut rest = bytes;
    'bytes: while let [byte, behind @ ..] = rest {
        let last = behind.is_empty();
        if last && *byte == b'\n' {
            return Ok(());
        }
        match push_escaped(text, *byte) {
            Ok(()) => {}
            Err(e) => return Err(e),
        }
        rest = behind;
    }
    text.push(b'\\')?;
    Ok(())
}
