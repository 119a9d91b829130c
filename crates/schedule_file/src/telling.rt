// What a line is read as. A line tells some values by its places; it is of its form where they are in their ranges and it is
// what is written of them.
ghost use Rattle.std.specs.Prelude.{◌≡◌, ◌==◌, ◌&&◌, ◌^◌, nat_le, nat_lt, slice_index};
ghost use Rattle.schedule_file.specs.declared.recorded.TheConstants.{VERSION};
ghost use Rattle.text_lines.specs.Written.{Tells};
ghost use Rattle.schedule_file.specs.Telling.{frame_told, hex_from, hex_at, ask_told, asked_told, line_told, is_ask_of, is_carrying, is_marked, was_calloc, was_replacing, is_answer, head_of, answer_of, end_of};

use crate::numbers::hex_value;
use crate::recorded::{Finish, Head, Line, MAX_WINDOW, VERSION};
use crate::writing::{end_line, head_text, line_text};
use block_book::Ask;
use msg_frame::Framing;
use rx_base::MAX_ITEMS;
use std::alloc::{AllocError, Global};
use text_lines::{behind, is_same, number_in_front, two_numbers};

// The framing that the bytes behind the window tell.
fn frame_told(behind: &[u8]) -> Framing
    ensures { result ≡ frame_told behind.now }
{
    match behind.get(8) {
        Some(b'i') => Framing::Line,
        Some(b'e') => Framing::Length,
        _ => Framing::Whole,
    }
}

fn is_head(version: u64, window: u64) -> bool
    ensures { result ≡ ((nat_le 1 version && nat_le version VERSION) && (nat_le 1 window && nat_le window MAX_WINDOW)) }
{
    1 <= version && version <= u64::from(VERSION) && 1 <= window && window <= u64::from(MAX_WINDOW)
}

// What a first line says, if it is one.
pub(crate) fn head_of(alloc: Global, line: &[u8]) -> Result<Option<Head>, AllocError>
    ensures { Tells (head_of line.now) result }
{
    let (version, rest) = number_in_front(behind(line, 10));
    let (window, rest) = number_in_front(behind(rest, 8));
    if !is_head(version, window) {
        return Ok(None);
    }
    let head = Head {
        version: version as u8,
        window: window as u32,
        frame: frame_told(rest),
    };
    let text = head_text(alloc, head.version, head.window, head.frame)?;
    if is_same(text.as_slice(), line) {
        Ok(Some(head))
    } else {
        Ok(None)
    }
}

// The number of eight hexadecimal digits.
fn hex_number(digits: [u8; 8]) -> u32
    ensures { result ≡ hex_from 0 digits }
{
    let [a, b, c, d, e, f, g, h] = digits;
    let first = 16 * hex_value(a) + hex_value(b);
    let second = 16 * hex_value(c) + hex_value(d);
    let third = 16 * hex_value(e) + hex_value(f);
    let fourth = 16 * hex_value(g) + hex_value(h);
    0x100_0000 * first + 0x1_0000 * second + 0x100 * third + fourth
}

// The number of eight hexadecimal digits at a place, or 0 where so many bytes don't stand there.
fn hex_at(line: &[u8], place: usize) -> u32
    ensures { result ≡ hex_at place line.now }
{
    let [a, b, c, d, e, f, g, h, ..] = behind(line, place) else {
        return 0;
    };
    hex_number([*a, *b, *c, *d, *e, *f, *g, *h])
}

// What a line of version 2 tells that was asked.
fn ask_told(line: &[u8]) -> Ask
    ensures { result ≡ ask_told line.now }
{
    let first = hex_at(line, 13);
    let second = hex_at(line, 22);
    match line.get(0) {
        Some(b'm') => Ask::Malloc { size: first },
        Some(b'c') => Ask::Calloc {
            count: first,
            size: second,
        },
        _ => Ask::Realloc {
            old: first,
            size: second,
        },
    }
}

fn asked_told(version: u8, line: &[u8]) -> Option<Ask>
    ensures { result ≡ asked_told version line.now }
{
    if version == 1 {
        None
    } else {
        Some(ask_told(line))
    }
}

fn is_zeroed(line: &[u8]) -> bool
    ensures { result ≡ (slice_index line.now 11 == 122) }
{
    match line.get(11) {
        Some(b'z') => true,
        _ => false,
    }
}

// The answer that a line tells.
fn line_told(version: u8, line: &[u8]) -> Line
    ensures { result ≡ line_told version line.now }
{
    Line {
        ask: asked_told(version, line),
        at: hex_at(line, 2),
        zeroed: is_zeroed(line),
        carried: hex_at(line, 31),
    }
}

// Version 2 has what was asked, and version 1 hasn't.
fn is_ask_of(version: u8, ask: Option<Ask>) -> bool
    ensures { result ≡ is_ask_of version ask }
{
    match ask {
        None => version == 1,
        Some(_) => version == 2,
    }
}

fn was_calloc(ask: Option<Ask>) -> bool
    ensures { result ≡ was_calloc ask }
{
    match ask {
        None => false,
        Some(ask) => ask.is_calloc(),
    }
}

// A null answer isn't zeroed, and a block that calloc asked for is.
fn is_marked(calloc: bool, address: u32, zeroed: bool) -> bool
    ensures { result ≡ is_marked calloc address zeroed }
{
    if address == 0 {
        !zeroed
    } else {
        zeroed || !calloc
    }
}

fn was_replacing(ask: Option<Ask>) -> bool
    ensures { result ≡ was_replacing ask }
{
    match ask {
        Some(Ask::Realloc { old, size: _ }) => old != 0,
        _ => false,
    }
}

// Bytes are carried only to a block that stands in place of another one.
fn is_carrying(replacing: bool, address: u32, carried: u32) -> bool
    ensures { result ≡ is_carrying replacing address carried }
{
    if carried == 0 {
        true
    } else {
        address != 0 && replacing
    }
}

fn is_answer(version: u8, line: Line) -> bool
    ensures { result ≡ is_answer version line }
{
    let calloc = was_calloc(line.ask);
    let replacing = was_replacing(line.ask);
    is_ask_of(version, line.ask)
        && is_marked(calloc, line.at, line.zeroed)
        && is_carrying(replacing, line.at, line.carried)
}

// The answer that a line says, if it is the line of one in a version.
pub(crate) fn answer_of(version: u8, line: &[u8]) -> Option<Line>
    ensures { result ≡ answer_of version line.now }
{
    let answer = line_told(version, line);
    if !is_answer(version, answer) {
        return None;
    }
    if is_same(line_text(answer).as_slice(), line) {
        Some(answer)
    } else {
        None
    }
}

fn is_end(steps: u64, taken: u64) -> bool
    ensures { result ≡ (nat_lt steps (2 ^ 63) && nat_le taken MAX_ITEMS) }
{
    steps < 1 << 63 && taken <= MAX_ITEMS
}

// What a last line says, if it is one.
pub(crate) fn end_of(alloc: Global, line: &[u8]) -> Result<Option<Finish>, AllocError>
    ensures { Tells (end_of line.now) result }
{
    let (steps, taken) = two_numbers(behind(line, 4));
    if !is_end(steps, taken) {
        return Ok(None);
    }
    let text = end_line(alloc, steps, taken)?;
    if is_same(text.as_slice(), line) {
        Ok(Some(Finish { steps, taken }))
    } else {
        Ok(None)
    }
}
