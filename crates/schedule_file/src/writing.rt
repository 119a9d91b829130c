// The lines of a record.
ghost use Rattle.std.specs.Prelude.{◌≡◌, ◌+◌, ◌≤◌, ◌<◌, ◌^◌, ◌++◌, [], ◌∷◌, true, false, length, IsSome, OnOk, OnErr};
ghost use Rattle.std.specs.Vec.{vec_len, vec_capacity};
ghost use Rattle.block_book.specs.Answer.{is_calloc, replaced};
ghost use Rattle.schedule_file.specs.declared.recorded.TheConstants.{VERSION};
ghost use Rattle.rx_base.specs.declared.item.TheConstants.{MAX_ITEMS};
ghost use Rattle.text_lines.specs.Written.{Writes};
ghost use Rattle.schedule_file.specs.Lines.{carried_part, frame_name, front, spaced, head_line, line_text, choice_line, end_line};
ghost use Rattle.schedule_file.specs.Steps.{bytes_of};

use crate::numbers::eight_digits;
use crate::recorded::{Line, MAX_WINDOW, VERSION};
use block_book::{Ask, Choice};
use msg_frame::Framing;
use rx_base::Bytes;
use std::alloc::{AllocError, Global};

fn frame_name(frame: Framing) -> &'static str
    ensures { result.now ≡ frame_name frame }
{
    match frame {
        Framing::Line => "line",
        Framing::Length => "length",
        Framing::Whole => "whole",
    }
}

// The first line of a record in a version.
#[tactic(auto, unfolding(crate::specs::Lines::head_line))]
pub(crate) fn head_text(
    alloc: Global,
    version: u8,
    window: u32,
    frame: Framing,
) -> Result<Bytes, AllocError>
    ensures { Writes (head_line version window frame) result }
{
    let name = frame_name(frame);
    let text = format!(in alloc; "rx record {version} window {window} frame {name}\n")?;
    Ok(Bytes::from_vec(text.into_bytes()))
}

/// The first line of a record, with its line feed: `rx record 2 window W frame F`. The window is in MiB.
pub fn head_line(alloc: Global, window: u32, frame: Framing) -> Result<Bytes, AllocError>
    requires least { 1 ≤ window }
    requires most { window ≤ MAX_WINDOW }
    ensures { Writes (head_line VERSION window frame) result }
{
    head_text(alloc, VERSION, window, frame)
}

// The bytes of the line of an answer: of one with no number behind its front, with one, two and three.
#[derive(Clone, Copy)]
pub(crate) enum LineBytes {
    Alone([u8; 13]),
    One([u8; 22]),
    Two([u8; 31]),
    Three([u8; 40]),
}

impl LineBytes {
    pub fn as_slice(&self) -> &[u8]
        ensures { result.now ≡ bytes_of self.now }
    {
        match self {
            LineBytes::Alone(bytes) => bytes,
            LineBytes::One(bytes) => bytes,
            LineBytes::Two(bytes) => bytes,
            LineBytes::Three(bytes) => bytes,
        }
    }
}

// The front of a line: the letter, the address, and whether the block was zeroed.
fn front(letter: u8, line: Line) -> [u8; 12]
    ensures { result ≡ front letter line.at line.zeroed }
{
    let [a, b, c, d, e, f, g, h] = eight_digits(line.at);
    let mark = if line.zeroed { b'z' } else { b'-' };
    [letter, b' ', a, b, c, d, e, f, g, h, b' ', mark]
}

// A front, and no argument.
fn alone(letter: u8, line: Line) -> LineBytes
    ensures { bytes_of result ≡ front letter line.at line.zeroed ++ 10 ∷ [] }
{
    let [r, s, t, u, v, w, x, y, z, p, q, mark] = front(letter, line);
    LineBytes::Alone([r, s, t, u, v, w, x, y, z, p, q, mark, b'\n'])
}

// A front, and one argument.
fn with_one(letter: u8, line: Line, argument: u32) -> LineBytes
    ensures { bytes_of result ≡ front letter line.at line.zeroed ++ (spaced argument ++ 10 ∷ []) }
{
    let [r, s, t, u, v, w, x, y, z, p, q, mark] = front(letter, line);
    let [a, b, c, d, e, f, g, h] = eight_digits(argument);
    LineBytes::One([
        r, s, t, u, v, w, x, y, z, p, q, mark, b' ', a, b, c, d, e, f, g, h, b'\n',
    ])
}

// A front, and two arguments.
fn with_two(letter: u8, line: Line, first: u32, second: u32) -> LineBytes
    ensures { bytes_of result ≡ front letter line.at line.zeroed ++ (spaced first ++ (spaced second ++ 10 ∷ [])) }
{
    let [r, s, t, u, v, w, x, y, z, p, q, mark] = front(letter, line);
    let [a, b, c, d, e, f, g, h] = eight_digits(first);
    let [i, j, k, l, m, n, o, last] = eight_digits(second);
    LineBytes::Two([
        r, s, t, u, v, w, x, y, z, p, q, mark, b' ', a, b, c, d, e, f, g, h, b' ', i, j, k, l, m,
        n, o, last, b'\n',
    ])
}

// A front, two arguments, and how many bytes were carried.
fn with_three(line: Line, old: u32, size: u32) -> LineBytes
    ensures { bytes_of result ≡ front 114 line.at line.zeroed ++ (spaced old ++ (spaced size ++ (spaced line.carried ++ 10 ∷ []))) }
{
    let [r, s, t, u, v, w, x, y, z, p, q, mark] = front(b'r', line);
    let [a, b, c, d, e, f, g, h] = eight_digits(old);
    let [i, j, k, l, m, n, o, last] = eight_digits(size);
    let [aa, bb, cc, dd, ee, ff, gg, hh] = eight_digits(line.carried);
    LineBytes::Three([
        r, s, t, u, v, w, x, y, z, p, q, mark, b' ', a, b, c, d, e, f, g, h, b' ', i, j, k, l, m,
        n, o, last, b' ', aa, bb, cc, dd, ee, ff, gg, hh, b'\n',
    ])
}

// The line of an answer to realloc.
fn realloc_text(line: Line, old: u32, size: u32) -> LineBytes
    ensures { bytes_of result ≡ front 114 line.at line.zeroed ++ (spaced old ++ spaced size ++ carried_part line.carried ++ 10 ∷ []) }
{
    if line.carried == 0 {
        with_two(b'r', line, old, size)
    } else {
        with_three(line, old, size)
    }
}

// The line of an answer, with its line feed.
#[tactic(auto, unfolding(crate::specs::Lines::line_text))]
pub(crate) fn line_text(line: Line) -> LineBytes
    ensures { bytes_of result ≡ line_text line }
{
    match line.ask {
        None => alone(b'm', line),
        Some(Ask::Malloc { size }) => with_one(b'm', line, size),
        Some(Ask::Calloc { count, size }) => with_two(b'c', line, count, size),
        Some(Ask::Realloc { old, size }) => realloc_text(line, old, size),
    }
}

// The line of an answer, with what was asked.
fn choice_text(choice: Choice) -> LineBytes
    ensures { bytes_of result ≡ choice_line choice }
{
    line_text(Line {
        ask: Some(choice.ask),
        at: choice.at,
        zeroed: choice.zeroed,
        carried: choice.carried,
    })
}

/// The line of an answer of the allocator, with its line feed: `m AAAAAAAA M SSSSSSSS` of malloc, `c AAAAAAAA M NNNNNNNN SSSSSSSS`
/// of calloc, `r AAAAAAAA M OOOOOOOO SSSSSSSS` of realloc. It has the address, the count or the old address, and the size. M is `z`
/// where the block was zeroed, else `-`. Where bytes are carried, ` CCCCCCCC` stands behind them: how many.
pub fn choice_line(alloc: Global, choice: Choice) -> Result<Bytes, AllocError>
    requires null { choice.at ≡ 0 → choice.zeroed ≡ false }
    requires zeros { is_calloc choice.ask ≡ true → 0 < choice.at → choice.zeroed ≡ true }
    requires carries { 0 < choice.carried → (0 < choice.at) × IsSome (replaced choice.ask) }
    ensures { Writes (choice_line choice) result }
{
    let text = choice_text(choice);
    Ok(Bytes::from_vec(text.as_slice().to_vec(alloc)?))
}

/// Adds the line of an answer of the allocator to some bytes, which stay as they are where memory runs out.
pub fn add_choice(bytes: &mut Vec<u8>, choice: Choice) -> Result<(), AllocError>
    ensures added { OnOk result (bytes.new.items ≡ bytes.old.items ++ choice_line choice) }
    ensures kept { OnErr result (bytes.new.items ≡ bytes.old.items) }
    ensures full { OnErr result (vec_capacity bytes.old < vec_len bytes.old + length (choice_line choice)) }
{
    let text = choice_text(choice);
    bytes.extend_from_slice(text.as_slice())
}

/// The last line of a record, with its line feed: `end STEPS TAKEN`.
#[tactic(auto, unfolding(crate::specs::Lines::end_line))]
pub fn end_line(alloc: Global, steps: u64, taken: u64) -> Result<Bytes, AllocError>
    requires some_steps { steps < 2 ^ 63 }
    requires some_taken { taken ≤ MAX_ITEMS }
    ensures { Writes (end_line steps taken) result }
{
    let text = format!(in alloc; "end {steps} {taken}\n")?;
    Ok(Bytes::from_vec(text.into_bytes()))
}
