// Where the first message of some bytes ends.
ghost use Rattle.std.specs.Prelude.{◌≡◌, ◌+◌, ◌<◌, ◌≤◌, ◌++◌, ◌==◌, length, MatchBool, IfSome, slice_index};
ghost use Rattle.std.specs.List.{position};
ghost use Rattle.msg_frame.specs.Messages.{announced};
ghost use Rattle.msg_frame.specs.Feeding.{IsRest};
ghost use Rattle.msg_frame.specs.Ends.{Ends};

use crate::Framing;
use crate::framing::{LINE_FEED, MAX_MESSAGE, NUMBER_BYTES};

/// What bytes behind a rest are: refused, no whole message yet, or a message that ends within them, behind so many.
#[derive(Clone, Copy)]
pub enum End {
    Refused,
    Missing,
    Within(usize),
}

// Whether a message may have so many bytes.
fn fits(len: usize) -> bool
    ensures { MatchBool result (len ≤ MAX_MESSAGE) (MAX_MESSAGE < len) }
{
    len <= MAX_MESSAGE
}

// The place of the first line feed.
fn line_feed(bytes: &[u8]) -> Option<usize>
    ensures place { result ≡ position (λ byte. byte == LINE_FEED) bytes.now }
    ensures inside { IfSome result (λ i. i < length bytes.now) }
{
    bytes.iter().position(|byte| *byte == LINE_FEED)
}

fn line_end(rest: &[u8], bytes: &[u8]) -> End
    requires { IsRest Framing.Line rest.now }
    ensures { Ends Framing.Line rest.now bytes.now result }
{
    match line_feed(bytes) {
        None => {
            if fits(rest.len() + bytes.len()) {
                End::Missing
            } else {
                End::Refused
            }
        }
        Some(i) => {
            if fits(rest.len() + i + 1) {
                End::Within(i + 1)
            } else {
                End::Refused
            }
        }
    }
}

// The byte at a place of a rest and the bytes behind it.
fn byte_at(rest: &[u8], bytes: &[u8], i: usize) -> u8
    requires { i < length rest.now + length bytes.now }
    ensures { result ≡ slice_index (rest.now ++ bytes.now) i }
{
    if i < rest.len() {
        rest[i]
    } else {
        bytes[i - rest.len()]
    }
}

// How many bytes the message has whose number stands first.
fn announced(rest: &[u8], bytes: &[u8]) -> usize
    requires { NUMBER_BYTES ≤ length rest.now + length bytes.now }
    ensures { result ≡ announced (rest.now ++ bytes.now) }
{
    let first = byte_at(rest, bytes, 0) as usize;
    let second = byte_at(rest, bytes, 1) as usize;
    let third = byte_at(rest, bytes, 2) as usize;
    let fourth = byte_at(rest, bytes, 3) as usize;
    first + 256 * (second + 256 * (third + 256 * fourth))
}

fn length_end(rest: &[u8], bytes: &[u8]) -> End
    requires { IsRest Framing.Length rest.now }
    ensures { Ends Framing.Length rest.now bytes.now result }
{
    let len = rest.len() + bytes.len();
    if len < NUMBER_BYTES {
        return End::Missing;
    }
    let size = announced(rest, bytes);
    if !fits(size) {
        return End::Refused;
    }
    if len < NUMBER_BYTES + size {
        return End::Missing;
    }
    End::Within(NUMBER_BYTES + size - rest.len())
}

fn whole_end(rest: &[u8], bytes: &[u8]) -> End
    requires { IsRest Framing.Whole rest.now }
    ensures { Ends Framing.Whole rest.now bytes.now result }
{
    if bytes.is_empty() {
        End::Missing
    } else if fits(bytes.len()) {
        End::Within(bytes.len())
    } else {
        End::Refused
    }
}

/// The end of the first message that bytes behind a rest make whole.
pub fn end_of(framing: Framing, rest: &[u8], bytes: &[u8]) -> End
    requires { IsRest framing rest.now }
    ensures { Ends framing rest.now bytes.now result }
{
    match framing {
        Framing::Line => line_end(rest, bytes),
        Framing::Length => length_end(rest, bytes),
        Framing::Whole => whole_end(rest, bytes),
    }
}
