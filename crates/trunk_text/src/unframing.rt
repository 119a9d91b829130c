// Frames are turned into lines.
ghost use Rattle.std.specs.Prelude.{◌≡◌, ◌≢◌, ◌≤◌, ◌<◌, ◌++◌, ◌∷◌, [], length, MatchOption};
ghost use Rattle.std.specs.Io.KnownBytes.{Appends};
ghost use Rattle.rx_base.specs.Faults.{HasCause, Rose};
ghost use Rattle.rx_base.specs.Outside.{IsDrained, Took};
ghost use Rattle.trunk_wire.specs.Calls.{Behind, WritesAll};
ghost use Rattle.trunk_wire.specs.Frames.{header_bytes};
ghost use Rattle.trunk_text.specs.Turns.{Goes, IsForward, Moved, TurnsBy};
ghost use Rattle.trunk_text.specs.Lines.{text_of};
ghost use Rattle.trunk_text.specs.Unframing.{GivesText, TakesUpTo, TakesFrame, header_flaw, says_of, unframing};

use crate::line::{Flaw, Line};
use crate::streams::{give_all, take_byte};
use crate::turning::{Ended, Turn, read_ended, write_ended};
use crate::writing::text_of;
use rx_base::{Bytes, IoFault};
use rx_io::{Sink, Source};
use std::alloc::Global;

/// What was taken of a source: a whole frame and how many bytes it has, nothing at the end of the input, or what is refused.
#[derive(Drop)]
pub(crate) enum Read {
    Whole(Line, u64),
    End,
    Wrong(Flaw),
}

/// A frame's kind, its connection, and how many bytes of payload it has.
#[derive(Clone, Copy, Drop)]
pub(crate) struct Head {
    pub kind: u8,
    pub conn: u16,
    pub length: u16,
}

// The header that five bytes are.
fn head_of(bytes: &[u8]) -> Option<Head>
    ensures { MatchOption result (length bytes.now ≢ 5) (λ head. bytes.now ≡ header_bytes (record { kind = head.kind; conn = head.conn; length = head.length })) }
{
    match bytes {
        [kind, conn_low, conn_high, length_low, length_high] => Some(Head {
            kind: *kind,
            conn: u16::from(*conn_low) + 256 * u16::from(*conn_high),
            length: u16::from(*length_low) + 256 * u16::from(*length_high),
        }),
        _ => None,
    }
}

// Takes so many bytes, or all that are left where they are fewer.
fn take_up_to<S: Source>(alloc: Global, source: &mut S, count: usize) -> Result<Vec<u8>, IoFault>
    ensures bytes { TakesUpTo count (Took (S.told source.old) (S.told source.new)) (IsDrained (S.told source.new)) result }
    ensures fixed { S.fixed source.new ≡ S.fixed source.old }
    ensures cause { HasCause (S.faults source.old) (S.faults source.new) result }
{
    let mut bytes = Vec::new(alloc);
    'bytes: while bytes.len() < count {
        let byte = match take_byte(source) {
            Ok(Some(byte)) => byte,
            Ok(None) => return Ok(bytes),
            Err(fault) => return Err(fault),
        };
        match bytes.push(byte) {
            Ok(()) => {}
            Err(_) => return Err(IoFault::Memory),
        }
    }
    Ok(bytes)
}

// Why a header is refused: its kind isn't 1 to 4, or it has a payload that its kind hasn't.
fn header_flaw(kind: u8, conn: u16, length: u16) -> Option<Flaw>
    ensures { result ≡ header_flaw (record { kind = kind; conn = conn; length = length }) }
{
    if kind < 1 || kind > 4 {
        return Some(Flaw::Kind);
    }
    if kind != 2 && length != 0 {
        return Some(Flaw::Payload);
    }
    None
}

// What a frame says.
fn says_of(kind: u8, conn: u16, payload: Vec<u8>) -> Line
    ensures { result ≡ says_of kind conn payload.items }
{
    match kind {
        1 => Line::Opens(conn),
        2 => Line::Piece(conn, Bytes::from_vec(payload)),
        3 => Line::Closes(conn),
        _ => Line::Settles,
    }
}

// Takes the payload behind a header.
fn take_payload<S: Source>(
    alloc: Global,
    source: &mut S,
    kind: u8,
    conn: u16,
    length: u16,
) -> Result<Read, IoFault>
    ensures frame { TakesFrame (Behind (header_bytes (record { kind = kind; conn = conn; length = length })) (Took (S.told source.old) (S.told source.new))) (IsDrained (S.told source.new)) result }
    ensures fixed { S.fixed source.new ≡ S.fixed source.old }
    ensures cause { HasCause (S.faults source.old) (S.faults source.new) result }
{
    if let Some(flaw) = header_flaw(kind, conn, length) {
        return Ok(Read::Wrong(flaw));
    }
    let payload = match take_up_to(alloc, source, length as usize) {
        Ok(payload) => payload,
        Err(fault) => return Err(fault),
    };
    if payload.len() < length as usize {
        return Ok(Read::Wrong(Flaw::Cut));
    }
    Ok(Read::Whole(says_of(kind, conn, payload), 5 + u64::from(length)))
}

// Takes the next frame, and no byte behind it.
fn take_frame<S: Source>(alloc: Global, source: &mut S) -> Result<Read, IoFault>
    ensures frame { TakesFrame (Took (S.told source.old) (S.told source.new)) (IsDrained (S.told source.new)) result }
    ensures fixed { S.fixed source.new ≡ S.fixed source.old }
    ensures cause { HasCause (S.faults source.old) (S.faults source.new) result }
{
    let header = match take_up_to(alloc, source, 5) {
        Ok(header) => header,
        Err(fault) => return Err(fault),
    };
    if header.is_empty() {
        return Ok(Read::End);
    }
    let Some(head) = head_of(header.as_slice()) else {
        return Ok(Read::Wrong(Flaw::Cut));
    };
    take_payload(alloc, source, head.kind, head.conn, head.length)
}

// Gives a line.
fn give_text<K: Sink>(alloc: Global, sink: &mut K, line: &Line) -> Result<(), IoFault>
    ensures bytes { WritesAll (Appends (K.told sink.old) (K.told sink.new)) (text_of line.now ++ 10 ∷ []) result }
    ensures fixed { K.fixed sink.new ≡ K.fixed sink.old }
    ensures cause { HasCause (K.faults sink.old) (K.faults sink.new) result }
{
    match text_of(alloc, line) {
        Ok(text) => give_all(sink, text.as_slice()),
        Err(_) => Err(IoFault::Memory),
    }
}

// Gives the line of a frame of so many bytes that begins at an offset.
fn turn_says<K: Sink>(alloc: Global, sink: &mut K, line: &Line, at: u64, count: u64) -> Turn
    requires { 0 < count }
    ensures gives { GivesText (Appends (K.told sink.old) (K.told sink.new)) line.now at count result }
    ensures forward { IsForward at result }
    ensures fixed { K.fixed sink.new ≡ K.fixed sink.old }
    ensures later { K.faults sink.old ≤ K.faults sink.new }
    ensures read { result ≢ Turn.Ends Ended.ReadFault }
    ensures cause { result ≡ Turn.Ends Ended.WriteFault → Rose (K.faults sink.old) (K.faults sink.new) }
{
    let Some(next) = at.checked_add(count) else {
        return Turn::Ends(Ended::Limit);
    };
    match give_text(alloc, sink, line) {
        Ok(()) => Turn::More(next),
        Err(fault) => Turn::Ends(write_ended(fault)),
    }
}

// Turns the frame that begins at an offset.
fn turn_frame<S: Source, K: Sink>(alloc: Global, source: &mut S, sink: &mut K, at: u64) -> Turn
    ensures turns { TurnsBy unframing (Moved (S.told source.old) (S.told source.new) (K.told sink.old) (K.told sink.new)) (IsDrained (S.told source.new)) at result }
    ensures forward { IsForward at result }
    ensures source { S.fixed source.new ≡ S.fixed source.old }
    ensures sink { K.fixed sink.new ≡ K.fixed sink.old }
    ensures source_later { S.faults source.old ≤ S.faults source.new }
    ensures sink_later { K.faults sink.old ≤ K.faults sink.new }
    ensures read { result ≡ Turn.Ends Ended.ReadFault → Rose (S.faults source.old) (S.faults source.new) }
    ensures write { result ≡ Turn.Ends Ended.WriteFault → Rose (K.faults sink.old) (K.faults sink.new) }
{
    match take_frame(alloc, source) {
        Ok(Read::Whole(line, count)) => turn_says(alloc, sink, &line, at, count),
        Ok(Read::End) => Turn::Ends(Ended::Finished),
        Ok(Read::Wrong(flaw)) => Turn::Ends(Ended::Refused { flaw, offset: at }),
        Err(fault) => Turn::Ends(read_ended(fault)),
    }
}

/// Gives a line for each frame of a source, before it takes a byte behind that frame. The connection of a settle is left out.
pub fn unframe<S: Source, K: Sink>(alloc: Global, source: &mut S, sink: &mut K) -> Ended
    ensures goes { Goes unframing (Moved (S.told source.old) (S.told source.new) (K.told sink.old) (K.told sink.new)) (IsDrained (S.told source.new)) result }
    ensures source { S.fixed source.new ≡ S.fixed source.old }
    ensures sink { K.fixed sink.new ≡ K.fixed sink.old }
    ensures source_later { S.faults source.old ≤ S.faults source.new }
    ensures sink_later { K.faults sink.old ≤ K.faults sink.new }
    ensures read { result ≡ Ended.ReadFault → Rose (S.faults source.old) (S.faults source.new) }
    ensures write { result ≡ Ended.WriteFault → Rose (K.faults sink.old) (K.faults sink.new) }
{
    let mut at: u64 = 0;
    'frames: loop {
        match turn_frame(alloc, source, sink, at) {
            Turn::More(next) => at = next,
            Turn::Ends(ended) => return ended,
        }
    }
}
