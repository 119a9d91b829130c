// Lines are turned into frames.
ghost use Rattle.std.specs.Prelude.{◌≡◌, ◌≢◌, ◌≤◌, ◌++◌, ◌∷◌, [], Some, ⊤};
ghost use Rattle.std.specs.Io.KnownBytes.{Appends};
ghost use Rattle.rx_base.specs.Faults.{HasCause, Rose};
ghost use Rattle.rx_base.specs.Outside.{IsDrained, Took};
ghost use Rattle.trunk_wire.specs.Calls.{WritesAll};
ghost use Rattle.trunk_text.specs.Turns.{EndsBy, Goes, IsForward, IsGiven, Moved, TurnsBy};
ghost use Rattle.trunk_text.specs.Frames.{IsShort, frame_of};
ghost use Rattle.trunk_text.specs.Framing.{GivesLine, IsLine, TakesLine, framing};

use crate::line::{Flaw, Line, LineFault};
use crate::reading::read_line;
use crate::streams::{give_all, take_byte};
use crate::turning::{Ended, Turn, read_ended, write_ended};
use crate::writing::frame_of;
use rx_base::IoFault;
use rx_io::{Sink, Source};
use std::alloc::Global;

/// How many bytes a line has at most without its line feed: a number of five digits, an arrow, 65535 bytes of four each, and a backslash.
pub const MAX_LINE: usize = 262147;

/// What was taken of a source: a line that has its line feed, one at the end of the input, or more bytes than a line has.
#[derive(Drop)]
pub(crate) enum Taken {
    Fed(Vec<u8>),
    Last(Vec<u8>),
    Long,
}

// Takes the bytes of a line and its line feed, and none behind it.
fn take_line<S: Source>(alloc: Global, source: &mut S) -> Result<Taken, IoFault>
    ensures line { TakesLine (Took (S.told source.old) (S.told source.new)) (IsDrained (S.told source.new)) result }
    ensures fixed { S.fixed source.new ≡ S.fixed source.old }
    ensures cause { HasCause (S.faults source.old) (S.faults source.new) result }
{
    let mut line = Vec::new(alloc);
    'bytes: while line.len() <= MAX_LINE {
        let byte = match take_byte(source) {
            Ok(Some(byte)) => byte,
            Ok(None) => return Ok(Taken::Last(line)),
            Err(fault) => return Err(fault),
        };
        if byte == b'\n' {
            return Ok(Taken::Fed(line));
        }
        match line.push(byte) {
            Ok(()) => {}
            Err(_) => return Err(IoFault::Memory),
        }
    }
    Ok(Taken::Long)
}

// Gives the frame of what a line says.
fn give_frame<K: Sink>(alloc: Global, sink: &mut K, says: &Line) -> Result<(), IoFault>
    requires { IsShort says.now }
    ensures bytes { WritesAll (Appends (K.told sink.old) (K.told sink.new)) (frame_of says.now) result }
    ensures fixed { K.fixed sink.new ≡ K.fixed sink.old }
    ensures cause { HasCause (K.faults sink.old) (K.faults sink.new) result }
{
    match frame_of(alloc, says) {
        Ok(bytes) => give_all(sink, bytes.as_slice()),
        Err(_) => Err(IoFault::Memory),
    }
}

// Gives the frame of a line that begins at an offset, unless it is refused. `None` is that it was given.
fn give_line<K: Sink>(alloc: Global, sink: &mut K, line: &[u8], offset: u64) -> Option<Ended>
    ensures gives { GivesLine (Appends (K.told sink.old) (K.told sink.new)) line.now offset result }
    ensures fixed { K.fixed sink.new ≡ K.fixed sink.old }
    ensures later { K.faults sink.old ≤ K.faults sink.new }
    ensures cause { result ≡ Some Ended.WriteFault → Rose (K.faults sink.old) (K.faults sink.new) }
{
    let says = match read_line(alloc, line) {
        Ok(says) => says,
        Err(LineFault::Refused(flaw)) => return Some(Ended::Refused { flaw, offset }),
        Err(LineFault::Memory) => return Some(Ended::Memory),
    };
    match give_frame(alloc, sink, &says) {
        Ok(()) => None,
        Err(fault) => Some(write_ended(fault)),
    }
}

// Turns a line that has its line feed.
fn turn_fed<K: Sink>(alloc: Global, sink: &mut K, line: &[u8], at: u64) -> Turn
    requires { IsLine line.now }
    ensures turns { TurnsBy framing (IsGiven (line.now ++ 10 ∷ []) (Appends (K.told sink.old) (K.told sink.new))) ⊥ at result }
    ensures forward { IsForward at result }
    ensures fixed { K.fixed sink.new ≡ K.fixed sink.old }
    ensures later { K.faults sink.old ≤ K.faults sink.new }
    ensures read { result ≢ Turn.Ends Ended.ReadFault }
    ensures cause { result ≡ Turn.Ends Ended.WriteFault → Rose (K.faults sink.old) (K.faults sink.new) }
{
    let Some(next) = at.checked_add(line.len() as u64 + 1) else {
        return Turn::Ends(Ended::Limit);
    };
    match give_line(alloc, sink, line, at) {
        None => Turn::More(next),
        Some(ended) => Turn::Ends(ended),
    }
}

// Turns the last line, which has no line feed.
fn turn_last<K: Sink>(alloc: Global, sink: &mut K, line: &[u8], at: u64) -> Ended
    requires { IsLine line.now }
    ensures ends { EndsBy framing (IsGiven line.now (Appends (K.told sink.old) (K.told sink.new))) ⊤ at result }
    ensures fixed { K.fixed sink.new ≡ K.fixed sink.old }
    ensures later { K.faults sink.old ≤ K.faults sink.new }
    ensures read { result ≢ Ended.ReadFault }
    ensures cause { result ≡ Ended.WriteFault → Rose (K.faults sink.old) (K.faults sink.new) }
{
    match give_line(alloc, sink, line, at) {
        None => Ended::Finished,
        Some(ended) => ended,
    }
}

// Turns the line that begins at an offset.
fn turn_line<S: Source, K: Sink>(alloc: Global, source: &mut S, sink: &mut K, at: u64) -> Turn
    ensures turns { TurnsBy framing (Moved (S.told source.old) (S.told source.new) (K.told sink.old) (K.told sink.new)) (IsDrained (S.told source.new)) at result }
    ensures forward { IsForward at result }
    ensures source { S.fixed source.new ≡ S.fixed source.old }
    ensures sink { K.fixed sink.new ≡ K.fixed sink.old }
    ensures source_later { S.faults source.old ≤ S.faults source.new }
    ensures sink_later { K.faults sink.old ≤ K.faults sink.new }
    ensures read { result ≡ Turn.Ends Ended.ReadFault → Rose (S.faults source.old) (S.faults source.new) }
    ensures write { result ≡ Turn.Ends Ended.WriteFault → Rose (K.faults sink.old) (K.faults sink.new) }
{
    match take_line(alloc, source) {
        Ok(Taken::Fed(line)) => turn_fed(alloc, sink, line.as_slice(), at),
        Ok(Taken::Last(line)) => Turn::Ends(turn_last(alloc, sink, line.as_slice(), at)),
        Ok(Taken::Long) => Turn::Ends(Ended::Refused {
            flaw: Flaw::LongLine,
            offset: at,
        }),
        Err(fault) => Turn::Ends(read_ended(fault)),
    }
}

/// Gives the frame of each line of a source, before it takes a byte behind that line. Lines that say nothing have none.
pub fn frame_lines<S: Source, K: Sink>(alloc: Global, source: &mut S, sink: &mut K) -> Ended
    ensures goes { Goes framing (Moved (S.told source.old) (S.told source.new) (K.told sink.old) (K.told sink.new)) (IsDrained (S.told source.new)) result }
    ensures source { S.fixed source.new ≡ S.fixed source.old }
    ensures sink { K.fixed sink.new ≡ K.fixed sink.old }
    ensures source_later { S.faults source.old ≤ S.faults source.new }
    ensures sink_later { K.faults sink.old ≤ K.faults sink.new }
    ensures read { result ≡ Ended.ReadFault → Rose (S.faults source.old) (S.faults source.new) }
    ensures write { result ≡ Ended.WriteFault → Rose (K.faults sink.old) (K.faults sink.new) }
{
    let mut at: u64 = 0;
    'lines: loop {
        match turn_line(alloc, source, sink, at) {
            Turn::More(next) => at = next,
            Turn::Ends(ended) => return ended,
        }
    }
}
