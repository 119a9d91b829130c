// One frame is read from a source, and no byte behind it.
ghost use Rattle.std.specs.Prelude.{◌≡◌, ◌^◌, ◌<◌, ◌≤◌, ◌+◌, ℕ, Some, None, true, length, IfOk, IsErrOf};
ghost use Rattle.links.specs.ConnectionTables.{phases_in};
ghost use Rattle.rx_base.specs.Faults.{HasCause, Rose};
ghost use Rattle.links.specs.Links.{Enters};
ghost use Rattle.rx_base.specs.Outside.{IsDrained};
ghost use Rattle.trunk_wire.specs.Calls.{Reads, Fills, ReadsPayload, TakesBy, Behind, HasOffset, read_fault};
ghost use Rattle.trunk_wire.specs.Frames.{header_bytes};

use crate::header::{Header, event_of, header_from, header_refusal};
use links::{ConnectionTable, LinkEvent, LinkFault};
use rx_base::{Bytes, IoFault};
use rx_io::Source;
use std::alloc::Global;

// The fault of a source, as that of a link.
fn read_fault(fault: IoFault) -> LinkFault
    ensures { result ≡ read_fault fault }
{
    match fault {
        IoFault::Failed => LinkFault::ReadFault,
        IoFault::Memory => LinkFault::Memory,
    }
}

// A frame is cut short: its first byte stands at this offset.
fn truncated(offset: u64) -> LinkFault
    ensures { result ≡ LinkFault.Refused 5 offset }
{
    LinkFault::Refused { kind: 5, offset }
}

// Takes bytes until the buffer is full or the source is at its end, and answers how many.
fn fill<S: Source>(source: &mut S, took: &mut u64, buffer: &mut [u8]) -> Result<usize, IoFault>
    ensures count { IfOk result (λ n. n ≤ length buffer.old) }
    ensures bytes { Fills (S.told source.old) (S.told source.new) took.old took.new buffer.new result }
    ensures fixed { S.fixed source.new ≡ S.fixed source.old }
    ensures cause { HasCause (S.faults source.old) (S.faults source.new) result }
{
    let mut filled = 0;
    'fill: while filled < buffer.len() {
        let count = match source.take(&mut buffer[filled..]) {
            Ok(count) => count,
            Err(fault) => return Err(fault),
        };
        if count == 0 {
            return Ok(filled);
        }
        *took = took.saturating_add(count as u64);
        filled += count;
    }
    Ok(filled)
}

// Reads so many bytes of payload, or answers `None` where fewer are left.
fn read_payload<S: Source>(
    alloc: Global,
    source: &mut S,
    took: &mut u64,
    length: usize,
) -> Result<Option<Vec<u8>>, IoFault>
    ensures read { ReadsPayload length (S.told source.old) (S.told source.new) took.old took.new result }
    ensures fixed { S.fixed source.new ≡ S.fixed source.old }
    ensures cause { HasCause (S.faults source.old) (S.faults source.new) result }
{
    if length == 0 {
        return Ok(Some(Vec::new(alloc)));
    }
    let mut payload = match vec![in alloc; 0u8; length] {
        Ok(payload) => payload,
        Err(_) => return Err(IoFault::Memory),
    };
    match fill(source, took, payload.as_mut_slice()) {
        Ok(count) => {
            if count < length {
                return Ok(None);
            }
            Ok(Some(payload))
        }
        Err(fault) => Err(fault),
    }
}

// Takes the rest of a frame whose header was read.
fn take_rest<S: Source>(
    alloc: Global,
    source: &mut S,
    took: &mut u64,
    table: &mut ConnectionTable,
    header: Header,
    offset: u64,
) -> Result<LinkEvent, LinkFault>
    requires fits { header.conn < 2 ^ 16 }
    ensures frame { TakesBy (phases_in table.old) (Behind (header_bytes header) (Reads (S.told source.old) (S.told source.new) took.old took.new))
        (IsDrained (S.told source.new)) result }
    ensures order { Enters (phases_in table.old) (phases_in table.new) result }
    ensures offset { HasOffset offset result }
    ensures later { S.faults source.old ≤ S.faults source.new }
    ensures fixed { S.fixed source.new ≡ S.fixed source.old }
    ensures cause { IsErrOf result LinkFault.ReadFault → Rose (S.faults source.old) (S.faults source.new) }
{
    if let Some(kind) = header_refusal(table, header) {
        return Err(LinkFault::Refused { kind, offset });
    }
    let payload = match read_payload(alloc, source, took, header.length as usize) {
        Ok(Some(payload)) => payload,
        Ok(None) => return Err(truncated(offset)),
        Err(fault) => return Err(read_fault(fault)),
    };
    let event = event_of(header, Bytes::from_vec(payload));
    table.enter(&event);
    Ok(event)
}

/// Takes the next frame, and no byte behind it.
pub fn take_event<S: Source>(
    alloc: Global,
    source: &mut S,
    took: &mut u64,
    table: &mut ConnectionTable,
) -> Result<LinkEvent, LinkFault>
    ensures frame { TakesBy (phases_in table.old) (Reads (S.told source.old) (S.told source.new) took.old took.new) (IsDrained (S.told source.new)) result }
    ensures order { Enters (phases_in table.old) (phases_in table.new) result }
    ensures offset { HasOffset took.old result }
    ensures later { S.faults source.old ≤ S.faults source.new }
    ensures fixed { S.fixed source.new ≡ S.fixed source.old }
    ensures cause { IsErrOf result LinkFault.ReadFault → Rose (S.faults source.old) (S.faults source.new) }
{
    let offset = *took;
    let mut bytes = [0u8; 5];
    let count = match fill(source, took, &mut bytes) {
        Ok(count) => count,
        Err(fault) => return Err(read_fault(fault)),
    };
    if count == 0 {
        return Ok(LinkEvent::Ends);
    }
    if count < 5 {
        return Err(truncated(offset));
    }
    take_rest(alloc, source, took, table, header_from(bytes), offset)
}
