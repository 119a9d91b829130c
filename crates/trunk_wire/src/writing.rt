// One frame is written to a sink.
ghost use Rattle.std.specs.Prelude.{◌≡◌, ◌+◌, ◌^◌, ◌<◌, ◌≤◌, ◌++◌, length, take, IsErrOf};
ghost use Rattle.rx_base.specs.Faults.{HasCause, Rose};
ghost use Rattle.trunk_wire.specs.Calls.{Writes, WritesAll, WritesBy, write_fault};

use crate::header::{BYTES, Header, bytes_from};
use links::{Given, LinkFault};
use rx_base::{Conn, IoFault};
use rx_io::Sink;

// How many bytes of a frame, its header among them, go by one write; and how many by one from a short array.
const JOINED: usize = 4096;

const SHORT: usize = 256;

// The fault of a sink, as that of a link.
fn write_fault(fault: IoFault) -> LinkFault
    ensures { result ≡ write_fault fault }
{
    match fault {
        IoFault::Failed => LinkFault::WriteFault,
        IoFault::Memory => LinkFault::Memory,
    }
}

// Gives all of the bytes.
fn write_all<K: Sink>(sink: &mut K, wrote: &mut u64, bytes: &[u8]) -> Result<(), IoFault>
    ensures bytes { WritesAll (Writes (K.told sink.old) (K.told sink.new) wrote.old wrote.new) bytes.now result }
    ensures fixed { K.fixed sink.new ≡ K.fixed sink.old }
    ensures cause { HasCause (K.faults sink.old) (K.faults sink.new) result }
{
    let mut rest = bytes;
    'give: while !rest.is_empty() {
        let count = match sink.give(rest) {
            Ok(count) => count,
            Err(fault) => return Err(fault),
        };
        *wrote = wrote.saturating_add(count as u64);
        rest = rest.split_at(count).1;
    }
    Ok(())
}

// Puts bytes behind the first ones of a buffer.
fn put_behind(all: &mut [u8], at: usize, bytes: &[u8])
    requires { at + length bytes.now ≤ length all.old }
    ensures length { length all.new ≡ length all.old }
    ensures bytes { take (at + length bytes.now) all.new ≡ take at all.old ++ bytes.now }
{
    all[at..at + bytes.len()].copy_from_slice(bytes);
}

// Puts a header and the payload behind it at the front of a buffer.
fn join(all: &mut [u8], header: [u8; 5], bytes: &[u8])
    requires { 5 + length bytes.now ≤ length all.old }
    ensures length { length all.new ≡ length all.old }
    ensures bytes { take (5 + length bytes.now) all.new ≡ header ++ bytes.now }
{
    put_behind(all, 0, &header);
    put_behind(all, 5, bytes);
}

// Gives a header and the payload behind it: at once, where an array holds them. Most frames are short, and so is their array.
fn write_behind<K: Sink>(
    sink: &mut K,
    wrote: &mut u64,
    header: [u8; 5],
    bytes: &[u8],
) -> Result<(), IoFault>
    requires { length bytes.now < 2 ^ 16 }
    ensures bytes { WritesAll (Writes (K.told sink.old) (K.told sink.new) wrote.old wrote.new) (header ++ bytes.now) result }
    ensures fixed { K.fixed sink.new ≡ K.fixed sink.old }
    ensures cause { HasCause (K.faults sink.old) (K.faults sink.new) result }
{
    let whole = 5 + bytes.len();
    if whole <= SHORT {
        let mut short = [0u8; SHORT];
        join(&mut short, header, bytes);
        return write_all(sink, wrote, &short[..whole]);
    }
    if whole <= JOINED {
        let mut all = [0u8; JOINED];
        join(&mut all, header, bytes);
        return write_all(sink, wrote, &all[..whole]);
    }
    match write_all(sink, wrote, &header) {
        Ok(()) => {}
        Err(fault) => return Err(fault),
    }
    write_all(sink, wrote, bytes)
}

/// Gives a piece as a frame.
pub fn write_frame<K: Sink>(
    sink: &mut K,
    wrote: &mut u64,
    conn: Conn,
    bytes: &[u8],
) -> Result<Given, LinkFault>
    requires { length bytes.now < 2 ^ 16 }
    ensures frame { WritesBy (Writes (K.told sink.old) (K.told sink.new) wrote.old wrote.new) conn bytes.now result }
    ensures later { K.faults sink.old ≤ K.faults sink.new }
    ensures fixed { K.fixed sink.new ≡ K.fixed sink.old }
    ensures cause { IsErrOf result LinkFault.WriteFault → Rose (K.faults sink.old) (K.faults sink.new) }
{
    let header = bytes_from(Header {
        kind: BYTES,
        conn,
        length: bytes.len() as u16,
    });
    match write_behind(sink, wrote, header, bytes) {
        Ok(()) => Ok(Given::All),
        Err(fault) => Err(write_fault(fault)),
    }
}
