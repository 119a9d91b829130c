// A byte that is taken of a source, and bytes that are given to a sink.
ghost use Rattle.std.specs.Prelude.{◌≡◌, ◌≤◌, ◌<◌, length};
ghost use Rattle.std.specs.Io.KnownBytes.{Appends};
ghost use Rattle.rx_base.specs.Faults.{HasCause};
ghost use Rattle.rx_base.specs.Outside.{IsDrained, Took};
ghost use Rattle.trunk_wire.specs.Calls.{WritesAll};
ghost use Rattle.trunk_text.specs.Streams.{TakesByte};

use rx_base::IoFault;
use rx_io::{Sink, Source};

/// Takes the next byte, and none behind it.
pub(crate) fn take_byte<S: Source>(source: &mut S) -> Result<Option<u8>, IoFault>
    ensures byte { TakesByte (Took (S.told source.old) (S.told source.new)) (IsDrained (S.told source.new)) result }
    ensures fixed { S.fixed source.new ≡ S.fixed source.old }
    ensures cause { HasCause (S.faults source.old) (S.faults source.new) result }
{
    let mut byte = [0u8; 1];
    match source.take(&mut byte) {
        Ok(0) => Ok(None),
        Ok(_) => Ok(Some(byte[0])),
        Err(fault) => Err(fault),
    }
}

/// Gives all of the bytes.
pub(crate) fn give_all<K: Sink>(sink: &mut K, bytes: &[u8]) -> Result<(), IoFault>
    ensures bytes { WritesAll (Appends (K.told sink.old) (K.told sink.new)) bytes.now result }
    ensures fixed { K.fixed sink.new ≡ K.fixed sink.old }
    ensures cause { HasCause (K.faults sink.old) (K.faults sink.new) result }
{
    let mut rest = bytes;
    'write: while !rest.is_empty() {
        let count = match sink.give(rest) {
            Ok(count) => count,
            Err(fault) => return Err(fault),
        };
        rest = rest.split_at(count).1;
    }
    Ok(())
}
