// A sink in memory that never fails.
ghost use Rattle.std.specs.Prelude.{◌≡◌, ℕ, ◌-◌, ◌^◌, ◌<◌, ◌≤◌, [], length, Option, Some, IfOk, min, false};
ghost use Rattle.std.specs.Io.KnownBytes.{WriteAppends};
ghost use Rattle.rx_base.specs.Faults.{HasCause};
ghost use Rattle.rx_base.specs.Planned.{GivesBy};

use crate::Sink;
use rx_base::IoFault;
use std::alloc::Global;

/// A sink that keeps its bytes. It never answers `Failed`.
#[derive(Drop)]
pub struct TameSink {
    bytes: Vec<u8>,
    most: usize,
    ghost goes_on: { 1 ≤ most },
    ghost countable: { length bytes.items < 2 ^ 64 - 1 },
}

impl TameSink {
    ghost use Rattle.rx_io.specs.Sinks.{tame_bytes, tame_room};

    /// Takes at most `most` bytes per call.
    pub fn make(alloc: Global, most: usize) -> TameSink
        requires { 1 ≤ most }
        ensures bytes { tame_bytes result ≡ [] }
        ensures most { tame_room result ≡ most }
    {
        TameSink {
            bytes: Vec::new(alloc),
            most,
        }
    }

    /// All bytes taken.
    pub fn bytes(&self) -> &[u8]
        ensures { result.now ≡ tame_bytes self.now }
    {
        &self.bytes
    }
}

impl Sink for TameSink {
    ghost use Rattle.rx_io.specs.Sinks.{tame_bytes, tame_room};
    ghost use Rattle.rx_io.specs.Laws.{tame_sink_countable};

    ghost told = { λ s. Some (tame_bytes s) };

    ghost faults = { λ s. 0 };

    ghost Fixed = { Unit {0} };

    ghost fixed = { λ _. tt };

    ghost countable = { tame_sink_countable };

    /// It takes as many of the bytes as `most` allows, or none where memory ran out.
    fn give(&mut self, bytes: &[u8]) -> Result<usize, IoFault>
        requires { 0 < length bytes.now }
        ensures some { IfOk result (λ n. 0 < n) }
        ensures count { IfOk result (λ n. n ≤ length bytes.now) }
        ensures bytes { WriteAppends (Some (tame_bytes self.old)) (Some (tame_bytes self.new)) result bytes.now }
        ensures cause { HasCause 0 0 result }
        ensures answer { GivesBy false (min (tame_room self.old) (length bytes.now)) result }
        ensures most { tame_room self.new ≡ tame_room self.old }
    {
        let count = self.most.min(bytes.len());
        let (piece, _) = bytes.split_at(count);
        match self.bytes.extend_from_slice(piece) {
            Ok(()) => {}
            Err(_) => return Err(IoFault::Memory),
        }
        let _countable = self.bytes.as_slice().len() + 1;
        Ok(count)
    }
}
