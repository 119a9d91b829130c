// A sink in memory of which certain calls fail.
ghost use Rattle.std.specs.Prelude.{◌≡◌, ℕ, ◌<◌, ◌≤◌, [], length, Option, Some, IfOk, min};
ghost use Rattle.std.specs.Io.KnownBytes.{WriteAppends};
ghost use Rattle.rx_base.specs.Faults.{HasCause};
ghost use Rattle.rx_base.specs.Planned.{GivesBy, fails_next, after_call, first_plan};

use crate::{Sink, TameSink};
use rx_base::{Fails, IoFault};
use std::alloc::Global;

/// A sink that keeps its bytes, and of which the calls with given numbers fail.
#[derive(Drop)]
pub struct MemorySink {
    sink: TameSink,
    fails: Fails,
}

impl MemorySink {
    ghost use Rattle.rx_io.specs.Sinks.{memory_bytes, memory_room, memory_sink_plan};

    /// Takes at most `most` bytes per call. The calls whose numbers are in `fails`, counted from 1, answer `Failed` and
    /// leave nothing.
    pub fn make(alloc: Global, fails: Vec<u64>, most: usize) -> MemorySink
        requires { 1 ≤ most }
        ensures bytes { memory_bytes result ≡ [] }
        ensures most { memory_room result ≡ most }
        ensures plan { memory_sink_plan result ≡ first_plan fails.items }
    {
        MemorySink {
            sink: TameSink::make(alloc, most),
            fails: Fails::make(fails),
        }
    }

    /// All bytes taken.
    pub fn bytes(&self) -> &[u8]
        ensures { result.now ≡ memory_bytes self.now }
    {
        self.sink.bytes()
    }
}

impl Sink for MemorySink {
    ghost use Rattle.rx_io.specs.Sinks.{memory_bytes, memory_room, memory_sink_plan};
    ghost use Rattle.rx_io.specs.Laws.{memory_sink_countable};

    ghost told = { λ s. Some (memory_bytes s) };

    ghost faults = { λ s. (memory_sink_plan s).faults };

    ghost Fixed = { Unit {0} };

    ghost fixed = { λ _. tt };

    ghost countable = { memory_sink_countable };

    /// A call that doesn't fail takes as many of the bytes as `most` allows, or none where memory ran out.
    fn give(&mut self, bytes: &[u8]) -> Result<usize, IoFault>
        requires { 0 < length bytes.now }
        ensures some { IfOk result (λ n. 0 < n) }
        ensures count { IfOk result (λ n. n ≤ length bytes.now) }
        ensures bytes { WriteAppends (Some (memory_bytes self.old)) (Some (memory_bytes self.new)) result bytes.now }
        ensures cause { HasCause (memory_sink_plan self.old).faults (memory_sink_plan self.new).faults result }
        ensures answer { GivesBy (fails_next (memory_sink_plan self.old)) (min (memory_room self.old) (length bytes.now)) result }
        ensures plan { memory_sink_plan self.new ≡ after_call (memory_sink_plan self.old) }
        ensures most { memory_room self.new ≡ memory_room self.old }
    {
        if self.fails.call_fails() {
            return Err(IoFault::Failed);
        }
        self.sink.give(bytes)
    }
}
