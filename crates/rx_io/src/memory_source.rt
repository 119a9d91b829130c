// A source in memory of which certain calls fail.
ghost use Rattle.std.specs.Prelude.{◌≡◌, ℕ, ◌<◌, ◌≤◌, length, Option, Some, IfOk, Ok, Err, if◌then◌else◌};
ghost use Rattle.rx_base.specs.Faults.{HasCause};
ghost use Rattle.rx_base.specs.Taking.{Takes};

use crate::{Source, TameSource};
use rx_base::{Fails, IoFault};

/// A list of bytes as a source of which the calls with given numbers fail.
#[derive(Drop)]
pub struct MemorySource {
    source: TameSource,
    fails: Fails,
}

impl MemorySource {
    ghost use Rattle.rx_io.specs.Sources.{memory_stream, memory_most, memory_plan};
    ghost use Rattle.rx_base.specs.Outside.{fresh};
    ghost use Rattle.rx_base.specs.Planned.{first_plan};

    /// Gives these bytes, at most `most` of them per call. The calls whose numbers are in `fails`, counted from 1,
    /// answer `Failed` and take nothing.
    pub fn make(bytes: Vec<u8>, fails: Vec<u64>, most: usize) -> MemorySource
        requires { 1 ≤ most }
        ensures stream { memory_stream result ≡ fresh bytes.items }
        ensures most { memory_most result ≡ most }
        ensures plan { memory_plan result ≡ first_plan fails.items }
    {
        MemorySource {
            source: TameSource::make(bytes, most),
            fails: Fails::make(fails),
        }
    }
}

impl Source for MemorySource {
    ghost use Rattle.rx_io.specs.Sources.{memory_stream, memory_most, memory_plan};
    ghost use Rattle.rx_base.specs.Outside.{piece_len};
    ghost use Rattle.rx_base.specs.Planned.{fails_next, after_call};
    ghost use Rattle.rx_io.specs.Laws.{memory_countable};

    ghost told = { λ s. Some (memory_stream s) };

    ghost faults = { λ s. (memory_plan s).faults };

    ghost Fixed = { Unit {0} };

    ghost fixed = { λ _. tt };

    ghost countable = { memory_countable };

    /// A call that doesn't fail gives as much as `most`, the buffer and the bytes left allow.
    fn take(&mut self, buf: &mut [u8]) -> Result<usize, IoFault>
        requires { 0 < length buf.old }
        ensures count { IfOk result (λ n. n ≤ length buf.old) }
        ensures bytes { Takes (Some (memory_stream self.old)) (Some (memory_stream self.new)) result buf.new }
        ensures cause { HasCause (memory_plan self.old).faults (memory_plan self.new).faults result }
        ensures answer { result ≡ (if fails_next (memory_plan self.old) then Err IoFault.Failed
            else Ok (piece_len (memory_most self.old) (length buf.old) (memory_stream self.old))) }
        ensures plan { memory_plan self.new ≡ after_call (memory_plan self.old) }
        ensures most { memory_most self.new ≡ memory_most self.old }
    {
        if self.fails.call_fails() {
            return Err(IoFault::Failed);
        }
        self.source.take(buf)
    }
}
