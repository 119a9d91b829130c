// Files in memory of which certain calls fail.
ghost use Rattle.std.specs.Prelude.{◌≡◌, ℕ, ◌≤◌, Option, Some, None, IfOk, option_copied, vec_len};
ghost use Rattle.rx_base.specs.Faults.{HasCause, HasLoadCause};
ghost use Rattle.rx_io.specs.Named.{Loads, Starts, Adds};
ghost use Rattle.rx_base.specs.Planned.{fails_next, after_call, after_load, first_plan, FailsBy, LoadFailsBy};
ghost use Rattle.rx_io.specs.Shelves.{found, LeavesNone};

use crate::Files;
use crate::shelf::Shelf;
use rx_base::{Fails, IoFault, LoadFault};
use std::alloc::Global;

/// Named files of which the calls with given numbers fail.
#[derive(Drop)]
pub struct MemoryFiles {
    files: Shelf,
    fails: Fails,
}

impl MemoryFiles {
    ghost use Rattle.rx_io.specs.Kept.{memory_contents, memory_files_plan};

    /// Of two files with one name the first counts. The calls whose numbers are in `fails`, counted from 1 over all
    /// calls, answer `Failed` and leave nothing.
    pub fn make(alloc: Global, files: Vec<(String, Vec<u8>)>, fails: Vec<u64>) -> MemoryFiles
        ensures contents { memory_contents result ≡ found files.items }
        ensures plan { memory_files_plan result ≡ first_plan fails.items }
    {
        MemoryFiles {
            files: Shelf::make(alloc, files),
            fails: Fails::make(fails),
        }
    }

    /// The bytes of a name, `None` exactly where it isn't there.
    pub fn bytes_of(&self, name: &str) -> Option<&[u8]>
        ensures { option_copied result ≡ memory_contents self.now name.now }
    {
        self.files.bytes_of(name)
    }
}

impl Files for MemoryFiles {
    ghost use Rattle.rx_io.specs.Kept.{memory_contents, memory_files_plan};

    ghost told = { λ s. Some (memory_contents s) };

    ghost calls = { λ _. None };

    ghost faults = { λ s. (memory_files_plan s).faults };

    ghost Fixed = { Unit {0} };

    ghost fixed = { λ _. tt };

    fn load(&mut self, alloc: Global, name: &str, limit: u64) -> Result<Vec<u8>, LoadFault>
        ensures within { IfOk result (λ bytes. vec_len bytes ≤ limit) }
        ensures bytes { Loads (Some (memory_contents self.old)) name.now limit result }
        ensures same { Some (memory_contents self.new) ≡ Some (memory_contents self.old) }
        ensures cause { HasLoadCause (memory_files_plan self.old).faults (memory_files_plan self.new).faults result }
        ensures plan { memory_files_plan self.new ≡ after_load (memory_files_plan self.old) (memory_contents self.old name.now) }
        ensures fails { LoadFailsBy (fails_next (memory_files_plan self.old)) (memory_contents self.old name.now) result }
    {
        if self.fails.call_fails() {
            return Err(LoadFault::Failed);
        }
        let Some(bytes) = self.files.bytes_of(name) else {
            self.fails.fault();
            return Err(LoadFault::Failed);
        };
        if bytes.len() as u64 > limit {
            return Err(LoadFault::TooLarge);
        }
        match bytes.to_vec(alloc) {
            Ok(bytes) => Ok(bytes),
            Err(_) => Err(LoadFault::Memory),
        }
    }

    fn start(&mut self, name: &str) -> Result<(), IoFault>
        ensures started { Starts (Some (memory_contents self.old)) (Some (memory_contents self.new)) name.now result }
        ensures cause { HasCause (memory_files_plan self.old).faults (memory_files_plan self.new).faults result }
        ensures plan { memory_files_plan self.new ≡ after_call (memory_files_plan self.old) }
        ensures fails { FailsBy (fails_next (memory_files_plan self.old)) result }
        ensures none { LeavesNone (memory_contents self.old) (memory_contents self.new) result }
    {
        if self.fails.call_fails() {
            return Err(IoFault::Failed);
        }
        match self.files.start(name) {
            Ok(()) => Ok(()),
            Err(_) => Err(IoFault::Memory),
        }
    }

    fn add(&mut self, name: &str, bytes: &[u8]) -> Result<(), IoFault>
        ensures added { Adds (Some (memory_contents self.old)) (Some (memory_contents self.new)) name.now bytes.now result }
        ensures cause { HasCause (memory_files_plan self.old).faults (memory_files_plan self.new).faults result }
        ensures plan { memory_files_plan self.new ≡ after_call (memory_files_plan self.old) }
        ensures fails { FailsBy (fails_next (memory_files_plan self.old)) result }
        ensures none { LeavesNone (memory_contents self.old) (memory_contents self.new) result }
    {
        if self.fails.call_fails() {
            return Err(IoFault::Failed);
        }
        match self.files.add(name, bytes) {
            Ok(()) => Ok(()),
            Err(_) => Err(IoFault::Memory),
        }
    }
}
