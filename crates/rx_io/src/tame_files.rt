// Files in memory that never fail.
ghost use Rattle.std.specs.Prelude.{◌≡◌, ◌<◌, ◌≤◌, ℕ, [], Option, Some, IfOk, OnOk, option_copied, vec_len, vec_capacity};
ghost use Rattle.rx_io.specs.Calling.{Calls, calls_of, loads_of};
ghost use Rattle.rx_io.specs.declared.file_calls.FileCall.TheVariants.{Loaded, Started, Added};
ghost use Rattle.rx_base.specs.Faults.{HasCause, HasLoadCause};
ghost use Rattle.rx_io.specs.Named.{Loads, Starts, Adds};
ghost use Rattle.rx_io.specs.Shelves.{found};

use crate::shelf::Shelf;
use crate::{FileCall, Files};
use rx_base::{Bytes, IoFault, LoadFault};
use std::alloc::{AllocError, Global};

/// Named files that never answer `Failed`: a missing name is loaded as an empty file. They tell their calls.
#[derive(Drop)]
pub struct TameFiles {
    alloc: Global,
    files: Shelf,
    calls: Vec<FileCall>,
}

impl TameFiles {
    ghost use Rattle.rx_io.specs.Kept.{tame_found, tame_file_calls, tame_contents};

    /// Of two files with one name the first counts.
    pub fn make(alloc: Global, files: Vec<(String, Vec<u8>)>) -> TameFiles
        ensures files { tame_found result ≡ found files.items }
        ensures calls { tame_file_calls result ≡ [] }
    {
        TameFiles {
            alloc,
            files: Shelf::make(alloc, files),
            calls: Vec::new(alloc),
        }
    }

    /// The bytes of a name, `None` exactly where it isn't there.
    pub fn bytes_of(&self, name: &str) -> Option<&[u8]>
        ensures { option_copied result ≡ tame_found self.now name.now }
    {
        self.files.bytes_of(name)
    }

    /// All calls by their names, in order.
    pub fn calls(&self) -> &[FileCall]
        ensures { result.now ≡ tame_file_calls self.now }
    {
        &self.calls
    }

    // A copy of a name, and room to tell one call more.
    fn copy_of(&mut self, name: &str) -> Result<Bytes, AllocError>
        ensures copy { IfOk result (λ copy. copy ≡ name.now) }
        ensures room { OnOk result (vec_len self.new.calls < vec_capacity self.new.calls) }
        ensures calls { tame_file_calls self.new ≡ tame_file_calls self.old }
        ensures files { self.new.files ≡ self.old.files }
    {
        self.calls.reserve(1)?;
        let bytes = name.as_bytes().to_vec(self.alloc)?;
        Ok(Bytes::from_vec(bytes))
    }

    // The bytes of a file, none where it isn't there.
    fn read(&self, alloc: Global, name: &str, limit: u64) -> Result<Vec<u8>, LoadFault>
        ensures within { IfOk result (λ bytes. vec_len bytes ≤ limit) }
        ensures bytes { Loads (Some (tame_contents self.now)) name.now limit result }
        ensures cause { HasLoadCause 0 0 result }
    {
        let Some(bytes) = self.files.bytes_of(name) else {
            return Ok(Vec::new(alloc));
        };
        if bytes.len() as u64 > limit {
            return Err(LoadFault::TooLarge);
        }
        match bytes.to_vec(alloc) {
            Ok(bytes) => Ok(bytes),
            Err(_) => Err(LoadFault::Memory),
        }
    }
}

impl Files for TameFiles {
    ghost use Rattle.rx_io.specs.Kept.{tame_found, tame_contents, tame_file_calls};

    ghost told = { λ s. Some (tame_contents s) };

    ghost calls = { λ s. Some (tame_file_calls s) };

    ghost faults = { λ s. 0 };

    ghost Fixed = { Unit {0} };

    ghost fixed = { λ _. tt };

    fn load(&mut self, alloc: Global, name: &str, limit: u64) -> Result<Vec<u8>, LoadFault>
        ensures within { IfOk result (λ bytes. vec_len bytes ≤ limit) }
        ensures bytes { Loads (Some (tame_contents self.old)) name.now limit result }
        ensures same { Some (tame_contents self.new) ≡ Some (tame_contents self.old) }
        ensures call { Calls (Some (tame_file_calls self.old)) (Some (tame_file_calls self.new)) (loads_of (Loaded name.now) result) }
        ensures cause { HasLoadCause 0 0 result }
        ensures there { tame_found self.new ≡ tame_found self.old }
    {
        let Ok(copy) = self.copy_of(name) else {
            return Err(LoadFault::Memory);
        };
        let result = self.read(alloc, name, limit);
        match &result {
            Err(LoadFault::Memory) => {}
            _ => self.calls.push_reserved(FileCall::Loaded(copy)),
        }
        result
    }

    fn start(&mut self, name: &str) -> Result<(), IoFault>
        ensures started { Starts (Some (tame_contents self.old)) (Some (tame_contents self.new)) name.now result }
        ensures call { Calls (Some (tame_file_calls self.old)) (Some (tame_file_calls self.new)) (calls_of (Started name.now) result) }
        ensures cause { HasCause 0 0 result }
        ensures there { Starts (Some (tame_found self.old)) (Some (tame_found self.new)) name.now result }
    {
        let Ok(copy) = self.copy_of(name) else {
            return Err(IoFault::Memory);
        };
        match self.files.start(name) {
            Ok(()) => {
                self.calls.push_reserved(FileCall::Started(copy));
                Ok(())
            }
            Err(_) => Err(IoFault::Memory),
        }
    }

    fn add(&mut self, name: &str, bytes: &[u8]) -> Result<(), IoFault>
        ensures added { Adds (Some (tame_contents self.old)) (Some (tame_contents self.new)) name.now bytes.now result }
        ensures call { Calls (Some (tame_file_calls self.old)) (Some (tame_file_calls self.new)) (calls_of (Added name.now) result) }
        ensures cause { HasCause 0 0 result }
        ensures there { Adds (Some (tame_found self.old)) (Some (tame_found self.new)) name.now bytes.now result }
    {
        let Ok(copy) = self.copy_of(name) else {
            return Err(IoFault::Memory);
        };
        match self.files.add(name, bytes) {
            Ok(()) => {
                self.calls.push_reserved(FileCall::Added(copy));
                Ok(())
            }
            Err(_) => Err(IoFault::Memory),
        }
    }
}
