// The files of a command, of which the record may be one that isn't written, or that stops where it can't be written any more.
ghost use Rattle.std.specs.Prelude.{◌≡◌, None};

use crate::settings::Record;
use durable_files::DiskFiles;
use rx_base::{IoFault, LoadFault};
use rx_io::{FileFault, Files};
use std::alloc::Global;

/// The files of the system. A record that isn't written takes all and keeps nothing.
#[derive(Drop)]
pub struct RecordFiles<'a> {
    rt: &'a HostRuntime,
    files: DiskFiles<'a, HostRuntime>,
    record: Record<'a>,
    faults: u64,
}

impl<'a> RecordFiles<'a> {
    /// These files.
    pub fn make(
        rt: &'a HostRuntime,
        files: DiskFiles<'a, HostRuntime>,
        record: Record<'a>,
    ) -> RecordFiles<'a> {
        RecordFiles {
            rt,
            files,
            record,
            faults: 0,
        }
    }

    /// Why a file couldn't be written last, if one couldn't be, and memory didn't run out for that. It is told once.
    pub fn take_fault(&mut self) -> Option<FileFault> {
        self.files.take_fault()
    }

    // Whether what is added to a file isn't written.
    fn is_unwritten(&self, name: &str) -> bool {
        matches!(self.record, Record::Unwritten(record) if record == name)
    }

    // Whether a file is the record, which stops here. Then that is told.
    fn stops(&mut self, name: &str) -> bool
        ensures { self.new.faults ≡ self.old.faults }
    {
        let Record::Sparing(record) = self.record else {
            return false;
        };
        if record != name {
            return false;
        }
        self.record = Record::Unwritten(record);
        true
    }

    // Tells that the record has stopped, and why.
    fn tell_stop(&mut self, name: &str)
        ensures { self.new.faults ≡ self.old.faults }
    {
        match self.files.take_fault() {
            Some(fault) => {
                let _ = eprintln!(self.rt;
                    "rx: the record {name} can't be written any more, and stops here: {}",
                    fault.error
                );
            }
            None => {
                let _ = eprintln!(self.rt;
                    "rx: the record {name} can't be written any more, and stops here"
                );
            }
        }
    }
}

impl Files for RecordFiles<'_> {
    ghost told = { λ _. None };

    ghost calls = { λ _. None };

    ghost faults = { λ s. s.faults };

    ghost Fixed = { Unit {0} };

    ghost fixed = { λ _. tt };

    fn load(&mut self, alloc: Global, name: &str, limit: u64) -> Result<Vec<u8>, LoadFault> {
        let result = self.files.load(alloc, name, limit);
        if let Err(LoadFault::Failed) = result {
            self.faults = self.faults.saturating_add(1);
        }
        result
    }

    fn start(&mut self, name: &str) -> Result<(), IoFault> {
        if self.is_unwritten(name) {
            return Ok(());
        }
        if let Err(fault) = self.files.start(name) {
            if let IoFault::Failed = fault {
                self.faults = self.faults.saturating_add(1);
            }
            return Err(fault);
        }
        Ok(())
    }

    fn add(&mut self, name: &str, bytes: &[u8]) -> Result<(), IoFault> {
        if self.is_unwritten(name) {
            return Ok(());
        }
        if let Err(fault) = self.files.add(name, bytes) {
            if let IoFault::Failed = fault {
                if self.stops(name) {
                    self.tell_stop(name);
                    return Ok(());
                }
                self.faults = self.faults.saturating_add(1);
            }
            return Err(fault);
        }
        Ok(())
    }
}
