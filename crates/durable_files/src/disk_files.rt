// The files of the system, of which two are written through to the disk.
ghost use Rattle.std.specs.Prelude.{◌≡◌, None};
ghost use Rattle.rx_base.specs.Faults.{HasCause};

use rx_base::{IoFault, LoadFault};
use rx_io::{FileFault, Files, StdFiles};
use std::alloc::Global;
use std::fs::{OpenFile, OpenOptions};
use std::{io, rt};

/// Which files are written through: one behind each addition, and another one behind the first alone.
#[derive(Clone, Copy, Debug)]
pub struct Through<'a> {
    /// On the disk behind each addition that succeeded.
    pub each: &'a str,
    /// On the disk where it is started, and behind the first addition since then.
    pub first: &'a str,
}

/// The files of the system, by their paths, of which some may be written through to the disk. An addition to one of these succeeds only where the disk
/// took it; behind the first one since the file was started the disk has its place in its folder too. Once `first` is started the disk has none of its old bytes.
#[derive(Drop)]
pub struct DiskFiles<'a, R: rt::Files> {
    rt: &'a R,
    files: StdFiles<'a, R>,
    alloc: Global,
    through: Option<Through<'a>>,
    each_begins: bool,
    first_begins: bool,
    fault: Option<FileFault>,
    faults: u64,
}

// The folder of a path.
fn folder_of(name: &str) -> &str {
    match name.rsplit_once('/') {
        Some(("", _)) => "/",
        Some((folder, _)) => folder,
        None => ".",
    }
}

// The disk takes what stands in a file, or says why it can't.
fn sync_file<R: rt::Files>(rt: &R, name: &str) -> io::Result<()> {
    OpenOptions::new().append(true).open(rt, name)?.sync_data()
}

// The disk takes which files a folder has.
fn sync_folder<R: rt::Files>(rt: &R, name: &str) -> io::Result<()> {
    OpenOptions::new().read(true).open(rt, name)?.sync_all()
}

impl<'a, R: rt::Files> DiskFiles<'a, R> {
    /// All files of the system, of which these are written through.
    pub fn make(rt: &'a R, alloc: Global, through: Option<Through<'a>>) -> DiskFiles<'a, R>
        ensures { ⟦<DiskFiles<'a, R> as Files>⟧.faults result ≡ 0 }
    {
        DiskFiles {
            rt,
            files: StdFiles::make(rt, alloc),
            alloc,
            through,
            each_begins: true,
            first_begins: true,
            fault: None,
            faults: 0,
        }
    }

    /// Why a file couldn't be written last, or written through to the disk, if one couldn't be, and memory didn't run out for that.
    /// It is told once.
    pub fn take_fault(&mut self) -> Option<FileFault> {
        match self.fault.take() {
            Some(fault) => Some(fault),
            None => self.files.take_fault(),
        }
    }

    // A file couldn't be written through to the disk.
    fn fail(&mut self, name: &str, error: io::Error) -> Result<(), IoFault>
        ensures cause { HasCause self.old.faults self.new.faults result }
    {
        self.faults = self.faults.saturating_add(1);
        self.fault = match String::from_str(self.alloc, name) {
            Ok(name) => Some(FileFault { name, error }),
            Err(_) => None,
        };
        Err(IoFault::Failed)
    }

    // Writes a file through to the disk to which bytes were added, if it is one that is.
    fn write_through(&mut self, name: &str) -> io::Result<()>
        ensures { self.new.faults ≡ self.old.faults }
    {
        let Some(through) = self.through else {
            return Ok(());
        };
        let (is_due, begins) = if through.each == name {
            (true, self.each_begins)
        } else {
            (through.first == name && self.first_begins, true)
        };
        if !is_due {
            return Ok(());
        }
        self.mark(name, false);
        sync_file(self.rt, name)?;
        if begins {
            sync_folder(self.rt, folder_of(name))?;
        }
        Ok(())
    }

    // Writes through to the disk that a file was started, if it is one whose old bytes mustn't come back.
    fn empty_through(&self, name: &str) -> io::Result<()> {
        match self.through {
            Some(through) if through.first == name => sync_file(self.rt, name),
            _ => Ok(()),
        }
    }

    // Notes whether the next addition to a file is its first one.
    fn mark(&mut self, name: &str, begins: bool)
        ensures { self.new.faults ≡ self.old.faults }
    {
        let Some(through) = self.through else {
            return;
        };
        if through.each == name {
            self.each_begins = begins;
        }
        if through.first == name {
            self.first_begins = begins;
        }
    }
}

impl<R: rt::Files> Files for DiskFiles<'_, R> {
    ghost told = { λ _. None };

    ghost calls = { λ _. None };

    ghost faults = { λ s. s.faults };

    ghost Fixed = { Unit {0} };

    ghost fixed = { λ _. tt };

    fn load(&mut self, alloc: Global, name: &str, limit: u64) -> Result<Vec<u8>, LoadFault> {
        let result = self.files.load(alloc, name, limit);
        if let Err(LoadFault::Failed) = result {
            self.faults = self.faults.saturating_add(1);
        }
        result
    }

    fn start(&mut self, name: &str) -> Result<(), IoFault> {
        self.mark(name, true);
        if let Err(fault) = self.files.start(name) {
            if let IoFault::Failed = fault {
                self.faults = self.faults.saturating_add(1);
            }
            return Err(fault);
        }
        match self.empty_through(name) {
            Ok(()) => Ok(()),
            Err(error) => self.fail(name, error),
        }
    }

    fn add(&mut self, name: &str, bytes: &[u8]) -> Result<(), IoFault> {
        if let Err(fault) = self.files.add(name, bytes) {
            if let IoFault::Failed = fault {
                self.faults = self.faults.saturating_add(1);
            }
            return Err(fault);
        }
        match self.write_through(name) {
            Ok(()) => Ok(()),
            Err(error) => self.fail(name, error),
        }
    }
}
