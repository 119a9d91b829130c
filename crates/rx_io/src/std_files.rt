// The files of the system.
ghost use Rattle.std.specs.Prelude.{◌≡◌, ◌≤◌, None, IfOk, OnOk, vec_len};
ghost use Rattle.std.specs.Io.KnownBytes.{Appends};
ghost use Rattle.rx_base.specs.Faults.{HasCause};
ghost use Rattle.rx_io.specs.Reading.{ReadsWhole};

use crate::Files;
use crate::attempts::{TRIES, read_some, try_write};
use rx_base::{IoFault, LoadFault};
use std::alloc::Global;
use std::fs::OpenOptions;
use std::io::{Error, ErrorKind, Read, Write};
use std::rt;

// A file that is open for more bytes at its end, under its name.
#[derive(Drop)]
struct OpenFile<F> {
    name: String,
    file: F,
}

/// Why a file couldn't be written, in the system's words, and its name.
#[derive(Debug, Drop)]
pub struct FileFault {
    pub name: String,
    pub error: Error,
}

/// The files of the system, by their paths. Of them nothing is told. The one to which bytes were added last stays open.
#[derive(Drop)]
pub struct StdFiles<'a, R: rt::Files> {
    rt: &'a R,
    alloc: Global,
    last: Option<OpenFile<R::File>>,
    fault: Option<FileFault>,
    faults: u64,
}

impl<'a, R: rt::Files> StdFiles<'a, R> {
    pub fn make(rt: &'a R, alloc: Global) -> StdFiles<'a, R>
        ensures { ⟦<StdFiles<'a, R> as Files>⟧.faults result ≡ 0 }
    {
        StdFiles {
            rt,
            alloc,
            last: None,
            fault: None,
            faults: 0,
        }
    }

    /// Why a file couldn't be written last, if one couldn't be, and memory didn't run out for that. It is told once.
    pub fn take_fault(&mut self) -> Option<FileFault> {
        self.fault.take()
    }

    // A file couldn't be written.
    fn fail(&mut self, name: &str, error: Error) -> Result<(), IoFault>
        ensures cause { HasCause self.old.faults self.new.faults result }
    {
        self.faults = self.faults.saturating_add(1);
        self.fault = match String::from_str(self.alloc, name) {
            Ok(name) => Some(FileFault { name, error }),
            Err(_) => None,
        };
        Err(IoFault::Failed)
    }
}

fn open<R: rt::Files>(rt: &R, how: &OpenOptions, name: &str) -> Result<R::File, Error> {
    for _ in 0..TRIES {
        match how.open(rt, name) {
            Ok(file) => return Ok(file),
            Err(e) => {
                if e.kind() != ErrorKind::Interrupted {
                    return Err(e);
                }
            }
        }
    }
    Err(Error::from(ErrorKind::Interrupted))
}

// All that a reader has left, of which no more than one byte past the limit is taken.
fn read_whole<R: Read>(reader: &mut R, alloc: Global, limit: u64) -> Result<Vec<u8>, LoadFault>
    ensures within { IfOk result (λ bytes. vec_len bytes ≤ limit) }
    ensures bytes { ReadsWhole (R.remaining reader.old) limit result }
{
    let mut bytes = Vec::new(alloc);
    'pieces: for _ in 0..u64::MAX {
        let mut buffer = [0u8; 4096];
        // At most one byte past the limit in all, which is then found to be too many.
        let room = (limit - bytes.len() as u64).min(4095) as usize + 1;
        let piece = &mut buffer[..room];
        let Some(count) = read_some(reader, piece) else {
            return Err(LoadFault::Failed);
        };
        if count == 0 {
            return Ok(bytes);
        }
        if bytes.extend_from_slice(&piece[..count]).is_err() {
            return Err(LoadFault::Memory);
        }
        if bytes.len() as u64 > limit {
            return Err(LoadFault::TooLarge);
        }
    }
    Err(LoadFault::Failed)
}

// Writes all of the bytes, or says why that failed.
fn write_whole<W: Write>(writer: &mut W, bytes: &[u8]) -> Result<(), Error>
    ensures { OnOk result (Appends (W.contents writer.old) (W.contents writer.new) bytes.now) }
{
    let mut rest = bytes;
    'pieces: while rest.len() > 0 {
        match try_write(writer, rest) {
            Ok(count) => (_, rest) = rest.split_at(count),
            Err(error) => return Err(error),
        }
    }
    Ok(())
}

fn load_from<R: rt::Files>(
    rt: &R,
    alloc: Global,
    name: &str,
    limit: u64,
) -> Result<Vec<u8>, LoadFault>
    ensures within { IfOk result (λ bytes. vec_len bytes ≤ limit) }
{
    let Ok(mut file) = open(rt, OpenOptions::new().read(true), name) else {
        return Err(LoadFault::Failed);
    };
    read_whole(&mut file, alloc, limit)
}

// Adds bytes at a file's end, and leaves it open, unless that failed or there is no memory for its name.
fn add_to<R: rt::Files>(
    rt: &R,
    alloc: Global,
    last: &mut Option<OpenFile<R::File>>,
    name: &str,
    bytes: &[u8],
) -> Result<(), Error> {
    if let Some(open) = last {
        if open.name.as_str() == name {
            return write_whole(&mut open.file, bytes);
        }
    }
    let mut file = match open(rt, OpenOptions::new().append(true).create(true), name) {
        Ok(file) => file,
        Err(error) => return Err(error),
    };
    let written = write_whole(&mut file, bytes);
    *last = match String::from_str(alloc, name) {
        Ok(name) => Some(OpenFile { name, file }),
        Err(_) => None,
    };
    written
}

impl<R: rt::Files> Files for StdFiles<'_, R> {
    ghost told = { λ _. None };

    ghost calls = { λ _. None };

    ghost faults = { λ s. s.faults };

    ghost Fixed = { Unit {0} };

    ghost fixed = { λ _. tt };

    fn load(&mut self, alloc: Global, name: &str, limit: u64) -> Result<Vec<u8>, LoadFault> {
        let result = load_from(self.rt, alloc, name, limit);
        if let Err(LoadFault::Failed) = result {
            self.faults = self.faults.saturating_add(1);
        }
        result
    }

    fn start(&mut self, name: &str) -> Result<(), IoFault> {
        self.last = None;
        let made = open(
            self.rt,
            OpenOptions::new().write(true).create(true).truncate(true),
            name,
        );
        match made {
            Ok(_) => Ok(()),
            Err(error) => self.fail(name, error),
        }
    }

    fn add(&mut self, name: &str, bytes: &[u8]) -> Result<(), IoFault> {
        match add_to(self.rt, self.alloc, &mut self.last, name, bytes) {
            Ok(()) => Ok(()),
            Err(error) => self.fail(name, error),
        }
    }
}
