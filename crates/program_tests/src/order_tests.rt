// In which order a command makes its calls: a reply is written before the next read, and the files are called in their order.
ghost use Rattle.std.specs.Prelude.{◌≡◌, ◌<◌, None};

use rx_base::IoFault;
use rx_io::{FileCall, Sink, Source, TameFiles};
use rx_serve::End;
use std::alloc::{AllocError, Global};
use std::cell::RefCell;
use std::marker::Brand;
use std::sync::ledger::{Blank, Ledger};
use std::test::Fail;
use test_commands::{RUN, executable_of, run_over, shown};

// A source and a sink that never fail and write their calls into one log: `R` for a read, and the bytes of a write.
#[derive(Drop)]
struct LoggedSource<'a> {
    rest: &'a [u8],
    log: &'a RefCell<Vec<u8>>,
}

#[derive(Drop)]
struct LoggedSink<'a> {
    log: &'a RefCell<Vec<u8>>,
}

fn note(log: &RefCell<Vec<u8>>, bytes: &[u8]) -> Result<(), AllocError> {
    match log.try_borrow_mut() {
        Ok(mut log) => log.extend_from_slice(bytes),
        Err(_) => Err(AllocError),
    }
}

impl Source for LoggedSource<'_> {
    ghost told = { λ _. None };

    ghost faults = { λ _. 0 };

    ghost Fixed = { Unit {0} };

    ghost fixed = { λ _. tt };

    ghost countable = { λ _. tt };

    fn take(&mut self, buf: &mut [u8]) -> Result<usize, IoFault> {
        match note(self.log, b"R") {
            Ok(()) => {}
            Err(_) => return Err(IoFault::Memory),
        }
        let count = buf.len().min(self.rest.len());
        let (piece, rest) = self.rest.split_at(count);
        buf[..count].copy_from_slice(piece);
        self.rest = rest;
        Ok(count)
    }
}

impl Sink for LoggedSink<'_> {
    ghost told = { λ _. None };

    ghost faults = { λ _. 0 };

    ghost Fixed = { Unit {0} };

    ghost fixed = { λ _. tt };

    ghost countable = { λ _. tt };

    fn give(&mut self, bytes: &[u8]) -> Result<usize, IoFault> {
        match note(self.log, bytes) {
            Ok(()) => Ok(bytes.len()),
            Err(_) => Err(IoFault::Memory),
        }
    }
}

// Runs the echo on two messages over a source and a sink with one log.
fn run_logged<L: Ledger>(
    alloc: Global,
    files: &mut TameFiles,
    log: &RefCell<Vec<u8>>,
    blank: Blank,
) -> Result<End, Fail>
    requires name { blank.name ≡ L.name }
    requires parts { blank.parts ≡ L.parts }
    requires some { 0 < blank.parts }
{
    let mut source = LoggedSource {
        rest: b"\x01\0\0\0\0\x02\0\0\x02\0a\n\x02\0\0\x03\0bc\n",
        log,
    };
    let mut sink = LoggedSink { log };
    run_over::<L, _, _, _>(alloc, RUN, files, &mut source, &mut sink, blank)
}

// The calls on the files: `L`, `S` or `A` for a load, a start and an addition, and the name behind it.
fn calls_in(alloc: Global, files: &TameFiles) -> Result<Vec<u8>, AllocError> {
    let mut calls = Vec::new(alloc);
    'calls: for call in files.calls() {
        let (kind, name) = match call {
            FileCall::Loaded(name) => (b'L', name),
            FileCall::Started(name) => (b'S', name),
            FileCall::Added(name) => (b'A', name),
        };
        calls.push(kind)?;
        calls.extend_from_slice(name.as_slice())?;
    }
    Ok(calls)
}

#[test]
fn a_reply_is_written_before_the_next_read(rt: HostRuntime) -> Result<(), Fail> {
    let alloc = rt.alloc();
    let log = RefCell::new(Vec::new(alloc));
    let mut held = Vec::new(alloc);
    held.push((String::from_str(alloc, "p")?, executable_of(alloc, "echo")?))?;
    let mut files = TameFiles::make(alloc, held);
    let end = run_logged::<Brand>(alloc, &mut files, &log, Blank::new(1))?;
    let ended = shown(alloc, &end)?;
    assert_eq!(rt; ended.as_str(), "Finished 0 0 [] 52 3");
    // The opening's read, two reads of the first message and its reply, two of the second and its reply, and the end.
    let calls = log.into_inner();
    assert_eq!(rt;
        calls.as_slice(),
        b"RRR\x02\0\0\x02\0a\nRR\x02\0\0\x03\0bc\nR".as_slice()
    );
    // The program is loaded, both files are started and ended, the record first. The echo has no malloc and no recovery, so nothing is noted.
    let calls = calls_in(alloc, &files)?;
    assert_eq!(rt; calls.as_slice(), b"LpSrArStAtArAt".as_slice());
    Ok(())
}
