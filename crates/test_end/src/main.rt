//! Runs a command of `rx`, and tells the whole of how it ended: for `bench/refused.py`, which refuses it memory.
//!
//! Words, files, standard input and standard output are those of `rx`. What `rx` looks at before a command isn't looked at here.
//! A `serve` is of clients in memory: standard input has what they send, a `|` between two of them, and each call on them is told.
//! Telling takes no memory, so that it is told too where memory stays out.
#![tactic(auto)]

ghost use Rattle.std.specs.Prelude.{◌≡◌, ◌<◌};

use ports::{MemoryPort, PortEntry};
use rx_base::Steps;
use rx_io::{StdFiles, StdSink, StdSource};
use rx_serve::{End, run_rx};
use std::alloc::Global;
use std::marker::Brand;
use std::process::ExitCode;
use std::sync::ledger::{Blank, Ledger};
use std::{env, io};
use telling::NoTeller;

// How many bytes a call on a client takes or gives at most.
const MOST: usize = 4096;

// The status where no command was begun, which no command ends with.
const NOT_BEGUN: u8 = 11;

// The words of the command.
fn words_of(rt: &HostRuntime) -> io::Result<Vec<String>> {
    Ok(env::args(rt)?.skip(1).collect(rt.alloc())?)
}

// What each client sends, by the words of a `serve`. Other commands have no clients, and their input is left to them.
fn inputs_of(rt: &HostRuntime, words: &[String]) -> io::Result<Vec<Vec<u8>>> {
    let alloc = rt.alloc();
    let mut inputs = Vec::new(alloc);
    if let [command, ..] = words {
        if command.as_str() == "serve" {
            let text = io::read_to_string(alloc, rt.reader())?;
            for input in text.as_str().split('|') {
                inputs.push(input.as_bytes().to_vec(alloc)?)?;
            }
        }
    }
    Ok(inputs)
}

// Tells the calls on the clients.
fn tell_calls(rt: &HostRuntime, calls: &[PortEntry]) {
    for call in calls {
        let _ = println!(rt; "call {call:?}");
    }
}

// Tells how a command ended, behind whatever it wrote.
fn tell_end(rt: &HostRuntime, end: &End) {
    let _ = println!(rt; "");
    let _ = println!(rt;
        "end {:?}, status {}, recorded {}, steps {}, taken {}",
        end.answer, end.status, end.recorded, end.steps, end.taken
    );
    if let Some(difference) = end.difference {
        let _ = println!(rt; "differs {difference:?}");
    }
    for choice in end.tail.as_slice() {
        let _ = println!(rt; "tail {choice:?}");
    }
}

// Runs the command of these words, and tells how it ended.
fn run<L: Ledger>(rt: &HostRuntime, words: &[String], inputs: Vec<Vec<u8>>, blank: Blank) -> u8
    requires name { blank.name ≡ L.name }
    requires parts { blank.parts ≡ L.parts }
    requires some { 0 < blank.parts }
{
    let alloc = rt.alloc();
    let mut files = StdFiles::make(rt, alloc);
    let mut input = StdSource::make(rt);
    let mut output = StdSink::make(rt);
    let mut port = MemoryPort::make(alloc, inputs, Vec::new(alloc), Vec::new(alloc), MOST);
    let mut steps = Steps::<L>::start(blank);
    let end = run_rx(
        alloc,
        words,
        &mut files,
        &mut input,
        &mut output,
        &mut port,
        &mut steps,
        &NoTeller,
    );
    tell_end(rt, &end);
    tell_calls(rt, port.calls());
    end.status
}

fn main(rt: HostRuntime) -> ExitCode {
    let Ok(words) = words_of(&rt) else {
        return ExitCode::from(NOT_BEGUN);
    };
    let Ok(inputs) = inputs_of(&rt, words.as_slice()) else {
        return ExitCode::from(NOT_BEGUN);
    };
    ExitCode::from(run::<Brand>(&rt, words.as_slice(), inputs, Blank::new(1)))
}
