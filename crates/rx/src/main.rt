//! `rx`: runs a guest program on the frames of standard input, and writes what it sends as frames on standard output; or serves the
//! clients of a port with it; takes over from a host that stopped, or goes on for one that was killed; diagnoses failures; assembles
//! programs, replays records, and converts them; serves a generated session; and turns lines into frames and back.
#![tactic(auto)]

ghost use Rattle.std.specs.Prelude.{◌≡◌, ◌<◌};
ghost use Rattle.rx_serve.specs.Status.{status_of};

mod descriptors;
mod facts;
mod helping;
mod message;
mod outputs;
mod readings;
mod record_files;
mod rows;
mod seen;
mod sentences;
mod settings;
mod std_teller;

use command_line::{asked_help, read_command};
use descriptors::hold_closed;
use durable_files::DiskFiles;
use facts::words_of;
use helping::print_help;
use outputs::{Objection, find_objection};
use record_files::RecordFiles;
use rx_base::Steps;
use rx_io::{FileFault, StdSink, StdSource};
use rx_serve::{End, run_rx};
use sentences::{tell, tell_memory, tell_not_utf8};
use settings::{Settings, settings_of};
use std::env;
use std::marker::Brand;
use std::process::ExitCode;
use std::sync::ledger::{Blank, Ledger};
use std_teller::StdTeller;
use tcp_edge::{StopInput, TcpPortEdge};

// The status where memory ran out, and where the words are those of no command.
const NO_MEMORY: u8 = 10;

const BAD_WORDS: u8 = 2;

// The status where a file can't be written, or would be lost by it.
const NO_FILE: u8 = 9;

// The status of what speaks against writing the files of these words, which is told, if anything does. Nothing was touched then.
fn refused_outputs(rt: &HostRuntime, words: &[String]) -> Option<u8> {
    let Ok(Some(command)) = read_command(rt.alloc(), words) else {
        return None;
    };
    let facts = words_of(rt.alloc(), &command).ok()?;
    let found = find_objection(rt, facts.as_slice())?;
    let _ = eprintln!(rt; "rx: {found}");
    match found {
        Objection::OneFile(_, _) => Some(BAD_WORDS),
        Objection::Lost(_, _) | Objection::Pipe(_, _) => Some(NO_FILE),
    }
}

// The descriptor of standard input.
const STANDARD_INPUT: i32 = 0;

// How a command ended, and why a file couldn't be written last, if one couldn't be.
#[derive(Drop)]
struct Ended {
    end: End,
    fault: Option<FileFault>,
}

// Runs the command of these words over the real streams, files and ports, as they say of these, and lets a teller know of recoveries.
fn run<L: Ledger>(
    rt: &HostRuntime,
    words: &[String],
    settings: &Settings<'_>,
    teller: &StdTeller<'_>,
    blank: Blank,
) -> Ended
    requires name { blank.name ≡ L.name }
    requires parts { blank.parts ≡ L.parts }
    requires some { 0 < blank.parts }
    ensures { result.end.status ≡ status_of result.end.answer }
{
    let alloc = rt.alloc();
    let files = DiskFiles::make(rt, alloc, settings.through);
    let mut files = RecordFiles::make(rt, files, settings.record);
    let mut input = StdSource::make(rt);
    let mut output = StdSink::make(rt);
    let stop = settings.drain.map(|drain| StopInput::make(rt.reader(), STANDARD_INPUT, drain));
    let mut port = TcpPortEdge::make(rt, alloc, settings.patience, stop);
    let mut steps = Steps::<L>::start(blank);
    let end = run_rx(
        alloc,
        words,
        &mut files,
        &mut input,
        &mut output,
        &mut port,
        &mut steps,
        teller,
    );
    let fault = files.take_fault();
    Ended { end, fault }
}

fn main(rt: HostRuntime) -> ExitCode {
    // Held as long as the program runs.
    let _closed = hold_closed(&rt);
    let alloc = rt.alloc();
    // Words that aren't UTF-8 are no words of a command.
    let words: Vec<String> = match env::args(&rt) {
        Ok(args) => match args.skip(1).collect(alloc) {
            Ok(words) => words,
            Err(_) => {
                tell_memory(&rt);
                return ExitCode::from(NO_MEMORY);
            }
        },
        Err(_) => {
            tell_not_utf8(&rt);
            return ExitCode::from(BAD_WORDS);
        }
    };
    if let Some(help) = asked_help(words.as_slice()) {
        return ExitCode::from(print_help(&rt, help));
    }
    if let Some(status) = refused_outputs(&rt, words.as_slice()) {
        return ExitCode::from(status);
    }
    let Ok(settings) = settings_of(&rt, words.as_slice()) else {
        tell_memory(&rt);
        return ExitCode::from(NO_MEMORY);
    };
    let teller = StdTeller::make(&rt, words.as_slice());
    let Ended { end, fault } = run::<Brand>(
        &rt,
        words.as_slice(),
        &settings,
        &teller,
        Blank::new(1),
    );
    teller.tell_end(&end);
    if end.status != 0 {
        tell(&rt, &end, words.as_slice(), fault);
    }
    ExitCode::from(end.status)
}
