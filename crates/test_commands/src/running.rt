// Runs a command, with a counter of its own.
ghost use Rattle.std.specs.Prelude.{◌≡◌, ◌<◌};

use crate::outsides::{Outside, outside_in};
use ports::TamePort;
use rx_base::Steps;
use rx_io::{Files, Sink, Source};
use rx_serve::{End, run_rx};
use std::alloc::{AllocError, Global};
use std::marker::Brand;
use std::sync::ledger::{Blank, Ledger};
use std::test::Fail;
use telling::NoTeller;

/// The words of a command that runs the program `p`.
pub const RUN: &str = "run p --record r --report t";

// A command of a row: its words, and what the file `p` has.
#[derive(Drop)]
pub(crate) struct Played<'a> {
    pub(crate) alloc: Global,
    pub(crate) words: &'a str,
    pub(crate) program: &'a [u8],
    pub(crate) row: &'a str,
}

// How a command ended, and what it was run over.
#[derive(Drop)]
pub(crate) struct Outcome {
    pub(crate) end: End,
    pub(crate) outside: Outside,
}

// The words of a line.
fn words_of(alloc: Global, line: &str) -> Result<Vec<String>, AllocError> {
    let mut words = Vec::new(alloc);
    for word in line.split(' ') {
        words.push(String::from_str(alloc, word)?)?;
    }
    Ok(words)
}

/// Runs a command over these files and streams with a counter of its own. It is generic over its ledger, and is handed the
/// blank of which the counter is made.
pub fn run_over<L: Ledger, F: Files, S: Source, K: Sink>(
    alloc: Global,
    line: &str,
    files: &mut F,
    source: &mut S,
    sink: &mut K,
    blank: Blank,
) -> Result<End, Fail>
    requires name { blank.name ≡ L.name }
    requires parts { blank.parts ≡ L.parts }
    requires some { 0 < blank.parts }
{
    let words = words_of(alloc, line)?;
    let mut port = TamePort::make(alloc, Vec::new(alloc), Vec::new(alloc), 1);
    let mut steps = Steps::<L>::start(blank);
    Ok(run_rx(
        alloc,
        words.as_slice(),
        files,
        source,
        sink,
        &mut port,
        &mut steps,
        &NoTeller,
    ))
}

// Runs a command with a counter of its own.
fn run_counted<L: Ledger>(
    alloc: Global,
    words: &[String],
    outside: &mut Outside,
    blank: Blank,
) -> End
    requires name { blank.name ≡ L.name }
    requires parts { blank.parts ≡ L.parts }
    requires some { 0 < blank.parts }
{
    let mut steps = Steps::<L>::start(blank);
    run_rx(
        alloc,
        words,
        &mut outside.files,
        &mut outside.source,
        &mut outside.sink,
        &mut outside.port,
        &mut steps,
        &NoTeller,
    )
}

// Runs a command with a file `p`, and with what a row says of the others and of the streams.
pub(crate) fn outcome_of(played: &Played<'_>) -> Result<Outcome, Fail> {
    let alloc = played.alloc;
    let words = words_of(alloc, played.words)?;
    let mut outside = outside_in(alloc, played.program, played.row)?;
    let end = run_counted::<Brand>(alloc, words.as_slice(), &mut outside, Blank::new(1));
    Ok(Outcome { end, outside })
}
