// Rows of a table: what is played to a program, and what is expected.
use alloc_env::Env;
use msg_frame::Framing;
use rx_engine::Options;
use std::alloc::Global;
use std::test::Fail;

// The bytes of each program's window.
pub(crate) const WINDOW: u32 = 1 << 20;

// What may be given. `fail` is the number of a call of the link that fails, `gone` that of a give that finds its connection gone after
// `after` bytes, and `note_fail` that of a call of the notes that fails. `memory` is how many calls of the link are done until it has no
// memory any more, and `note_memory` how many of the notes. A `star` is so many letters x.
const NAMES: [&str; 17] = [
    "hold",
    "ring",
    "every",
    "frames",
    "budget",
    "keep",
    "env",
    "max_items",
    "max_events",
    "frame",
    "fail",
    "gone",
    "after",
    "note_fail",
    "memory",
    "note_memory",
    "star",
];

// A program, what is played to it, other options than the usual ones, and what has to be seen.
#[derive(Clone, Copy)]
pub(crate) struct Row<'a> {
    pub(crate) program: &'a str,
    pub(crate) events: &'a str,
    pub(crate) given: &'a str,
    pub(crate) expected: &'a str,
}

// The word says something that may be given.
fn expect_known(word: &str) -> Result<(), Fail> {
    let (name, _) = word.split_once('=').ok_or("no value is given")?;
    for known in NAMES {
        if name == known {
            return Ok(());
        }
    }
    Err(Fail::new("no such name"))
}

// The row of a line.
pub(crate) fn row_of(line: &str) -> Result<Row<'_>, Fail> {
    let (given, expected) = line.split_once('>').ok_or("it is no row")?;
    let mut words = given.split_whitespace();
    let program = words.next().ok_or("no program")?;
    let events = words.next().ok_or("no events")?;
    for word in words {
        expect_known(word)?;
    }
    Ok(Row {
        program,
        events,
        given,
        expected,
    })
}

// The value of a word `name=value`.
pub(crate) fn value_of<'a>(words: &'a str, name: &str) -> Option<&'a str> {
    for word in words.split_whitespace() {
        if let Some((key, value)) = word.split_once('=') {
            if key == name {
                return Some(value);
            }
        }
    }
    None
}

// The number that is given, or another one.
pub(crate) fn number_of(words: &str, name: &str, usual: usize) -> Result<usize, Fail> {
    match value_of(words, name) {
        Some(value) => Ok(value.parse::<usize>()?),
        None => Ok(usual),
    }
}

fn small_number_of(words: &str, name: &str, usual: u32) -> Result<u32, Fail> {
    match value_of(words, name) {
        Some(value) => Ok(value.parse::<u32>()?),
        None => Ok(usual),
    }
}

pub(crate) fn large_number_of(words: &str, name: &str, usual: u64) -> Result<u64, Fail> {
    match value_of(words, name) {
        Some(value) => Ok(value.parse::<u64>()?),
        None => Ok(usual),
    }
}

// The numbers of calls that are given: one or none.
pub(crate) fn calls_of(alloc: Global, words: &str, name: &str) -> Result<Vec<u64>, Fail> {
    let mut calls = Vec::new(alloc);
    if let Some(value) = value_of(words, name) {
        calls.push(value.parse::<u64>()?)?;
    }
    Ok(calls)
}

fn framing_of(words: &str) -> Framing {
    match value_of(words, "frame") {
        Some("length") => Framing::Length,
        Some("whole") => Framing::Whole,
        _ => Framing::Line,
    }
}

fn env_of(words: &str) -> Result<Env, Fail> {
    match value_of(words, "env") {
        None => Ok(Env::Plain),
        Some("plain") => Ok(Env::Plain),
        Some("pad") => Ok(Env::Pad),
        Some("zero") => Ok(Env::Zero),
        Some("isolate") => Ok(Env::Isolate),
        Some("delay") => Ok(Env::Delay),
        Some("all") => Ok(Env::All),
        Some(_) => Err(Fail::new("env")),
    }
}

// What a session is asked for unless its row says otherwise: what its user has, but with a small window and with few pages.
pub(crate) fn options_of(words: &str) -> Result<Options, Fail> {
    Ok(Options {
        window: WINDOW,
        frame: framing_of(words),
        hold: small_number_of(words, "hold", 0)?,
        ring: small_number_of(words, "ring", 8)?,
        every: small_number_of(words, "every", 1)?,
        frames: small_number_of(words, "frames", 4)?,
        budget: large_number_of(words, "budget", 1_000_000)?,
        keep: small_number_of(words, "keep", 4)?,
        base: env_of(words)?,
        max_items: large_number_of(words, "max_items", 1 << 20)?,
        max_events: large_number_of(words, "max_events", 1 << 32)?,
    })
}
