// What stands for the names in a sentence: words of a command, and what its answer, what differs and the files tell.
use crate::outputs::Kind;
use crate::seen::Seen;
use block_book::Ask;
use command_line::{Command, NO_RECORD, RunCommand};
use elf_file::{ElfRefusal, RefusedField};
use msg_frame::MAX_MESSAGE;
use replay::Difference;
use run_history::{Answer, Cause};
use rx_base::MAX_ITEMS;
use rx_serve::{MAX_COUNTS, MAX_EVENTS, MAX_PROGRAM, MAX_RECORD, MAX_REPORT, MAX_SOURCE};
use schedule_file::VERSION;
use std::alloc::{AllocError, Global};
use std::{fmt, io};

/// What stands for a name.
#[derive(Drop)]
pub enum Value<'a> {
    /// A file that the command reads.
    Read(&'a str),
    /// A file that it writes, and of what kind.
    Written(&'a str, Kind),
    /// A file that isn't written.
    NoFile,
    Number(u64),
    Address(u32),
    Ask(Ask),
    Answer(Answer),
    Refusal(ElfRefusal),
    Field(RefusedField),
    Error(io::Error),
    Text(String),
}

impl fmt::Display for Value<'_> {
    fn fmt<W: fmt::Write>(&self, f: &mut fmt::Formatter<W>) -> fmt::Result {
        match self {
            Value::Read(name) | Value::Written(name, _) => write!(f, "{name}"),
            Value::NoFile => write!(f, "{NO_RECORD}"),
            Value::Number(number) => write!(f, "{number}"),
            Value::Address(address) => write!(f, "0x{address:08x}"),
            Value::Ask(Ask::Malloc { size }) => write!(f, "malloc({size})"),
            Value::Ask(Ask::Calloc { count, size }) => write!(f, "calloc({count}, {size})"),
            Value::Ask(Ask::Realloc { old, size }) => write!(f, "realloc(0x{old:08x}, {size})"),
            Value::Answer(answer) => write!(f, "{answer:?}"),
            Value::Refusal(refusal) => write!(f, "{refusal}"),
            Value::Field(field) => write!(f, "{field}"),
            Value::Error(error) => write!(f, "{error}"),
            Value::Text(text) => write!(f, "{text}"),
        }
    }
}

/// A name with what stands for it.
#[derive(Drop)]
pub struct Fact<'a> {
    pub name: &'static str,
    pub value: Value<'a>,
}

impl<'a> Fact<'a> {
    /// The file, if it is one.
    pub fn file(&self) -> Option<&'a str> {
        match self.value {
            Value::Read(file) | Value::Written(file, _) => Some(file),
            _ => None,
        }
    }
}

/// The file that stands for a name.
pub fn file_named<'a>(facts: &[Fact<'a>], name: &str) -> Option<&'a str> {
    facts.iter().find(|fact| fact.name == name)?.file()
}

/// What stands for a name.
pub fn named<'a>(name: &'static str, value: Value<'a>) -> Fact<'a> {
    Fact { name, value }
}

// The number that stands for a name.
fn number<'a>(name: &'static str, number: u64) -> Fact<'a> {
    named(name, Value::Number(number))
}

// How many instructions of a program run in a millisecond: rx does some 250 million a second.
const A_MILLISECOND: u64 = 250_000;

// How many milliseconds so many instructions take, in whole ones.
fn milliseconds_of(budget: u64) -> u64 {
    budget.div_ceil(A_MILLISECOND)
}

// The record of this name, as a file that is written, unless it is none.
fn record_value<'a>(name: &'a str) -> Value<'a> {
    if name == NO_RECORD {
        return Value::NoFile;
    }
    Value::Written(name, Kind::Record)
}

// The words of a session.
fn session_words<'a>(alloc: Global, run: &RunCommand<'a>) -> Result<Vec<Fact<'a>>, AllocError> {
    let words = vec![in alloc;
        named("program", Value::Read(run.program)),
        named("recording", record_value(run.recording)),
        named("report", Value::Written(run.report, Kind::Report)),
        number("budget", run.budget),
        number("milliseconds", milliseconds_of(run.budget)),
    ]?;
    Ok(words)
}

/// The words of a command that sentences name. Files stand in the order in which they are looked at, those that are read first.
///
/// # Errors
///
/// `AllocError` where memory runs out, as for all functions here.
pub fn words_of<'a>(alloc: Global, command: &Command<'a>) -> Result<Vec<Fact<'a>>, AllocError> {
    let words = match command {
        Command::Run(run) => session_words(alloc, run)?,
        Command::Serve(serve) => {
            let mut words = session_words(alloc, &serve.session)?;
            words.push(number("port", u64::from(serve.port)))?;
            words
        }
        Command::Diagnose(diagnose) => {
            let mut words = session_words(alloc, &diagnose.session)?;
            words.push(named(
                "diagnosis",
                Value::Written(diagnose.diagnosis, Kind::Diagnosis),
            ))?;
            words
        }
        Command::Asm(asm) => vec![in alloc;
            named("source", Value::Read(asm.source)),
            named("out", Value::Written(asm.out, Kind::Executable)),
        ]?,
        Command::Replay(replay) => vec![in alloc;
            named("program", Value::Read(replay.program)),
            named("recorded", Value::Read(replay.recording)),
        ]?,
        Command::Convert(convert) => vec![in alloc;
            named("program", Value::Read(convert.program)),
            named("recorded", Value::Read(convert.recording)),
            named("out", Value::Written(convert.out, Kind::Record)),
        ]?,
        Command::Standby(standby) => vec![in alloc;
            named("program", Value::Read(standby.program)),
            named("recorded", Value::Read(standby.recorded)),
            named("counts", Value::Read(standby.counts)),
            named("recording", record_value(standby.recording)),
            number("budget", standby.budget),
            number("milliseconds", milliseconds_of(standby.budget)),
        ]?,
        Command::Resume(resume) => vec![in alloc;
            named("program", Value::Read(resume.program)),
            named("recorded", Value::Read(resume.recorded)),
            named("reported", Value::Read(resume.reported)),
            named("counts", Value::Read(resume.counts)),
            named("recording", record_value(resume.recording)),
            named("report", Value::Written(resume.report, Kind::Report)),
            number("budget", resume.budget),
            number("milliseconds", milliseconds_of(resume.budget)),
        ]?,
        Command::Drill(_) | Command::Frame | Command::Unframe => Vec::new(alloc),
    };
    Ok(words)
}

/// Adds the limits of files and sessions.
pub fn add_limits(facts: &mut Vec<Fact<'_>>) -> Result<(), AllocError> {
    facts.push(number("MAX_PROGRAM", MAX_PROGRAM))?;
    facts.push(number("MAX_SOURCE", MAX_SOURCE))?;
    facts.push(number("MAX_RECORD", MAX_RECORD))?;
    facts.push(number("MAX_REPORT", MAX_REPORT))?;
    facts.push(number("MAX_COUNTS", MAX_COUNTS))?;
    facts.push(number("MAX_MESSAGE", MAX_MESSAGE as u64))?;
    facts.push(number("MAX_ITEMS", MAX_ITEMS))?;
    facts.push(number("MAX_EVENTS", MAX_EVENTS))?;
    facts.push(number("VERSION", u64::from(VERSION)))?;
    Ok(())
}

/// Adds what an answer tells.
pub fn add_answer(facts: &mut Vec<Fact<'_>>, answer: Answer) -> Result<(), AllocError> {
    facts.push(named("answer", Value::Answer(answer)))?;
    match answer {
        Answer::Exited(code) => facts.push(number("code", u64::from(code)))?,
        Answer::ElfRefused(kind) => {
            let refusal = ElfRefusal::Refused(kind);
            facts.push(named("refusal", Value::Refusal(refusal)))?
        }
        Answer::AsmRefused { line, .. }
        | Answer::RecordRefused { line }
        | Answer::ReportRefused { line }
        | Answer::CountsRefused { line } => facts.push(number("line", u64::from(line)))?,
        Answer::Short { conn } | Answer::MessageTooLong { conn } => {
            facts.push(number("conn", u64::from(conn)))?
        }
        Answer::Mismatch { step } => facts.push(number("step", step))?,
        Answer::InputRefused { offset, .. } => facts.push(number("offset", offset))?,
        Answer::GaveUp { point, cause } => {
            facts.push(number("point", point))?;
            if let Cause::AssertFailed(code) = cause {
                facts.push(number("code", u64::from(code)))?
            }
        }
        _ => {}
    }
    Ok(())
}

/// Adds what differs from a record. The lines of answers begin behind line 1.
pub fn add_difference(facts: &mut Vec<Fact<'_>>, difference: Difference) -> Result<(), AllocError> {
    if let Difference::NoLine {
        number: before,
        asked,
    }
    | Difference::OtherAsk {
        number: before,
        asked,
        ..
    }
    | Difference::Unusable {
        number: before,
        asked,
        ..
    } = difference
    {
        facts.push(number("line", before.saturating_add(2)))?;
        facts.push(named("asked", Value::Ask(asked)))?
    }
    match difference {
        Difference::Ended { code }
        | Difference::Failed {
            cause: Cause::AssertFailed(code),
        } => { facts.push(number("code", u64::from(code)))? }
        Difference::OtherAsk { told, .. } => facts.push(named("told", Value::Ask(told)))?,
        Difference::Unusable { at, carried, .. } => {
            facts.push(named("at", Value::Address(at)))?;
            facts.push(number("carried", u64::from(carried)))?
        }
        Difference::LinesLeft { used, lines } => {
            facts.push(number("used", used))?;
            facts.push(number("lines", lines))?
        }
        Difference::ItemsApart { taken, told } => {
            facts.push(number("taken", taken))?;
            facts.push(number("told", told))?
        }
        Difference::Failed { .. } | Difference::InputEnded | Difference::NoLine { .. } => {}
    }
    Ok(())
}

/// Adds what the files tell.
pub fn add_seen<'a>(facts: &mut Vec<Fact<'a>>, seen: Seen<'a>) -> Result<(), AllocError> {
    match seen {
        Seen::Unread(file, error) | Seen::Unwritten(file, error) => {
            facts.push(named("file", Value::Read(file)))?;
            facts.push(named("error", Value::Error(error)))?
        }
        Seen::Large(file, size, limit) => {
            facts.push(named("file", Value::Read(file)))?;
            facts.push(number("size", size))?;
            facts.push(number("limit", limit))?
        }
        Seen::Field(field) => facts.push(named("field", Value::Field(field)))?,
        Seen::Explained(text) => facts.push(named("explanation", Value::Text(text)))?,
        Seen::Cut | Seen::Long | Seen::Torn | Seen::Old => {}
    }
    Ok(())
}
