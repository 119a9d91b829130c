// What the words of a command say of the outside. It is no part of what the command is asked for.
use command_line::{Command, NO_RECORD, asked_durable, asked_record_stop, read_command};
use durable_files::Through;
use std::alloc::AllocError;

/// What becomes of the record of a session.
#[derive(Clone, Copy)]
pub enum Record<'a> {
    /// It is written; where it can't be, the session ends.
    Written,
    /// The one of this name isn't written.
    Unwritten(&'a str),
    /// The one of this name is written for as long as it can be.
    Sparing(&'a str),
}

/// Which files are written through to the disk, what becomes of the record, for how many seconds a client is waited for, and where a stop may be asked
/// for, for how many seconds clients may stay behind it.
#[derive(Drop)]
pub struct Settings<'a> {
    pub through: Option<Through<'a>>,
    pub record: Record<'a>,
    /// 0: without limit.
    pub patience: u64,
    pub drain: Option<u64>,
}

// The names of the record that a command writes as it serves, and of the report, if it writes one.
fn names_of<'a>(command: &Command<'a>) -> Option<(&'a str, Option<&'a str>)> {
    match command {
        Command::Run(run) => Some((run.recording, Some(run.report))),
        Command::Serve(serve) => Some((serve.session.recording, Some(serve.session.report))),
        Command::Diagnose(diagnose) => {
            Some((diagnose.session.recording, Some(diagnose.session.report)))
        }
        Command::Resume(resume) => Some((resume.recording, Some(resume.report))),
        Command::Standby(standby) => Some((standby.recording, None)),
        _ => None,
    }
}

// The report of a session, at each of its episodes; and the first line of its record, without which that tells nothing.
fn through_of<'a>(
    words: &[String],
    record: &'a str,
    report: Option<&'a str>,
) -> Option<Through<'a>> {
    if !asked_durable(words) {
        return None;
    }
    Some(Through {
        each: report?,
        first: record,
    })
}

// What becomes of a record of this name.
fn record_of<'a>(words: &[String], record: &'a str) -> Record<'a> {
    if record == NO_RECORD {
        return Record::Unwritten(record);
    }
    if asked_record_stop(words) {
        return Record::Sparing(record);
    }
    Record::Written
}

/// What the words of a command say of the outside.
///
/// # Errors
///
/// `AllocError` where memory runs out as the words are read.
pub fn settings_of<'a>(rt: &HostRuntime, words: &'a [String]) -> Result<Settings<'a>, AllocError> {
    let mut settings = Settings {
        through: None,
        record: Record::Written,
        patience: 0,
        drain: None,
    };
    let Some(command) = read_command(rt.alloc(), words)? else {
        return Ok(settings);
    };
    if let Some((record, report)) = names_of(&command) {
        settings.through = through_of(words, record, report);
        settings.record = record_of(words, record);
    }
    if let Command::Serve(serve) = command {
        settings.patience = u64::from(serve.patience);
        settings.drain = serve.stops.then_some(u64::from(serve.drain));
    }
    Ok(settings)
}
