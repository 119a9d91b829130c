// What the files of a command tell beyond its answer. They are looked at once more behind it.
ghost use Rattle.std.specs.Prelude.{◌≡◌, IfSome};
ghost use Rattle.guest_image.specs.Layout.{IsWindow};
ghost use Rattle.command_line.specs.Commands.{run_shown, serve, serve_shown, shown};
ghost use Rattle.command_line.specs.Ranges.{AreInRange, HasRanges};

use crate::facts::{Fact, Value, file_named};
use command_line::{Command, RunCommand, ServeCommand};
use elf_file::{RefusedField, field_of_refusal};
use run_history::Answer;
use rv_asm::explain;
use rx_io::{FileFault, Files, StdFiles};
use rx_serve::{MAX_COUNTS, MAX_PROGRAM, MAX_RECORD, MAX_REPORT, MAX_SOURCE};
use schedule_file::{VERSION, read_record, read_unfinished};
use std::alloc::Global;
use std::fs::OpenOptions;
use std::{fs, io};

/// What is seen in a file.
#[derive(Drop)]
pub enum Seen<'a> {
    /// It can't be read now, and why.
    Unread(&'a str, io::Error),
    /// It couldn't be written, or nothing can be added to it now, and why.
    Unwritten(&'a str, io::Error),
    /// It has so many bytes, and more than this limit.
    Large(&'a str, u64, u64),
    /// The field that a program file is refused for.
    Field(RefusedField),
    /// What is wrong with a refused text.
    Explained(String),
    /// A record ends before its last line: the session that wrote it was broken off.
    Cut,
    /// A record that is refused is one: its run is too long to be followed.
    Long,
    /// It has no whole line.
    Torn,
    /// It is a record of version 1.
    Old,
}

/// A file, if it can be loaded.
pub fn loaded(rt: &HostRuntime, file: &str, limit: u64) -> Option<Vec<u8>> {
    StdFiles::make(rt, rt.alloc())
        .load(rt.alloc(), file, limit)
        .ok()
}

// Whether a file of a command can't be used, and why. One that is to be written and isn't there is not made.
fn fault_of<'a>(rt: &HostRuntime, value: &Value<'a>) -> Option<Seen<'a>> {
    let (file, is_read) = match value {
        Value::Read(file) => (*file, true),
        Value::Written(file, _) => (*file, false),
        _ => return None,
    };
    match fs::metadata(rt, file) {
        // Who opens what is no plain file may wait for another one.
        Ok(found) if !found.is_file() && !found.is_dir() => return None,
        _ => {}
    }
    let opened = OpenOptions::new()
        .read(is_read)
        .append(!is_read)
        .open(rt, file);
    match opened {
        Ok(_) => None,
        Err(error) if is_read => Some(Seen::Unread(file, error)),
        Err(error) => Some(Seen::Unwritten(file, error)),
    }
}

// The first file of a command that can't be used, and why.
fn first_fault<'a>(rt: &HostRuntime, words: &[Fact<'a>]) -> Option<Seen<'a>> {
    for word in words {
        let fault = fault_of(rt, &word.value);
        if fault.is_some() {
            return fault;
        }
    }
    None
}

// A file of a command that couldn't be written as it ran, and why.
fn written_fault<'a>(words: &[Fact<'a>], fault: FileFault) -> Option<Seen<'a>> {
    let FileFault { name, error } = fault;
    let word = words
        .iter()
        .find(|word| word.file() == Some(name.as_str()))?;
    Some(Seen::Unwritten(word.file()?, error))
}

// How many bytes a file that stands for this name may have, if it is read.
fn limit_of(name: &str) -> Option<u64> {
    match name {
        "program" => Some(MAX_PROGRAM),
        "source" => Some(MAX_SOURCE),
        "recorded" => Some(MAX_RECORD),
        "reported" => Some(MAX_REPORT),
        "counts" => Some(MAX_COUNTS),
        _ => None,
    }
}

// The first file of a command that is larger than it may be.
fn first_large<'a>(rt: &HostRuntime, words: &[Fact<'a>]) -> Option<Seen<'a>> {
    for word in words {
        if let (Value::Read(file), Some(limit)) = (&word.value, limit_of(word.name)) {
            if let Ok(found) = fs::metadata(rt, *file) {
                if found.len() > limit {
                    return Some(Seen::Large(*file, found.len(), limit));
                }
            }
        }
    }
    None
}

// The bytes of a program's window.
fn window_bytes(run: &RunCommand<'_>) -> u32
    requires { AreInRange (run_shown run.now) }
    ensures { IsWindow result }
{
    run.window << 20
}

// The bytes of the window of a program that serves a port.
fn served_window(command: &ServeCommand<'_>) -> u32
    requires { HasRanges (serve (serve_shown command.now)) }
    ensures { IsWindow result }
{
    command.session.window << 20
}

// The bytes of a record's window, also of one whose last line is missing.
fn recorded_window(rt: &HostRuntime, recording: &str) -> Option<u32>
    ensures { IfSome result (λ window. IsWindow window) }
{
    let text = match loaded(rt, recording, MAX_RECORD) {
        Some(text) => text,
        None => return None,
    };
    match read_unfinished(rt.alloc(), text.as_slice()) {
        Ok(recorded) => Some(recorded.window << 20),
        Err(_) => None,
    }
}

// The bytes of the window of a command's program, if that is known.
fn window_of(rt: &HostRuntime, command: Command<'_>) -> Option<u32>
    requires { HasRanges (shown command) }
    ensures { IfSome result (λ window. IsWindow window) }
{
    match command {
        Command::Run(run) => Some(window_bytes(&run)),
        Command::Serve(serve) => Some(served_window(&serve)),
        Command::Diagnose(diagnose) => Some(window_bytes(&diagnose.session)),
        Command::Replay(replay) => recorded_window(rt, replay.recording),
        Command::Convert(convert) => recorded_window(rt, convert.recording),
        Command::Standby(standby) => recorded_window(rt, standby.recorded),
        Command::Resume(resume) => recorded_window(rt, resume.recorded),
        _ => None,
    }
}

// Whether a text ends before a line, and not within the one before it.
fn ends_before(text: &[u8], line: u32) -> bool {
    let ended = text.iter().filter(|byte| **byte == b'\n').count() as u64;
    ended + 1 == u64::from(line) && text.last() == Some(&b'\n')
}

// What is seen in the first line of a file that a second host is handed.
fn first_line(alloc: Global, text: &[u8]) -> Option<Seen<'static>> {
    if !text.contains(&b'\n') {
        return Some(Seen::Torn);
    }
    match read_unfinished(alloc, text) {
        Ok(read) if read.version != VERSION => Some(Seen::Old),
        _ => None,
    }
}

// What is seen in a record that is refused at a line.
fn seen_in_record(
    alloc: Global,
    command: Command<'_>,
    text: &[u8],
    line: u32,
) -> Option<Seen<'static>> {
    match command {
        Command::Resume(_) if line == 1 => first_line(alloc, text),
        Command::Resume(_) => None,
        Command::Standby(_) if read_record(alloc, text).is_ok() => Some(Seen::Long),
        _ if ends_before(text, line) => Some(Seen::Cut),
        _ => None,
    }
}

/// What the files of a command tell beyond its answer.
pub fn seen_behind<'a>(
    rt: &HostRuntime,
    answer: Answer,
    command: Command<'a>,
    words: &[Fact<'a>],
    fault: Option<FileFault>,
) -> Option<Seen<'a>>
    requires { HasRanges (shown command) }
{
    let alloc = rt.alloc();
    match answer {
        Answer::FileFault => match fault {
            Some(fault) => written_fault(words, fault),
            None => first_fault(rt, words),
        },
        Answer::TooLarge => first_large(rt, words),
        Answer::ElfRefused(kind) => {
            let file = loaded(rt, file_named(words, "program")?, MAX_PROGRAM)?;
            let window = window_of(rt, command)?;
            let found = field_of_refusal(alloc, file.as_slice(), kind, window).ok()?;
            match found {
                Some(field) => Some(Seen::Field(field)),
                None => None,
            }
        }
        Answer::AsmRefused { kind, line } => {
            let text = loaded(rt, file_named(words, "source")?, MAX_SOURCE)?;
            let explanation = explain(alloc, text.as_slice(), kind, line).ok()?;
            Some(Seen::Explained(explanation))
        }
        Answer::RecordRefused { line } => {
            let text = loaded(rt, file_named(words, "recorded")?, MAX_RECORD)?;
            seen_in_record(alloc, command, text.as_slice(), line)
        }
        Answer::ReportRefused { line: 1 } => {
            let text = loaded(rt, file_named(words, "reported")?, MAX_REPORT)?;
            first_line(alloc, text.as_slice())
        }
        _ => None,
    }
}
