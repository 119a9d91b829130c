// The files that a command is to write, looked at before it begins: what would be lost by that.
use crate::facts::{Fact, Value};
use std::fs::File;
use std::io::Read;
use std::os::unix::fs::{FileTypeExt, MetadataExt};
use std::{fmt, fs};

// How many bytes at a file's front tell of what kind it is.
const FRONT: usize = 13;

/// What a command writes into a file.
#[derive(Clone, Copy)]
pub enum Kind {
    Record,
    Report,
    Diagnosis,
    Executable,
}

impl Kind {
    /// In words.
    pub fn name(self) -> &'static str {
        match self {
            Kind::Record => "a record",
            Kind::Report => "a report",
            Kind::Diagnosis => "a diagnosis",
            Kind::Executable => "an executable",
        }
    }

    // Whether a file of this kind may begin so. One that was broken off may be short.
    fn may_begin(self, front: &[u8]) -> bool {
        match self {
            Kind::Record => agree(front, b"rx record "),
            Kind::Report => agree(front, b"rx report ") || agree(front, b"{\"report\":"),
            Kind::Diagnosis => agree(front, b"rx diagnosis "),
            Kind::Executable => agree(front, b"\x7fELF"),
        }
    }
}

// Whether two texts are the same as far as both go.
fn agree(front: &[u8], head: &[u8]) -> bool {
    let count = front.len().min(head.len());
    front.split_at(count).0 == head.split_at(count).0
}

/// What speaks against writing the files of a command.
#[derive(Clone, Copy)]
pub enum Objection<'a> {
    /// Two names are of one file.
    OneFile(&'a str, &'a str),
    /// The file is there, has bytes, and is something else.
    Lost(&'a str, Kind),
    /// It is a pipe. A file is opened anew for each addition, and a pipe's reader takes the first close for the end.
    Pipe(&'a str, Kind),
}

impl fmt::Display for Objection<'_> {
    fn fmt<W: fmt::Write>(&self, f: &mut fmt::Formatter<W>) -> fmt::Result {
        match self {
            Objection::OneFile(first, second) => write!(
                f,
                "{first} and {second} are one file: a file that is written needs a name of its own"
            ),
            Objection::Lost(file, kind) => write!(
                f,
                "{file} is there, and isn't {}: it would be lost, so nothing was done",
                kind.name()
            ),
            Objection::Pipe(file, kind) => write!(
                f,
                "{file} is a pipe, and {} is a file that is opened anew for each addition: nothing was done",
                kind.name()
            ),
        }
    }
}

// Whether two names are the same path, but for what changes no path: a dot and more than one slash.
fn is_same_path(first: &str, second: &str) -> bool {
    let of_first = first
        .split('/')
        .filter(|part| !part.is_empty() && *part != ".");
    let of_second = second
        .split('/')
        .filter(|part| !part.is_empty() && *part != ".");
    first.starts_with('/') == second.starts_with('/') && of_first.eq(of_second)
}

// Whether two names are of one file: by the names, or where both are there, also by links.
fn is_one_file(rt: &HostRuntime, first: &str, second: &str) -> bool {
    if is_same_path(first, second) {
        return true;
    }
    let (Ok(one), Ok(other)) = (fs::metadata(rt, first), fs::metadata(rt, second)) else {
        return false;
    };
    one.is_file() && one.dev() == other.dev() && one.ino() == other.ino()
}

// Whether a file begins otherwise than those of its kind. Of one that can't be looked at nothing is said.
fn begins_otherwise(rt: &HostRuntime, file: &str, kind: Kind) -> bool {
    let Ok(mut file) = File::open(rt, file) else {
        return false;
    };
    let mut front = [0u8; FRONT];
    match file.read(&mut front) {
        Ok(count) => !kind.may_begin(front.split_at(count).0),
        Err(_) => false,
    }
}

// What speaks against writing a file, beside those that the command reads or writes too.
fn objection_to<'a>(
    rt: &HostRuntime,
    file: &'a str,
    kind: Kind,
    others: &[Fact<'a>],
) -> Option<Objection<'a>> {
    'others: for other in others {
        if let Some(other) = other.file() {
            if is_one_file(rt, other, file) {
                return Some(Objection::OneFile(other, file));
            }
        }
    }
    match fs::metadata(rt, file) {
        Ok(found) if found.file_type().is_fifo() => Some(Objection::Pipe(file, kind)),
        Ok(found) if found.is_file() && begins_otherwise(rt, file, kind) => {
            Some(Objection::Lost(file, kind))
        }
        _ => None,
    }
}

/// What speaks first against writing the files of a command, by its words. A file is set beside those that stand before it.
pub fn find_objection<'a>(rt: &HostRuntime, words: &[Fact<'a>]) -> Option<Objection<'a>> {
    'words: for index in 0..words.len() {
        let (before, rest) = words.split_at(index);
        if let [word, ..] = rest {
            if let Value::Written(file, kind) = word.value {
                if let Some(objection) = objection_to(rt, file, kind, before) {
                    return Some(objection);
                }
            }
        }
    }
    None
}
