// Compares how a command ended with its row.
use crate::cells::{bytes_of, cell_of, number_of, text_of};
use crate::outsides::{Outside, left_in};
use crate::showing::{calls_shown, given_in, port_calls_shown, replies_in, shown};
use ports::PortEntry;
use rx_io::MemoryFiles;
use rx_serve::End;
use std::alloc::Global;
use std::test::Fail;

// Compares a text with a cell, if it stands there.
fn expect_text(alloc: Global, row: &str, name: &str, seen: &str) -> Result<(), Fail> {
    if let Some(wanted) = cell_of(row, name) {
        let wanted = text_of(alloc, wanted)?;
        if seen != wanted.as_str() {
            return Err(Fail::new(format_args!("{name} is {seen} at {row}")));
        }
    }
    Ok(())
}

// The bytes are those that are wanted.
fn expect_same(row: &str, name: &str, seen: &[u8], wanted: &[u8]) -> Result<(), Fail> {
    if seen == wanted {
        return Ok(());
    }
    Err(Fail::new(format_args!("{name} is {seen:?} at {row}")))
}

// Compares bytes with a cell, if it stands there.
fn expect_bytes(alloc: Global, row: &str, name: &str, seen: &[u8]) -> Result<(), Fail> {
    match cell_of(row, name) {
        Some(wanted) => expect_same(row, name, seen, bytes_of(alloc, wanted)?.as_slice()),
        None => Ok(()),
    }
}

// Compares what stands in the sink with a row: all, or a byte for each call before the one that fails.
fn expect_written(alloc: Global, row: &str, seen: &[u8]) -> Result<(), Fail> {
    expect_bytes(alloc, row, "out", seen)?;
    let Some(whole) = cell_of(row, "wrote") else {
        return Ok(());
    };
    let mut wanted = bytes_of(alloc, whole)?;
    wanted.truncate(number_of(row, "sink", 1)?.saturating_sub(1));
    expect_same(row, "wrote", seen, wanted.as_slice())
}

// Compares the text of a file, `none` where it isn't there.
fn expect_file(alloc: Global, row: &str, name: &str, file: Option<&[u8]>) -> Result<(), Fail> {
    let text = String::from_utf8_lossy(alloc, file.unwrap_or(b"none"))?;
    expect_text(alloc, row, name, text.as_str())
}

// Compares the files with a row.
fn expect_files(alloc: Global, row: &str, files: &MemoryFiles) -> Result<(), Fail> {
    expect_file(alloc, row, "record", files.bytes_of("r"))?;
    expect_file(alloc, row, "report", files.bytes_of("t"))?;
    expect_file(alloc, row, "o", files.bytes_of("o"))?;
    let written = files.bytes_of("o").unwrap_or(&[]);
    expect_bytes(alloc, row, "written", written)
}

// Compares the calls on a port with a row.
fn expect_port(alloc: Global, row: &str, calls: &[PortEntry]) -> Result<(), Fail> {
    let shown = port_calls_shown(alloc, calls)?;
    expect_text(alloc, row, "port", shown.as_str())?;
    let given = given_in(alloc, calls)?;
    let given = String::from_utf8_lossy(alloc, given.as_slice())?;
    expect_text(alloc, row, "given", given.as_str())
}

// Compares them without waits and connections, as those on clients one after another.
fn expect_calls(alloc: Global, row: &str, calls: &[PortEntry]) -> Result<(), Fail> {
    let shown = calls_shown(alloc, calls)?;
    expect_text(alloc, row, "calls", shown.as_str())?;
    let replies = replies_in(alloc, calls)?;
    let replies = String::from_utf8_lossy(alloc, replies.as_slice())?;
    expect_text(alloc, row, "replies", replies.as_str())
}

// Compares an answer, its counts and what differs with a row.
pub(crate) fn expect_end(alloc: Global, row: &str, end: &End) -> Result<(), Fail> {
    let text = shown(alloc, end)?;
    expect_text(alloc, row, "end", text.as_str())?;
    let answer = format!(in alloc; "{:?}", end.answer)?;
    expect_text(alloc, row, "answer", answer.as_str())?;
    let differs = format!(in alloc; "{:?}", end.difference)?;
    expect_text(alloc, row, "differs", differs.as_str())
}

// Compares what a command was run over with a row.
pub(crate) fn expect_outside(alloc: Global, row: &str, seen: &mut Outside) -> Result<(), Fail> {
    let left = left_in(alloc, &mut seen.source)?;
    expect_bytes(alloc, row, "left", left.as_slice())?;
    expect_written(alloc, row, seen.sink.bytes())?;
    expect_files(alloc, row, &seen.files)?;
    expect_calls(alloc, row, seen.port.calls())?;
    expect_port(alloc, row, seen.port.calls())
}
