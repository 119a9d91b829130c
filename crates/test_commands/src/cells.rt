// The cells of a row.
use std::alloc::{AllocError, Global};
use std::test::Fail;

// The names that cells may have.
const NAMES: [&str; 38] = [
    "words", "options", "before", "in", "files", "source", "sink", "takes", "gives", "clients",
    "bind", "accept", "take", "give", "moves", "end", "answer", "out", "left", "record", "report",
    "written", "o", "calls", "replies", "ready", "wait", "port", "given", "edit", "cut", "each",
    "wrote", "kept", "spoilt", "differs", "counts", "reported",
];

fn expect_known(name: &str) -> Result<(), Fail> {
    for known in NAMES {
        if name == known {
            return Ok(());
        }
    }
    Err(Fail::new("no such name of a cell"))
}

// Each cell has a name that one may have.
pub(crate) fn expect_cells(row: &str) -> Result<(), Fail> {
    for cell in row.split(';') {
        let (name, _) = cell.split_once('=').ok_or("no value is given")?;
        expect_known(name.trim())?;
    }
    Ok(())
}

// The value of a cell.
pub(crate) fn cell_of<'a>(row: &'a str, name: &str) -> Option<&'a str> {
    for cell in row.split(';') {
        if let Some((key, value)) = cell.split_once('=') {
            if key.trim() == name {
                return Some(value);
            }
        }
    }
    None
}

// The number of a cell, or another one.
pub(crate) fn number_of(row: &str, name: &str, usual: usize) -> Result<usize, Fail> {
    match cell_of(row, name) {
        Some(value) => Ok(value.parse::<usize>()?),
        None => Ok(usual),
    }
}

// The text of a cell.
pub(crate) fn text_of(alloc: Global, value: &str) -> Result<String, AllocError> {
    value.replace(alloc, "/", "\n")
}

// Adds the bytes of pairs of digits.
fn push_pairs(bytes: &mut Vec<u8>, digits: &str) -> Result<(), Fail> {
    for pair in digits.as_bytes().chunks(2) {
        let pair = std::str::from_utf8(pair).ok().ok_or("no pair")?;
        bytes.push(u8::from_str_radix(pair, 16)?)?;
    }
    Ok(())
}

// The bytes of a cell; none where it isn't there.
pub(crate) fn bytes_of(alloc: Global, value: &str) -> Result<Vec<u8>, Fail> {
    let mut bytes = Vec::new(alloc);
    for word in value.split_whitespace() {
        let (digits, times) = word.split_once('*').unwrap_or((word, "1"));
        let digits = digits.repeat(alloc, times.parse::<usize>()?)?;
        push_pairs(&mut bytes, digits.as_str())?;
    }
    Ok(bytes)
}

// Puts a byte in the place of another one.
fn put_byte(bytes: &mut [u8], edit: &str) -> Result<(), Fail> {
    let (at, byte) = edit.split_once(':').ok_or("no place of a byte")?;
    let place = bytes.get_mut(at.parse::<usize>()?).ok_or("no such byte")?;
    *place = u8::from_str_radix(byte, 16)?;
    Ok(())
}

// Puts the bytes of a cell, each behind its place, in the places of others.
pub(crate) fn put_bytes(bytes: &mut [u8], edits: &str) -> Result<(), Fail> {
    for edit in edits.split_whitespace() {
        put_byte(bytes, edit)?;
    }
    Ok(())
}
