// The programs of rows, as the file `p` has them.
use crate::cells::{bytes_of, cell_of, put_bytes, text_of};
use crate::running::{Played, outcome_of};
use example_guests::source_of;
use std::alloc::{AllocError, Global};
use std::test::Fail;

// The text of a program, by its name or itself.
fn program_text(alloc: Global, program: &str) -> Result<String, AllocError> {
    match source_of(program) {
        Some(text) => String::from_str(alloc, text),
        None => text_of(alloc, program),
    }
}

/// The executable of a program.
pub fn executable_of(alloc: Global, program: &str) -> Result<Vec<u8>, Fail> {
    let text = program_text(alloc, program)?;
    let outcome = outcome_of(&Played {
        alloc,
        words: "asm p o",
        program: text.as_bytes(),
        row: "",
    })?;
    let bytes = outcome.outside.files.bytes_of("o").ok_or("not assembled")?;
    Ok(bytes.to_vec(alloc)?)
}

// The file `p` of a block.
pub(crate) fn program_in(alloc: Global, line: &str) -> Result<Vec<u8>, Fail> {
    if let Some(bytes) = cell_of(line, "bytes") {
        return bytes_of(alloc, bytes);
    }
    match cell_of(line, "text") {
        Some(text) => Ok(program_text(alloc, text)?.into_bytes()),
        None => executable_of(alloc, line),
    }
}

// The file `p` of a row.
pub(crate) fn edited(alloc: Global, program: &[u8], row: &str) -> Result<Vec<u8>, Fail> {
    let mut program = program.to_vec(alloc)?;
    put_bytes(program.as_mut_slice(), cell_of(row, "edit").unwrap_or(""))?;
    Ok(program)
}
