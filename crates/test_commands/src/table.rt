// Tables of commands.
use crate::cells::{cell_of, expect_cells};
use crate::expecting::{expect_end, expect_outside};
use crate::programs::{edited, program_in};
use crate::running::{Played, RUN, outcome_of};
use std::alloc::{AllocError, Global};
use std::test::Fail;

// The words of a row's command.
fn words_in(alloc: Global, row: &str) -> Result<String, AllocError> {
    if let Some(words) = cell_of(row, "words") {
        return String::from_str(alloc, words);
    }
    match cell_of(row, "options") {
        Some(options) => format!(in alloc; "{RUN} {options}"),
        None => String::from_str(alloc, RUN),
    }
}

// Plays a row, and compares.
fn play_row(alloc: Global, program: &[u8], row: &str) -> Result<(), Fail> {
    expect_cells(row)?;
    let words = words_in(alloc, row)?;
    let program = edited(alloc, program, row)?;
    let mut outcome = outcome_of(&Played {
        alloc,
        words: words.as_str(),
        program: program.as_slice(),
        row,
    })?;
    expect_end(alloc, row, &outcome.end)?;
    expect_outside(alloc, row, &mut outcome.outside)
}

// Plays a row for each of its numbers.
fn play_each(alloc: Global, program: &[u8], row: &str) -> Result<(), Fail> {
    let Some(numbers) = cell_of(row, "each") else {
        return play_row(alloc, program, row);
    };
    let (first, last) = numbers.split_once("..").ok_or("no last number")?;
    for number in first.parse::<u64>()?..=last.parse::<u64>()? {
        let digits = format!(in alloc; "{number}")?;
        let one = row.replace(alloc, "@", digits.as_str())?;
        play_row(alloc, program, one.as_str())?;
    }
    Ok(())
}

// A row with the cells of all rows of its block behind its own, of which each counts where it has none of that name.
fn with_cells(alloc: Global, row: &str, all: &str) -> Result<String, AllocError> {
    if all.is_empty() {
        return String::from_str(alloc, row);
    }
    format!(in alloc; "{row}; {all}")
}

// Plays the rows of a block, behind a line of the cells of all of them, if there is one.
fn play_block(alloc: Global, block: &str) -> Result<(), Fail> {
    let (first, rows) = block.trim().split_once('\n').ok_or("no rows")?;
    let program = program_in(alloc, first)?;
    let (all, rows) = match rows.trim_start().strip_prefix("all: ") {
        Some(behind) => behind.split_once('\n').ok_or("no rows")?,
        None => ("", rows),
    };
    for row in rows.lines() {
        let row = row.trim();
        if !row.starts_with('#') {
            let row = with_cells(alloc, row, all)?;
            play_each(alloc, program.as_slice(), row.as_str())?;
        }
    }
    Ok(())
}

/// Plays blocks of rows, which blank lines part.
pub fn play_rows(alloc: Global, blocks: &str) -> Result<(), Fail> {
    for block in blocks.split("\n\n") {
        play_block(alloc, block)?;
    }
    Ok(())
}
