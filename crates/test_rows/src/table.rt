// Tables of sessions.
use crate::playing::played;
use crate::rows::{number_of, row_of};
use std::alloc::Global;
use std::test::Fail;

// The text has this word.
fn has_word(text: &str, word: &str) -> bool {
    for one in text.split_whitespace() {
        if one == word {
            return true;
        }
    }
    false
}

// Each word is one of those that were seen.
fn expect_words(line: &str, words: &str, seen: &str) -> Result<(), Fail> {
    for word in words.split_whitespace() {
        if !has_word(seen, word) {
            return Err(Fail::new(format_args!("no {word} in {seen} at {line}")));
        }
    }
    Ok(())
}

// Plays a line, and compares. A star in it stands for so many letters x as its word `star` says.
fn play_line(alloc: Global, line: &str) -> Result<(), Fail> {
    let long = "x".repeat(alloc, number_of(line, "star", 1)?)?;
    let line = line.replace(alloc, "*", long.as_str())?;
    let row = row_of(line.as_str())?;
    let seen = played(alloc, &row)?;
    expect_words(line.as_str(), row.expected, seen.as_str())
}

/// Plays each line of a text, and compares. Blank lines and those that begin with `#` are passed over.
///
/// A line has a program (the name of an example guest, or of one of this crate), the events that are played to it, options that aren't
/// the usual ones, a `>`, and words that have to be among those that tell how the session ended. A dash is an empty line of events or
/// journal, a dot in it is a line feed, and `_` a blank. For example: `echo o0|p0hi. hold=2 > Finished taken=2 o0|p0hi.|e0|g0hi.|`.
pub fn play_rows(alloc: Global, text: &str) -> Result<(), Fail> {
    for line in text.split('\n') {
        let line = line.trim();
        if !line.is_empty() && !line.starts_with('#') {
            play_line(alloc, line)?;
        }
    }
    Ok(())
}
