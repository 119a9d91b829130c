// The words behind a command, taken apart: positionals, and options with their values.
ghost use Rattle.std.specs.Prelude.{◌≡◌, ◌||◌, [], is_some, slice_get, option_map, MatchOption};
ghost use Rattle.command_line.specs.Options.{are_options, given, has_option, has_required, is_taken};
ghost use Rattle.command_line.specs.Table.{row_read, rows_read};
ghost use Rattle.command_line.specs.Parts.{StartsWith, are_positionals, parts_of};

use crate::options::{OptionRow, is_named, takes_option};
use crate::texts::{begins_with_dash, is_name};

/// A part of the words: a positional, or an option's name and its value. A value that is missing is empty.
#[derive(Clone, Copy)]
pub enum Part<'a> {
    Positional(&'a str),
    Option(&'a str, &'a str),
}

/// A part of the words, and the words behind it.
#[derive(Clone, Copy)]
pub struct Next<'a> {
    pub part: Part<'a>,
    pub behind: &'a [String],
}

/// The first part of the words, if there is one.
pub fn next_part<'a>(words: &'a [String]) -> Option<Next<'a>>
    ensures { MatchOption result (words.now ≡ []) (λ next. StartsWith words.now next.part next.behind.now) }
{
    match words {
        [] => None,
        [word, rest @ ..] => {
            if !begins_with_dash(word.as_str()) {
                let part = Part::Positional(word.as_str());
                return Some(Next { part, behind: rest });
            }
            match rest {
                [] => {
                    let part = Part::Option(word.as_str(), "");
                    Some(Next { part, behind: rest })
                }
                [value, behind @ ..] => {
                    let part = Part::Option(word.as_str(), value.as_str());
                    Some(Next { part, behind })
                }
            }
        }
    }
}

/// Whether so many positionals stand there, each of them a name.
pub fn are_names(words: &[String], count: usize) -> bool
    ensures { result ≡ are_positionals count (parts_of words.now).positionals }
{
    let mut rest = words;
    let mut left = count;
    'parts: while let Some(next) = next_part(rest) {
        match next.part {
            Part::Option(_, _) => {
                rest = next.behind;
                continue 'parts;
            }
            Part::Positional(word) => {
                if left == 0 {
                    return false;
                }
                if !is_name(word) {
                    return false;
                }
                left -= 1;
                rest = next.behind;
                continue 'parts;
            }
        }
    }
    left == 0
}

/// The positional behind so many others.
pub fn positional<'a>(words: &'a [String], index: usize) -> Option<&'a str>
    ensures { option_map (λ t. t.now) result ≡ slice_get (parts_of words.now).positionals index }
{
    let mut rest = words;
    let mut left = index;
    'parts: while let Some(next) = next_part(rest) {
        match next.part {
            Part::Option(_, _) => {
                rest = next.behind;
                continue 'parts;
            }
            Part::Positional(word) => {
                if left == 0 {
                    return Some(word);
                }
                left -= 1;
                rest = next.behind;
                continue 'parts;
            }
        }
    }
    None
}

/// Whether an option stands there under this very word.
pub fn is_there(words: &[String], name: &str) -> bool
    ensures { result ≡ has_option name.now (parts_of words.now).options }
{
    let mut rest = words;
    'parts: while let Some(next) = next_part(rest) {
        match next.part {
            Part::Positional(_) => {
                rest = next.behind;
                continue 'parts;
            }
            Part::Option(word, _) => {
                if word == name {
                    return true;
                }
                rest = next.behind;
                continue 'parts;
            }
        }
    }
    false
}

/// The value that an option is given.
pub fn given<'a>(words: &'a [String], row: &OptionRow) -> Option<&'a str>
    ensures { option_map (λ t. t.now) result ≡ given (row_read row.now) (parts_of words.now).options }
{
    let mut rest = words;
    'parts: while let Some(next) = next_part(rest) {
        match next.part {
            Part::Positional(_) => {
                rest = next.behind;
                continue 'parts;
            }
            Part::Option(word, value) => {
                if is_named(word, row) {
                    return Some(value);
                }
                rest = next.behind;
                continue 'parts;
            }
        }
    }
    None
}

// Whether a row has this name and takes this value.
fn is_taken(rows: &[OptionRow], word: &str, value: &str) -> bool
    ensures { result ≡ is_taken (rows_read rows.now) word.now value.now }
{
    for row in rows {
        if takes_option(row, word, value) {
            return true;
        }
    }
    false
}

/// Whether each option is one of these rows, has a value that its row takes, and comes once.
pub fn are_taken(words: &[String], rows: &[OptionRow]) -> bool
    ensures { result ≡ are_options (rows_read rows.now) (parts_of words.now).options }
{
    let mut rest = words;
    'parts: while let Some(next) = next_part(rest) {
        match next.part {
            Part::Positional(_) => {
                rest = next.behind;
                continue 'parts;
            }
            Part::Option(word, value) => {
                if !is_name(value) {
                    return false;
                }
                if !is_taken(rows, word, value) {
                    return false;
                }
                if is_there(next.behind, word) {
                    return false;
                }
                rest = next.behind;
                continue 'parts;
            }
        }
    }
    true
}

// Whether a row has a default, or is given a value.
fn has_value(words: &[String], row: &OptionRow) -> bool
    ensures { result ≡ (is_some (row_read row.now).default || is_some (given (row_read row.now) (parts_of words.now).options)) }
{
    row.default.is_some() || given(words, row).is_some()
}

/// Whether each row without a default is given a value.
pub fn are_complete(words: &[String], rows: &[OptionRow]) -> bool
    ensures { result ≡ has_required (rows_read rows.now) (parts_of words.now).options }
{
    for row in rows {
        if !has_value(words, row) {
            return false;
        }
    }
    true
}
