// What the words ask of the program itself, and what it tells a person of its commands.
ghost use Rattle.std.specs.Prelude.{◌≡◌, ◌∷◌};
ghost use Rattle.command_line.specs.Parts.{texts_of};
ghost use Rattle.command_line.specs.Help.{help_by, help_by_two, help_named, help_of};

use crate::command::{commands, name_of};
use crate::options::{CommandName, CommandRow, OptionRow};
use crate::positionals::positional_named;
use crate::wording::range_of;
use std::alloc::{AllocError, Global};

/// The word that asks how the commands are written, alone or before the name of one.
pub const HELP: &str = "help";
/// The same, alone or behind the name of one.
pub const LONG_HELP: &str = "--help";
/// The same, alone.
pub const SHORT_HELP: &str = "-h";
/// The word that asks which version of the program it is.
pub const VERSION: &str = "--version";

/// What the words ask of the program itself.
#[derive(Clone, Copy, Debug, PartialEq, Eq)]
pub enum Help {
    /// How all commands are written.
    All,
    /// How this command is written.
    Of(CommandName),
    /// Which version of the program it is.
    Version,
}

// What one word asks for.
fn asked_by_one(word: &str) -> Option<Help>
    ensures { result ≡ help_by word.now }
{
    if word == HELP {
        return Some(Help::All);
    }
    if word == LONG_HELP {
        return Some(Help::All);
    }
    if word == SHORT_HELP {
        return Some(Help::All);
    }
    if word == VERSION {
        return Some(Help::Version);
    }
    None
}

// How the command of this name is written, if there is one.
fn asked_of(word: &str) -> Option<Help>
    ensures { result ≡ help_named word.now }
{
    match name_of(word) {
        Some(name) => Some(Help::Of(name)),
        None => None,
    }
}

// What two words ask for.
fn asked_by_two(first: &str, second: &str) -> Option<Help>
    ensures { result ≡ help_by_two first.now second.now }
{
    if first == HELP {
        return asked_of(second);
    }
    if second == LONG_HELP {
        return asked_of(first);
    }
    None
}

// What a word asks for with those behind it.
fn asked_behind(first: &str, rest: &[String]) -> Option<Help>
    ensures { result ≡ help_of (first.now ∷ texts_of rest.now) }
{
    let [second, more @ ..] = rest else {
        return asked_by_one(first);
    };
    if !more.is_empty() {
        return None;
    }
    asked_by_two(first, second.as_str())
}

/// What the words behind the program's own name ask of the program itself: `help`, `--help` and `-h`, each alone, how all commands are
/// written; `help COMMAND` and `COMMAND --help` how that one is; `--version`, alone, which version it is. They are words of no command.
pub fn asked_help(words: &[String]) -> Option<Help>
    ensures { result ≡ help_of (texts_of words.now) }
{
    let [first, rest @ ..] = words else {
        return None;
    };
    asked_behind(first.as_str(), rest)
}

// The text with a line about one name or option: what it takes, its default, and what it is.
fn add_line(
    alloc: Global,
    text: String,
    dashes: &str,
    row: &OptionRow,
) -> Result<String, AllocError> {
    let mut text = text;
    let range = range_of(alloc, &row.takes)?;
    let line = match row.default {
        Some(value) => format!(in alloc;
            "  {dashes}{} {range} ({value}): {}\n",
            row.name, row.says
        )?,
        None => format!(in alloc; "  {dashes}{} {range}: {}\n", row.name, row.says)?,
    };
    text.push_str(line.as_str())?;
    Ok(text)
}

// The text with a line for each of these names.
fn add_names(alloc: Global, text: String, names: &[&str]) -> Result<String, AllocError> {
    let mut text = text;
    for name in names {
        if let Some(row) = positional_named(name) {
            text = add_line(alloc, text, "", &row)?;
        }
    }
    Ok(text)
}

// The text with a line for each of these options.
fn add_rows(alloc: Global, text: String, rows: &[OptionRow]) -> Result<String, AllocError> {
    let mut text = text;
    for row in rows {
        text = add_line(alloc, text, "--", row)?;
    }
    Ok(text)
}

// The text with the options that have to be given.
fn add_required(text: String, rows: &[OptionRow]) -> Result<String, AllocError> {
    let mut text = text;
    for row in rows {
        if row.default.is_none() {
            text.push_str(" --")?;
            text.push_str(row.name)?;
            text.push_str(" NAME")?;
        }
    }
    Ok(text)
}

// The two lines of a command: how it is written, and what it does.
fn summary_of(alloc: Global, command: &CommandRow) -> Result<String, AllocError> {
    let mut text = String::from_str(alloc, command.name)?;
    for name in command.positionals {
        text.push_str(" ")?;
        text.push_str(name)?;
    }
    let mut text = add_required(text, command.options)?;
    if !command.options.is_empty() {
        text.push_str(" [--OPTION VALUE] ..")?;
    }
    text.push_str("\n  ")?;
    text.push_str(command.says)?;
    text.push_str("\n")?;
    Ok(text)
}

// How a command is written, what it does, and its names and options.
fn help_of_one(alloc: Global, command: &CommandRow) -> Result<String, AllocError> {
    let text = summary_of(alloc, command)?;
    let text = add_names(alloc, text, command.positionals)?;
    add_rows(alloc, text, command.options)
}

/// How a command is written: two lines, and then a line for each of its names and options with what it may be, its default and what it
/// is. Of no command: the two lines of each. Each line ends with a line feed.
pub fn help_text(alloc: Global, name: Option<CommandName>) -> Result<String, AllocError> {
    let mut text = String::new(alloc);
    for command in commands() {
        let more = match name {
            None => summary_of(alloc, command)?,
            Some(which) if which == command.which => help_of_one(alloc, command)?,
            Some(_) => String::new(alloc),
        };
        text.push_str(more.as_str())?;
    }
    Ok(text)
}
