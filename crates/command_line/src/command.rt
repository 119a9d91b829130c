// The commands, and the one that the words ask for.
ghost use Rattle.std.specs.Prelude.{◌≡◌, true, Ok, None, IfOk, IfSome, MatchOption, find, is_some, map, option_map};
ghost use Rattle.std.specs.Str.{bytes_eq};
ghost use Rattle.command_line.specs.Parts.{parts_of, texts_of};
ghost use Rattle.command_line.specs.Table.{form_read};
ghost use Rattle.command_line.specs.Commands.{Asks, command_of, is_of, name_of, shown, value_by};
ghost use Rattle.command_line.specs.Ranges.{HasRanges};

use crate::asm_words::{ASM, AsmCommand, are_asm_words, asm_command};
use crate::convert_words::{CONVERT, ConvertCommand, are_convert_words, convert_command};
use crate::diagnose_words::{DIAGNOSE, DiagnoseCommand, are_diagnose_words, diagnose_command};
use crate::drill_words::{DRILL, DrillCommand, are_drill_words, drill_command};
use crate::frame_words::{FRAME_LINES, UNFRAME, are_frame_words, are_unframe_words};
use crate::options::{CommandName, CommandRow};
use crate::replay_words::{REPLAY, ReplayCommand, are_replay_words, replay_command};
use crate::resume_words::{RESUME, ResumeCommand, are_resume_words, resume_command};
use crate::run_words::{RUN, RunCommand, are_run_words, run_command};
use crate::serve_words::{SERVE, ServeCommand, are_serve_words, serve_command};
use crate::standby_words::{STANDBY, StandbyCommand, are_standby_words, standby_command};
use std::alloc::{AllocError, Global};

/// The commands.
pub const COMMANDS: [CommandRow; 11] = [
    RUN,
    ASM,
    REPLAY,
    CONVERT,
    STANDBY,
    RESUME,
    SERVE,
    DIAGNOSE,
    DRILL,
    FRAME_LINES,
    UNFRAME,
];

static ALL: [CommandRow; 11] = COMMANDS;

// The commands, as the sentences about them want them.
pub(crate) fn commands() -> &'static [CommandRow] {
    &ALL
}

/// What the words ask for.
#[derive(Clone, Copy, Debug)]
pub enum Command<'a> {
    Run(RunCommand<'a>),
    Asm(AsmCommand<'a>),
    Replay(ReplayCommand<'a>),
    Convert(ConvertCommand<'a>),
    Standby(StandbyCommand<'a>),
    Resume(ResumeCommand<'a>),
    Serve(ServeCommand<'a>),
    Diagnose(DiagnoseCommand<'a>),
    Drill(DrillCommand),
    /// Lines into frames.
    Frame,
    /// Frames into lines.
    Unframe,
}

/// Which command the words ask for, and the words behind its name.
#[derive(Clone, Copy)]
pub struct Asked<'a> {
    pub name: CommandName,
    pub behind: &'a [String],
}

// Which command the first of these rows with this name is of.
fn name_among(rows: &[CommandRow], word: &str) -> Option<CommandName>
    ensures { result ≡ option_map (λ form. form.which) (find (λ form. bytes_eq form.name word.now) (map form_read rows.now)) }
{
    for row in rows {
        if row.name == word {
            return Some(row.which);
        }
    }
    None
}

/// The command of this name.
pub fn name_of(word: &str) -> Option<CommandName>
    ensures { result ≡ name_of word.now }
{
    name_among(&COMMANDS, word)
}

// Whether these are the words behind the name of a command.
fn are_words_of(name: CommandName, words: &[String]) -> bool
    ensures { result ≡ is_of name (parts_of words.now) }
{
    match name {
        CommandName::Run => are_run_words(words),
        CommandName::Asm => are_asm_words(words),
        CommandName::Replay => are_replay_words(words),
        CommandName::Convert => are_convert_words(words),
        CommandName::Standby => are_standby_words(words),
        CommandName::Resume => are_resume_words(words),
        CommandName::Serve => are_serve_words(words),
        CommandName::Diagnose => are_diagnose_words(words),
        CommandName::Drill => are_drill_words(words),
        CommandName::Frame => are_frame_words(words),
        CommandName::Unframe => are_unframe_words(words),
    }
}

// The command that the words ask for, if they are those of one.
fn find_command<'a>(words: &'a [String]) -> Option<Asked<'a>>
    ensures { MatchOption result (command_of (texts_of words.now) ≡ None) (λ asked. Asks (texts_of words.now) asked) }
{
    let [word, behind @ ..] = words else {
        return None;
    };
    let Some(name) = name_of(word.as_str()) else {
        return None;
    };
    if !are_words_of(name, behind) {
        return None;
    }
    Some(Asked { name, behind })
}

/// Whether the words behind the program's own name are those of a command.
pub fn is_command(words: &[String]) -> bool
    ensures { result ≡ is_some (command_of (texts_of words.now)) }
{
    match find_command(words) {
        None => false,
        Some(_) => true,
    }
}

// The command of this name, by the words behind it.
fn command_by<'a>(
    alloc: Global,
    name: CommandName,
    words: &'a [String],
) -> Result<Command<'a>, AllocError>
    requires { is_of name (parts_of words.now) ≡ true }
    ensures { IfOk result (λ command. shown command ≡ value_by name (parts_of words.now)) }
{
    match name {
        CommandName::Run => Ok(Command::Run(run_command(alloc, words)?)),
        CommandName::Asm => Ok(Command::Asm(asm_command(alloc, words)?)),
        CommandName::Replay => Ok(Command::Replay(replay_command(alloc, words)?)),
        CommandName::Convert => Ok(Command::Convert(convert_command(alloc, words)?)),
        CommandName::Standby => Ok(Command::Standby(standby_command(alloc, words)?)),
        CommandName::Resume => Ok(Command::Resume(resume_command(alloc, words)?)),
        CommandName::Serve => Ok(Command::Serve(serve_command(alloc, words)?)),
        CommandName::Diagnose => Ok(Command::Diagnose(diagnose_command(alloc, words)?)),
        CommandName::Drill => Ok(Command::Drill(drill_command(alloc, words)?)),
        CommandName::Frame => Ok(Command::Frame),
        CommandName::Unframe => Ok(Command::Unframe),
    }
}

/// The command that the words behind the program's own name ask for, and `None` exactly where they ask for none. The words are
/// checked first, so memory is wanted for a command alone.
pub fn read_command<'a>(
    alloc: Global,
    words: &'a [String],
) -> Result<Option<Command<'a>>, AllocError>
    ensures read { IfOk result (λ command. option_map shown command ≡ command_of (texts_of words.now)) }
    ensures ranges { IfOk result (λ command. IfSome command (λ c. HasRanges (shown c))) }
    ensures refused { command_of (texts_of words.now) ≡ None → result ≡ Ok None }
{
    match find_command(words) {
        None => Ok(None),
        Some(asked) => match command_by(alloc, asked.name, asked.behind) {
            Ok(command) => Ok(Some(command)),
            Err(error) => Err(error),
        },
    }
}
