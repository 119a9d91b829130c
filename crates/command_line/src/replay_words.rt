// The command `replay`: its words, and what they come to.
ghost use Rattle.std.specs.Prelude.{◌≡◌, true, IfOk, IfErr};
ghost use Rattle.clap.specs.Words.{kind_of};
ghost use Rattle.clap.specs.declared.error.kind.ErrorKind.TheVariants.{OutOfMemory};
ghost use Rattle.command_line.specs.Parts.{Parts, parts_of};
ghost use Rattle.command_line.specs.Commands.{fits, is_replay, replay_form, replay_shown, replay_value};
ghost use Rattle.command_line.specs.Reading.{HasRead};

use crate::accepted::have_form;
use crate::matching::{out_of_memory, parser, value_in};
use crate::options::{CommandName, CommandOf, CommandRow, OptionRow};
use crate::run_words::PROGRAM;
use clap::{ArgMatches, Error};
use std::alloc::{AllocError, Global};

/// The file of a record.
pub const RECORDED: &str = "RECORD";

/// The options of `replay`.
pub const REPLAY_OPTIONS: [OptionRow; 0] = [];

/// Replays a record.
pub const REPLAY: CommandRow = CommandOf {
    which: CommandName::Replay,
    name: "replay",
    positionals: &[PROGRAM, RECORDED],
    options: &REPLAY_OPTIONS,
    says: "Runs a recorded session again on the frames of its input, and writes what the program sends.",
};

/// A replay: the names of the program and of its record.
#[derive(Clone, Copy, Debug)]
pub struct ReplayCommand<'a> {
    pub program: &'a str,
    pub recording: &'a str,
}

// Whether the words have the form of `replay`.
#[tactic(auto, unfolding(crate::specs::Commands::replay_form))]
fn fit_replay(words: &[String]) -> bool
    ensures { result ≡ fits replay_form (parts_of words.now) }
{
    have_form(words, &REPLAY)
}

// Whether these are the words behind `replay`.
#[tactic(auto, unfolding(crate::specs::Commands::is_replay))]
pub(crate) fn are_replay_words(words: &[String]) -> bool
    ensures { result ≡ is_replay (parts_of words.now) }
{
    fit_replay(words)
}

// The words behind `replay`, read by clap. What our own check takes has no fault there: only memory may be wanted.
fn read_replay<'a>(alloc: Global, words: &'a [String]) -> Result<ArgMatches<'a>, Error>
    requires { fits replay_form (parts_of words.now) ≡ true }
    ensures read { IfOk result (λ m. HasRead replay_form (parts_of words.now) m) }
    ensures faultless { IfErr result (λ e. kind_of e ≡ OutOfMemory) }
{
    let command = parser(alloc, &REPLAY)?;
    command.try_get_matches_from(words)
}

// The names of `replay`, once clap has read the words.
fn replay_from<'a>(matches: &ArgMatches<'a>) -> ReplayCommand<'a>
    ensures { (p : Parts) → HasRead replay_form p matches.now → replay_shown result ≡ replay_value p }
{
    ReplayCommand {
        program: value_in(matches, PROGRAM),
        recording: value_in(matches, RECORDED),
    }
}

// The command that the words behind `replay` are.
pub(crate) fn replay_command<'a>(
    alloc: Global,
    words: &'a [String],
) -> Result<ReplayCommand<'a>, AllocError>
    requires { is_replay (parts_of words.now) ≡ true }
    ensures { IfOk result (λ replay. replay_shown replay ≡ replay_value (parts_of words.now)) }
{
    match read_replay(alloc, words) {
        Ok(matches) => Ok(replay_from(&matches)),
        Err(error) => Err(out_of_memory(error)),
    }
}
