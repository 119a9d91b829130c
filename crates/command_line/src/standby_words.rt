// The command `standby`: its words, and what they come to. Its window and its framing are the record's, so it has no options for them.
ghost use Rattle.std.specs.Prelude.{◌≡◌, true, IfOk, IfErr};
ghost use Rattle.clap.specs.Words.{kind_of};
ghost use Rattle.clap.specs.declared.error.kind.ErrorKind.TheVariants.{OutOfMemory};
ghost use Rattle.command_line.specs.Parts.{Parts, parts_of};
ghost use Rattle.command_line.specs.Commands.{fits, have_four, is_standby, standby_form, standby_shown, standby_value};
ghost use Rattle.command_line.specs.Reading.{HasRead};

use crate::accepted::{have_form, name_at};
use crate::diagnose_words::is_fourth;
use crate::matching::{out_of_memory, parser, value_in};
use crate::options::{CommandName, CommandOf, CommandRow, OptionRow};
use crate::replay_words::RECORDED;
use crate::run_words::{BUDGET, PROGRAM, RECORD, differ, long_or_zero, recording};
use clap::{ArgMatches, Error};
use std::alloc::{AllocError, Global};

/// The file of how many bytes of its replies each connection has.
pub const COUNTS: &str = "COUNTS";

/// The options of `standby`.
pub const STANDBY_OPTIONS: [OptionRow; 2] = [RECORD, BUDGET];

/// Takes over from a host that stopped.
pub const STANDBY: CommandRow = CommandOf {
    which: CommandName::Standby,
    name: "standby",
    positionals: &[PROGRAM, RECORDED, COUNTS],
    options: &STANDBY_OPTIONS,
    says: "Runs the recorded session of a host that stopped, sends what is missing, and goes on.",
};

/// A takeover: the names of the program, of the stopped host's record, of the counts, and of the record that is written, no two of
/// them alike, and the budget.
#[derive(Clone, Copy, Debug)]
pub struct StandbyCommand<'a> {
    pub program: &'a str,
    /// The record of the host that stopped.
    pub recorded: &'a str,
    pub counts: &'a str,
    /// The record that is written.
    pub recording: &'a str,
    pub budget: u64,
}

// Whether the words have the form of `standby`.
#[tactic(auto, unfolding(crate::specs::Commands::standby_form))]
fn fit_standby(words: &[String]) -> bool
    ensures { result ≡ fits standby_form (parts_of words.now) }
{
    have_form(words, &STANDBY)
}

// Whether the names of the program, of its record and of the counts differ, and the record that is written has a fourth one.
fn have_four(words: &[String]) -> bool
    ensures { result ≡ have_four (parts_of words.now) }
{
    let program = name_at(words, 0);
    let recorded = name_at(words, 1);
    let counts = name_at(words, 2);
    if !differ(program, recorded, counts) {
        return false;
    }
    is_fourth(program, recorded, counts, recording(words))
}

// Whether these are the words behind `standby`.
#[tactic(auto, unfolding(crate::specs::Commands::is_standby))]
pub(crate) fn are_standby_words(words: &[String]) -> bool
    ensures { result ≡ is_standby (parts_of words.now) }
{
    if !fit_standby(words) {
        return false;
    }
    have_four(words)
}

// The words behind `standby`, read by clap. What our own check takes has no fault there: only memory may be wanted.
fn read_standby<'a>(alloc: Global, words: &'a [String]) -> Result<ArgMatches<'a>, Error>
    requires { fits standby_form (parts_of words.now) ≡ true }
    ensures read { IfOk result (λ m. HasRead standby_form (parts_of words.now) m) }
    ensures faultless { IfErr result (λ e. kind_of e ≡ OutOfMemory) }
{
    let command = parser(alloc, &STANDBY)?;
    command.try_get_matches_from(words)
}

// The names and the number of `standby`, once clap has read the words.
fn standby_from<'a>(matches: &ArgMatches<'a>) -> StandbyCommand<'a>
    ensures { (p : Parts) → HasRead standby_form p matches.now → standby_shown result ≡ standby_value p }
{
    StandbyCommand {
        program: value_in(matches, PROGRAM),
        recorded: value_in(matches, RECORDED),
        counts: value_in(matches, COUNTS),
        recording: value_in(matches, RECORD.name),
        budget: long_or_zero(value_in(matches, BUDGET.name)),
    }
}

// The command that the words behind `standby` are.
pub(crate) fn standby_command<'a>(
    alloc: Global,
    words: &'a [String],
) -> Result<StandbyCommand<'a>, AllocError>
    requires { is_standby (parts_of words.now) ≡ true }
    ensures { IfOk result (λ standby. standby_shown standby ≡ standby_value (parts_of words.now)) }
{
    match read_standby(alloc, words) {
        Ok(matches) => Ok(standby_from(&matches)),
        Err(error) => Err(out_of_memory(error)),
    }
}
