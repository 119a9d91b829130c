// The command `convert`: its words, and what they come to.
ghost use Rattle.std.specs.Prelude.{◌≡◌, true, IfOk, IfErr};
ghost use Rattle.clap.specs.Words.{kind_of};
ghost use Rattle.clap.specs.declared.error.kind.ErrorKind.TheVariants.{OutOfMemory};
ghost use Rattle.command_line.specs.Parts.{Parts, parts_of};
ghost use Rattle.command_line.specs.Commands.{convert_form, convert_shown, convert_value, fits, is_convert};
ghost use Rattle.command_line.specs.Reading.{HasRead};

use crate::accepted::{have_form, name_at};
use crate::asm_words::OUT;
use crate::matching::{out_of_memory, parser, value_in};
use crate::options::{CommandName, CommandOf, CommandRow, OptionRow};
use crate::replay_words::RECORDED;
use crate::run_words::PROGRAM;
use clap::{ArgMatches, Error};
use std::alloc::{AllocError, Global};

/// The options of `convert`.
pub const CONVERT_OPTIONS: [OptionRow; 0] = [];

/// Converts a record.
pub const CONVERT: CommandRow = CommandOf {
    which: CommandName::Convert,
    name: "convert",
    positionals: &[PROGRAM, RECORDED, OUT],
    options: &CONVERT_OPTIONS,
    says: "Runs a recorded session again, and writes its record in the newest version.",
};

/// A conversion: the names of the program, of its record, and of what is written. The last two aren't alike.
#[derive(Clone, Copy, Debug)]
pub struct ConvertCommand<'a> {
    pub program: &'a str,
    pub recording: &'a str,
    pub out: &'a str,
}

// Whether the words have the form of `convert`.
#[tactic(auto, unfolding(crate::specs::Commands::convert_form))]
fn fit_convert(words: &[String]) -> bool
    ensures { result ≡ fits convert_form (parts_of words.now) }
{
    have_form(words, &CONVERT)
}

// Whether these are the words behind `convert`.
#[tactic(auto, unfolding(crate::specs::Commands::is_convert))]
pub(crate) fn are_convert_words(words: &[String]) -> bool
    ensures { result ≡ is_convert (parts_of words.now) }
{
    if !fit_convert(words) {
        return false;
    }
    name_at(words, 1) != name_at(words, 2)
}

// The words behind `convert`, read by clap. What our own check takes has no fault there: only memory may be wanted.
fn read_convert<'a>(alloc: Global, words: &'a [String]) -> Result<ArgMatches<'a>, Error>
    requires { fits convert_form (parts_of words.now) ≡ true }
    ensures read { IfOk result (λ m. HasRead convert_form (parts_of words.now) m) }
    ensures faultless { IfErr result (λ e. kind_of e ≡ OutOfMemory) }
{
    let command = parser(alloc, &CONVERT)?;
    command.try_get_matches_from(words)
}

// The names of `convert`, once clap has read the words.
fn convert_from<'a>(matches: &ArgMatches<'a>) -> ConvertCommand<'a>
    ensures { (p : Parts) → HasRead convert_form p matches.now → convert_shown result ≡ convert_value p }
{
    ConvertCommand {
        program: value_in(matches, PROGRAM),
        recording: value_in(matches, RECORDED),
        out: value_in(matches, OUT),
    }
}

// The command that the words behind `convert` are.
pub(crate) fn convert_command<'a>(
    alloc: Global,
    words: &'a [String],
) -> Result<ConvertCommand<'a>, AllocError>
    requires { is_convert (parts_of words.now) ≡ true }
    ensures { IfOk result (λ convert. convert_shown convert ≡ convert_value (parts_of words.now)) }
{
    match read_convert(alloc, words) {
        Ok(matches) => Ok(convert_from(&matches)),
        Err(error) => Err(out_of_memory(error)),
    }
}
