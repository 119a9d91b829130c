// The command `drill`: its words, and what they come to.
ghost use Rattle.std.specs.Prelude.{◌≡◌, true, IfOk, IfErr};
ghost use Rattle.clap.specs.Words.{kind_of};
ghost use Rattle.clap.specs.declared.error.kind.ErrorKind.TheVariants.{OutOfMemory};
ghost use Rattle.command_line.specs.Parts.{Parts, parts_of};
ghost use Rattle.command_line.specs.Options.{takes_of};
ghost use Rattle.command_line.specs.Table.{count_row, seed_row};
ghost use Rattle.command_line.specs.Commands.{drill_form, drill_numbers, drill_shown, drill_value, fits, is_drill, positional};
ghost use Rattle.command_line.specs.Ranges.{EachInRange};
ghost use Rattle.command_line.specs.Reading.{HasRead};

use crate::accepted::{have_form, name_at};
use crate::matching::{out_of_memory, parser, value_in};
use crate::options::{CommandName, CommandOf, CommandRow, OptionRow, RowOf, TakesOf, takes_value};
use crate::run_words::number_or_zero;
use clap::{ArgMatches, Error};
use std::alloc::{AllocError, Global};

/// The name of the seed.
pub const SEED_NAME: &str = "SEED";
/// The name of the number of messages.
pub const COUNT_NAME: &str = "COUNT";

/// Where the generator of messages begins.
pub const SEED: OptionRow = RowOf {
    name: SEED_NAME,
    takes: TakesOf::Number(0, 4_294_967_295),
    default: None,
    says: "Where the generator of the messages begins.",
};
/// How many messages are generated.
pub const COUNT: OptionRow = RowOf {
    name: COUNT_NAME,
    takes: TakesOf::Number(1, 100_000),
    default: None,
    says: "How many messages are generated.",
};

/// The names of `drill`, all of them numbers.
pub const DRILL_NUMBERS: [OptionRow; 2] = [SEED, COUNT];

/// The options of `drill`.
pub const DRILL_OPTIONS: [OptionRow; 0] = [];

/// Runs a generated session.
pub const DRILL: CommandRow = CommandOf {
    which: CommandName::Drill,
    name: "drill",
    positionals: &[SEED_NAME, COUNT_NAME],
    options: &DRILL_OPTIONS,
    says: "Runs a generated session in memory, and writes what came of it.",
};

/// A generated session: where its generator begins, and how many messages it has.
#[derive(Clone, Copy, Debug)]
pub struct DrillCommand {
    pub seed: u32,
    /// 1 to 100,000.
    pub count: u32,
}

// Whether the words have the form of `drill`.
#[tactic(auto, unfolding(crate::specs::Commands::drill_form))]
fn fit_drill(words: &[String]) -> bool
    ensures { result ≡ fits drill_form (parts_of words.now) }
{
    have_form(words, &DRILL)
}

// Whether the first name is a seed.
#[tactic(auto, unfolding(crate::specs::Table::seed_row))]
fn has_seed(words: &[String]) -> bool
    ensures { result ≡ takes_of seed_row.takes (positional 0 (parts_of words.now)) }
{
    takes_value(&SEED.takes, name_at(words, 0))
}

// Whether the second name is a number of messages.
#[tactic(auto, unfolding(crate::specs::Table::count_row))]
fn has_count(words: &[String]) -> bool
    ensures { result ≡ takes_of count_row.takes (positional 1 (parts_of words.now)) }
{
    takes_value(&COUNT.takes, name_at(words, 1))
}

// Whether these are the words behind `drill`.
#[tactic(auto, unfolding(crate::specs::Commands::is_drill))]
pub(crate) fn are_drill_words(words: &[String]) -> bool
    ensures { result ≡ is_drill (parts_of words.now) }
{
    if !fit_drill(words) {
        return false;
    }
    if !has_seed(words) {
        return false;
    }
    has_count(words)
}

// The words behind `drill`, read by clap. What our own check takes has no fault there: only memory may be wanted.
fn read_drill<'a>(alloc: Global, words: &'a [String]) -> Result<ArgMatches<'a>, Error>
    requires { fits drill_form (parts_of words.now) ≡ true }
    ensures read { IfOk result (λ m. HasRead drill_form (parts_of words.now) m) }
    ensures faultless { IfErr result (λ e. kind_of e ≡ OutOfMemory) }
{
    let command = parser(alloc, &DRILL)?;
    command.try_get_matches_from(words)
}

// The numbers of `drill`, once clap has read the words.
fn drill_from(matches: &ArgMatches<'_>) -> DrillCommand
    ensures { (p : Parts) → HasRead drill_form p matches.now → EachInRange (drill_numbers (drill_value p)) → drill_shown result ≡ drill_value p }
{
    DrillCommand {
        seed: number_or_zero(value_in(matches, SEED_NAME)),
        count: number_or_zero(value_in(matches, COUNT_NAME)),
    }
}

// The command that the words behind `drill` are.
pub(crate) fn drill_command(alloc: Global, words: &[String]) -> Result<DrillCommand, AllocError>
    requires { is_drill (parts_of words.now) ≡ true }
    ensures { IfOk result (λ drill. drill_shown drill ≡ drill_value (parts_of words.now)) }
{
    match read_drill(alloc, words) {
        Ok(matches) => Ok(drill_from(&matches)),
        Err(error) => Err(out_of_memory(error)),
    }
}
