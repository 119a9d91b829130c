// The command `diagnose`: its words, and what they come to. Its session is that of `run`, with one name more.
ghost use Rattle.std.specs.Prelude.{◌≡◌, true, IfOk, IfErr};
ghost use Rattle.clap.specs.Words.{kind_of};
ghost use Rattle.clap.specs.declared.error.kind.ErrorKind.TheVariants.{OutOfMemory};
ghost use Rattle.command_line.specs.Parts.{Parts, parts_of};
ghost use Rattle.command_line.specs.Options.{value_of};
ghost use Rattle.command_line.specs.Table.{diagnosis_row};
ghost use Rattle.command_line.specs.Commands.{diagnose_form, diagnose_shown, diagnose_value, fits, has_fourth, is_diagnose, is_fourth};
ghost use Rattle.command_line.specs.Ranges.{AreInRange};
ghost use Rattle.command_line.specs.Reading.{HasRead};

use crate::accepted::{have_form, name_at, value};
use crate::matching::{out_of_memory, parser, value_in};
use crate::options::{CommandName, CommandOf, CommandRow, OptionRow, RowOf, TakesOf};
use crate::run_words::{
    BLOCK, BUDGET, DURABLE, ENV, EVERY, EXTENT, FORM, FRAME, FRAMES, HOLD, KEEP, OFF, PROGRAM,
    RECORD, RECORD_FULL, REPORT, RING, RunCommand, TELL, WINDOW, guard_of, have_names,
    number_or_zero, recording, report, session_from,
};
use clap::{ArgMatches, Error};
use std::alloc::{AllocError, Global};

/// Where the diagnosis goes.
pub const DIAGNOSIS: OptionRow = RowOf {
    name: "diagnosis",
    takes: TakesOf::Name,
    default: None,
    says: "Where the diagnosis of the failures is written.",
};

/// What else is refused of an access, by the blocks of the heap. An access that is refused is the fault itself, so `diagnose` looks at each.
pub const DIAGNOSE_GUARD: OptionRow = RowOf {
    name: "guard",
    takes: TakesOf::OneOf(&[OFF, EXTENT, BLOCK]),
    default: Some(EXTENT),
    says: "Which accesses to the heap are refused, by its blocks.",
};

/// The options of `diagnose`.
pub const DIAGNOSE_OPTIONS: [OptionRow; 17] = [
    RECORD,
    REPORT,
    DIAGNOSIS,
    FORM,
    FRAME,
    WINDOW,
    HOLD,
    RING,
    EVERY,
    FRAMES,
    BUDGET,
    KEEP,
    ENV,
    DIAGNOSE_GUARD,
    TELL,
    DURABLE,
    RECORD_FULL,
];

/// Runs a program, and tries everything at each failure.
pub const DIAGNOSE: CommandRow = CommandOf {
    which: CommandName::Diagnose,
    name: "diagnose",
    positionals: &[PROGRAM],
    options: &DIAGNOSE_OPTIONS,
    says: "Runs a program as run does, and writes a diagnosis of each failure.",
};

/// A session of a program with a diagnosis of each of its failures: what it is of, and the name of the diagnosis, which is none of the
/// session's.
#[derive(Clone, Copy, Debug)]
pub struct DiagnoseCommand<'a> {
    pub session: RunCommand<'a>,
    pub diagnosis: &'a str,
}

// Whether the words have the form of `diagnose`.
#[tactic(auto, unfolding(crate::specs::Commands::diagnose_form))]
fn fit_diagnose(words: &[String]) -> bool
    ensures { result ≡ fits diagnose_form (parts_of words.now) }
{
    have_form(words, &DIAGNOSE)
}

// Where the diagnosis goes.
#[tactic(auto, unfolding(crate::specs::Table::diagnosis_row))]
pub(crate) fn diagnosis<'a>(words: &'a [String]) -> &'a str
    ensures { result.now ≡ value_of diagnosis_row (parts_of words.now).options }
{
    value(words, &DIAGNOSIS)
}

// Whether a text is none of three others.
pub(crate) fn is_fourth(first: &str, second: &str, third: &str, fourth: &str) -> bool
    ensures { result ≡ is_fourth first.now second.now third.now fourth.now }
{
    if first == fourth {
        return false;
    }
    if second == fourth {
        return false;
    }
    third != fourth
}

// Whether the diagnosis has another name than the program, the record and the report.
fn has_fourth(words: &[String]) -> bool
    ensures { result ≡ has_fourth (parts_of words.now) }
{
    is_fourth(
        name_at(words, 0),
        recording(words),
        report(words),
        diagnosis(words),
    )
}

// Whether these are the words behind `diagnose`.
#[tactic(auto, unfolding(crate::specs::Commands::is_diagnose))]
pub(crate) fn are_diagnose_words(words: &[String]) -> bool
    ensures { result ≡ is_diagnose (parts_of words.now) }
{
    if !fit_diagnose(words) {
        return false;
    }
    if !have_names(words) {
        return false;
    }
    has_fourth(words)
}

// The words behind `diagnose`, read by clap. What our own check takes has no fault there: only memory may be wanted.
fn read_diagnose<'a>(alloc: Global, words: &'a [String]) -> Result<ArgMatches<'a>, Error>
    requires { fits diagnose_form (parts_of words.now) ≡ true }
    ensures read { IfOk result (λ m. HasRead diagnose_form (parts_of words.now) m) }
    ensures faultless { IfErr result (λ e. kind_of e ≡ OutOfMemory) }
{
    let command = parser(alloc, &DIAGNOSE)?;
    command.try_get_matches_from(words)
}

// The names and numbers of `diagnose`, once clap has read the words.
fn diagnose_from<'a>(matches: &ArgMatches<'a>) -> DiagnoseCommand<'a>
    ensures { (p : Parts) → HasRead diagnose_form p matches.now → AreInRange (diagnose_value p).session → diagnose_shown result ≡ diagnose_value p }
{
    DiagnoseCommand {
        session: session_from(
            matches,
            number_or_zero(value_in(matches, HOLD.name)),
            guard_of(value_in(matches, DIAGNOSE_GUARD.name)),
        ),
        diagnosis: value_in(matches, DIAGNOSIS.name),
    }
}

// The command that the words behind `diagnose` are.
pub(crate) fn diagnose_command<'a>(
    alloc: Global,
    words: &'a [String],
) -> Result<DiagnoseCommand<'a>, AllocError>
    requires { is_diagnose (parts_of words.now) ≡ true }
    ensures { IfOk result (λ diagnose. diagnose_shown diagnose ≡ diagnose_value (parts_of words.now)) }
{
    match read_diagnose(alloc, words) {
        Ok(matches) => Ok(diagnose_from(&matches)),
        Err(error) => Err(out_of_memory(error)),
    }
}
