// The words read by clap, which gives the values and the defaults.
ghost use Rattle.std.specs.Prelude.{◌≡◌, false, fold, map, IfOk, Some, List, ℕ};
ghost use Rattle.clap.specs.Words.{app_of, first_value, found_of, kind_of, new_rule, rule_of, with_rule};
ghost use Rattle.clap.specs.declared.error.kind.ErrorKind.TheVariants.{OutOfMemory};
ghost use Rattle.command_line.specs.Reading.{app_of_form, option_rule};
ghost use Rattle.command_line.specs.Table.{form_read, row_read, rows_read};

use crate::options::{CommandRow, OptionRow};
use clap::{Arg, ArgMatches, Error};
use std::alloc::{AllocError, Global};

// clap's argument of an option.
fn option_arg<'a>(alloc: Global, row: &OptionRow) -> Arg<'a>
    ensures rule { rule_of result ≡ option_rule (row_read row.now) }
    ensures local { result.global ≡ false }
{
    let arg = Arg::new(alloc, row.name).long(row.name);
    match row.default {
        Some(text) => arg.default_value(text),
        None => arg,
    }
}

// clap's command with the positionals too.
fn with_positionals<'a>(
    alloc: Global,
    command: clap::Command<'a>,
    names: &[&'static str],
) -> Result<clap::Command<'a>, AllocError>
    ensures { IfOk result (λ c. app_of c ≡ fold with_rule (app_of command.entry) (map new_rule (map (λ t. t.now) names.now))) }
{
    let mut command = command;
    for name in names {
        command = command.arg(Arg::new(alloc, name))?;
    }
    Ok(command)
}

// clap's command with the options too.
fn with_options<'a>(
    alloc: Global,
    command: clap::Command<'a>,
    rows: &[OptionRow],
) -> Result<clap::Command<'a>, AllocError>
    ensures { IfOk result (λ c. app_of c ≡ fold with_rule (app_of command.entry) (map option_rule (rows_read rows.now))) }
{
    let mut command = command;
    for row in rows {
        command = command.arg(option_arg(alloc, row))?;
    }
    Ok(command)
}

// clap's command of a row of our table.
pub(crate) fn parser<'a>(alloc: Global, form: &CommandRow) -> Result<clap::Command<'a>, AllocError>
    ensures { IfOk result (λ c. app_of c ≡ app_of_form (form_read form.now)) }
{
    let bare = clap::Command::new(alloc, form.name)
        .no_binary_name(true)
        .disable_help_flag(true);
    let named = with_positionals(alloc, bare, form.positionals)?;
    with_options(alloc, named, form.options)
}

/// The value that clap has read under an id.
pub fn value_in<'a>(matches: &ArgMatches<'a>, id: &str) -> &'a str
    ensures { (text : List ℕ) → first_value (found_of matches.now) id.now ≡ Some text → result.now ≡ text }
{
    match matches.get_str(id) {
        Some(text) => text,
        None => "",
    }
}

// The one error that clap has at words that our own check takes.
pub(crate) fn out_of_memory(error: Error) -> AllocError
    requires { kind_of error ≡ OutOfMemory }
{
    let _error = error;
    AllocError
}
