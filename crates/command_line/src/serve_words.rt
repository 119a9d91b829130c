// The command `serve`: its words, and what they come to. Its session is that of `run`, without the option `--hold`.
ghost use Rattle.std.specs.Prelude.{◌≡◌, true, IfOk, IfErr};
ghost use Rattle.clap.specs.Words.{kind_of};
ghost use Rattle.clap.specs.declared.error.kind.ErrorKind.TheVariants.{OutOfMemory};
ghost use Rattle.command_line.specs.Parts.{Parts, parts_of};
ghost use Rattle.command_line.specs.Options.{takes_of};
ghost use Rattle.command_line.specs.Table.{conns_row, port_row};
ghost use Rattle.command_line.specs.Commands.{fits, is_serve, may_stop, positional, serve_form, serve_numbers, serve_shown, serve_value};
ghost use Rattle.command_line.specs.Ranges.{EachInRange};
ghost use Rattle.command_line.specs.Reading.{HasRead};

use crate::accepted::{have_form, name_at};
use crate::matching::{out_of_memory, parser, value_in};
use crate::options::{CommandName, CommandOf, CommandRow, OptionRow, RowOf, TakesOf, takes_value};
use crate::run_words::{
    BUDGET, DURABLE, ENV, EVERY, FORM, FRAME, FRAMES, GUARD, KEEP, PROGRAM, RECORD, RECORD_FULL,
    REPORT, RING, RunCommand, TELL, WINDOW, guard_of, have_names, number_or_zero, session_from,
};
use clap::{ArgMatches, Error};
use std::alloc::{AllocError, Global};

/// The name of the port.
pub const PORT_NAME: &str = "PORT";
/// The name of the number of connections.
pub const CONNS_NAME: &str = "CONNS";

/// The port of the machine itself that clients connect to.
pub const PORT: OptionRow = RowOf {
    name: PORT_NAME,
    takes: TakesOf::Number(1, 65_535),
    default: None,
    says: "The port that clients connect to, on 127.0.0.1.",
};
/// How many connections are served.
pub const CONNS: OptionRow = RowOf {
    name: CONNS_NAME,
    takes: TakesOf::Number(1, 4096),
    default: None,
    says: "How many connections are served.",
};
/// How many seconds a client is waited for. 0: without limit.
pub const PATIENCE: OptionRow = RowOf {
    name: "patience",
    takes: TakesOf::Number(0, 3600),
    default: Some("60"),
    says: "For how many seconds a client is waited for. With 0 it is without limit.",
};

/// How many clients are served at the same time. 1: one after another.
pub const AT_ONCE: OptionRow = RowOf {
    name: "at-once",
    takes: TakesOf::Number(1, 256),
    default: Some("1"),
    says: "How many clients are served at the same time. With 1 it is one after another.",
};

/// Nobody stops it.
pub const NEVER: &str = "never";
/// Standard input does.
pub const INPUT: &str = "input";

/// Who stops it: nobody, or standard input, by a line `stop` or its end.
pub const STOPPED_BY: OptionRow = RowOf {
    name: "stop",
    takes: TakesOf::OneOf(&[NEVER, INPUT]),
    default: Some(NEVER),
    says: "Whether a line stop on standard input, or its end, stops it: then no client is accepted any more.",
};
/// How many seconds clients may stay behind a stop.
pub const DRAIN: OptionRow = RowOf {
    name: "drain",
    takes: TakesOf::Number(0, 3600),
    default: Some("10"),
    says: "For how many seconds clients that are connected may stay behind a stop.",
};

/// The names of `serve` that are numbers.
pub const SERVE_NUMBERS: [OptionRow; 2] = [PORT, CONNS];

/// The options of `serve`.
pub const SERVE_OPTIONS: [OptionRow; 19] = [
    RECORD,
    REPORT,
    FORM,
    FRAME,
    WINDOW,
    RING,
    EVERY,
    FRAMES,
    BUDGET,
    KEEP,
    ENV,
    GUARD,
    PATIENCE,
    AT_ONCE,
    STOPPED_BY,
    DRAIN,
    TELL,
    DURABLE,
    RECORD_FULL,
];

/// Runs a program for the clients of a port.
pub const SERVE: CommandRow = CommandOf {
    which: CommandName::Serve,
    name: "serve",
    positionals: &[PROGRAM, PORT_NAME, CONNS_NAME],
    options: &SERVE_OPTIONS,
    says: "Runs a program for the clients of a port of this machine.",
};

/// A session for the clients of a port: what it is of, the port, how many connections it has, for how many seconds it waits for a
/// client, how many clients it serves at the same time, whether it may be stopped, and for how many seconds clients may stay then.
#[derive(Clone, Copy, Debug)]
pub struct ServeCommand<'a> {
    /// Its `hold` is 0.
    pub session: RunCommand<'a>,
    pub port: u32,
    pub conns: u32,
    /// 0: without limit.
    pub patience: u32,
    /// 1 to 256.
    pub at_once: u32,
    /// By a line `stop` on standard input, or by its end.
    pub stops: bool,
    pub drain: u32,
}

// Whether it may be stopped, by the text of who does that.
fn may_stop(text: &str) -> bool
    ensures { result ≡ may_stop text.now }
{
    text == INPUT
}

// Whether the words have the form of `serve`.
#[tactic(auto, unfolding(crate::specs::Commands::serve_form))]
fn fit_serve(words: &[String]) -> bool
    ensures { result ≡ fits serve_form (parts_of words.now) }
{
    have_form(words, &SERVE)
}

// Whether the second name is a port.
#[tactic(auto, unfolding(crate::specs::Table::port_row))]
fn has_port(words: &[String]) -> bool
    ensures { result ≡ takes_of port_row.takes (positional 1 (parts_of words.now)) }
{
    takes_value(&PORT.takes, name_at(words, 1))
}

// Whether the third name is a number of connections.
#[tactic(auto, unfolding(crate::specs::Table::conns_row))]
fn has_conns(words: &[String]) -> bool
    ensures { result ≡ takes_of conns_row.takes (positional 2 (parts_of words.now)) }
{
    takes_value(&CONNS.takes, name_at(words, 2))
}

// Whether these are the words behind `serve`.
#[tactic(auto, unfolding(crate::specs::Commands::is_serve))]
pub(crate) fn are_serve_words(words: &[String]) -> bool
    ensures { result ≡ is_serve (parts_of words.now) }
{
    if !fit_serve(words) {
        return false;
    }
    if !has_port(words) {
        return false;
    }
    if !has_conns(words) {
        return false;
    }
    have_names(words)
}

// The words behind `serve`, read by clap. What our own check takes has no fault there: only memory may be wanted.
fn read_serve<'a>(alloc: Global, words: &'a [String]) -> Result<ArgMatches<'a>, Error>
    requires { fits serve_form (parts_of words.now) ≡ true }
    ensures read { IfOk result (λ m. HasRead serve_form (parts_of words.now) m) }
    ensures faultless { IfErr result (λ e. kind_of e ≡ OutOfMemory) }
{
    let command = parser(alloc, &SERVE)?;
    command.try_get_matches_from(words)
}

// The names and numbers of `serve`, once clap has read the words.
fn serve_from<'a>(matches: &ArgMatches<'a>) -> ServeCommand<'a>
    ensures { (p : Parts) → HasRead serve_form p matches.now → EachInRange (serve_numbers (serve_value p)) → serve_shown result ≡ serve_value p }
{
    ServeCommand {
        session: session_from(matches, 0, guard_of(value_in(matches, GUARD.name))),
        port: number_or_zero(value_in(matches, PORT_NAME)),
        conns: number_or_zero(value_in(matches, CONNS_NAME)),
        patience: number_or_zero(value_in(matches, PATIENCE.name)),
        at_once: number_or_zero(value_in(matches, AT_ONCE.name)),
        stops: may_stop(value_in(matches, STOPPED_BY.name)),
        drain: number_or_zero(value_in(matches, DRAIN.name)),
    }
}

// The command that the words behind `serve` are.
pub(crate) fn serve_command<'a>(
    alloc: Global,
    words: &'a [String],
) -> Result<ServeCommand<'a>, AllocError>
    requires { is_serve (parts_of words.now) ≡ true }
    ensures { IfOk result (λ serve. serve_shown serve ≡ serve_value (parts_of words.now)) }
{
    match read_serve(alloc, words) {
        Ok(matches) => Ok(serve_from(&matches)),
        Err(error) => Err(out_of_memory(error)),
    }
}
