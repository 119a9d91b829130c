// The command `run`: its options, and what its words come to; and what `serve` shares with it. One more option of both is a row, its place
// among the others of each, a field of `RunCommand` and a line of `session_from`.
ghost use Rattle.std.specs.Prelude.{◌≡◌, ◌<◌, ◌^◌, true, IfOk, IfErr, unwrap_or};
ghost use Rattle.clap.specs.Words.{kind_of};
ghost use Rattle.clap.specs.declared.error.kind.ErrorKind.TheVariants.{OutOfMemory};
ghost use Rattle.command_line.specs.Texts.{number_of};
ghost use Rattle.command_line.specs.Options.{value_of};
ghost use Rattle.command_line.specs.Parts.{Parts, parts_of};
ghost use Rattle.command_line.specs.Table.{record_row, report_row};
ghost use Rattle.command_line.specs.Commands.{differ, env_of, fits, form_of, frame_of, guard_of, have_names, is_run, run_form, run_shown, run_value, session_value};
ghost use Rattle.command_line.specs.Ranges.{AreInRange};
ghost use Rattle.command_line.specs.Reading.{HasRead, HasReadSession};

use crate::accepted::{have_form, name_at, value};
use crate::matching::{out_of_memory, parser, value_in};
use crate::options::{CommandName, CommandOf, CommandRow, OptionRow, RowOf, TakesOf};
use crate::texts::number;
use alloc_env::Env;
use clap::{ArgMatches, Error};
use msg_frame::Framing;
use std::alloc::{AllocError, Global};

/// The program's file.
pub const PROGRAM: &str = "PROGRAM";

/// The report as text.
pub const TEXT: &str = "text";
/// The report as JSON.
pub const JSON: &str = "json";
/// The name of no record: nothing is written.
pub const NO_RECORD: &str = "none";
/// The session ends.
pub const END: &str = "end";
/// The record stops, and the session goes on.
pub const STOP: &str = "stop";
/// A message is a line.
pub const LINE: &str = "line";
/// A message comes behind its length.
pub const LENGTH: &str = "length";
/// A message is a whole piece.
pub const WHOLE: &str = "whole";
/// No access is guarded, or nothing is told.
pub const OFF: &str = "off";
/// Recoveries are told.
pub const ON: &str = "on";
/// Recoveries are told where somebody reads them.
pub const AUTO: &str = "auto";
/// An access of the heap lies in the extent of one standing block.
pub const EXTENT: &str = "extent";
/// An access of the heap lies in the reserved bytes of one live block.
pub const BLOCK: &str = "block";
/// Blocks are placed as outside of a trial.
pub const PLAIN: &str = "plain";
/// Blocks are padded.
pub const PAD: &str = "pad";
/// Blocks are filled with zeros.
pub const ZERO: &str = "zero";
/// Blocks are placed behind the middle of the heap.
pub const ISOLATE: &str = "isolate";
/// Freed blocks are kept from use.
pub const DELAY: &str = "delay";
/// All of these at once.
pub const ALL: &str = "all";

/// Where the record goes.
pub const RECORD: OptionRow = RowOf {
    name: "record",
    takes: TakesOf::Name,
    default: None,
    says: "Where the record of the session is written. With none it isn't.",
};
/// Where the report goes.
pub const REPORT: OptionRow = RowOf {
    name: "report",
    takes: TakesOf::Name,
    default: None,
    says: "Where the report of the failures is written.",
};
/// The form of the report.
pub const FORM: OptionRow = RowOf {
    name: "form",
    takes: TakesOf::OneOf(&[TEXT, JSON]),
    default: Some(TEXT),
    says: "The form of the report.",
};
/// How the stream of a connection is cut into messages.
pub const FRAME: OptionRow = RowOf {
    name: "frame",
    takes: TakesOf::OneOf(&[LINE, LENGTH, WHOLE]),
    default: Some(LINE),
    says: "How the bytes of a connection are cut into messages.",
};
/// The window of memory, in MiB.
pub const WINDOW: OptionRow = RowOf {
    name: "window",
    takes: TakesOf::Number(1, 64),
    default: Some("4"),
    says: "The memory of the program, in MiB.",
};
/// How many items more are taken before a reply is passed.
pub const HOLD: OptionRow = RowOf {
    name: "hold",
    takes: TakesOf::Number(0, 1000),
    default: Some("0"),
    says: "How many more items are taken before a reply is passed.",
};
/// How many checkpoints stand at most.
pub const RING: OptionRow = RowOf {
    name: "ring",
    takes: TakesOf::Number(1, 16),
    default: Some("8"),
    says: "How many checkpoints of the program are kept at most.",
};
/// How many items lie between two checkpoints at least.
pub const EVERY: OptionRow = RowOf {
    name: "every",
    takes: TakesOf::Number(1, 64),
    default: Some("1"),
    says: "How many items are taken from one checkpoint to the next at least.",
};
/// How many frames the pages of the program have, as a multiple of the pages of its window.
pub const FRAMES: OptionRow = RowOf {
    name: "frames",
    takes: TakesOf::Number(2, 16),
    default: Some("4"),
    says: "How often the memory of the program is taken, for it and its checkpoints.",
};
/// How many instructions may come between two items.
pub const BUDGET: OptionRow = RowOf {
    name: "budget",
    takes: TakesOf::Number(1, 68_719_476_736),
    default: Some("1000000"),
    says: "How many instructions may come from one item to the next. 1000000 take 4 ms, 250000000 a second.",
};
/// For how many items behind a failure an environment that survived stays in force.
pub const KEEP: OptionRow = RowOf {
    name: "keep",
    takes: TakesOf::Number(1, 4_294_967_295),
    default: Some("4"),
    says: "For how many items more an environment that survived stays in force.",
};
/// The environment in which the allocator answers from the start, and where no trial's is in force.
pub const ENV: OptionRow = RowOf {
    name: "env",
    takes: TakesOf::OneOf(&[PLAIN, PAD, ZERO, ISOLATE, DELAY, ALL]),
    default: Some(PLAIN),
    says: "The environment of malloc and free from the start, and where no trial's is in force.",
};
/// What else is refused of an access, by the blocks of the heap.
pub const GUARD: OptionRow = RowOf {
    name: "guard",
    takes: TakesOf::OneOf(&[OFF, EXTENT, BLOCK]),
    default: Some(OFF),
    says: "Which accesses to the heap are refused, by its blocks.",
};

/// Whether a person is told of each recovery. It is no part of what a session is asked for.
pub const TELL: OptionRow = RowOf {
    name: "tell",
    takes: TakesOf::OneOf(&[AUTO, ON, OFF]),
    default: Some(AUTO),
    says: "Whether each recovery is told on standard error as it happens.",
};

/// Whether the report is written through to the disk at each episode. It is no part of what a session is asked for.
pub const DURABLE: OptionRow = RowOf {
    name: "durable",
    takes: TakesOf::OneOf(&[ON, OFF]),
    default: Some(OFF),
    says: "Whether an episode is on the disk before replies that come of it are written.",
};

/// What becomes of a session whose record can't be written any more. It is no part of what a session is asked for.
pub const RECORD_FULL: OptionRow = RowOf {
    name: "record-full",
    takes: TakesOf::OneOf(&[END, STOP]),
    default: Some(END),
    says: "Whether the session ends where its record can't be written any more, or only the record stops.",
};

/// The options of `run`.
pub const RUN_OPTIONS: [OptionRow; 16] = [
    RECORD,
    REPORT,
    FORM,
    FRAME,
    WINDOW,
    HOLD,
    RING,
    EVERY,
    FRAMES,
    BUDGET,
    KEEP,
    ENV,
    GUARD,
    TELL,
    DURABLE,
    RECORD_FULL,
];

/// Runs a program.
pub const RUN: CommandRow = CommandOf {
    which: CommandName::Run,
    name: "run",
    positionals: &[PROGRAM],
    options: &RUN_OPTIONS,
    says: "Runs a program on the frames of standard input, and recovers it where it fails.",
};

/// The form of a report.
#[derive(Clone, Copy, Debug, PartialEq, Eq)]
pub enum Form {
    Text,
    Json,
}

/// How the heap of a session is guarded.
#[derive(Clone, Copy, Debug, PartialEq, Eq)]
pub enum Guard {
    /// Not at all.
    Off,
    /// An access with a byte of the heap lies in the extent of one standing block.
    Extent,
    /// An access with a byte of the heap lies in the reserved bytes of one live block.
    Block,
}

/// A session of a program: the names of the program, of the record and of the report, no two of them alike, and the settings. That of
/// `serve` holds nothing.
#[derive(Clone, Copy, Debug)]
pub struct RunCommand<'a> {
    pub program: &'a str,
    pub recording: &'a str,
    pub report: &'a str,
    pub form: Form,
    pub frame: Framing,
    /// In MiB.
    pub window: u32,
    pub hold: u32,
    pub ring: u32,
    pub every: u32,
    pub frames: u32,
    pub budget: u64,
    pub keep: u32,
    pub env: Env,
    pub guard: Guard,
}

// The form of a report by its text.
pub(crate) fn form_of(text: &str) -> Form
    ensures { result ≡ form_of text.now }
{
    if text == JSON { Form::Json } else { Form::Text }
}

// The framing by its text.
fn frame_of(text: &str) -> Framing
    ensures { result ≡ frame_of text.now }
{
    if text == LENGTH {
        return Framing::Length;
    }
    if text == WHOLE {
        return Framing::Whole;
    }
    Framing::Line
}

// The environment by its text.
pub(crate) fn env_of(text: &str) -> Env
    ensures { result ≡ env_of text.now }
{
    if text == PAD {
        return Env::Pad;
    }
    if text == ZERO {
        return Env::Zero;
    }
    if text == ISOLATE {
        return Env::Isolate;
    }
    if text == DELAY {
        return Env::Delay;
    }
    if text == ALL {
        return Env::All;
    }
    Env::Plain
}

// How the heap is guarded, by its text.
pub(crate) fn guard_of(text: &str) -> Guard
    ensures { result ≡ guard_of text.now }
{
    if text == EXTENT {
        return Guard::Extent;
    }
    if text == BLOCK {
        return Guard::Block;
    }
    Guard::Off
}

// The number that a text writes, or 0.
pub(crate) fn long_or_zero(text: &str) -> u64
    ensures { result ≡ unwrap_or (number_of text.now) 0 }
{
    match number(text) {
        Some(n) => n,
        None => 0,
    }
}

// The number below 2^32 that a text writes, or 0.
pub(crate) fn number_or_zero(text: &str) -> u32
    ensures { unwrap_or (number_of text.now) 0 < 2 ^ 32 → result ≡ unwrap_or (number_of text.now) 0 }
{
    let n = long_or_zero(text);
    if n < 1 << 32 { n as u32 } else { 0 }
}

// Whether the words have the form of `run`.
#[tactic(auto, unfolding(crate::specs::Commands::run_form))]
fn fit_run(words: &[String]) -> bool
    ensures { result ≡ fits run_form (parts_of words.now) }
{
    have_form(words, &RUN)
}

// Where the record goes.
#[tactic(auto, unfolding(crate::specs::Table::record_row))]
pub(crate) fn recording<'a>(words: &'a [String]) -> &'a str
    ensures { result.now ≡ value_of record_row (parts_of words.now).options }
{
    value(words, &RECORD)
}

// Where the report goes.
#[tactic(auto, unfolding(crate::specs::Table::report_row))]
pub(crate) fn report<'a>(words: &'a [String]) -> &'a str
    ensures { result.now ≡ value_of report_row (parts_of words.now).options }
{
    value(words, &REPORT)
}

// Whether no two of three texts are alike.
pub(crate) fn differ(first: &str, second: &str, third: &str) -> bool
    ensures { result ≡ differ first.now second.now third.now }
{
    if first == second {
        return false;
    }
    if first == third {
        return false;
    }
    second != third
}

// Whether the program, the record and the report have three names.
pub(crate) fn have_names(words: &[String]) -> bool
    ensures { result ≡ have_names (parts_of words.now) }
{
    differ(name_at(words, 0), recording(words), report(words))
}

// Whether these are the words behind `run`.
#[tactic(auto, unfolding(crate::specs::Commands::is_run))]
pub(crate) fn are_run_words(words: &[String]) -> bool
    ensures { result ≡ is_run (parts_of words.now) }
{
    if !fit_run(words) {
        return false;
    }
    have_names(words)
}

// The words behind `run`, read by clap. What our own check takes has no fault there: only memory may be wanted.
fn read_run<'a>(alloc: Global, words: &'a [String]) -> Result<ArgMatches<'a>, Error>
    requires { fits run_form (parts_of words.now) ≡ true }
    ensures read { IfOk result (λ m. HasRead run_form (parts_of words.now) m) }
    ensures faultless { IfErr result (λ e. kind_of e ≡ OutOfMemory) }
{
    let command = parser(alloc, &RUN)?;
    command.try_get_matches_from(words)
}

// The names and numbers of a session, once clap has read the words, with the hold and the guard that its command gives it.
pub(crate) fn session_from<'a>(matches: &ArgMatches<'a>, hold: u32, guard: Guard) -> RunCommand<'a>
    ensures { (p : Parts) → HasReadSession p matches.now → AreInRange (session_value hold guard p) → run_shown result ≡ session_value hold guard p }
{
    RunCommand {
        program: value_in(matches, PROGRAM),
        recording: value_in(matches, RECORD.name),
        report: value_in(matches, REPORT.name),
        form: form_of(value_in(matches, FORM.name)),
        frame: frame_of(value_in(matches, FRAME.name)),
        window: number_or_zero(value_in(matches, WINDOW.name)),
        hold,
        ring: number_or_zero(value_in(matches, RING.name)),
        every: number_or_zero(value_in(matches, EVERY.name)),
        frames: number_or_zero(value_in(matches, FRAMES.name)),
        budget: long_or_zero(value_in(matches, BUDGET.name)),
        keep: number_or_zero(value_in(matches, KEEP.name)),
        env: env_of(value_in(matches, ENV.name)),
        guard,
    }
}

// The names and numbers of `run`, once clap has read the words.
fn run_from<'a>(matches: &ArgMatches<'a>) -> RunCommand<'a>
    ensures { (p : Parts) → HasRead run_form p matches.now → AreInRange (run_value p) → run_shown result ≡ run_value p }
{
    let hold = number_or_zero(value_in(matches, HOLD.name));
    let guard = guard_of(value_in(matches, GUARD.name));
    session_from(matches, hold, guard)
}

// The command that the words behind `run` are.
pub(crate) fn run_command<'a>(
    alloc: Global,
    words: &'a [String],
) -> Result<RunCommand<'a>, AllocError>
    requires { is_run (parts_of words.now) ≡ true }
    ensures { IfOk result (λ run. run_shown run ≡ run_value (parts_of words.now)) }
{
    match read_run(alloc, words) {
        Ok(matches) => Ok(run_from(&matches)),
        Err(error) => Err(out_of_memory(error)),
    }
}
