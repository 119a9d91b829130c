// The command `resume`: its words, and what they come to. Its options are those of `run` but the window and the framing, which are the record's.
ghost use Rattle.std.specs.Prelude.{◌≡◌, true, IfOk, IfErr};
ghost use Rattle.clap.specs.Words.{kind_of};
ghost use Rattle.clap.specs.declared.error.kind.ErrorKind.TheVariants.{OutOfMemory};
ghost use Rattle.command_line.specs.Parts.{Parts, parts_of};
ghost use Rattle.command_line.specs.Commands.{are_four, are_new, fits, have_six, is_fifth, is_resume, resume_form, resume_numbers, resume_shown, resume_value, run_in, run_shown};
ghost use Rattle.command_line.specs.Ranges.{EachInRange};
ghost use Rattle.command_line.specs.Reading.{HasRead};

use crate::accepted::{have_form, name_at};
use crate::diagnose_words::is_fourth;
use crate::matching::{out_of_memory, parser, value_in};
use crate::options::{CommandName, CommandOf, CommandRow, OptionRow};
use crate::replay_words::RECORDED;
use crate::run_words::{
    BUDGET, DURABLE, ENV, EVERY, FORM, FRAMES, Form, GUARD, Guard, HOLD, KEEP, PROGRAM, RECORD,
    RECORD_FULL, REPORT, RING, RunCommand, TELL, differ, env_of, form_of, guard_of, long_or_zero,
    number_or_zero, recording, report,
};
use crate::standby_words::COUNTS;
use alloc_env::Env;
use clap::{ArgMatches, Error};
use msg_frame::Framing;
use std::alloc::{AllocError, Global};

/// The file of a report.
pub const REPORTED: &str = "REPORT";

/// The options of `resume`.
pub const RESUME_OPTIONS: [OptionRow; 14] = [
    RECORD,
    REPORT,
    FORM,
    HOLD,
    RING,
    EVERY,
    FRAMES,
    BUDGET,
    KEEP,
    ENV,
    GUARD,
    TELL,
    DURABLE,
    RECORD_FULL,
];

/// Goes on for a host that was killed.
pub const RESUME: CommandRow = CommandOf {
    which: CommandName::Resume,
    name: "resume",
    positionals: &[PROGRAM, RECORDED, REPORTED, COUNTS],
    options: &RESUME_OPTIONS,
    says: "Goes on for a host that was killed, and recovers the program where it fails.",
};

/// A session that goes on for a host that was killed: the names of the program, of that host's record and report, of the counts, and of
/// the record and the report that are written, no two of them alike, and the settings. Window and framing are the record's.
#[derive(Clone, Copy, Debug)]
pub struct ResumeCommand<'a> {
    pub program: &'a str,
    /// The record of the host that was killed.
    pub recorded: &'a str,
    /// Its report.
    pub reported: &'a str,
    pub counts: &'a str,
    /// The record that is written.
    pub recording: &'a str,
    /// The report that is written.
    pub report: &'a str,
    pub form: Form,
    pub hold: u32,
    pub ring: u32,
    pub every: u32,
    pub frames: u32,
    pub budget: u64,
    pub keep: u32,
    pub env: Env,
    pub guard: Guard,
}

/// What its session is asked for, as a `run` in a window of so many MiB and under this framing.
pub fn run_in<'a>(resume: &ResumeCommand<'a>, window: u32, frame: Framing) -> RunCommand<'a>
    ensures { run_shown result ≡ run_in (resume_shown resume.now) window frame }
{
    RunCommand {
        program: resume.program,
        recording: resume.recording,
        report: resume.report,
        form: resume.form,
        frame,
        window,
        hold: resume.hold,
        ring: resume.ring,
        every: resume.every,
        frames: resume.frames,
        budget: resume.budget,
        keep: resume.keep,
        env: resume.env,
        guard: resume.guard,
    }
}

// Whether the words have the form of `resume`.
#[tactic(auto, unfolding(crate::specs::Commands::resume_form))]
fn fit_resume(words: &[String]) -> bool
    ensures { result ≡ fits resume_form (parts_of words.now) }
{
    have_form(words, &RESUME)
}

// Whether no two of four texts are alike.
fn are_four(first: &str, second: &str, third: &str, fourth: &str) -> bool
    ensures { result ≡ are_four first.now second.now third.now fourth.now }
{
    if !differ(first, second, third) {
        return false;
    }
    is_fourth(first, second, third, fourth)
}

// Whether a text is none of four others.
fn is_fifth(first: &str, second: &str, third: &str, fourth: &str, fifth: &str) -> bool
    ensures { result ≡ is_fifth first.now second.now third.now fourth.now fifth.now }
{
    if !is_fourth(first, second, third, fifth) {
        return false;
    }
    fourth != fifth
}

// Whether the record and the report that are written have two names, which none of four files has.
fn are_new(
    first: &str,
    second: &str,
    third: &str,
    fourth: &str,
    to_record: &str,
    to_report: &str,
) -> bool
    ensures { result ≡ are_new first.now second.now third.now fourth.now to_record.now to_report.now }
{
    if !is_fifth(first, second, third, fourth, to_record) {
        return false;
    }
    if !is_fifth(first, second, third, fourth, to_report) {
        return false;
    }
    to_record != to_report
}

// Whether no two of the six names are alike.
fn have_six(words: &[String]) -> bool
    ensures { result ≡ have_six (parts_of words.now) }
{
    let program = name_at(words, 0);
    let recorded = name_at(words, 1);
    let reported = name_at(words, 2);
    let counts = name_at(words, 3);
    if !are_four(program, recorded, reported, counts) {
        return false;
    }
    are_new(
        program,
        recorded,
        reported,
        counts,
        recording(words),
        report(words),
    )
}

// Whether these are the words behind `resume`.
#[tactic(auto, unfolding(crate::specs::Commands::is_resume))]
pub(crate) fn are_resume_words(words: &[String]) -> bool
    ensures { result ≡ is_resume (parts_of words.now) }
{
    if !fit_resume(words) {
        return false;
    }
    have_six(words)
}

// The words behind `resume`, read by clap. What our own check takes has no fault there: only memory may be wanted.
fn read_resume<'a>(alloc: Global, words: &'a [String]) -> Result<ArgMatches<'a>, Error>
    requires { fits resume_form (parts_of words.now) ≡ true }
    ensures read { IfOk result (λ m. HasRead resume_form (parts_of words.now) m) }
    ensures faultless { IfErr result (λ e. kind_of e ≡ OutOfMemory) }
{
    let command = parser(alloc, &RESUME)?;
    command.try_get_matches_from(words)
}

// The names and numbers of `resume`, once clap has read the words.
fn resume_from<'a>(matches: &ArgMatches<'a>) -> ResumeCommand<'a>
    ensures { (p : Parts) → HasRead resume_form p matches.now → EachInRange (resume_numbers (resume_value p)) → resume_shown result ≡ resume_value p }
{
    ResumeCommand {
        program: value_in(matches, PROGRAM),
        recorded: value_in(matches, RECORDED),
        reported: value_in(matches, REPORTED),
        counts: value_in(matches, COUNTS),
        recording: value_in(matches, RECORD.name),
        report: value_in(matches, REPORT.name),
        form: form_of(value_in(matches, FORM.name)),
        hold: number_or_zero(value_in(matches, HOLD.name)),
        ring: number_or_zero(value_in(matches, RING.name)),
        every: number_or_zero(value_in(matches, EVERY.name)),
        frames: number_or_zero(value_in(matches, FRAMES.name)),
        budget: long_or_zero(value_in(matches, BUDGET.name)),
        keep: number_or_zero(value_in(matches, KEEP.name)),
        env: env_of(value_in(matches, ENV.name)),
        guard: guard_of(value_in(matches, GUARD.name)),
    }
}

// The command that the words behind `resume` are.
pub(crate) fn resume_command<'a>(
    alloc: Global,
    words: &'a [String],
) -> Result<ResumeCommand<'a>, AllocError>
    requires { is_resume (parts_of words.now) ≡ true }
    ensures { IfOk result (λ resume. resume_shown resume ≡ resume_value (parts_of words.now)) }
{
    match read_resume(alloc, words) {
        Ok(matches) => Ok(resume_from(&matches)),
        Err(error) => Err(out_of_memory(error)),
    }
}
