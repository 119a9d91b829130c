// What a line is read as.
ghost use Rattle.std.specs.Prelude.{◌≡◌, ◌≤◌, ◌^◌, [], IfOk, length};
ghost use Rattle.report_reading.specs.Telling.{failure_told, failure_of, try_told, try_of, try_in, tries_in, episode_told, episode_of, end_told, end_of};
ghost use Rattle.report_reading.specs.Steps.{TellsFailure, episode_with};
ghost use Rattle.text_lines.specs.Written.{Tells};

use crate::numbers::{behind_digits, byte_told, hex_in_front};
use crate::reported::{Failure, ReportEnd};
use crate::words::{behind_cause, cause_told, env_told, tried_told};
use run_report::{Form, end_text, episode_text};
use session_notes::{Episode, Try, env_word, failure_line, try_line};
use std::alloc::{AllocError, Global};
use text_lines::{behind, is_same, number_in_front};

// The failure that a line tells.
fn failure_told(line: &[u8]) -> Failure
    ensures { episode_with result [] ≡ failure_told line.now }
{
    let (point, rest) = number_in_front(behind(behind_digits(behind(line, 8)), 7));
    let named = behind(rest, 7);
    let cause = cause_told(named);
    let pc = hex_in_front(behind(behind_cause(cause, named), 4));
    Failure { point, cause, pc }
}

// The failure of this number that a line says, if it is the line of one.
pub(crate) fn failure_of(
    alloc: Global,
    number: u64,
    line: &[u8],
) -> Result<Option<Failure>, AllocError>
    ensures { TellsFailure (failure_of number line.now) result }
{
    let failure = failure_told(line);
    let e = failure.with(Vec::new(alloc));
    let text = failure_line(alloc, number, &e)?;
    if is_same(text.as_slice(), line) {
        Ok(Some(failure))
    } else {
        Ok(None)
    }
}

// The trial that a line tells.
fn try_told(line: &[u8]) -> Try
    ensures { result ≡ try_told line.now }
{
    let (checkpoint, rest) = number_in_front(behind(behind_digits(behind(line, 4)), 12));
    let named = behind(rest, 5);
    let env = env_told(named);
    let tried = tried_told(behind(behind(named, env_word(env).len()), 8));
    Try {
        checkpoint,
        env,
        tried,
    }
}

// The trial of this number that a line says, if it is the line of one.
pub(crate) fn try_of(alloc: Global, number: u64, line: &[u8]) -> Result<Option<Try>, AllocError>
    ensures { Tells (try_of number line.now) result }
{
    let t = try_told(line);
    let text = try_line(alloc, number, &t)?;
    if is_same(text.as_slice(), line) {
        Ok(Some(t))
    } else {
        Ok(None)
    }
}

// The trial that bytes behind a brace tell.
fn try_in(bytes: &[u8]) -> Try
    ensures { result ≡ try_in bytes.now }
{
    let (checkpoint, rest) = number_in_front(behind(bytes, 13));
    let named = behind(rest, 8);
    let env = env_told(named);
    let tried = tried_told(behind(behind(named, env_word(env).len()), 12));
    Try {
        checkpoint,
        env,
        tried,
    }
}

// A trial behind each brace.
fn tries_in(alloc: Global, bytes: &[u8]) -> Result<Vec<Try>, AllocError>
    ensures { IfOk result (λ tries. tries.items ≡ tries_in bytes.now) }
{
    let mut tries = Vec::new(alloc);
    let mut rest = bytes;
    'braces: while let [byte, behind @ ..] = rest {
        if *byte == b'{' {
            tries.push(try_in(behind))?;
        }
        rest = behind;
    }
    Ok(tries)
}

// The episode that a line tells.
fn episode_told(alloc: Global, line: &[u8]) -> Result<Episode, AllocError>
    ensures told { IfOk result (λ e. e ≡ episode_told line.now) }
    ensures few { IfOk result (λ e. length e.tries ≤ 2 ^ 64) }
{
    let named = behind(line, 10);
    let cause = cause_told(named);
    let pc_in = behind(behind_digits(behind(behind_cause(cause, named), 12)), 7);
    let (point, rest) = number_in_front(behind(pc_in, 18));
    let pc = hex_in_front(pc_in);
    let tries = tries_in(alloc, behind(rest, 10))?;
    Ok(Failure { point, cause, pc }.with(tries))
}

// The episode of this number that a line says, if it is the line of one.
pub(crate) fn episode_of(
    alloc: Global,
    number: u64,
    line: &[u8],
) -> Result<Option<Episode>, AllocError>
    ensures { Tells (episode_of number line.now) result }
{
    let e = episode_told(alloc, line)?;
    let text = episode_text(alloc, number, &e, Form::Json)?;
    if is_same(text.as_slice(), line) {
        Ok(Some(e))
    } else {
        Ok(None)
    }
}

// The end that a line tells in a form.
fn end_told(form: Form, line: &[u8]) -> ReportEnd
    ensures { result ≡ end_told form line.now }
{
    match form {
        Form::Text => {
            let rest = behind(line, 4);
            let status = byte_told(rest);
            let (taken, rest) = number_in_front(behind(behind_digits(rest), 7));
            let (steps, _) = number_in_front(behind(rest, 7));
            ReportEnd {
                status,
                taken,
                steps,
            }
        }
        Form::Json => {
            let rest = behind(line, 7);
            let status = byte_told(rest);
            let (steps, rest) = number_in_front(behind(behind_digits(rest), 9));
            let (taken, _) = number_in_front(behind(rest, 9));
            ReportEnd {
                status,
                taken,
                steps,
            }
        }
    }
}

// The end that a line says in a form, if it is a last line.
pub(crate) fn end_of(
    alloc: Global,
    form: Form,
    line: &[u8],
) -> Result<Option<ReportEnd>, AllocError>
    ensures { Tells (end_of form line.now) result }
{
    let end = end_told(form, line);
    let text = end_text(alloc, end.status, end.taken, end.steps, form)?;
    if is_same(text.as_slice(), line) {
        Ok(Some(end))
    } else {
        Ok(None)
    }
}
