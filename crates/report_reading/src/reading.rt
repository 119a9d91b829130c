// A report, read line by line.
ghost use Rattle.std.specs.Prelude.{◌≡◌, length, nat_le, ◌&&◌, not, is_some, IfOk, None, Some, bytes_eq, option_map};
ghost use Rattle.std.specs.Option.{option_and_then};
ghost use Rattle.text_lines.specs.Lines.{is_empty};
ghost use Rattle.run_report.specs.declared.form.Form.TheVariants.{Json, Text};
ghost use Rattle.run_report.specs.Report.{head_text};
ghost use Rattle.report_reading.specs.Answers.{ReadsReport};
ghost use Rattle.report_reading.specs.Refusals.{adopting, begins_end, begun, ending, episode_line, failed_behind, head_of, next_of, told_behind, tried_behind};
ghost use Rattle.report_reading.specs.Reports.{ends, last_survived, least_behind, none_survived};
ghost use Rattle.report_reading.specs.Steps.{Begins, Takes, episode_with, so_far};
ghost use Rattle.report_reading.specs.Telling.{end_of, episode_of, failure_of, try_of};

use crate::lines::{end_of, episode_of, failure_of, try_of};
use crate::parts::split_line;
use crate::reported::{Episodes, Failure, ReadReport, ReportEnd, ReportRefusal};
use run_report::{Form, head_text};
use session_notes::{Episode, Try};
use std::alloc::{AllocError, Global};
use std::mem;
use text_lines::is_same;

// What was read so far: the episodes of which a trial was adopted, a failure behind them with its trials, if there is one, and the end.
#[derive(Drop)]
pub(crate) struct Reading {
    form: Form,
    adopted: Vec<Episode>,
    failure: Option<Failure>,
    tries: Vec<Try>,
    end: Option<ReportEnd>,
}

// Whether a point is above those of some episodes, whose points rise.
fn is_above(adopted: &[Episode], point: u64) -> bool
    ensures { result ≡ nat_le (least_behind 0 adopted.now) point }
{
    match adopted.last() {
        None => true,
        Some(e) => e.point < point,
    }
}

// Whether the last of some trials survived, and no earlier one.
fn last_survived(tries: &[Try]) -> bool
    ensures { result ≡ last_survived tries.now }
{
    let mut rest = tries;
    'tries: while let [t, behind @ ..] = rest {
        if t.tried.survives() {
            return ends(behind);
        }
        rest = behind;
    }
    false
}

fn ends(tries: &[Try]) -> bool
    ensures { result ≡ ends tries.now }
{
    match tries {
        [] => true,
        [_, ..] => false,
    }
}

// Whether none of some trials survived.
fn none_survived(tries: &[Try]) -> bool
    ensures { result ≡ none_survived tries.now }
{
    let mut rest = tries;
    'tries: while let [t, behind @ ..] = rest {
        if t.tried.survives() {
            return false;
        }
        rest = behind;
    }
    true
}

// Whether a line begins as a last line.
fn begins_end(form: Form, line: &[u8]) -> bool
    ensures { result ≡ begins_end form line.now }
{
    let letter = match form {
        Form::Text => line.get(0),
        Form::Json => line.get(2),
    };
    match letter {
        Some(b'e') => true,
        _ => false,
    }
}

fn is_empty(bytes: &[u8]) -> bool
    ensures { result ≡ is_empty bytes.now }
{
    match bytes {
        [] => true,
        [_, ..] => false,
    }
}

// Whether bytes stand behind the end.
fn is_behind_end(end: Option<ReportEnd>, torn: &[u8]) -> bool
    ensures { result ≡ (is_some end && not (is_empty torn.now)) }
{
    match end {
        None => false,
        Some(_) => !is_empty(torn),
    }
}

// Whether a line is the first one of a report in a form.
fn is_head(alloc: Global, form: Form, line: &[u8]) -> Result<bool, AllocError>
    ensures { IfOk result (λ is. is ≡ bytes_eq (head_text form) line.now) }
{
    let text = head_text(alloc, form)?;
    Ok(is_same(text.as_slice(), line))
}

// What a first line begins, if it is one.
fn begin(alloc: Global, line: &[u8]) -> Result<Option<Reading>, AllocError>
    ensures { Begins (head_of line.now) result }
{
    if is_head(alloc, Form::Text, line)? {
        return Ok(Some(Reading::make(alloc, Form::Text)));
    }
    if is_head(alloc, Form::Json, line)? {
        return Ok(Some(Reading::make(alloc, Form::Json)));
    }
    Ok(None)
}

impl Reading {
    fn make(alloc: Global, form: Form) -> Reading
        ensures { so_far result ≡ begun form }
    {
        Reading {
            form,
            adopted: Vec::new(alloc),
            failure: None,
            tries: Vec::new(alloc),
            end: None,
        }
    }

    // Takes the last line, if it is one.
    fn take_end(&mut self, alloc: Global, line: &[u8]) -> Result<bool, AllocError>
        ensures { Takes (option_map (ending (so_far self.old)) (end_of self.old.form line.now)) self.new result }
    {
        match end_of(alloc, self.form, line)? {
            None => Ok(false),
            Some(end) => {
                self.end = Some(end);
                Ok(true)
            }
        }
    }

    // Takes the line of a failure, if it is one and its point is above those before it.
    fn take_failure(&mut self, alloc: Global, line: &[u8]) -> Result<bool, AllocError>
        ensures { Takes (option_and_then (failed_behind (so_far self.old)) (failure_of (length self.old.adopted.items) line.now)) self.new result }
    {
        let Some(failure) = failure_of(alloc, self.adopted.len() as u64, line)? else {
            return Ok(false);
        };
        if !is_above(&self.adopted, failure.point) {
            return Ok(false);
        }
        self.failure = Some(failure);
        self.tries = Vec::new(alloc);
        Ok(true)
    }

    // Adopts the episode that was read.
    fn adopt(&mut self, alloc: Global, failure: Failure) -> Result<(), AllocError>
        ensures { IfOk result (λ _. so_far self.new ≡ adopting (so_far self.old) (episode_with failure self.old.tries.items)) }
    {
        let tries = mem::replace(&mut self.tries, Vec::new(alloc));
        self.adopted.push(failure.with(tries))?;
        self.failure = None;
        Ok(())
    }

    // Takes the line of a trial, if it is one.
    fn take_try(&mut self, alloc: Global, failure: Failure, line: &[u8]) -> Result<bool, AllocError>
        requires { self.old.failure ≡ Some failure }
        ensures { Takes (option_map (tried_behind (so_far self.old) (episode_with failure self.old.tries.items)) (try_of (length self.old.tries.items) line.now)) self.new result }
    {
        let Some(t) = try_of(alloc, self.tries.len() as u64, line)? else {
            return Ok(false);
        };
        self.tries.push(t)?;
        if t.tried.survives() {
            self.adopt(alloc, failure)?;
        }
        Ok(true)
    }

    // Takes the line of an episode, if it is one, its point is above those before it, and its last trial survived or none.
    fn take_episode(&mut self, alloc: Global, line: &[u8]) -> Result<bool, AllocError>
        requires { self.old.failure ≡ None }
        ensures { Takes (option_and_then (told_behind (so_far self.old)) (episode_of (length self.old.adopted.items) line.now)) self.new result }
    {
        let Some(e) = episode_of(alloc, self.adopted.len() as u64, line)? else {
            return Ok(false);
        };
        if !is_above(&self.adopted, e.point) {
            return Ok(false);
        }
        if last_survived(e.tries.as_slice()) {
            self.adopted.push(e)?;
            return Ok(true);
        }
        if !none_survived(e.tries.as_slice()) {
            return Ok(false);
        }
        self.failure = Some(Failure {
            point: e.point,
            cause: e.cause,
            pc: e.pc,
        });
        self.tries = e.tries.as_slice().to_vec(alloc)?;
        Ok(true)
    }

    // Takes a line of a report as text.
    fn take_text(&mut self, alloc: Global, line: &[u8]) -> Result<bool, AllocError>
        ensures { Takes (episode_line Text (so_far self.old) (so_far self.old).failed line.now) self.new result }
    {
        match self.failure {
            None => self.take_failure(alloc, line),
            Some(failure) => self.take_try(alloc, failure, line),
        }
    }

    // Takes a line of a report as JSON.
    fn take_json(&mut self, alloc: Global, line: &[u8]) -> Result<bool, AllocError>
        ensures { Takes (episode_line Json (so_far self.old) (so_far self.old).failed line.now) self.new result }
    {
        match self.failure {
            None => self.take_episode(alloc, line),
            Some(_) => Ok(false),
        }
    }

    // Takes a line, if it is in its place.
    fn take(&mut self, alloc: Global, line: &[u8]) -> Result<bool, AllocError>
        ensures { Takes (next_of (so_far self.old) line.now) self.new result }
    {
        if self.end.is_some() {
            return Ok(false);
        }
        if begins_end(self.form, line) {
            return self.take_end(alloc, line);
        }
        match self.form {
            Form::Text => self.take_text(alloc, line),
            Form::Json => self.take_json(alloc, line),
        }
    }

    // The report that was read.
    fn into_report(self) -> ReadReport
        ensures { result ≡ so_far self }
    {
        let Reading {
            form,
            adopted,
            failure,
            tries,
            end,
        } = self;
        let failed = match failure {
            None => None,
            Some(failure) => Some(failure.with(tries)),
        };
        ReadReport {
            form,
            adopted: Episodes::from_vec(adopted),
            failed,
            end,
        }
    }
}

/// Reads a report, whole or as a session left it that was stopped at any moment.
///
/// `Refused` has the first line, counted from 1, that isn't in its place. A report without its whole first line is refused at line 1.
pub fn read_report(alloc: Global, bytes: &[u8]) -> Result<ReadReport, ReportRefusal>
    ensures { ReadsReport bytes.now result }
{
    let Some((line, behind)) = split_line(bytes) else {
        return Err(ReportRefusal::Refused { line: 1 });
    };
    let Some(mut reading) = begin(alloc, line)? else {
        return Err(ReportRefusal::Refused { line: 1 });
    };
    let mut rest = behind;
    let mut number: u64 = 1;
    'lines: while let Some((line, behind)) = split_line(rest) {
        number += 1;
        if !reading.take(alloc, line)? {
            return Err(ReportRefusal::Refused { line: number });
        }
        rest = behind;
    }
    if is_behind_end(reading.end, rest) {
        return Err(ReportRefusal::Refused { line: number + 1 });
    }
    Ok(reading.into_report())
}
