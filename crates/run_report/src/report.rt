// The parts of a report, by its form.
ghost use Rattle.std.specs.Prelude.{◌≡◌, IfOk};
ghost use Rattle.run_report.specs.Report.{head_text, episode_text, end_text};

use crate::form::Form;
use crate::{json_lines, text_lines};
use rx_base::Bytes;
use session_notes::Episode;
use std::alloc::{AllocError, Global};

/// The first line of a report, with its line feed.
pub fn head_text(alloc: Global, form: Form) -> Result<Bytes, AllocError>
    ensures { IfOk result (λ bytes. bytes ≡ head_text form) }
{
    match form {
        Form::Text => text_lines::head_line(alloc),
        Form::Json => json_lines::head_line(alloc),
    }
}

/// What a report says of an episode, by its number from 0. As text it is a line of the failure and a line of each trial,
/// as JSON one line. Each ends with a line feed.
pub fn episode_text(
    alloc: Global,
    number: u64,
    e: &Episode,
    form: Form,
) -> Result<Bytes, AllocError>
    ensures { IfOk result (λ bytes. bytes ≡ episode_text number e.now form) }
{
    match form {
        Form::Text => text_lines::episode_lines(alloc, number, e),
        Form::Json => json_lines::episode_line(alloc, number, e),
    }
}

/// The last line of a report, with its line feed: the session's status, how many items were taken, and how many
/// instructions were executed.
pub fn end_text(
    alloc: Global,
    status: u8,
    taken: u64,
    steps: u64,
    form: Form,
) -> Result<Bytes, AllocError>
    ensures { IfOk result (λ bytes. bytes ≡ end_text status taken steps form) }
{
    match form {
        Form::Text => text_lines::end_line(alloc, status, taken, steps),
        Form::Json => json_lines::end_line(alloc, status, taken, steps),
    }
}
