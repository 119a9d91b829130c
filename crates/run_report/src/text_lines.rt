// A report's lines as text.
ghost use Rattle.std.specs.Prelude.{◌≡◌, IfOk};
ghost use Rattle.run_report.specs.TextLines.{head_line, episode_lines, end_line};

use rx_base::Bytes;
use session_notes::{Episode, failure_line, try_line};
use std::alloc::{AllocError, Global};

// The first line.
pub(crate) fn head_line(alloc: Global) -> Result<Bytes, AllocError>
    ensures { IfOk result (λ bytes. bytes ≡ head_line) }
{
    Ok(Bytes::from_vec(b"rx report 1\n".to_vec(alloc)?))
}

// The line of a failure, and under it a line for each trial.
#[tactic(auto, unfolding(crate::specs::TextLines::episode_lines))]
pub(crate) fn episode_lines(alloc: Global, number: u64, e: &Episode) -> Result<Bytes, AllocError>
    ensures { IfOk result (λ bytes. bytes ≡ episode_lines number e.now) }
{
    let mut text = Vec::new(alloc);
    let failure = failure_line(alloc, number, e)?;
    text.extend_from_slice(failure.as_slice())?;
    let tries = e.tries.as_slice();
    'tries: for (i, t) in tries.iter().enumerate() {
        let line = try_line(alloc, i as u64, t)?;
        text.extend_from_slice(line.as_slice())?;
    }
    Ok(Bytes::from_vec(text))
}

// The last line.
#[tactic(auto, unfolding(crate::specs::TextLines::end_line))]
pub(crate) fn end_line(
    alloc: Global,
    status: u8,
    taken: u64,
    steps: u64,
) -> Result<Bytes, AllocError>
    ensures { IfOk result (λ bytes. bytes ≡ end_line status taken steps) }
{
    let text = format!(in alloc; "end {status} taken {taken} steps {steps}\n")?;
    Ok(Bytes::from_vec(text.into_bytes()))
}
