// The lines of an episode.
ghost use Rattle.std.specs.Prelude.{◌≡◌, IfOk};
ghost use Rattle.session_notes.specs.Lines.{failure_text, try_text};

use crate::episode::{Episode, Try};
use crate::words::{cause_text, env_word, pc_text, tried_text};
use rx_base::Bytes;
use std::alloc::{AllocError, Global};

/// The line of a failure, with its line feed: `failure E point K cause C at PC`, by the number of the episode.
#[tactic(auto, unfolding(crate::specs::Lines::failure_text))]
pub fn failure_line(alloc: Global, number: u64, e: &Episode) -> Result<Bytes, AllocError>
    ensures { IfOk result (λ bytes. bytes ≡ failure_text number e.now) }
{
    let point = e.point;
    let cause = cause_text(alloc, e.cause)?;
    let pc = pc_text(alloc, e.pc)?;
    let text = format!(in alloc; "failure {number} point {point} cause {cause} at {pc}\n")?;
    Ok(Bytes::from_vec(text.into_bytes()))
}

/// The line of a trial, with its line feed: `try T checkpoint Q env V result R`, by its number in the episode.
#[tactic(auto, unfolding(crate::specs::Lines::try_text))]
pub fn try_line(alloc: Global, number: u64, t: &Try) -> Result<Bytes, AllocError>
    ensures { IfOk result (λ bytes. bytes ≡ try_text number t.now) }
{
    let checkpoint = t.checkpoint;
    let env = env_word(t.env);
    let tried = tried_text(alloc, t.tried)?;
    let text = format!(in alloc;
        "try {number} checkpoint {checkpoint} env {env} result {tried}\n"
    )?;
    Ok(Bytes::from_vec(text.into_bytes()))
}
