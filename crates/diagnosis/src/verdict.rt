// Which environments cure a failure.
ghost use Rattle.std.specs.Prelude.{◌≡◌, IfOk};
ghost use Rattle.diagnosis.specs.Diagnosis.{cured_at, is_cure, envs_at, cures};

use alloc_env::Env;
use session_notes::Try;
use std::alloc::{AllocError, Global};

// How many items were taken at the checkpoint of the first trial that survives.
fn cured_at(tries: &[Try]) -> Option<u64>
    ensures { result ≡ cured_at tries.now }
{
    'tries: for t in tries {
        if t.tried.survives() {
            return Some(t.checkpoint);
        }
    }
    None
}

// Whether a trial survives at this checkpoint.
fn is_cure(checkpoint: u64, t: &Try) -> bool
    ensures { result ≡ is_cure checkpoint t.now }
{
    let lives = t.tried.survives();
    lives && t.checkpoint == checkpoint
}

// The environments that survive at a checkpoint.
fn envs_at(alloc: Global, checkpoint: u64, tries: &[Try]) -> Result<Vec<Env>, AllocError>
    ensures { IfOk result (λ envs. envs.items ≡ envs_at checkpoint tries.now) }
{
    let mut envs = Vec::new(alloc);
    'tries: for t in tries {
        if is_cure(checkpoint, t) {
            envs.push(t.env)?;
        }
    }
    Ok(envs)
}

/// The environments that survive at the newest checkpoint at which any survives, in the order of the trials; none if no trial survives.
/// The trials stand from the newest checkpoint to the oldest.
pub fn cures(alloc: Global, tries: &[Try]) -> Result<Vec<Env>, AllocError>
    ensures { IfOk result (λ envs. envs.items ≡ cures tries.now) }
{
    match cured_at(tries) {
        Some(checkpoint) => envs_at(alloc, checkpoint, tries),
        None => Ok(Vec::new(alloc)),
    }
}
