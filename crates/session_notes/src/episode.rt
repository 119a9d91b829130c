// What was tried after a failure.
ghost use Rattle.std.specs.Prelude.{◌≡◌, List};
ghost use Rattle.session_notes.specs.Survival.{survives};
ghost use Rattle.session_notes.specs.declared.episode.Try.{Try};

use alloc_env::Env;
use run_history::Cause;
use rx_base::Listed;

/// What came of a trial: a run again from a checkpoint, in an environment, with the items that were taken since then.
#[derive(Clone, Copy, Debug, PartialEq, Eq)]
pub enum Tried {
    /// It has taken all these items, and asks for the next one. It survived.
    Asks,
    /// It ended itself with this code. It survived.
    Exits(u32),
    /// It failed again.
    Failed(Cause),
    /// A byte that it sent differs from one that was passed to a client.
    Contradicts,
    /// It didn't send all bytes that were passed to clients.
    Behind,
}

impl Tried {
    /// Whether the trial survived.
    pub fn survives(&self) -> bool
        ensures { result ≡ survives self.now }
    {
        matches!(self, Tried::Asks | Tried::Exits(_))
    }
}

/// A trial: how many items were taken at its checkpoint, its environment, and what came of it.
#[derive(Clone, Copy, Debug, PartialEq, Eq)]
pub struct Try {
    pub checkpoint: u64,
    pub env: Env,
    pub tried: Tried,
}

/// The trials of an episode, in their order.
pub type Tries = Listed<Try>;

/// A failure and what was tried after it: how many items were taken, the cause, the address of the failing instruction,
/// and the trials.
#[derive(Debug, Drop)]
pub struct Episode {
    pub point: u64,
    pub cause: Cause,
    pub pc: u32,
    pub tries: Tries,
}
