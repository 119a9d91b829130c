// A walk over the table of trials: from each checkpoint, the newest first, in each environment.
ghost use Rattle.std.specs.Prelude.{◌≡◌, ◌+◌, ◌<◌, ◌≤◌, length, Some, slice_get, IfOk, OnOk, [], ◌∷◌, ◌++◌};
ghost use Rattle.run_history.specs.Served.{Path};
ghost use Rattle.trials.specs.Tables.{environments};
ghost use Rattle.recovery.specs.Sessions.{Failure, IsUnder};
ghost use Rattle.recovery.specs.Trying.{adopted_of};
ghost use Rattle.recovery.specs.Walking.{OneBy, AllBy, RingBy, LedgerBy, StaysBy, IsOfOneRun, IsEpisode, WalksBy};
ghost use Rattle.recovery.specs.Recoverables.{CanBeTried, HasFailedAt, KeepsUntried};

use crate::{Chance, Recoverable, TrialLimits};
use alloc_env::Env;
use block_book::Choice;
use ckpt_ring::Snapshot;
use guest_space::AccessRule;
use run_history::Cause;
use rx_base::Steps;
use session_notes::{Episode, Tried, Tries, Try};
use std::alloc::AllocError;
use std::sync::ledger::Ledger;

/// Where and why a program failed.
#[derive(Clone, Copy, Debug)]
pub struct FailureSite {
    /// How many items it had taken.
    pub point: u64,
    /// Why it failed.
    pub cause: Cause,
    /// The address of the instruction at which it failed.
    pub pc: u32,
}

/// What is adopted of a trial that survived.
#[derive(Clone, Copy, Debug)]
pub struct Adopted {
    /// The index of its checkpoint, where 0 is the newest one.
    pub index: u32,
    /// The environment of the trial.
    pub env: Env,
    /// The code with which the trial ended itself, if it did.
    pub code: Option<u32>,
}

/// What a walk has tried, as the episode of a failure, and what it adopted, if a trial survived.
#[derive(Debug, Drop)]
pub struct Walked {
    pub episode: Episode,
    pub adopted: Option<Adopted>,
}

// The environments in which a program is tried, in their order.
const ENVIRONMENTS: [Env; 5] = [Env::Pad, Env::Zero, Env::Isolate, Env::Delay, Env::All];

// The environment at a place.
fn environment(place: usize) -> Env
    requires { place < length environments }
    ensures { slice_get environments place ≡ Some result }
{
    ENVIRONMENTS[place]
}

// Notes a trial behind those before it.
fn note(tries: &mut Vec<Try>, made: Try) -> Result<(), AllocError>
    ensures { OnOk result (tries.new.items ≡ tries.old.items ++ made ∷ []) }
{
    match tries.push(made) {
        Ok(()) => Ok(()),
        Err(_) => Err(AllocError),
    }
}

// What is adopted of a trial from the checkpoint at an index, in an environment, by its result.
fn adopted_of(index: u32, env: Env, tried: Tried) -> Option<Adopted>
    ensures { result ≡ adopted_of index env tried }
{
    let code = match tried {
        Tried::Asks => None,
        Tried::Exits(code) => Some(code),
        _ => return None,
    };
    Some(Adopted { index, env, code })
}

impl<R: AccessRule> Recoverable<R> {
    // Tries a checkpoint in one environment, and adopts the trial where it survives.
    fn try_one<L: Ledger>(
        &mut self,
        chance: Chance,
        limits: TrialLimits,
        own: &mut Vec<Choice>,
        steps: &mut Steps<L>,
        tries: &mut Vec<Try>,
    ) -> Result<Option<Adopted>, AllocError>
        requires failed { CanBeTried limits.budget (R.rule self.old.cpu.rule) limits.point self.old }
        requires within { chance.index < length self.old.cpu.slots.saved }
        ensures tries { (failure : Failure) (checkpoint : Path) → IsUnder failure limits.budget (R.rule self.old.cpu.rule) → HasFailedAt limits.point failure self.old → slice_get failure.ring chance.index ≡ Some checkpoint
            → OneBy failure limits.point (record { checkpoint = checkpoint; env = chance.env }) self.new.cpu own.new.items self.new.replies tries.old.items tries.new.items steps.old steps.new result }
        ensures kept { KeepsUntried self.old self.new }
        ensures ledger { LedgerBy self.old.replies self.new.replies result }
        ensures least { steps.old ≤ steps.new }
    {
        match self.attempt(chance, limits, own, steps) {
            Ok(tried) => {
                let checkpoint = self.cpu.taken_at(chance.index);
                if let Err(e) = note(
                    tries,
                    Try {
                        checkpoint,
                        env: chance.env,
                        tried,
                    },
                ) {
                    return Err(e);
                }
                match adopted_of(chance.index, chance.env, tried) {
                    None => Ok(None),
                    Some(adopted) => {
                        self.replies.adopt();
                        Ok(Some(adopted))
                    }
                }
            }
            Err(e) => Err(e),
        }
    }

    // Tries a checkpoint in each environment, up to the first in which the trial survives, which is adopted.
    fn try_all<L: Ledger>(
        &mut self,
        index: u32,
        limits: TrialLimits,
        own: &mut Vec<Choice>,
        steps: &mut Steps<L>,
        tries: &mut Vec<Try>,
    ) -> Result<Option<Adopted>, AllocError>
        requires failed { CanBeTried limits.budget (R.rule self.old.cpu.rule) limits.point self.old }
        requires within { index < length self.old.cpu.slots.saved }
        ensures tries { (failure : Failure) (checkpoint : Path) → IsUnder failure limits.budget (R.rule self.old.cpu.rule) → HasFailedAt limits.point failure self.old → slice_get failure.ring index ≡ Some checkpoint
            → AllBy failure limits.point checkpoint self.new.cpu own.new.items self.new.replies tries.old.items tries.new.items steps.old steps.new result }
        ensures kept { KeepsUntried self.old self.new }
        ensures ledger { LedgerBy self.old.replies self.new.replies result }
        ensures least { steps.old ≤ steps.new }
    {
        'environments: for place in 0..ENVIRONMENTS.len() {
            let env = environment(place);
            match self.try_one(Chance { index, env }, limits, own, steps, tries) {
                Ok(None) => {}
                Ok(Some(adopted)) => return Ok(Some(adopted)),
                Err(e) => return Err(e),
            }
        }
        Ok(None)
    }

    // Tries all checkpoints, from the newest on, up to the first trial that survives, which is adopted.
    fn try_ring<L: Ledger>(
        &mut self,
        limits: TrialLimits,
        own: &mut Vec<Choice>,
        steps: &mut Steps<L>,
        tries: &mut Vec<Try>,
    ) -> Result<Option<Adopted>, AllocError>
        requires failed { CanBeTried limits.budget (R.rule self.old.cpu.rule) limits.point self.old }
        requires none { tries.old.items ≡ [] }
        ensures walks { (failure : Failure) → IsUnder failure limits.budget (R.rule self.old.cpu.rule) → HasFailedAt limits.point failure self.old
            → RingBy failure limits.point self.new.cpu own.new.items self.old.replies self.new.replies steps.old steps.new tries.new.items result }
        ensures kept { KeepsUntried self.old self.new }
        ensures ledger { StaysBy self.old.replies self.new.replies result }
        ensures least { steps.old ≤ steps.new }
    {
        let count = self.cpu.checkpoints();
        'checkpoints: for index in 0..count {
            match self.try_all(index, limits, own, steps, tries) {
                Ok(None) => {}
                Ok(Some(adopted)) => return Ok(Some(adopted)),
                Err(e) => return Err(e),
            }
        }
        self.replies.discard();
        Ok(None)
    }

    /// Tries to come past a failure: goes on from each checkpoint, the newest first, in each of five environments, up to the
    /// first trial that survives, and adopts that one. Where and why the program failed stands in the episode, with all trials in their order.
    ///
    /// Where a trial was adopted, the guest stands where that trial has come, on its checkpoint; the allocator's answers
    /// since the checkpoint stand in `own`, and its sends are the survivor's in the replies. The pages that the trial's run writes since
    /// then (`writes` of `guest_cpu`) are those that the guest counts as written. Where none survived, the guest may stand
    /// anywhere. What was passed stays as it is. `steps` counts the instructions of all trials.
    ///
    /// # Errors
    ///
    /// `AllocError` where memory runs out. Trials of the first chances were made then, none of which survived, and one more may be begun. The guest may
    /// stand anywhere, and a trial may be left in the replies, beside the sends of the run that failed. `steps` counts the instructions of the trial that
    /// was begun, too.
    pub fn walk<L: Ledger>(
        &mut self,
        site: FailureSite,
        budget: u64,
        own: &mut Vec<Choice>,
        steps: &mut Steps<L>,
    ) -> Result<Walked, AllocError>
        requires failed { CanBeTried budget (R.rule self.old.cpu.rule) site.point self.old }
        ensures walks { (failure : Failure) → IsUnder failure budget (R.rule self.old.cpu.rule) → HasFailedAt site.point failure self.old
            → WalksBy failure site.point self.new.cpu own.new.items self.old.replies self.new.replies steps.old steps.new result }
        ensures episode { IfOk result (λ walked. IsEpisode site walked.episode) }
        ensures kept { KeepsUntried self.old self.new }
        ensures ledger { StaysBy self.old.replies self.new.replies result }
        ensures one_run { (failure : Failure) → IsUnder failure budget (R.rule self.old.cpu.rule) → HasFailedAt site.point failure self.old
            → IsOfOneRun failure site.point self.new.replies }
        ensures least { steps.old ≤ steps.new }
    {
        let mut tries = Vec::new(self.alloc);
        let limits = TrialLimits {
            point: site.point,
            budget,
        };
        match self.try_ring(limits, own, steps, &mut tries) {
            Ok(adopted) => Ok(Walked {
                episode: Episode {
                    point: site.point,
                    cause: site.cause,
                    pc: site.pc,
                    tries: Tries::from_vec(tries),
                },
                adopted,
            }),
            Err(e) => Err(e),
        }
    }
}
