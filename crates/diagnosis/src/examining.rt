// Trying the whole table of a failure.
ghost use Rattle.std.specs.Prelude.{◌≡◌, ◌<◌, ◌≤◌, length, Some, slice_get, OnOk, [], ◌∷◌, ◌++◌};
ghost use Rattle.run_history.specs.Served.{Path};
ghost use Rattle.trials.specs.Tables.{chances_at, environments};
ghost use Rattle.recovery.specs.Sessions.{Failure, IsUnder};
ghost use Rattle.recovery.specs.Recoverables.{CanBeTried, HasFailedAt, KeepsUntried};
ghost use Rattle.recovery.specs.Trying.{KeepsLedger};
ghost use Rattle.recovery.specs.Walking.{LeavesNoTrial};
ghost use Rattle.diagnosis.specs.Examined.{NotesBy, TableBy};

use alloc_env::Env;
use ckpt_ring::Snapshot;
use guest_space::AccessRule;
use recovery::{Chance, Recoverable, TrialLimits};
use rx_base::Steps;
use session_notes::Try;
use std::alloc::AllocError;
use std::sync::ledger::Ledger;

// The environments in which a program is tried, in their order.
const ENVIRONMENTS: [Env; 5] = [Env::Pad, Env::Zero, Env::Isolate, Env::Delay, Env::All];

// The environment at a place.
fn environment(place: usize) -> Env
    requires { place < length environments }
    ensures { slice_get environments place ≡ Some result }
{
    ENVIRONMENTS[place]
}

// Notes a trial behind those before it.
fn note(tries: &mut Vec<Try>, made: Try) -> Result<(), AllocError>
    ensures { OnOk result (tries.new.items ≡ tries.old.items ++ made ∷ []) }
{
    match tries.push(made) {
        Ok(()) => Ok(()),
        Err(_) => Err(AllocError),
    }
}

// Tries a checkpoint in one environment, and notes what came of it.
fn examine_one<R: AccessRule, L: Ledger>(
    held: &mut Recoverable<R>,
    chance: Chance,
    limits: TrialLimits,
    steps: &mut Steps<L>,
    tries: &mut Vec<Try>,
) -> Result<(), AllocError>
    requires failed { CanBeTried limits.budget (R.rule held.old.cpu.rule) limits.point held.old }
    requires within { chance.index < length held.old.cpu.slots.saved }
    ensures notes { (failure : Failure) (checkpoint : Path) → IsUnder failure limits.budget (R.rule held.old.cpu.rule) → HasFailedAt limits.point failure held.old → slice_get failure.ring chance.index ≡ Some checkpoint
        → NotesBy failure limits.point (record { checkpoint = checkpoint; env = chance.env } ∷ []) tries.old.items tries.new.items result }
    ensures kept { KeepsUntried held.old held.new }
    ensures ledger { KeepsLedger held.old.replies held.new.replies }
    ensures least { steps.old ≤ steps.new }
{
    let mut own = Vec::new(held.alloc);
    match held.attempt(chance, limits, &mut own, steps) {
        Ok(tried) => {
            let checkpoint = held.cpu.taken_at(chance.index);
            note(
                tries,
                Try {
                    checkpoint,
                    env: chance.env,
                    tried,
                },
            )
        }
        Err(e) => Err(e),
    }
}

// Tries a checkpoint in each environment.
fn examine_all<R: AccessRule, L: Ledger>(
    held: &mut Recoverable<R>,
    index: u32,
    limits: TrialLimits,
    steps: &mut Steps<L>,
    tries: &mut Vec<Try>,
) -> Result<(), AllocError>
    requires failed { CanBeTried limits.budget (R.rule held.old.cpu.rule) limits.point held.old }
    requires within { index < length held.old.cpu.slots.saved }
    ensures notes { (failure : Failure) (checkpoint : Path) → IsUnder failure limits.budget (R.rule held.old.cpu.rule) → HasFailedAt limits.point failure held.old → slice_get failure.ring index ≡ Some checkpoint
        → NotesBy failure limits.point (chances_at checkpoint environments) tries.old.items tries.new.items result }
    ensures kept { KeepsUntried held.old held.new }
    ensures ledger { KeepsLedger held.old.replies held.new.replies }
    ensures least { steps.old ≤ steps.new }
{
    'environments: for place in 0..ENVIRONMENTS.len() {
        let env = environment(place);
        match examine_one(held, Chance { index, env }, limits, steps, tries) {
            Ok(()) => {}
            Err(e) => return Err(e),
        }
    }
    Ok(())
}

// Tries all checkpoints, from the newest on, each in each environment, and leaves no trial.
pub(crate) fn examine<R: AccessRule, L: Ledger>(
    held: &mut Recoverable<R>,
    limits: TrialLimits,
    steps: &mut Steps<L>,
    tries: &mut Vec<Try>,
) -> Result<(), AllocError>
    requires failed { CanBeTried limits.budget (R.rule held.old.cpu.rule) limits.point held.old }
    requires none { tries.old.items ≡ [] }
    ensures table { (failure : Failure) → IsUnder failure limits.budget (R.rule held.old.cpu.rule) → HasFailedAt limits.point failure held.old
        → TableBy failure limits.point tries.new.items result }
    ensures kept { KeepsUntried held.old held.new }
    ensures ledger { LeavesNoTrial held.old.replies held.new.replies result }
    ensures least { steps.old ≤ steps.new }
{
    let count = held.cpu.checkpoints();
    'checkpoints: for index in 0..count {
        match examine_all(held, index, limits, steps, tries) {
            Ok(()) => {}
            Err(e) => return Err(e),
        }
    }
    held.replies.discard();
    Ok(())
}
