// A trial: to go on from a checkpoint in an environment.
ghost use Rattle.std.specs.Prelude.{◌≡◌, ℕ, ◌<◌, length, Some, slice_get, IfOk, IsSomeAnd, MatchBool};
ghost use Rattle.item_log.specs.Log.{Log};
ghost use Rattle.reply_ledger.specs.Trials.{discarded};
ghost use Rattle.session_notes.specs.Survival.{survives};
ghost use Rattle.alloc_env.specs.declared.env.Env.{Env};
ghost use Rattle.run_history.specs.Served.{Path};
ghost use Rattle.recovery.specs.Sessions.{Failure, FailedAt, IsUnder};
ghost use Rattle.recovery.specs.Going.{IsTrying};
ghost use Rattle.recovery.specs.Trying.{KeepsLedger, KeepsSaved, StandsOn, CountsTrial, TriesBy};
ghost use Rattle.recovery.specs.Recoverables.{CanBeTried, HasFailedAt, KeepsUntried};

use crate::Recoverable;
use alloc_env::Env;
use block_book::Choice;
use ckpt_ring::Snapshot;
use guest_cpu::Cpu;
use guest_space::AccessRule;
use item_log::ItemLog;
use reply_ledger::Replies;
use rx_base::Steps;
use session_notes::Tried;
use std::alloc::AllocError;
use std::sync::ledger::Ledger;

/// Where a trial begins, and how it is run.
#[derive(Clone, Copy, Debug)]
pub struct Chance {
    /// The index of its checkpoint, where 0 is the newest one.
    pub index: u32,
    /// Its environment.
    pub env: Env,
}

/// How far a trial goes.
#[derive(Clone, Copy, Debug)]
pub struct TrialLimits {
    /// How many items the program had taken where it failed: a trial has come past that where it asks for one more.
    pub point: u64,
    /// How many instructions may come between two items.
    pub budget: u64,
}

// The guest stands on a checkpoint, and a trial begins there.
fn begin<R: AccessRule>(
    cpu: &mut Cpu<R>,
    index: u32,
    replies: &mut Replies,
    choices: &mut Vec<Choice>,
)
    requires failed { (point : ℕ) × (items : Log) × (failure : Failure) × FailedAt point failure cpu.old items replies.old }
    requires within { index < length cpu.old.slots.saved }
    ensures begins { (point : ℕ) (items : Log) (failure : Failure) (checkpoint : Path) (env : Env) → FailedAt point failure cpu.old items replies.old → slice_get failure.ring index ≡ Some checkpoint
        → IsTrying failure point checkpoint env cpu.new choices.new.items items replies.new }
    ensures saved { KeepsSaved cpu.old cpu.new }
    ensures ledger { KeepsLedger replies.old replies.new }
    ensures stands { StandsOn cpu.new index }
    ensures live { IsSomeAnd (slice_get cpu.old.slots.saved index) (λ one. cpu.new.slots.live ≡ one.state) }
{
    replies.discard();
    cpu.restore(index);
    cpu.sound();
    replies.begin_trial(cpu.marks().sends);
    choices.clear();
}

// A trial that doesn't survive is given up.
fn settle(tried: Tried, replies: &mut Replies)
    ensures { MatchBool (survives tried) (replies.new ≡ replies.old) (replies.new ≡ discarded replies.old) }
{
    if !tried.survives() {
        replies.discard();
    }
}

impl<R: AccessRule> Recoverable<R> {
    /// Goes on from a checkpoint in an environment, with the items that were received, up to a result: whether the program comes past the failure
    /// that `limits` tells. What malloc answered since the checkpoint stands in `own`. Where the trial survives, the replies have its sends as a
    /// trial, which `Replies::adopt` makes the survivor's; else no trial is left there. All else of the replies stays, whatever is answered.
    ///
    /// The guest stands where the trial has come, and counts as written the pages that the trial wrote. `steps` counts the instructions.
    ///
    /// # Errors
    ///
    /// `AllocError` where memory runs out. The guest then stands where the trial had come, and a trial may be left in the replies. `steps` counts
    /// its instructions up to there.
    pub fn attempt<L: Ledger>(
        &mut self,
        chance: Chance,
        limits: TrialLimits,
        own: &mut Vec<Choice>,
        steps: &mut Steps<L>,
    ) -> Result<Tried, AllocError>
        requires failed { CanBeTried limits.budget (R.rule self.old.cpu.rule) limits.point self.old }
        requires within { chance.index < length self.old.cpu.slots.saved }
        ensures tries { (failure : Failure) (checkpoint : Path) → IsUnder failure limits.budget (R.rule self.old.cpu.rule) → HasFailedAt limits.point failure self.old → slice_get failure.ring chance.index ≡ Some checkpoint
            → TriesBy failure limits.point checkpoint chance.env self.new.cpu own.new.items self.new.replies result }
        ensures kept { KeepsUntried self.old self.new }
        ensures ledger { KeepsLedger self.old.replies self.new.replies }
        ensures stands { IfOk result (λ _. StandsOn self.new.cpu chance.index) }
        ensures counts { CountsTrial (slice_get self.old.cpu.slots.saved chance.index) self.new.cpu steps.old steps.new }
    {
        begin(&mut self.cpu, chance.index, &mut self.replies, own);
        match self.go_on(chance.env, limits, own, steps) {
            Ok(tried) => {
                settle(tried, &mut self.replies);
                Ok(tried)
            }
            Err(e) => Err(e),
        }
    }
}
