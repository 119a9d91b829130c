// A recovery: what is tried after a failure, and the trial that is adopted.
ghost use Rattle.std.specs.Prelude.{◌≡◌, ◌++◌, ◌+◌, ◌-◌, ◌<◌, ◌≤◌, length, IfOk};
ghost use Rattle.run_history.specs.Served.{Path};
ghost use Rattle.recovery.specs.Sessions.{Failure, IsUnder};
ghost use Rattle.recovery.specs.Trying.{StandsOn};
ghost use Rattle.recovery.specs.Walking.{IsEpisode, IsOfOneRun, StaysBy, WalksBy};
ghost use Rattle.recovery.specs.Recovering.{AdoptsBy, WatchedBy};
ghost use Rattle.recovery.specs.Recoverables.{CanBeRecovered, CanBeTried, HasFailedAt, held_of, IsRecoveredBy, IsToRecover, KeepsHeld, KeepsUntried, LeavesHeldBy};

use crate::{Adopted, FailureSite, Recoverable, Walked, Watch};
use block_book::Choice;
use guest_space::AccessRule;
use rx_base::Steps;
use session_notes::Episode;
use std::alloc::{AllocError, Global};
use std::sync::ledger::Ledger;

/// A failure and what was tried after it, and what was adopted, if a trial survived.
#[derive(Debug, Drop)]
pub struct Recovered {
    pub episode: Episode,
    pub adopted: Option<Adopted>,
}

// Some first answers of the allocator, and others behind them.
fn joined(alloc: Global, first: &[Choice], others: &[Choice]) -> Result<Vec<Choice>, AllocError>
    ensures { IfOk result (λ all. all.items ≡ first.now ++ others.now) }
{
    let mut all = Vec::new(alloc);
    all.extend_from_slice(first)?;
    all.extend_from_slice(others)?;
    Ok(all)
}

impl<R: AccessRule> Recoverable<R> {
    // Makes the trial that survived the session's run: of the answers of the allocator behind the recorded ones as many as it has before its own stay,
    // and its own come behind them. Checkpoints that are newer than its own, the one at this index, are dropped.
    fn adopt(&mut self, index: u32, own: &[Choice]) -> Result<(), AllocError>
        requires within { index < length self.old.cpu.slots.saved }
        requires base { StandsOn self.old.cpu index }
        requires own { self.old.recorded + length own.now ≤ self.old.cpu.slots.live.guest.machine.allocations }
        requires first { self.old.cpu.slots.live.guest.machine.allocations ≤ self.old.recorded + length self.old.choices.items + length own.now }
        ensures adopts { AdoptsBy index own.now (held_of self.old) (held_of self.new) result }
        ensures rest { self.new ≡ record self.old { cpu = self.new.cpu; choices = self.new.choices } }
    {
        let first = (self.cpu.marks().choices - own.len() as u64 - self.recorded) as usize;
        match joined(self.alloc, &self.choices[..first], own) {
            Ok(all) => {
                ckpt_ring::drop_newer(&mut self.cpu, index);
                self.choices = all;
                Ok(())
            }
            Err(e) => Err(e),
        }
    }

    // The watch looks at a failure, and then it is tried to come past it, by `walk`.
    fn walk_watched<W: Watch, L: Ledger>(
        &mut self,
        site: FailureSite,
        budget: u64,
        own: &mut Vec<Choice>,
        watch: &mut W,
        steps: &mut Steps<L>,
    ) -> Result<Walked, AllocError>
        requires failed { CanBeTried budget (R.rule self.old.cpu.rule) site.point self.old }
        ensures walks { (failure : Failure) → IsUnder failure budget (R.rule self.old.cpu.rule) → HasFailedAt site.point failure self.old
            → WalksBy failure site.point self.new.cpu own.new.items self.old.replies self.new.replies (W.ran watch.new + steps.old) (W.ran watch.old + steps.new) result }
        ensures watched { (failure : Failure) → IsUnder failure budget (R.rule self.old.cpu.rule) → HasFailedAt site.point failure self.old
            → WatchedBy failure site.point (W.tables watch.old) (W.tables watch.new) result }
        ensures episode { IfOk result (λ walked. IsEpisode site walked.episode) }
        ensures kept { KeepsUntried self.old self.new }
        ensures ledger { StaysBy self.old.replies self.new.replies result }
        ensures least { W.ran watch.new + steps.old ≤ W.ran watch.old + steps.new }
    {
        if let Err(e) = watch.failed(self, site.point, budget, steps) {
            return Err(e);
        }
        self.walk(site, budget, own, steps)
    }

    /// Tries to come past a failure, by `walk`, and adopts the trial that survives, if one does. The episode tells where and why the program
    /// failed, and of all trials. Of the program's answers of the allocator the first `recorded` ones, none of which is behind the oldest checkpoint,
    /// aren't in `choices`.
    ///
    /// Where a trial is adopted, the guest stands where it has come, at its request for the item behind the failure, or at its end;
    /// `choices` are its answers of the allocator behind the first `recorded` ones, its sends are the survivor's in the replies, and of the checkpoints
    /// those stand that aren't newer than its own. Where none survives the guest may stand anywhere, and all else is as it was. What was passed stays.
    /// The watch looks at the failure first. `steps` counts the instructions of all trials, and those of the watch.
    ///
    /// # Errors
    ///
    /// `AllocError` where memory runs out. Then trials of the first chances were made, none of which was adopted, and one more may be begun. The guest
    /// may stand anywhere; `choices`, the checkpoints and what was passed are as they were. The replies have the sends of the run that failed, beside a
    /// trial that may be left; or, where memory ran out behind the walk, those of the trial that survived.
    pub fn recover<W: Watch, L: Ledger>(
        &mut self,
        site: FailureSite,
        budget: u64,
        watch: &mut W,
        steps: &mut Steps<L>,
    ) -> Result<Recovered, AllocError>
        requires can { CanBeRecovered budget (R.rule self.old.cpu.rule) site self.old }
        ensures recovers { (failure : Failure) (begun : Path) → IsUnder failure budget (R.rule self.old.cpu.rule) → IsToRecover site failure self.old
            → IsRecoveredBy failure begun site.cause self.old self.new (W.ran watch.new + steps.old) (W.ran watch.old + steps.new) result }
        ensures watched { (failure : Failure) → IsUnder failure budget (R.rule self.old.cpu.rule) → IsToRecover site failure self.old
            → WatchedBy failure site.point (W.tables watch.old) (W.tables watch.new) result }
        ensures left { LeavesHeldBy self.old self.new result }
        ensures one_run { (failure : Failure) → IsUnder failure budget (R.rule self.old.cpu.rule) → IsToRecover site failure self.old
            → IsOfOneRun failure site.point self.new.replies }
        ensures kept { KeepsHeld self.old self.new }
        ensures least { W.ran watch.new + steps.old ≤ W.ran watch.old + steps.new }
    {
        let mut own = Vec::new(self.alloc);
        match self.walk_watched(site, budget, &mut own, watch, steps) {
            Ok(walked) => match walked.adopted {
                None => Ok(Recovered {
                    episode: walked.episode,
                    adopted: None,
                }),
                Some(adopted) => match self.adopt(adopted.index, own.as_slice()) {
                    Ok(()) => Ok(Recovered {
                        episode: walked.episode,
                        adopted: Some(adopted),
                    }),
                    Err(e) => Err(e),
                },
            },
            Err(e) => Err(e),
        }
    }
}
