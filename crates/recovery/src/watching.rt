// Who else looks at a failure.
ghost use Rattle.std.specs.Prelude.{◌≡◌, ◌+◌, ◌≤◌, ℕ, List, Option, None};
ghost use Rattle.session_notes.specs.declared.episode.Try.{Try};
ghost use Rattle.recovery.specs.Sessions.{Failure, IsUnder};
ghost use Rattle.recovery.specs.Recoverables.{CanBeTried, HasFailedAt, KeepsUntried};
ghost use Rattle.recovery.specs.Walking.{LeavesNoTrial};
ghost use Rattle.recovery.specs.Watching.{LooksBy};

use crate::Recoverable;
use guest_space::AccessRule;
use rx_base::Steps;
use std::alloc::AllocError;
use std::sync::ledger::Ledger;

/// Something that looks at each failure, once, before trials are made of it.
pub trait Watch {
    /// How many instructions it has counted so far.
    ghost ran: { Self → ℕ };

    /// The tables that it tells, if it tells any: one of each failure at which it looked.
    ghost tables: { Self → Option (List (List Try)) };

    /// A program failed with so many items taken, as `walk` expects it, and may be run from its checkpoints as often as one likes.
    /// No trial is left in the replies, and the guest may stand anywhere. All else of `held` stays as it is. `steps` counts the guest's instructions. A
    /// watch that tells its tables tells one more then: a try for each checkpoint in each environment, in the order of a walk, with the result that it has.
    ///
    /// # Errors
    ///
    /// `AllocError` where memory runs out. A trial may be left then. No table more is told.
    fn failed<R: AccessRule, L: Ledger>(
        &mut self,
        held: &mut Recoverable<R>,
        point: u64,
        budget: u64,
        steps: &mut Steps<L>,
    ) -> Result<(), AllocError>
        requires failed { CanBeTried budget (R.rule held.old.cpu.rule) point held.old }
        ensures kept { KeepsUntried held.old held.new }
        ensures ledger { LeavesNoTrial held.old.replies held.new.replies result }
        ensures counted { steps.new + ran self.old ≡ steps.old + ran self.new }
        ensures least { ran self.old ≤ ran self.new }
        ensures tells { (failure : Failure) → IsUnder failure budget (R.rule held.old.cpu.rule) → HasFailedAt point failure held.old
            → LooksBy failure point (tables self.old) (tables self.new) result };
}

/// Nobody looks.
#[derive(Clone, Copy, Debug, PartialEq, Eq)]
pub struct NoWatch;

impl Watch for NoWatch {
    ghost ran = { λ _. 0 };

    ghost tables = { λ _. None };

    fn failed<R: AccessRule, L: Ledger>(
        &mut self,
        held: &mut Recoverable<R>,
        _point: u64,
        _budget: u64,
        _steps: &mut Steps<L>,
    ) -> Result<(), AllocError> {
        held.replies.discard();
        Ok(())
    }
}
