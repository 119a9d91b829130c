// A watch that counts the failures at which it looks, and tells no tables.
ghost use Rattle.std.specs.Prelude.{None};

use guest_space::AccessRule;
use recovery::{Recoverable, Watch};
use rx_base::Steps;
use std::alloc::AllocError;
use std::sync::ledger::Ledger;

#[derive(Clone, Copy, Debug)]
pub(crate) struct FailureCount {
    pub(crate) failures: u64,
}

impl Watch for FailureCount {
    ghost ran = { λ _. 0 };

    ghost tables = { λ _. None };

    fn failed<R: AccessRule, L: Ledger>(
        &mut self,
        held: &mut Recoverable<R>,
        _point: u64,
        _budget: u64,
        _steps: &mut Steps<L>,
    ) -> Result<(), AllocError> {
        self.failures = self.failures.saturating_add(1);
        held.replies.discard();
        Ok(())
    }
}
