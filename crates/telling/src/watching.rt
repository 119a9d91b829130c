// A watch that lets a teller know what is seen at a failure.
use crate::sight;
use crate::teller::Teller;
use guest_space::AccessRule;
use recovery::{Recoverable, Watch};
use rx_base::Steps;
use std::alloc::AllocError;
use std::sync::ledger::Ledger;

/// A watch that lets a teller know what is seen at each failure, before another watch looks. In all that a clause says it is that one.
#[derive(Drop)]
pub struct TellingWatch<'a, T: Teller, W: Watch> {
    teller: &'a T,
    watch: W,
}

impl<'a, T: Teller, W: Watch> TellingWatch<'a, T, W> {
    ghost use Rattle.std.specs.Prelude.{◌≡◌};

    /// The teller is told, and then this watch looks.
    pub fn make(teller: &'a T, watch: W) -> TellingWatch<'a, T, W>
        ensures { result.watch ≡ watch }
    {
        TellingWatch { teller, watch }
    }

    /// The watch that looks behind the teller.
    pub fn inner(&self) -> &W
        ensures { result.now ≡ self.now.watch }
    {
        &self.watch
    }
}

impl<'a, T: Teller, W: Watch> Watch for TellingWatch<'a, T, W> {
    ghost ran = { λ w. W.ran w.watch };

    ghost tables = { λ w. W.tables w.watch };

    fn failed<R: AccessRule, L: Ledger>(
        &mut self,
        held: &mut Recoverable<R>,
        point: u64,
        budget: u64,
        steps: &mut Steps<L>,
    ) -> Result<(), AllocError> {
        if self.teller.wants() {
            let seen = sight(&held.cpu, &held.log, point);
            self.teller.failed(&seen);
        }
        self.watch.failed(held, point, budget, steps)
    }
}
