// An examiner that lets a teller know.
ghost use Rattle.std.specs.Prelude.{◌≡◌, []};
ghost use Rattle.diagnosis.specs.Examined.{ran_of, tables_of, tables_told};

use diagnosis::Examiner;
use guest_space::AccessRule;
use recovery::{Recoverable, Watch};
use rx_base::Steps;
use session_notes::Tries;
use std::alloc::{AllocError, Global};
use std::sync::ledger::Ledger;
use telling::{Teller, TellingWatch, helps_of};

/// An examiner that lets a teller know of each failure at which it looks, and of what helps there. In all that a clause says it is that examiner.
#[derive(Drop)]
pub struct TellingExaminer<'a, T: Teller> {
    teller: &'a T,
    examiner: TellingWatch<'a, T, Examiner>,
}

impl<'a, T: Teller> TellingExaminer<'a, T> {
    /// It has looked at no failure yet.
    pub fn make(alloc: Global, teller: &'a T) -> TellingExaminer<'a, T>
        ensures tables { tables_of result.examiner.watch ≡ [] }
        ensures ran { ran_of result.examiner.watch ≡ 0 }
    {
        TellingExaminer {
            teller,
            examiner: TellingWatch::make(teller, Examiner::make(alloc)),
        }
    }

    /// The tables, one of each failure at which it looked, in their order.
    pub fn tables(&self) -> &[Tries]
        ensures { result.now ≡ tables_of self.now.examiner.watch }
    {
        self.examiner.inner().tables()
    }
}

impl<'a, T: Teller> Watch for TellingExaminer<'a, T> {
    ghost ran = { λ w. ran_of w.examiner.watch };

    ghost tables = { λ w. tables_told w.examiner.watch };

    fn failed<R: AccessRule, L: Ledger>(
        &mut self,
        held: &mut Recoverable<R>,
        point: u64,
        budget: u64,
        steps: &mut Steps<L>,
    ) -> Result<(), AllocError> {
        self.examiner.failed(held, point, budget, steps)?;
        if let Some(tries) = self.tables().last() {
            self.teller.tried(helps_of(tries.as_slice()));
        }
        Ok(())
    }
}
