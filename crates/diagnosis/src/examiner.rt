// A watch that tries the whole table of each failure.
ghost use Rattle.diagnosis.specs.Examined.{KeepsTable};

use crate::counting::{Count, NoSteps, Since};
use crate::examining::examine;
use guest_space::AccessRule;
use recovery::{Recoverable, TrialLimits, Watch};
use rx_base::Steps;
use session_notes::{Tries, Try};
use std::alloc::{AllocError, Global};
use std::sync::ledger::Ledger;

/// A watch that tries the whole table of each failure: each checkpoint, from the newest to the oldest, in each of five environments. It
/// gives up each trial, and keeps what came of it.
#[derive(Drop)]
pub struct Examiner {
    alloc: Global,
    tables: Vec<Tries>,
    count: Count,
}

// Keeps a table behind those before it.
fn keep_table(tables: &mut Vec<Tries>, tries: Vec<Try>) -> Result<(), AllocError>
    ensures { KeepsTable tables.old.items tables.new.items tries.items result }
{
    match tables.push(Tries::from_vec(tries)) {
        Ok(()) => Ok(()),
        Err(_) => Err(AllocError),
    }
}

impl Examiner {
    ghost use Rattle.std.specs.Prelude.{◌≡◌, []};
    ghost use Rattle.diagnosis.specs.Examined.{ran_of, tables_of};

    /// It has looked at no failure yet. It takes no memory.
    pub fn make(alloc: Global) -> Examiner
        ensures tables { tables_of result ≡ [] }
        ensures ran { ran_of result ≡ 0 }
    {
        Examiner {
            alloc,
            tables: Vec::new(alloc),
            count: Count::of(&NoSteps),
        }
    }

    /// The tables, one of each failure at which it looked, in their order.
    pub fn tables(&self) -> &[Tries]
        ensures { result.now ≡ tables_of self.now }
    {
        &self.tables
    }
}

impl Watch for Examiner {
    ghost use Rattle.diagnosis.specs.Examined.{ran_of, tables_told};

    ghost ran = { ran_of };

    ghost tables = { tables_told };

    fn failed<R: AccessRule, L: Ledger>(
        &mut self,
        held: &mut Recoverable<R>,
        point: u64,
        budget: u64,
        steps: &mut Steps<L>,
    ) -> Result<(), AllocError> {
        let mut tries = Vec::new(self.alloc);
        let began = Count::of(&*steps);
        let examined = examine(held, TrialLimits { point, budget }, steps, &mut tries);
        let count = Count::of(&Since {
            before: &self.count,
            began: &began,
            steps,
        });
        self.count = count;
        match examined {
            Ok(()) => keep_table(&mut self.tables, tries),
            Err(e) => Err(e),
        }
    }
}
