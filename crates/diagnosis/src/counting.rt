// How many instructions were counted, for proofs alone. It takes no memory, and nothing is done for it at run time.
ghost use Rattle.std.specs.Prelude.{◌≡◌, ◌+◌, ◌-◌, ℕ};
ghost use Rattle.std.specs.Borrow.{ftrue};
ghost use Rattle.std.specs.Coded.{coded_ℕ};

use rx_base::Steps;
use std::marker::Model;
use std::sync::ledger::Ledger;

// What tells a number of instructions.
pub(crate) trait Counts {
    ghost count: { Self → ℕ };
}

// A number of instructions.
#[derive(Drop)]
pub(crate) struct Count {
    pub(crate) ghost number: { ℕ } by { coded_ℕ },
}

impl Model for Count {
    ghost also_owns = { λ _. ftrue };
}

impl Count {
    // The number that this value tells.
    pub(crate) fn of<X: Counts>(_x: &X) -> Count
        ensures { result.number ≡ X.count _x.now }
    {
        Count {}
    }
}

// Nothing was counted yet.
#[derive(Drop)]
pub(crate) struct NoSteps;

impl Counts for NoSteps {
    ghost count = { λ _. 0 };
}

impl<L: Ledger> Counts for Steps<L> {
    ghost count = { λ steps. steps };
}

// What was counted before, and what a counter has counted since it stood at a number.
#[derive(Drop)]
pub(crate) struct Since<'a, L: Ledger> {
    pub(crate) before: &'a Count,
    pub(crate) began: &'a Count,
    pub(crate) steps: &'a Steps<L>,
}

impl<'a, L: Ledger> Counts for Since<'a, L> {
    ghost count = { λ since. since.before.now.number + (since.steps.now - since.began.now.number) };
}
