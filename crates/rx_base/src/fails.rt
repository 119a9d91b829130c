// Which calls of an object in memory are to fail.
ghost use Rattle.std.specs.Prelude.{◌≡◌};
ghost use Rattle.rx_base.specs.Planned.{Plan, first_plan, fails_next, after_call, after_fault};

use std::marker::Model;

/// The numbers of the calls that are to fail, counted from 1, and how many were made and failed so far.
#[derive(Drop)]
pub struct Fails {
    numbers: Vec<u64>,
    calls: u64,
    faults: u64,
}

impl Model for Fails {
    ghost use Rattle.rx_base.specs.Planned.{Plan};

    ghost Value = { Plan };

    ghost view = { λ f. record { numbers = f.numbers.items; calls = f.calls; faults = f.faults } };
}

impl Fails {
    /// No call was made yet.
    pub fn make(numbers: Vec<u64>) -> Fails
        ensures { result ≡ first_plan numbers.items }
    {
        Fails {
            numbers,
            calls: 0,
            faults: 0,
        }
    }

    /// Counts a call, and answers whether it is to fail.
    pub fn call_fails(&mut self) -> bool
        ensures answer { result ≡ fails_next self.old }
        ensures plan { self.new ≡ after_call self.old }
    {
        self.calls = self.calls.saturating_add(1);
        let fails = self.numbers.contains(&self.calls);
        if fails {
            self.faults = self.faults.saturating_add(1);
        }
        fails
    }

    /// How many calls were made.
    pub fn calls(&self) -> u64
        ensures { result ≡ self.now.calls }
    {
        self.calls
    }

    /// Counts a fault that isn't one of the list.
    pub fn fault(&mut self)
        ensures { self.new ≡ after_fault self.old }
    {
        self.faults = self.faults.saturating_add(1);
    }
}
