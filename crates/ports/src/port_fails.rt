// Which calls of a port in memory are to fail.
ghost use Rattle.std.specs.Prelude.{◌≡◌};
ghost use Rattle.ports.specs.PortPlans.{PortPlan, first_port_plan, is_kind, is_to_fail, made, port_fails, raised, after_port_call};

use crate::PortCall;
use std::marker::Model;

/// The calls that are to fail, each by its kind and its number among the calls of that kind, counted from 1; how many of each
/// kind were made, and how many failed.
#[derive(Drop)]
pub struct PortFails {
    fails: Vec<(PortCall, u64)>,
    binds: u64,
    waits: u64,
    accepts: u64,
    takes: u64,
    gives: u64,
    faults: u64,
    connection_faults: u64,
}

impl Model for PortFails {
    ghost use Rattle.ports.specs.PortPlans.{PortPlan};

    ghost Value = { PortPlan };

    ghost view = { λ f. record {
      fails = f.fails.items;
      binds = f.binds;
      waits = f.waits;
      accepts = f.accepts;
      takes = f.takes;
      gives = f.gives;
      faults = f.faults;
      connection_faults = f.connection_faults;
    } };
}

// Whether two calls are of one kind.
fn is_kind(call: PortCall, other: PortCall) -> bool
    ensures { result ≡ is_kind call other }
{
    match (call, other) {
        (PortCall::Bind, PortCall::Bind) => true,
        (PortCall::Wait, PortCall::Wait) => true,
        (PortCall::Accept, PortCall::Accept) => true,
        (PortCall::Take, PortCall::Take) => true,
        (PortCall::Give, PortCall::Give) => true,
        _ => false,
    }
}

// Whether the call of a kind with a number is one of these.
fn is_to_fail(call: PortCall, number: u64, fails: &[(PortCall, u64)]) -> bool
    ensures { result ≡ is_to_fail call number fails.now }
{
    'fails: for fail in fails {
        if fail.1 == number && is_kind(fail.0, call) {
            return true;
        }
    }
    false
}

// One more, where something failed.
fn raised(fails: bool, count: u64) -> u64
    ensures { result ≡ raised fails count }
{
    if fails {
        count.saturating_add(1)
    } else {
        count
    }
}

impl PortFails {
    /// No call was made yet.
    pub fn make(fails: Vec<(PortCall, u64)>) -> PortFails
        ensures { result ≡ first_port_plan fails.items }
    {
        PortFails {
            fails,
            binds: 0,
            waits: 0,
            accepts: 0,
            takes: 0,
            gives: 0,
            faults: 0,
            connection_faults: 0,
        }
    }

    // How many calls of a kind were made.
    fn made(&self, call: PortCall) -> u64
        ensures { result ≡ made call self.now }
    {
        match call {
            PortCall::Bind => self.binds,
            PortCall::Wait => self.waits,
            PortCall::Accept => self.accepts,
            PortCall::Take => self.takes,
            PortCall::Give => self.gives,
        }
    }

    /// Counts a call, and answers whether it fails: it is to fail, or it fails besides.
    pub fn call_fails(&mut self, call: PortCall, besides: bool) -> bool
        ensures answer { result ≡ port_fails call besides self.old }
        ensures plan { self.new ≡ after_port_call call (port_fails call besides self.old) self.old }
    {
        let number = self.made(call).saturating_add(1);
        let fails = besides || is_to_fail(call, number, &self.fails);
        match call {
            PortCall::Bind => {
                self.binds = number;
                self.faults = raised(fails, self.faults);
            }
            PortCall::Wait => {
                self.waits = number;
                self.faults = raised(fails, self.faults);
            }
            PortCall::Accept => {
                self.accepts = number;
                self.faults = raised(fails, self.faults);
            }
            PortCall::Take => {
                self.takes = number;
                self.connection_faults = raised(fails, self.connection_faults);
            }
            PortCall::Give => {
                self.gives = number;
                self.connection_faults = raised(fails, self.connection_faults);
            }
        }
        fails
    }
}
