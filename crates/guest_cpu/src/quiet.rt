// Instructions of a guest that are no calls, done one after another.
ghost use Rattle.std.specs.Prelude.{◌≡◌, ◌+◌};
ghost use Rattle.guest_space.specs.Windows.{AreWindows};
ghost use Rattle.guest_cpu.specs.Standing.{AreCounted};
ghost use Rattle.guest_cpu.specs.Quiet.{RanOn};

use crate::guest_core::Core;
use guest_space::{AccessRule, GuestSpace, Windows};
use rv_exec::run_on;
use rx_base::Steps;
use std::sync::ledger::Ledger;

/// Does at most so many instructions that are no calls. It may stop before any of them: `advance` says what comes there.
pub fn go_quietly<R: AccessRule, L: Ledger>(
    core: &mut Core,
    space: &mut GuestSpace,
    rule: &R,
    most: u64,
    steps: &mut Steps<L>,
    windows: &mut Windows,
)
    requires counts { AreCounted core.old.marks }
    requires holds { AreWindows space.old windows.old }
    ensures holds { AreWindows space.new windows.new }
    ensures ran { RanOn (R.rule rule.now) most core.old space.old core.new space.new }
    ensures counted { steps.new + core.old.marks.steps ≡ steps.old + core.new.marks.steps }
{
    // More can't be counted.
    let Some(_) = core.marks.steps.checked_add(most) else {
        return;
    };
    let done = run_on(
        &mut core.regs,
        space,
        &core.book,
        rule,
        most,
        steps,
        windows,
    );
    core.marks.since += done;
    core.marks.steps += done;
}
