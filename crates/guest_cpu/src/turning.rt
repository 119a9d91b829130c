// One instruction of a guest, and one in an environment.
ghost use Rattle.std.specs.Prelude.{◌≡◌, ◌+◌};
ghost use Rattle.guest_space.specs.Space.{flat};
ghost use Rattle.guest_space.specs.Windows.{AreWindows};
ghost use Rattle.rv_exec.specs.Stepping.{limits_of};
ghost use Rattle.guest_cpu.specs.Standing.{standing, CanCount, turn};
ghost use Rattle.guest_cpu.specs.Turns.{TurnsBy, Keeps, KeepsTurn, Rises, MetLasts, MetStays, HasHeap};
ghost use Rattle.guest_cpu.specs.Meeting.{meeting};

use crate::Event;
use crate::calling::{allocate, free, meet_call};
use crate::event::Met;
use crate::guest_core::Core;
use alloc_env::Env;
use guest_space::{AccessRule, GuestSpace, Windows};
use run_history::Cause;
use rv_exec::{next_instr, step};
use rv_isa::Instr;
use rx_base::Steps;
use std::alloc::{AllocError, Global};
use std::sync::ledger::Ledger;

/// Does one instruction under a rule, up to what the allocator is asked. Memory is taken for a send's bytes alone, before
/// anything changes.
pub fn meet<R: AccessRule, L: Ledger>(
    alloc: Global,
    core: &mut Core,
    space: &mut GuestSpace,
    rule: &R,
    steps: &mut Steps<L>,
) -> Result<Option<Met>, AllocError>
    requires counts { CanCount core.old.marks }
    ensures turned { TurnsBy Met.Emits (meeting (R.rule rule.now) (standing core.old (flat space.old))) core.old space.old result core.new space.new }
    ensures keeps { Keeps core.old core.new }
    ensures rises { Rises core.old result core.new }
    ensures lasts { MetLasts result core.old space.old core.new space.new }
    ensures stays { MetStays result space.old space.new }
    ensures counted { steps.new + core.old.marks.steps ≡ steps.old + core.new.marks.steps }
{
    let instr = match next_instr(&core.regs, space) {
        Ok(instr) => instr,
        Err(cause) => return Ok(Some(Met::Failed(cause))),
    };
    if let Instr::Ecall = instr {
        return meet_call(alloc, core, space, rule, steps);
    }
    match step(&mut core.regs, space, &core.book, rule, &instr, steps) {
        Ok(()) => {
            core.count();
            Ok(None)
        }
        Err(cause) => Ok(Some(Met::Failed(cause))),
    }
}

/// Does one instruction in an environment, or meets an event. Hang is tested first. The windows are forgotten where the memory
/// may have changed.
#[inline(never)]
pub fn advance<R: AccessRule, L: Ledger>(
    alloc: Global,
    core: &mut Core,
    space: &mut GuestSpace,
    rule: &R,
    env: Env,
    budget: u64,
    steps: &mut Steps<L>,
    windows: &mut Windows,
) -> Result<Option<Event>, AllocError>
    requires heap { HasHeap core.old space.old }
    requires counts { CanCount core.old.marks }
    requires holds { AreWindows space.old windows.old }
    ensures holds { AreWindows space.new windows.new }
    ensures turned { TurnsBy Event.Emits (turn (limits_of budget (R.rule rule.now)) env (standing core.old (flat space.old))) core.old space.old result core.new space.new }
    ensures keeps { KeepsTurn budget core.old result core.new }
    ensures counted { steps.new + core.old.marks.steps ≡ steps.old + core.new.marks.steps }
{
    if core.marks.since >= budget {
        return Ok(Some(Event::Failed(Cause::Hang)));
    }
    match meet(alloc, core, space, rule, steps) {
        Ok(None) => {
            windows.forget();
            Ok(None)
        }
        Ok(Some(Met::Asks)) => Ok(Some(Event::Asks)),
        Ok(Some(Met::Emits(conn, bytes))) => Ok(Some(Event::Emits(conn, bytes))),
        Ok(Some(Met::Allocates(ask))) => {
            windows.forget();
            Ok(Some(allocate(core, space, env, ask, steps)))
        }
        Ok(Some(Met::Frees(at))) => Ok(free(core, env, at, steps)),
        Ok(Some(Met::Exits(code))) => {
            windows.forget();
            Ok(Some(Event::Exits(code)))
        }
        Ok(Some(Met::Failed(cause))) => {
            windows.forget();
            Ok(Some(Event::Failed(cause)))
        }
        Err(e) => {
            windows.forget();
            Err(e)
        }
    }
}
