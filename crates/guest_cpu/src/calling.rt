// One call of a guest.
ghost use Rattle.std.specs.Prelude.{◌≡◌, ◌-◌, ◌+◌, ◌^◌, ◌<◌, ◌≤◌, List, Option, Some, None, Ok, true, slice_index};
ghost use Rattle.guest_image.specs.Memory.{Area, permitted};
ghost use Rattle.guest_space.specs.Space.{flat};
ghost use Rattle.rv_isa.specs.declared.instr.Instr.TheVariants.{Ecall};
ghost use Rattle.run_history.specs.Machine.{Ends};
ghost use Rattle.run_history.specs.Call.{may_send};
ghost use Rattle.run_history.specs.Touching.{instruction_at};
ghost use Rattle.guest_cpu.specs.Standing.{standing, AreCounted, machine_of, turn_to};
ghost use Rattle.guest_cpu.specs.Turns.{TurnsBy, Turned, Keeps, Rises, Lasts, MetLasts, HasHeap};
ghost use Rattle.guest_cpu.specs.Meeting.{sends, meeting_of, meeting};
ghost use Rattle.guest_cpu.specs.Calls.{allocating, freeing};

use crate::Event;
use crate::event::Met;
use crate::guest_core::Core;
use crate::placing::set_block;
use alloc_env::{Env, serve_ask, serve_free};
use block_book::Ask;
use call_gate::{Call, MOST_SENT, check_call, read_call};
use guest_space::{AccessRule, GuestSpace};
use run_history::{Cause, kept_count};
use rx_base::{Bytes, Conn, Steps};
use std::alloc::{AllocError, Global};
use std::sync::ledger::Ledger;

/// Does a call, up to what the allocator is asked. At a recv whose buffer may be written the item is asked for.
#[inline(never)]
pub fn meet_call<R: AccessRule, L: Ledger>(
    alloc: Global,
    core: &mut Core,
    space: &GuestSpace,
    rule: &R,
    steps: &mut Steps<L>,
) -> Result<Option<Met>, AllocError>
    requires counts { AreCounted core.old.marks }
    requires room { core.old.marks.steps < 2 ^ 64 - 1 }
    ensures turned { instruction_at (machine_of core.old (flat space.now)) ≡ Some Ecall
        → TurnsBy Met.Emits (meeting (R.rule rule.now) (standing core.old (flat space.now))) core.old space.now result core.new space.now }
    ensures keeps { Keeps core.old core.new }
    ensures rises { Rises core.old result core.new }
    ensures lasts { MetLasts result core.old space.now core.new space.now }
    ensures counted { steps.new + core.old.marks.steps ≡ steps.old + core.new.marks.steps }
{
    let call = match read_call(&core.regs) {
        Ok(call) => call,
        Err(cause) => return Ok(Some(Met::Failed(cause))),
    };
    if let Err(cause) = check_call(&call, space, &core.book, rule, &core.connections) {
        return Ok(Some(Met::Failed(cause)));
    }
    match call {
        Call::Recv { .. } => Ok(Some(Met::Asks)),
        Call::Send { conn, at, len } => send(alloc, core, space, conn, at, len, steps),
        Call::Allocate(ask) => Ok(Some(Met::Allocates(ask))),
        Call::Free { at } => Ok(Some(Met::Frees(at))),
        Call::Exit { code } => Ok(Some(exit(core, code, steps))),
        Call::Assert { code } => Ok(Some(Met::Failed(Cause::AssertFailed(code)))),
    }
}

// A send whose bytes may be read. Memory is taken for them before anything changes.
fn send<L: Ledger>(
    alloc: Global,
    core: &mut Core,
    space: &GuestSpace,
    conn: u32,
    at: u32,
    len: u32,
    steps: &mut Steps<L>,
) -> Result<Option<Met>, AllocError>
    requires permitted { len ≤ 65535 → may_send (machine_of core.old (flat space.now)) conn ≡ true → permitted 4 (flat space.now) at len ≡ true }
    requires counts { AreCounted core.old.marks }
    requires room { core.old.marks.steps < 2 ^ 64 - 1 }
    ensures turned { TurnsBy Met.Emits (meeting_of (Some Ecall) (standing core.old (flat space.now)) (sends (machine_of core.old (flat space.now)) conn at len)) core.old space.now result core.new space.now }
    ensures keeps { Keeps core.old core.new }
    ensures rises { Rises core.old result core.new }
    ensures lasts { MetLasts result core.old space.now core.new space.now }
    ensures counted { steps.new + core.old.marks.steps ≡ steps.old + core.new.marks.steps }
{
    if len > MOST_SENT {
        core.answer(2);
        steps.tick();
        return Ok(None);
    }
    if !core.connections.has(conn) {
        core.answer(1);
        steps.tick();
        return Ok(None);
    }
    if len == 0 {
        core.answer(0);
        steps.tick();
        return Ok(None);
    }
    let bytes = match space.read_bytes(alloc, at, len) {
        Ok(bytes) => bytes,
        Err(e) => return Err(e),
    };
    core.answer(0);
    core.marks.sends += 1;
    steps.tick();
    Ok(Some(Met::Emits(conn as Conn, Bytes::from_vec(bytes))))
}

// The guest ends itself with a code.
fn exit<L: Ledger>(core: &mut Core, code: u32, steps: &mut Steps<L>) -> Met
    requires counts { AreCounted core.old.marks }
    requires room { core.old.marks.steps < 2 ^ 64 - 1 }
    ensures turned { (memory : List Area) → meeting_of (Some Ecall) (standing core.old memory) (Ends code) ≡ Some (turn_to (Some result) (standing core.new memory) None) }
    ensures keeps { Keeps core.old core.new }
    ensures ends { (result ≡ Met.Exits code) × (core.new.ended ≡ Some code) }
    ensures counted { steps.new + core.old.marks.steps ≡ steps.old + core.new.marks.steps }
{
    core.marks.steps += 1;
    core.ended = Some(code);
    steps.tick();
    Met::Exits(code)
}

/// An ask of the allocator in an environment, which answers, or which is bad.
#[inline(never)]
pub fn allocate<L: Ledger>(
    core: &mut Core,
    space: &mut GuestSpace,
    env: Env,
    ask: Ask,
    steps: &mut Steps<L>,
) -> Event
    requires heap { HasHeap core.old space.old }
    requires counts { AreCounted core.old.marks }
    requires room { core.old.marks.steps < 2 ^ 64 - 1 }
    ensures turned { Turned (allocating env (standing core.old (flat space.old)) ask) (Some result) (standing core.new (flat space.new)) space.old space.new }
    ensures keeps { Keeps core.old core.new }
    ensures lasts { Lasts (Ok (Some result)) core.old.ended core.new.ended }
    ensures counted { steps.new + core.old.marks.steps ≡ steps.old + core.new.marks.steps }
{
    core.book.sound();
    let kept = kept_count(ask, &core.book);
    let site = core.site();
    match serve_ask(env, &mut core.book, site, ask) {
        Ok(choice) => {
            set_block(space, choice, kept);
            core.answer(choice.at);
            core.marks.choices += 1;
            steps.tick();
            Event::Chooses(choice)
        }
        Err(_) => Event::Failed(Cause::BadFree),
    }
}

/// Free of the block at an address, in an environment.
pub fn free<L: Ledger>(core: &mut Core, env: Env, at: u32, steps: &mut Steps<L>) -> Option<Event>
    requires asked { at ≡ slice_index core.old.regs.x 10 }
    requires counts { AreCounted core.old.marks }
    requires room { core.old.marks.steps < 2 ^ 64 - 1 }
    ensures turned { (memory : List Area) → freeing env (standing core.old memory) at ≡ Some (turn_to result (standing core.new memory) None) }
    ensures keeps { Keeps core.old core.new }
    ensures rises { Rises core.old (Ok result) core.new }
    ensures lasts { Lasts (Ok result) core.old.ended core.new.ended }
    ensures counted { steps.new + core.old.marks.steps ≡ steps.old + core.new.marks.steps }
{
    let site = core.site();
    match serve_free(env, &mut core.book, site, at) {
        Ok(()) => {
            core.go_on();
            steps.tick();
            None
        }
        Err(_) => Some(Event::Failed(Cause::BadFree)),
    }
}
