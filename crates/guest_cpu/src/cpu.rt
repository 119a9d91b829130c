// One guest, with its checkpoints.
ghost use Rattle.std.specs.Prelude.{◌≡◌, ◌+◌, ◌-◌, ◌^◌, ◌<◌, length, true, None, IfSome, MatchBool};
ghost use Rattle.block_book.specs.Heap.{is_bare};
ghost use Rattle.ckpt_ring.specs.Slots.{AreSound, oldest_of};
ghost use Rattle.ckpt_ring.specs.Line.{count_true};
ghost use Rattle.guest_space.specs.Space.{flat};
ghost use Rattle.run_history.specs.Machine.{Wants, Chooses};
ghost use Rattle.run_history.specs.Run.{does};
ghost use Rattle.run_history.specs.Served.{IsLaidOut};
ghost use Rattle.rv_exec.specs.Stepping.{limits_of};
ghost use Rattle.guest_cpu.specs.Standing.{marks_of, AreCounted, turn};
ghost use Rattle.guest_cpu.specs.Running.{RunsBy, Lives, RecordedLives};
ghost use Rattle.guest_cpu.specs.Receiving.{live_with_item};
ghost use Rattle.guest_cpu.specs.Recording.{recorded, is_usable, live_with_choice};
ghost use Rattle.guest_cpu.specs.Cpus.{live_of, with_live};

use crate::choosing::choose;
use crate::guest_core::Core;
use crate::quiet::go_quietly;
use crate::receiving::receive;
use crate::recorded::advance_as_recorded;
use crate::turning::advance;
use crate::{Event, Marks, Question};
use alloc_env::Env;
use block_book::{Ask, Book, Choice};
use ckpt_ring::Ring;
use guest_space::{AccessRule, AllMapped, GuestSpace, Windows};
use run_history::Regs;
use rx_base::{Item, Steps};
use std::alloc::{AllocError, Global};
use std::marker::Model;
use std::sync::ledger::Ledger;

/// One guest, with its checkpoints. Each is saved in a numbered slot, and a ring has their order. Each access that its program makes has to keep the rule.
#[derive(Drop)]
pub struct Cpu<R: AccessRule> {
    pub(crate) rule: R,
    pub(crate) core: Core,
    pub(crate) space: GuestSpace,
    pub(crate) saved: Vec<Core>,
    pub(crate) ring: Ring,
    /// Where the memory's bytes were found of late.
    pub(crate) windows: Windows,
}

impl<R: AccessRule> Model for Cpu<R> {
    ghost use Rattle.guest_space.specs.Windows.{AreWindows};
    ghost use Rattle.guest_cpu.specs.Cpus.{CpuState, cpu_state, IsCpu};

    ghost Value = { CpuState R };

    ghost view = { λ c. cpu_state c.rule c.core c.space c.saved.items c.ring };

    ghost invariant = { λ c. IsCpu c.core c.space c.saved.items c.ring × AreWindows c.space c.windows };
}

impl<R: AccessRule> Cpu<R> {
    /// What holds of every guest, for whoever proves something of one. It does nothing.
    pub fn sound(&self)
        ensures pages { length self.now.written ≡ self.now.slots.pages }
        ensures written { count_true self.now.written ≡ self.now.slots.written }
        ensures laid_out { IsLaidOut self.now.slots.live.guest }
        ensures ring { AreSound self.now.slots }
        ensures counted { AreCounted (marks_of self.now.slots.live) }
    {
        self.space.sound();
        self.core.book.sound();
    }

    /// How far the guest has come.
    pub fn marks(&self) -> Marks
        ensures { result ≡ marks_of self.now.slots.live }
    {
        self.core.marks
    }

    /// How far the guest had come at the oldest checkpoint.
    pub fn oldest_marks(&self) -> Marks
        requires { 0 < length self.now.slots.saved }
        ensures { IfSome (oldest_of self.now.slots.saved) (λ one. result ≡ marks_of one.state) }
    {
        self.saved[self.ring.oldest() as usize].marks
    }

    /// The program counter.
    pub fn pc(&self) -> u32
        ensures { result ≡ self.now.slots.live.guest.machine.pc }
    {
        self.core.regs.pc
    }

    /// The program counter and the registers.
    pub fn regs(&self) -> Regs
        ensures pc { result.pc ≡ self.now.slots.live.guest.machine.pc }
        ensures registers { result.x ≡ self.now.slots.live.guest.machine.registers }
    {
        self.core.regs
    }

    /// The blocks of its heap.
    pub fn book(&self) -> &Book
        ensures { result.now ≡ self.now.slots.live.guest.heap }
    {
        &self.core.book
    }

    /// Its memory.
    pub fn memory(&self) -> &GuestSpace
        ensures { flat result.now ≡ self.now.slots.live.guest.machine.memory }
    {
        &self.space
    }

    /// Runs to the next event in an environment, within a budget of instructions since the last item. At `Asks` the recv
    /// isn't executed, at `Failed` the instruction isn't. Memory is taken for a send's bytes alone: after an `Err` the guest
    /// stands before that send.
    pub fn run_to_event<L: Ledger>(
        &mut self,
        alloc: Global,
        env: Env,
        budget: u64,
        steps: &mut Steps<L>,
    ) -> Result<Event, AllocError>
        requires lives { self.old.slots.live.ended ≡ None }
        requires room { self.old.slots.live.steps + budget < 2 ^ 64 - 1 }
        ensures lives { Lives result self.new.slots.live.ended }
        ensures event { RunsBy Event.Emits (turn (limits_of budget (R.rule self.old.rule)) env) self.old.base (live_of self.old) result (live_of self.new) }
        ensures kept { self.new ≡ with_live (live_of self.new) self.old }
        ensures counted { steps.new + self.old.slots.live.steps ≡ steps.old + self.new.slots.live.steps }
    {
        self.space.sound();
        'run: loop {
            let most = budget.saturating_sub(self.core.marks.since);
            go_quietly(
                &mut self.core,
                &mut self.space,
                &self.rule,
                most,
                steps,
                &mut self.windows,
            );
            match advance(
                alloc,
                &mut self.core,
                &mut self.space,
                &self.rule,
                env,
                budget,
                steps,
                &mut self.windows,
            ) {
                Ok(None) => {}
                Ok(Some(event)) => return Ok(event),
                Err(e) => return Err(e),
            }
        }
    }

    /// The recv at which the guest stands takes an item of fewer than 2^32 bytes.
    pub fn take_item<L: Ledger>(&mut self, item: &Item, steps: &mut Steps<L>)
        requires asks { does None None self.old.slots.live.guest.machine ≡ Wants }
        requires short { length item.now.bytes < 2 ^ 32 }
        requires room { self.old.slots.live.steps < 2 ^ 64 - 1 }
        ensures live { live_of self.new ≡ live_with_item self.old.base item.now (live_of self.old) }
        ensures kept { self.new ≡ with_live (live_of self.new) self.old }
        ensures counted { steps.new ≡ steps.old + 1 }
    {
        self.space.sound();
        receive(&mut self.core, &mut self.space, &mut self.windows, item);
        steps.tick();
    }

    /// Runs as recorded, up to so many instructions in all, without a budget, an environment or a rule; a free of what isn't
    /// live changes nothing. No padded and no delayed block stands. At `Asks` and `Wants` the call isn't executed, at `Failed`
    /// the instruction isn't. After an `Err` the guest stands before the send for whose bytes memory ran out.
    pub fn run_recorded<L: Ledger>(
        &mut self,
        alloc: Global,
        until: u64,
        steps: &mut Steps<L>,
    ) -> Result<Question, AllocError>
        requires lives { self.old.slots.live.ended ≡ None }
        requires bare { is_bare self.old.slots.live.guest.heap ≡ true }
        ensures lives { RecordedLives result self.new.slots.live.ended }
        ensures question { RunsBy Question.Emits (recorded until) self.old.base (live_of self.old) result (live_of self.new) }
        ensures kept { self.new ≡ with_live (live_of self.new) self.old }
        ensures counted { steps.new + self.old.slots.live.steps ≡ steps.old + self.new.slots.live.steps }
    {
        self.space.sound();
        self.windows.forget();
        'run: loop {
            let most = until.saturating_sub(self.core.marks.steps);
            let mut windows = Windows::none();
            go_quietly(
                &mut self.core,
                &mut self.space,
                &AllMapped,
                most,
                steps,
                &mut windows,
            );
            match advance_as_recorded(alloc, &mut self.core, &mut self.space, until, steps) {
                Ok(None) => {}
                Ok(Some(question)) => return Ok(question),
                Err(e) => return Err(e),
            }
        }
    }

    /// The ask at which the guest stands, which is wanted, is answered so. False, and nothing changes, exactly where the answer
    /// can't be used: it is one to another ask, C doesn't allow it, or 4096 blocks stand and it isn't null.
    pub fn use_choice<L: Ledger>(
        &mut self,
        wanted: Ask,
        choice: Choice,
        steps: &mut Steps<L>,
    ) -> bool
        requires wants { does None None self.old.slots.live.guest.machine ≡ Chooses wanted }
        requires bare { is_bare self.old.slots.live.guest.heap ≡ true }
        requires room { self.old.slots.live.steps < 2 ^ 64 - 1 }
        ensures usable { result ≡ is_usable self.old.slots.live wanted choice }
        ensures live { MatchBool result (live_of self.new ≡ live_with_choice self.old.base choice (live_of self.old)) (self.new ≡ self.old) }
        ensures kept { self.new ≡ with_live (live_of self.new) self.old }
        ensures bare { is_bare self.new.slots.live.guest.heap ≡ true }
        ensures counted { MatchBool result (steps.new ≡ steps.old + 1) (steps.new ≡ steps.old) }
    {
        self.space.sound();
        self.windows.forget();
        if !choose(&mut self.core, &mut self.space, wanted, choice) {
            return false;
        }
        steps.tick();
        true
    }
}
