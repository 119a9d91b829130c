// One instruction of a guest as recorded: without a budget, an environment or a rule.
ghost use Rattle.std.specs.Prelude.{◌≡◌, ◌-◌, ◌+◌, ◌^◌, ◌<◌, List, Some, Ok, None, slice_index};
ghost use Rattle.block_book.specs.Answer.{live_blocks};
ghost use Rattle.guest_image.specs.Memory.{Area};
ghost use Rattle.guest_space.specs.Space.{flat};
ghost use Rattle.rv_isa.specs.declared.instr.Instr.TheVariants.{Ecall};
ghost use Rattle.run_history.specs.Call.{free};
ghost use Rattle.guest_cpu.specs.Standing.{core_site, standing, machine_of, turn_to, AreCounted};
ghost use Rattle.guest_cpu.specs.Turns.{TurnsBy, Keeps, Rises, RecordedLasts};
ghost use Rattle.guest_cpu.specs.Recording.{released, asking, recorded_of, recorded};

use crate::Question;
use crate::event::Met;
use crate::guest_core::Core;
use crate::turning::meet;
use block_book::{Ask, Book};
use guest_space::{AllMapped, GuestSpace};
use run_history::{Cause, may_ask};
use rx_base::Steps;
use std::alloc::{AllocError, Global};
use std::sync::ledger::Ledger;

/// Does one instruction, or meets a question, up to so many instructions. Memory is taken for a send's bytes alone, before
/// anything changes.
#[inline(never)]
pub fn advance_as_recorded<L: Ledger>(
    alloc: Global,
    core: &mut Core,
    space: &mut GuestSpace,
    until: u64,
    steps: &mut Steps<L>,
) -> Result<Option<Question>, AllocError>
    requires counts { AreCounted core.old.marks }
    ensures turned { TurnsBy Question.Emits (recorded until (standing core.old (flat space.old))) core.old space.old result core.new space.new }
    ensures keeps { Keeps core.old core.new }
    ensures rises { Rises core.old result core.new }
    ensures within { result ≡ Ok None → core.old.marks.steps < until }
    ensures lasts { RecordedLasts result core.old.ended core.new.ended }
    ensures counted { steps.new + core.old.marks.steps ≡ steps.old + core.new.marks.steps }
{
    if core.marks.steps >= until {
        return Ok(Some(Question::Reached));
    }
    match meet(alloc, core, space, &AllMapped, steps) {
        Ok(None) => Ok(None),
        Ok(Some(Met::Asks)) => Ok(Some(Question::Asks)),
        Ok(Some(Met::Emits(conn, bytes))) => Ok(Some(Question::Emits(conn, bytes))),
        Ok(Some(Met::Allocates(ask))) => Ok(Some(wanted(&core.book, ask))),
        Ok(Some(Met::Frees(at))) => Ok(release(core, at, steps)),
        Ok(Some(Met::Exits(code))) => Ok(Some(Question::Exits(code))),
        Ok(Some(Met::Failed(cause))) => Ok(Some(Question::Failed(cause))),
        Err(e) => Err(e),
    }
}

// The answer to an ask is wanted, unless it is to replace what is no live block.
fn wanted(book: &Book, ask: Ask) -> Question
    ensures { result ≡ asking (live_blocks book.now.blocks) ask }
{
    if may_ask(ask, book) {
        return Question::Wants(ask);
    }
    Question::Failed(Cause::BadFree)
}

// Free of the block at an address, as in the model: what isn't live stays as it is, and no free fails.
fn release<L: Ledger>(core: &mut Core, at: u32, steps: &mut Steps<L>) -> Option<Question>
    requires asked { at ≡ slice_index core.old.regs.x 10 }
    requires counts { AreCounted core.old.marks }
    requires room { core.old.marks.steps < 2 ^ 64 - 1 }
    ensures turned { (memory : List Area) → recorded_of (Some Ecall) (released core.old.book (core_site core.old) at) (standing core.old memory) (free (machine_of core.old memory)) ≡ turn_to result (standing core.new memory) None }
    ensures keeps { Keeps core.old core.new }
    ensures rises { Rises core.old (Ok result) core.new }
    ensures lasts { RecordedLasts (Ok result) core.old.ended core.new.ended }
    ensures counted { steps.new + core.old.marks.steps ≡ steps.old + core.new.marks.steps }
{
    core.book.sound();
    let site = core.site();
    core.book.release(at, site);
    core.go_on();
    steps.tick();
    None
}
