// What is seen of a guest that failed.
ghost use Rattle.std.specs.Prelude.{◌≡◌};
ghost use Rattle.item_log.specs.Log.{Log};
ghost use Rattle.rv_isa.specs.Ranges.{IsInRange, IsRegister};
ghost use Rattle.guest_space.specs.Space.{flat};
ghost use Rattle.rv_exec.specs.Stepping.{value_of};
ghost use Rattle.telling.specs.Sightings.{IsTouch, Sees, wanted, wanted_by};

use crate::item::{SeenItem, taken_last};
use crate::place::{Gone, Place, gone_at, place_of};
use block_book::Book;
use guest_cpu::Cpu;
use guest_space::{AccessRule, GuestSpace};
use item_log::ItemLog;
use run_history::Regs;
use rv_exec::next_instr;
use rv_isa::{Instr, bytes_loaded, bytes_stored, displace};

/// An access of an instruction: whether it writes, and how many bytes from which address on.
#[derive(Clone, Copy, Debug, PartialEq, Eq)]
pub struct Access {
    pub write: bool,
    pub at: u32,
    pub count: u32,
}

/// An access, and what lies where it goes.
#[derive(Clone, Copy, Debug, PartialEq, Eq)]
pub struct Touch {
    pub access: Access,
    pub place: Place,
}

/// What is seen of a guest that failed: how many items it had taken and how many instructions done, where it stands with its registers,
/// the item that it took last, if the log has it still, the access of its next instruction, where that is a load or a store, and the block
/// that was freed last of those that had the address in x10, if it is remembered.
#[derive(Clone, Copy, Debug, PartialEq, Eq)]
pub struct Sighting {
    pub point: u64,
    pub steps: u64,
    pub regs: Regs,
    pub item: Option<SeenItem>,
    pub touch: Option<Touch>,
    pub pointer: Option<Gone>,
}

// What a register reads as.
fn value_of(regs: &Regs, number: u8) -> u32
    requires { IsRegister number }
    ensures { result ≡ value_of regs.now number }
{
    if number == 0 {
        0
    } else {
        regs.x[number as usize]
    }
}

// The access of an instruction, where it is a load or a store.
fn wanted_by(regs: &Regs, instr: &Instr) -> Option<Access>
    requires { IsInRange instr.now }
    ensures { result ≡ wanted_by regs.now instr.now }
{
    match *instr {
        Instr::Load { op, rs1, imm, .. } => Some(Access {
            write: false,
            at: displace(value_of(regs, rs1), imm),
            count: bytes_loaded(op),
        }),
        Instr::Store { op, rs1, imm, .. } => Some(Access {
            write: true,
            at: displace(value_of(regs, rs1), imm),
            count: bytes_stored(op),
        }),
        _ => None,
    }
}

// The access of the instruction that comes next.
fn wanted(regs: &Regs, space: &GuestSpace) -> Option<Access>
    ensures { result ≡ wanted regs.now (flat space.now) }
{
    match next_instr(regs, space) {
        Ok(instr) => wanted_by(regs, &instr),
        Err(_) => None,
    }
}

// That access, and what lies where it goes.
fn touch_of(regs: &Regs, book: &Book, items: &ItemLog, space: &GuestSpace) -> Option<Touch>
    ensures { IsTouch (flat space.now) book.now items.now (wanted regs.now (flat space.now)) result }
{
    match wanted(regs, space) {
        None => None,
        Some(access) => {
            let place = place_of(book, items, space, &access);
            Some(Touch { access, place })
        }
    }
}

/// What is seen of a guest that failed with so many items taken, and of their log.
pub fn sight<R: AccessRule>(cpu: &Cpu<R>, items: &ItemLog, point: u64) -> Sighting
    ensures { Sees cpu.now.slots.live items.now point result }
{
    let regs = cpu.regs();
    Sighting {
        point,
        steps: cpu.marks().steps,
        regs,
        item: taken_last(items, point),
        touch: touch_of(&regs, cpu.book(), items, cpu.memory()),
        pointer: gone_at(cpu.book(), items, regs.x[10]),
    }
}
