// What a guest has beside its memory.
ghost use Rattle.std.specs.Prelude.{◌≡◌, ◌-◌, ◌^◌, ◌<◌};
ghost use Rattle.guest_cpu.specs.Standing.{counting, core_site, going_on, answering};

use crate::Marks;
use block_book::{Book, Site};
use call_gate::ConnSet;
use run_history::Regs;

/// What a guest has beside its memory.
#[derive(Debug, Drop)]
pub struct Core {
    pub regs: Regs,
    pub book: Book,
    pub connections: ConnSet,
    pub marks: Marks,
    /// The code with which the guest ended itself, if it did.
    pub ended: Option<u32>,
}

impl Core {
    /// Where the guest stands, for an ask of the allocator.
    pub fn site(&self) -> Site
        ensures { result ≡ core_site self.now }
    {
        Site {
            pc: self.regs.pc,
            caller: self.regs.x[1],
            taken: self.marks.taken,
        }
    }

    /// One more instruction is done: a call answers, and the guest goes on behind it.
    pub fn answer(&mut self, value: u32)
        requires since { self.old.marks.since < 2 ^ 64 - 1 }
        requires steps { self.old.marks.steps < 2 ^ 64 - 1 }
        ensures { self.new ≡ answering value self.old }
    {
        self.regs.x[10] = value;
        self.go_on();
    }

    /// One more instruction is done, and the guest goes on behind it.
    pub fn go_on(&mut self)
        requires since { self.old.marks.since < 2 ^ 64 - 1 }
        requires steps { self.old.marks.steps < 2 ^ 64 - 1 }
        ensures { self.new ≡ going_on self.old }
    {
        self.regs.pc = self.regs.pc.wrapping_add(4);
        self.count();
    }

    /// One more instruction is done.
    #[inline(always)]
    pub fn count(&mut self)
        requires since { self.old.marks.since < 2 ^ 64 - 1 }
        requires steps { self.old.marks.steps < 2 ^ 64 - 1 }
        ensures { self.new ≡ counting self.old }
    {
        self.marks.since += 1;
        self.marks.steps += 1;
    }
}
