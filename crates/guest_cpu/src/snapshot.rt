// A guest is saved whole, and comes back whole.
ghost use Rattle.std.specs.Prelude.{◌≡◌, ℕ, Bool, List};
ghost use Rattle.block_book.specs.Heap.{SameEnds};
ghost use Rattle.guest_cpu.specs.Standing.{Standing};

use crate::Cpu;
use crate::guest_core::Core;
use ckpt_ring::Snapshot;
use guest_space::AccessRule;

impl Core {
    // Becomes what another one is. It takes no memory.
    fn copy_from(&mut self, other: &Core)
        requires { SameEnds self.old.book other.now.book }
        ensures { self.new ≡ other.now }
    {
        self.regs = other.regs;
        self.book.copy_from(&other.book);
        self.connections.copy_from(&other.connections);
        self.marks = other.marks;
        self.ended = other.ended;
    }
}

impl<R: AccessRule> Snapshot for Cpu<R> {
    ghost State = { Standing };

    ghost slots = { λ cpu. cpu.slots };

    ghost taken_in = { λ state. state.guest.machine.taken };

    ghost Fixed = { R × ℕ };

    ghost fixed = { λ cpu. (cpu.rule, cpu.base) };

    ghost Written = { List Bool };

    ghost written = { λ cpu. cpu.written };

    fn save_newest(&mut self) {
        self.space.sound();
        let slot = self.ring.free_slot();
        self.space.save_by(&mut self.windows, slot);
        self.saved[slot as usize].copy_from(&self.core);
        self.ring.push(slot);
    }

    fn replace_oldest(&mut self) {
        self.space.sound();
        let slot = self.ring.oldest();
        self.space.save_over_by(&mut self.windows, slot);
        self.saved[slot as usize].copy_from(&self.core);
        self.ring.drop_oldest();
        self.ring.push(slot);
    }

    fn restore(&mut self, index: u32) {
        self.space.sound();
        let slot = self.ring.slot_at(index);
        self.windows.forget();
        self.space.restore(slot);
        self.core.copy_from(&self.saved[slot as usize]);
        self.ring.stand_on(index);
    }

    fn drop_oldest(&mut self) {
        self.space.sound();
        self.space.release(self.ring.oldest());
        self.ring.drop_oldest();
    }

    fn drop_newest(&mut self) {
        self.space.sound();
        self.space.release(self.ring.slot_at(0));
        self.ring.drop_newest();
    }

    fn checkpoints(&self) -> u32 {
        self.ring.len()
    }

    fn most_checkpoints(&self) -> u32 {
        self.saved.len() as u32
    }

    fn taken_at(&self, index: u32) -> u64 {
        self.saved[self.ring.slot_at(index) as usize].marks.taken
    }

    fn used(&self) -> u32 {
        self.space.used()
    }

    fn pages(&self) -> u32 {
        self.space.pages()
    }

    fn frames(&self) -> u32 {
        self.space.frames()
    }
}
