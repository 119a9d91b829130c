// The checkpoints that a session makes.
ghost use Rattle.std.specs.Prelude.{◌≡◌, ◌<◌, ℕ, List, [], ◌∷◌, length, false, slice_get};
ghost use Rattle.links.specs.declared.journal.Entry.{Entry};
ghost use Rattle.guest_image.specs.declared.image.Image.{Image};
ghost use Rattle.ckpt_ring.specs.Rings.{saved_in_ring};
ghost use Rattle.ckpt_ring.specs.Line.{count_true};
ghost use Rattle.run_history.specs.Served.{Override, Path, origin};
ghost use Rattle.session_history.specs.Lawful.{Rules};
ghost use Rattle.recovery.specs.Sessions.{taken_in};
ghost use Rattle.recovery.specs.Handling.{alone, handle, is_far, stands_of, keeping_by};
ghost use Rattle.recovery.specs.Rings.{HasNoCheckpoint, IsAtStart, StandsOnNewest, SavesIf, ring_if};
ghost use Rattle.recovery.specs.Recoverables.{CanBeSaved, HoldsRing, KeepsUnsaved};

use crate::Recoverable;
use ckpt_ring::Snapshot;
use guest_space::AccessRule;

impl<R: AccessRule> Recoverable<R> {
    /// Saves the guest, at the start of its program, as the first checkpoint. It takes no memory.
    pub fn save_start(&mut self)
        requires none { HasNoCheckpoint self.old.cpu }
        ensures keeps { (rules : Rules) (image : Image) → IsAtStart image self.old.cpu self.old.log self.old.replies
            → HoldsRing rules image [] [] (origin image) (origin image ∷ []) self.new }
        ensures saved { self.new.cpu.slots ≡ saved_in_ring self.old.cpu.slots }
        ensures first { stands_of self.new.cpu.slots.saved ≡ alone (taken_in self.old.cpu.slots.live) self.old.cpu.slots.pages }
        ensures kept { KeepsUnsaved self.old self.new }
    {
        ckpt_ring::save(&mut self.cpu);
        self.cpu.sound();
    }

    /// Saves the guest, at its request for an item, as the newest checkpoint, where `every` items or more were taken since the newest one. The oldest
    /// checkpoints are dropped for want of room. It takes no memory.
    pub fn save(&mut self, every: u32)
        requires stands { StandsOnNewest self.old.cpu }
        ensures keeps { (rules : Rules) (image : Image) (entries : List Entry) (plan : List Override) (now : Path) (paths : List Path) → CanBeSaved rules image entries plan now paths self.old → 0 < every
            → HoldsRing rules image entries plan now (ring_if (is_far every (taken_in self.old.cpu.slots.live) (slice_get (stands_of self.old.cpu.slots.saved) 0)) (length self.new.cpu.slots.saved) now paths) self.new }
        ensures handles { stands_of self.new.cpu.slots.saved ≡ handle (keeping_by every self.old.cpu.slots) (taken_in self.old.cpu.slots.live) self.old.cpu.slots.written (stands_of self.old.cpu.slots.saved) }
        ensures counted { count_true self.old.cpu.written ≡ self.old.cpu.slots.written }
        ensures none_due { 0 < every → is_far every (taken_in self.old.cpu.slots.live) (slice_get (stands_of self.new.cpu.slots.saved) 0) ≡ false }
        ensures saved { SavesIf (is_far every (taken_in self.old.cpu.slots.live) (slice_get (stands_of self.old.cpu.slots.saved) 0)) self.old.cpu self.new.cpu }
        ensures kept { KeepsUnsaved self.old self.new }
        ensures stands { StandsOnNewest self.new.cpu }
    {
        self.cpu.sound();
        let taken = self.cpu.marks().taken;
        if taken.saturating_sub(self.cpu.taken_at(0)) < u64::from(every) {
            return;
        }
        ckpt_ring::save(&mut self.cpu);
        self.cpu.sound();
    }
}
