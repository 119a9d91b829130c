// A memory is saved beside its windows: those of loads stay, since no page of it moves.
ghost use Rattle.std.specs.Prelude.{◌≡◌, ◌+◌, ◌<◌, ◌≤◌, length, None, IsSome};
ghost use Rattle.cow_pages.specs.Pages.{slot_at, used_of};
ghost use Rattle.guest_space.specs.Access.{Saves, SavesOver};
ghost use Rattle.guest_space.specs.Windows.{AreWindows};

use crate::{GuestSpace, Windows};

impl GuestSpace {
    /// Saves the memory in a slot. The windows of stores are forgotten, since the slot has each page then.
    pub fn save_by(&mut self, windows: &mut Windows, slot: u32)
        requires there { slot < length self.old.store.slots }
        requires empty { slot_at self.old.store slot ≡ None }
        requires room { used_of self.old.store + self.old.store.pages ≤ self.old.store.frames }
        requires holds { AreWindows self.old windows.old }
        ensures holds { AreWindows self.new windows.new }
        ensures saved { Saves self.old slot self.new }
    {
        self.save(slot);
        windows.forget_stores();
    }

    /// Gives up what is saved in a slot, and saves the memory there. The windows of stores are forgotten.
    pub fn save_over_by(&mut self, windows: &mut Windows, slot: u32)
        requires some { IsSome (slot_at self.old.store slot) }
        requires room { used_of self.old.store + self.old.store.pages ≤ self.old.store.frames }
        requires holds { AreWindows self.old windows.old }
        ensures holds { AreWindows self.new windows.new }
        ensures saved { SavesOver self.old slot self.new }
    {
        self.save_over(slot);
        windows.forget_stores();
    }
}
