// What can be saved and restored.
ghost use Rattle.std.specs.Prelude.{◌≡◌, ◌+◌, ◌<◌, ◌≤◌, ℕ, length, slice_get, IsSomeAnd};
ghost use Rattle.ckpt_ring.specs.Slots.{Slots, AreSound, used_pages, with_newest, restored, without_newer, without_oldest};

/// Something with a live state that can be saved as a checkpoint and restored from one. States share the pages that are
/// the same in them: a page takes another frame only where a byte of it is written behind a save.
pub trait Snapshot {
    /// What its states are.
    ghost State: { Type 0 };

    /// Its live state and its checkpoints.
    ghost slots: { Self → Slots State };

    /// How many items a state has taken.
    ghost taken_in: { State → ℕ };

    /// What of it no checkpoint holds.
    ghost Fixed: { Type 0 };

    /// It stays as it is.
    ghost fixed: { Self → Fixed };

    /// Which pages were written since the checkpoint on which the live state stands.
    ghost Written: { Type 0 };

    /// It says which ones they are.
    ghost written: { Self → Written };

    /// Saves the live state as the newest checkpoint. It stands on it then.
    fn save_newest(&mut self)
        requires few { length (slots self.old).saved < (slots self.old).count }
        requires newest { (slots self.old).newer ≡ 0 }
        requires room { used_pages (slots self.old) + (slots self.old).pages ≤ (slots self.old).frames }
        ensures saved { slots self.new ≡ with_newest (slots self.old) }
        ensures fixed { fixed self.new ≡ fixed self.old }
        ensures sound { AreSound (slots self.new) };

    /// Gives the oldest checkpoint up, and saves the live state in its place, as the newest one. It stands on it then.
    fn replace_oldest(&mut self)
        requires some { 0 < length (slots self.old).saved }
        requires newest { (slots self.old).newer ≡ 0 }
        requires room { used_pages (slots self.old) + (slots self.old).pages ≤ (slots self.old).frames }
        ensures saved { slots self.new ≡ with_newest (without_oldest (slots self.old)) }
        ensures fixed { fixed self.new ≡ fixed self.old }
        ensures sound { AreSound (slots self.new) };

    /// Makes the live state that of the checkpoint at an index, on which it stands then. 0 is the newest one.
    fn restore(&mut self, index: u32)
        requires { index < length (slots self.old).saved }
        ensures restored { IsSomeAnd (slice_get (slots self.old).saved index) (λ one. slots self.new ≡ restored index one (slots self.old)) }
        ensures fixed { fixed self.new ≡ fixed self.old }
        ensures sound { AreSound (slots self.new) };

    /// Gives the oldest checkpoint up.
    fn drop_oldest(&mut self)
        requires some { 0 < length (slots self.old).saved }
        requires newest { (slots self.old).newer ≡ 0 }
        ensures saved { slots self.new ≡ without_oldest (slots self.old) }
        ensures fixed { fixed self.new ≡ fixed self.old }
        ensures sound { AreSound (slots self.new) };

    /// Gives the newest checkpoint up, while the live state stands on an older one.
    fn drop_newest(&mut self)
        requires { 0 < (slots self.old).newer }
        ensures saved { slots self.new ≡ without_newer 1 (slots self.old) }
        ensures written { written self.new ≡ written self.old }
        ensures fixed { fixed self.new ≡ fixed self.old }
        ensures sound { AreSound (slots self.new) };

    /// How many checkpoints stand.
    fn checkpoints(&self) -> u32
        ensures checkpoints { result ≡ length (slots self.now).saved }
        ensures sound { AreSound (slots self.now) };

    /// How many checkpoints can stand.
    fn most_checkpoints(&self) -> u32
        ensures most { result ≡ (slots self.now).count }
        ensures sound { AreSound (slots self.now) };

    /// How many items were taken at the checkpoint at an index. 0 is the newest one.
    fn taken_at(&self, index: u32) -> u64
        requires { index < length (slots self.now).saved }
        ensures taken { IsSomeAnd (slice_get (slots self.now).saved index) (λ one. result ≡ taken_in one.state) };

    /// How many pages are in use, by all checkpoints and the live state.
    fn used(&self) -> u32
        ensures used { result ≡ used_pages (slots self.now) }
        ensures sound { AreSound (slots self.now) };

    /// How many pages a state has.
    fn pages(&self) -> u32
        ensures pages { result ≡ (slots self.now).pages }
        ensures sound { AreSound (slots self.now) };

    /// How many pages can be in use.
    fn frames(&self) -> u32
        ensures frames { result ≡ (slots self.now).frames }
        ensures sound { AreSound (slots self.now) };
}
