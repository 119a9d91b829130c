// How a ring of checkpoints grows and goes back.
ghost use Rattle.std.specs.Prelude.{◌≡◌, ◌+◌, ◌<◌, ◌≤◌, length, true, nat_le};
ghost use Rattle.ckpt_ring.specs.Slots.{AreSound, all_numbers, used_pages, with_newest, without_newer, without_oldest};
ghost use Rattle.ckpt_ring.specs.Rings.{has_room, saved_in_ring};

use crate::Snapshot;

/// Saves the live state as the newest checkpoint. Of the older ones the oldest are dropped before, as long as too many stand or
/// too few frames are left.
pub fn save<T: Snapshot>(t: &mut T)
    requires some { 1 ≤ (T.slots t.old).count }
    requires newest { (T.slots t.old).newer ≡ 0 }
    ensures saved { T.slots t.new ≡ saved_in_ring (T.slots t.old) }
    ensures fixed { T.fixed t.new ≡ T.fixed t.old }
    ensures sound { AreSound (T.slots t.new) }
{
    if may_replace(t) {
        t.replace_oldest();
        return;
    }
    make_room(t);
    t.save_newest();
}

/// Drops the checkpoints that are newer than the one on which the live state stands: so many.
pub fn drop_newer<T: Snapshot>(t: &mut T, newer: u32)
    requires { (T.slots t.old).newer ≡ newer }
    ensures saved { T.slots t.new ≡ without_newer newer (T.slots t.old) }
    ensures written { T.written t.new ≡ T.written t.old }
    ensures fixed { T.fixed t.new ≡ T.fixed t.old }
    ensures sound { AreSound (T.slots t.new) }
{
    // Its answer says that the checkpoints are sound, before any goes.
    let _frames = t.frames();
    for _ in 0..newer {
        t.drop_newest();
    }
}

// Whether as many checkpoints stand as can, and the frames suffice for one more beside them.
fn may_replace<T: Snapshot>(t: &T) -> bool
    ensures full { result ≡ true → length (T.slots t.now).saved ≡ (T.slots t.now).count }
    ensures room { result ≡ true → used_pages (T.slots t.now) + (T.slots t.now).pages ≤ (T.slots t.now).frames }
    ensures sound { AreSound (T.slots t.now) }
{
    let fits = has_frames(t);
    t.checkpoints() == t.most_checkpoints() && fits
}

// Drops the oldest checkpoints until one more has room.
fn make_room<T: Snapshot>(t: &mut T)
    requires newest { (T.slots t.old).newer ≡ 0 }
    requires some { 1 ≤ (T.slots t.old).count }
    ensures newest { (T.slots t.new).newer ≡ 0 }
    ensures left { saved_in_ring (T.slots t.new) ≡ saved_in_ring (T.slots t.old) }
    ensures room { has_room (T.slots t.new).count (T.slots t.new).pages (T.slots t.new).frames (all_numbers (T.slots t.new)) ≡ true }
    ensures fixed { T.fixed t.new ≡ T.fixed t.old }
    ensures sound { AreSound (T.slots t.new) }
{
    'room: while !has_room(t) {
        t.drop_oldest();
    }
}

// Whether one more checkpoint has room beside all that stand.
fn has_room<T: Snapshot>(t: &T) -> bool
    ensures room { result ≡ has_room (T.slots t.now).count (T.slots t.now).pages (T.slots t.now).frames (all_numbers (T.slots t.now)) }
    ensures sound { AreSound (T.slots t.now) }
{
    let fits = has_frames(t);
    t.checkpoints() < t.most_checkpoints() && fits
}

// Whether the frames suffice for one state more beside all that are saved.
fn has_frames<T: Snapshot>(t: &T) -> bool
    ensures room { result ≡ nat_le (used_pages (T.slots t.now) + (T.slots t.now).pages) (T.slots t.now).frames }
    ensures sound { AreSound (T.slots t.now) }
{
    let wanted = u64::from(t.used()) + u64::from(t.pages());
    wanted <= u64::from(t.frames())
}
