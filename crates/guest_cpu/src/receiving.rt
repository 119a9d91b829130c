// A recv that takes an item.
ghost use Rattle.std.specs.Prelude.{◌≡◌, ◌^◌, ◌<◌, true, length, slice_index};
ghost use Rattle.guest_image.specs.Memory.{permitted, put_bytes};
ghost use Rattle.guest_space.specs.Space.{flat};
ghost use Rattle.guest_space.specs.Windows.{AreWindows};
ghost use Rattle.run_history.specs.Touching.{buffer};
ghost use Rattle.guest_cpu.specs.Standing.{standing, machine_of, CanCount};
ghost use Rattle.guest_cpu.specs.Receiving.{taken_standing, received_range};
ghost use Rattle.guest_cpu.specs.Turns.{Wrote, Keeps};

use crate::guest_core::Core;
use guest_space::{GuestSpace, Windows};
use rx_base::Item;

/// A recv takes an item into its buffer.
pub fn receive(core: &mut Core, space: &mut GuestSpace, windows: &mut Windows, item: &Item)
    requires writable { permitted 2 (flat space.old) (slice_index core.old.regs.x 10) (slice_index core.old.regs.x 11) ≡ true }
    requires short { length item.now.bytes < 2 ^ 32 }
    requires counts { CanCount core.old.marks }
    requires holds { AreWindows space.old windows.old }
    ensures holds { AreWindows space.new windows.new }
    ensures state { standing core.new (flat space.new) ≡ taken_standing item.now (standing core.old (flat space.old)) }
    ensures wrote { Wrote (received_range item.now (machine_of core.old (flat space.old))) space.old space.new }
    ensures keeps { Keeps core.old core.new }
{
    let bytes = item.bytes.as_slice();
    let (front, _) = bytes.split_at((core.regs.x[11] as usize).min(bytes.len()));
    write_front(space, windows, core.regs.x[10], front);
    core.regs.x[12] = u32::from(item.kind);
    core.regs.x[11] = item.conn;
    core.regs.x[10] = bytes.len() as u32;
    core.regs.pc = core.regs.pc.wrapping_add(4);
    core.connections.take(item);
    core.marks.taken += 1;
    core.marks.since = 0;
    core.marks.steps += 1;
}

// Puts bytes from an address on, if there are some.
fn write_front(space: &mut GuestSpace, windows: &mut Windows, at: u32, bytes: &[u8])
    requires permitted { permitted 2 (flat space.old) at (length bytes.now) ≡ true }
    requires holds { AreWindows space.old windows.old }
    ensures holds { AreWindows space.new windows.new }
    ensures memory { flat space.new ≡ put_bytes (flat space.old) at bytes.now }
    ensures wrote { Wrote (buffer at (length bytes.now)) space.old space.new }
{
    if bytes.is_empty() {
        return;
    }
    space.write_bytes_by(windows, at, bytes);
}
