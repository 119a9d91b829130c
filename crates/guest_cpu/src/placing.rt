// The first bytes of a new block, and what is carried behind them.
ghost use Rattle.std.specs.Prelude.{◌≡◌, ◌≢◌, ◌^◌, ◌<◌, ◌==◌, max, unwrap_or, if◌then◌else◌};
ghost use Rattle.block_book.specs.Answer.{bytes_asked, kept_count, replaced};
ghost use Rattle.guest_image.specs.Memory.{put_bytes};
ghost use Rattle.guest_space.specs.Space.{flat};
ghost use Rattle.run_history.specs.Machine.{Machine};
ghost use Rattle.run_history.specs.Call.{set_bytes};
ghost use Rattle.guest_cpu.specs.Standing.{set_range};
ghost use Rattle.guest_cpu.specs.Turns.{Wrote};
ghost use Rattle.guest_cpu.specs.Placing.{IsAnswered};

use block_book::{Ask, Choice};
use guest_space::GuestSpace;

/// Sets the first bytes of a new block: those that it gets from the block that it replaces, those that the answer carries behind them, and
/// zeros up to its end where the answer says so. A null answer sets none.
pub fn set_block(space: &mut GuestSpace, choice: Choice, kept: u32)
    requires { IsAnswered space.old choice kept }
    ensures { (m : Machine) → m.memory ≡ flat space.old → kept ≡ kept_count m.blocks (bytes_asked choice.ask) (replaced choice.ask)
        → (flat space.new ≡ put_bytes m.memory choice.at (set_bytes m choice)) × Wrote (set_range m.blocks choice) space.old space.new }
{
    space.sound();
    let moved = kept + choice.carried;
    let count = count_set(choice, moved);
    if count == 0 {
        return;
    }
    space.copy(source(choice.ask), choice.at, moved);
    space.zero(choice.at + moved, count - moved);
}

// How many bytes are set from a new block's first on, where so many come from the old one's place.
fn count_set(choice: Choice, moved: u32) -> u32
    requires { choice.at ≢ 0 → bytes_asked choice.ask < 2 ^ 32 }
    ensures { result ≡ (if choice.at == 0 then 0 else if choice.zeroed then max (bytes_asked choice.ask) moved else moved) }
{
    if choice.at == 0 {
        return 0;
    }
    if !choice.zeroed {
        return moved;
    }
    choice.ask.bytes().unwrap_or(0).max(moved)
}

// Where the block stands that an ask replaces, or 0.
fn source(ask: Ask) -> u32
    ensures { result ≡ unwrap_or (replaced ask) 0 }
{
    match ask {
        Ask::Realloc { old, .. } => old,
        _ => 0,
    }
}
