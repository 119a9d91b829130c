// What the session of a drill is held to.
ghost use Rattle.std.specs.Prelude.{◌≡◌};
ghost use Rattle.drill.specs.Settings.{settings};

use alloc_env::Env;
use msg_frame::Framing;
use rx_base::MAX_ITEMS;
use rx_engine::Options;

/// The window of the program, in bytes.
pub const WINDOW: u32 = 4 << 20;

/// Every option at its default.
pub fn settings() -> Options
    ensures { result ≡ settings }
{
    Options {
        window: WINDOW,
        frame: Framing::Line,
        hold: 0,
        ring: 8,
        every: 1,
        frames: 4,
        budget: 1_000_000,
        keep: 4,
        base: Env::Plain,
        max_items: MAX_ITEMS,
        max_events: 1 << 32,
    }
}
