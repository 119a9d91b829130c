// What a session is held to.
ghost use Rattle.std.specs.Prelude.{◌≡◌, ◌≤◌};
ghost use Rattle.command_line.specs.Commands.{run_shown};
ghost use Rattle.rx_serve.specs.Settings.{options_of};

use command_line::RunCommand;
use rx_base::MAX_ITEMS;
use rx_engine::Options;

/// How many events a session may have.
pub const MAX_EVENTS: u64 = 1 << 32;

/// The options of the session that a command asks for.
pub fn options_of(run: &RunCommand<'_>) -> Options
    requires { run.now.window ≤ 64 }
    ensures { result ≡ options_of (run_shown run.now) }
{
    Options {
        window: run.window << 20,
        frame: run.frame,
        hold: run.hold,
        ring: run.ring,
        every: run.every,
        frames: run.frames,
        budget: run.budget,
        keep: run.keep,
        base: run.env,
        max_items: MAX_ITEMS,
        max_events: MAX_EVENTS,
    }
}
