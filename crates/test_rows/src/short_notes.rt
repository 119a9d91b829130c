// Notes that run out of memory in mid-session.
ghost use Rattle.std.specs.Prelude.{None};
ghost use Rattle.session_notes.specs.Noting.{noted};

use block_book::Choice;
use rx_base::IoFault;
use session_notes::{Episode, Notes};

// Notes of which so many calls are done. Each call behind them answers `Memory` and does nothing. So they don't tell what a failed call was handed.
#[derive(Drop)]
pub struct ShortNotes<N: Notes> {
    pub notes: N,
    pub calls_left: u64,
}

impl<N: Notes> Notes for ShortNotes<N> {
    ghost shown = { λ s. record { told = noted (N.shown s.notes).told.choices (N.shown s.notes).told.episodes None; faults = (N.shown s.notes).faults } };

    ghost Fixed = { N.Fixed };

    ghost fixed = { λ s. N.fixed s.notes };

    fn choices(&mut self, list: &[Choice]) -> Result<(), IoFault> {
        if self.calls_left == 0 {
            return Err(IoFault::Memory);
        }
        self.calls_left -= 1;
        self.notes.choices(list)
    }

    fn episode(&mut self, e: &Episode) -> Result<(), IoFault> {
        if self.calls_left == 0 {
            return Err(IoFault::Memory);
        }
        self.calls_left -= 1;
        self.notes.episode(e)
    }
}
