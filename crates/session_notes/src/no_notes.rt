// Notes that keep nothing.
ghost use Rattle.std.specs.Prelude.{IsOk};
ghost use Rattle.session_notes.specs.Noting.{ChoicesShow, EpisodeShows};
ghost use Rattle.session_notes.specs.Lists.{shows_nothing};

use crate::{Episode, Notes};
use block_book::Choice;
use rx_base::IoFault;

/// Notes that keep nothing and tell nothing. They never fail.
#[derive(Clone, Copy, Debug)]
pub struct NoNotes;

impl Notes for NoNotes {
    ghost shown = { λ _. shows_nothing };

    ghost Fixed = { Unit {0} };

    ghost fixed = { λ _. tt };

    /// Notes nothing.
    fn choices(&mut self, list: &[Choice]) -> Result<(), IoFault>
        ensures shows { ChoicesShow shows_nothing shows_nothing list.now result }
        ensures done { IsOk result }
    {
        let _ = list;
        Ok(())
    }

    /// Notes nothing.
    fn episode(&mut self, e: &Episode) -> Result<(), IoFault>
        ensures shows { EpisodeShows shows_nothing shows_nothing e.now result }
        ensures done { IsOk result }
    {
        let _ = e;
        Ok(())
    }
}
