// Notes that let a teller know what was tried.
use crate::teller::Teller;
use block_book::Choice;
use rx_base::IoFault;
use session_notes::{Episode, Notes};

/// Notes that let a teller know of each episode that others noted. In all that a clause says they are those.
#[derive(Drop)]
pub struct TellingNotes<'a, T: Teller, N: Notes> {
    teller: &'a T,
    notes: N,
}

impl<'a, T: Teller, N: Notes> TellingNotes<'a, T, N> {
    ghost use Rattle.std.specs.Prelude.{◌≡◌};

    /// These notes note, and then the teller is told.
    pub fn make(teller: &'a T, notes: N) -> TellingNotes<'a, T, N>
        ensures { result.notes ≡ notes }
    {
        TellingNotes { teller, notes }
    }
}

impl<'a, T: Teller, N: Notes> Notes for TellingNotes<'a, T, N> {
    ghost shown = { λ s. N.shown s.notes };

    ghost Fixed = { N.Fixed };

    ghost fixed = { λ s. N.fixed s.notes };

    fn choices(&mut self, list: &[Choice]) -> Result<(), IoFault> {
        self.notes.choices(list)
    }

    fn episode(&mut self, e: &Episode) -> Result<(), IoFault> {
        match self.notes.episode(e) {
            Ok(()) => {
                self.teller.noted(e);
                Ok(())
            }
            Err(fault) => Err(fault),
        }
    }
}
