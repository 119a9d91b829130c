// Notes that are lent: no call changes which notes the reference is to.
ghost use Rattle.std.specs.Borrow.{GName};

use crate::{Episode, Notes};
use block_book::Choice;
use rx_base::IoFault;

impl<T: Notes> Notes for &mut T {
    ghost shown = { λ s. T.shown s.now };

    ghost Fixed = { GName × T.Fixed };

    ghost fixed = { λ s. (s.ghost_name, T.fixed s.now) };

    fn choices(&mut self, list: &[Choice]) -> Result<(), IoFault> {
        Notes::choices(&mut **self, list)
    }

    fn episode(&mut self, e: &Episode) -> Result<(), IoFault> {
        Notes::episode(&mut **self, e)
    }
}
