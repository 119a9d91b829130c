// A link that is lent: no call changes which link the reference is to.
ghost use Rattle.std.specs.Prelude.{◌≡◌, refl};
ghost use Rattle.std.proofs.Common.{◌∙◌};

use crate::{Given, Link, LinkEvent, LinkFault};
use rx_base::Conn;

impl<T: Link> Link for &mut T {
    ghost seen = { λ s. T.seen s.now };

    ghost sound = { λ s. T.sound s.now };

    ghost Went = { λ old new. (new.ghost_name ≡ old.ghost_name) × T.Went old.now new.now };

    ghost went_same = { λ s. (refl, T.went_same s.now) };

    ghost went_on = { λ first second third one two. (two.0 ∙ one.0, T.went_on first.now second.now third.now one.1 two.1) };

    fn next(&mut self) -> Result<LinkEvent, LinkFault> {
        Link::next(&mut **self)
    }

    fn give(&mut self, conn: Conn, bytes: &[u8]) -> Result<Given, LinkFault> {
        Link::give(&mut **self, conn, bytes)
    }
}
