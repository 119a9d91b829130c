// Who tells a person of recoveries.

use crate::{Helps, Sighting};
use session_notes::Episode;

/// Somebody who tells a person of failures and of what was tried. What it shows no clause says.
pub trait Teller {
    /// Whether it wants to know what is seen at a failure.
    fn wants(&self) -> bool;

    /// A program failed, and this was seen of it. What is tried comes behind.
    fn failed(&self, seen: &Sighting);

    /// Everything was tried behind a failure, and this helps; None where nothing does.
    fn tried(&self, helps: Option<Helps>);

    /// What was tried after a failure was noted.
    fn noted(&self, episode: &Episode);
}

/// Nobody is told.
#[derive(Clone, Copy, Debug, PartialEq, Eq)]
pub struct NoTeller;

impl Teller for NoTeller {
    fn wants(&self) -> bool {
        false
    }

    fn failed(&self, _seen: &Sighting) {}

    fn tried(&self, _helps: Option<Helps>) {}

    fn noted(&self, _episode: &Episode) {}
}
