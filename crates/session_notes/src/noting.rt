// What a session notes while it serves.
ghost use Rattle.std.specs.Prelude.{◌≡◌, ◌<◌, length};
ghost use Rattle.session_notes.specs.Noting.{Shown, ChoicesShow, EpisodeShows};

use crate::Episode;
use block_book::Choice;
use rx_base::IoFault;

/// What a session notes while it serves: its answers of the allocator and its episodes, two lists that grow at their ends.
pub trait Notes {
    /// What they show of themselves: the answers of the allocator and the episodes noted so far, and what the first call that failed was handed, if they
    /// tell them; how often a call has failed.
    ghost shown: { Self → Shown };

    /// What of it no call changes.
    ghost Fixed: { Type 0 };

    /// It stays as it is.
    ghost fixed: { Self → Fixed };

    /// Notes answers of the allocator that can't be rolled back any more, in their order. At least one. After an `Err` none is
    /// noted.
    ///
    /// # Errors
    ///
    /// `Failed` only where the count of faults rose; `Memory`.
    fn choices(&mut self, list: &[Choice]) -> Result<(), IoFault>
        requires { 0 < length list.now }
        ensures shows { ChoicesShow (shown self.old) (shown self.new) list.now result }
        ensures fixed { fixed self.new ≡ fixed self.old };

    /// Notes a failure and what was tried after it. After an `Err` it isn't noted.
    ///
    /// # Errors
    ///
    /// `Failed` only where the count of faults rose; `Memory`.
    fn episode(&mut self, e: &Episode) -> Result<(), IoFault>
        ensures shows { EpisodeShows (shown self.old) (shown self.new) e.now result }
        ensures fixed { fixed self.new ≡ fixed self.old };
}
