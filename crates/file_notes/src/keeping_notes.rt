// Notes whose episodes are kept in memory too.
ghost use Rattle.file_notes.specs.Keeping.{IsCopy, IsCopy-prop};

use block_book::Choice;
use rx_base::IoFault;
use session_notes::{Episode, Notes};

/// Notes, and others that keep a copy of each episode that is noted. Where the others fail, the copy is given up, and the notes go on.
#[derive(Drop)]
pub struct KeepingNotes<N: Notes, M: Notes> {
    notes: N,
    kept: M,
    lost: bool,
    ghost copied: { IsCopy lost (N.shown notes).told.episodes (M.shown kept).told.episodes } by { IsCopy-prop lost (N.shown notes).told.episodes (M.shown kept).told.episodes },
}

impl<N: Notes, M: Notes> KeepingNotes<N, M> {
    ghost use Rattle.std.specs.Prelude.{◌≡◌, List, Some, true, false};
    ghost use Rattle.session_notes.specs.declared.episode.Episode.{Episode as Noted};
    ghost use Rattle.file_notes.specs.Keeping.{IsCopy};

    /// Both tell the same episodes.
    pub fn make(notes: N, kept: M) -> KeepingNotes<N, M>
        requires { IsCopy false (N.shown notes).told.episodes (M.shown kept).told.episodes }
        ensures notes { result.notes ≡ notes }
        ensures kept { result.kept ≡ kept }
    {
        KeepingNotes {
            notes,
            kept,
            lost: false,
        }
    }

    /// Whether each episode that was noted is kept.
    pub fn is_copied(&self) -> bool
        ensures { result ≡ true → IsCopy false (N.shown self.now.notes).told.episodes (M.shown self.now.kept).told.episodes }
    {
        !self.lost
    }
}

impl<N: Notes, M: Notes> Notes for KeepingNotes<N, M> {
    ghost use Rattle.std.specs.Prelude.{◌≡◌, ◌<◌, length};
    ghost use Rattle.session_notes.specs.Noting.{ChoicesShow, EpisodeShows};

    ghost shown = { λ s. N.shown s.notes };

    ghost Fixed = { N.Fixed × M.Fixed };

    ghost fixed = { λ s. (N.fixed s.notes, M.fixed s.kept) };

    fn choices(&mut self, list: &[Choice]) -> Result<(), IoFault> {
        self.notes.choices(list)
    }

    fn episode(&mut self, e: &Episode) -> Result<(), IoFault> {
        match self.notes.episode(e) {
            Ok(()) => {
                if let Err(_) = self.kept.episode(e) {
                    self.lost = true;
                }
                Ok(())
            }
            Err(fault) => Err(fault),
        }
    }
}
