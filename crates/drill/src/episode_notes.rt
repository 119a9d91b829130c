// The notes of a drill.
ghost use Rattle.std.specs.Prelude.{◌≡◌, ◌<◌, [], length};
ghost use Rattle.session_notes.specs.Lists.{list_plan};

use block_book::Choice;
use rx_base::IoFault;
use session_notes::{Episode, NoteList, Notes};
use std::alloc::Global;

/// Notes that are kept as two lists, and of which no call fails.
#[derive(Drop)]
pub struct EpisodeNotes {
    list: NoteList,
    ghost never: { (list_plan list).numbers ≡ [] },
}

impl EpisodeNotes {
    ghost use Rattle.session_notes.specs.Lists.{list_choices, list_episodes};

    /// Nothing is noted yet.
    pub fn make(alloc: Global) -> EpisodeNotes
        ensures choices { list_choices result.list ≡ [] }
        ensures episodes { list_episodes result.list ≡ [] }
    {
        EpisodeNotes {
            list: NoteList::make(alloc, Vec::new(alloc)),
        }
    }

    /// How many episodes were noted.
    pub fn count(&self) -> usize
        ensures { result ≡ length (list_episodes self.now.list) }
    {
        self.list.episodes().len()
    }
}

impl Notes for EpisodeNotes {
    ghost use Rattle.session_notes.specs.Noting.{ChoicesShow, EpisodeShows};
    ghost use Rattle.drill.specs.Notes.{shown_quietly};

    ghost shown = { λ s. shown_quietly s.list };

    ghost Fixed = { Unit {0} };

    ghost fixed = { λ _. tt };

    fn choices(&mut self, list: &[Choice]) -> Result<(), IoFault>
        requires { 0 < length list.now }
        ensures shows { ChoicesShow (shown_quietly self.old.list) (shown_quietly self.new.list) list.now result }
    {
        self.list.choices(list)
    }

    fn episode(&mut self, e: &Episode) -> Result<(), IoFault>
        ensures shows { EpisodeShows (shown_quietly self.old.list) (shown_quietly self.new.list) e.now result }
    {
        self.list.episode(e)
    }
}
