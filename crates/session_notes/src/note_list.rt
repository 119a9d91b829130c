// Notes in memory, of which certain calls fail.
ghost use Rattle.std.specs.Prelude.{◌≡◌, [], ◌<◌, length};
ghost use Rattle.rx_base.specs.Planned.{FailsBy, fails_next, after_call, first_plan};
ghost use Rattle.session_notes.specs.Noting.{ChoicesShow, EpisodeShows};

use crate::keeping::{keep_choices, keep_episode};
use crate::{Episode, Notes};
use block_book::Choice;
use rx_base::{Fails, IoFault};
use std::alloc::Global;

/// Notes that are kept as two lists, and of which the calls with given numbers fail.
#[derive(Drop)]
pub struct NoteList {
    alloc: Global,
    choices: Vec<Choice>,
    episodes: Vec<Episode>,
    fails: Fails,
}

impl NoteList {
    ghost use Rattle.session_notes.specs.Lists.{list_choices, list_episodes, list_plan};

    /// Nothing is noted yet. The calls whose numbers are in `fails`, counted from 1 over both kinds together, answer
    /// `Failed` and note nothing.
    pub fn make(alloc: Global, fails: Vec<u64>) -> NoteList
        ensures choices { list_choices result ≡ [] }
        ensures episodes { list_episodes result ≡ [] }
        ensures plan { list_plan result ≡ first_plan fails.items }
    {
        NoteList {
            alloc,
            choices: Vec::new(alloc),
            episodes: Vec::new(alloc),
            fails: Fails::make(fails),
        }
    }

    /// The episodes noted, in their order.
    pub fn episodes(&self) -> &[Episode]
        ensures { result.now ≡ list_episodes self.now }
    {
        &self.episodes
    }

    /// The answers of the allocator noted, in their order.
    pub fn kept_choices(&self) -> &[Choice]
        ensures { result.now ≡ list_choices self.now }
    {
        &self.choices
    }
}

impl Notes for NoteList {
    ghost use Rattle.session_notes.specs.Lists.{list_plan, shown_in};

    ghost shown = { shown_in };

    ghost Fixed = { Unit {0} };

    ghost fixed = { λ _. tt };

    /// A call that doesn't fail notes all of them, or none where memory ran out.
    fn choices(&mut self, list: &[Choice]) -> Result<(), IoFault>
        requires { 0 < length list.now }
        ensures shows { ChoicesShow (shown_in self.old) (shown_in self.new) list.now result }
        ensures answer { FailsBy (fails_next (list_plan self.old)) result }
        ensures plan { list_plan self.new ≡ after_call (list_plan self.old) }
    {
        if self.fails.call_fails() {
            return Err(IoFault::Failed);
        }
        keep_choices(&mut self.choices, list)
    }

    /// A call that doesn't fail notes a copy, or nothing where memory ran out.
    fn episode(&mut self, e: &Episode) -> Result<(), IoFault>
        ensures shows { EpisodeShows (shown_in self.old) (shown_in self.new) e.now result }
        ensures answer { FailsBy (fails_next (list_plan self.old)) result }
        ensures plan { list_plan self.new ≡ after_call (list_plan self.old) }
    {
        if self.fails.call_fails() {
            return Err(IoFault::Failed);
        }
        keep_episode(self.alloc, &mut self.episodes, e)
    }
}
