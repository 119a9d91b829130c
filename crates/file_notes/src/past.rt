// What was noted so far, for proofs alone. It takes no memory, and nothing is done for it at run time.
ghost use Rattle.std.specs.Prelude.{◌≡◌};
ghost use Rattle.std.specs.Borrow.{ftrue};
ghost use Rattle.file_notes.specs.Names.{names_in};
ghost use Rattle.file_notes.specs.Past.{Past as Was, begun, with_choices, with_episode, without_choices, without_episode};
ghost use Rattle.file_notes.specs.Codes.{past_code};

use crate::file_names::FileNames;
use block_book::Choice;
use run_report::Form;
use rx_io::Files;
use session_notes::Episode;
use std::marker::Model;

// What is remembered of a value.
pub(crate) trait Remembers {
    ghost past: { Self → Was };
}

// What was noted so far, and what stood in the files before.
#[derive(Drop)]
pub(crate) struct Past {
    pub(crate) ghost was: { Was } by { past_code },
}

impl Model for Past {
    ghost also_owns = { λ _. ftrue };
}

impl Past {
    // What is remembered of this value.
    pub(crate) fn of<X: Remembers>(_x: &X) -> Past
        ensures { result.was ≡ X.past _x.now }
    {
        Past {}
    }
}

// Files and their names, before anything is noted, and the number that the first episode will have.
#[derive(Drop)]
pub(crate) struct Fresh<'a, 'n, F> {
    pub(crate) files: &'a F,
    pub(crate) names: FileNames<'n>,
    pub(crate) number: u64,
}

impl<'a, 'n, F: Files> Remembers for Fresh<'a, 'n, F> {
    ghost past = { λ fresh. begun (F.told fresh.files.now) (F.calls fresh.files.now) (names_in fresh.names) fresh.number };
}

// Answers of the allocator that were noted.
#[derive(Drop)]
pub(crate) struct MoreChoices<'a> {
    pub(crate) past: &'a Past,
    pub(crate) more: &'a [Choice],
}

impl<'a> Remembers for MoreChoices<'a> {
    ghost past = { λ noted. with_choices noted.past.now.was noted.more.now };
}

// An episode that was noted.
#[derive(Drop)]
pub(crate) struct OneEpisode<'a> {
    pub(crate) past: &'a Past,
    pub(crate) one: &'a Episode,
}

impl<'a> Remembers for OneEpisode<'a> {
    ghost past = { λ noted. with_episode noted.past.now.was noted.one.now };
}

// Answers of the allocator that weren't noted, since a call failed.
#[derive(Drop)]
pub(crate) struct LostChoices<'a, 'n, F> {
    pub(crate) files: &'a F,
    pub(crate) names: FileNames<'n>,
    pub(crate) past: &'a Past,
    pub(crate) more: &'a [Choice],
}

impl<'a, 'n, F: Files> Remembers for LostChoices<'a, 'n, F> {
    ghost past = { λ lost. without_choices (names_in lost.names) lost.past.now.was lost.more.now (F.told lost.files.now) };
}

// An episode that wasn't noted, since a call failed.
#[derive(Drop)]
pub(crate) struct LostEpisode<'a, 'n, F> {
    pub(crate) files: &'a F,
    pub(crate) names: FileNames<'n>,
    pub(crate) form: Form,
    pub(crate) past: &'a Past,
    pub(crate) one: &'a Episode,
}

impl<'a, 'n, F: Files> Remembers for LostEpisode<'a, 'n, F> {
    ghost past = { λ lost. without_episode (names_in lost.names) lost.form lost.past.now.was lost.one.now (F.told lost.files.now) };
}
