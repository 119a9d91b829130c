// A session's notes in two files.
ghost use Rattle.file_notes.specs.Names.{names_in};
ghost use Rattle.file_notes.specs.Invariant.{Called, Called-prop, IsNotes, IsNotes-prop};

use crate::adding::{add_choices, add_episode};
use crate::file_names::FileNames;
use crate::past::{Fresh, LostChoices, LostEpisode, MoreChoices, OneEpisode, Past};
use block_book::Choice;
use run_report::Form;
use rx_base::IoFault;
use rx_io::Files;
use session_notes::{Episode, Notes};
use std::alloc::Global;

/// A session's notes in two files: the record and the report.
#[derive(Drop)]
pub struct FileNotes<'n, F: Files> {
    alloc: Global,
    files: F,
    names: FileNames<'n>,
    form: Form,
    number: u64,
    broken: bool,
    past: Past,
    ghost stands: { IsNotes (names_in names) form (F.told files) past.was number broken } by { IsNotes-prop (names_in names) form (F.told files) past.was number broken },
    ghost called: { Called (names_in names) past.was.calls (F.calls files) } by { Called-prop (names_in names) past.was.calls (F.calls files) },
}

impl<'n, F: Files> FileNotes<'n, F> {
    ghost use Rattle.std.specs.Prelude.{◌≡◌, [], true};
    ghost use Rattle.file_notes.specs.Names.{AreTwo, names_in};
    ghost use Rattle.file_notes.specs.Left.{Nothing, is_whole};
    ghost use Rattle.file_notes.specs.Notes.{files_of, names_of, form_of, choices_of, episodes_of, left_of, first_of, told_before, told_behind, calls_before, StandsIn, StandsInBehind};
    ghost use Rattle.file_notes.specs.Calling.{AddsAlone};
    ghost use Rattle.file_notes.specs.Asks.{AreAsks};

    /// Nothing is noted yet. It makes no call. The two names are different ones.
    pub fn make(alloc: Global, files: F, names: FileNames<'n>, form: Form) -> FileNotes<'n, F>
        requires { AreTwo (names_in names) }
        ensures files { files_of result ≡ files }
        ensures names { names_of result ≡ names_in names.entry }
        ensures form { form_of result ≡ form }
        ensures choices { choices_of result ≡ [] }
        ensures episodes { episodes_of result ≡ [] }
        ensures left { left_of result ≡ Nothing }
        ensures before { (told_before result ≡ F.told files) × (calls_before result ≡ F.calls files) }
    {
        let past = Past::of(&Fresh {
            files: &files,
            names,
            number: 0,
        });
        FileNotes {
            alloc,
            files,
            names,
            form,
            number: 0,
            broken: false,
            past,
        }
    }

    /// The same behind a report that has so many episodes: the first one that is noted has this number, and the later ones are numbered on from it.
    pub fn make_behind(
        alloc: Global,
        files: F,
        names: FileNames<'n>,
        form: Form,
        number: u64,
    ) -> FileNotes<'n, F>
        requires { AreTwo (names_in names) }
        ensures files { files_of result ≡ files }
        ensures names { names_of result ≡ names_in names.entry }
        ensures form { form_of result ≡ form }
        ensures first { first_of result ≡ number }
        ensures nothing { (choices_of result ≡ []) × ((episodes_of result ≡ []) × (left_of result ≡ Nothing)) }
        ensures behind { (told_behind result ≡ F.told files) × (calls_before result ≡ F.calls files) }
    {
        let past = Past::of(&Fresh {
            files: &files,
            names,
            number,
        });
        FileNotes {
            alloc,
            files,
            names,
            form,
            number,
            broken: false,
            past,
        }
    }

    // Whether no call failed. Then the next one may add something.
    fn is_open(&self) -> bool
        ensures { result ≡ is_whole (left_of self.now) }
    {
        !self.broken
    }

    /// Whether no call failed. For whoever proves something of the files, it says what stands in them, that
    /// since the notes were made each call on them added to one of the two, and that the numbers of what was noted have 32 bits.
    pub fn is_whole(&self) -> bool
        ensures whole { result ≡ is_whole (left_of self.now) }
        ensures stands { StandsIn self.now }
        ensures behind { StandsInBehind self.now }
        ensures adds { AddsAlone (names_of self.now) (calls_before self.now) (F.calls (files_of self.now)) }
        ensures asks { AreAsks (choices_of self.now) }
    {
        self.is_open()
    }
}

impl<'n, F: Files> Notes for FileNotes<'n, F> {
    ghost use Rattle.std.specs.Prelude.{◌≡◌, ◌<◌, ℕ, length, List, Option};
    ghost use Rattle.rx_io.specs.Named.{Contents};
    ghost use Rattle.rx_io.specs.declared.file_calls.FileCall.{FileCall};
    ghost use Rattle.session_notes.specs.Noting.{ChoicesShow, EpisodeShows};
    ghost use Rattle.run_report.specs.declared.form.Form.{Form};
    ghost use Rattle.file_notes.specs.Names.{Names};
    ghost use Rattle.file_notes.specs.Left.{InRecord, InReport, Leaves};
    ghost use Rattle.file_notes.specs.Notes.{left_of, shown_of, notes_fixed};

    ghost shown = { shown_of F.faults };

    ghost Fixed = { (F.Fixed × (Option Contents × ℕ)) × (Names × (Form × (Option Contents × Option (List FileCall)))) };

    ghost fixed = { notes_fixed };

    /// Adds their lines to the record. After an `Err` of it or of an earlier call no later call adds anything.
    fn choices(&mut self, list: &[Choice]) -> Result<(), IoFault>
        requires { 0 < length list.now }
        ensures shows { ChoicesShow (shown_of F.faults self.old) (shown_of F.faults self.new) list.now result }
        ensures fixed { notes_fixed self.new ≡ notes_fixed self.old }
        ensures left { Leaves (InRecord list.now) (left_of self.old) (left_of self.new) result }
    {
        if !self.is_open() {
            return Err(IoFault::Memory);
        }
        let record = self.names.record;
        if let Err(fault) = add_choices(self.alloc, &mut self.files, record, list) {
            let past = Past::of(&LostChoices {
                files: &self.files,
                names: self.names,
                past: &self.past,
                more: list,
            });
            self.past = past;
            self.broken = true;
            return Err(fault);
        }
        let past = Past::of(&MoreChoices {
            past: &self.past,
            more: list,
        });
        self.past = past;
        Ok(())
    }

    /// Adds its text to the report. After an `Err` of it or of an earlier call no later call adds anything.
    fn episode(&mut self, e: &Episode) -> Result<(), IoFault>
        ensures shows { EpisodeShows (shown_of F.faults self.old) (shown_of F.faults self.new) e.now result }
        ensures fixed { notes_fixed self.new ≡ notes_fixed self.old }
        ensures left { Leaves (InReport e.now) (left_of self.old) (left_of self.new) result }
    {
        if !self.is_open() {
            return Err(IoFault::Memory);
        }
        let report = self.names.report;
        if let Err(fault) = add_episode(
            self.alloc,
            &mut self.files,
            report,
            self.form,
            self.number,
            e,
        ) {
            let past = Past::of(&LostEpisode {
                files: &self.files,
                names: self.names,
                form: self.form,
                past: &self.past,
                one: e,
            });
            self.past = past;
            self.broken = true;
            return Err(fault);
        }
        let past = Past::of(&OneEpisode {
            past: &self.past,
            one: e,
        });
        self.past = past;
        self.number += 1;
        Ok(())
    }
}
