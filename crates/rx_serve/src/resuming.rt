// A session that takes over from a host that was killed: its two files are started, and it follows over a trunk, and serves on.
ghost use Rattle.std.specs.Prelude.{◌≡◌, ◌≤◌, ◌+◌, Err};
ghost use Rattle.command_line.specs.Commands.{run_shown};
ghost use Rattle.command_line.specs.Ranges.{AreInRange};
ghost use Rattle.file_notes.specs.Calling.{AddsAlone, CallsUpTo};
ghost use Rattle.file_notes.specs.Names.{AreTwo};
ghost use Rattle.rx_base.specs.Faults.{HasCause, Rose};
ghost use Rattle.run_history.specs.declared.answer.Answer.TheVariants as answer;
ghost use Rattle.session_following.specs.HandedOver.{handed_of};
ghost use Rattle.session_following.specs.TakingOver.{MayBeHanded};
ghost use Rattle.session_state.specs.Serving.{IsReadyToServe, rules_by};
ghost use Rattle.rx_serve.specs.Noting.{names_of};
ghost use Rattle.rx_serve.specs.Outside.{outside, faults, HasFaults};
ghost use Rattle.rx_serve.specs.Resuming.{StartsTakenOver, before_taken};
ghost use Rattle.rx_serve.specs.Settings.{window_of};
ghost use Rattle.rx_serve.specs.TakingOn.{BeginsBehind, ResumesNoted, resumed_answer};

use crate::noting::{note_answer, report_form};
use crate::settings::options_of;
use command_line::RunCommand;
use file_notes::{FileNames, FileNotes, FirstLine, start_taken_over};
use guest_image::Image;
use guest_space::AccessRule;
use recovery::NoWatch;
use routes::resume_trunk;
use run_history::Answer;
use rx_base::{IoFault, Steps};
use rx_engine::Session;
use rx_io::{Files, Sink, Source};
use session_following::{HandedOver, Unfollowed};
use session_notes::Episode;
use std::alloc::Global;
use std::sync::ledger::Ledger;
use telling::{Teller, TellingWatch};

// Starts both files: the record is emptied, the report gets its first line and these episodes, and then the record gets its first line.
fn start_behind<F: Files>(
    alloc: Global,
    files: &mut F,
    run: &RunCommand<'_>,
    episodes: &[Episode],
) -> Result<(), IoFault>
    requires in_range { AreInRange (run_shown run.now) }
    requires two { AreTwo (names_of (run_shown run.now)) }
    ensures starts { StartsTakenOver (run_shown run.now) episodes.now (F.told files.old) (F.told files.new) result }
    ensures calls { CallsUpTo (F.calls files.old) (F.calls files.new) (before_taken (run_shown run.now)) result }
    ensures cause { HasCause (F.faults files.old) (F.faults files.new) result }
{
    let names = FileNames {
        record: run.recording,
        report: run.report,
    };
    let first = FirstLine {
        window: run.window,
        frame: run.frame,
    };
    start_taken_over(
        alloc,
        files,
        &names,
        &first,
        report_form(run.form),
        episodes,
    )
}

/// Starts the record and the report of a session that takes over, and begins it under an access rule.
pub(crate) fn begin_behind<R: AccessRule + Drop, F: Files>(
    alloc: Global,
    run: &RunCommand<'_>,
    rule: R,
    image: &Image,
    episodes: &[Episode],
    files: &mut F,
) -> Result<Session<R>, Answer>
    requires in_range { AreInRange (run_shown run.now) }
    requires two { AreTwo (names_of (run_shown run.now)) }
    requires window { image.now.window ≡ window_of (run_shown run.now) }
    ensures begins { BeginsBehind (run_shown run.now) rule image.now episodes.now (F.told files.old) (F.told files.new) result }
    ensures calls { CallsUpTo (F.calls files.old) (F.calls files.new) (before_taken (run_shown run.now)) result }
    ensures later { F.faults files.old ≤ F.faults files.new }
    ensures file_fault { result ≡ Err answer.FileFault → Rose (F.faults files.old) (F.faults files.new) }
    ensures no_other { (result ≡ Err answer.ReadFault → ⊥) × (result ≡ Err answer.WriteFault → ⊥) }
{
    let options = options_of(run);
    if let Err(fault) = start_behind(alloc, files, run, episodes) {
        return Err(note_answer(fault));
    }
    match Session::begin(alloc, image, &options, rule) {
        Ok(session) => Ok(session),
        Err(_) => Err(Answer::Memory),
    }
}

/// Takes over a trunk, and notes the answers of the allocator and the recoveries in both files, behind the episodes that were handed over.
pub(crate) fn resume_noted<R: AccessRule, F: Files, S: Source, K: Sink, T: Teller, L: Ledger>(
    alloc: Global,
    run: &RunCommand<'_>,
    handed: &HandedOver<'_>,
    session: &mut Session<R>,
    files: &mut F,
    input: &mut S,
    output: &mut K,
    teller: &T,
    steps: &mut Steps<L>,
) -> Result<Answer, Unfollowed>
    requires two { AreTwo (names_of (run_shown run.now)) }
    requires begun { IsReadyToServe session.old }
    requires handed { MayBeHanded (handed_of handed.now) }
    ensures resumes { ResumesNoted (rules_by R.rule session.old) (run_shown run.now) (handed_of handed.now) (outside (F.told files.old) (F.calls files.old) (S.told input.old) (K.told output.old) steps.old) (outside (F.told files.new) (F.calls files.new) (S.told input.new) (K.told output.new) steps.new) session.old session.new result }
    ensures adds { AddsAlone (names_of (run_shown run.now)) (F.calls files.old) (F.calls files.new) }
    ensures later { F.faults files.old ≤ F.faults files.new }
    ensures faults { HasFaults (faults (F.faults files.old) (S.faults input.old) (K.faults output.old)) (faults (F.faults files.new) (S.faults input.new) (K.faults output.new)) (resumed_answer result) }
    ensures counted_at_least { steps.old + session.new.steps ≤ steps.new }
{
    let names = FileNames {
        record: run.recording,
        report: run.report,
    };
    let number = handed.episodes.len() as u64;
    let form = report_form(run.form);
    let mut notes = FileNotes::make_behind(alloc, &mut *files, names, form, number);
    let mut watch = TellingWatch::make(teller, NoWatch);
    let answer = resume_trunk(
        alloc, session, handed, input, output, &mut notes, &mut watch, teller, steps,
    );
    let _ = notes.is_whole();
    answer
}
