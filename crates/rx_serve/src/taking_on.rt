// The command `resume`: a second host goes on for one that was killed, with a record and a report of the whole run.
ghost use Rattle.std.specs.Prelude.{◌≡◌, ◌+◌, ◌≤◌, option_map};
ghost use Rattle.command_line.specs.Commands.{resume_numbers, resume_shown, run_shown};
ghost use Rattle.command_line.specs.Ranges.{AreInRange, EachInRange};
ghost use Rattle.file_notes.specs.Names.{AreTwo};
ghost use Rattle.session_following.specs.HandedOver.{finish_of, handed_of};
ghost use Rattle.session_following.specs.TakingOver.{MayBeHanded};
ghost use Rattle.rx_serve.specs.Noting.{names_of};
ghost use Rattle.rx_serve.specs.Outside.{outside, faults, HasFaults};
ghost use Rattle.rx_serve.specs.Resuming.{ResumeEnds, ResumesSession, finish_as, unreleased_answer};
ghost use Rattle.rx_serve.specs.Settings.{rule_of, window_of};
ghost use Rattle.rx_serve.specs.Status.{status_of};
ghost use Rattle.rx_serve.specs.TakingOn.{handed_in, new_names};

use crate::ending::End;
use crate::noting::end_notes;
use crate::resuming::{begin_behind, resume_noted};
use crate::resuming_files::{Handover, load_handover};
use command_line::{Guard, ResumeCommand, RunCommand, run_in};
use guest_image::Image;
use guest_space::{AccessRule, AllMapped};
use heap_guard::{GuardMode, HeapGuard};
use run_history::Answer;
use rx_base::Steps;
use rx_io::{Files, Sink, Source};
use schedule_file::Finish;
use session_following::{HandedOver, Place, Unfollowed};
use std::alloc::Global;
use std::sync::ledger::Ledger;
use telling::Teller;

// Where a record's last line says that its run stood, as who follows takes it.
fn place_of(finish: Option<Finish>) -> Option<Place>
    ensures { option_map finish_of result ≡ option_map finish_as finish }
{
    match finish {
        Some(end) => Some(Place {
            steps: end.steps,
            taken: end.taken,
        }),
        None => None,
    }
}

// What is handed over, of what the four files were read as.
fn handed_over<'h>(over: &'h Handover) -> HandedOver<'h>
    ensures { handed_of result ≡ handed_in over.now }
{
    HandedOver {
        counts: over.counts.as_slice(),
        episodes: over.episodes.as_slice(),
        choices: over.handed.choices.as_slice(),
        finish: place_of(over.handed.finish),
    }
}

// The answer where a session wasn't released.
fn unreleased_answer(why: Unfollowed) -> Answer
    ensures { result ≡ unreleased_answer why }
{
    match why {
        Unfollowed::Mismatch { step } => Answer::Mismatch { step },
        Unfollowed::Short { conn } => Answer::Short { conn },
        Unfollowed::Stops(why) => why.answer(),
    }
}

// Takes over under an access rule, which is that of the command's guard.
fn resume_under<R: AccessRule + Drop, F: Files, S: Source, K: Sink, T: Teller, L: Ledger>(
    alloc: Global,
    run: &RunCommand<'_>,
    rule: R,
    image: &Image,
    handed: &HandedOver<'_>,
    files: &mut F,
    input: &mut S,
    output: &mut K,
    teller: &T,
    steps: &mut Steps<L>,
) -> End
    requires in_range { AreInRange (run_shown run.now) }
    requires two { AreTwo (names_of (run_shown run.now)) }
    requires rule { R.rule rule ≡ rule_of run.now.guard }
    requires window { image.now.window ≡ window_of (run_shown run.now) }
    requires handed { MayBeHanded (handed_of handed.now) }
    ensures resumes { ResumesSession (run_shown run.now) image.now (handed_of handed.now) (outside (F.told files.old) (F.calls files.old) (S.told input.old) (K.told output.old) steps.old) (outside (F.told files.new) (F.calls files.new) (S.told input.new) (K.told output.new) steps.new) result }
    ensures faults { HasFaults (faults (F.faults files.old) (S.faults input.old) (K.faults output.old)) (faults (F.faults files.new) (S.faults input.new) (K.faults output.new)) result.answer }
    ensures differs { result.difference ≡ None }
    ensures status { result.status ≡ status_of result.answer }
    ensures counted_at_least { steps.old + result.steps ≤ steps.new }
{
    let mut session = match begin_behind(alloc, run, rule, image, handed.episodes, files) {
        Ok(session) => session,
        Err(answer) => return End::without_session(alloc, answer),
    };
    let ended = match resume_noted(
        alloc,
        run,
        handed,
        &mut session,
        files,
        input,
        output,
        teller,
        steps,
    ) {
        Ok(ended) => ended,
        Err(why) => return End::without_session(alloc, unreleased_answer(why)),
    };
    let answer = end_notes(alloc, files, run, ended, session.taken(), session.steps());
    End::of_session(answer, session.into_end())
}

// Takes over. The access rule is chosen here, once, by the guard that the command asks for.
fn resume_guarded<F: Files, S: Source, K: Sink, T: Teller, L: Ledger>(
    alloc: Global,
    run: &RunCommand<'_>,
    image: &Image,
    handed: &HandedOver<'_>,
    files: &mut F,
    input: &mut S,
    output: &mut K,
    teller: &T,
    steps: &mut Steps<L>,
) -> End
    requires in_range { AreInRange (run_shown run.now) }
    requires two { AreTwo (names_of (run_shown run.now)) }
    requires window { image.now.window ≡ window_of (run_shown run.now) }
    requires handed { MayBeHanded (handed_of handed.now) }
    ensures resumes { ResumesSession (run_shown run.now) image.now (handed_of handed.now) (outside (F.told files.old) (F.calls files.old) (S.told input.old) (K.told output.old) steps.old) (outside (F.told files.new) (F.calls files.new) (S.told input.new) (K.told output.new) steps.new) result }
    ensures faults { HasFaults (faults (F.faults files.old) (S.faults input.old) (K.faults output.old)) (faults (F.faults files.new) (S.faults input.new) (K.faults output.new)) result.answer }
    ensures differs { result.difference ≡ None }
    ensures status { result.status ≡ status_of result.answer }
    ensures counted_at_least { steps.old + result.steps ≤ steps.new }
{
    match run.guard {
        Guard::Off => resume_under(
            alloc, run, AllMapped, image, handed, files, input, output, teller, steps,
        ),
        Guard::Extent => {
            let rule = HeapGuard::over(GuardMode::Extent);
            resume_under(
                alloc, run, rule, image, handed, files, input, output, teller, steps,
            )
        }
        Guard::Block => {
            let rule = HeapGuard::over(GuardMode::Block);
            resume_under(
                alloc, run, rule, image, handed, files, input, output, teller, steps,
            )
        }
    }
}

/// Loads a program, the record and the report of the host that was killed, and how many bytes each client has; starts a record and a report of its own; follows
/// that host's run over the trunk of input and output, and serves on once it has reached all that was handed over. Until then nothing is written to the output.
pub(crate) fn resume_program<F: Files, S: Source, K: Sink, T: Teller, L: Ledger>(
    alloc: Global,
    resume: &ResumeCommand<'_>,
    files: &mut F,
    input: &mut S,
    output: &mut K,
    teller: &T,
    steps: &mut Steps<L>,
) -> End
    requires in_range { EachInRange (resume_numbers (resume_shown resume.now)) }
    requires two { AreTwo (new_names (resume_shown resume.now)) }
    ensures ends { ResumeEnds (resume_shown resume.now) (outside (F.told files.old) (F.calls files.old) (S.told input.old) (K.told output.old) steps.old) (outside (F.told files.new) (F.calls files.new) (S.told input.new) (K.told output.new) steps.new) result }
    ensures faults { HasFaults (faults (F.faults files.old) (S.faults input.old) (K.faults output.old)) (faults (F.faults files.new) (S.faults input.new) (K.faults output.new)) result.answer }
    ensures differs { result.difference ≡ None }
    ensures status { result.status ≡ status_of result.answer }
    ensures counted_at_least { steps.old + result.steps ≤ steps.new }
{
    let over = match load_handover(alloc, files, resume) {
        Ok(over) => over,
        Err(answer) => return End::without_session(alloc, answer),
    };
    let run = run_in(resume, over.handed.window, over.handed.frame);
    let handed = handed_over(&over);
    resume_guarded(
        alloc,
        &run,
        &over.image,
        &handed,
        files,
        input,
        output,
        teller,
        steps,
    )
}
