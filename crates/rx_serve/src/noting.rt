// The two files of a session: its record and its report.
ghost use Rattle.std.specs.Prelude.{◌≡◌, ◌⊎◌, ℕ, ◌+◌, ◌-◌, ◌≤◌, ◌<◌, ◌^◌, true, false, Some, None, if◌then◌else◌};
ghost use Rattle.command_line.specs.Commands.{run_shown};
ghost use Rattle.command_line.specs.Ranges.{AreInRange};
ghost use Rattle.guest_image.specs.declared.image.Image.{Image};
ghost use Rattle.file_notes.specs.Calling.{AddsAlone, CallsUpTo, starting};
ghost use Rattle.file_notes.specs.Names.{AreTwo};
ghost use Rattle.session_state.specs.Options.{keeping_for};
ghost use Rattle.session_state.specs.Serving.{IsReadyToServe, outcome_of};
ghost use Rattle.session_state.specs.Sessions.{IsBegun};
ghost use Rattle.rx_base.specs.Faults.{Rose, HasCause};
ghost use Rattle.run_history.specs.declared.answer.Answer.TheVariants as answer;
ghost use Rattle.rx_base.specs.declared.item.TheConstants.{MAX_ITEMS};
ghost use Rattle.session_history.specs.Ends.{IsEnd, answer_of};
ghost use Rattle.session_history.specs.declared.ends.Stop.{Stop};
ghost use Rattle.file_notes.specs.Keeping.{IsCopy};
ghost use Rattle.routes.specs.OverTrunk.{trunk_counts};
ghost use Rattle.routes.specs.Serving.{HasServedOver, Trunk};
ghost use Rattle.session_history.specs.Answering.{HasAnswerCause};
ghost use Rattle.session_notes.specs.Lists.{list_episodes};
ghost use Rattle.session_state.specs.Serving.{rules_by};
ghost use Rattle.rx_serve.specs.Calling.{CallsEnding};
ghost use Rattle.rx_serve.specs.Diagnosing.{IsKept};
ghost use Rattle.rx_serve.specs.Noting.{IsFilesAnswer, names_of, report_form, StartsFiles, WatchesNoted, ClosesFiles};
ghost use Rattle.rx_serve.specs.Outside.{outside, faults, HasFaults};

use crate::ending::status_of_answer;
use command_line::RunCommand;
use file_notes::{
    FileNames, FileNotes, FirstLine, KeepingNotes, LastLines, end_files, start_files,
};
use guest_space::AccessRule;
use recovery::Watch;
use routes::serve_trunk;
use run_history::Answer;
use run_report::Form;
use rx_base::{IoFault, Steps};
use rx_engine::Session;
use rx_io::{Files, Sink, Source};
use session_notes::{NoteList, Notes};
use std::alloc::Global;
use std::sync::ledger::Ledger;
use telling::Teller;

// The form of a report, as a command names it.
pub(crate) fn report_form(form: command_line::Form) -> Form
    ensures { result ≡ report_form form }
{
    match form {
        command_line::Form::Text => Form::Text,
        command_line::Form::Json => Form::Json,
    }
}

// A fault of a session's files, as its answer.
pub(crate) fn note_answer(fault: IoFault) -> Answer
    ensures { IsFilesAnswer fault result }
{
    match fault {
        IoFault::Failed => Answer::FileFault,
        IoFault::Memory => Answer::Memory,
    }
}

// Whether an answer is an end of a session, without fault or want of memory.
pub(crate) fn is_end(answer: Answer) -> bool
    ensures end { result ≡ true → IsEnd answer }
    ensures none { result ≡ false → IsEnd answer → ⊥ }
{
    matches!(
        answer,
        Answer::Finished
            | Answer::Exited(_)
            | Answer::GaveUp { .. }
            | Answer::InputRefused { .. }
            | Answer::MessageTooLong { .. }
            | Answer::LimitItems
            | Answer::LimitEvents
    )
}

/// Starts both files, each with its first line.
pub(crate) fn start_notes<F: Files>(
    alloc: Global,
    files: &mut F,
    run: &RunCommand<'_>,
) -> Result<(), IoFault>
    requires in_range { AreInRange (run_shown run.now) }
    requires two { AreTwo (names_of (run_shown run.now)) }
    ensures starts { StartsFiles (run_shown run.now) (F.told files.old) (F.told files.new) result }
    ensures calls { CallsUpTo (F.calls files.old) (F.calls files.new) (starting (names_of (run_shown run.now))) result }
    ensures cause { HasCause (F.faults files.old) (F.faults files.new) result }
{
    let names = FileNames {
        record: run.recording,
        report: run.report,
    };
    let first = FirstLine {
        window: run.window,
        frame: run.frame,
    };
    start_files(alloc, files, &names, &first, report_form(run.form))
}

/// Serves a trunk, and notes the answers of the allocator and the recoveries in both files. What the watch counts isn't the session's.
pub(crate) fn serve_noted<
    R: AccessRule,
    F: Files,
    S: Source,
    K: Sink,
    W: Watch,
    T: Teller,
    L: Ledger,
>(
    alloc: Global,
    run: &RunCommand<'_>,
    session: &mut Session<R>,
    files: &mut F,
    input: &mut S,
    output: &mut K,
    watch: &mut W,
    teller: &T,
    steps: &mut Steps<L>,
) -> Answer
    requires two { AreTwo (names_of (run_shown run.now)) }
    requires begun { IsReadyToServe session.old }
    ensures serves { (why : Stop) × (result ≡ answer_of why) × ((image : Image) (own : ℕ) → IsBegun image session.old.options session.old.cpu.rule session.old → own + W.ran watch.new ≡ W.ran watch.old + steps.new
        → WatchesNoted (rules_by R.rule session.old) (keeping_for session.old.options) image (run_shown run.now) (Trunk (S.told input.old) (S.told input.new) (K.told output.old) (K.told output.new)) (outside (F.told files.old) (F.calls files.old) (S.told input.old) (K.told output.old) steps.old) (outside (F.told files.new) (F.calls files.new) (S.told input.new) (K.told output.new) own) (outcome_of why session.new) (W.tables watch.old) (W.tables watch.new)) }
    ensures adds { AddsAlone (names_of (run_shown run.now)) (F.calls files.old) (F.calls files.new) }
    ensures later { F.faults files.old ≤ F.faults files.new }
    ensures faults { HasFaults (faults (F.faults files.old) (S.faults input.old) (K.faults output.old)) (faults (F.faults files.new) (S.faults input.new) (K.faults output.new)) result }
    ensures counted_at_least { W.ran watch.new + steps.old + session.new.steps ≤ W.ran watch.old + steps.new }
{
    let names = FileNames {
        record: run.recording,
        report: run.report,
    };
    let mut notes = FileNotes::make(alloc, &mut *files, names, report_form(run.form));
    let answer = serve_trunk(
        alloc, session, input, output, &mut notes, watch, teller, steps,
    );
    let _ = notes.is_whole();
    answer
}

/// How a session was answered, and the episodes that were noted, if they could be kept.
#[derive(Drop)]
pub(crate) struct Kept {
    pub(crate) answer: Answer,
    pub(crate) episodes: Option<NoteList>,
}

// Serves a trunk, and tells each episode to both notes; and whether each that was noted is kept in the list.
fn serve_copied<R: AccessRule, S: Source, K: Sink, N: Notes, W: Watch, T: Teller, L: Ledger>(
    alloc: Global,
    session: &mut Session<R>,
    input: &mut S,
    output: &mut K,
    notes: &mut N,
    list: &mut NoteList,
    watch: &mut W,
    teller: &T,
    steps: &mut Steps<L>,
) -> (Answer, bool)
    requires begun { IsReadyToServe session.old }
    requires same { IsCopy false (N.shown notes.old).told.episodes (Some (list_episodes list.old)) }
    ensures served { HasServedOver (Trunk (S.told input.old) (S.told input.new) (K.told output.old) (K.told output.new)) (rules_by R.rule session.old) (N.shown notes.old) (N.shown notes.new) ((W.ran watch.old + steps.new) - (W.ran watch.new + steps.old)) (W.tables watch.old) (W.tables watch.new) session.old session.new result.0 }
    ensures cause { HasAnswerCause (trunk_counts (S.faults input.old) (K.faults output.old)) (trunk_counts (S.faults input.new) (K.faults output.new)) result.0 }
    ensures fixed { N.fixed notes.new ≡ N.fixed notes.old }
    ensures counted_at_least { W.ran watch.new + steps.old + session.new.steps ≤ W.ran watch.old + steps.new }
    ensures copied { result.1 ≡ true → IsCopy false (N.shown notes.new).told.episodes (Some (list_episodes list.new)) }
{
    let mut both = KeepingNotes::make(&mut *notes, &mut *list);
    let answer = serve_trunk(
        alloc, session, input, output, &mut both, watch, teller, steps,
    );
    let copied = both.is_copied();
    (answer, copied)
}

// A list, if it has all that it should.
fn kept_if(copied: bool, list: NoteList) -> Option<NoteList>
    ensures { result ≡ (if copied then Some list else None) }
{
    if copied { Some(list) } else { None }
}

/// The same, and keeps the episodes that were noted, unless memory runs out for that.
pub(crate) fn serve_kept<
    R: AccessRule,
    F: Files,
    S: Source,
    K: Sink,
    W: Watch,
    T: Teller,
    L: Ledger,
>(
    alloc: Global,
    run: &RunCommand<'_>,
    session: &mut Session<R>,
    files: &mut F,
    input: &mut S,
    output: &mut K,
    watch: &mut W,
    teller: &T,
    steps: &mut Steps<L>,
) -> Kept
    requires two { AreTwo (names_of (run_shown run.now)) }
    requires begun { IsReadyToServe session.old }
    ensures serves { (why : Stop) × (result.answer ≡ answer_of why) × ((image : Image) (own : ℕ) → IsBegun image session.old.options session.old.cpu.rule session.old → own + W.ran watch.new ≡ W.ran watch.old + steps.new
        → (w : WatchesNoted (rules_by R.rule session.old) (keeping_for session.old.options) image (run_shown run.now) (Trunk (S.told input.old) (S.told input.new) (K.told output.old) (K.told output.new)) (outside (F.told files.old) (F.calls files.old) (S.told input.old) (K.told output.old) steps.old) (outside (F.told files.new) (F.calls files.new) (S.told input.new) (K.told output.new) own) (outcome_of why session.new) (W.tables watch.old) (W.tables watch.new)) × IsKept result.episodes w.noted.episodes) }
    ensures adds { AddsAlone (names_of (run_shown run.now)) (F.calls files.old) (F.calls files.new) }
    ensures later { F.faults files.old ≤ F.faults files.new }
    ensures faults { HasFaults (faults (F.faults files.old) (S.faults input.old) (K.faults output.old)) (faults (F.faults files.new) (S.faults input.new) (K.faults output.new)) result.answer }
    ensures counted_at_least { W.ran watch.new + steps.old + session.new.steps ≤ W.ran watch.old + steps.new }
{
    let names = FileNames {
        record: run.recording,
        report: run.report,
    };
    let mut notes = FileNotes::make(alloc, &mut *files, names, report_form(run.form));
    let mut list = NoteList::make(alloc, Vec::new(alloc));
    let (answer, copied) = serve_copied(
        alloc, session, input, output, &mut notes, &mut list, watch, teller, steps,
    );
    let _ = notes.is_whole();
    let episodes = kept_if(copied, list);
    Kept { answer, episodes }
}

/// Adds the last lines to both files, where a session came to this end, and answers how it ended then.
pub(crate) fn end_notes<F: Files>(
    alloc: Global,
    files: &mut F,
    run: &RunCommand<'_>,
    ended: Answer,
    taken: u64,
    steps: u64,
) -> Answer
    requires two { AreTwo (names_of (run_shown run.now)) }
    requires taken { taken ≤ MAX_ITEMS }
    requires steps { steps < 2 ^ 63 }
    ensures closes { ClosesFiles (run_shown run.now) taken steps (F.told files.old) (F.told files.new) ended result }
    ensures calls { CallsEnding (run_shown run.now) (F.calls files.old) (F.calls files.new) ended result }
    ensures later { F.faults files.old ≤ F.faults files.new }
    ensures file_fault { result ≡ answer.FileFault → (ended ≡ answer.FileFault) ⊎ Rose (F.faults files.old) (F.faults files.new) }
{
    if !is_end(ended) {
        return ended;
    }
    let names = FileNames {
        record: run.recording,
        report: run.report,
    };
    let last = LastLines {
        status: status_of_answer(ended),
        taken,
        steps,
    };
    match end_files(alloc, files, &names, report_form(run.form), &last) {
        Ok(()) => ended,
        Err(fault) => note_answer(fault),
    }
}
