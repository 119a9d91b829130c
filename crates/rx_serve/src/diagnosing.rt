// The command `diagnose`: a session of a program as of `run`, and a diagnosis of each of its failures in a file of its own.
ghost use Rattle.std.specs.Prelude.{◌≡◌, ◌⊎◌, ◌+◌, ◌≤◌, List, [], ◌∷◌, length, MatchOption, Result, Ok};
ghost use Rattle.command_line.specs.Commands.{diagnose_shown, run_shown};
ghost use Rattle.command_line.specs.Ranges.{AreInRange};
ghost use Rattle.diagnosis.specs.Diagnosis.{rest_text};
ghost use Rattle.file_notes.specs.Beside.{IsThird};
ghost use Rattle.file_notes.specs.Names.{AreTwo};
ghost use Rattle.file_notes.specs.Calling.{CallsUpTo, starts_of};
ghost use Rattle.file_notes.specs.Writing.{Writes, all_kept};
ghost use Rattle.rx_base.specs.Faults.{Rose, HasCause};
ghost use Rattle.rx_io.specs.declared.file_calls.FileCall.TheVariants.{Added};
ghost use Rattle.run_history.specs.declared.answer.Answer.TheVariants as answer;
ghost use Rattle.session_history.specs.Ends.{IsEnd};
ghost use Rattle.session_notes.specs.Lists.{list_episodes};
ghost use Rattle.session_notes.specs.declared.episode.Episode.{Episode};
ghost use Rattle.rx_serve.specs.Diagnosing.{CallsClosing, ClosesDiagnosis, DiagnoseEnds, IsKept, StartsDiagnosis};
ghost use Rattle.rx_serve.specs.Noting.{names_of};
ghost use Rattle.rx_serve.specs.Outside.{outside, faults, HasFaults};
ghost use Rattle.rx_serve.specs.Settings.{rule_of};
ghost use Rattle.rx_serve.specs.Status.{status_of};

use crate::ending::{End, status_of_answer};
use crate::examining::TellingExaminer;
use crate::noting::{end_notes, is_end, note_answer, serve_kept};
use crate::serving::begin_session;
use command_line::{DiagnoseCommand, Guard};
use diagnosis::{head_text, rest_text};
use file_notes::{add_to_file, start_file};
use guest_space::{AccessRule, AllMapped};
use heap_guard::{GuardMode, HeapGuard};
use routes::laws::noted_tables_are_told;
use run_history::Answer;
use rx_base::{IoFault, Steps};
use rx_io::{Files, Sink, Source};
use session_notes::{NoteList, Tries};
use std::alloc::Global;
use std::sync::ledger::Ledger;
use telling::Teller;

// Starts the diagnosis with its first line. Where memory runs out no call is made.
fn start_diagnosis<F: Files>(
    alloc: Global,
    files: &mut F,
    diagnose: &DiagnoseCommand<'_>,
) -> Result<(), IoFault>
    ensures starts { StartsDiagnosis (diagnose_shown diagnose.now) (F.told files.old) (F.told files.new) result }
    ensures calls { CallsUpTo (F.calls files.old) (F.calls files.new) (starts_of diagnose.now.diagnosis.now) result }
    ensures cause { HasCause (F.faults files.old) (F.faults files.new) result }
{
    let Ok(head) = head_text(alloc) else {
        return Err(IoFault::Memory);
    };
    start_file(files, diagnose.diagnosis, head.as_slice())
}

// Adds the rest of the diagnosis, where the episodes were kept. Where they weren't, or memory runs out, no call is made.
fn add_rest<F: Files>(
    alloc: Global,
    files: &mut F,
    name: &str,
    kept: &Option<NoteList>,
    tables: &[Tries],
    status: u8,
) -> Result<(), IoFault>
    requires { MatchOption kept.now (Unit {0}) (λ list. length (list_episodes list) ≡ length tables.now) }
    ensures adds { (episodes : List Episode) → IsKept kept.now episodes → Writes all_kept (F.told files.old) (F.told files.new) name.now (rest_text episodes tables.now status) result }
    ensures calls { CallsUpTo (F.calls files.old) (F.calls files.new) (Added name.now ∷ []) result }
    ensures cause { HasCause (F.faults files.old) (F.faults files.new) result }
{
    let Some(list) = kept else {
        return Err(IoFault::Memory);
    };
    let Ok(rest) = rest_text(alloc, list.episodes(), tables, status) else {
        return Err(IoFault::Memory);
    };
    add_to_file(files, name, rest.as_slice())
}

// Adds the rest of the diagnosis, where a session came to this end, and answers how it ended then.
fn end_diagnosis<F: Files>(
    alloc: Global,
    files: &mut F,
    diagnose: &DiagnoseCommand<'_>,
    kept: &Option<NoteList>,
    tables: &[Tries],
    ended: Answer,
) -> Answer
    requires { IsEnd ended → MatchOption kept.now (Unit {0}) (λ list. length (list_episodes list) ≡ length tables.now) }
    ensures closes { (episodes : List Episode) → IsKept kept.now episodes → ClosesDiagnosis (diagnose_shown diagnose.now) episodes tables.now (F.told files.old) (F.told files.new) ended result }
    ensures calls { CallsClosing (diagnose_shown diagnose.now) (F.calls files.old) (F.calls files.new) ended result }
    ensures later { F.faults files.old ≤ F.faults files.new }
    ensures file_fault { result ≡ answer.FileFault → (ended ≡ answer.FileFault) ⊎ Rose (F.faults files.old) (F.faults files.new) }
{
    if !is_end(ended) {
        return ended;
    }
    let status = status_of_answer(ended);
    match add_rest(alloc, files, diagnose.diagnosis, kept, tables, status) {
        Ok(()) => ended,
        Err(fault) => note_answer(fault),
    }
}

// Loads the program of a command and lets it serve under an access rule, which is that of the command's guard, with a diagnosis.
fn diagnose_under<R: AccessRule + Drop, F: Files, S: Source, K: Sink, T: Teller, L: Ledger>(
    alloc: Global,
    diagnose: &DiagnoseCommand<'_>,
    rule: R,
    files: &mut F,
    input: &mut S,
    output: &mut K,
    teller: &T,
    steps: &mut Steps<L>,
) -> End
    requires in_range { AreInRange (run_shown diagnose.now.session) }
    requires two { AreTwo (names_of (run_shown diagnose.now.session)) }
    requires third { IsThird (names_of (run_shown diagnose.now.session)) diagnose.now.diagnosis.now }
    requires rule { R.rule rule ≡ rule_of diagnose.now.session.guard }
    ensures ends { DiagnoseEnds (diagnose_shown diagnose.now) (outside (F.told files.old) (F.calls files.old) (S.told input.old) (K.told output.old) steps.old) (outside (F.told files.new) (F.calls files.new) (S.told input.new) (K.told output.new) steps.new) result }
    ensures faults { HasFaults (faults (F.faults files.old) (S.faults input.old) (K.faults output.old)) (faults (F.faults files.new) (S.faults input.new) (K.faults output.new)) result.answer }
    ensures differs { result.difference ≡ None }
    ensures status { result.status ≡ status_of result.answer }
    ensures counted_at_least { steps.old + result.steps ≤ steps.new }
{
    let run = &diagnose.session;
    let mut session = match begin_session(alloc, run, rule, files) {
        Ok(session) => session,
        Err(answer) => return End::without_session(alloc, answer),
    };
    if let Err(fault) = start_diagnosis(alloc, files, diagnose) {
        return End::without_session(alloc, note_answer(fault));
    }
    let mut watch = TellingExaminer::make(alloc, teller);
    let kept = serve_kept(
        alloc,
        run,
        &mut session,
        files,
        input,
        output,
        &mut watch,
        teller,
        steps,
    );
    let ended = end_notes(
        alloc,
        files,
        run,
        kept.answer,
        session.taken(),
        session.steps(),
    );
    // There is a table of each episode that was noted.
    noted_tables_are_told();
    let answer = end_diagnosis(
        alloc,
        files,
        diagnose,
        &kept.episodes,
        watch.tables(),
        ended,
    );
    End::of_session(answer, session.into_end())
}

/// Loads the program of a command and lets it serve as `run` does; at each failure everything is tried first, and discarded. What was tried goes to the
/// diagnosis.
pub fn diagnose_program<F: Files, S: Source, K: Sink, T: Teller, L: Ledger>(
    alloc: Global,
    diagnose: &DiagnoseCommand<'_>,
    files: &mut F,
    input: &mut S,
    output: &mut K,
    teller: &T,
    steps: &mut Steps<L>,
) -> End
    requires in_range { AreInRange (run_shown diagnose.now.session) }
    requires two { AreTwo (names_of (run_shown diagnose.now.session)) }
    requires third { IsThird (names_of (run_shown diagnose.now.session)) diagnose.now.diagnosis.now }
    ensures ends { DiagnoseEnds (diagnose_shown diagnose.now) (outside (F.told files.old) (F.calls files.old) (S.told input.old) (K.told output.old) steps.old) (outside (F.told files.new) (F.calls files.new) (S.told input.new) (K.told output.new) steps.new) result }
    ensures faults { HasFaults (faults (F.faults files.old) (S.faults input.old) (K.faults output.old)) (faults (F.faults files.new) (S.faults input.new) (K.faults output.new)) result.answer }
    ensures differs { result.difference ≡ None }
    ensures status { result.status ≡ status_of result.answer }
    ensures counted_at_least { steps.old + result.steps ≤ steps.new }
{
    match diagnose.session.guard {
        Guard::Off => diagnose_under(
            alloc, diagnose, AllMapped, files, input, output, teller, steps,
        ),
        Guard::Extent => {
            let rule = HeapGuard::over(GuardMode::Extent);
            diagnose_under(alloc, diagnose, rule, files, input, output, teller, steps)
        }
        Guard::Block => {
            let rule = HeapGuard::over(GuardMode::Block);
            diagnose_under(alloc, diagnose, rule, files, input, output, teller, steps)
        }
    }
}
