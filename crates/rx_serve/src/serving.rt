// The command `run`: a program is loaded, and serves the trunk of input and output.
ghost use Rattle.std.specs.Prelude.{◌≡◌, ◌+◌, ◌≤◌, Err};
ghost use Rattle.command_line.specs.Commands.{run_shown};
ghost use Rattle.command_line.specs.Ranges.{AreInRange};
ghost use Rattle.file_notes.specs.Names.{AreTwo};
ghost use Rattle.rx_base.specs.Faults.{Rose};
ghost use Rattle.run_history.specs.declared.answer.Answer.TheVariants as answer;
ghost use Rattle.rx_serve.specs.Beginning.{BeginsSession, CallsBegin};
ghost use Rattle.rx_serve.specs.Commands.{RunEnds};
ghost use Rattle.rx_serve.specs.Noting.{names_of};
ghost use Rattle.rx_serve.specs.Outside.{outside, faults, HasFaults};
ghost use Rattle.rx_serve.specs.Settings.{rule_of};
ghost use Rattle.rx_serve.specs.Status.{status_of};

use crate::ending::End;
use crate::loading::load_image;
use crate::noting::{end_notes, note_answer, serve_noted, start_notes};
use crate::settings::options_of;
use command_line::{Guard, RunCommand};
use guest_space::{AccessRule, AllMapped};
use heap_guard::{GuardMode, HeapGuard};
use recovery::NoWatch;
use run_history::Answer;
use rx_base::Steps;
use rx_engine::Session;
use rx_io::{Files, Sink, Source};
use std::alloc::Global;
use std::sync::ledger::Ledger;
use telling::{Teller, TellingWatch};

// Loads the program of a command, starts its record and its report, and begins its session under an access rule.
pub(crate) fn begin_session<R: AccessRule + Drop, F: Files>(
    alloc: Global,
    run: &RunCommand<'_>,
    rule: R,
    files: &mut F,
) -> Result<Session<R>, Answer>
    requires in_range { AreInRange (run_shown run.now) }
    requires two { AreTwo (names_of (run_shown run.now)) }
    ensures begins { BeginsSession (run_shown run.now) rule (F.told files.old) (F.told files.new) result }
    ensures calls { CallsBegin (run_shown run.now) (F.calls files.old) (F.calls files.new) result }
    ensures later { F.faults files.old ≤ F.faults files.new }
    ensures file_fault { result ≡ Err answer.FileFault → Rose (F.faults files.old) (F.faults files.new) }
    ensures no_other { (result ≡ Err answer.ReadFault → ⊥) × (result ≡ Err answer.WriteFault → ⊥) }
{
    let options = options_of(run);
    let image = match load_image(alloc, files, run.program, options.window) {
        Ok(image) => image,
        Err(answer) => return Err(answer),
    };
    if let Err(fault) = start_notes(alloc, files, run) {
        return Err(note_answer(fault));
    }
    match Session::begin(alloc, &image, &options, rule) {
        Ok(session) => Ok(session),
        Err(_) => Err(Answer::Memory),
    }
}

// Loads the program of a command and lets it serve under an access rule, which is that of the command's guard.
fn run_under<R: AccessRule + Drop, F: Files, S: Source, K: Sink, T: Teller, L: Ledger>(
    alloc: Global,
    run: &RunCommand<'_>,
    rule: R,
    files: &mut F,
    input: &mut S,
    output: &mut K,
    teller: &T,
    steps: &mut Steps<L>,
) -> End
    requires in_range { AreInRange (run_shown run.now) }
    requires two { AreTwo (names_of (run_shown run.now)) }
    requires rule { R.rule rule ≡ rule_of run.now.guard }
    ensures ends { RunEnds (run_shown run.now) (outside (F.told files.old) (F.calls files.old) (S.told input.old) (K.told output.old) steps.old) (outside (F.told files.new) (F.calls files.new) (S.told input.new) (K.told output.new) steps.new) result }
    ensures faults { HasFaults (faults (F.faults files.old) (S.faults input.old) (K.faults output.old)) (faults (F.faults files.new) (S.faults input.new) (K.faults output.new)) result.answer }
    ensures differs { result.difference ≡ None }
    ensures status { result.status ≡ status_of result.answer }
    ensures counted_at_least { steps.old + result.steps ≤ steps.new }
{
    let mut session = match begin_session(alloc, run, rule, files) {
        Ok(session) => session,
        Err(answer) => return End::without_session(alloc, answer),
    };
    let mut watch = TellingWatch::make(teller, NoWatch);
    let ended = serve_noted(
        alloc,
        run,
        &mut session,
        files,
        input,
        output,
        &mut watch,
        teller,
        steps,
    );
    let answer = end_notes(alloc, files, run, ended, session.taken(), session.steps());
    End::of_session(answer, session.into_end())
}

/// Loads the program of a command and lets it serve, with a record and a report of it in two files. The access rule is chosen here, once, by the
/// guard that the command asks for: without one nothing more is tested of an access.
pub fn run_program<F: Files, S: Source, K: Sink, T: Teller, L: Ledger>(
    alloc: Global,
    run: &RunCommand<'_>,
    files: &mut F,
    input: &mut S,
    output: &mut K,
    teller: &T,
    steps: &mut Steps<L>,
) -> End
    requires in_range { AreInRange (run_shown run.now) }
    requires two { AreTwo (names_of (run_shown run.now)) }
    ensures ends { RunEnds (run_shown run.now) (outside (F.told files.old) (F.calls files.old) (S.told input.old) (K.told output.old) steps.old) (outside (F.told files.new) (F.calls files.new) (S.told input.new) (K.told output.new) steps.new) result }
    ensures faults { HasFaults (faults (F.faults files.old) (S.faults input.old) (K.faults output.old)) (faults (F.faults files.new) (S.faults input.new) (K.faults output.new)) result.answer }
    ensures differs { result.difference ≡ None }
    ensures status { result.status ≡ status_of result.answer }
    ensures counted_at_least { steps.old + result.steps ≤ steps.new }
{
    match run.guard {
        Guard::Off => run_under(alloc, run, AllMapped, files, input, output, teller, steps),
        Guard::Extent => {
            let rule = HeapGuard::over(GuardMode::Extent);
            run_under(alloc, run, rule, files, input, output, teller, steps)
        }
        Guard::Block => {
            let rule = HeapGuard::over(GuardMode::Block);
            run_under(alloc, run, rule, files, input, output, teller, steps)
        }
    }
}
