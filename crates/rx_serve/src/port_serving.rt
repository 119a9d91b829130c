// The command `serve`: a program is loaded, and serves the clients of a port.
ghost use Rattle.std.specs.Prelude.{◌≡◌, ℕ, ◌+◌, ◌<◌, ◌≤◌, ◌^◌, List, [], Option};
ghost use Rattle.command_line.specs.Commands.{run_shown, serve_shown};
ghost use Rattle.command_line.specs.Ranges.{AreInRange};
ghost use Rattle.guest_image.specs.declared.image.Image.{Image};
ghost use Rattle.file_notes.specs.Calling.{AddsAlone};
ghost use Rattle.file_notes.specs.Names.{AreTwo};
ghost use Rattle.port_link.specs.Standing.{IsJustBound};
ghost use Rattle.rx_base.specs.Outside.{Stream};
ghost use Rattle.session_history.specs.Ends.{answer_of};
ghost use Rattle.session_history.specs.declared.ends.Stop.{Stop};
ghost use Rattle.session_state.specs.Options.{keeping_for};
ghost use Rattle.session_state.specs.Serving.{IsReadyToServe, outcome_of, rules_by};
ghost use Rattle.session_state.specs.Sessions.{IsBegun};
ghost use Rattle.routes.specs.Serving.{Port};
ghost use Rattle.rx_serve.specs.Noting.{names_of, ServesNoted};
ghost use Rattle.rx_serve.specs.Outside.{outside, faults, HasFaults};
ghost use Rattle.rx_serve.specs.Serving.{IsBindAnswer, ServeEnds, limits_of};
ghost use Rattle.rx_serve.specs.Settings.{rule_of};
ghost use Rattle.rx_serve.specs.Status.{status_of};

use crate::ending::End;
use crate::noting::{end_notes, report_form};
use crate::serving::begin_session;
use command_line::{Guard, ServeCommand};
use file_notes::{FileNames, FileNotes};
use guest_space::{AccessRule, AllMapped};
use heap_guard::{GuardMode, HeapGuard};
use port_link::PortLimits;
use ports::Port;
use routes::serve_port;
use run_history::Answer;
use rx_base::{Conn, IoFault, Steps};
use rx_engine::Session;
use rx_io::Files;
use std::alloc::Global;
use std::sync::ledger::Ledger;
use telling::Teller;

// A port that couldn't be bound, as its answer.
fn bind_answer(fault: IoFault) -> Answer
    ensures { IsBindAnswer fault result }
{
    match fault {
        IoFault::Failed => Answer::ReadFault,
        IoFault::Memory => Answer::Memory,
    }
}

// Serves the connections of a port that was just bound, and notes the answers of the allocator and the recoveries in both files.
fn serve_port_noted<R: AccessRule, F: Files, P: Port, T: Teller, L: Ledger>(
    alloc: Global,
    serve: &ServeCommand<'_>,
    session: &mut Session<R>,
    files: &mut F,
    port: &mut P,
    teller: &T,
    steps: &mut Steps<L>,
) -> Answer
    requires two { AreTwo (names_of (run_shown serve.now.session)) }
    requires begun { IsReadyToServe session.old }
    requires few { (serve.now.conns ≤ 4096) × ((1 ≤ serve.now.at_once) × (serve.now.at_once ≤ 256)) }
    requires none { P.connections port.old ≡ [] }
    requires bound { IsJustBound (P.told port.old) }
    ensures serves { (input : Option Stream) (output : Option (List ℕ)) → (why : Stop) × (result ≡ answer_of why) × ((image : Image) → IsBegun image session.old.options session.old.cpu.rule session.old
        → ServesNoted (rules_by R.rule session.old) (keeping_for session.old.options) image (run_shown serve.now.session) (Port (limits_of (serve_shown serve.now)) (P.told port.old) (P.told port.new)) (outside (F.told files.old) (F.calls files.old) input output steps.old) (outside (F.told files.new) (F.calls files.new) input output steps.new) (outcome_of why session.new)) }
    ensures adds { AddsAlone (names_of (run_shown serve.now.session)) (F.calls files.old) (F.calls files.new) }
    ensures later { F.faults files.old ≤ F.faults files.new }
    ensures fixed { P.fixed port.new ≡ P.fixed port.old }
    ensures faults { (output : ℕ) → HasFaults (faults (F.faults files.old) (P.faults port.old) output) (faults (F.faults files.new) (P.faults port.new) output) result }
    ensures counted_at_least { steps.old + session.new.steps ≤ steps.new }
{
    let names = FileNames {
        record: serve.session.recording,
        report: serve.session.report,
    };
    let mut notes = FileNotes::make(alloc, &mut *files, names, report_form(serve.session.form));
    let limits = PortLimits {
        conns: serve.conns as Conn,
        at_once: serve.at_once as u16,
        stops: serve.stops,
    };
    let answer = serve_port(alloc, session, port, limits, &mut notes, teller, steps);
    let _ = notes.is_whole();
    answer
}

// Loads the program of a command and lets it serve the connections of a port under an access rule, which is that of the command's guard.
fn serve_under<R: AccessRule + Drop, F: Files, P: Port, T: Teller, L: Ledger>(
    alloc: Global,
    serve: &ServeCommand<'_>,
    rule: R,
    files: &mut F,
    port: &mut P,
    teller: &T,
    steps: &mut Steps<L>,
) -> End
    requires in_range { AreInRange (run_shown serve.now.session) }
    requires two { AreTwo (names_of (run_shown serve.now.session)) }
    requires listens { (serve.now.port < 2 ^ 16) × ((serve.now.conns ≤ 4096) × ((1 ≤ serve.now.at_once) × (serve.now.at_once ≤ 256))) }
    requires rule { R.rule rule ≡ rule_of serve.now.session.guard }
    ensures ends { (input : Option Stream) (output : Option (List ℕ)) → ServeEnds (serve_shown serve.now) (P.told port.old) (P.told port.new) (outside (F.told files.old) (F.calls files.old) input output steps.old) (outside (F.told files.new) (F.calls files.new) input output steps.new) result }
    ensures faults { (output : ℕ) → HasFaults (faults (F.faults files.old) (P.faults port.old) output) (faults (F.faults files.new) (P.faults port.new) output) result.answer }
    ensures fixed { P.fixed port.new ≡ P.fixed port.old }
    ensures differs { result.difference ≡ None }
    ensures status { result.status ≡ status_of result.answer }
    ensures counted_at_least { steps.old + result.steps ≤ steps.new }
{
    let mut session = match begin_session(alloc, &serve.session, rule, files) {
        Ok(session) => session,
        Err(answer) => return End::without_session(alloc, answer),
    };
    if let Err(fault) = port.bind(serve.port as u16) {
        return End::without_session(alloc, bind_answer(fault));
    }
    let ended = serve_port_noted(alloc, serve, &mut session, files, port, teller, steps);
    let answer = end_notes(
        alloc,
        files,
        &serve.session,
        ended,
        session.taken(),
        session.steps(),
    );
    End::of_session(answer, session.into_end())
}

// Loads the program of a command and lets it serve the clients of a port, as many at the same time as the command asks for, with a record and a
// report of it in two files. The port is bound once these have their first lines. The access rule is chosen here, once, by the guard that the command asks for.
pub(crate) fn serve_program<F: Files, P: Port, T: Teller, L: Ledger>(
    alloc: Global,
    serve: &ServeCommand<'_>,
    files: &mut F,
    port: &mut P,
    teller: &T,
    steps: &mut Steps<L>,
) -> End
    requires in_range { AreInRange (run_shown serve.now.session) }
    requires two { AreTwo (names_of (run_shown serve.now.session)) }
    requires listens { (serve.now.port < 2 ^ 16) × ((serve.now.conns ≤ 4096) × ((1 ≤ serve.now.at_once) × (serve.now.at_once ≤ 256))) }
    ensures ends { (input : Option Stream) (output : Option (List ℕ)) → ServeEnds (serve_shown serve.now) (P.told port.old) (P.told port.new) (outside (F.told files.old) (F.calls files.old) input output steps.old) (outside (F.told files.new) (F.calls files.new) input output steps.new) result }
    ensures faults { (output : ℕ) → HasFaults (faults (F.faults files.old) (P.faults port.old) output) (faults (F.faults files.new) (P.faults port.new) output) result.answer }
    ensures fixed { P.fixed port.new ≡ P.fixed port.old }
    ensures differs { result.difference ≡ None }
    ensures status { result.status ≡ status_of result.answer }
    ensures counted_at_least { steps.old + result.steps ≤ steps.new }
{
    match serve.session.guard {
        Guard::Off => serve_under(alloc, serve, AllMapped, files, port, teller, steps),
        Guard::Extent => {
            let rule = HeapGuard::over(GuardMode::Extent);
            serve_under(alloc, serve, rule, files, port, teller, steps)
        }
        Guard::Block => {
            let rule = HeapGuard::over(GuardMode::Block);
            serve_under(alloc, serve, rule, files, port, teller, steps)
        }
    }
}
