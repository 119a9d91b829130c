// The top call: the words in, the answer and its status out.
ghost use Rattle.std.specs.Prelude.{◌≡◌, ◌+◌, ◌≤◌};
ghost use Rattle.command_line.specs.Parts.{texts_of};
ghost use Rattle.command_line.specs.Commands.{command_of};
ghost use Rattle.rx_serve.specs.Commands.{Ends, Listens, Replays, heard_by};
ghost use Rattle.rx_serve.specs.Outside.{outside, faults, HasFaults};
ghost use Rattle.rx_serve.specs.Status.{status_of};

use crate::assembly::assemble_file;
use crate::converting::convert_file;
use crate::diagnosing::diagnose_program;
use crate::drilling::drill_session;
use crate::ending::End;
use crate::port_serving::serve_program;
use crate::replaying::replay_file;
use crate::serving::run_program;
use crate::standing_by::stand_by;
use crate::taking_on::resume_program;
use crate::text_frames::{frame_input, unframe_input};
use command_line::{Command, read_command};
use ports::Port;
use run_history::Answer;
use rx_base::Steps;
use rx_io::{Files, Sink, Source};
use std::alloc::Global;
use std::sync::ledger::Ledger;
use telling::Teller;

/// Runs a command over any outside: `words` are those behind the program's own name.
///
/// `run PROGRAM --record RECORD --report REPORT` loads the program, and lets it serve the trunk of `input` and `output`: its
/// events are taken as the program asks for them, and its sends are passed as frames. The record has each answer of the allocator of the
/// run that the session answers for, the report each failure and what was tried after it. `asm SOURCE OUT` loads a text,
/// assembles it in a window of 1 MiB, and writes its executable. `replay PROGRAM RECORD` loads a program and a record of it, and does
/// the recorded run again over the trunk of `input` and `output`: its sends are frames, and events are taken only where it asks for an item.
/// `convert PROGRAM RECORD OUT` does the recorded run again over `input`, gives nothing, and writes the record of version 2 of that run.
/// `standby PROGRAM RECORD COUNTS --record R` follows the recorded run over the trunk of `input` and `output`, writes what its clients lack by their counts,
/// and lets it serve on, with a record of its own.
/// `resume PROGRAM RECORD REPORT COUNTS --record R --report T` follows the run of a host that was killed over the trunk of `input` and `output`, with its
/// recoveries and without giving anything. Once it has reached all that the three files tell it goes on as a `run`: clients get what they lack by their counts.
/// `serve PROGRAM PORT CONNS --record RECORD --report REPORT` lets the program serve so many clients of `port`, one after another or with
/// `--at-once N` up to N at the same time, with a record and a report as of `run`.
/// `diagnose PROGRAM --record RECORD --report REPORT --diagnosis DIAGNOSIS` is a `run` that tries all environments at all checkpoints at each
/// failure, and tells in a fourth file what came of it. `drill SEED COUNT` serves a generated session in memory, and writes five lines about it to
/// `output`. `frame` writes the frame of each line of `input` to `output`, and `unframe` a line for each frame.
///
/// `teller` is told of the recoveries of a session while it goes. Nothing that it does is part of what is left.
pub fn run_rx<F: Files, S: Source, K: Sink, P: Port, L: Ledger, T: Teller>(
    alloc: Global,
    words: &[String],
    files: &mut F,
    input: &mut S,
    output: &mut K,
    port: &mut P,
    steps: &mut Steps<L>,
    teller: &T,
) -> End
    // What is left, by cases on the command that the words ask for. `run`: the headline, with the account that it is true of; or no session began, by its
    // cause. `serve`: the same, over the calls on the port. `diagnose`: what a `run` leaves, and beside it a file with each failure's
    // table. `asm`: the executable of the text's image, and nothing else is touched. `replay`: the recorded run is done again, or no replay began, by its
    // cause. `convert`: the recorded run is done again, and at its end its record of version 2 is written; or no run began or came to its end, by its
    // cause. `standby`: the recorded run is followed, and served on, with the record of the whole run at its end; or nothing was taken over, by its cause.
    // `resume`: the run of the host that was killed is followed, and what a `run` leaves is left behind it, with record and report of the whole run at its end;
    // or it wasn't released, or nothing was handed over, by its cause.
    // `drill`: five lines of one session. `frame` and `unframe`: what each line or frame of the input becomes. Words of no command are refused, and
    // nothing is touched.
    ensures ends { Ends (command_of (texts_of words.now)) (P.told port.old) (P.told port.new) (outside (F.told files.old) (F.calls files.old) (S.told input.old) (K.told output.old) steps.old) (outside (F.told files.new) (F.calls files.new) (S.told input.new) (K.told output.new) steps.new) result }

    // A fault is answered only where the count of that object's own faults rose.
    ensures faults { HasFaults (faults (F.faults files.old) (heard_by (command_of (texts_of words.now)) (S.faults input.old) (P.faults port.old)) (K.faults output.old)) (faults (F.faults files.new) (heard_by (command_of (texts_of words.now)) (S.faults input.new) (P.faults port.new)) (K.faults output.new)) result.answer }

    // Only a `serve` calls the port. No command changes what of it no call changes.
    ensures port { (Listens (command_of (texts_of words.now)) → ⊥) → port.new ≡ port.old }
    ensures fixed { P.fixed port.new ≡ P.fixed port.old }

    // What differs from a record stands beside the answer of a `replay`, a `convert` or a `standby` alone.
    ensures differs { (Replays (command_of (texts_of words.now)) → ⊥) → result.difference ≡ None }
    ensures status { result.status ≡ status_of result.answer }
    ensures counted_at_least { steps.old + result.steps ≤ steps.new }
{
    match read_command(alloc, words) {
        Ok(Some(Command::Run(run))) => {
            run_program(alloc, &run, files, input, output, teller, steps)
        }
        Ok(Some(Command::Asm(asm))) => {
            let answer = assemble_file(alloc, files, asm.source, asm.out);
            End::without_session(alloc, answer)
        }
        Ok(Some(Command::Replay(replay))) => {
            let replayed = replay_file(alloc, &replay, files, input, output, steps);
            End::of_replay(alloc, replayed)
        }
        Ok(Some(Command::Convert(convert))) => {
            let replayed = convert_file(alloc, &convert, files, input, steps);
            End::of_replay(alloc, replayed)
        }
        Ok(Some(Command::Standby(standby))) => {
            stand_by(alloc, &standby, files, input, output, steps)
        }
        Ok(Some(Command::Resume(resume))) => {
            resume_program(alloc, &resume, files, input, output, teller, steps)
        }
        Ok(Some(Command::Serve(serve))) => {
            serve_program(alloc, &serve, files, port, teller, steps)
        }
        Ok(Some(Command::Diagnose(diagnose))) => {
            diagnose_program(alloc, &diagnose, files, input, output, teller, steps)
        }
        Ok(Some(Command::Drill(drill))) => drill_session(alloc, drill, output, steps),
        Ok(Some(Command::Frame)) => frame_input(alloc, input, output),
        Ok(Some(Command::Unframe)) => unframe_input(alloc, input, output),
        Ok(None) => End::without_session(alloc, Answer::BadWords),
        Err(_) => End::without_session(alloc, Answer::Memory),
    }
}
