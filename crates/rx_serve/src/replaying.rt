// The command `replay`: a program and a record of it are loaded, and the recorded run is done again over the trunk of input and output.
ghost use Rattle.std.specs.Prelude.{◌≡◌, ◌≤◌};
ghost use Rattle.command_line.specs.Commands.{replay_shown};
ghost use Rattle.rx_base.specs.Faults.{Rose};
ghost use Rattle.file_notes.specs.Calling.{CallsFront, CallsUpTo};
ghost use Rattle.rx_serve.specs.Calling.{CallsLoad, replaying};
ghost use Rattle.rx_serve.specs.Outside.{outside, faults, HasFaults};
ghost use Rattle.rx_serve.specs.Replaying.{ComparesFile, LoadsRecord, LoadsRecording};

use crate::loading::{MAX_PROGRAM, image_in, load_file};
use command_line::ReplayCommand;
use guest_image::Image;
use routes::{Replayed, replay_trunk};
use run_history::Answer;
use rx_base::Steps;
use rx_io::{Files, Sink, Source};
use schedule_file::{RecordRefusal, Recorded, read_record};
use std::alloc::Global;
use std::sync::ledger::Ledger;

/// The greatest number of bytes of a record: 4 GiB.
pub const MAX_RECORD: u64 = 4 << 30;

// Loads a record and reads it.
fn load_record<F: Files>(alloc: Global, files: &mut F, name: &str) -> Result<Recorded, Answer>
    ensures loads { LoadsRecord (F.told files.old) name.now result }
    ensures calls { CallsLoad name.now (F.calls files.old) (F.calls files.new) result }
    ensures same { F.told files.new ≡ F.told files.old }
    ensures later { F.faults files.old ≤ F.faults files.new }
    ensures file_fault { result ≡ Err Answer.FileFault → Rose (F.faults files.old) (F.faults files.new) }
{
    let text = match load_file(alloc, files, name, MAX_RECORD) {
        Ok(text) => text,
        Err(answer) => return Err(answer),
    };
    match read_record(alloc, text.as_slice()) {
        Ok(recorded) => Ok(recorded),
        Err(RecordRefusal::Refused { line }) => Err(Answer::RecordRefused { line: line as u32 }),
        Err(RecordRefusal::Memory) => Err(Answer::Memory),
    }
}

/// Loads a program, then its record, reads the record, then the image in the record's window.
pub(crate) fn load_recording<F: Files>(
    alloc: Global,
    files: &mut F,
    replay: &ReplayCommand<'_>,
) -> Result<(Image, Recorded), Answer>
    ensures loads { LoadsRecording (F.told files.old) (replay_shown replay.now) result }
    ensures calls { CallsUpTo (F.calls files.old) (F.calls files.new) (replaying (replay_shown replay.now)) result }
    ensures same { F.told files.new ≡ F.told files.old }
    ensures later { F.faults files.old ≤ F.faults files.new }
    ensures file_fault { result ≡ Err Answer.FileFault → Rose (F.faults files.old) (F.faults files.new) }
{
    let program = match load_file(alloc, files, replay.program, MAX_PROGRAM) {
        Ok(program) => program,
        Err(answer) => return Err(answer),
    };
    let recorded = match load_record(alloc, files, replay.recording) {
        Ok(recorded) => recorded,
        Err(answer) => return Err(answer),
    };
    match image_in(alloc, program.as_slice(), recorded.window << 20) {
        Ok(image) => Ok((image, recorded)),
        Err(answer) => Err(answer),
    }
}

/// Loads a program and its record, and replays it. At Mismatch it has what differs.
pub(crate) fn replay_file<F: Files, S: Source, K: Sink, L: Ledger>(
    alloc: Global,
    replay: &ReplayCommand<'_>,
    files: &mut F,
    input: &mut S,
    output: &mut K,
    steps: &mut Steps<L>,
) -> Replayed
    ensures replays { ComparesFile (replay_shown replay.now) (outside (F.told files.old) (F.calls files.old) (S.told input.old) (K.told output.old) steps.old) (outside (F.told files.new) (F.calls files.new) (S.told input.new) (K.told output.new) steps.new) result.answer result.difference }
    ensures calls { CallsFront (F.calls files.old) (F.calls files.new) (replaying (replay_shown replay.now)) }
    ensures same { F.told files.new ≡ F.told files.old }
    ensures counted_more { steps.old ≤ steps.new }
    ensures faults { HasFaults (faults (F.faults files.old) (S.faults input.old) (K.faults output.old)) (faults (F.faults files.new) (S.faults input.new) (K.faults output.new)) result.answer }
{
    let (image, recorded) = match load_recording(alloc, files, replay) {
        Ok(both) => both,
        Err(answer) => {
            return Replayed {
                answer,
                difference: None,
            };
        }
    };
    replay_trunk(alloc, &image, &recorded, input, output, steps)
}
