// The command `convert`: a program and a record of it are loaded, the recorded run is done again over the input, and its record of version 2 is written.
ghost use Rattle.std.specs.Prelude.{◌≤◌, ℕ, List, Option};
ghost use Rattle.command_line.specs.Commands.{convert_shown};
ghost use Rattle.rx_serve.specs.Calling.{CallsConvert};
ghost use Rattle.rx_serve.specs.Converting.{ComparesConversion};
ghost use Rattle.rx_serve.specs.Outside.{outside, faults, HasFaults};

use crate::assembly::write_file;
use crate::replaying::load_recording;
use command_line::{ConvertCommand, ReplayCommand};
use routes::{Replayed, convert_trunk};
use rx_base::Steps;
use rx_io::{Files, Source};
use std::alloc::Global;
use std::sync::ledger::Ledger;

/// Loads a program and its record as a replay does, does the recorded run again over the input, and gives nothing. Where it has come to the record's end,
/// the text of version 2 of that run is written. Before that no file is written. At Mismatch it has what differs.
pub(crate) fn convert_file<F: Files, S: Source, L: Ledger>(
    alloc: Global,
    convert: &ConvertCommand<'_>,
    files: &mut F,
    input: &mut S,
    steps: &mut Steps<L>,
) -> Replayed
    ensures converts { (output : Option (List ℕ)) → ComparesConversion (convert_shown convert.now) (outside (F.told files.old) (F.calls files.old) (S.told input.old) output steps.old) (outside (F.told files.new) (F.calls files.new) (S.told input.new) output steps.new) result.answer result.difference }
    ensures calls { CallsConvert (convert_shown convert.now) (F.calls files.old) (F.calls files.new) result.answer }
    ensures counted_more { steps.old ≤ steps.new }
    ensures faults { (output : ℕ) → HasFaults (faults (F.faults files.old) (S.faults input.old) output) (faults (F.faults files.new) (S.faults input.new) output) result.answer }
{
    let replay = ReplayCommand {
        program: convert.program,
        recording: convert.recording,
    };
    let (image, recorded) = match load_recording(alloc, files, &replay) {
        Ok(both) => both,
        Err(answer) => {
            return Replayed {
                answer,
                difference: None,
            };
        }
    };
    let converted = convert_trunk(alloc, &image, &recorded, input, steps);
    let difference = converted.difference;
    match converted.text {
        Ok(text) => Replayed {
            answer: write_file(files, convert.out, text.as_slice()),
            difference,
        },
        Err(answer) => Replayed { answer, difference },
    }
}
