// The commands `frame` and `unframe`: lines of the input become frames on the output, and frames become lines.
ghost use Rattle.std.specs.Prelude.{◌≡◌, ℕ, List, Option};
ghost use Rattle.rx_io.specs.declared.file_calls.FileCall.{FileCall};
ghost use Rattle.rx_io.specs.Named.{Contents};
ghost use Rattle.trunk_text.specs.Framing.{framing};
ghost use Rattle.trunk_text.specs.Unframing.{unframing};
ghost use Rattle.rx_serve.specs.Outside.{outside, faults, HasFaults};
ghost use Rattle.rx_serve.specs.Status.{status_of};
ghost use Rattle.rx_serve.specs.TextFrames.{flaw_number, turned_answer, TurnsInput};

use crate::ending::End;
use run_history::Answer;
use rx_io::{Sink, Source};
use std::alloc::Global;
use trunk_text::{Ended, Flaw, frame_lines, unframe};

// The number of what is wrong with a line or a frame.
fn flaw_number(flaw: Flaw) -> u8
    ensures { result ≡ flaw_number flaw }
{
    match flaw {
        Flaw::Kind => 1,
        Flaw::Cut => 5,
        Flaw::Payload => 6,
        Flaw::Form => 7,
        Flaw::Number => 8,
        Flaw::Escape => 9,
        Flaw::Control => 10,
        Flaw::LongPiece => 11,
        Flaw::LongLine => 12,
    }
}

// How an input was turned, as an answer.
fn turned_answer(ended: Ended) -> Answer
    ensures { result ≡ turned_answer ended }
{
    match ended {
        Ended::Finished => Answer::Finished,
        Ended::Refused { flaw, offset } => Answer::InputRefused {
            kind: flaw_number(flaw),
            offset,
        },
        Ended::ReadFault => Answer::ReadFault,
        Ended::WriteFault => Answer::WriteFault,
        Ended::Limit => Answer::LimitEvents,
        Ended::Memory => Answer::Memory,
    }
}

/// Writes the frame of each line of the input, before it reads on.
pub(crate) fn frame_input<S: Source, K: Sink>(alloc: Global, input: &mut S, output: &mut K) -> End
    ensures turns { (files : Option Contents) (calls : Option (List FileCall)) (counter : ℕ) → TurnsInput framing (outside files calls (S.told input.old) (K.told output.old) counter) (outside files calls (S.told input.new) (K.told output.new) counter) result }
    ensures faults { (files : ℕ) → HasFaults (faults files (S.faults input.old) (K.faults output.old)) (faults files (S.faults input.new) (K.faults output.new)) result.answer }
    ensures differs { result.difference ≡ None }
    ensures status { result.status ≡ status_of result.answer }
    ensures steps { result.steps ≡ 0 }
{
    let ended = frame_lines(alloc, input, output);
    End::without_session(alloc, turned_answer(ended))
}

/// Writes a line for each frame of the input, before it reads on.
pub(crate) fn unframe_input<S: Source, K: Sink>(alloc: Global, input: &mut S, output: &mut K) -> End
    ensures turns { (files : Option Contents) (calls : Option (List FileCall)) (counter : ℕ) → TurnsInput unframing (outside files calls (S.told input.old) (K.told output.old) counter) (outside files calls (S.told input.new) (K.told output.new) counter) result }
    ensures faults { (files : ℕ) → HasFaults (faults files (S.faults input.old) (K.faults output.old)) (faults files (S.faults input.new) (K.faults output.new)) result.answer }
    ensures differs { result.difference ≡ None }
    ensures status { result.status ≡ status_of result.answer }
    ensures steps { result.steps ≡ 0 }
{
    let ended = unframe(alloc, input, output);
    End::without_session(alloc, turned_answer(ended))
}
