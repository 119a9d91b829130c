// A record is converted: its run is executed over the same events, and its text says what was asked of the allocator.
ghost use Rattle.std.specs.Prelude.{◌≡◌, ℕ, ◌+◌, ◌*◌, ◌≤◌};
ghost use Rattle.schedule_file.specs.Answers.{Writes};
ghost use Rattle.schedule_file.specs.Records.{IsRecord};
ghost use Rattle.routes.specs.Converting.{converted, ComparesConverted, Concludes, HasConvertCause};

use crate::discard::Discard;
use crate::frame_giver::FrameGiver;
use crate::record_lines::add_choices;
use block_book::Choice;
use guest_image::Image;
use replay::{Difference, Filled, fill_by};
use run_history::Answer;
use rx_base::{Bytes, Steps};
use rx_io::Source;
use schedule_file::{Recorded, end_line, head_line};
use std::alloc::{AllocError, Global};
use std::sync::ledger::Ledger;
use trunk_wire::TrunkLink;

// The text of a record in version 2, by the answers of the allocator that its run used.
fn text_of(alloc: Global, recorded: &Recorded, choices: &[Choice]) -> Result<Bytes, AllocError>
    requires { IsRecord recorded.now }
    ensures { Writes (converted recorded.now choices.now) result }
{
    let head = head_line(alloc, recorded.window, recorded.frame)?;
    let end = end_line(alloc, recorded.steps, recorded.taken)?;
    let mut bytes = Vec::new(alloc);
    bytes.extend_from_slice(head.as_slice())?;
    add_choices(&mut bytes, choices)?;
    bytes.extend_from_slice(end.as_slice())?;
    Ok(Bytes::from_vec(bytes))
}

// What a conversion answers, by what its replay comes to.
fn outcome(alloc: Global, recorded: &Recorded, filled: &Filled) -> Result<Bytes, Answer>
    requires { IsRecord recorded.now }
    ensures { Concludes recorded.now filled.now.answer filled.now.choices result }
{
    match filled.answer {
        Answer::Finished => match text_of(alloc, recorded, filled.choices.as_slice()) {
            Ok(text) => Ok(text),
            Err(AllocError) => Err(Answer::Memory),
        },
        answer => Err(answer),
    }
}

/// What a conversion comes to: the text, or the answer of a run that has none; and at Mismatch what differs.
#[derive(Debug, Drop)]
pub struct Converted {
    pub text: Result<Bytes, Answer>,
    pub difference: Option<Difference>,
}

/// Runs as a replay does over the events of a source, gives nothing, and answers the text in version 2 of the run that the record tells
/// of. A line of version 1 doesn't say what was asked of the allocator; the text does. No byte is taken of `input` that a replay doesn't
/// take, and at `Ok` it has come to the record's end.
pub fn convert_trunk<S: Source, L: Ledger>(
    alloc: Global,
    image: &Image,
    recorded: &Recorded,
    input: &mut S,
    steps: &mut Steps<L>,
) -> Converted
    requires window { image.now.window ≡ recorded.now.window * 1048576 }
    requires lawful { IsRecord recorded.now }
    ensures converted { (counted : ℕ) → steps.new ≡ steps.old + counted → ComparesConverted image.now recorded.now (S.told input.old) (S.told input.new) result.text result.difference counted }
    ensures counted_more { steps.old ≤ steps.new }
    ensures cause { HasConvertCause (S.faults input.old) (S.faults input.new) result.text }
    ensures outside { S.fixed input.new ≡ S.fixed input.old }
{
    let mut output = Discard;
    let mut link = TrunkLink::make(alloc, &mut *input, &mut output);
    let filled = fill_by(alloc, image, recorded, &FrameGiver, &mut link, steps);
    Converted {
        text: outcome(alloc, recorded, &filled),
        difference: filled.difference,
    }
}
