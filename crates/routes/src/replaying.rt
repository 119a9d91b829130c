// A record is replayed over a trunk of many connections.
ghost use Rattle.std.specs.Prelude.{◌≡◌, ℕ, ◌+◌, ◌*◌, ◌<◌, ◌≤◌, ◌^◌};
ghost use Rattle.session_history.specs.Answering.{HasAnswerCause};
ghost use Rattle.routes.specs.Replaying.{ComparesTrunk};
ghost use Rattle.routes.specs.OverTrunk.{trunk_counts};

use crate::frame_giver::FrameGiver;
use guest_image::Image;
use replay::{Difference, fill_by};
use run_history::Answer;
use rx_base::Steps;
use rx_io::{Sink, Source};
use schedule_file::Recorded;
use std::alloc::Global;
use std::sync::ledger::Ledger;
use trunk_wire::TrunkLink;

/// How a replay has ended: its answer, and at Mismatch what differs.
#[derive(Clone, Copy, Debug, PartialEq, Eq)]
pub struct Replayed {
    pub answer: Answer,
    pub difference: Option<Difference>,
}

/// Replays a record over a source and a sink, and answers how that ended, at Mismatch with what differs. The frames of events are taken
/// from `input`, none before the run asks for an item, and no byte behind one; each send of the run goes to `output` as a frame. Behind a
/// fault of writing or want of memory a first part of the frames of the sends so far was written. `alloc` is for the payloads and for the
/// program's memory.
pub fn replay_trunk<S: Source, K: Sink, L: Ledger>(
    alloc: Global,
    image: &Image,
    recorded: &Recorded,
    input: &mut S,
    output: &mut K,
    steps: &mut Steps<L>,
) -> Replayed
    requires window { image.now.window ≡ recorded.now.window * 1048576 }
    requires short { recorded.now.steps < 2 ^ 63 }
    ensures replayed { (counted : ℕ) → steps.new ≡ steps.old + counted → ComparesTrunk image.now recorded.now (S.told input.old) (S.told input.new) (K.told output.old) (K.told output.new) result.answer result.difference counted }
    ensures counted_more { steps.old ≤ steps.new }
    ensures cause { HasAnswerCause (trunk_counts (S.faults input.old) (K.faults output.old)) (trunk_counts (S.faults input.new) (K.faults output.new)) result.answer }
    ensures outside { (S.fixed input.new ≡ S.fixed input.old) × (K.fixed output.new ≡ K.fixed output.old) }
{
    let mut link = TrunkLink::make(alloc, &mut *input, &mut *output);
    let filled = fill_by(alloc, image, recorded, &FrameGiver, &mut link, steps);
    Replayed {
        answer: filled.answer,
        difference: filled.difference,
    }
}
