// A record is replayed.
ghost use Rattle.std.specs.Prelude.{◌≡◌, ◌*◌, ◌<◌, ◌^◌};
ghost use Rattle.replay.specs.Giving.{BreaksOff, WasHanded};
ghost use Rattle.session_history.specs.Answering.{MayBegin};
ghost use Rattle.replay.specs.Differing.{HasFilledBy};
ghost use Rattle.replay.specs.Replaying.{HasReplayedBy, LinkAnswers};

use crate::difference::Difference;
use crate::giver::{AnyGiver, Giver};
use crate::player::Player;
use block_book::Choices;
use guest_image::Image;
use links::Link;
use run_history::Answer;
use rx_base::Steps;
use schedule_file::Recorded;
use std::alloc::{AllocError, Global};
use std::sync::ledger::Ledger;

/// Replays a record over a link to which no connection was opened yet: the program runs as recorded, each send is given as one piece,
/// and an event is taken only where the run asks for an item that wasn't received.
///
/// All sends are given where the link gives still at the end. Where it gives no more, the last send is the piece that it was handed last, and
/// all sends before it are given.
///
/// `Finished` exactly where the run went as recorded to the record's end, and used all of the record's lines and as many items;
/// `Mismatch` with the number of instructions after which it doesn't go on as recorded. A call that is answered otherwise than its line
/// says is such a place: one for which no line is left, or whose line has another ask, or an answer that C doesn't allow.
pub fn replay<K: Link, L: Ledger>(
    alloc: Global,
    image: &Image,
    recorded: &Recorded,
    link: &mut K,
    steps: &mut Steps<L>,
) -> Answer
    requires window { image.now.window ≡ recorded.now.window * 1048576 }
    requires short { recorded.now.steps < 2 ^ 63 }
    requires link { MayBegin (K.seen link.old) }
    ensures replayed { HasReplayedBy image.now recorded.now (K.seen link.old) (K.seen link.new) (BreaksOff K.seen K.Went (WasHanded K.seen) link.old link.new) result steps.old steps.new }
    ensures link { LinkAnswers (K.seen link.old) (K.seen link.new) result }
    ensures went { K.Went link.old link.new }
{
    replay_by(alloc, image, recorded, &AnyGiver, link, steps)
}

/// The same, with who gives the sends: what is known of the one call for a send that wasn't given whole is told by the giver.
pub fn replay_by<K: Link, G: Giver<K>, L: Ledger>(
    alloc: Global,
    image: &Image,
    recorded: &Recorded,
    giver: &G,
    link: &mut K,
    steps: &mut Steps<L>,
) -> Answer
    requires window { image.now.window ≡ recorded.now.window * 1048576 }
    requires short { recorded.now.steps < 2 ^ 63 }
    requires link { MayBegin (K.seen link.old) }
    ensures replayed { HasReplayedBy image.now recorded.now (K.seen link.old) (K.seen link.new) (BreaksOff K.seen K.Went G.Gave link.old link.new) result steps.old steps.new }
    ensures link { LinkAnswers (K.seen link.old) (K.seen link.new) result }
    ensures went { K.Went link.old link.new }
{
    fill_by(alloc, image, recorded, giver, link, steps).answer
}

/// What a replay comes to: its answer, at Mismatch what differs, and the answers of the allocator that its run used, each with what
/// was asked.
#[derive(Debug, Drop)]
pub struct Filled {
    pub answer: Answer,
    pub difference: Option<Difference>,
    pub choices: Choices,
}

/// The same, what differs at Mismatch, and the answers of the allocator that the run used. So what a record doesn't say of them is
/// filled in: what was asked. They take room of their own.
pub fn fill_by<K: Link, G: Giver<K>, L: Ledger>(
    alloc: Global,
    image: &Image,
    recorded: &Recorded,
    giver: &G,
    link: &mut K,
    steps: &mut Steps<L>,
) -> Filled
    requires window { image.now.window ≡ recorded.now.window * 1048576 }
    requires short { recorded.now.steps < 2 ^ 63 }
    requires link { MayBegin (K.seen link.old) }
    ensures filled { HasFilledBy image.now recorded.now (K.seen link.old) (K.seen link.new) (BreaksOff K.seen K.Went G.Gave link.old link.new) result.answer result.difference result.choices steps.old steps.new }
    ensures link { LinkAnswers (K.seen link.old) (K.seen link.new) result.answer }
    ensures went { K.Went link.old link.new }
{
    let mut player = match Player::make(alloc, image, recorded.frame) {
        Ok(player) => player,
        Err(AllocError) => {
            return Filled {
                answer: Answer::Memory,
                difference: None,
                choices: Choices::from_vec(Vec::new(alloc)),
            };
        }
    };
    'turns: loop {
        if let Err(answer) = player.turn(recorded, giver, link, steps) {
            return Filled {
                answer,
                difference: player.difference,
                choices: player.into_choices(),
            };
        }
    }
}
