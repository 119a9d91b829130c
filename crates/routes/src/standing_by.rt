// A record is followed over a trunk of many connections, and its run is served on.
ghost use Rattle.std.specs.Prelude.{◌≡◌, ◌+◌, ◌*◌, ◌<◌, ◌≤◌, ◌^◌, None};
ghost use Rattle.guest_image.specs.declared.image.Image.{Image};
ghost use Rattle.schedule_file.specs.declared.recorded.Recorded.{Recorded};
ghost use Rattle.trunk_wire.specs.declared.trunk_link.TrunkLink.{TrunkLink};
ghost use Rattle.trunk_wire.specs.TrunkLinks.{TrunkWent, seen_of, told_of};
ghost use Rattle.session_history.specs.Answering.{HasAnswerCause};
ghost use Rattle.standby.specs.Following.{HasCaughtUp, LinkCatches};
ghost use Rattle.standby.specs.Missing.{IsShort};
ghost use Rattle.standby.specs.Serving.{MayServe};
ghost use Rattle.routes.specs.StandingBy.{CatchesUpTrunk, IsNewTrunk, ServesOnTrunk};

use counts_file::Counts;
use guest_image::Image;
use run_history::Answer;
use rx_base::Steps;
use rx_io::{Sink, Source};
use schedule_file::Recorded;
use standby::{Follower, Unfollowed, catch_up};
use std::alloc::Global;
use std::sync::ledger::Ledger;
use trunk_wire::TrunkLink;

/// Follows a record over a new trunk: the frames of events are taken from its source, none before the run asks for an item, and no byte behind
/// one. Nothing is written to its sink.
///
/// # Errors
///
/// The answers of a replay but Finished and WriteFault, at Mismatch with what differs.
pub fn catch_up_trunk<S: Source, K: Sink, L: Ledger>(
    alloc: Global,
    image: &Image,
    recorded: &Recorded,
    link: &mut TrunkLink<S, K>,
    steps: &mut Steps<L>,
) -> Result<Follower, Unfollowed>
    requires window { image.now.window ≡ recorded.now.window * 1048576 }
    requires short { recorded.now.steps < 2 ^ 62 }
    requires new { IsNewTrunk S.told S.faults K.told K.faults link.old }
    ensures catches { CatchesUpTrunk S.told S.faults K.told K.faults image.now recorded.now link.old link.new steps.old steps.new result }
    ensures link { LinkCatches (seen_of S.told S.faults K.told K.faults link.old) (seen_of S.told S.faults K.told K.faults link.new) result }
    ensures went { TrunkWent S.fixed S.told K.fixed K.told link.old link.new }
    ensures counted_more { steps.old ≤ steps.new }
{
    catch_up(alloc, image, recorded, link, steps)
}

/// Serves on over the trunk over which a record was followed. What clients miss by their counts is written first, then each send of the run at
/// once, as frames; and frames of events are taken where the run asks for an item.
pub fn serve_on_trunk<S: Source, K: Sink, L: Ledger>(
    follower: &mut Follower,
    counts: &Counts,
    budget: u64,
    link: &mut TrunkLink<S, K>,
    steps: &mut Steps<L>,
) -> Answer
    requires may { MayServe (seen_of S.told S.faults K.told K.faults link.old) follower.old }
    requires short { IsShort counts.now follower.old.kept.items None }
    requires budget { (1 ≤ budget) × (budget ≤ 2 ^ 36) }
    ensures serves { (made : TrunkLink S K) (image : Image) (recorded : Recorded) (up : HasCaughtUp image recorded (told_of S.told K.told made) (seen_of S.told S.faults K.told K.faults link.old) follower.old)
        → IsNewTrunk S.told S.faults K.told K.faults made → TrunkWent S.fixed S.told K.fixed K.told made link.old
        → ServesOnTrunk image recorded budget counts.now up.entries (S.told made.source) (S.told link.new.source) (K.told made.sink) (K.told link.new.sink) result follower.new.player.choices.items follower.new.player.cpu.slots.live.steps follower.new.player.cpu.slots.live.guest.machine.taken }
    ensures went { TrunkWent S.fixed S.told K.fixed K.told link.old link.new }
    ensures counted { steps.new + follower.old.player.cpu.slots.live.steps ≡ steps.old + follower.new.player.cpu.slots.live.steps }
    ensures cause { HasAnswerCause (seen_of S.told S.faults K.told K.faults link.old).counts (seen_of S.told S.faults K.told K.faults link.new).counts result }
{
    follower.serve(counts, budget, link, steps)
}
