// A session that takes over from another host, over a trunk of many connections.
ghost use Rattle.std.specs.Prelude.{◌≡◌, ◌+◌, ◌-◌, ◌≤◌};
ghost use Rattle.session_state.specs.Serving.{IsReadyToServe, rules_by};
ghost use Rattle.session_history.specs.Answering.{HasAnswerCause};
ghost use Rattle.session_following.specs.HandedOver.{handed_of};
ghost use Rattle.session_following.specs.TakingOver.{MayBeHanded};
ghost use Rattle.routes.specs.Resuming.{ResumesBy, answer_as};
ghost use Rattle.routes.specs.OverTrunk.{trunk_counts};

use guest_space::AccessRule;
use recovery::Watch;
use run_history::Answer;
use rx_base::Steps;
use rx_engine::Session;
use rx_io::{Sink, Source};
use session_following::{HandedOver, Unfollowed};
use session_notes::Notes;
use std::alloc::Global;
use std::sync::ledger::Ledger;
use telling::{Teller, take_over_told};
use trunk_wire::TrunkLink;

/// Takes over from another host over a trunk of many connections, with a session that was begun, and answers how it ended. The frames of events are
/// taken from `input`, which has all that the other host's input had, none before the program waits for an item, and no byte behind one. Nothing is written
/// to `output` before the run has reached all that was handed over; from there on pieces go there as frames, each behind what its client has. `notes`,
/// `watch`, `teller` and `alloc` serve as in `serve_trunk`: the record and the report of the whole run are written anew, but for the recoveries that were handed over.
///
/// # Errors
///
/// Nothing was written to `output`. `Mismatch`: record and report aren't of this program and this input; `Short`: a client has more than was sent to it;
/// `Stops`: the input was refused, a call failed, or memory ran out, before the run had reached what was handed over.
pub fn resume_trunk<R: AccessRule, S: Source, K: Sink, N: Notes, W: Watch, T: Teller, L: Ledger>(
    alloc: Global,
    session: &mut Session<R>,
    handed: &HandedOver<'_>,
    input: &mut S,
    output: &mut K,
    notes: &mut N,
    watch: &mut W,
    teller: &T,
    steps: &mut Steps<L>,
) -> Result<Answer, Unfollowed>
    requires begun { IsReadyToServe session.old }
    requires handed { MayBeHanded (handed_of handed.now) }
    ensures resumes { ResumesBy (rules_by R.rule session.old) (handed_of handed.now) (S.told input.old) (S.told input.new) (K.told output.old) (K.told output.new) (N.shown notes.old) (N.shown notes.new) ((W.ran watch.old + steps.new) - (W.ran watch.new + steps.old)) (W.tables watch.old) (W.tables watch.new) session.old session.new result }
    ensures cause { HasAnswerCause (trunk_counts (S.faults input.old) (K.faults output.old)) (trunk_counts (S.faults input.new) (K.faults output.new)) (answer_as result) }
    ensures outside { (S.fixed input.new ≡ S.fixed input.old) × (K.fixed output.new ≡ K.fixed output.old) × (N.fixed notes.new ≡ N.fixed notes.old) }
    ensures counted_at_least { W.ran watch.new + steps.old + session.new.steps ≤ W.ran watch.old + steps.new }
{
    let mut link = TrunkLink::make(alloc, &mut *input, &mut *output);
    take_over_told(session, handed, &mut link, notes, watch, teller, steps)
}
