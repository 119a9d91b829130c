// A session over a trunk of many connections.
ghost use Rattle.std.specs.Prelude.{◌≡◌, ◌+◌, ◌-◌, ◌≤◌};
ghost use Rattle.session_state.specs.Serving.{IsReadyToServe, rules_by};
ghost use Rattle.session_history.specs.Answering.{HasAnswerCause};
ghost use Rattle.routes.specs.OverTrunk.{trunk_counts};
ghost use Rattle.routes.specs.Serving.{HasServedOver, Trunk};

use guest_space::AccessRule;
use recovery::Watch;
use run_history::Answer;
use rx_base::Steps;
use rx_engine::Session;
use rx_io::{Sink, Source};
use session_notes::Notes;
use std::alloc::Global;
use std::sync::ledger::Ledger;
use telling::{Teller, serve_watched_told};
use trunk_wire::TrunkLink;

/// Serves a trunk of many connections over a source and a sink with a session that was begun, and answers how it ended. The frames
/// of events are taken from `input`, none before the program waits for an item, and no byte behind one; pieces go to `output` as
/// frames. `notes` are told the answers of malloc and the recoveries. At each answer each recovery, and a walk at which it gave up, had the
/// checkpoints that the requests before it left. `watch` looks at each failure before trials are made; what it counts isn't the session's.
/// `teller` is told of each recovery that was noted. `alloc` is for the payloads.
pub fn serve_trunk<R: AccessRule, S: Source, K: Sink, N: Notes, W: Watch, T: Teller, L: Ledger>(
    alloc: Global,
    session: &mut Session<R>,
    input: &mut S,
    output: &mut K,
    notes: &mut N,
    watch: &mut W,
    teller: &T,
    steps: &mut Steps<L>,
) -> Answer
    requires begun { IsReadyToServe session.old }
    ensures served { HasServedOver (Trunk (S.told input.old) (S.told input.new) (K.told output.old) (K.told output.new)) (rules_by R.rule session.old) (N.shown notes.old) (N.shown notes.new) ((W.ran watch.old + steps.new) - (W.ran watch.new + steps.old)) (W.tables watch.old) (W.tables watch.new) session.old session.new result }
    ensures cause { HasAnswerCause (trunk_counts (S.faults input.old) (K.faults output.old)) (trunk_counts (S.faults input.new) (K.faults output.new)) result }
    ensures outside { (S.fixed input.new ≡ S.fixed input.old) × (K.fixed output.new ≡ K.fixed output.old) × (N.fixed notes.new ≡ N.fixed notes.old) }
    ensures counted_at_least { W.ran watch.new + steps.old + session.new.steps ≤ W.ran watch.old + steps.new }
{
    let mut link = TrunkLink::make(alloc, &mut *input, &mut *output);
    serve_watched_told(session, &mut link, notes, watch, teller, steps)
}
