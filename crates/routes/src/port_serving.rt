// A session over a port.
ghost use Rattle.std.specs.Prelude.{◌≡◌, ◌+◌, ◌-◌, ◌≤◌, [], None};
ghost use Rattle.port_link.specs.Standing.{IsJustBound};
ghost use Rattle.session_history.specs.Answering.{HasAnswerCause};
ghost use Rattle.session_state.specs.Serving.{IsReadyToServe, rules_by};
ghost use Rattle.session_history.specs.Answering.{port_counts};
ghost use Rattle.routes.specs.Serving.{HasServedOver, NeverRefuses, Port};

use guest_space::AccessRule;
use port_link::{PortLimits, PortLink};
use ports::Port;
use run_history::Answer;
use rx_base::Steps;
use rx_engine::Session;
use session_notes::Notes;
use std::alloc::Global;
use std::sync::ledger::Ledger;
use telling::{Teller, serve_told};

/// Serves so many connections of a port that was just bound as its limits say, as many of them at the same time as they say, with a
/// session that was begun, and answers how it ended. No connection is accepted, and no byte taken, before the program waits for an item; a
/// piece goes to the connection that it names, until that is closed. `notes` are told the answers of malloc and the recoveries. At
/// each answer each recovery, and a walk at which it gave up, had the checkpoints that the requests before it left. `teller` is told
/// of them. `alloc` is for the pieces. Connections that are open at the end aren't closed.
pub fn serve_port<R: AccessRule, P: Port, N: Notes, T: Teller, L: Ledger>(
    alloc: Global,
    session: &mut Session<R>,
    port: &mut P,
    limits: PortLimits,
    notes: &mut N,
    teller: &T,
    steps: &mut Steps<L>,
) -> Answer
    requires begun { IsReadyToServe session.old }
    requires limits { (1 ≤ limits.at_once) × (limits.conns ≤ 4096) }
    requires none { P.connections port.old ≡ [] }
    requires bound { IsJustBound (P.told port.old) }
    ensures served { HasServedOver (Port limits (P.told port.old) (P.told port.new)) (rules_by R.rule session.old) (N.shown notes.old) (N.shown notes.new) (steps.new - steps.old) None None session.old session.new result }
    ensures never { NeverRefuses result }
    ensures cause { HasAnswerCause (port_counts (P.faults port.old)) (port_counts (P.faults port.new)) result }
    ensures outside { (P.fixed port.new ≡ P.fixed port.old) × (N.fixed notes.new ≡ N.fixed notes.old) }
    ensures counted_at_least { steps.old + session.new.steps ≤ steps.new }
{
    let mut link = PortLink::make(alloc, &mut *port, limits);
    serve_told(session, &mut link, notes, teller, steps)
}
