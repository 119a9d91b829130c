// What a session does once it is released, where another host's run stands.
ghost use Rattle.std.specs.Prelude.{◌≡◌, ◌+◌, ◌-◌, ◌≤◌, ℕ};
ghost use Rattle.session_state.specs.Serving.{rules_by};
ghost use Rattle.session_following.specs.Turning.{HasServedReleased, StandsReleased};

use crate::Session;
use guest_space::AccessRule;
use links::Link;
use recovery::Watch;
use run_history::Answer;
use rx_base::Steps;
use session_notes::Notes;
use std::sync::ledger::Ledger;

impl<R: AccessRule> Session<R> {
    // It was released: what is due is passed, and it serves on as an ordinary session.
    pub(crate) fn serve_released<K: Link, N: Notes, W: Watch, L: Ledger>(
        &mut self,
        link: &mut K,
        notes: &mut N,
        watch: &mut W,
        steps: &mut Steps<L>,
    ) -> Answer
        requires { StandsReleased (rules_by R.rule self.old) (K.seen link.old) (N.shown notes.old).told self.old }
        ensures served { HasServedReleased (rules_by R.rule self.old) (K.seen link.old) (K.seen link.new) (N.shown notes.old) (N.shown notes.new) ((W.ran watch.old + steps.new + self.old.steps) - (W.ran watch.new + steps.old)) (W.tables watch.old) (W.tables watch.new) self.old self.new result }
        ensures counted_at_least { W.ran watch.new + steps.old + self.new.steps ≤ W.ran watch.old + steps.new + self.old.steps }
        ensures outside { K.Went link.old link.new × (N.fixed notes.new ≡ N.fixed notes.old) }
    {
        let _ = &self.options;
        if let Err(stop) = self.pass_due(link) {
            return stop.answer();
        }
        self.serve_on(link, notes, watch, steps)
    }
}
