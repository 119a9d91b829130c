// A session that lets a teller know.
ghost use Rattle.std.specs.Prelude.{◌≡◌, None, ◌+◌, ◌-◌, ◌≤◌};
ghost use Rattle.session_history.specs.Answering.{MayBegin};
ghost use Rattle.session_state.specs.Serving.{HasServedLink, IsReadyToServe, rules_by};
ghost use Rattle.session_following.specs.HandedOver.{handed_of};
ghost use Rattle.session_following.specs.TakingOver.{MayBeHanded, TakesOver};

use crate::noting::TellingNotes;
use crate::teller::Teller;
use crate::watching::TellingWatch;
use guest_space::AccessRule;
use links::Link;
use recovery::{NoWatch, Watch};
use run_history::Answer;
use rx_base::Steps;
use rx_engine::Session;
use session_following::{HandedOver, Unfollowed};
use session_notes::Notes;
use std::sync::ledger::Ledger;

/// Serves a link as `serve_watched` of the session does, and lets a teller know of each episode that was noted. Who wants it to know of what is seen
/// at a failure gives a watch that does so.
pub fn serve_watched_told<R: AccessRule, K: Link, N: Notes, W: Watch, T: Teller, L: Ledger>(
    session: &mut Session<R>,
    link: &mut K,
    notes: &mut N,
    watch: &mut W,
    teller: &T,
    steps: &mut Steps<L>,
) -> Answer
    requires begun { IsReadyToServe session.old }
    requires may { MayBegin (K.seen link.old) }
    ensures served { HasServedLink (rules_by R.rule session.old) (K.seen link.old) (K.seen link.new) (N.shown notes.old) (N.shown notes.new) ((W.ran watch.old + steps.new) - (W.ran watch.new + steps.old)) (W.tables watch.old) (W.tables watch.new) session.old session.new result }
    ensures counted_at_least { W.ran watch.new + steps.old + session.new.steps ≤ W.ran watch.old + steps.new }
    ensures outside { K.Went link.old link.new × (N.fixed notes.new ≡ N.fixed notes.old) }
{
    let mut telling = TellingNotes::make(teller, &mut *notes);
    session.serve_watched(link, &mut telling, watch, steps)
}

/// Takes over over a link as `take_over` of the session does, and lets a teller know of each episode that was noted.
///
/// # Errors
///
/// Those of `take_over`.
pub fn take_over_told<R: AccessRule, K: Link, N: Notes, W: Watch, T: Teller, L: Ledger>(
    session: &mut Session<R>,
    handed: &HandedOver<'_>,
    link: &mut K,
    notes: &mut N,
    watch: &mut W,
    teller: &T,
    steps: &mut Steps<L>,
) -> Result<Answer, Unfollowed>
    requires begun { IsReadyToServe session.old }
    requires may { MayBegin (K.seen link.old) }
    requires handed { MayBeHanded (handed_of handed.now) }
    ensures taken { TakesOver (rules_by R.rule session.old) (handed_of handed.now) (K.seen link.old) (K.seen link.new) (N.shown notes.old) (N.shown notes.new) ((W.ran watch.old + steps.new) - (W.ran watch.new + steps.old)) (W.tables watch.old) (W.tables watch.new) session.old session.new result }
    ensures counted_at_least { W.ran watch.new + steps.old + session.new.steps ≤ W.ran watch.old + steps.new }
    ensures outside { K.Went link.old link.new × (N.fixed notes.new ≡ N.fixed notes.old) }
{
    let mut telling = TellingNotes::make(teller, &mut *notes);
    session.take_over(handed, link, &mut telling, watch, steps)
}

/// Serves a link as `serve` of the session does, and lets a teller know of what is seen at each failure, and of each episode that was noted.
pub fn serve_told<R: AccessRule, K: Link, N: Notes, T: Teller, L: Ledger>(
    session: &mut Session<R>,
    link: &mut K,
    notes: &mut N,
    teller: &T,
    steps: &mut Steps<L>,
) -> Answer
    requires begun { IsReadyToServe session.old }
    requires may { MayBegin (K.seen link.old) }
    ensures served { HasServedLink (rules_by R.rule session.old) (K.seen link.old) (K.seen link.new) (N.shown notes.old) (N.shown notes.new) (steps.new - steps.old) None None session.old session.new result }
    ensures counted_at_least { steps.old + session.new.steps ≤ steps.new }
    ensures outside { K.Went link.old link.new × (N.fixed notes.new ≡ N.fixed notes.old) }
{
    let mut watch = TellingWatch::make(teller, NoWatch);
    serve_watched_told(session, link, notes, &mut watch, teller, steps)
}
