// What a session does where its program failed.
ghost use Rattle.std.specs.Prelude.{◌≡◌, ℕ, ◌+◌, ◌≤◌};
ghost use Rattle.links.specs.Seen.{Seen};
ghost use Rattle.guest_image.specs.declared.image.Image.{Image};
ghost use Rattle.session_state.specs.Standing.{Since, IsFailing};
ghost use Rattle.session_state.specs.Serving.{IsNoteAnswer, ComesBetween, StandsFailing, AdoptsBy, KeepsAdopting, KeepsRecovering, end_of, rules_by};

use crate::Session;
use guest_space::AccessRule;
use links::Link;
use recovery::{Adopted, FailureSite, Recovered, Watch};
use run_history::Cause;
use rx_base::{IoFault, Steps};
use session_history::{SessionBreak, SessionEnd, Stop};
use session_notes::Notes;
use std::alloc::AllocError;
use std::sync::ledger::Ledger;

/// A fault of notes, as what breaks a session off.
pub fn note_answer(fault: IoFault) -> SessionBreak
    ensures { IsNoteAnswer fault result }
{
    match fault {
        IoFault::Failed => SessionBreak::FileFault,
        IoFault::Memory => SessionBreak::Memory,
    }
}

// The end that a recovery comes to, if it does: none survived, or the trial that did had ended itself.
fn end_of(point: u64, cause: Cause, adopted: Option<Adopted>) -> Option<SessionEnd>
    ensures { result ≡ end_of point cause adopted }
{
    match adopted {
        None => Some(SessionEnd::GaveUp { point, cause }),
        Some(adopted) => adopted.code.map(|code| SessionEnd::Exited(code)),
    }
}

impl<R: AccessRule> Session<R> {
    /// The guest failed: the watch looks at it, and then the session goes on as a trial that came past the failure, or gives up.
    pub(crate) fn recover<K: Link, N: Notes, W: Watch, L: Ledger>(
        &mut self,
        link: &mut K,
        notes: &mut N,
        watch: &mut W,
        cause: Cause,
        steps: &mut Steps<L>,
    ) -> Result<(), Stop>
        requires { StandsFailing (rules_by R.rule self.old) (K.seen link.old) (W.tables watch.old) cause self.old }
        ensures turns { (image : Image) (began : Since) (lost : ℕ) → IsFailing (rules_by R.rule self.old) image (record began { noted = (N.shown notes.old).told; tables = W.tables watch.old }) (K.seen link.old) cause self.old
            → lost + self.new.steps + (W.ran watch.new + steps.old) ≡ began.lost + self.old.steps + (W.ran watch.old + steps.new)
            → ComesBetween (rules_by R.rule self.old) image (record began { lost = lost; noted = (N.shown notes.new).told; tables = W.tables watch.new }) (K.seen link.new) self.new result }
        ensures keeps { KeepsRecovering (K.seen link.old) (K.seen link.new) (N.shown notes.old) (N.shown notes.new) self.old self.new result }
        ensures least { self.new.steps + (W.ran watch.new + steps.old) ≤ W.ran watch.old + steps.new + self.old.steps }
        ensures outside { K.Went link.old link.new × (N.fixed notes.new ≡ N.fixed notes.old) }
    {
        let point = self.taken;
        let recovered = match self.adopt(watch, cause, steps) {
            Ok(recovered) => recovered,
            Err(AllocError) => return Err(Stop::Breaks(SessionBreak::Memory)),
        };
        if let Err(fault) = notes.episode(&recovered.episode) {
            return Err(Stop::Breaks(note_answer(fault)));
        }
        if let Some(end) = end_of(point, cause, recovered.adopted) {
            return Err(Stop::Ends(end));
        }
        self.pass_due(link)
    }

    // The session becomes a trial, of which what is due has to be passed, or comes to its end; but the episode isn't noted yet.
    fn adopt<W: Watch, L: Ledger>(
        &mut self,
        watch: &mut W,
        cause: Cause,
        steps: &mut Steps<L>,
    ) -> Result<Recovered, AllocError>
        requires { (seen : Seen) × StandsFailing (rules_by R.rule self.old) seen (W.tables watch.old) cause self.old }
        ensures adopts { (image : Image) (began : Since) (seen : Seen) (lost : ℕ) → IsFailing (rules_by R.rule self.old) image (record began { tables = W.tables watch.old }) seen cause self.old
            → lost + self.new.steps + (W.ran watch.new + steps.old) ≡ began.lost + self.old.steps + (W.ran watch.old + steps.new)
            → AdoptsBy (rules_by R.rule self.old) image (record began { lost = lost; tables = W.tables watch.new }) seen self.old.taken cause self.new result }
        ensures keeps { KeepsAdopting cause self.old self.new result }
        ensures least { self.new.steps + (W.ran watch.new + steps.old) ≤ W.ran watch.old + steps.new + self.old.steps }
    {
        let point = self.taken;
        let pc = self.held.cpu.pc();
        let site = FailureSite { point, cause, pc };
        match self.held.recover(site, self.options.budget, watch, steps) {
            Ok(recovered) => match recovered.adopted {
                Some(adopted) => {
                    self.env = adopted.env;
                    self.until = point + self.options.keep as u64;
                    self.count_run();
                    Ok(recovered)
                }
                None => Ok(recovered),
            },
            Err(e) => Err(e),
        }
    }
}
