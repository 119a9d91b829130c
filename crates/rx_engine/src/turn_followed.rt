// What a session does from one event of its program to the next while it follows another host's run.
ghost use Rattle.std.specs.Prelude.{◌≡◌, ◌+◌, ◌≤◌, Err, List, false, true, ℕ};
ghost use Rattle.links.specs.Links.{Told};
ghost use Rattle.links.specs.Seen.{Seen};
ghost use Rattle.guest_image.specs.declared.image.Image.{Image};
ghost use Rattle.session_history.specs.declared.ends.SessionBreak.TheVariants as session_break;
ghost use Rattle.session_history.specs.declared.ends.Stop.TheVariants as stop;
ghost use Rattle.session_history.specs.Lawful.{Rules};
ghost use Rattle.session_notes.specs.Noting.{Noted};
ghost use Rattle.session_state.specs.Serving.{MayServe, rules_by};
ghost use Rattle.follow.specs.Following.{AsksForMore};
ghost use Rattle.session_following.specs.declared.unfollowed.Unfollowed.{Unfollowed};
ghost use Rattle.session_following.specs.declared.unfollowed.Unfollowed.TheVariants as unfollowed;
ghost use Rattle.session_following.specs.HandedOver.{handed_of};
ghost use Rattle.session_following.specs.TakingOver.{IsUnfollowed};
ghost use Rattle.session_following.specs.Turning.{CanRelease, Follows, KeepsTurning, TurnsTo};

use crate::Session;
use guest_cpu::Event;
use guest_space::AccessRule;
use links::Link;
use rx_base::Steps;
use session_following::{HandedOver, Missing, Turned, Unfollowed};
use session_history::{SessionBreak, Stop};
use session_notes::Notes;
use std::sync::ledger::Ledger;

impl<R: AccessRule> Session<R> {
    // Runs the guest to its next event, and does what the event asks for; nothing is given.
    pub(crate) fn follow_turn<K: Link, N: Notes, L: Ledger>(
        &mut self,
        handed: &HandedOver<'_>,
        missing: &mut Missing,
        link: &mut K,
        notes: &mut N,
        steps: &mut Steps<L>,
    ) -> Result<Turned, Unfollowed>
        requires follows { (rules : Rules) × (image : Image) × (before : Told) × (noted_before : Noted) × Follows rules (rules_by R.rule self.old) image (handed_of handed.now) before (K.seen link.old) noted_before (N.shown notes.old).told missing.old self.old }
        requires can { CanRelease (handed_of handed.now) }
        requires may { MayServe (K.seen link.old) self.old.replies }
        ensures turns { (rules : Rules) (image : Image) (before : Told) (noted_before : Noted)
            → Follows rules (rules_by R.rule self.old) image (handed_of handed.now) before (K.seen link.old) noted_before (N.shown notes.old).told missing.old self.old
            → TurnsTo rules (rules_by R.rule self.new) image (handed_of handed.now) before (K.seen link.new) noted_before (N.shown notes.new).told missing.new self.new result }
        ensures keeps { KeepsTurning (K.seen link.old) (K.seen link.new) (N.shown notes.old) (N.shown notes.new) self.old self.new result }
        ensures least { self.new.steps ≤ self.new.cpu.slots.live.steps }
        ensures gives { (K.seen link.new).gives ≡ true }
        ensures noting { result ≡ Err (unfollowed.Stops (stop.Breaks session_break.FileFault)) → (K.seen link.new).takes ≡ true }
        ensures stops { (rules : Rules) (image : Image) (before : Told) (noted_before : Noted) (why : Unfollowed)
            → Follows rules (rules_by R.rule self.old) image (handed_of handed.now) before (K.seen link.old) noted_before (N.shown notes.old).told missing.old self.old → result ≡ Err why
            → (u : IsUnfollowed rules image (handed_of handed.now) before (K.seen link.new) noted_before (N.shown notes.new).told self.new.cpu.slots.live.steps self.new why)
            × ((K.seen link.new).takes ≡ false → AsksForMore rules image (handed_of handed.now) u.events) }
        ensures counted { steps.new + self.old.cpu.slots.live.steps ≡ steps.old + self.new.cpu.slots.live.steps }
        ensures outside { K.Went link.old link.new × (N.fixed notes.new ≡ N.fixed notes.old) }
    {
        let env = self.env_now();
        match self
            .held
            .cpu
            .run_to_event(self.held.alloc, env, self.options.budget, steps)
        {
            Ok(Event::Asks) => {
                self.move_on();
                self.follow_request(handed, missing, link, notes, steps)
            }
            Ok(Event::Emits(conn, bytes)) => self.follow_send(missing, conn, bytes),
            Ok(Event::Chooses(choice)) => self.follow_choice(handed, choice),
            Ok(Event::Exits(code)) => self.follow_exit(handed, missing, code),
            Ok(Event::Failed(_)) => {
                self.move_on();
                self.follow_failure(handed, missing)
            }
            Err(_) => Err(Unfollowed::Stops(Stop::Breaks(SessionBreak::Memory))),
        }
    }
}
