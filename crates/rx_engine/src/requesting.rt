// What a session does at its guest's request for an item while it follows another host's run.
ghost use Rattle.std.specs.Prelude.{◌≡◌, ◌+◌, ◌^◌, ◌<◌, ◌≤◌, Err, List, false, length, true, ℕ};
ghost use Rattle.links.specs.Links.{Told};
ghost use Rattle.links.specs.Seen.{Seen};
ghost use Rattle.guest_image.specs.declared.image.Image.{Image};
ghost use Rattle.session_history.specs.declared.ends.SessionBreak.TheVariants as session_break;
ghost use Rattle.session_history.specs.declared.ends.SessionEnd.TheVariants as session_end;
ghost use Rattle.session_history.specs.declared.ends.Stop.TheVariants as stop;
ghost use Rattle.session_history.specs.Lawful.{Rules};
ghost use Rattle.session_notes.specs.Noting.{Noted};
ghost use Rattle.follow.specs.Following.{AsksForMore};
ghost use Rattle.follow.specs.Plans.{AreWellPlaced};
ghost use Rattle.session_state.specs.Serving.{MayServe, rules_by};
ghost use Rattle.session_following.specs.HandedOver.{handed_of};
ghost use Rattle.session_following.specs.declared.unfollowed.Unfollowed.{Unfollowed as Why};
ghost use Rattle.session_following.specs.declared.unfollowed.Unfollowed.TheVariants as unfollowed;
ghost use Rattle.session_following.specs.TakingOver.{IsUnfollowed, stop_as};
ghost use Rattle.session_following.specs.Turning.{AsksOn, CanRelease, KeepsTurning, TurnsTo, WaitsOn};
ghost use Rattle.session_following.specs.Waiting.{EndedOn};

use crate::Session;
use guest_space::AccessRule;
use links::Link;
use rx_base::Steps;
use session_following::{HandedOver, Judged, Missing, StandKind, Turned, Unfollowed};
use session_notes::Notes;
use std::sync::ledger::Ledger;

impl<R: AccessRule> Session<R> {
    // The link has ended while the guest waits for an item: the run is another one, or short.
    fn unfollowed_end(&self, handed: &HandedOver<'_>, missing: &mut Missing) -> Unfollowed
        requires placed { AreWellPlaced (handed_of handed.now).episodes }
        requires fits { self.now.recorded + length self.now.choices < 2 ^ 64 }
        ensures same { missing.new ≡ missing.old }
        ensures at_end { stop_as result ≡ stop.Ends session_end.Finished }
        ensures unfollowed { (rules : Rules) (image : Image) (before : Told) (seen : Seen) (noted_before noted : Noted) (counted : ℕ)
            → EndedOn rules image (handed_of handed.now) before seen noted_before noted missing.old self.now → counted ≡ self.now.steps
            → (ended : IsUnfollowed rules image (handed_of handed.now) before seen noted_before noted counted self.now result) × AsksForMore rules image (handed_of handed.now) ended.events }
    {
        match self.judge_here(handed, missing, StandKind::Request, true) {
            Judged::Short(conn) => Unfollowed::Short { conn },
            Judged::Unlike => Unfollowed::Mismatch { step: self.steps },
            Judged::Reached => Unfollowed::Mismatch { step: self.steps },
            Judged::GoesOn => Unfollowed::Mismatch { step: self.steps },
        }
    }

    // The guest's request is handled, and the item comes and is taken; or the link has ended.
    fn follow_item<K: Link, N: Notes, L: Ledger>(
        &mut self,
        handed: &HandedOver<'_>,
        missing: &mut Missing,
        link: &mut K,
        notes: &mut N,
        steps: &mut Steps<L>,
    ) -> Result<Turned, Unfollowed>
        requires waits { (rules : Rules) × (image : Image) × (before : Told) × (noted_before : Noted) × WaitsOn rules (rules_by R.rule self.old) image (handed_of handed.now) before (K.seen link.old) noted_before (N.shown notes.old).told missing.old self.old }
        requires can { CanRelease (handed_of handed.now) }
        requires may { MayServe (K.seen link.old) self.old.replies }
        ensures same { missing.new ≡ missing.old }
        ensures turns { (rules : Rules) (image : Image) (before : Told) (noted_before : Noted)
            → WaitsOn rules (rules_by R.rule self.old) image (handed_of handed.now) before (K.seen link.old) noted_before (N.shown notes.old).told missing.old self.old
            → TurnsTo rules (rules_by R.rule self.new) image (handed_of handed.now) before (K.seen link.new) noted_before (N.shown notes.new).told missing.old self.new result }
        ensures keeps { KeepsTurning (K.seen link.old) (K.seen link.new) (N.shown notes.old) (N.shown notes.new) self.old self.new result }
        ensures gives { (K.seen link.new).gives ≡ true }
        ensures noting { result ≡ Err (unfollowed.Stops (stop.Breaks session_break.FileFault)) → (K.seen link.new).takes ≡ true }
        ensures stops { (rules : Rules) (image : Image) (before : Told) (noted_before : Noted) (why : Why)
            → WaitsOn rules (rules_by R.rule self.old) image (handed_of handed.now) before (K.seen link.old) noted_before (N.shown notes.old).told missing.old self.old → result ≡ Err why
            → (stopped : IsUnfollowed rules image (handed_of handed.now) before (K.seen link.new) noted_before (N.shown notes.new).told self.new.cpu.slots.live.steps self.new why)
            × ((K.seen link.new).takes ≡ false → AsksForMore rules image (handed_of handed.now) stopped.events) }
        ensures least { self.new.steps ≤ self.new.cpu.slots.live.steps }
        ensures counted { steps.new + self.old.cpu.slots.live.steps ≡ steps.old + self.new.cpu.slots.live.steps }
        ensures outside { K.Went link.old link.new × (N.fixed notes.new ≡ N.fixed notes.old) }
    {
        // What holds of every session is known from here on.
        let _ = &self.options;
        if let Err(stop) = self.handle(notes) {
            return Err(Unfollowed::Stops(stop));
        }
        match self.await_followed(link) {
            Ok(true) => {
                self.take_followed(handed, steps);
                Ok(Turned::GoesOn)
            }
            Ok(false) => Err(self.unfollowed_end(handed, missing)),
            Err(stop) => Err(Unfollowed::Stops(stop)),
        }
    }

    // The guest asks for an item: the session is released; or the run is another one, or short; or the item comes, and it follows on.
    pub(crate) fn follow_request<K: Link, N: Notes, L: Ledger>(
        &mut self,
        handed: &HandedOver<'_>,
        missing: &mut Missing,
        link: &mut K,
        notes: &mut N,
        steps: &mut Steps<L>,
    ) -> Result<Turned, Unfollowed>
        requires asks { (rules : Rules) × (image : Image) × (before : Told) × (noted_before : Noted) × AsksOn rules (rules_by R.rule self.old) image (handed_of handed.now) before (K.seen link.old) noted_before (N.shown notes.old).told missing.old self.old }
        requires can { CanRelease (handed_of handed.now) }
        requires may { MayServe (K.seen link.old) self.old.replies }
        ensures same { missing.new ≡ missing.old }
        ensures turns { (rules : Rules) (image : Image) (before : Told) (noted_before : Noted)
            → AsksOn rules (rules_by R.rule self.old) image (handed_of handed.now) before (K.seen link.old) noted_before (N.shown notes.old).told missing.old self.old
            → TurnsTo rules (rules_by R.rule self.new) image (handed_of handed.now) before (K.seen link.new) noted_before (N.shown notes.new).told missing.old self.new result }
        ensures keeps { KeepsTurning (K.seen link.old) (K.seen link.new) (N.shown notes.old) (N.shown notes.new) self.old self.new result }
        ensures gives { (K.seen link.new).gives ≡ true }
        ensures noting { result ≡ Err (unfollowed.Stops (stop.Breaks session_break.FileFault)) → (K.seen link.new).takes ≡ true }
        ensures stops { (rules : Rules) (image : Image) (before : Told) (noted_before : Noted) (why : Why)
            → AsksOn rules (rules_by R.rule self.old) image (handed_of handed.now) before (K.seen link.old) noted_before (N.shown notes.old).told missing.old self.old → result ≡ Err why
            → (stopped : IsUnfollowed rules image (handed_of handed.now) before (K.seen link.new) noted_before (N.shown notes.new).told self.new.cpu.slots.live.steps self.new why)
            × ((K.seen link.new).takes ≡ false → AsksForMore rules image (handed_of handed.now) stopped.events) }
        ensures least { self.new.steps ≤ self.new.cpu.slots.live.steps }
        ensures counted { steps.new + self.old.cpu.slots.live.steps ≡ steps.old + self.new.cpu.slots.live.steps }
        ensures outside { K.Went link.old link.new × (N.fixed notes.new ≡ N.fixed notes.old) }
    {
        match self.judge_here(handed, missing, StandKind::Request, false) {
            Judged::GoesOn => self.follow_item(handed, missing, link, notes, steps),
            Judged::Reached => {
                self.release(handed);
                Ok(Turned::Released)
            }
            Judged::Short(conn) => Err(Unfollowed::Short { conn }),
            Judged::Unlike => Err(Unfollowed::Mismatch { step: self.steps }),
        }
    }
}
