// What a session does where its program fails or ends itself while it follows another host's run.
ghost use Rattle.std.specs.Prelude.{Err, Ok, ◌≡◌, ◌≢◌, ◌≤◌};
ghost use Rattle.links.specs.Links.{Told};
ghost use Rattle.links.specs.Seen.{Seen};
ghost use Rattle.guest_image.specs.declared.image.Image.{Image};
ghost use Rattle.guest_cpu.specs.declared.event.Event.TheVariants as event;
ghost use Rattle.session_history.specs.declared.ends.SessionBreak.TheVariants as session_break;
ghost use Rattle.session_history.specs.declared.ends.Stop.{Stop};
ghost use Rattle.session_history.specs.declared.ends.Stop.TheVariants as stop;
ghost use Rattle.session_history.specs.Lawful.{Rules};
ghost use Rattle.session_following.specs.declared.turned.Turned.TheVariants as turned;
ghost use Rattle.session_following.specs.declared.unfollowed.Unfollowed.TheVariants as unfollowed;
ghost use Rattle.session_notes.specs.Noting.{Noted};
ghost use Rattle.session_state.specs.Leaving.{KeepsOldest};
ghost use Rattle.session_state.specs.Serving.{HasSameOpen, rules_by};
ghost use Rattle.session_following.specs.HandedOver.{handed_of};
ghost use Rattle.session_following.specs.Turning.{CanRelease, FailsOn, HasRunOn, StandsFailingOn, StandsRun, TurnsTo};

use crate::Session;
use guest_space::AccessRule;
use session_following::remembering::Left;
use session_following::{HandedOver, Judged, Missing, StandKind, Turned, Unfollowed};
use session_state::Past;

impl<R: AccessRule> Session<R> {
    // The guest fails where it stands: the session is released, and recovers then; or the run is another one, or short.
    pub(crate) fn follow_failure(
        &mut self,
        handed: &HandedOver<'_>,
        missing: &mut Missing,
    ) -> Result<Turned, Unfollowed>
        requires { StandsFailingOn (rules_by R.rule self.old) (handed_of handed.now) missing.old self.old }
        ensures same { missing.new ≡ missing.old }
        ensures turns { (rules : Rules) (image : Image) (before : Told) (seen : Seen) (noted_before noted : Noted)
            → FailsOn rules (rules_by R.rule self.old) image (handed_of handed.now) before seen noted_before noted missing.old self.old
            → TurnsTo rules (rules_by R.rule self.new) image (handed_of handed.now) before seen noted_before noted missing.old self.new result }
        ensures keeps { KeepsOldest self.old self.new × (self.new.options ≡ self.old.options) × (self.new.cpu ≡ self.old.cpu) × HasSameOpen self.old.replies self.new.replies }
        ensures low { self.old.steps ≤ self.old.cpu.slots.live.steps → self.new.steps ≤ self.new.cpu.slots.live.steps }
        ensures memory { (why : Stop) → result ≡ Err (unfollowed.Stops why) → why ≡ stop.Breaks session_break.Memory }
        ensures never { result ≢ Ok turned.GoesOn }
    {
        match self.judge_here(handed, missing, StandKind::Failure, true) {
            Judged::Reached => {
                self.release(handed);
                Ok(Turned::Released)
            }
            Judged::Short(conn) => Err(Unfollowed::Short { conn }),
            Judged::Unlike => Err(Unfollowed::Mismatch { step: self.steps }),
            Judged::GoesOn => Err(Unfollowed::Mismatch { step: self.steps }),
        }
    }

    // The guest ended itself: the session is released; or the run is another one, or short.
    pub(crate) fn follow_exit(
        &mut self,
        handed: &HandedOver<'_>,
        missing: &mut Missing,
        code: u32,
    ) -> Result<Turned, Unfollowed>
        requires run { StandsRun (rules_by R.rule self.old) (handed_of handed.now) missing.old (event.Exits code) self.old }
        requires can { CanRelease (handed_of handed.now) }
        ensures same { missing.new ≡ missing.old }
        ensures turns { (rules : Rules) (image : Image) (before : Told) (seen : Seen) (noted_before noted : Noted)
            → HasRunOn rules (rules_by R.rule self.old) image (handed_of handed.now) before seen noted_before noted missing.old (event.Exits code) self.old
            → TurnsTo rules (rules_by R.rule self.new) image (handed_of handed.now) before seen noted_before noted missing.old self.new result }
        ensures keeps { KeepsOldest self.old self.new × (self.new.options ≡ self.old.options) × (self.new.cpu ≡ self.old.cpu) × HasSameOpen self.old.replies self.new.replies }
        ensures low { self.old.steps ≤ self.old.cpu.slots.live.steps → self.new.steps ≤ self.new.cpu.slots.live.steps }
        ensures memory { (why : Stop) → result ≡ Err (unfollowed.Stops why) → why ≡ stop.Breaks session_break.Memory }
        ensures never { result ≢ Ok turned.GoesOn }
    {
        self.count_run();
        match self.judge_here(handed, missing, StandKind::Exit, true) {
            Judged::Reached => {
                self.hold = self.options.hold;
                self.past = Past::of(&Left {
                    past: &self.past,
                    cpu: &self.held.cpu,
                    episodes: handed.episodes,
                    keep: self.options.keep,
                });
                Ok(Turned::Exits(code))
            }
            Judged::Short(conn) => Err(Unfollowed::Short { conn }),
            Judged::Unlike => Err(Unfollowed::Mismatch { step: self.steps }),
            Judged::GoesOn => Err(Unfollowed::Mismatch { step: self.steps }),
        }
    }
}
