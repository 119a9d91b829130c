// What a session does between two events of its program while it follows another host's run.
ghost use Rattle.std.specs.Prelude.{Err, ◌≡◌, ◌+◌, ◌^◌, ◌<◌, ◌≤◌, [], List, ℕ, length};
ghost use Rattle.links.specs.Links.{Told};
ghost use Rattle.links.specs.Seen.{Seen};
ghost use Rattle.guest_image.specs.declared.image.Image.{Image};
ghost use Rattle.rx_base.specs.declared.item.Item.{Item};
ghost use Rattle.guest_cpu.specs.declared.event.Event.TheVariants as event;
ghost use Rattle.run_history.specs.Served.{Limits, Path};
ghost use Rattle.session_history.specs.declared.ends.SessionBreak.TheVariants as session_break;
ghost use Rattle.session_history.specs.declared.ends.Stop.{Stop};
ghost use Rattle.session_history.specs.declared.ends.Stop.TheVariants as stop;
ghost use Rattle.session_history.specs.Lawful.{Rules};
ghost use Rattle.session_following.specs.declared.unfollowed.Unfollowed.TheVariants as unfollowed;
ghost use Rattle.session_notes.specs.Noting.{Noted};
ghost use Rattle.follow.specs.Plans.{plan_of};
ghost use Rattle.follow.specs.Handed.{Stand};
ghost use Rattle.session_state.specs.Leaving.{KeepsOldest};
ghost use Rattle.session_state.specs.Serving.{HasSameOpen, rules_by};
ghost use Rattle.session_following.specs.HandedOver.{handed_of};
ghost use Rattle.session_following.specs.Judging.{IsJudged, IsJudgedAt};
ghost use Rattle.session_following.specs.Moving.{before_moved};
ghost use Rattle.session_following.specs.Turning.{HasReachedOn, HasRunOn, IsReleased, StandsReached, StandsRun, TurnsTo};

use crate::Session;
use block_book::Choice;
use guest_space::AccessRule;
use session_following::remembering::{Chose, Moved, Released};
use session_following::{
    HandedOver, Judged, Missing, StandKind, Turned, Unfollowed, agrees, in_force, judge,
};
use session_history::{SessionBreak, Stop};
use session_state::Past;

impl<R: AccessRule> Session<R> {
    // The guest ran on to a place where it can be judged: the session answers for its run, and what came before takes that in.
    pub(crate) fn move_on(&mut self)
        ensures { self.new ≡ record self.old { taken = self.old.cpu.slots.live.guest.machine.taken; steps = self.old.cpu.slots.live.steps; before = before_moved self.old.before self.old.cpu.slots.live [] } }
    {
        self.count_run();
        self.past = Past::of(&Moved {
            past: &self.past,
            cpu: &self.held.cpu,
        });
    }

    // Judges the run where it stands.
    pub(crate) fn judge_here(
        &self,
        handed: &HandedOver<'_>,
        missing: &mut Missing,
        kind: StandKind,
        stuck: bool,
    ) -> Judged
        requires { self.now.recorded + length self.now.choices < 2 ^ 64 }
        ensures same { missing.new ≡ missing.old }
        ensures judged { (limits : Limits) (items : List Item) (path : Path) (stand : Stand limits (plan_of limits.keep handed.now.episodes.now) path)
            → IsJudgedAt limits items (handed_of handed.now) path stand missing.old kind self.now.taken self.now.steps (self.now.recorded + length self.now.choices) stuck
            → IsJudged limits items (handed_of handed.now) path stand stuck result }
    {
        let chosen = self.held.recorded + self.held.choices.len() as u64;
        judge(handed, missing, kind, self.taken, self.steps, chosen, stuck)
    }

    // An ask was answered: as the record has it, or the run is another one.
    pub(crate) fn follow_choice(
        &mut self,
        handed: &HandedOver<'_>,
        choice: Choice,
    ) -> Result<Turned, Unfollowed>
        requires { (missing : List ℕ) × StandsRun (rules_by R.rule self.old) (handed_of handed.now) missing (event.Chooses choice) self.old }
        ensures turns { (rules : Rules) (image : Image) (before : Told) (seen : Seen) (noted_before noted : Noted) (missing : List ℕ)
            → HasRunOn rules (rules_by R.rule self.old) image (handed_of handed.now) before seen noted_before noted missing (event.Chooses choice) self.old
            → TurnsTo rules (rules_by R.rule self.new) image (handed_of handed.now) before seen noted_before noted missing self.new result }
        ensures keeps { KeepsOldest self.old self.new × (self.new.options ≡ self.old.options) × (self.new.cpu ≡ self.old.cpu) × HasSameOpen self.old.replies self.new.replies }
        ensures low { self.old.steps ≤ self.old.cpu.slots.live.steps → self.new.steps ≤ self.new.cpu.slots.live.steps }
        ensures memory { (why : Stop) → result ≡ Err (unfollowed.Stops why) → why ≡ stop.Breaks session_break.Memory }
    {
        let chosen = self.held.recorded + self.held.choices.len() as u64;
        if let Err(_) = self.held.choices.push(choice) {
            return Err(Unfollowed::Stops(Stop::Breaks(SessionBreak::Memory)));
        }
        self.count_run();
        self.past = Past::of(&Chose {
            past: &self.past,
            cpu: &self.held.cpu,
            choice,
        });
        if !agrees(handed, chosen, choice) {
            return Err(Unfollowed::Mismatch {
                step: self.steps - 1,
            });
        }
        Ok(Turned::GoesOn)
    }

    // It is released where its run stands: an ordinary session goes on there, with all that was followed before it.
    pub(crate) fn release(&mut self, handed: &HandedOver<'_>)
        requires { StandsReached (rules_by R.rule self.old) (handed_of handed.now) self.old }
        ensures released { (rules : Rules) (image : Image) (before : Told) (seen : Seen) (noted_before noted : Noted) (missing : List ℕ)
            → HasReachedOn rules (rules_by R.rule self.old) image (handed_of handed.now) before seen noted_before noted missing self.old
            → IsReleased rules (rules_by R.rule self.new) image (handed_of handed.now) before seen noted_before noted self.new }
        ensures same { self.new ≡ record self.old { env = self.new.env; until = self.new.until; before = self.new.before; hold = self.new.hold } }
        ensures keeps { KeepsOldest self.old self.new × (self.new.options ≡ self.old.options) × (self.new.cpu ≡ self.old.cpu) × HasSameOpen self.old.replies self.new.replies }
        ensures low { self.old.steps ≤ self.old.cpu.slots.live.steps → self.new.steps ≤ self.new.cpu.slots.live.steps }
    {
        let (env, until) = in_force(
            handed.episodes,
            self.taken,
            self.options.keep,
            self.options.base,
        );
        self.env = env;
        self.until = until;
        self.hold = self.options.hold;
        self.past = Past::of(&Released {
            past: &self.past,
            episodes: handed.episodes,
            keep: self.options.keep,
        });
    }
}
