// What a session does that takes over from another host: it follows that one's run up to where it is released.
ghost use Rattle.std.specs.Prelude.{◌≡◌, ◌+◌, ◌-◌, ◌≤◌, List, [], ℕ};
ghost use Rattle.links.specs.Links.{IsFresh};
ghost use Rattle.links.specs.Seen.{Seen};
ghost use Rattle.guest_image.specs.declared.image.Image.{Image};
ghost use Rattle.session_history.specs.Answering.{MayBegin};
ghost use Rattle.session_notes.specs.Noting.{Noted};
ghost use Rattle.session_state.specs.Leaving.{IsTrimmed, keeping_of};
ghost use Rattle.session_state.specs.Serving.{IsReadyToServe, rules_by};
ghost use Rattle.session_state.specs.Sessions.{IsBegun};
ghost use Rattle.session_following.specs.HandedOver.{handed_of};
ghost use Rattle.session_following.specs.Missing.{IsMissing};
ghost use Rattle.session_following.specs.TakingOver.{MayBeHanded, TakesOver};
ghost use Rattle.session_following.specs.Turning.{Follows};

use crate::Session;
use guest_space::AccessRule;
use links::Link;
use recovery::Watch;
use run_history::Answer;
use rx_base::Steps;
use session_following::remembering::Began;
use session_following::{HandedOver, Missing, Turned, Unfollowed, are_well_placed, env_planned};
use session_history::{SessionBreak, SessionEnd, Stop};
use session_notes::Notes;
use session_state::Past;
use std::sync::ledger::Ledger;

impl<R: AccessRule> Session<R> {
    /// Takes over from another host, which was killed, by what that handed over: how many bytes each client has, the episodes of its report, the answers of the
    /// allocator in its record, and perhaps the record's last line. The session follows the run of that host from the start of the program, under the plan of the
    /// report, and gives nothing. Where the run has reached all that was handed over it is released: clients have so many first bytes of what it sent, and from
    /// there on the session serves as `serve_watched` does, and answers so.
    ///
    /// # Errors
    ///
    /// Nothing was given then. `Mismatch`: record and report aren't of this program and these items; `Short`: a client has more than was sent to it; `Stops`: an
    /// event of the link was refused, a call failed, or memory ran out, before it was released.
    pub fn take_over<K: Link, N: Notes, W: Watch, L: Ledger>(
        &mut self,
        handed: &HandedOver<'_>,
        link: &mut K,
        notes: &mut N,
        watch: &mut W,
        steps: &mut Steps<L>,
    ) -> Result<Answer, Unfollowed>
        requires begun { IsReadyToServe self.old }
        requires may { MayBegin (K.seen link.old) }
        requires handed { MayBeHanded (handed_of handed.now) }
        ensures taken { TakesOver (rules_by R.rule self.old) (handed_of handed.now) (K.seen link.old) (K.seen link.new) (N.shown notes.old) (N.shown notes.new) ((W.ran watch.old + steps.new) - (W.ran watch.new + steps.old)) (W.tables watch.old) (W.tables watch.new) self.old self.new result }
        ensures counted_at_least { W.ran watch.new + steps.old + self.new.steps ≤ W.ran watch.old + steps.new }
        ensures outside { K.Went link.old link.new × (N.fixed notes.new ≡ N.fixed notes.old) }
    {
        let mut missing = match Missing::of(self.held.alloc, handed.counts) {
            Ok(missing) => missing,
            Err(_) => return Err(Unfollowed::Stops(Stop::Breaks(SessionBreak::Memory))),
        };
        if !are_well_placed(handed.episodes) {
            return Err(Unfollowed::Mismatch { step: 0 });
        }
        self.begin_following(handed);
        'turns: loop {
            match self.follow_turn(handed, &mut missing, link, notes, steps) {
                Ok(Turned::GoesOn) => {}
                Ok(Turned::Released) => return Ok(self.serve_released(link, notes, watch, steps)),
                Ok(Turned::Exits(code)) => {
                    return Ok(self.finish(link, notes, SessionEnd::Exited(code)).answer());
                }
                Err(why) => return Err(why),
            }
        }
    }

    // It follows from the start of the program, which is its first checkpoint, in the environment of the report; and it passes nothing.
    pub(crate) fn begin_following(&mut self, handed: &HandedOver<'_>)
        requires { IsReadyToServe self.old }
        ensures follows { (image : Image) (seen : Seen) (shown : Noted) (missing : List ℕ) → IsBegun image self.old.options self.old.cpu.rule self.old → IsFresh seen.phases → IsMissing (handed_of handed.now).counts [] missing
            → Follows (rules_by R.rule self.old) (rules_by R.rule self.new) image (handed_of handed.now) seen.told seen shown shown missing self.new }
        ensures keeps { (self.new.options ≡ self.old.options) × (self.new.cpu.rule ≡ self.old.cpu.rule) × (self.new.replies ≡ self.old.replies) × (keeping_of self.new ≡ keeping_of self.old) × (self.new.cpu.slots.live ≡ self.old.cpu.slots.live) }
        ensures trimmed { IsTrimmed self.new }
    {
        self.save_start();
        self.env = env_planned(handed.episodes, 0, self.options.keep, self.options.base);
        self.until = 1;
        self.hold = u32::MAX;
        self.past = Past::of(&Began {
            cpu: &self.held.cpu,
            env: self.env,
        });
    }
}
