// What a session that follows another host's run does of its guest's sends.
ghost use Rattle.std.specs.Prelude.{Err, ◌≡◌, ◌≤◌, List, ℕ};
ghost use Rattle.links.specs.Links.{Told};
ghost use Rattle.links.specs.Seen.{Seen};
ghost use Rattle.guest_image.specs.declared.image.Image.{Image};
ghost use Rattle.guest_cpu.specs.declared.event.Event.TheVariants as event;
ghost use Rattle.session_history.specs.declared.ends.SessionBreak.TheVariants as session_break;
ghost use Rattle.session_history.specs.declared.ends.Stop.{Stop};
ghost use Rattle.session_history.specs.declared.ends.Stop.TheVariants as stop;
ghost use Rattle.session_history.specs.Lawful.{Rules};
ghost use Rattle.session_following.specs.declared.unfollowed.Unfollowed.TheVariants as unfollowed;
ghost use Rattle.session_notes.specs.Noting.{Noted};
ghost use Rattle.follow.specs.Handed.{Handed};
ghost use Rattle.session_state.specs.Leaving.{KeepsOldest};
ghost use Rattle.session_state.specs.Serving.{HasSameOpen, rules_by};
ghost use Rattle.session_following.specs.Turning.{HasRunOn, StandsRun, TurnsTo};

use crate::Session;
use guest_space::AccessRule;
use rx_base::{Bytes, Conn};
use session_following::remembering::Sent;
use session_following::{Missing, Turned, Unfollowed, note_held};
use session_history::{SessionBreak, Stop};
use session_state::Past;

impl<R: AccessRule> Session<R> {
    // The guest sent bytes to a connection: they are noted, and what its client has of them is passed.
    pub(crate) fn follow_send(
        &mut self,
        missing: &mut Missing,
        conn: Conn,
        bytes: Bytes,
    ) -> Result<Turned, Unfollowed>
        requires { (handed : Handed) × StandsRun (rules_by R.rule self.old) handed missing.old (event.Emits conn bytes) self.old }
        ensures turns { (rules : Rules) (image : Image) (handed : Handed) (before : Told) (seen : Seen) (noted_before noted : Noted)
            → HasRunOn rules (rules_by R.rule self.old) image handed before seen noted_before noted missing.old (event.Emits conn bytes) self.old
            → TurnsTo rules (rules_by R.rule self.new) image handed before seen noted_before noted missing.new self.new result }
        ensures keeps { KeepsOldest self.old self.new × (self.new.options ≡ self.old.options) × (self.new.cpu ≡ self.old.cpu) × HasSameOpen self.old.replies self.new.replies }
        ensures low { self.old.steps ≤ self.old.cpu.slots.live.steps → self.new.steps ≤ self.new.cpu.slots.live.steps }
        ensures memory { (why : Stop) → result ≡ Err (unfollowed.Stops why) → why ≡ stop.Breaks session_break.Memory }
    {
        let left = missing.left(conn);
        let length = bytes.as_slice().len() as u64;
        let sent = Past::of(&Sent {
            past: &self.past,
            cpu: &self.held.cpu,
            conn,
            bytes: &bytes,
            taken: self.taken,
            count: left.min(length),
        });
        if let Err(_) = note_held(&mut self.held.replies, conn, bytes, self.taken, left) {
            return Err(Unfollowed::Stops(Stop::Breaks(SessionBreak::Memory)));
        }
        missing.sent(conn, length);
        self.past = sent;
        self.count_run();
        Ok(Turned::GoesOn)
    }
}
