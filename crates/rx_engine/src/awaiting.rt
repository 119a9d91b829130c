// What a session does at its request for an item while it follows another host's run.
ghost use Rattle.std.specs.Prelude.{◌≡◌, ◌+◌, ◌<◌, ◌≤◌, Err, IfOk, List, ℕ, true};
ghost use Rattle.links.specs.Links.{Told};
ghost use Rattle.links.specs.Seen.{Seen};
ghost use Rattle.guest_image.specs.declared.image.Image.{Image};
ghost use Rattle.item_log.specs.Log.{received};
ghost use Rattle.follow.specs.Handed.{Handed};
ghost use Rattle.follow.specs.Following.{AsksForMore};
ghost use Rattle.session_history.specs.declared.ends.Stop.{Stop as StopShape};
ghost use Rattle.session_history.specs.Lawful.{Rules};
ghost use Rattle.session_notes.specs.Noting.{Noted};
ghost use Rattle.session_following.specs.Moving.{before_heard};
ghost use Rattle.session_state.specs.Leaving.{KeepsOldest};
ghost use Rattle.session_state.specs.Serving.{CountsEvent, IsCounted, IsUnnoted, LinkServes, WaitsBy, rules_by};
ghost use Rattle.session_state.specs.Standing.{IsWaitingFor, Since};
ghost use Rattle.session_following.specs.HandedOver.{handed_of};
ghost use Rattle.session_following.specs.Waiting.{AwaitsBy, KeepsHandling, KeepsHeard, StandsHandling, StandsTakingOn, StandsWaitingOn, StoppedOn};
ghost use Rattle.session_following.specs.Turning.{Follows, WaitsOn, heard_as};

use crate::Session;
use crate::hearing::stop_at;
use guest_space::AccessRule;
use link_gate::{Heard, hear_into};
use links::{Link, LinkEvent};
use rx_base::Steps;
use session_following::remembering::{HeardOf, Took};
use session_following::{HandedOver, env_planned};
use session_history::Stop;
use session_notes::Notes;
use session_state::Past;
use std::sync::ledger::Ledger;

impl<R: AccessRule> Session<R> {
    // The guest's request for an item is handled: it is saved where a checkpoint is due, and what no trial needs any more is noted and given up.
    pub(crate) fn handle<N: Notes>(&mut self, notes: &mut N) -> Result<(), Stop>
        requires { StandsHandling (rules_by R.rule self.old) self.old }
        ensures waits { (image : Image) (began : Since) (seen : Seen) → seen.takes ≡ true → IsWaitingFor (rules_by R.rule self.old) image (record began { noted = (N.shown notes.old).told }) seen self.old
            → WaitsBy (rules_by R.rule self.old) image (record began { noted = (N.shown notes.new).told }) seen self.new result }
        ensures keeps { KeepsHandling (N.shown notes.old) (N.shown notes.new) self.old self.new result }
        ensures fixed { N.fixed notes.new ≡ N.fixed notes.old }
    {
        self.save();
        if let Err(stop) = self.note_choices(notes) {
            return Err(stop);
        }
        self.forget();
        Ok(())
    }

    // An event was heard: it came before from now on.
    fn heard_of(&mut self, event: &LinkEvent)
        ensures { self.new ≡ record self.old { before = before_heard self.old.before event.now } }
    {
        self.past = Past::of(&HeardOf {
            past: &self.past,
            event,
        });
    }

    // The guest takes the item that it waits for, which is there, and is in the environment of the report up to the next one.
    pub(crate) fn take_followed<L: Ledger>(&mut self, handed: &HandedOver<'_>, steps: &mut Steps<L>)
        requires { StandsTakingOn (rules_by R.rule self.old) (handed_of handed.now) self.old }
        ensures follows { (rules : Rules) (image : Image) (before : Told) (seen : Seen) (noted_before noted : Noted) (missing : List ℕ)
            → WaitsOn rules (rules_by R.rule self.old) image (handed_of handed.now) before seen noted_before noted missing self.old
            → Follows rules (rules_by R.rule self.new) image (handed_of handed.now) before seen noted_before noted missing self.new }
        ensures counted { steps.new ≡ steps.old + 1 }
        ensures keeps { KeepsOldest self.old self.new × (self.new.options ≡ self.old.options) × (self.new.cpu.rule ≡ self.old.cpu.rule) × (self.new.replies ≡ self.old.replies) × IsCounted self.new }
        ensures one { self.new.cpu.slots.live.steps ≡ self.old.cpu.slots.live.steps + 1 }
    {
        self.take(steps);
        self.env = env_planned(
            handed.episodes,
            self.taken,
            self.options.keep,
            self.options.base,
        );
        self.until = self.taken + 1;
        self.past = Past::of(&Took {
            past: &self.past,
            cpu: &self.held.cpu,
            env: self.env,
        });
    }

    // Takes the link's next event while the guest waits for an item that wasn't received, and passes nothing. Whether there was one: else the link has ended.
    fn hear_followed<K: Link>(&mut self, link: &mut K) -> Result<bool, Stop>
        requires waits { StandsWaitingOn (rules_by R.rule self.old) (K.seen link.old) self.old }
        requires none_left { received self.old.log ≤ self.old.taken }
        ensures hears { (rules : Rules) (image : Image) (handed : Handed) (before : Told) (noted_before noted : Noted) (missing : List ℕ)
            → WaitsOn rules (rules_by R.rule self.old) image handed before (K.seen link.old) noted_before noted missing self.old
            → AwaitsBy rules (rules_by R.rule self.new) image handed before (K.seen link.new) noted_before noted missing self.new result }
        ensures link { LinkServes (K.seen link.old) (K.seen link.new) self.new.replies (heard_as result) }
        ensures keeps { KeepsHeard self.old self.new }
        ensures counts { CountsEvent self.old self.new (heard_as result) }
        ensures unnoted { IsUnnoted (heard_as result) }
        ensures gives { (K.seen link.new).gives ≡ true }
        ensures asked { (rules : Rules) (image : Image) (handed : Handed) (before : Told) (noted_before noted : Noted) (missing : List ℕ) (why : StopShape)
            → WaitsOn rules (rules_by R.rule self.old) image handed before (K.seen link.old) noted_before noted missing self.old → result ≡ Err why
            → (stopped : StoppedOn rules image handed before (K.seen link.new) noted_before noted missing self.new why) × AsksForMore rules image handed stopped.waited.waits.asking.stands.events }
        ensures went { K.Went link.old link.new }
    {
        let mut event = LinkEvent::Ends;
        match hear_into(
            link,
            &mut self.held.log,
            &mut self.held.replies,
            &mut self.events,
            self.options.max_events,
            &mut event,
        ) {
            Ok(Heard::Items) => {
                self.heard_of(&event);
                Ok(true)
            }
            Ok(Heard::Settles) => {
                self.heard_of(&event);
                Ok(true)
            }
            Ok(Heard::Closes(conn)) => {
                self.held.replies.closes(conn);
                self.heard_of(&event);
                Ok(true)
            }
            Ok(Heard::Ends) => Ok(false),
            Err(fault) => Err(stop_at(fault)),
        }
    }

    // Hears the link until the item is there that the guest waits for; or the link has ended.
    pub(crate) fn await_followed<K: Link>(&mut self, link: &mut K) -> Result<bool, Stop>
        requires { StandsWaitingOn (rules_by R.rule self.old) (K.seen link.old) self.old }
        ensures hears { (rules : Rules) (image : Image) (handed : Handed) (before : Told) (noted_before noted : Noted) (missing : List ℕ)
            → WaitsOn rules (rules_by R.rule self.old) image handed before (K.seen link.old) noted_before noted missing self.old
            → AwaitsBy rules (rules_by R.rule self.new) image handed before (K.seen link.new) noted_before noted missing self.new result }
        ensures link { LinkServes (K.seen link.old) (K.seen link.new) self.new.replies (heard_as result) }
        ensures there { IfOk result (λ more. more ≡ true → self.new.taken < received self.new.log) }
        ensures unnoted { IsUnnoted (heard_as result) }
        ensures keeps { KeepsHeard self.old self.new }
        ensures gives { (K.seen link.new).gives ≡ true }
        ensures asked { (rules : Rules) (image : Image) (handed : Handed) (before : Told) (noted_before noted : Noted) (missing : List ℕ) (why : StopShape)
            → WaitsOn rules (rules_by R.rule self.old) image handed before (K.seen link.old) noted_before noted missing self.old → result ≡ Err why
            → (stopped : StoppedOn rules image handed before (K.seen link.new) noted_before noted missing self.new why) × AsksForMore rules image handed stopped.waited.waits.asking.stands.events }
        ensures went { K.Went link.old link.new }
    {
        'waits: while self.held.log.received() <= self.taken {
            match self.hear_followed(link) {
                Ok(true) => {}
                Ok(false) => return Ok(false),
                Err(stop) => return Err(stop),
            }
        }
        Ok(true)
    }
}
