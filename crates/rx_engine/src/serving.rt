// A session from its begin to its end.
ghost use Rattle.std.specs.Prelude.{◌≡◌, None, ℕ, ◌+◌, ◌-◌, ◌≤◌, true};
ghost use Rattle.links.specs.Seen.{Seen};
ghost use Rattle.guest_image.specs.declared.image.Image.{Image};
ghost use Rattle.guest_cpu.specs.declared.event.Event.TheVariants as event;
ghost use Rattle.session_history.specs.Answering.{MayBegin};
ghost use Rattle.session_state.specs.Standing.{Since, IsGoing, IsBetween, IsWaitingFor, IsEnding};
ghost use Rattle.session_state.specs.Recovered.{HasWatched};
ghost use Rattle.session_state.specs.Leaving.{keeping_of, IsTrimmed, LeavesBy};
ghost use Rattle.session_state.specs.Serving.{HasServedLink, HasServedOn, StandsServing, Finishes, HasRun, StandsBetween, StandsAsking, StandsHearing, StandsTaking, StandsEmitting, StandsEnding, IsFinishing, ComesBetween, IsReadyToServe, outcome_of, KeepsTurning, KeepsAsking, KeepsReceiving, KeepsItem, KeepsSending, KeepsChoosing, rules_by};

use crate::Session;
use crate::giving::answer_to;
use block_book::Choice;
use guest_cpu::Event;
use guest_space::AccessRule;
use link_gate::pass_until;
use links::Link;
use recovery::{NoWatch, Watch};
use run_history::Answer;
use rx_base::{Bytes, Conn, Steps};
use session_history::{SessionBreak, SessionEnd, Stop};
use session_notes::Notes;
use std::sync::ledger::Ledger;

impl<R: AccessRule> Session<R> {
    /// Serves a link to which no connection was opened yet, from the start of the program to an end, a fault or want of memory, and
    /// answers how it ended. At an end all that is held back is passed. Checkpoints of the program are saved on the way, and at each answer each
    /// recovery, and a walk at which it gave up, had those that the requests before it left. The notes are told each
    /// recovery, and the answers of the allocator: those from before the oldest checkpoint as it is saved, and the others at an end.
    pub fn serve<K: Link, N: Notes, L: Ledger>(
        &mut self,
        link: &mut K,
        notes: &mut N,
        steps: &mut Steps<L>,
    ) -> Answer
        requires begun { IsReadyToServe self.old }
        requires may { MayBegin (K.seen link.old) }
        ensures served { HasServedLink (rules_by R.rule self.old) (K.seen link.old) (K.seen link.new) (N.shown notes.old) (N.shown notes.new) (steps.new - steps.old) None None self.old self.new result }
        ensures counted_at_least { steps.old + self.new.steps ≤ steps.new }
        ensures outside { K.Went link.old link.new × (N.fixed notes.new ≡ N.fixed notes.old) }
    {
        let mut watch = NoWatch;
        self.serve_watched(link, notes, &mut watch, steps)
    }

    /// Serves a link to which no connection was opened yet, from the start of the program to an end, a fault or want of memory, and
    /// answers how it ended. At an end all that is held back is passed. Checkpoints of the program are saved on the way, and at each answer each
    /// recovery, and a walk at which it gave up, had those that the requests before it left. The notes are told each
    /// recovery, and the answers of the allocator: those from before the oldest checkpoint as it is saved, and the others at an end. The watch looks at
    /// each failure before trials are made. What it counts isn't the session's.
    pub fn serve_watched<K: Link, N: Notes, W: Watch, L: Ledger>(
        &mut self,
        link: &mut K,
        notes: &mut N,
        watch: &mut W,
        steps: &mut Steps<L>,
    ) -> Answer
        requires begun { IsReadyToServe self.old }
        requires may { MayBegin (K.seen link.old) }
        ensures served { HasServedLink (rules_by R.rule self.old) (K.seen link.old) (K.seen link.new) (N.shown notes.old) (N.shown notes.new) ((W.ran watch.old + steps.new) - (W.ran watch.new + steps.old)) (W.tables watch.old) (W.tables watch.new) self.old self.new result }
        ensures counted_at_least { W.ran watch.new + steps.old + self.new.steps ≤ W.ran watch.old + steps.new }
        ensures outside { K.Went link.old link.new × (N.fixed notes.new ≡ N.fixed notes.old) }
    {
        self.save_start();
        self.serve_on(link, notes, watch, steps)
    }

    /// Serves a link on from where the session stands between two events of its program, to an end, a fault or want of memory, and answers how it ended, as
    /// `serve_watched` does. What was counted before isn't counted again.
    pub fn serve_on<K: Link, N: Notes, W: Watch, L: Ledger>(
        &mut self,
        link: &mut K,
        notes: &mut N,
        watch: &mut W,
        steps: &mut Steps<L>,
    ) -> Answer
        requires { StandsServing (rules_by R.rule self.old) (K.seen link.old) (N.shown notes.old).told (W.tables watch.old) self.old }
        ensures served { HasServedOn (rules_by R.rule self.old) (K.seen link.old) (K.seen link.new) (N.shown notes.old) (N.shown notes.new) ((W.ran watch.old + steps.new + self.old.steps) - (W.ran watch.new + steps.old)) (W.tables watch.old) (W.tables watch.new) self.old self.new result }
        ensures counted_at_least { W.ran watch.new + steps.old + self.new.steps ≤ W.ran watch.old + steps.new + self.old.steps }
        ensures outside { K.Went link.old link.new × (N.fixed notes.new ≡ N.fixed notes.old) }
    {
        'turns: loop {
            match self.turn(link, notes, watch, steps) {
                Ok(()) => {}
                Err(Stop::Breaks(why)) => return why.answer(),
                Err(Stop::Ends(end)) => return self.finish(link, notes, end).answer(),
            }
        }
    }

    // At an end: passes what is held back, notes the rest of the answers of the allocator, and gives up the sends that no trial needs.
    pub(crate) fn finish<K: Link, N: Notes>(
        &mut self,
        link: &mut K,
        notes: &mut N,
        end: SessionEnd,
    ) -> Stop
        requires { StandsEnding (rules_by R.rule self.old) (K.seen link.old) end self.old }
        ensures served { (image : Image) (began : Since) (first : Seen) (ending : IsEnding (rules_by R.rule self.old) image (record began { told = first.told; noted = (N.shown notes.old).told }) (K.seen link.old) self.old end)
            → IsFinishing (rules_by R.rule self.old) first (K.seen link.old) ending.story end → IsTrimmed self.old
            → (watched : HasWatched (rules_by R.rule self.old) image (keeping_of self.new) first (K.seen link.new) (outcome_of result self.new) began.noted_before (N.shown notes.new).told (began.lost + self.old.steps) began.tables_before began.tables)
            × LeavesBy (rules_by R.rule self.old) image began.noted_before.unnoted (N.shown notes.new).told.unnoted watched.recovered.telling self.new result }
        ensures same { self.new ≡ record self.old { replies = self.new.replies; recorded = self.new.recorded; choices = self.new.choices } }
        ensures shows { Finishes (K.seen link.old) (K.seen link.new) (N.shown notes.old) (N.shown notes.new) end result }
        ensures outside { K.Went link.old link.new × (N.fixed notes.new ≡ N.fixed notes.old) }
    {
        let stamp = self.held.log.received();
        if let Err(fault) = pass_until(&mut self.held.replies, link, u64::MAX, stamp) {
            return Stop::Breaks(answer_to(fault));
        }
        if let Err(fault) = self.note_rest(notes) {
            return Stop::Breaks(fault);
        }
        self.forget_sends();
        Stop::Ends(end)
    }

    // Runs the guest to its next event, and does what the event asks for.
    fn turn<K: Link, N: Notes, W: Watch, L: Ledger>(
        &mut self,
        link: &mut K,
        notes: &mut N,
        watch: &mut W,
        steps: &mut Steps<L>,
    ) -> Result<(), Stop>
        requires { StandsBetween (rules_by R.rule self.old) (K.seen link.old) (W.tables watch.old) self.old }
        ensures turns { (image : Image) (began : Since) (lost : ℕ) → IsBetween (rules_by R.rule self.old) image (record began { noted = (N.shown notes.old).told; tables = W.tables watch.old }) (K.seen link.old) self.old
            → lost + self.new.steps + (W.ran watch.new + steps.old) ≡ began.lost + self.old.cpu.slots.live.steps + (W.ran watch.old + steps.new)
            → ComesBetween (rules_by R.rule self.old) image (record began { lost = lost; noted = (N.shown notes.new).told; tables = W.tables watch.new }) (K.seen link.new) self.new result }
        ensures keeps { KeepsTurning (K.seen link.old) (K.seen link.new) (N.shown notes.old) (N.shown notes.new) self.old self.new result }
        ensures least { self.new.steps + (W.ran watch.new + steps.old) ≤ W.ran watch.old + steps.new + self.old.cpu.slots.live.steps }
        ensures outside { K.Went link.old link.new × (N.fixed notes.new ≡ N.fixed notes.old) }
    {
        let env = self.env_now();
        match self
            .held
            .cpu
            .run_to_event(self.held.alloc, env, self.options.budget, steps)
        {
            Ok(Event::Asks) => {
                self.count_run();
                self.ask(link, notes, steps)
            }
            Ok(Event::Emits(conn, bytes)) => self.send(link, conn, bytes),
            Ok(Event::Chooses(choice)) => self.choose(choice),
            Ok(Event::Exits(code)) => {
                self.count_run();
                Err(Stop::Ends(SessionEnd::Exited(code)))
            }
            Ok(Event::Failed(cause)) => {
                self.count_run();
                self.recover(link, notes, watch, cause, steps)
            }
            Err(_) => Err(Stop::Breaks(SessionBreak::Memory)),
        }
    }

    // The guest waits for an item: it is saved where a checkpoint is due, and what no trial needs any more is noted and given up. Then the item
    // comes, and is taken.
    fn ask<K: Link, N: Notes, L: Ledger>(
        &mut self,
        link: &mut K,
        notes: &mut N,
        steps: &mut Steps<L>,
    ) -> Result<(), Stop>
        requires { StandsAsking (rules_by R.rule self.old) (K.seen link.old) self.old }
        ensures turns { (image : Image) (began : Since) → IsWaitingFor (rules_by R.rule self.old) image (record began { noted = (N.shown notes.old).told }) (K.seen link.old) self.old
            → ComesBetween (rules_by R.rule self.old) image (record began { noted = (N.shown notes.new).told }) (K.seen link.new) self.new result }
        ensures keeps { KeepsAsking (K.seen link.old) (K.seen link.new) (N.shown notes.old) (N.shown notes.new) self.old self.new result }
        ensures counted { steps.new + self.old.cpu.slots.live.steps ≡ steps.old + self.new.cpu.slots.live.steps }
        ensures outside { K.Went link.old link.new × (N.fixed notes.new ≡ N.fixed notes.old) }
    {
        self.save();
        if let Err(stop) = self.note_choices(notes) {
            return Err(stop);
        }
        self.forget();
        self.receive(link, steps)
    }

    // The guest waits for an item: it comes, and is taken.
    fn receive<K: Link, L: Ledger>(
        &mut self,
        link: &mut K,
        steps: &mut Steps<L>,
    ) -> Result<(), Stop>
        requires { StandsHearing (rules_by R.rule self.old) (K.seen link.old) self.old }
        ensures turns { (image : Image) (began : Since) → IsWaitingFor (rules_by R.rule self.old) image began (K.seen link.old) self.old
            → ComesBetween (rules_by R.rule self.old) image began (K.seen link.new) self.new result }
        ensures keeps { KeepsReceiving (K.seen link.old) (K.seen link.new) self.old self.new result }
        ensures counted { steps.new + self.old.cpu.slots.live.steps ≡ steps.old + self.new.cpu.slots.live.steps }
        ensures went { K.Went link.old link.new }
    {
        if let Err(stop) = self.await_item(link) {
            return Err(stop);
        }
        self.take(steps);
        self.pass_due(link)
    }

    // The guest takes the item that it waits for, which is there.
    pub(crate) fn take<L: Ledger>(&mut self, steps: &mut Steps<L>)
        requires { StandsTaking (rules_by R.rule self.old) self.old }
        ensures going { (image : Image) (began : Since) (seen : Seen) → IsWaitingFor (rules_by R.rule self.old) image began seen self.old → IsGoing (rules_by R.rule self.old) image began seen self.new }
        ensures keeps { KeepsItem self.old self.new }
        ensures counted { steps.new ≡ steps.old + 1 }
    {
        self.held
            .cpu
            .take_item(self.held.log.item(self.taken), steps);
        self.count_run();
    }

    // The guest sent bytes to a connection.
    fn send<K: Link>(&mut self, link: &mut K, conn: Conn, bytes: Bytes) -> Result<(), Stop>
        requires { StandsEmitting (rules_by R.rule self.old) (K.seen link.old) conn bytes self.old }
        ensures turns { (image : Image) (began : Since) (lost : ℕ) → (K.seen link.old).takes ≡ true → HasRun (rules_by R.rule self.old) image began (K.seen link.old) (event.Emits conn bytes) self.old
            → lost + self.new.steps ≡ began.lost + self.old.cpu.slots.live.steps
            → ComesBetween (rules_by R.rule self.old) image (record began { lost = lost }) (K.seen link.new) self.new result }
        ensures keeps { KeepsSending (K.seen link.old) (K.seen link.new) self.old self.new result }
        ensures went { K.Went link.old link.new }
    {
        if let Err(_) = self.held.replies.sent(conn, bytes, self.taken) {
            return Err(Stop::Breaks(SessionBreak::Memory));
        }
        self.count_run();
        self.pass_due(link) // before the guest runs on
    }

    // An ask was answered.
    fn choose(&mut self, choice: Choice) -> Result<(), Stop>
        ensures turns { (image : Image) (began : Since) (seen : Seen) (lost : ℕ) → seen.takes ≡ true → HasRun (rules_by R.rule self.old) image began seen (event.Chooses choice) self.old
            → lost + self.new.steps ≡ began.lost + self.old.cpu.slots.live.steps
            → ComesBetween (rules_by R.rule self.old) image (record began { lost = lost }) seen self.new result }
        ensures keeps { KeepsChoosing self.old self.new result }
    {
        if let Err(_) = self.held.choices.push(choice) {
            return Err(Stop::Breaks(SessionBreak::Memory));
        }
        self.count_run();
        Ok(())
    }
}
