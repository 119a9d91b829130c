// A follower that has caught up serves on.
ghost use Rattle.std.specs.Prelude.{◌≡◌, ◌≤◌, ◌+◌, ◌^◌, ℕ, List, None};
ghost use Rattle.links.specs.declared.journal.Entry.{Entry};
ghost use Rattle.item_log.specs.Log.{received};
ghost use Rattle.links.specs.Links.{Told};
ghost use Rattle.guest_image.specs.declared.image.Image.{Image};
ghost use Rattle.schedule_file.specs.declared.recorded.Recorded.{Recorded};
ghost use Rattle.replay.specs.Playing.{CountsSteps, LinkTurns, LinkHears};
ghost use Rattle.replay.specs.Replaying.{LinkAnswers};
ghost use Rattle.standby.specs.Following.{HasCaughtUp};
ghost use Rattle.standby.specs.Missing.{IsShort};
ghost use Rattle.standby.specs.Serving.{HasServed, MayServe};
ghost use Rattle.standby.specs.Running.{IsServing, IsWanting, NotesChoice, ServesBy, StandsServing, StandsWanting};

use crate::follower::Follower;
use alloc_env::Env;
use block_book::Choice;
use counts_file::Counts;
use guest_cpu::Event;
use links::Link;
use run_history::Answer;
use rx_base::Steps;
use std::sync::ledger::Ledger;

impl Follower {
    /// Serves on from where the record ended. First each client of an open connection gets what it misses by its count, one connection after another in
    /// rising order, in pieces of 65,535 bytes, the last one the rest. Then the run goes on in the environment Plain within the budget of instructions
    /// since its last item, which may be used up already. Each send is given at once as one piece. A connection that is gone gets no more.
    ///
    /// `Finished` where it asks for an item and the link has ended; `Exited`; `GaveUp` where it fails, with the number of items that it has taken; the
    /// refusals and limits of a session; `ReadFault`, `WriteFault` and `Memory`. It has no other answer.
    pub fn serve<K: Link, L: Ledger>(
        &mut self,
        counts: &Counts,
        budget: u64,
        link: &mut K,
        steps: &mut Steps<L>,
    ) -> Answer
        requires may { MayServe (K.seen link.old) self.old }
        requires short { IsShort counts.now self.old.kept.items None }
        requires budget { (1 ≤ budget) × (budget ≤ 2 ^ 36) }
        ensures served { (image : Image) (recorded : Recorded) (began : Told) (up : HasCaughtUp image recorded began (K.seen link.old) self.old)
            → HasServed image recorded budget counts.now began (K.seen link.new) up.entries result self.new }
        ensures counted { steps.new + self.old.player.cpu.slots.live.steps ≡ steps.old + self.new.player.cpu.slots.live.steps }
        ensures link { LinkAnswers (K.seen link.old) (K.seen link.new) result }
        ensures went { K.Went link.old link.new }
    {
        self.player.cpu.sound();
        if let Err(answer) = self.give_missing(counts, link) {
            return answer;
        }
        match self.exited {
            Some(code) => Answer::Exited(code),
            None => self.go_on(budget, link, steps),
        }
    }

    // Turns until there is an answer.
    fn go_on<K: Link, L: Ledger>(
        &mut self,
        budget: u64,
        link: &mut K,
        steps: &mut Steps<L>,
    ) -> Answer
        requires stands { StandsServing budget (K.seen link.old) self.old }
        requires budget { budget ≤ 2 ^ 36 }
        ensures served { (image : Image) (recorded : Recorded) (counts : List (ℕ × ℕ)) (began : Told) (from : List Entry) → IsServing image recorded budget counts began (K.seen link.old) from self.old
            → HasServed image recorded budget counts began (K.seen link.new) from result self.new }
        ensures counted { steps.new + self.old.player.cpu.slots.live.steps ≡ steps.old + self.new.player.cpu.slots.live.steps }
        ensures link { LinkAnswers (K.seen link.old) (K.seen link.new) result }
        ensures went { K.Went link.old link.new }
    {
        'turns: loop {
            self.few_items();
            if let Err(answer) = self.serve_turn(budget, link, steps) {
                return answer;
            }
        }
    }

    // Runs the guest to its next event, and does what it asks for.
    fn serve_turn<K: Link, L: Ledger>(
        &mut self,
        budget: u64,
        link: &mut K,
        steps: &mut Steps<L>,
    ) -> Result<(), Answer>
        requires stands { StandsServing budget (K.seen link.old) self.old }
        requires budget { budget ≤ 2 ^ 36 }
        ensures turns { (image : Image) (recorded : Recorded) (counts : List (ℕ × ℕ)) (began : Told) (from : List Entry) → IsServing image recorded budget counts began (K.seen link.old) from self.old
            → ServesBy image recorded budget counts began (K.seen link.new) from self.new result }
        ensures steps { CountsSteps steps.old steps.new self.old.player.cpu.slots.live.steps self.new.player.cpu.slots.live.steps result }
        ensures link { LinkTurns (K.seen link.old) (K.seen link.new) result }
        ensures went { K.Went link.old link.new }
    {
        self.few_items();
        match self
            .player
            .cpu
            .run_to_event(self.player.alloc, Env::Plain, budget, steps)
        {
            Ok(Event::Asks) => self.take(budget, link, steps),
            Ok(Event::Emits(conn, bytes)) => self.pass(link, conn, bytes.as_slice()),
            Ok(Event::Chooses(choice)) => self.note_choice(choice),
            Ok(Event::Exits(code)) => Err(Answer::Exited(code)),
            Ok(Event::Failed(cause)) => Err(Answer::GaveUp {
                point: self.player.cpu.marks().taken,
                cause,
            }),
            Err(_) => Err(Answer::Memory),
        }
    }

    // The guest asks for an item: it comes, and is taken. `Finished`: the link has ended.
    fn take<K: Link, L: Ledger>(
        &mut self,
        budget: u64,
        link: &mut K,
        steps: &mut Steps<L>,
    ) -> Result<(), Answer>
        requires stands { StandsWanting budget (K.seen link.old) self.old }
        requires budget { budget ≤ 2 ^ 36 }
        ensures turns { (image : Image) (recorded : Recorded) (counts : List (ℕ × ℕ)) (began : Told) (from : List Entry) → IsWanting image recorded budget counts began (K.seen link.old) from self.old
            → ServesBy image recorded budget counts began (K.seen link.new) from self.new result }
        ensures steps { CountsSteps steps.old steps.new self.old.player.cpu.slots.live.steps self.new.player.cpu.slots.live.steps result }
        ensures link { LinkHears (K.seen link.old) (K.seen link.new) result }
        ensures went { K.Went link.old link.new }
    {
        if let Err(answer) = self.await_item(link) {
            return Err(answer);
        }
        self.few_items();
        let taken = self.player.cpu.marks().taken;
        self.player
            .cpu
            .take_item(self.player.log.item(taken), steps);
        Ok(())
    }

    // Keeps an answer of the allocator.
    fn note_choice(&mut self, choice: Choice) -> Result<(), Answer>
        ensures { NotesChoice choice self.old self.new result }
    {
        match self.player.choices.push(choice) {
            Ok(()) => Ok(()),
            Err(_) => Err(Answer::Memory),
        }
    }

    // No more items were received than may be. It does nothing.
    fn few_items(&self)
        ensures { received self.now.player.log ≤ self.now.player.log.max_items }
    {
        let _ = self.player.log.received();
    }
}
