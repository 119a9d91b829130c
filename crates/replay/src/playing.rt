// A turn of a replay.
ghost use Rattle.std.specs.Prelude.{◌≡◌, ◌<◌, ◌^◌, true, None, slice_get};
ghost use Rattle.links.specs.Links.{Told};
ghost use Rattle.links.specs.Seen.{Seen};
ghost use Rattle.guest_image.specs.declared.image.Image.{Image};
ghost use Rattle.replay.specs.Differing.{DiffersBy, HasFound};
ghost use Rattle.replay.specs.Giving.{IsLastSend};
ghost use Rattle.replay.specs.Replaying.{choice_by};
ghost use Rattle.replay.specs.Playing.{stage_of, IsBetween, IsWaiting, IsWanting, StandsBetween, StandsWaiting, StandsWanting, TurnsBy, GoesOnBy, HasNoFault, LinkTurns, LinkHears, CountsSteps, UsesBy};
ghost use Rattle.replay.specs.Judging.{ended_apart, judged, left_over, unusable_apart};

use crate::difference::Difference;
use crate::giver::Giver;
use crate::player::Player;
use block_book::{Ask, Choice};
use guest_cpu::Question;
use links::Link;
use run_history::Answer;
use rx_base::Steps;
use schedule_file::{Line, Recorded};
use std::sync::ledger::Ledger;

// The record's line of a number, if there is one.
fn line_at(recorded: &Recorded, number: u64) -> Option<Line>
    ensures { result ≡ slice_get recorded.now.lines number }
{
    recorded.lines.as_slice().get(number as usize).copied()
}

// The answer that a line tells of, where this is asked.
fn choice_by(ask: Ask, line: Line) -> Choice
    ensures { result ≡ choice_by ask line }
{
    Choice {
        ask: line.ask.unwrap_or(ask),
        at: line.at,
        zeroed: line.zeroed,
        carried: line.carried,
    }
}

// What differs where the answer to an ask can't be used.
fn unusable_apart(number: u64, asked: Ask, choice: Choice) -> Difference
    ensures { result ≡ unusable_apart number asked choice }
{
    if choice.ask.is(asked) {
        Difference::Unusable {
            number,
            asked,
            at: choice.at,
            zeroed: choice.zeroed,
            carried: choice.carried,
        }
    } else {
        Difference::OtherAsk {
            number,
            asked,
            told: choice.ask,
        }
    }
}

impl Player {
    // Runs the guest to its next question, and does what it asks for.
    pub(crate) fn turn<K: Link, G: Giver<K>, L: Ledger>(
        &mut self,
        recorded: &Recorded,
        giver: &G,
        link: &mut K,
        steps: &mut Steps<L>,
    ) -> Result<(), Answer>
        requires stands { StandsBetween recorded.now (K.seen link.old) (stage_of self.old) }
        requires short { recorded.now.steps < 2 ^ 63 }
        requires none { self.old.difference ≡ None }
        ensures turns { (image : Image) (began : Told) → IsBetween image recorded.now began (K.seen link.old) (stage_of self.old)
            → TurnsBy image recorded.now began (K.seen link.new) (IsLastSend began (K.seen link.old).told (G.Gave link.old link.new)) (stage_of self.new) result }
        ensures differs { DiffersBy (HasFound recorded.now self.new.cpu.slots.live) self.old.difference self.new.difference result }
        ensures steps { CountsSteps steps.old steps.new self.old.cpu.slots.live.steps self.new.cpu.slots.live.steps result }
        ensures link { LinkTurns (K.seen link.old) (K.seen link.new) result }
        ensures went { K.Went link.old link.new }
    {
        match self.cpu.run_recorded(self.alloc, recorded.steps, steps) {
            Ok(Question::Reached) => {
                self.difference = self.left_over(recorded);
                Err(self.judge())
            }
            Ok(Question::Asks) => self.ask(recorded, link, steps),
            Ok(Question::Emits(conn, bytes)) => self.send(giver, link, conn, &bytes),
            Ok(Question::Wants(ask)) => self.choose(recorded, ask, steps),
            Ok(Question::Exits(code)) => {
                self.difference = self.ended_apart(recorded, code);
                Err(self.judge())
            }
            Ok(Question::Failed(cause)) => {
                self.difference = Some(Difference::Failed { cause });
                Err(self.mismatch())
            }
            Err(_) => Err(Answer::Memory),
        }
    }

    // The guest asks for an item: it comes, and is taken.
    fn ask<K: Link, L: Ledger>(
        &mut self,
        recorded: &Recorded,
        link: &mut K,
        steps: &mut Steps<L>,
    ) -> Result<(), Answer>
        requires waits { StandsWaiting recorded.now (K.seen link.old) (stage_of self.old) }
        requires short { recorded.now.steps < 2 ^ 63 }
        ensures turns { (image : Image) (began : Told) → IsWaiting image recorded.now began (K.seen link.old) (stage_of self.old)
            → GoesOnBy image recorded.now began (K.seen link.new) (stage_of self.new) result }
        ensures differs { DiffersBy (HasFound recorded.now self.new.cpu.slots.live) self.old.difference self.new.difference result }
        ensures steps { CountsSteps steps.old steps.new self.old.cpu.slots.live.steps self.new.cpu.slots.live.steps result }
        ensures link { LinkHears (K.seen link.old) (K.seen link.new) result }
        ensures went { K.Went link.old link.new }
    {
        if let Err(answer) = self.await_item(link) {
            return Err(answer);
        }
        let taken = self.cpu.marks().taken;
        self.cpu.take_item(self.log.item(taken), steps);
        Ok(())
    }

    /// The guest wants an answer to an ask: that of the record's next line is used, if there is one and it can be.
    pub fn choose<L: Ledger>(
        &mut self,
        recorded: &Recorded,
        ask: Ask,
        steps: &mut Steps<L>,
    ) -> Result<(), Answer>
        requires { StandsWanting recorded.now ask self.old.cpu.slots.live }
        ensures turns { (image : Image) (began : Told) (seen : Seen) → seen.takes ≡ true → IsWanting image recorded.now began seen ask (stage_of self.old)
            → GoesOnBy image recorded.now began seen (stage_of self.new) result }
        ensures differs { DiffersBy (HasFound recorded.now self.new.cpu.slots.live) self.old.difference self.new.difference result }
        ensures steps { CountsSteps steps.old steps.new self.old.cpu.slots.live.steps self.new.cpu.slots.live.steps result }
        ensures no_fault { HasNoFault result }
        ensures uses { UsesBy recorded.now ask (stage_of self.old) (stage_of self.new) result }
    {
        self.cpu.sound();
        let number = self.cpu.marks().choices;
        let Some(line) = line_at(recorded, number) else {
            self.difference = Some(Difference::NoLine { number, asked: ask });
            return Err(self.mismatch());
        };
        let choice = choice_by(ask, line);
        if let Err(_) = self.choices.push(choice) {
            return Err(Answer::Memory);
        }
        if !self.cpu.use_choice(ask, choice, steps) {
            let _ = self.choices.pop();
            self.difference = Some(unusable_apart(number, ask, choice));
            return Err(self.mismatch());
        }
        Ok(())
    }

    /// What differs at the record's end.
    pub fn left_over(&self, recorded: &Recorded) -> Option<Difference>
        ensures { result ≡ left_over recorded.now self.now.cpu.slots.live }
    {
        let marks = self.cpu.marks();
        let lines = recorded.lines.as_slice().len() as u64;
        if marks.choices != lines {
            return Some(Difference::LinesLeft {
                used: marks.choices,
                lines,
            });
        }
        if marks.taken != recorded.taken {
            return Some(Difference::ItemsApart {
                taken: marks.taken,
                told: recorded.taken,
            });
        }
        None
    }

    /// What differs where the guest has ended itself with a code.
    pub fn ended_apart(&self, recorded: &Recorded, code: u32) -> Option<Difference>
        ensures { result ≡ ended_apart recorded.now code self.now.cpu.slots.live }
    {
        if self.cpu.marks().steps < recorded.steps {
            return Some(Difference::Ended { code });
        }
        self.left_over(recorded)
    }

    /// The guest has come to its end, or to the record's: all was as recorded, or it wasn't.
    pub fn judge(&self) -> Answer
        ensures { result ≡ judged self.now.difference self.now.cpu.slots.live.steps }
    {
        match self.difference {
            None => Answer::Finished,
            Some(_) => self.mismatch(),
        }
    }
}
