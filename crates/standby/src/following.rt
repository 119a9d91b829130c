// A record is followed.
ghost use Rattle.std.specs.Prelude.{◌≡◌, ◌*◌, ◌<◌, ◌^◌, None};
ghost use Rattle.links.specs.Links.{Told};
ghost use Rattle.guest_image.specs.declared.image.Image.{Image};
ghost use Rattle.session_history.specs.Answering.{MayBegin};
ghost use Rattle.replay.specs.Differing.{DiffersBy, HasFound};
ghost use Rattle.replay.specs.Playing.{CountsSteps, LinkHears};
ghost use Rattle.standby.specs.Following.{CatchesUp, EndsAs, LinkCatches, FollowsBy, IsUnderWay, StandsUnderWay, StandsAsking, IsAsking, IsStarvedBy, KeepsBy};

use crate::follower::Follower;
use crate::kept::Kept;
use guest_cpu::Question;
use guest_image::Image;
use links::Link;
use replay::{Difference, Player};
use run_history::Answer;
use rx_base::{Bytes, Conn, Steps};
use schedule_file::Recorded;
use std::alloc::{AllocError, Global};
use std::sync::ledger::Ledger;

/// Why a record wasn't followed to its end, and at Mismatch what differs.
#[derive(Clone, Copy, Debug, PartialEq, Eq)]
pub struct Unfollowed {
    pub answer: Answer,
    pub difference: Option<Difference>,
}

/// Follows a record over a link to which no connection was opened yet: the program runs as recorded, what it sends is kept, and an event is taken
/// only where the run asks for an item that wasn't received. Nothing is given to the link.
///
/// # Errors
///
/// The answers of a replay but Finished and WriteFault, each by its cause.
pub fn catch_up<K: Link, L: Ledger>(
    alloc: Global,
    image: &Image,
    recorded: &Recorded,
    link: &mut K,
    steps: &mut Steps<L>,
) -> Result<Follower, Unfollowed>
    requires window { image.now.window ≡ recorded.now.window * 1048576 }
    requires short { recorded.now.steps < 2 ^ 62 }
    requires link { MayBegin (K.seen link.old) }
    ensures catches { CatchesUp image.now recorded.now (K.seen link.old) (K.seen link.new) steps.old steps.new result }
    ensures link { LinkCatches (K.seen link.old) (K.seen link.new) result }
    ensures went { K.Went link.old link.new }
{
    let mut follower = match Player::make(alloc, image, recorded.frame) {
        Ok(player) => Follower {
            player,
            kept: Vec::new(alloc),
            exited: None,
        },
        Err(AllocError) => {
            return Err(Unfollowed {
                answer: Answer::Memory,
                difference: None,
            });
        }
    };
    'turns: loop {
        if let Err(answer) = follower.turn(recorded, link, steps) {
            return follower.ended(answer);
        }
    }
}

impl Follower {
    // Runs the guest to its next question, and does what it asks for. `Finished`: the record's end is reached, and all was as recorded.
    fn turn<K: Link, L: Ledger>(
        &mut self,
        recorded: &Recorded,
        link: &mut K,
        steps: &mut Steps<L>,
    ) -> Result<(), Answer>
        requires stands { StandsUnderWay recorded.now (K.seen link.old) self.old }
        requires short { recorded.now.steps < 2 ^ 62 }
        requires none { self.old.player.difference ≡ None }
        ensures turns { (image : Image) (began : Told) → IsUnderWay image recorded.now began (K.seen link.old) self.old → FollowsBy image recorded.now began (K.seen link.new) self.new result }
        ensures differs { DiffersBy (HasFound recorded.now self.new.player.cpu.slots.live) self.old.player.difference self.new.player.difference result }
        ensures steps { CountsSteps steps.old steps.new self.old.player.cpu.slots.live.steps self.new.player.cpu.slots.live.steps result }
        ensures link { LinkHears (K.seen link.old) (K.seen link.new) result }
        ensures went { K.Went link.old link.new }
    {
        match self
            .player
            .cpu
            .run_recorded(self.player.alloc, recorded.steps, steps)
        {
            Ok(Question::Reached) => {
                self.player.difference = self.player.left_over(recorded);
                Err(self.player.judge())
            }
            Ok(Question::Asks) => self.ask(recorded, link, steps),
            Ok(Question::Emits(conn, bytes)) => self.keep(conn, bytes),
            Ok(Question::Wants(ask)) => self.player.choose(recorded, ask, steps),
            Ok(Question::Exits(code)) => {
                self.exited = Some(code);
                self.player.difference = self.player.ended_apart(recorded, code);
                Err(self.player.judge())
            }
            Ok(Question::Failed(cause)) => {
                self.player.difference = Some(Difference::Failed { cause });
                Err(self.player.mismatch())
            }
            Err(_) => Err(Answer::Memory),
        }
    }

    // What following comes to, by the answer of its last turn.
    fn ended(self, answer: Answer) -> Result<Follower, Unfollowed>
        ensures { EndsAs answer self result }
    {
        match answer {
            Answer::Finished => Ok(self),
            other => Err(Unfollowed {
                answer: other,
                difference: self.player.difference,
            }),
        }
    }

    // The guest asks for an item: it comes, and is taken.
    fn ask<K: Link, L: Ledger>(
        &mut self,
        recorded: &Recorded,
        link: &mut K,
        steps: &mut Steps<L>,
    ) -> Result<(), Answer>
        requires stands { StandsAsking recorded.now (K.seen link.old) self.old }
        requires short { recorded.now.steps < 2 ^ 62 }
        ensures turns { (image : Image) (began : Told) → IsAsking image recorded.now began (K.seen link.old) self.old → FollowsBy image recorded.now began (K.seen link.new) self.new result }
        ensures differs { DiffersBy (HasFound recorded.now self.new.player.cpu.slots.live) self.old.player.difference self.new.player.difference result }
        ensures steps { CountsSteps steps.old steps.new self.old.player.cpu.slots.live.steps self.new.player.cpu.slots.live.steps result }
        ensures link { LinkHears (K.seen link.old) (K.seen link.new) result }
        ensures went { K.Went link.old link.new }
    {
        if let Err(answer) = self.await_item(link) {
            return Err(self.starved(answer));
        }
        let taken = self.player.cpu.marks().taken;
        self.player
            .cpu
            .take_item(self.player.log.item(taken), steps);
        Ok(())
    }

    // The answer where no item came: at the end of the link the guest doesn't go on as recorded.
    fn starved(&mut self, answer: Answer) -> Answer
        ensures { IsStarvedBy answer self.old self.new result }
    {
        match answer {
            Answer::Finished => {
                self.player.difference = Some(Difference::InputEnded);
                self.player.mismatch()
            }
            other => other,
        }
    }

    // Keeps what the guest has just sent.
    fn keep(&mut self, conn: Conn, bytes: Bytes) -> Result<(), Answer>
        ensures { KeepsBy conn bytes self.old self.new result }
    {
        match self.kept.push(Kept { conn, bytes }) {
            Ok(()) => Ok(()),
            Err(_) => Err(Answer::Memory),
        }
    }
}
