// A trial on its way, from one event of its guest to the next.
ghost use Rattle.std.specs.Prelude.{◌≡◌, ◌+◌, ◌<◌, ◌≤◌, true, Option, List, length, IsSome};
ghost use Rattle.alloc_env.specs.declared.env.Env.{Env};
ghost use Rattle.block_book.specs.declared.choice.Choice.{Choice};
ghost use Rattle.reply_ledger.specs.Ledger.{IsOpened, NotBefore, times_of};
ghost use Rattle.reply_ledger.specs.Trials.{trial_sends, Agrees, Covers};
ghost use Rattle.run_history.specs.Served.{Path};
ghost use Rattle.recovery.specs.Sessions.{Failure, IsUnder};
ghost use Rattle.recovery.specs.Trying.{KeepsLedger, KeepsBase};
ghost use Rattle.recovery.specs.Going.{IsJudged, SendsBy, IsLater, IsLaterIf, IsTrying, TriesSomewhere, IsAsking, AsksSomewhere, ComesIf, TurnsBy, ComesBy};
ghost use Rattle.recovery.specs.Recoverables.{KeepsRest};

use crate::{Recoverable, TrialLimits};
use alloc_env::Env;
use block_book::Choice;
use guest_cpu::{Cpu, Event};
use guest_space::AccessRule;
use item_log::ItemLog;
use reply_ledger::Replies;
use rx_base::{Bytes, Conn, Steps};
use session_notes::Tried;
use std::alloc::AllocError;
use std::sync::ledger::Ledger;

// A trial that has come past the failure survived, if it sent all that was passed.
fn judge(survived: Tried, replies: &Replies) -> Tried
    requires trial { IsSome replies.now.trial }
    requires agrees { Agrees replies.now }
    ensures { IsJudged (Covers replies.now) survived result }
{
    if replies.covers() {
        return survived;
    }
    Tried::Behind
}

// The trial sent bytes: they are noted, and compared with what was passed.
fn emit(
    replies: &mut Replies,
    conn: Conn,
    bytes: Bytes,
    taken: u64,
) -> Result<Option<Tried>, AllocError>
    requires opened { IsOpened replies.old conn }
    requires nonempty { 0 < length bytes }
    requires trial { IsSome replies.old.trial }
    requires later { NotBefore taken (times_of (trial_sends replies.old)) }
    ensures { SendsBy replies.old (record { conn = conn; bytes = bytes; taken = taken }) replies.new result }
{
    match replies.trial_sent(conn, bytes, taken) {
        Ok(true) => Ok(None),
        Ok(false) => Ok(Some(Tried::Contradicts)),
        Err(e) => Err(e),
    }
}

// The trial asks for an item: it has come past the failure, or takes the item, if it sent all that was passed before the item came.
fn ask<R: AccessRule, L: Ledger>(
    cpu: &mut Cpu<R>,
    point: u64,
    items: &ItemLog,
    replies: &Replies,
    steps: &mut Steps<L>,
) -> Option<Tried>
    requires asks { AsksSomewhere point cpu.old items.now replies.now }
    ensures comes { (failure : Failure) (checkpoint : Path) (env : Env) (choices : List Choice) → IsAsking failure point checkpoint env cpu.old choices items.now replies.now
        → ComesIf failure point checkpoint env cpu.new choices items.now replies.now result }
    ensures kept { KeepsBase cpu.old cpu.new }
    ensures counted { steps.new + cpu.old.slots.live.steps ≡ steps.old + cpu.new.slots.live.steps }
    ensures least { steps.old ≤ steps.new }
    ensures later { IsLaterIf result cpu.old.slots.live.steps cpu.new.slots.live.steps }
{
    let taken = cpu.marks().taken;
    if taken == point {
        return Some(judge(Tried::Asks, replies));
    }
    if !replies.covers_before(taken) {
        return Some(Tried::Behind);
    }
    cpu.take_item(items.item(taken), steps);
    None
}

impl<R: AccessRule> Recoverable<R> {
    // The trial goes on to its next event.
    fn turn<L: Ledger>(
        &mut self,
        env: Env,
        limits: TrialLimits,
        own: &mut Vec<Choice>,
        steps: &mut Steps<L>,
    ) -> Result<Option<Tried>, AllocError>
        requires tries { TriesSomewhere limits.budget (R.rule self.old.cpu.rule) limits.point env self.old.cpu own.old.items self.old.log self.old.replies }
        ensures comes { (failure : Failure) (checkpoint : Path) → IsUnder failure limits.budget (R.rule self.old.cpu.rule) → IsTrying failure limits.point checkpoint env self.old.cpu own.old.items self.old.log self.old.replies
            → TurnsBy failure limits.point checkpoint env self.new.cpu own.new.items self.new.log self.new.replies result }
        ensures kept { KeepsBase self.old.cpu self.new.cpu }
        ensures rest { KeepsRest self.old self.new }
        ensures ledger { KeepsLedger self.old.replies self.new.replies }
        ensures counted { steps.new + self.old.cpu.slots.live.steps ≡ steps.old + self.new.cpu.slots.live.steps }
        ensures least { steps.old ≤ steps.new }
        ensures later { IsLater result self.old.cpu.slots.live.steps self.new.cpu.slots.live.steps }
    {
        match self.cpu.run_to_event(self.alloc, env, limits.budget, steps) {
            Ok(Event::Asks) => Ok(ask(
                &mut self.cpu,
                limits.point,
                &self.log,
                &self.replies,
                steps,
            )),
            Ok(Event::Emits(conn, bytes)) => {
                let taken = self.cpu.marks().taken;
                emit(&mut self.replies, conn, bytes, taken)
            }
            Ok(Event::Chooses(choice)) => match own.push(choice) {
                Ok(()) => Ok(None),
                Err(_) => Err(AllocError),
            },
            Ok(Event::Exits(code)) => Ok(Some(judge(Tried::Exits(code), &self.replies))),
            Ok(Event::Failed(cause)) => Ok(Some(Tried::Failed(cause))),
            Err(e) => Err(e),
        }
    }

    // Lets a trial go on until it comes to its result.
    pub(crate) fn go_on<L: Ledger>(
        &mut self,
        env: Env,
        limits: TrialLimits,
        own: &mut Vec<Choice>,
        steps: &mut Steps<L>,
    ) -> Result<Tried, AllocError>
        requires tries { TriesSomewhere limits.budget (R.rule self.old.cpu.rule) limits.point env self.old.cpu own.old.items self.old.log self.old.replies }
        ensures comes { (failure : Failure) (checkpoint : Path) → IsUnder failure limits.budget (R.rule self.old.cpu.rule) → IsTrying failure limits.point checkpoint env self.old.cpu own.old.items self.old.log self.old.replies
            → ComesBy failure limits.point checkpoint env self.new.cpu own.new.items self.new.replies result }
        ensures kept { KeepsBase self.old.cpu self.new.cpu }
        ensures rest { KeepsRest self.old self.new }
        ensures ledger { KeepsLedger self.old.replies self.new.replies }
        ensures counted { steps.new + self.old.cpu.slots.live.steps ≡ steps.old + self.new.cpu.slots.live.steps }
        ensures least { steps.old ≤ steps.new }
    {
        'turns: loop {
            match self.turn(env, limits, own, steps) {
                Ok(None) => {}
                Ok(Some(tried)) => return Ok(tried),
                Err(e) => return Err(e),
            }
        }
    }
}
