// What is most likely wrong with a program that failed.
ghost use Rattle.std.specs.Prelude.{◌≡◌};
ghost use Rattle.telling.specs.Faults.{fault_by_access, fault_by_block, fault_by_cause, fault_by_gone, fault_by_trials, fault_of, helps_from, helps_of, is_behind, is_delay, is_next_byte, is_overrun, is_pad, is_zero, oldest_cure, pads_alone, survives_from, survives_in};

use crate::place::{Gone, Near};
use crate::sighting::{Access, Sighting, Touch};
use alloc_env::Env;
use block_book::Block;
use run_history::Cause;
use session_notes::Try;

/// What is most likely wrong with a program that failed.
#[derive(Clone, Copy, Debug, PartialEq, Eq)]
pub enum Fault {
    /// It went past the end of a block.
    PastEnd,
    /// It used a block that it had freed, or freed it twice.
    Freed,
    /// It read what it had never written.
    Unset,
    /// It lives where blocks are placed otherwise, which doesn't say what is wrong.
    Placed,
    /// Nothing says what is wrong.
    Unknown,
}

/// Which environments help from the oldest checkpoint from which any does.
#[derive(Clone, Copy, Debug, PartialEq, Eq)]
pub struct Helps {
    pub pad: bool,
    pub zero: bool,
    pub delay: bool,
}

// Whether an environment is that of padding.
fn is_pad(env: Env) -> bool
    ensures { result ≡ is_pad env }
{
    matches!(env, Env::Pad)
}

// Whether it is that of zeros.
fn is_zero(env: Env) -> bool
    ensures { result ≡ is_zero env }
{
    matches!(env, Env::Zero)
}

// Whether it is that of delayed frees.
fn is_delay(env: Env) -> bool
    ensures { result ≡ is_delay env }
{
    matches!(env, Env::Delay)
}

// How many items were taken at the oldest checkpoint from which a trial survived.
fn oldest_cure(tries: &[Try]) -> Option<u64>
    ensures { result ≡ oldest_cure tries.now }
{
    match tries.iter().rev().find(|t| t.tried.survives()) {
        Some(t) => Some(t.checkpoint),
        None => None,
    }
}

// Whether a trial from a checkpoint survived.
fn survives_from(checkpoint: u64, t: &Try) -> bool
    ensures { result ≡ survives_from checkpoint t.now }
{
    let lives = t.tried.survives();
    lives && t.checkpoint == checkpoint
}

// Whether a trial with padding from a checkpoint survived.
fn pads_from(tries: &[Try], checkpoint: u64) -> bool
    ensures { result ≡ survives_in is_pad tries.now checkpoint }
{
    tries
        .iter()
        .any(|t| survives_from(checkpoint, t) && is_pad(t.env))
}

// Whether one with zeros did.
fn zeros_from(tries: &[Try], checkpoint: u64) -> bool
    ensures { result ≡ survives_in is_zero tries.now checkpoint }
{
    tries
        .iter()
        .any(|t| survives_from(checkpoint, t) && is_zero(t.env))
}

// Whether one with delayed frees did.
fn delays_from(tries: &[Try], checkpoint: u64) -> bool
    ensures { result ≡ survives_in is_delay tries.now checkpoint }
{
    tries
        .iter()
        .any(|t| survives_from(checkpoint, t) && is_delay(t.env))
}

// Which environments helped from a checkpoint.
fn helps_from(tries: &[Try], checkpoint: u64) -> Helps
    ensures { result ≡ helps_from tries.now checkpoint }
{
    Helps {
        pad: pads_from(tries, checkpoint),
        zero: zeros_from(tries, checkpoint),
        delay: delays_from(tries, checkpoint),
    }
}

/// Which environments helped from the oldest checkpoint from which any did, by the trials of a whole table, the newest checkpoint first;
/// None where no trial survived.
pub fn helps_of(tries: &[Try]) -> Option<Helps>
    ensures { result ≡ helps_of tries.now }
{
    match oldest_cure(tries) {
        Some(checkpoint) => Some(helps_from(tries, checkpoint)),
        None => None,
    }
}

/// What is most likely wrong, by what helps alone.
pub fn fault_by_trials(helps: Option<Helps>) -> Fault
    ensures { result ≡ fault_by_trials helps }
{
    match helps {
        None => Fault::Unknown,
        Some(helps) if helps.pad && !helps.delay => Fault::PastEnd,
        Some(helps) if helps.delay && !helps.zero => Fault::Freed,
        Some(helps) if helps.zero => Fault::Unset,
        Some(_) => Fault::Placed,
    }
}

// Whether padding helps, and delay doesn't.
fn pads_alone(helps: Option<Helps>) -> bool
    ensures { result ≡ pads_alone helps }
{
    match helps {
        None => false,
        Some(helps) => helps.pad && !helps.delay,
    }
}

// Whether an address is less than 16 bytes past the extent of a live block.
fn is_behind(block: &Block, at: u32) -> bool
    ensures { result ≡ is_behind block.now at }
{
    !block.delayed
        && u64::from(block.at) + u64::from(block.size) <= u64::from(at)
        && u64::from(at).saturating_sub(block.extent_end()) < 16
}

// Whether an access is of one byte, the first behind a block's extent.
fn is_next_byte(block: &Block, access: &Access) -> bool
    ensures { result ≡ is_next_byte block.now access.now }
{
    access.count == 1 && u64::from(access.at) == block.extent_end()
}

// Whether an access goes on where a live block ends, and padding alone helps; or where nothing does, it is of the very next byte.
fn is_overrun(below: &Option<Near>, access: &Access, helps: Option<Helps>) -> bool
    ensures { result ≡ is_overrun below.now access.now helps }
{
    match below {
        None => false,
        Some(near) => {
            let block = &near.block;
            is_behind(block, access.at)
                && (pads_alone(helps) || helps.is_none() && is_next_byte(block, access))
        }
    }
}

// What is wrong, by the block next below an access.
fn fault_by_block(below: &Option<Near>, at: u32, helps: Option<Helps>) -> Fault
    ensures { result ≡ fault_by_block below.now at helps }
{
    match below {
        None => fault_by_trials(helps),
        Some(near) if near.block.delayed => Fault::Freed,
        Some(near) if is_behind(&near.block, at) => Fault::PastEnd,
        Some(_) => fault_by_trials(helps),
    }
}

// What is wrong, by what lies where an access in the heap goes.
fn fault_by_gone(
    gone: &Option<Gone>,
    below: &Option<Near>,
    access: &Access,
    helps: Option<Helps>,
) -> Fault
    ensures { result ≡ fault_by_gone gone.now below.now access.now helps }
{
    match gone {
        None => fault_by_block(below, access.at, helps),
        Some(_) if is_overrun(below, access, helps) => Fault::PastEnd,
        Some(_) => Fault::Freed,
    }
}

// What is wrong, by an access.
fn fault_by_access(touch: &Option<Touch>, helps: Option<Helps>) -> Fault
    ensures { result ≡ fault_by_access touch.now helps }
{
    match touch {
        Some(touch) if touch.place.in_heap => {
            let place = &touch.place;
            fault_by_gone(&place.gone, &place.below, &touch.access, helps)
        }
        _ => fault_by_trials(helps),
    }
}

// What is wrong, by the cause of the failure.
fn fault_by_cause(cause: Cause, seen: &Sighting, helps: Option<Helps>) -> Fault
    ensures { result ≡ fault_by_cause cause seen.now helps }
{
    match cause {
        Cause::BadAccess => fault_by_access(&seen.touch, helps),
        Cause::BadFree if seen.pointer.is_some() => Fault::Freed,
        _ => fault_by_trials(helps),
    }
}

/// What is most likely wrong with a program that failed by a cause, by what was seen of it and by what helps. Where zeros help, and what helps says no
/// more, it read what was never written. Else an access or a pointer tells, where it goes to a block that was freed, or on where a live one
/// ends; and else what helps.
pub fn fault_of(cause: Cause, seen: &Sighting, helps: Option<Helps>) -> Fault
    ensures { result ≡ fault_of cause seen.now helps }
{
    match fault_by_trials(helps) {
        Fault::Unset => Fault::Unset,
        _ => fault_by_cause(cause, seen, helps),
    }
}
