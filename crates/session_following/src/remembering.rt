// What came before a session that follows, behind each of its steps, for proofs alone.
ghost use Rattle.std.specs.Prelude.{◌≡◌, [], ◌∷◌};
ghost use Rattle.follow.specs.Plans.{plan_of};
ghost use Rattle.session_following.specs.Moving.{before_begun, before_heard, before_moved, before_released, before_sent, before_took};

use alloc_env::Env;
use block_book::Choice;
use guest_cpu::Cpu;
use guest_space::AccessRule;
use links::LinkEvent;
use rx_base::{Bytes, Conn};
use session_notes::Episode;
use session_state::{Past, Remembers};

/// A guest at the start of its program, and its environment up to the first item.
#[derive(Drop)]
pub struct Began<'a, R: AccessRule> {
    pub cpu: &'a Cpu<R>,
    pub env: Env,
}

impl<'a, R: AccessRule> Remembers for Began<'a, R> {
    ghost before = { λ began. before_begun began.cpu.now.slots.live began.env };
}

/// A guest that went on, and sent nothing; these answers of the allocator were used.
#[derive(Drop)]
pub struct Moved<'a, R: AccessRule> {
    pub past: &'a Past,
    pub cpu: &'a Cpu<R>,
}

impl<'a, R: AccessRule> Remembers for Moved<'a, R> {
    ghost before = { λ moved. before_moved moved.past.now.before moved.cpu.now.slots.live [] };
}

/// A guest that used an answer of the allocator.
#[derive(Drop)]
pub struct Chose<'a, R: AccessRule> {
    pub past: &'a Past,
    pub cpu: &'a Cpu<R>,
    pub choice: Choice,
}

impl<'a, R: AccessRule> Remembers for Chose<'a, R> {
    ghost before = { λ chose. before_moved chose.past.now.before chose.cpu.now.slots.live (chose.choice ∷ []) };
}

/// A guest that sent bytes to a connection, with so many items taken, of which clients have the first ones.
#[derive(Drop)]
pub struct Sent<'a, R: AccessRule> {
    pub past: &'a Past,
    pub cpu: &'a Cpu<R>,
    pub conn: Conn,
    pub bytes: &'a Bytes,
    pub taken: u64,
    pub count: u64,
}

impl<'a, R: AccessRule> Remembers for Sent<'a, R> {
    ghost before = { λ sent. before_sent sent.past.now.before sent.cpu.now.slots.live (record { conn = sent.conn; bytes = sent.bytes.now; taken = sent.taken }) sent.count };
}

/// A guest that took an item, behind which it is in this environment up to the next one.
#[derive(Drop)]
pub struct Took<'a, R: AccessRule> {
    pub past: &'a Past,
    pub cpu: &'a Cpu<R>,
    pub env: Env,
}

impl<'a, R: AccessRule> Remembers for Took<'a, R> {
    ghost before = { λ took. before_took took.past.now.before took.cpu.now.slots.live took.env };
}

/// An event that was heard.
#[derive(Drop)]
pub struct HeardOf<'a> {
    pub past: &'a Past,
    pub event: &'a LinkEvent,
}

impl<'a> Remembers for HeardOf<'a> {
    ghost before = { λ heard. before_heard heard.past.now.before heard.event.now };
}

/// A session that is released, with the report that it followed, by which an environment is kept for so many items.
#[derive(Drop)]
pub struct Released<'a> {
    pub past: &'a Past,
    pub episodes: &'a [Episode],
    pub keep: u32,
}

impl<'a> Remembers for Released<'a> {
    ghost before = { λ released. before_released released.past.now.before (plan_of released.keep released.episodes.now) };
}

/// A session that is released where its guest ended itself, with the report that it followed, by which an environment is kept for so many items.
#[derive(Drop)]
pub struct Left<'a, R: AccessRule> {
    pub past: &'a Past,
    pub cpu: &'a Cpu<R>,
    pub episodes: &'a [Episode],
    pub keep: u32,
}

impl<'a, R: AccessRule> Remembers for Left<'a, R> {
    ghost before = { λ left. before_released (before_moved left.past.now.before left.cpu.now.slots.live []) (plan_of left.keep left.episodes.now) };
}
