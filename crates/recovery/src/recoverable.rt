// What a recovery takes back.
ghost use Rattle.std.specs.Prelude.{◌≤◌, IfOk};
ghost use Rattle.recovery.specs.Recoverables.{IsFresh};

use block_book::Choice;
use guest_cpu::Cpu;
use guest_image::Image;
use guest_space::AccessRule;
use item_log::ItemLog;
use msg_frame::Framing;
use reply_ledger::Replies;
use std::alloc::{AllocError, Global};

const PAGE: u32 = 4096;

/// What a recovery takes back, and what it needs for that: a guest with its checkpoints, what it received and sent, and what its allocator answered.
/// A session owns one.
#[derive(Drop)]
pub struct Recoverable<R: AccessRule> {
    /// The guest, with its checkpoints.
    pub cpu: Cpu<R>,
    /// The items that were received: those that a trial may need.
    pub log: ItemLog,
    /// What the run sent, what of it was passed, and what a trial sends.
    pub replies: Replies,
    /// How many of the run's answers of the allocator are noted. None of them is behind the oldest checkpoint.
    pub recorded: u64,
    /// The answers behind those, in their order.
    pub choices: Vec<Choice>,
    /// What gives memory.
    pub alloc: Global,
}

/// How much there is room for.
#[derive(Clone, Copy, Debug)]
pub struct Room {
    /// How many checkpoints stand at most: 1 to 16.
    pub ring: u32,
    /// How many frames the pages of the program have, as a multiple of the pages of its window: 2 to 16.
    pub frames: u32,
    /// How a connection's bytes are cut into messages.
    pub framing: Framing,
    /// How many items may be received.
    pub max_items: u64,
}

impl<R: AccessRule + Drop> Recoverable<R> {
    /// A guest at the start of a program without a checkpoint, and nothing received or sent. Memory for the program's pages, its checkpoints and their
    /// blocks is taken here.
    ///
    /// # Errors
    ///
    /// `AllocError` where memory runs out.
    pub fn make(
        alloc: Global,
        image: &Image,
        room: Room,
        rule: R,
    ) -> Result<Recoverable<R>, AllocError>
        requires ring { (1 ≤ room.ring) × (room.ring ≤ 16) }
        requires frames { (2 ≤ room.frames) × (room.frames ≤ 16) }
        ensures { IfOk result (IsFresh image.now room rule) }
    {
        let frames = room.frames * (image.window / PAGE);
        let log = ItemLog::make(alloc, room.framing, room.max_items)?;
        let replies = Replies::make(alloc)?;
        let cpu = Cpu::make(alloc, image, room.ring, frames, rule)?;
        Ok(Recoverable {
            cpu,
            log,
            replies,
            recorded: 0,
            choices: Vec::new(alloc),
            alloc,
        })
    }
}
