// Who replays a record.
ghost use Rattle.std.specs.Prelude.{◌≡◌, IfOk};
ghost use Rattle.run_history.specs.declared.answer.Answer.TheVariants as answer;
ghost use Rattle.replay.specs.Making.{IsMade};

use crate::difference::Difference;
use block_book::{Choice, Choices};
use call_gate::ConnSet;
use guest_cpu::Cpu;
use guest_image::Image;
use guest_space::AllMapped;
use item_log::ItemLog;
use msg_frame::Framing;
use run_history::Answer;
use rx_base::MAX_ITEMS;
use std::alloc::{AllocError, Global};

const PAGE: u32 = 4096;

// The most items that a session may receive.

/// Who replays a record: the guest, the items received, how many events came, the connections that were found gone, the answers of
/// the allocator that were used, and what differs from the record.
#[derive(Drop)]
pub struct Player {
    pub alloc: Global,
    pub cpu: Cpu<AllMapped>,
    pub log: ItemLog,
    pub events: u64,
    pub gone: ConnSet,
    pub choices: Vec<Choice>,
    pub difference: Option<Difference>,
}

impl Player {
    /// A player at the start of a program. Its guest has one slot for checkpoints, which stays empty.
    pub fn make(alloc: Global, image: &Image, framing: Framing) -> Result<Player, AllocError>
        ensures { IfOk result (IsMade image.now framing) }
    {
        let frames = 2 * (image.window / PAGE);
        Ok(Player {
            alloc,
            cpu: Cpu::make(alloc, image, 1, frames, AllMapped)?,
            log: ItemLog::make(alloc, framing, MAX_ITEMS)?,
            events: 0,
            gone: ConnSet::make(alloc)?,
            choices: Vec::new(alloc),
            difference: None,
        })
    }

    /// The guest doesn't go on as recorded.
    pub fn mismatch(&self) -> Answer
        ensures { result ≡ answer.Mismatch self.now.cpu.slots.live.steps }
    {
        Answer::Mismatch {
            step: self.cpu.marks().steps,
        }
    }

    /// The answers of the allocator that were used.
    pub fn into_choices(self) -> Choices
        ensures { result ≡ self.choices.items }
    {
        let Player {
            alloc: _,
            cpu: _,
            log: _,
            events: _,
            gone: _,
            choices,
            difference: _,
        } = self;
        Choices::from_vec(choices)
    }
}
