// Who follows a record and serves on.
ghost use Rattle.std.specs.Prelude.{◌≡◌};
ghost use Rattle.counts_file.specs.Counts.{AreCounts};
ghost use Rattle.standby.specs.Missing.{IsShort};

use crate::kept::{Kept, passes};
use block_book::Choices;
use counts_file::Counts;
use replay::Player;
use rx_base::{CONNECTIONS, Conn};

/// Who follows a record and serves on: its player, what the run sent while it was followed, and the code with which it ended itself by then, if
/// it did.
#[derive(Drop)]
pub struct Follower {
    pub player: Player,
    pub kept: Vec<Kept>,
    pub exited: Option<u32>,
}

/// What is left of a follower: the answers of the allocator that its whole run used, how many instructions that has, and how many items it took.
#[derive(Debug, Drop)]
pub struct Followed {
    pub tail: Choices,
    pub steps: u64,
    pub taken: u64,
}

impl Follower {
    /// The least connection whose count passes the bytes that the recorded run sent to it, if there is one. It takes no memory.
    pub fn short(&self, counts: &Counts) -> Option<Conn>
        requires counts { AreCounts counts.now }
        ensures { IsShort counts.now self.now.kept.items result }
    {
        'connections: for conn in 0..CONNECTIONS {
            if passes(self.kept.as_slice(), conn, counts.of(conn)) {
                return Some(conn);
            }
        }
        None
    }

    /// The answers of the allocator that the whole run used, and its counts.
    pub fn into_end(self) -> Followed
        ensures tail { result.tail ≡ self.player.choices.items }
        ensures steps { result.steps ≡ self.player.cpu.slots.live.steps }
        ensures taken { result.taken ≡ self.player.cpu.slots.live.guest.machine.taken }
    {
        let Follower {
            player,
            kept: _,
            exited: _,
        } = self;
        let marks = player.cpu.marks();
        Followed {
            tail: player.into_choices(),
            steps: marks.steps,
            taken: marks.taken,
        }
    }
}
