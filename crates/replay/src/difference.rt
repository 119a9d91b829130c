// What differs where a run isn't the recorded one.

use block_book::Ask;
use run_history::Cause;

/// Why a run isn't the recorded one: what the record has, and what the run does in its place. `number` is how many of the record's
/// lines were used before.
#[derive(Clone, Copy, Debug, PartialEq, Eq)]
pub enum Difference {
    /// The program ended itself with this code before the record's end.
    Ended {
        code: u32,
    },
    /// The program failed before the record's end.
    Failed {
        cause: Cause,
    },
    /// The program asks for an item before the record's end, and the input has ended.
    InputEnded,
    /// The program asks the allocator, and the record has no line left.
    NoLine {
        number: u64,
        asked: Ask,
    },
    /// The program asks the allocator, and the record's next line tells of another ask.
    OtherAsk {
        number: u64,
        asked: Ask,
        told: Ask,
    },
    /// The record's next line is of that ask, or doesn't say of which, and its answer can't be used: C doesn't allow it, or as many
    /// blocks stand as may.
    Unusable {
        number: u64,
        asked: Ask,
        at: u32,
        zeroed: bool,
        carried: u32,
    },
    /// At the record's end so many of its lines were used, of more.
    LinesLeft {
        used: u64,
        lines: u64,
    },
    /// There all were used, and so many items were taken in place of those that the record tells of.
    ItemsApart {
        taken: u64,
        told: u64,
    },
}
