// A record as a value, and why a text is none.
ghost use Rattle.std.specs.Prelude.{◌≡◌, List};
ghost use Rattle.schedule_file.specs.declared.recorded.Line.{Line};
ghost use Rattle.schedule_file.specs.declared.recorded.RecordRefusal.TheVariants.{Memory};

use block_book::Ask;
use msg_frame::Framing;
use rx_base::Listed;
use std::alloc::AllocError;

/// The version that is written. Version 1, which doesn't say what was asked, is read too.
pub const VERSION: u8 = 2;

/// The largest window, in MiB.
pub const MAX_WINDOW: u32 = 64;

/// What a line says of an answer of the allocator: what was asked, or None in version 1; the block's address, or 0; whether its
/// bytes were set to 0; and how many bytes were carried to it, behind those that realloc keeps.
#[derive(Clone, Copy, Debug, PartialEq, Eq)]
pub struct Line {
    pub ask: Option<Ask>,
    pub at: u32,
    pub zeroed: bool,
    pub carried: u32,
}

/// The lines of the answers, in the order of the calls.
pub type Lines = Listed<Line>;

/// What a record says of a session: its version, its window in MiB, its framing, every answer of the allocator in the order of
/// the calls, how many instructions were executed, and how many items were taken.
#[derive(Debug, Drop)]
pub struct Recorded {
    pub version: u8,
    pub window: u32,
    pub frame: Framing,
    pub lines: Lines,
    pub steps: u64,
    pub taken: u64,
}

/// What the last line of a record says: how many instructions were executed, and how many items were taken.
#[derive(Clone, Copy, Debug, PartialEq, Eq)]
pub struct Finish {
    pub steps: u64,
    pub taken: u64,
}

/// What a record says of a session that may have been killed: its version, its window in MiB, its framing, the answers whose lines
/// are whole, and the last line where that is there.
#[derive(Debug, Drop)]
pub struct Unfinished {
    pub version: u8,
    pub window: u32,
    pub frame: Framing,
    pub lines: Lines,
    pub finish: Option<Finish>,
}

/// Why a text wasn't read: its first line, counted from 1, that isn't of its form; or memory ran out.
#[derive(Clone, Copy, Debug, PartialEq, Eq)]
pub enum RecordRefusal {
    Refused { line: u64 },
    Memory,
}

impl From<AllocError> for RecordRefusal {
    ghost from_gives = { λ _ e. e ≡ Memory };

    fn from(_error: AllocError) -> RecordRefusal {
        RecordRefusal::Memory
    }
}

// What a record's first line says.
#[derive(Clone, Copy)]
pub(crate) struct Head {
    pub version: u8,
    pub window: u32,
    pub frame: Framing,
}
