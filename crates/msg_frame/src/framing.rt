// How a stream is cut into messages, and why one isn't taken.
ghost use Rattle.std.specs.Prelude.{◌≡◌};
ghost use Rattle.msg_frame.specs.declared.framing.FrameRefusal.TheVariants.{Memory};
ghost use Rattle.msg_frame.specs.Skipped.{skipped};

use std::alloc::AllocError;

/// The most bytes that a message may have. The line feed of a line counts, the number before a message doesn't.
pub const MAX_MESSAGE: usize = 4096;

/// The byte that ends a line.
pub const LINE_FEED: u8 = 10;

/// How many bytes the number before a message has.
pub const NUMBER_BYTES: usize = 4;

/// What a message of a stream is.
#[derive(Clone, Copy, Debug, PartialEq, Eq)]
pub enum Framing {
    /// The bytes up to and with the next line feed.
    Line,
    /// The bytes behind a number of four bytes, the lowest first, that says how many they are. There may be none.
    Length,
    /// Each piece that isn't empty.
    Whole,
}

impl Framing {
    // How many bytes stand before a message and are no part of it.
    pub(crate) fn skipped(self) -> usize
        ensures { result ≡ skipped self }
    {
        match self {
            Framing::Length => NUMBER_BYTES,
            Framing::Line | Framing::Whole => 0,
        }
    }
}

/// Why a piece wasn't taken: a message of it is too long, or memory ran out.
#[derive(Clone, Copy, Debug, PartialEq, Eq)]
pub enum FrameRefusal {
    TooLong,
    Memory,
}

impl From<AllocError> for FrameRefusal {
    ghost from_gives = { λ _ e. e ≡ Memory };

    fn from(_error: AllocError) -> FrameRefusal {
        FrameRefusal::Memory
    }
}
