// What a program asks of the allocator, and the answers, as a run's record keeps them.
ghost use Rattle.std.specs.Prelude.{◌≡◌, ◌<◌, ◌≤◌, ◌^◌, List, MatchOption};
ghost use Rattle.block_book.specs.declared.choice.Choice.{Choice};
ghost use Rattle.block_book.specs.Answer.{bytes_asked, is_calloc, same_ask};

use rx_base::Listed;

/// What a program asks for: a block of so many bytes, and how it asks.
#[derive(Clone, Copy, Debug, PartialEq, Eq)]
pub enum Ask {
    /// A block of a size.
    Malloc { size: u32 },
    /// A block for so many elements of a size, of zeros.
    Calloc { count: u32, size: u32 },
    /// A block of a size in place of the one at an address, with its bytes; of null it is as malloc.
    Realloc { old: u32, size: u32 },
}

impl Ask {
    /// The bytes that are asked for, or None where they are more than 4,294,967,295.
    pub fn bytes(self) -> Option<u32>
        ensures { MatchOption result (2 ^ 32 ≤ bytes_asked self) (λ size. (size ≡ bytes_asked self) × (size < 2 ^ 32)) }
    {
        match self {
            Ask::Malloc { size } => Some(size),
            Ask::Calloc { count, size } => count.checked_mul(size),
            Ask::Realloc { old: _, size } => Some(size),
        }
    }

    /// Whether it is a calloc, whose block is zeroed in any case.
    pub fn is_calloc(self) -> bool
        ensures { result ≡ is_calloc self }
    {
        match self {
            Ask::Calloc { .. } => true,
            _ => false,
        }
    }

    /// Whether another ask is the same, with the same numbers.
    pub fn is(self, other: Ask) -> bool
        ensures { result ≡ same_ask self other }
    {
        match (self, other) {
            (Ask::Malloc { size }, Ask::Malloc { size: wanted }) => size == wanted,
            (
                Ask::Calloc { count, size },
                Ask::Calloc {
                    count: times,
                    size: wanted,
                },
            ) => count == times && size == wanted,
            (
                Ask::Realloc { old, size },
                Ask::Realloc {
                    old: at,
                    size: wanted,
                },
            ) => old == at && size == wanted,
            _ => false,
        }
    }
}

/// One answer of the allocator: what was asked, the block's address, or 0, whether its bytes were set to 0, and how many bytes are
/// carried: of those behind what realloc keeps, so many come from the old block's place to the new one's.
#[derive(Clone, Copy, Debug, PartialEq, Eq)]
pub struct Choice {
    pub ask: Ask,
    pub at: u32,
    pub zeroed: bool,
    pub carried: u32,
}

/// The answers of the allocator, in the order of the calls.
pub type Choices = Listed<Choice>;
