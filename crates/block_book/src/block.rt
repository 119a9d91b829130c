// One block of a heap.
ghost use Rattle.std.specs.Prelude.{◌≡◌, ◌+◌, ◌-◌, ◌^◌, ◌≤◌, ◌||◌, ◌&&◌, not, Some, ◌==◌};
ghost use Rattle.block_book.specs.Block.{reach, reserved_size, touched, extent_start, extent_end, is_apart, lies_in};
ghost use Rattle.block_book.specs.Heap.{standing_of};

use crate::site::Site;
use crate::standing::Standing;

/// A block that stands in a heap.
#[derive(Clone, Copy, Debug, PartialEq, Eq)]
pub struct Block {
    /// The address that malloc answered.
    pub at: u32,
    /// The bytes that were asked for.
    pub size: u32,
    /// The bytes of padding on each side.
    pub side: u32,
    /// Whether the block was freed and is kept from use.
    pub delayed: bool,
    /// Where it was asked for.
    pub made: Site,
}

/// The bytes that a block of a size reserves: a multiple of 16, and at least 16.
#[inline]
#[tactic(auto, unfolding(crate::specs::Block::reserved_size))]
pub fn reserved_size(size: u32) -> u64
    ensures value { result ≡ reserved_size size }
    ensures small { result ≤ 2 ^ 32 }
{
    ((u64::from(size) + 15) / 16 * 16).max(16)
}

impl Block {
    /// The first address of the block's extent, which has its padding.
    #[inline]
    pub fn extent_start(&self) -> u32
        ensures { result ≡ extent_start self.now }
    {
        self.at.saturating_sub(self.side)
    }

    /// The address behind the block's extent.
    #[inline]
    pub fn extent_end(&self) -> u64
        ensures { result ≡ extent_end self.now }
    {
        u64::from(self.at) + reserved_size(self.size) + u64::from(self.side)
    }

    /// How many bytes the block's extent has from the block's address on.
    #[inline]
    pub fn reach(&self) -> u64
        ensures { result ≡ reach self.now }
    {
        reserved_size(self.size) + u64::from(self.side)
    }

    /// What stands at the block's address.
    #[inline]
    pub fn standing(&self) -> Standing
        ensures { result ≡ standing_of (Some self.now) }
    {
        if self.delayed {
            Standing::Delayed(self.size)
        } else {
            Standing::Live(self.size)
        }
    }

    /// Whether the block is live and begins at an address.
    #[inline]
    pub fn is_live_at(&self, at: u32) -> bool
        ensures { result ≡ ((self.now.at == at) && not self.now.delayed) }
    {
        self.at == at && !self.delayed
    }

    /// Whether so many bytes from an address on lie in the block's extent.
    #[inline]
    pub fn holds(&self, at: u32, len: u32) -> bool
        ensures { result ≡ lies_in at len (extent_start self.now) (extent_end self.now) }
    {
        self.extent_start() <= at && u64::from(at) + u64::from(len) <= self.extent_end()
    }

    /// Whether the block is live, and so many bytes from an address on are among those that it reserves.
    #[inline]
    pub fn reserves(&self, at: u32, len: u32) -> bool
        ensures { result ≡ (not self.now.delayed && lies_in at len self.now.at (self.now.at + reserved_size self.now.size)) }
    {
        !self.delayed
            && self.at <= at
            && u64::from(at) + u64::from(len) <= u64::from(self.at) + reserved_size(self.size)
    }

    /// Whether the block is live, and so many bytes from an address on are among those that were asked for.
    #[inline(always)]
    pub fn owns(&self, at: u32, len: u32) -> bool
        requires some { 1 ≤ len }
        requires within { self.now.at + self.now.size ≤ 2 ^ 32 }
        ensures { result ≡ (not self.now.delayed && lies_in at len self.now.at (self.now.at + self.now.size)) }
    {
        !self.delayed
            && u64::from(at.wrapping_sub(self.at)) + u64::from(len) <= u64::from(self.size)
    }

    /// Whether the block is delayed, or shares no byte with a block of a size at an address. A block of size 0 has one byte
    /// here.
    #[inline]
    pub fn is_clear_of(&self, at: u32, size: u32) -> bool
        ensures { result ≡ (self.now.delayed || is_apart at (touched size) self.now.at (self.now.at + touched self.now.size)) }
    {
        self.delayed
            || u64::from(at) + u64::from(size.max(1)) <= u64::from(self.at)
            || u64::from(self.at) + u64::from(self.size.max(1)) <= u64::from(at)
    }
}
