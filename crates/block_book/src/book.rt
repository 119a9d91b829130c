// The blocks that stand in one heap.
ghost use Rattle.std.specs.Prelude.{◌≡◌, ◌+◌, ◌*◌, ◌%◌, ◌<◌, ◌≤◌, ◌^◌, ◌&&◌, ◌||◌, true, false, ◌==◌, nat_lt, length, slice_get, Some, IfOk, IfSome, MatchBool, MatchOption};
ghost use Rattle.std.specs.List.{list_all};
ghost use Rattle.block_book.specs.Block.{reserved_size, touched, is_apart, lies_in, live_block};
ghost use Rattle.block_book.specs.Heap.{IsHeap, empty_heap, most_blocks, with_block, without_block, with_delayed, recycled, standing_at, starting_at, is_live_at, reach_at, freed_at, remembering, is_held, is_reserved, is_bare, SameEnds};
ghost use Rattle.block_book.specs.Placement.{fit, placement};
ghost use Rattle.block_book.specs.Answer.{live_blocks, is_clear, kept_count, size_at};
ghost use Rattle.block_book.specs.Search.{passed, FindsLive, HasRoom};

use crate::block::{Block, reserved_size};
use crate::site::{Freed, Site};
use crate::standing::Standing;
use circular_buffer::HeapCircularBuffer;
use std::alloc::{AllocError, Global};
use std::cell::Cell;
use std::marker::Model;

// At most so many blocks stand.
const MOST_BLOCKS: usize = 4096;

// So many of the blocks that were freed are remembered.
const MOST_FREED: usize = 256;

/// The blocks that stand in one heap, live and delayed ones, in order of address.
#[derive(Debug, Drop)]
pub struct Book {
    start: u32,
    end: u32,
    blocks: Vec<Block>,
    // The blocks that were freed last, the latest at the front.
    freed: HeapCircularBuffer<Freed>,
    // The place of the block that was searched for last. It may be that of another block now, or of none.
    last: Cell<usize>,
}

impl Model for Book {
    ghost use Rattle.std.specs.Prelude.{◌≡◌, ◌<◌, ◌≤◌, ◌^◌};
    ghost use Rattle.std.specs.Vec.{vec_capacity};
    ghost use Rattle.block_book.specs.Heap.{Heap, IsHeap, most_blocks, most_freed, heap_of};

    ghost Value = { Heap };

    ghost view = { λ b. heap_of b.start b.end b.blocks.items b.freed.items };

    ghost invariant = { λ b. IsHeap (heap_of b.start b.end b.blocks.items b.freed.items) × (most_blocks ≤ vec_capacity b.blocks) × (b.end < 2 ^ 32) × (b.freed.capacity ≡ most_freed) };
}

impl Book {
    /// The book of a heap in which no block stands, from an address up to another, which isn't part of it. It takes room for all
    /// blocks that may ever stand, and no other call takes memory.
    pub fn make(alloc: Global, start: u32, end: u32) -> Result<Book, AllocError>
        requires start_multiple { start % 16 ≡ 0 }
        requires end_multiple { end % 16 ≡ 0 }
        requires above_null { 0 < start }
        requires ordered { start ≤ end }
        ensures { IfOk result (λ book. book ≡ empty_heap start end) }
    {
        let blocks = Vec::with_capacity(alloc, MOST_BLOCKS)?;
        let freed = HeapCircularBuffer::with_capacity(alloc, MOST_FREED)?;
        Ok(Book {
            start,
            end,
            blocks,
            freed,
            last: Cell::new(0),
        })
    }

    /// What is so of every book, for whoever proves something of one. It does nothing.
    #[inline]
    pub fn sound(&self)
        ensures heap { IsHeap self.now }
        ensures within { self.now.end < 2 ^ 32 }
    {
        let _end = self.end;
    }

    /// The first address of the heap.
    #[inline]
    pub fn start(&self) -> u32
        ensures { result ≡ self.now.start }
    {
        self.start
    }

    /// The address behind the heap.
    #[inline]
    pub fn end(&self) -> u32
        ensures { result ≡ self.now.end }
    {
        self.end
    }

    /// Adds a live block of a size at the lowest address of all at which it fits, with so many bytes of padding on each side and an
    /// extent that begins at `from` or above, which was asked for at a site. Answers its address, or None, and nothing changed, where
    /// it fits nowhere or 4096 blocks stand.
    pub fn place(&mut self, size: u32, side: u32, from: u32, made: Site) -> Option<u32>
        requires multiple { side % 16 ≡ 0 }
        requires small { side ≤ 256 }
        ensures answer { result ≡ placement self.old size side from }
        ensures placed { MatchOption result (self.new ≡ self.old) (λ at. self.new ≡ with_block self.old (live_block at size side made)) }
        ensures ends { SameEnds self.old self.new }
    {
        if self.blocks.len() >= MOST_BLOCKS {
            return None;
        }
        let count = reserved_size(size) + 2 * u64::from(side);
        let at = self.lowest_fit(count, from)? + side;
        self.add(Block {
            at,
            size,
            side,
            delayed: false,
            made,
        });
        Some(at)
    }

    /// Adds a live block of a size at an address, without padding, which was asked for at a site. false, and nothing changed, where
    /// 4096 blocks stand or its bytes aren't clear of the live blocks.
    pub fn put(&mut self, at: u32, size: u32, made: Site) -> bool
        requires { is_bare self.old ≡ true }
        ensures answer { result ≡ (nat_lt (length self.old.blocks) most_blocks && is_clear self.old.start self.old.end (live_blocks self.old.blocks) at size) }
        ensures added { MatchBool result (self.new ≡ with_block self.old (live_block at size 0 made)) (self.new ≡ self.old) }
        ensures bare { is_bare self.new ≡ true }
        ensures ends { SameEnds self.old self.new }
    {
        if self.blocks.len() >= MOST_BLOCKS {
            return false;
        }
        if !self.clear_of_live(at, size) {
            return false;
        }
        self.add(Block {
            at,
            size,
            side: 0,
            delayed: false,
            made,
        });
        true
    }

    /// Takes the live block at an address away, and remembers that it was freed at a site. false, and nothing changed, where none
    /// stands there.
    pub fn release(&mut self, at: u32, by: Site) -> bool
        ensures found { result ≡ is_live_at self.old at }
        ensures gone { MatchBool result (self.new ≡ without_block self.old at by) (self.new ≡ self.old) }
        ensures bare { is_bare self.old ≡ true → is_bare self.new ≡ true }
        ensures ends { SameEnds self.old self.new }
    {
        let Some(place) = self.live_place(at) else {
            return false;
        };
        let block = self.blocks.remove(place);
        self.remember(block, by);
        true
    }

    /// Delays the live block at an address: it is freed, keeps its place and its extent, and is remembered as freed at a site. false, and
    /// nothing changed, where none stands there.
    pub fn delay(&mut self, at: u32, by: Site) -> bool
        ensures found { result ≡ is_live_at self.old at }
        ensures delayed { MatchBool result (self.new ≡ with_delayed self.old at by) (self.new ≡ self.old) }
        ensures ends { SameEnds self.old self.new }
    {
        let Some(place) = self.live_place(at) else {
            return false;
        };
        let block = self.blocks[place];
        self.blocks[place].delayed = true;
        self.remember(block, by);
        true
    }

    /// Takes all delayed blocks away.
    pub fn recycle(&mut self)
        ensures recycled { self.new ≡ recycled self.old }
        ensures ends { SameEnds self.old self.new }
    {
        self.blocks.retain(|block| !block.delayed);
    }

    /// What stands at an address.
    pub fn find(&self, at: u32) -> Standing
        ensures { result ≡ standing_at self.now at }
    {
        match self.starting_at(at) {
            Some(block) => block.standing(),
            None => Standing::Nothing,
        }
    }

    /// The block that begins at an address, live or delayed, if one does.
    pub fn starting_at(&self, at: u32) -> Option<Block>
        ensures { result ≡ starting_at self.now at }
    {
        match self.reached(at) {
            Some(block) if block.at == at => Some(block),
            _ => None,
        }
    }

    /// Of the blocks that are remembered as freed and had an address in their extent, the one that was freed last.
    pub fn freed_at(&self, at: u32) -> Option<Freed>
        ensures { result ≡ freed_at self.now at }
    {
        self.freed
            .iter()
            .find(|freed| freed.block.holds(at, 1))
            .copied()
    }

    /// The size of the live block at an address, if one stands there.
    pub fn live_size(&self, at: u32) -> Option<u32>
        ensures { result ≡ size_at at (live_blocks self.now.blocks) }
    {
        let Some(block) = self.reached(at) else {
            return None;
        };
        if !block.is_live_at(at) {
            return None;
        }
        Some(block.size)
    }

    /// How many bytes the extent of the live block at an address has from there on, if one stands there.
    pub fn live_reach(&self, at: u32) -> Option<u64>
        ensures { result ≡ reach_at self.now at }
    {
        let Some(block) = self.reached(at) else {
            return None;
        };
        if !block.is_live_at(at) {
            return None;
        }
        Some(block.reach())
    }

    /// How many bytes a new block of a size gets from the live one at an address that it replaces: as many as both have.
    pub fn kept(&self, old: u32, size: u32) -> u32
        ensures { result ≡ kept_count (live_blocks self.now.blocks) size (Some old) }
    {
        self.live_size(old).unwrap_or(0).min(size)
    }

    /// Whether the block that was searched for last is live, and so many bytes from an address on are among those that were asked for
    /// with it. It is a quick way to an answer of `holds` or `reserves`. `false` says nothing, since no clause tells which block that is.
    #[inline(always)]
    pub fn last_has(&self, at: u32, len: u32) -> bool
        requires { 1 ≤ len }
        ensures held { result ≡ true → is_held self.now at len ≡ true }
        ensures reserved { result ≡ true → is_reserved self.now at len ≡ true }
    {
        match self.block_at(self.last.get()) {
            Some(block) => block.owns(at, len),
            None => false,
        }
    }

    /// Whether so many bytes from an address on lie in the extent of one block, live or delayed.
    pub fn holds(&self, at: u32, len: u32) -> bool
        requires { 1 ≤ len }
        ensures value { result ≡ is_held self.now at len }
        ensures past { 2 ^ 32 < at + len → result ≡ false }
    {
        match self.reached(at) {
            Some(block) => block.holds(at, len),
            None => false,
        }
    }

    /// Whether so many bytes from an address on are among those that one live block reserves, its padding not included.
    pub fn reserves(&self, at: u32, len: u32) -> bool
        requires { 1 ≤ len }
        ensures value { result ≡ is_reserved self.now at len }
        ensures past { 2 ^ 32 < at + len → result ≡ false }
    {
        match self.reached(at) {
            Some(block) => block.reserves(at, len),
            None => false,
        }
    }

    /// Whether an address is a multiple of 16, and the bytes of a block of a size there lie in the heap and meet those of no live
    /// block. A block of size 0 has one byte here.
    pub fn clear_of_live(&self, at: u32, size: u32) -> bool
        ensures { result ≡ is_clear self.now.start self.now.end (live_blocks self.now.blocks) at size }
    {
        self.spans(at, size) && all_clear_of(&self.blocks, at, size)
    }

    /// Makes this book what another one of the same heap is.
    pub fn copy_from(&mut self, other: &Book)
        requires { SameEnds self.old other.now }
        ensures { self.new ≡ other.now }
    {
        self.blocks.clear();
        // There is room for all blocks, so this takes no memory.
        let _ = self.blocks.extend_from_slice(&other.blocks);
        copy_freed(&mut self.freed, &other.freed);
    }

    // The lowest address at which so many bytes fit.
    fn lowest_fit(&self, count: u64, from: u32) -> Option<u32>
        requires some { 0 < count }
        requires small { count ≤ 2 ^ 33 }
        ensures answer { result ≡ fit self.now count from }
        ensures within { IfSome result (λ at. at + count ≤ self.now.end) }
    {
        let mut low = (u64::from(self.start.max(from)) + 15) / 16 * 16;
        for block in &self.blocks {
            if low + count <= u64::from(block.extent_start()) {
                return Some(low as u32);
            }
            low = low.max(block.extent_end());
        }
        if low + count <= u64::from(self.end) {
            Some(low as u32)
        } else {
            None
        }
    }

    // Whether an address is a multiple of 16, and the bytes of a block of a size there lie in the heap.
    #[inline]
    fn spans(&self, at: u32, size: u32) -> bool
        ensures { result ≡ ((at % 16 == 0) && lies_in at (touched size) self.now.start self.now.end) }
    {
        at % 16 == 0
            && self.start <= at
            && u64::from(at) + u64::from(size.max(1)) <= u64::from(self.end)
    }

    // How many blocks, from the first on, have extents that end at an address or below.
    #[inline]
    fn passed(&self, at: u32) -> usize
        ensures bound { result ≤ length self.now.blocks }
        ensures value { result ≡ passed self.now.blocks at }
        ensures heap { IsHeap self.now }
        ensures within { self.now.end < 2 ^ 32 }
    {
        self.blocks
            .partition_point(|block| block.extent_end() <= u64::from(at))
    }

    // The block at a place among the blocks.
    #[inline]
    fn block_at(&self, place: usize) -> Option<Block>
        ensures { result ≡ slice_get self.now.blocks place }
    {
        self.blocks.get(place).copied()
    }

    // The first block whose extent ends above an address: the only one that can have it in its extent. The one that was searched
    // for last is looked at first.
    #[inline]
    fn reached(&self, at: u32) -> Option<Block>
        ensures value { result ≡ slice_get self.now.blocks (passed self.now.blocks at) }
        ensures heap { IsHeap self.now }
        ensures within { self.now.end < 2 ^ 32 }
    {
        match self.block_at(self.last.get()) {
            Some(block) if block.holds(at, 1) => Some(block),
            _ => self.searched(at),
        }
    }

    // The same by a search. Its place is remembered.
    #[cold]
    #[inline(never)]
    fn searched(&self, at: u32) -> Option<Block>
        ensures value { result ≡ slice_get self.now.blocks (passed self.now.blocks at) }
        ensures heap { IsHeap self.now }
        ensures within { self.now.end < 2 ^ 32 }
    {
        let place = self.passed(at);
        self.last.set(place);
        self.block_at(place)
    }

    // The place of the live block at an address.
    fn live_place(&self, at: u32) -> Option<usize>
        ensures { FindsLive self.now at result }
    {
        let place = self.passed(at);
        match self.block_at(place) {
            Some(block) if block.is_live_at(at) => Some(place),
            _ => None,
        }
    }

    // Remembers that a block was freed at a site.
    fn remember(&mut self, block: Block, by: Site)
        ensures { self.new ≡ record self.old { freed = remembering (Some block) by self.old.freed } }
    {
        self.freed.push_front(Freed { block, by });
    }

    // Adds a block in its place by address.
    fn add(&mut self, block: Block)
        requires { HasRoom self.old block }
        ensures { self.new ≡ with_block self.old block }
    {
        let place = self.passed(block.at);
        // There is room for all blocks, so this takes no memory.
        let _ = self.blocks.insert(place, block);
    }
}

// Whether each block is delayed, or shares no byte with a block of a size at an address.
fn all_clear_of(blocks: &[Block], at: u32, size: u32) -> bool
    ensures { result ≡ list_all (λ block. block.delayed || is_apart at (touched size) block.at (block.at + touched block.size)) blocks.now }
{
    blocks.iter().all(|block| block.is_clear_of(at, size))
}

// Makes of one queue what another one of the same capacity has.
fn copy_freed(freed: &mut HeapCircularBuffer<Freed>, other: &HeapCircularBuffer<Freed>)
    requires { freed.old.capacity ≡ other.now.capacity }
    ensures { freed.new ≡ other.now }
{
    let _held = other.len();
    freed.clear();
    let (front, back) = other.as_slices();
    freed.extend_from_slice(front);
    freed.extend_from_slice(back);
}
