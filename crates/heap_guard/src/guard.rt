// A rule that looks at the blocks of the heap.
ghost use Rattle.std.specs.Prelude.{◌≡◌, ◌+◌, ◌≤◌, ◌||◌, nat_le};
ghost use Rattle.heap_guard.specs.Guard.{has_byte_of, is_in_block, permits};

use block_book::Book;
use guest_space::AccessRule;

/// In which bytes of a block an access to the heap has to lie.
#[derive(Clone, Copy, Debug, PartialEq, Eq)]
pub enum GuardMode {
    /// In the extent of one block that stands, live or delayed. An extent has the block's padding.
    Extent,
    /// In the bytes that one live block reserves.
    Block,
}

/// The rule that an access with a byte of the heap lies in one block.
#[derive(Clone, Copy, Debug, PartialEq, Eq)]
pub struct HeapGuard {
    /// In which bytes of the block.
    pub mode: GuardMode,
}

impl HeapGuard {
    /// The guard of a mode, over whatever heap it is asked about.
    pub fn over(mode: GuardMode) -> HeapGuard
        ensures { result.mode ≡ mode }
    {
        HeapGuard { mode }
    }
}

impl AccessRule for HeapGuard {
    ghost rule = { λ guard heap at len. permits guard.mode heap at len };

    #[inline(always)]
    #[tactic(auto, unfolding(crate::specs::Guard::permits))]
    fn permits(&self, book: &Book, at: u32, len: u32) -> bool {
        is_beside_heap(book, at, len)
            || book.last_has(at, len)
            || keeps_to_blocks(self.mode, book, at, len)
    }
}

// Whether so many bytes from an address on lie behind the heap, or end below it.
#[inline(always)]
fn is_beside_heap(book: &Book, at: u32, len: u32) -> bool
    ensures { result ≡ (nat_le book.now.end at || nat_le (at + len) book.now.start) }
{
    book.end() <= at || u64::from(at) + u64::from(len) <= u64::from(book.start())
}

// The same as `permits`, by a search among the blocks. It is a call of its own, so that the loop that asks at each load and store
// stays small.
#[cold]
#[inline(never)]
#[tactic(auto, unfolding(crate::specs::Guard::permits))]
fn keeps_to_blocks(mode: GuardMode, book: &Book, at: u32, len: u32) -> bool
    requires { 1 ≤ len }
    ensures { result ≡ permits mode book.now at len }
{
    !has_byte_of_heap(book, at, len) || lies_in_block(mode, book, at, len)
}

// Whether one of so many bytes from an address on is in the heap.
fn has_byte_of_heap(book: &Book, at: u32, len: u32) -> bool
    requires { 1 ≤ len }
    ensures { result ≡ has_byte_of book.now.start book.now.end at len }
{
    let (start, end) = (book.start(), book.end());
    at < end && u64::from(start) < u64::from(at) + u64::from(len) && start < end
}

// Whether so many bytes from an address on lie in one block, as the mode wants it.
fn lies_in_block(mode: GuardMode, book: &Book, at: u32, len: u32) -> bool
    requires { 1 ≤ len }
    ensures { result ≡ is_in_block mode book.now at len }
{
    match mode {
        GuardMode::Extent => book.holds(at, len),
        GuardMode::Block => book.reserves(at, len),
    }
}
