// Laws of heaps, each the contract of a function that does nothing.
ghost use Rattle.block_book.specs.Laws.{FitIsLeast, PlacementIsClear, FreeLeavesHeap, PutLeavesHeap, LiveBlocksFollow};

/// A fit is the least of all addresses that fit, and where there is none no address fits.
pub fn fit_is_least()
    ensures { FitIsLeast }
{}

/// Where a block is placed, its bytes meet those of no live block, and with it the heap is a heap.
pub fn placement_is_clear()
    ensures { PlacementIsClear }
{}

/// A block that is taken away, delayed or recycled leaves a heap.
pub fn free_leaves_heap()
    ensures { FreeLeavesHeap }
{}

/// A block that is put leaves a heap without padded or delayed blocks, and so does one that is taken away.
pub fn put_leaves_heap()
    ensures { PutLeavesHeap }
{}

/// What a change of the heap makes of the live blocks.
pub fn live_blocks_follow()
    ensures { LiveBlocksFollow }
{}
