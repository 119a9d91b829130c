// What lies at an address of a guest.
ghost use Rattle.std.specs.Prelude.{◌≡◌, option_map};
ghost use Rattle.guest_image.specs.Memory.{Area};
ghost use Rattle.guest_space.specs.Space.{flat};
ghost use Rattle.telling.specs.Places.{IsNearest, IsPlace, gone_at, in_heap, near_of};

use crate::Access;
use crate::item::{SeenItem, taken_last};
use block_book::{Block, Book, Freed};
use guest_space::GuestSpace;
use item_log::ItemLog;

// How many steps of 16 bytes are looked down for a block.
const STEPS_DOWN: u32 = 256;

/// A block near an address, and the item that was taken last where it was asked for, if the log has it still.
#[derive(Clone, Copy, Debug, PartialEq, Eq)]
pub struct Near {
    pub block: Block,
    pub made_for: Option<SeenItem>,
}

/// A block that was freed, and the items that were taken last where it was asked for and where it was freed, if the log has them still.
#[derive(Clone, Copy, Debug, PartialEq, Eq)]
pub struct Gone {
    pub freed: Freed,
    pub made_for: Option<SeenItem>,
    pub freed_for: Option<SeenItem>,
}

/// What lies where an access goes: whether the segments allow it, whether it begins in the heap, the block that begins there or next
/// below it, if one does within 4096 bytes, and the block that was freed last of those that had the address, if it is remembered.
#[derive(Clone, Copy, Debug, PartialEq, Eq)]
pub struct Place {
    pub allowed: bool,
    pub in_heap: bool,
    pub below: Option<Near>,
    pub gone: Option<Gone>,
}

// The block that begins at an address or next below it.
fn nearest(book: &Book, at: u32) -> Option<Block>
    ensures { IsNearest book.now at result }
{
    let place = at / 16;
    'down: for back in 0..STEPS_DOWN {
        if back > place {
            return None;
        }
        match book.starting_at(16 * (place - back)) {
            Some(block) => return Some(block),
            None => continue 'down,
        }
    }
    None
}

// A block with what is told of it.
fn near_of(items: &ItemLog, block: Option<Block>) -> Option<Near>
    ensures { result ≡ option_map (near_of items.now) block }
{
    match block {
        Some(block) => Some(Near {
            block,
            made_for: taken_last(items, block.made.taken),
        }),
        None => None,
    }
}

/// The block that was freed last of those that had an address, if it is remembered.
pub(crate) fn gone_at(book: &Book, items: &ItemLog, at: u32) -> Option<Gone>
    ensures { result ≡ gone_at book.now items.now at }
{
    match book.freed_at(at) {
        Some(freed) => Some(Gone {
            freed,
            made_for: taken_last(items, freed.block.made.taken),
            freed_for: taken_last(items, freed.by.taken),
        }),
        None => None,
    }
}

// Whether an address is one of the heap's.
fn is_in_heap(book: &Book, at: u32) -> bool
    ensures { result ≡ in_heap book.now at }
{
    book.start() <= at && at < book.end()
}

/// What lies where an access goes.
pub(crate) fn place_of(book: &Book, items: &ItemLog, space: &GuestSpace, access: &Access) -> Place
    ensures { IsPlace (flat space.now) book.now items.now access.now result }
{
    Place {
        allowed: space.allows(access.at, access.count, access.write),
        in_heap: is_in_heap(book, access.at),
        below: near_of(items, nearest(book, access.at)),
        gone: gone_at(book, items, access.at),
    }
}
