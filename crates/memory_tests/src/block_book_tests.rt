// Books of small heaps, call by call, with answers worked out by hand from the rules of block_book.
ghost use Rattle.std.specs.Prelude.{◌≡◌, true};
ghost use Rattle.block_book.specs.Heap.{SameEnds, is_bare};

use block_book::{Ask, Block, Book, Choice, Choices, Freed, Site, Standing};
use std::process::Abort;
use std::test::Fail;

// Where each block is asked for.
const MADE: Site = Site {
    pc: 0x10a2c,
    caller: 0x10b00,
    taken: 61,
};

// Where each is freed.
const BY: Site = Site {
    pc: 0x10b14,
    caller: 0x10c00,
    taken: 70,
};

// A call of a book, and its answer behind what it is given.
#[derive(Clone, Copy)]
enum Call {
    // Size, padding and lowest address.
    Place(u32, u32, u32, Option<u32>),
    Release(u32, bool),
    Delay(u32, bool),
    Recycle,
    Find(u32, Standing),
    // Address and length.
    Holds(u32, u32, bool),
    Reserves(u32, u32, bool),
    // Address and size.
    Clear(u32, u32, bool),
    LiveSize(u32, Option<u32>),
    LiveReach(u32, Option<u64>),
    // Address and size, and how many of its bytes are kept.
    Kept(u32, u32, u32),
    // The block that was freed last of those that had the address, by its own.
    Gone(u32, Option<u32>),
}

// On a heap from 4096 to 4160.
#[rattlefmt::skip]
static SMALL: [Call; 46] = [
    Call::Place(17, 0, 0, Some(4096)), // reserves 32
    Call::Place(0, 0, 0, Some(4128)), // reserves 16
    Call::Place(16, 0, 0, Some(4144)),
    Call::Place(1, 0, 0, None),
    Call::Find(4096, Standing::Live(17)),
    Call::Find(4128, Standing::Live(0)),
    Call::Find(4112, Standing::Nothing),
    Call::Find(0, Standing::Nothing),
    Call::Holds(4096, 32, true),
    Call::Holds(4096, 33, false), // two blocks
    Call::Holds(4127, 1, true), // reserved, not asked for
    Call::Holds(4159, 2, false),
    Call::Holds(4095, 1, false),
    Call::Holds(0xffff_ffff, 2, false),
    Call::Reserves(4112, 16, true),
    Call::Reserves(4112, 17, false),
    Call::Reserves(0xffff_ffff, 2, false),
    Call::Clear(4112, 1, false), // the first block's seventeenth byte
    Call::Clear(4128, 0, false),
    Call::Release(4112, false),
    Call::Release(4128, true),
    Call::Release(4128, false),
    Call::Clear(4128, 16, true),
    Call::Clear(4128, 17, false),
    Call::Clear(4136, 1, false), // no multiple of 16
    Call::Clear(4160, 0, false), // behind the heap
    Call::Place(16, 16, 0, None),
    Call::Place(16, 0, 4144, None),
    Call::Place(16, 0, 4096, Some(4128)),
    Call::Delay(4128, true),
    Call::Delay(4128, false),
    Call::Release(4128, false),
    Call::Find(4128, Standing::Delayed(16)),
    Call::Holds(4128, 16, true),
    Call::Reserves(4128, 16, false),
    Call::Clear(4128, 16, true),
    Call::Place(16, 0, 0, None),
    Call::Recycle,
    Call::Find(4128, Standing::Nothing),
    Call::Find(4096, Standing::Live(17)),
    Call::Holds(4128, 16, false),
    Call::Place(16, 0, 4113, Some(4128)), // from no multiple of 16
    Call::Release(4096, true),
    Call::Place(0xffff_ffff, 0, 0, None),
    Call::Place(1, 0, 0xffff_ffff, None),
    Call::Place(32, 0, 0, Some(4096)),
];

// On a heap from 4096 to 5152.
#[rattlefmt::skip]
static PADDED: [Call; 13] = [
    Call::Place(16, 256, 0, Some(4352)), // an extent from 4096 to 4624
    Call::Place(16, 256, 0, Some(4880)), // an extent from 4624 to 5152
    Call::Place(1, 0, 0, None),
    Call::Holds(4096, 528, true),
    Call::Holds(4096, 529, false),
    Call::Reserves(4351, 1, false),
    Call::Reserves(4352, 16, true),
    Call::Reserves(4352, 17, false),
    Call::Clear(4096, 256, true), // padding isn't the block's bytes
    Call::Clear(4096, 257, false),
    Call::Release(4352, true),
    Call::Place(16, 16, 0, Some(4112)),
    Call::Place(0, 0, 0, Some(4144)),
];

// On a heap in which 4096 blocks of 16 bytes stand, with room for four more.
#[rattlefmt::skip]
static MOST: [Call; 6] = [
    Call::Find(69616, Standing::Live(1)),
    Call::Place(1, 0, 0, None),
    Call::Delay(4112, true),
    Call::Place(1, 0, 0, None),
    Call::Recycle,
    Call::Place(1, 0, 0, Some(4112)),
];

// On a copy of a heap from 4096 to 4160 with a block of 17 bytes and one of none.
#[rattlefmt::skip]
static COPY: [Call; 9] = [
    Call::Find(4112, Standing::Live(17)),
    Call::Find(4144, Standing::Live(0)),
    Call::LiveSize(4112, Some(17)),
    Call::LiveSize(4128, None),
    Call::LiveReach(4112, Some(32)),
    Call::LiveReach(4128, None),
    Call::Kept(4112, 20, 17),
    Call::Kept(4112, 5, 5),
    Call::Kept(4128, 5, 0),
];

// On a heap from 4096 to 4160: what is freed is remembered, also where another block stands in its place, and behind a recycling.
#[rattlefmt::skip]
static GONE: [Call; 14] = [
    Call::Place(17, 0, 0, Some(4096)),
    Call::Place(1, 0, 0, Some(4128)),
    Call::Gone(4096, None),
    Call::Release(4096, true),
    Call::Release(4096, false),
    Call::Gone(4096, Some(4096)),
    Call::Gone(4127, Some(4096)),
    Call::Gone(4128, None),
    Call::Place(16, 0, 0, Some(4096)),
    Call::Gone(4100, Some(4096)),
    Call::Delay(4128, true),
    Call::Gone(4128, Some(4128)),
    Call::Recycle,
    Call::Gone(4128, Some(4128)),
];

// Whether a place is answered; padding that no call may ask for is none.
fn places(book: &mut Book, size: u32, side: u32, from: u32, want: Option<u32>) -> bool {
    side % 16 == 0 && side <= 256 && book.place(size, side, from, MADE) == want
}

// The address of the block that was freed last of those that had an address.
fn gone_at(book: &Book, at: u32) -> Option<u32> {
    match book.freed_at(at) {
        Some(freed) => Some(freed.block.at),
        None => None,
    }
}

// Whether a call has its answer. A run of bytes has at least one.
fn is_answered(book: &mut Book, call: Call) -> bool {
    match call {
        Call::Place(size, side, from, want) => places(book, size, side, from, want),
        Call::Release(at, want) => book.release(at, BY) == want,
        Call::Delay(at, want) => book.delay(at, BY) == want,
        Call::Recycle => {
            book.recycle();
            true
        }
        Call::Find(at, want) => book.find(at) == want,
        Call::Holds(at, len, want) => len >= 1 && book.holds(at, len) == want,
        Call::Reserves(at, len, want) => len >= 1 && book.reserves(at, len) == want,
        Call::Clear(at, size, want) => book.clear_of_live(at, size) == want,
        Call::LiveSize(at, want) => book.live_size(at) == want,
        Call::LiveReach(at, want) => book.live_reach(at) == want,
        Call::Kept(at, size, want) => book.kept(at, size) == want,
        Call::Gone(at, want) => gone_at(book, at) == want,
    }
}

fn try_calls(rt: &impl Abort, book: &mut Book, calls: &[Call]) {
    for (i, call) in calls.iter().enumerate() {
        assert!(rt; is_answered(book, *call), "row {i}");
    }
}

// Places as many blocks as there may be.
fn fill(rt: &impl Abort, book: &mut Book) {
    for _ in 0..4096 {
        assert!(rt; book.place(1, 0, 0, MADE).is_some());
    }
}

#[test]
fn books_place_and_free(rt: HostRuntime) -> Result<(), Fail> {
    try_calls(&rt, &mut Book::make(rt.alloc(), 4096, 4160)?, &SMALL);
    try_calls(&rt, &mut Book::make(rt.alloc(), 4096, 5152)?, &PADDED);
    let mut most = Book::make(rt.alloc(), 4096, 4096 + 65536 + 64)?;
    fill(&rt, &mut most);
    try_calls(&rt, &mut most, &MOST);
    Ok(())
}

// Puts blocks: none on the first one's seventeenth byte, none from no multiple of 16, and none past the heap.
fn put_blocks(book: &mut Book) -> [bool; 5]
    requires { is_bare book.old ≡ true }
    ensures { SameEnds book.old book.new }
{
    let first = book.put(4112, 17, MADE);
    let on_it = book.put(4128, 0, MADE);
    let uneven = book.put(4152, 1, MADE);
    let past = book.put(4144, 17, MADE);
    let last = book.put(4144, 0, MADE);
    [first, on_it, uneven, past, last]
}

#[test]
fn books_take_blocks_and_copies(rt: HostRuntime) -> Result<(), Fail> {
    let mut book = Book::make(rt.alloc(), 4096, 4160)?;
    assert_eq!(rt; put_blocks(&mut book), [true, false, false, false, true]);
    let mut copy = Book::make(rt.alloc(), 4096, 4160)?;
    copy.copy_from(&book);
    assert_eq!(rt; (copy.start(), copy.end()), (4096, 4160));
    try_calls(&rt, &mut copy, &COPY);
    Ok(())
}

#[test]
fn books_remember_sites(rt: HostRuntime) -> Result<(), Fail> {
    let mut book = Book::make(rt.alloc(), 4096, 4160)?;
    try_calls(&rt, &mut book, &GONE);
    let block = Block {
        at: 4128,
        size: 1,
        side: 0,
        delayed: false,
        made: MADE,
    };
    assert!(rt; book.freed_at(4128) == Some(Freed { block, by: BY }));
    Ok(())
}

#[test]
fn choices_are_a_list(rt: HostRuntime) -> Result<(), Fail> {
    let null = Choice {
        ask: Ask::Malloc { size: 1 },
        at: 0,
        zeroed: false,
        carried: 0,
    };
    let choices = Choices::from_vec(vec![in rt.alloc(); null]?);
    assert_eq!(rt; choices.as_slice(), [null].as_slice());
    Ok(())
}
