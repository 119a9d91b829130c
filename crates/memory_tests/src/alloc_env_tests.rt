// Answers of malloc, calloc, realloc and free by the table of environments, on a heap of 65536 bytes and on one of 4096, with addresses worked out by hand.
use alloc_env::{BadFree, Env, serve_ask, serve_free};
use block_book::{Ask, Book, Choice, Site};
use std::process::Abort;
use std::test::Fail;

// Where the heap begins. Its middle is 32768 bytes above.
const H: u32 = 0x12000;

// Where each call stands.
const SITE: Site = Site {
    pc: 0x10a2c,
    caller: 0x10b00,
    taken: 61,
};

#[derive(Clone, Copy)]
enum Call {
    // The size, and the answer: the address, and whether the block is zeroed.
    Malloc(Env, u32, u32, bool),
    // The count and the size, and the answer.
    Calloc(Env, u32, u32, u32, bool),
    // The old address and the size, and the answer.
    Realloc(Env, u32, u32, u32, bool),
    // The same, and how many bytes are carried.
    Carries(Env, u32, u32, u32, bool, u32),
    // An old address that is bad.
    BadRealloc(Env, u32),
    // The address, and whether it may be freed.
    Free(Env, u32, bool),
}

#[rattlefmt::skip]
static PLAIN: [Call; 10] = [
    Call::Malloc(Env::Plain, 16, H, false),
    Call::Malloc(Env::Plain, 16, H + 16, false),
    Call::Free(Env::Plain, 0, true),
    Call::Free(Env::Plain, H + 8, false), // inside of a block
    Call::Free(Env::Plain, H + 32, false), // no block
    Call::Free(Env::Plain, H, true),
    Call::Free(Env::Plain, H, false),
    Call::Malloc(Env::Plain, 0, H, false),
    Call::Malloc(Env::Plain, 65504, H + 32, false), // all that is left
    Call::Malloc(Env::Plain, 0xffff_ffff, 0, false),
];

#[rattlefmt::skip]
static PAD: [Call; 6] = [
    Call::Malloc(Env::Pad, 16, H + 256, false), // an extent from H to H + 528
    Call::Malloc(Env::Pad, 16, H + 784, false), // and on to H + 1056
    Call::Free(Env::Pad, H, false), // padding
    Call::Free(Env::Pad, H + 256, true),
    Call::Malloc(Env::Plain, 16, H, false),
    Call::Malloc(Env::Pad, 16, H + 1312, false), // 512 bytes at H + 16 are too few
];

#[rattlefmt::skip]
static ZERO: [Call; 3] = [
    Call::Malloc(Env::Zero, 0, H, true),
    Call::Malloc(Env::Zero, 65536, 0, false),
    Call::Malloc(Env::Zero, 1, H + 16, true),
];

#[rattlefmt::skip]
static ISOLATE: [Call; 4] = [
    Call::Malloc(Env::Isolate, 16, H + 32768, false),
    Call::Malloc(Env::Isolate, 32768, H, false), // 32752 bytes are left above
    Call::Malloc(Env::Isolate, 32752, H + 32784, false),
    Call::Malloc(Env::Isolate, 1, 0, false),
];

#[rattlefmt::skip]
static DELAY: [Call; 14] = [
    Call::Malloc(Env::Delay, 16, H, false),
    Call::Free(Env::Delay, H, true),
    Call::Malloc(Env::Delay, 16, H + 16, false),
    Call::Free(Env::Delay, H, true), // a second time
    Call::Free(Env::All, H, true),
    Call::Free(Env::Plain, H, false),
    Call::Free(Env::Pad, H, false),
    Call::Free(Env::Zero, H, false),
    Call::Free(Env::Isolate, H, false),
    Call::Malloc(Env::Delay, 65504, H + 32, false), // now nothing is left
    Call::Malloc(Env::Plain, 16, H, false), // but what is recycled
    Call::Free(Env::Delay, H + 32, true),
    Call::Malloc(Env::Delay, 65504, H + 32, false),
    Call::Free(Env::Isolate, H, true),
];

#[rattlefmt::skip]
static ALL: [Call; 7] = [
    Call::Malloc(Env::All, 16, H + 33024, true), // an extent from the middle to H + 33296
    Call::Free(Env::All, H + 33024, true),
    Call::Malloc(Env::All, 16, H + 33552, true),
    Call::Free(Env::Plain, H + 33024, false),
    Call::Malloc(Env::All, 65024, 0, false), // recycles, in vain
    Call::Free(Env::All, H + 33024, false),
    Call::Malloc(Env::All, 0, H + 33024, true),
];

// The same on the heap of addresses 4096 to 8192, whose middle is 6144.
#[rattlefmt::skip]
static SMALL_PLAIN: [Call; 8] = [
    Call::Malloc(Env::Plain, 17, 4096, false), // reserves 32
    Call::Malloc(Env::Plain, 0, 4128, false), // reserves 16
    Call::Malloc(Env::Plain, 1, 4144, false),
    Call::Free(Env::Plain, 4096, true),
    Call::Malloc(Env::Plain, 33, 4160, false), // 32 bytes are too few
    Call::Malloc(Env::Plain, 32, 4096, false), // the lowest fit
    Call::Malloc(Env::Plain, 3984, 4208, false), // all that is left
    Call::Malloc(Env::Plain, 1, 0, false),
];

#[rattlefmt::skip]
static SMALL_PAD: [Call; 7] = [
    Call::Malloc(Env::Pad, 16, 4352, false), // an extent from 4096 to 4624
    Call::Malloc(Env::Pad, 17, 4880, false), // and on to 5168, with 32 bytes in its middle
    Call::Free(Env::Pad, 4352, true),
    Call::Malloc(Env::Pad, 17, 5424, false), // 528 bytes at 4096 are too few
    Call::Malloc(Env::Pad, 16, 4352, false),
    Call::Malloc(Env::Pad, 1968, 5968, false), // from 5712 to 8192
    Call::Malloc(Env::Pad, 0, 0, false),
];

#[rattlefmt::skip]
static SMALL_ISOLATE: [Call; 6] = [
    Call::Malloc(Env::Isolate, 17, 6144, false),
    Call::Malloc(Env::Isolate, 16, 6176, false),
    Call::Malloc(Env::Isolate, 2016, 4096, false), // 2000 bytes are left above
    Call::Malloc(Env::Isolate, 2000, 6192, false),
    Call::Malloc(Env::Isolate, 32, 6112, false),
    Call::Malloc(Env::Isolate, 0, 0, false),
];

#[rattlefmt::skip]
static SMALL_DELAY: [Call; 9] = [
    Call::Malloc(Env::Delay, 16, 4096, false),
    Call::Malloc(Env::Delay, 32, 4112, false),
    Call::Free(Env::Delay, 4096, true),
    Call::Free(Env::Delay, 4112, true),
    Call::Malloc(Env::Delay, 16, 4144, false), // not where one was
    Call::Malloc(Env::Delay, 4032, 4160, false), // now nothing is left
    Call::Malloc(Env::Delay, 48, 4096, false), // so both are recycled
    Call::Free(Env::Delay, 4112, false), // nothing stands there now
    Call::Malloc(Env::Delay, 0, 0, false),
];

#[rattlefmt::skip]
static AGAIN_PLAIN: [Call; 9] = [
    Call::Realloc(Env::Plain, 0, 16, H, false),
    Call::Realloc(Env::Plain, H, 32, H + 16, false), // the old one stands while it is placed
    Call::Malloc(Env::Plain, 16, H, false), // and not any more
    Call::Realloc(Env::Plain, H + 16, 8, H + 48, false),
    Call::BadRealloc(Env::Plain, H + 16),
    Call::Calloc(Env::Plain, 3, 4, H + 16, true),
    Call::Calloc(Env::Plain, 65536, 65536, 0, false), // 2 ^ 32 bytes
    Call::Realloc(Env::Plain, H, 65536, 0, false),
    Call::Free(Env::Plain, H, true), // so the old one stays
];

#[rattlefmt::skip]
static AGAIN_PAD: [Call; 3] = [
    Call::Calloc(Env::Pad, 4, 4, H + 256, true), // an extent from H to H + 528
    Call::Carries(Env::Pad, H + 256, 16, H + 784, false, 256), // and on to H + 1056
    Call::Carries(Env::Pad, H + 784, 16, H + 256, false, 256),
];

#[rattlefmt::skip]
static AGAIN_ZERO: [Call; 3] = [
    Call::Realloc(Env::Zero, 0, 0, H, true),
    Call::Realloc(Env::Zero, H, 65536, 0, false),
    Call::Realloc(Env::Zero, H, 1, H + 16, true),
];

#[rattlefmt::skip]
static AGAIN_ISOLATE: [Call; 2] = [
    Call::Realloc(Env::Isolate, 0, 16, H + 32768, false),
    Call::Realloc(Env::Isolate, H + 32768, 32752, H + 32784, false),
];

#[rattlefmt::skip]
static AGAIN_DELAY: [Call; 6] = [
    Call::Malloc(Env::Delay, 16, H, false),
    Call::Realloc(Env::Delay, H, 16, H + 16, false),
    Call::BadRealloc(Env::Delay, H), // it is delayed
    Call::Calloc(Env::Delay, 65536, 65536, 0, false), // recycles nothing
    Call::Malloc(Env::Delay, 16, H + 32, false),
    Call::Free(Env::Delay, H, true),
];

#[rattlefmt::skip]
static AGAIN_ALL: [Call; 3] = [
    Call::Calloc(Env::All, 1, 16, H + 33024, true), // an extent from the middle to H + 33296
    Call::Carries(Env::All, H + 33024, 16, H + 33552, true, 256),
    Call::BadRealloc(Env::All, H + 33024),
];

// What comes of an old block's extent: as many bytes behind its size as both extents have behind what both blocks have.
#[rattlefmt::skip]
static CARRIED: [Call; 8] = [
    Call::Malloc(Env::Plain, 20, H, false), // reserves 32, without padding
    Call::Carries(Env::Pad, H, 40, H + 288, false, 12), // an extent from H + 32 to H + 592
    Call::Carries(Env::Pad, H + 288, 8, H + 848, false, 264), // the new one has 272 bytes from there on, and 8 are kept
    Call::Realloc(Env::Plain, H + 848, 100, H, false), // only an environment that pads brings them
    Call::Realloc(Env::Zero, H, 4, H + 112, true),
    Call::Carries(Env::All, H + 112, 32, H + 33024, true, 12),
    Call::Realloc(Env::Pad, 0, 16, H + 384, false), // in place of none, behind the block that is delayed
    Call::Realloc(Env::Pad, H + 384, 0xffff_ffff, 0, false),
];

// Whether a choice is answered to what is asked.
fn chooses(answer: Result<Choice, BadFree>, wanted: Choice) -> bool {
    match answer {
        Ok(choice) => choice == wanted,
        Err(_) => false,
    }
}

// Whether a call has its answer. Those of malloc, calloc and realloc go through `serve_ask`, as those of a guest do.
fn is_answered(book: &mut Book, call: Call) -> bool {
    let (env, ask, at, zeroed, carried) = match call {
        Call::Malloc(env, size, at, zeroed) => (env, Ask::Malloc { size }, at, zeroed, 0),
        Call::Calloc(env, count, size, at, zeroed) => {
            (env, Ask::Calloc { count, size }, at, zeroed, 0)
        }
        Call::Realloc(env, old, size, at, zeroed) => {
            (env, Ask::Realloc { old, size }, at, zeroed, 0)
        }
        Call::Carries(env, old, size, at, zeroed, carried) => {
            (env, Ask::Realloc { old, size }, at, zeroed, carried)
        }
        Call::BadRealloc(env, old) => {
            return serve_ask(env, book, SITE, Ask::Realloc { old, size: 16 }).is_err();
        }
        Call::Free(env, at, want) => return serve_free(env, book, SITE, at).is_ok() == want,
    };
    let wanted = Choice {
        ask,
        at,
        zeroed,
        carried,
    };
    chooses(serve_ask(env, book, SITE, ask), wanted)
}

fn try_calls(rt: &impl Abort, book: &mut Book, calls: &[Call]) {
    for (i, call) in calls.iter().enumerate() {
        assert!(rt; is_answered(book, *call), "row {i} of {}", calls.len());
    }
}

// A heap of 65536 bytes, or one of 4096, for each table.
#[test]
fn environments_answer_by_the_table(rt: HostRuntime) -> Result<(), Fail> {
    for calls in [
        PLAIN.as_slice(),
        PAD.as_slice(),
        ZERO.as_slice(),
        ISOLATE.as_slice(),
        DELAY.as_slice(),
        AGAIN_PLAIN.as_slice(),
        AGAIN_PAD.as_slice(),
        AGAIN_ZERO.as_slice(),
        AGAIN_ISOLATE.as_slice(),
        AGAIN_DELAY.as_slice(),
        AGAIN_ALL.as_slice(),
        CARRIED.as_slice(),
        ALL.as_slice(),
    ] {
        try_calls(&rt, &mut Book::make(rt.alloc(), H, H + 65536)?, calls);
    }
    for calls in [
        SMALL_PLAIN.as_slice(),
        SMALL_PAD.as_slice(),
        SMALL_ISOLATE.as_slice(),
        SMALL_DELAY.as_slice(),
    ] {
        try_calls(&rt, &mut Book::make(rt.alloc(), 4096, 8192)?, calls);
    }
    Ok(())
}
