// The lines that a person is told of recoveries.
use alloc_env::Env;
use block_book::{Block, Freed, Site};
use run_history::{Cause, Regs};
use session_notes::{Episode, Tried, Tries, Try};
use std::alloc::Global;
use std::test::Fail;
use telling::{
    Access, Counts, Fault, Gone, Helps, Near, Place, SeenItem, Sighting, Touch, end_line, fault_of,
    helps_of, recovery_line, sighting_lines,
};

// The registers where each has its own number, and the others' line.
const REGISTERS: &str = "\
    \u{20} zero 00000000 ra 00000001 sp 00000002 gp 00000003 tp 00000004 t0 00000005 t1 00000006 t2 00000007\n\
    \u{20} s0 00000008 s1 00000009 a0 0000000a a1 0000000b a2 0000000c a3 0000000d a4 0000000e a5 0000000f\n\
    \u{20} a6 00000010 a7 00000011 s2 00000012 s3 00000013 s4 00000014 s5 00000015 s6 00000016 s7 00000017\n\
    \u{20} s8 00000018 s9 00000019 s10 0000001a s11 0000001b t3 0000001c t4 0000001d t5 0000001e t6 0000001f\n";

fn registers() -> [u32; 32] {
    [
        0, 1, 2, 3, 4, 5, 6, 7, 8, 9, 10, 11, 12, 13, 14, 15, 16, 17, 18, 19, 20, 21, 22, 23, 24,
        25, 26, 27, 28, 29, 30, 31,
    ]
}

// A failure behind the fourth message of connection 5, at a store of a byte to this place.
fn sighting(at: u32, place: Place) -> Sighting {
    let access = Access {
        write: true,
        at,
        count: 1,
    };
    Sighting {
        point: 37,
        steps: 900,
        regs: Regs {
            pc: 0x104ec,
            x: registers(),
        },
        item: Some(SeenItem {
            kind: 2,
            conn: 5,
            number: 4,
            len: 12,
        }),
        touch: Some(Touch { access, place }),
        pointer: None,
    }
}

// An episode of two trials, of which the second came to this.
fn episode(alloc: Global, tried: Tried) -> Result<Episode, Fail> {
    let first = Try {
        checkpoint: 36,
        env: Env::Pad,
        tried: Tried::Behind,
    };
    let second = Try {
        checkpoint: 32,
        env: Env::Zero,
        tried,
    };
    Ok(Episode {
        point: 37,
        cause: Cause::BadAccess,
        pc: 0x104ec,
        tries: Tries::from_vec([first, second].to_vec(alloc)?),
    })
}

// The second of the day, the microseconds, and whether the failure was seen; what the second trial came to; and the line.
type Recovery = (Option<u32>, Option<u64>, bool, Tried, &'static str);

static RECOVERIES: [Recovery; 2] = [
    (
        Some(50_602),
        Some(412),
        true,
        Tried::Asks,
        "rx: 14:03:22 recovered in 0.412 ms: point 37 (message 4 of connection 5, 12 bytes): BadAccess at 000104ec; try 1, checkpoint 32, env zero\n",
    ),
    (
        None,
        None,
        false,
        Tried::Contradicts,
        "rx: gave up: point 37: BadAccess at 000104ec; 2 tries, of which none survived\n",
    ),
];

// The line of a recovery.
fn recovery_told(alloc: Global, row: Recovery) -> Result<String, Fail> {
    let (second, micros, is_seen, tried, _) = row;
    let place = Place {
        allowed: true,
        in_heap: true,
        below: None,
        gone: None,
    };
    let sighting = sighting(0x20_0020, place);
    let seen = if is_seen { Some(&sighting) } else { None };
    Ok(recovery_line(alloc, second, micros, seen, &episode(alloc, tried)?)?)
}

#[test]
fn recoveries_are_told(rt: HostRuntime) -> Result<(), Fail> {
    let alloc = rt.alloc();
    for row in RECOVERIES.iter() {
        assert!(rt; recovery_told(alloc, *row)?.as_str() == row.4, "{}", row.4);
    }
    let counts = Counts {
        recovered: 1,
        given_up: 0,
    };
    let end = end_line(alloc, Some(86_399), 0, 40, &counts)?;
    assert!(rt;
        end.as_str()
            == "rx: 23:59:59 ended with status 0: 40 items taken, 1 failure, 1 recovered, 0 given up\n"
    );
    Ok(())
}

// The message behind which each block was asked for.
const MESSAGE: SeenItem = SeenItem {
    kind: 2,
    conn: 3,
    number: 61,
    len: 9,
};

// Where that was.
const MADE: Site = Site {
    pc: 0x10a2c,
    caller: 0x10b00,
    taken: 61,
};

const STANDS: Near = Near {
    block: Block {
        at: 0x20_0000,
        size: 28,
        side: 0,
        delayed: false,
        made: MADE,
    },
    made_for: Some(MESSAGE),
};

const DELAYED: Near = Near {
    block: Block {
        at: 0x20_0000,
        size: 1,
        side: 0,
        delayed: true,
        made: MADE,
    },
    made_for: Some(MESSAGE),
};

// A block that was freed behind 70 items, of which the log has the last no more.
const GONE: Gone = Gone {
    freed: Freed {
        block: Block {
            at: 0x20_0000,
            size: 32,
            side: 0,
            delayed: false,
            made: MADE,
        },
        by: Site {
            pc: 0x10b14,
            caller: 0x10c00,
            taken: 70,
        },
    },
    made_for: Some(MESSAGE),
    freed_for: None,
};

// What lies where a byte is stored: whether that is in the heap, the block next below, and the one that was freed there.
fn place(in_heap: bool, below: Option<Near>, gone: Option<Gone>) -> Place {
    Place {
        allowed: in_heap,
        in_heap,
        below,
        gone,
    }
}

// Where a byte is stored, what lies there, and the lines.
type Store = (u32, bool, Option<Near>, Option<Gone>, &'static str);

static STORES: [Store; 5] = [
    (
        0x20_0020,
        true,
        Some(STANDS),
        None,
        "  wrote 1 byte at 00200020: 4 bytes past a block of 28 bytes at 00200000\n    the block at 00200000 was allocated at 00010a2c (ra 00010b00) for message 61 of connection 3\n",
    ),
    (
        0x20_001b,
        true,
        Some(STANDS),
        None,
        "  wrote 1 byte at 0020001b: 27 bytes into a block of 28 bytes at 00200000\n    the block at 00200000 was allocated at 00010a2c (ra 00010b00) for message 61 of connection 3\n",
    ),
    (
        0x20_0000,
        true,
        Some(DELAYED),
        None,
        "  wrote 1 byte at 00200000: 0 bytes into a freed block of 1 byte at 00200000\n    the block at 00200000 was allocated at 00010a2c (ra 00010b00) for message 61 of connection 3\n",
    ),
    (
        0x20_0004,
        true,
        None,
        Some(GONE),
        "  wrote 1 byte at 00200004: in the heap, with no block near below\n    there was a block of 32 bytes at 00200000, allocated at 00010a2c (ra 00010b00) for message 61 of connection 3, freed at 00010b14 (ra 00010c00) behind 70 items\n",
    ),
    (
        0x6420_6e61,
        false,
        None,
        None,
        "  wrote 1 byte at 64206e61: no segment allows it\n",
    ),
];

#[test]
fn places_are_told(rt: HostRuntime) -> Result<(), Fail> {
    for row in STORES.iter() {
        let (at, in_heap, below, gone, lines) = *row;
        let seen = sighting(at, place(in_heap, below, gone));
        let told = sighting_lines(rt.alloc(), Cause::BadAccess, &seen)?;
        assert!(rt;
            told.as_str().strip_prefix(lines) == Some(REGISTERS),
            "{told}"
        );
    }
    Ok(())
}

const PADS: Helps = Helps {
    pad: true,
    zero: false,
    delay: false,
};

const DELAYS: Helps = Helps {
    pad: false,
    zero: false,
    delay: true,
};

const ZEROS: Helps = Helps {
    pad: false,
    zero: true,
    delay: true,
};

// Where a byte is stored, what lies there, what helps, and what is wrong. A block of 28 bytes reserves 32.
type Wrong = (u32, bool, Option<Near>, Option<Gone>, Option<Helps>, Fault);

#[rattlefmt::skip]
static WRONG: [Wrong; 12] = [
    (0x20_0020, true, Some(STANDS), None, None, Fault::PastEnd),
    (0x20_0020, true, Some(STANDS), None, Some(DELAYS), Fault::PastEnd),
    (0x20_0030, true, Some(STANDS), None, None, Fault::Unknown),
    (0x20_0030, true, Some(STANDS), None, Some(PADS), Fault::PastEnd),
    (0x20_0000, true, Some(DELAYED), None, None, Fault::Freed),
    (0x20_0004, true, None, Some(GONE), None, Fault::Freed),
    (0x20_0024, true, Some(STANDS), Some(GONE), Some(DELAYS), Fault::Freed),
    (0x20_0024, true, Some(STANDS), Some(GONE), Some(PADS), Fault::PastEnd),
    (0x20_0024, true, Some(STANDS), Some(GONE), None, Fault::Freed),
    (0x20_0020, true, Some(STANDS), Some(GONE), None, Fault::PastEnd),
    (0x20_0004, true, None, Some(GONE), Some(ZEROS), Fault::Unset),
    (0x6420_6e61, false, None, None, Some(DELAYS), Fault::Freed),
];

#[test]
fn faults_are_told(rt: HostRuntime) -> Result<(), Fail> {
    for row in WRONG.iter() {
        let (at, in_heap, below, gone, helps, fault) = *row;
        let seen = sighting(at, place(in_heap, below, gone));
        let told = fault_of(Cause::BadAccess, &seen, helps);
        assert!(rt; told == fault, "{at}");
    }
    Ok(())
}

// A trial.
fn trial(checkpoint: u64, env: Env, tried: Tried) -> Try {
    Try {
        checkpoint,
        env,
        tried,
    }
}

#[test]
fn the_oldest_cure_tells(rt: HostRuntime) -> Result<(), Fail> {
    let tries = [
        trial(36, Env::Pad, Tried::Asks),
        trial(36, Env::Delay, Tried::Asks),
        trial(32, Env::Pad, Tried::Contradicts),
        trial(32, Env::Zero, Tried::Asks),
        trial(32, Env::Delay, Tried::Asks),
        trial(28, Env::Pad, Tried::Behind),
    ];
    assert!(rt; helps_of(&tries) == Some(ZEROS));
    assert!(rt; helps_of(&[]).is_none());
    Ok(())
}
