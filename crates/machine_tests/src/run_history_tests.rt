// Choices of malloc, calloc and realloc, by hand from the rules of ISO C, and the laws of runs.
ghost use Rattle.std.specs.Prelude.{◌≡◌, true};
ghost use Rattle.block_book.specs.Heap.{is_bare};

use block_book::{Ask, Book, Choice, Site};
use run_history::{kept_count, laws, legal_choice, may_ask};
use std::process::Abort;
use std::test::Fail;

// Where each block is asked for.
const SITE: Site = Site {
    pc: 0,
    caller: 0,
    taken: 0,
};

// An ask, the one that a choice answers, its address, whether it is zeroed, how many bytes are carried, and whether that is allowed.
type Row = (Ask, Ask, u32, bool, u32, bool);

const MALLOC_16: Ask = Ask::Malloc { size: 16 };

const MALLOC_32: Ask = Ask::Malloc { size: 32 };

const MALLOC_33: Ask = Ask::Malloc { size: 33 };

const MALLOC_0: Ask = Ask::Malloc { size: 0 };

const CALLOC: Ask = Ask::Calloc { count: 2, size: 8 };

const SWAPPED: Ask = Ask::Calloc { count: 8, size: 2 };

// In a heap from 4096 to 4160, in which 17 bytes from 4096 on are live.
static CHOSEN: [Row; 14] = [
    (MALLOC_16, MALLOC_16, 0, false, 0, true),
    (MALLOC_16, MALLOC_16, 0, true, 0, false),
    (MALLOC_16, MALLOC_16, 4096, false, 0, false),
    (MALLOC_16, MALLOC_16, 4112, false, 0, false),
    (MALLOC_16, MALLOC_16, 4128, false, 0, true),
    (MALLOC_32, MALLOC_32, 4128, true, 0, true),
    (MALLOC_33, MALLOC_33, 4128, false, 0, false),
    (MALLOC_16, MALLOC_16, 4136, false, 0, false),
    (MALLOC_0, MALLOC_0, 4144, false, 0, true),
    (MALLOC_0, MALLOC_0, 4160, false, 0, false),
    (MALLOC_16, MALLOC_16, 4080, false, 0, false),
    (CALLOC, CALLOC, 4128, true, 0, true),
    (SWAPPED, CALLOC, 4128, true, 0, false),
    (CALLOC, CALLOC, 4128, false, 0, false),
];

const MALLOC_8: Ask = Ask::Malloc { size: 8 };

const REALLOC: Ask = Ask::Realloc { old: 4096, size: 8 };

// The same with a live byte at 4144. Eight bytes are kept, and so many carried: none onto a live block, and none beside null.
static CARRIED: [Row; 8] = [
    (REALLOC, REALLOC, 4112, false, 0, false),
    (REALLOC, REALLOC, 4128, false, 0, true),
    (REALLOC, REALLOC, 4128, false, 8, true),
    (REALLOC, REALLOC, 4128, false, 9, false),
    (REALLOC, REALLOC, 4136, false, 1, false),
    (REALLOC, REALLOC, 0, false, 0, true),
    (REALLOC, REALLOC, 0, false, 1, false),
    (MALLOC_8, MALLOC_8, 4128, false, 1, false),
];

// What realloc is asked for, the old address and the size, whether it may be, and how many bytes are kept.
static KEPT: [(u32, u32, bool, u32); 4] = [
    (4096, 8, true, 8),
    (4096, 32, true, 17),
    (0, 32, true, 0),
    (4112, 8, false, 0),
];

// Whether the choice of a row is allowed where it says so.
fn is_judged(book: &Book, row: Row) -> bool
    requires { is_bare book.now ≡ true }
{
    let (wanted, ask, at, zeroed, carried, want) = row;
    let choice = Choice {
        ask,
        at,
        zeroed,
        carried,
    };
    legal_choice(choice, book, wanted) == want
}

fn try_rows(rt: &impl Abort, book: &Book, rows: &[Row])
    requires { is_bare book.now ≡ true }
{
    for (i, row) in rows.iter().enumerate() {
        assert!(rt; is_judged(book, *row), "row {i}");
    }
}

// Which answers are allowed.
#[test]
fn choices_are_judged(rt: HostRuntime) -> Result<(), Fail> {
    let mut book = Book::make(rt.alloc(), 4096, 4160)?;
    assert_eq!(rt; book.place(17, 0, 0, SITE), Some(4096));
    try_rows(&rt, &book, &CHOSEN);
    for (old, size, good, kept) in KEPT {
        let ask = Ask::Realloc { old, size };
        assert!(rt;
            may_ask(ask, &book) == good && kept_count(ask, &book) == kept,
            "{old}, {size}"
        );
    }
    assert!(rt; book.put(4144, 1, SITE));
    try_rows(&rt, &book, &CARRIED);
    Ok(())
}

// The laws do nothing, and return.
#[test]
fn laws_return() {
    laws::runs_compose();
    laws::runs_stay();
    laws::outputs_grow();
    laws::served_runs();
    laws::served_stay();
}
