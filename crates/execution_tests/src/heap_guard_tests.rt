// What a guard of the heap permits, at values by hand.
use crate::rows::read_numbers;
use block_book::{Book, Site};
use guest_space::AccessRule;
use heap_guard::{GuardMode, HeapGuard};
use std::alloc::Global;
use std::process::Abort;
use std::test::Fail;

// An address and so many bytes from it on, in hexadecimal digits, and whether they are permitted by the mode Extent and by the mode Block.
// The heap is from 1000 up to 2000. In it stand a block of 24 bytes, which reserves 1000 up to 1020; beside it one of size 0, which
// reserves 1020 up to 1030; one of 5 bytes with 32 of padding, which reserves 1120 up to 1130 of its extent from 1100 up to 1150; and one
// that was freed and is delayed, from 1200 up to 1210.
const ACCESSES: &str = "\
fff 1 > true true # below the heap
ffc 4 > true true
ffd 4 > false false # its last byte is the heap's first
1000 20 > true true
1000 21 > false false # across two blocks that touch
1018 8 > true true # behind 24 bytes, but reserved
101e 4 > false false
1020 10 > true true # a block of size 0 reserves 16 bytes
1020 11 > false false
102f 1 > true true
1030 1 > false false # in no block
10ff 1 > false false
1100 20 > true false # padding
111f 1 > true false
111f 2 > true false # one byte of padding, and one of the block
1120 10 > true true
112e 4 > true false
1130 20 > true false
1130 21 > false false
1150 1 > false false
1200 10 > true false # delayed
120c 4 > true false
1210 1 > false false
1fff 1 > false false
1ffe 4 > false false # its first two bytes are the heap's last
2000 4 > true true # behind the heap
ff0 2000 > false false # all of the heap
ffffffff ffffffff > true true # past the last address
1 ffffffff > false false
";

// The same in a heap without a byte, at 1000.
const OF_NO_BYTE: &str = "\
ff0 20 > true true
1000 1 > true true
";

// The same in a heap from fffffe00 up to fffffff0, in which a block of 16 bytes stands at its start.
const AT_THE_TOP: &str = "\
fffffe00 10 > true true
fffffe0c 8 > false false
fffffe00 ffffffff > false false
ffffffe0 20 > false false
ffffffef 11 > false false
fffffff0 10 > true true
fffffff0 11 > true true
";

// Where each block is asked for.
const SITE: Site = Site {
    pc: 0,
    caller: 0,
    taken: 0,
};

// A heap with the blocks of `ACCESSES`.
fn some_blocks(alloc: Global) -> Result<Book, Fail> {
    let mut book = Book::make(alloc, 0x1000, 0x2000)?;
    let _first = book.place(24, 0, 0, SITE);
    let _empty = book.place(0, 0, 0, SITE);
    let _padded = book.place(5, 32, 0x1100, SITE);
    let _freed = book.place(8, 0, 0x1200, SITE);
    let _delayed = book.delay(0x1200, SITE);
    Ok(book)
}

// What both modes say of the access of a row.
fn permitted(alloc: Global, book: &Book, row: &str) -> Result<String, Fail> {
    let mut numbers = [0; 2];
    read_numbers(row, &mut numbers)?;
    let [at, len] = numbers;
    let len = len.max(1);
    let extent = HeapGuard::over(GuardMode::Extent).permits(book, at, len);
    let block = HeapGuard::over(GuardMode::Block).permits(book, at, len);
    Ok(format!(in alloc; "{extent} {block}")?)
}

fn try_rows(rt: &impl Abort, alloc: Global, book: &Book, rows: &str) -> Result<(), Fail> {
    for row in rows.lines() {
        let (access, columns) = row.split_once(" > ").ok_or("no row")?;
        let (wanted, _) = columns.split_once(" #").unwrap_or((columns, ""));
        let given = permitted(alloc, book, access)?;
        assert!(rt; given.as_str() == wanted, "{row}");
    }
    Ok(())
}

#[test]
fn accesses_lie_in_one_block(rt: HostRuntime) -> Result<(), Fail> {
    let book = some_blocks(rt.alloc())?;
    try_rows(&rt, rt.alloc(), &book, ACCESSES)
}

#[test]
fn ends_of_heaps_are_exact(rt: HostRuntime) -> Result<(), Fail> {
    let empty = Book::make(rt.alloc(), 0x1000, 0x1000)?;
    try_rows(&rt, rt.alloc(), &empty, OF_NO_BYTE)?;
    let mut high = Book::make(rt.alloc(), 0xffff_fe00, 0xffff_fff0)?;
    let _at = high.place(16, 0, 0, SITE);
    try_rows(&rt, rt.alloc(), &high, AT_THE_TOP)
}
