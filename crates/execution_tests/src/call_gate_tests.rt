// Calls of a guest: what the registers make, which of them may touch their buffer, and the connections that it may send to.
ghost use Rattle.std.specs.Prelude.{◌≡◌, ◌%◌, ◌==◌};

use crate::rows::{TEXT_AND_DATA, read_numbers, space_of};
use block_book::Book;
use call_gate::{ConnSet, check_call, read_call};
use guest_space::{AccessRule, AllMapped, GuestSpace};
use run_history::Regs;
use rx_base::{Bytes, Item};
use std::alloc::{AllocError, Global};
use std::process::Abort;
use std::test::Fail;

// A rule that forbids odd addresses.
struct EvenAlone;

impl AccessRule for EvenAlone {
    ghost rule = { λ rule heap at len. at % 2 == 0 };

    fn permits(&self, _book: &Book, at: u32, _len: u32) -> bool
        ensures { result ≡ (at % 2 == 0) }
    {
        at % 2 == 0
    }
}

// What x17, x10, x11 and x12 make, and whether its buffer may be touched with no rule and with `EvenAlone`. The text is at 0x10000, and the
// data at 0x10008. Connection 8 isn't open. The registers are in hexadecimal
// digits, the numbers of the call in decimal ones.
const CALLS: &str = "\
1 10008 8 > Ok(Recv { at: 65544, len: 8 }) true true
1 10000 4 > Ok(Recv { at: 65536, len: 4 }) false false
1 10009 1 > Ok(Recv { at: 65545, len: 1 }) true false
1 10009 0 > Ok(Recv { at: 65545, len: 0 }) true true
1 ffffffff 2 > Ok(Recv { at: 4294967295, len: 2 }) false false
2 7 10000 10 > Ok(Send { conn: 7, at: 65536, len: 16 }) true true
2 7 10007 9 > Ok(Send { conn: 7, at: 65543, len: 9 }) true false
2 7 10007 a > Ok(Send { conn: 7, at: 65543, len: 10 }) false false
2 8 1 4 > Ok(Send { conn: 8, at: 1, len: 4 }) true true
2 7 1 10000 > Ok(Send { conn: 7, at: 1, len: 65536 }) true true
2 7 1 ffff > Ok(Send { conn: 7, at: 1, len: 65535 }) false false
3 18 > Ok(Allocate(Malloc { size: 24 })) true true
4 1 > Ok(Free { at: 1 }) true true
5 3 > Ok(Exit { code: 3 }) true true
6 9 > Ok(Assert { code: 9 }) true true
7 3 18 > Ok(Allocate(Calloc { count: 3, size: 24 })) true true
8 1 18 > Ok(Allocate(Realloc { old: 1, size: 24 })) true true
0 > Err(BadCall) false false
9 > Err(BadCall) false false
";

// The connections once an open of 7, 8 and 4096, a close of 8 and a message of 9 were taken.
fn some_connections(alloc: Global) -> Result<ConnSet, AllocError> {
    let mut connections = ConnSet::make(alloc)?;
    for (kind, conn) in [(1, 7), (1, 8), (1, 4096), (3, 8), (2, 9)] {
        let bytes = Bytes::from_vec(Vec::new(alloc));
        connections.take(&Item { kind, conn, bytes });
    }
    Ok(connections)
}

// What the registers of a row make, as words.
fn made(
    alloc: Global,
    space: &GuestSpace,
    book: &Book,
    connections: &ConnSet,
    row: &str,
) -> Result<String, Fail> {
    let mut numbers = [0; 4];
    read_numbers(row, &mut numbers)?;
    let mut x = [0; 32];
    [x[17], x[10], x[11], x[12]] = numbers;
    let read = read_call(&Regs { pc: 0, x });
    let (any, even) = match read {
        Ok(call) => (
            check_call(&call, space, book, &AllMapped, connections).is_ok(),
            check_call(&call, space, book, &EvenAlone, connections).is_ok(),
        ),
        Err(_) => (false, false),
    };
    Ok(format!(in alloc; "{read:?} {any} {even}")?)
}

// What stays of the connections when one is added and one removed, in a copy.
fn try_copy(rt: &impl Abort, alloc: Global, connections: &mut ConnSet) -> Result<(), Fail> {
    connections.add(4095);
    connections.remove(7);
    let mut copy = ConnSet::make(alloc)?;
    copy.copy_from(connections);
    for (conn, is_open) in [
        (7, false),
        (8, false),
        (9, false),
        (4095, true),
        (4096, false),
    ] {
        assert!(rt; copy.has(conn) == is_open, "{conn}");
    }
    Ok(())
}

fn try_calls(
    rt: &impl Abort,
    alloc: Global,
    space: &GuestSpace,
    book: &Book,
    connections: &ConnSet,
) -> Result<(), Fail> {
    for row in CALLS.lines() {
        let (columns, wanted) = row.split_once(" > ").ok_or("no row")?;
        let call = made(alloc, space, book, connections, columns)?;
        assert!(rt; call.as_str() == wanted, "{row}, and not {call}");
    }
    Ok(())
}

#[test]
fn calls_are_read_and_checked(rt: HostRuntime) -> Result<(), Fail> {
    let book = Book::make(rt.alloc(), 0x11000, 0x12000)?;
    let connections = some_connections(rt.alloc())?;
    let space = space_of(rt.alloc(), &TEXT_AND_DATA)?;
    try_calls(&rt, rt.alloc(), &space, &book, &connections)
}

#[test]
fn connections_are_copied(rt: HostRuntime) -> Result<(), Fail> {
    let mut connections = some_connections(rt.alloc())?;
    try_copy(&rt, rt.alloc(), &mut connections)
}
