// What single instructions do: the words are by the formats of the manual, the values are worked out from its text.
ghost use Rattle.std.specs.Prelude.{◌≡◌, ◌+◌, ◌<◌, ◌||◌, nat_lt, nat_le};

use crate::rows::{read_numbers, space_of};
use block_book::Book;
use guest_space::{AccessRule, AllMapped, BadAccess, GuestSpace};
use run_history::{Cause, Regs};
use rv_exec::step;
use rv_isa::{Instr, decode};
use rx_base::Steps;
use std::alloc::Global;
use std::marker::Brand;
use std::process::Abort;
use std::sync::ledger::{Blank, Ledger};
use std::test::Fail;

// An executable of one segment with the eight bytes of `USUAL` at 0x10000, byte by byte from the System V ABI's "ELF Header" and
// "Program Header". No byte follows them up to 0x11000.
#[rattlefmt::skip]
static FILE: [u8; 92] = [
    0x7f, 0x45, 0x4c, 0x46, 1, 1, 1, 0, 0, 0, 0, 0, 0, 0, 0, 0, // e_ident
    2, 0, 243, 0, 1, 0, 0, 0, // e_type, e_machine, e_version
    0, 0, 1, 0, 52, 0, 0, 0, 0, 0, 0, 0, 0, 0, 0, 0, // e_entry, e_phoff, e_shoff, e_flags
    52, 0, 32, 0, 1, 0, 0, 0, 0, 0, 0, 0, // e_ehsize, e_phentsize, e_phnum, and no sections
    1, 0, 0, 0, 84, 0, 0, 0, 0, 0, 1, 0, 0, 0, 1, 0, // PT_LOAD, p_offset, p_vaddr, p_paddr
    8, 0, 0, 0, 8, 0, 0, 0, 7, 0, 0, 0, 1, 0, 0, 0, // p_filesz, p_memsz, p_flags, p_align
    0x80, 0x7f, 0xff, 0x01, 0x34, 0x92, 0x56, 0xf8,
];

// What x7 and the words at 0x10000 hold before.
const MARK: u32 = 0x5555_5555;

const LOW: u32 = 0x01ff_7f80;

const HIGH: u32 = 0xf856_9234;

// A row has what the instruction gives, and in hexadecimal digits its word, x5 and x6 before it, and behind it pc, x7 and the words at
// 0x10000. These are what stands here, unless the row says otherwise: the program counter is behind the instruction.
const USUAL: [u32; 7] = [0, 0, 0, 0x0001_0004, MARK, LOW, HIGH];

// Operations on two registers.
const OPERATIONS: &str = "\
Ok(()) 006283b3 12345678 87654321 - 99999999 # add x7, x5, x6
Ok(()) 006283b3 ffffffff 1 - 0 # add x7, x5, x6
Ok(()) 006283b3 7fffffff 1 - 80000000 # add x7, x5, x6
Ok(()) 406283b3 0 1 - ffffffff # sub x7, x5, x6
Ok(()) 406283b3 80000000 1 - 7fffffff # sub x7, x5, x6
Ok(()) 406283b3 3e8 1 - 3e7 # sub x7, x5, x6
Ok(()) 006293b3 1 1f - 80000000 # sll x7, x5, x6
Ok(()) 006293b3 deadbeef 4 - eadbeef0 # sll x7, x5, x6
Ok(()) 006293b3 1 ffffffe1 - 2 # sll x7, x5, x6
Ok(()) 0062a3b3 ffffffff 0 - 1 # slt x7, x5, x6
Ok(()) 0062a3b3 0 ffffffff - 0 # slt x7, x5, x6
Ok(()) 0062a3b3 5 5 - 0 # slt x7, x5, x6
Ok(()) 0062b3b3 ffffffff 0 - 0 # sltu x7, x5, x6
Ok(()) 0062b3b3 0 ffffffff - 1 # sltu x7, x5, x6
Ok(()) 0062b3b3 5 5 - 0 # sltu x7, x5, x6
Ok(()) 0062c3b3 ffffffff 12345678 - edcba987 # xor x7, x5, x6
Ok(()) 0062c3b3 f0f0f0f0 ff00ff00 - ff00ff0 # xor x7, x5, x6
Ok(()) 0062c3b3 7 7 - 0 # xor x7, x5, x6
Ok(()) 0062d3b3 80000000 4 - 8000000 # srl x7, x5, x6
Ok(()) 0062d3b3 deadbeef 10 - dead # srl x7, x5, x6
Ok(()) 0062d3b3 80000000 ffffffe1 - 40000000 # srl x7, x5, x6
Ok(()) 4062d3b3 80000000 4 - f8000000 # sra x7, x5, x6
Ok(()) 4062d3b3 deadbeef 10 - ffffdead # sra x7, x5, x6
Ok(()) 4062d3b3 7eadbeef 10 - 7ead # sra x7, x5, x6
Ok(()) 0062e3b3 f0f0f0f f0f00000 - ffff0f0f # or x7, x5, x6
Ok(()) 0062e3b3 0 80000001 - 80000001 # or x7, x5, x6
Ok(()) 0062e3b3 ffffffff 7 - ffffffff # or x7, x5, x6
Ok(()) 0062f3b3 f0f0f0f ff00ff00 - f000f00 # and x7, x5, x6
Ok(()) 0062f3b3 ffffffff 80000001 - 80000001 # and x7, x5, x6
Ok(()) 0062f3b3 8 7 - 0 # and x7, x5, x6
Ok(()) 026283b3 12345678 87654321 - 70b88d78 # mul x7, x5, x6
Ok(()) 026283b3 ffffffff ffffffff - 1 # mul x7, x5, x6
Ok(()) 026283b3 10000 10001 - 10000 # mul x7, x5, x6
Ok(()) 026293b3 12345678 87654321 - f76c768d # mulh x7, x5, x6
Ok(()) 026293b3 80000000 2 - ffffffff # mulh x7, x5, x6
Ok(()) 026293b3 80000000 ffffffff - 0 # mulh x7, x5, x6
Ok(()) 0262a3b3 12345678 87654321 - 9a0cd05 # mulhsu x7, x5, x6
Ok(()) 0262a3b3 ffffffff 2 - ffffffff # mulhsu x7, x5, x6
Ok(()) 0262a3b3 80000000 80000000 - c0000000 # mulhsu x7, x5, x6
Ok(()) 0262b3b3 12345678 87654321 - 9a0cd05 # mulhu x7, x5, x6
Ok(()) 0262b3b3 80000000 80000000 - 40000000 # mulhu x7, x5, x6
Ok(()) 0262b3b3 ffffffff 2 - 1 # mulhu x7, x5, x6
Ok(()) 0262c3b3 64 fffffff9 - fffffff2 # div x7, x5, x6
Ok(()) 0262c3b3 80000000 ffffffff - 80000000 # div x7, x5, x6
Ok(()) 0262c3b3 5 0 - ffffffff # div x7, x5, x6
Ok(()) 0262d3b3 64 7 - e # divu x7, x5, x6
Ok(()) 0262d3b3 80000000 ffffffff - 0 # divu x7, x5, x6
Ok(()) 0262d3b3 5 0 - ffffffff # divu x7, x5, x6
Ok(()) 0262e3b3 64 fffffff9 - 2 # rem x7, x5, x6
Ok(()) 0262e3b3 80000000 ffffffff - 0 # rem x7, x5, x6
Ok(()) 0262e3b3 ffffff9c 7 - fffffffe # rem x7, x5, x6
Ok(()) 0262f3b3 64 7 - 2 # remu x7, x5, x6
Ok(()) 0262f3b3 80000000 ffffffff - 80000000 # remu x7, x5, x6
Ok(()) 0262f3b3 5 0 - 5 # remu x7, x5, x6
";

// Operations on an immediate.
const IMMEDIATES: &str = "\
Ok(()) ffa28393 5 0 - ffffffff # addi x7, x5, -6
Ok(()) 7ff28393 ffffffff 0 - 7fe # addi x7, x5, 2047
Ok(()) 80028393 12345678 0 - 12344e78 # addi x7, x5, -2048
Ok(()) 8002a393 fffff7ff 0 - 1 # slti x7, x5, -2048
Ok(()) fff2a393 5 0 - 0 # slti x7, x5, -1
Ok(()) 0062a393 5 0 - 1 # slti x7, x5, 6
Ok(()) fff2b393 5 0 - 1 # sltiu x7, x5, -1
Ok(()) fff2b393 ffffffff 0 - 0 # sltiu x7, x5, -1
Ok(()) 0012b393 0 0 - 1 # sltiu x7, x5, 1
Ok(()) fff2c393 12345678 0 - edcba987 # xori x7, x5, -1
Ok(()) 7ff2c393 12345678 0 - 12345187 # xori x7, x5, 2047
Ok(()) 8002c393 0 0 - fffff800 # xori x7, x5, -2048
Ok(()) ff02e393 12345678 0 - fffffff8 # ori x7, x5, -16
Ok(()) 7ff2e393 0 0 - 7ff # ori x7, x5, 2047
Ok(()) 0012e393 80000000 0 - 80000001 # ori x7, x5, 1
Ok(()) ff02f393 12345678 0 - 12345670 # andi x7, x5, -16
Ok(()) 7ff2f393 12345678 0 - 678 # andi x7, x5, 2047
Ok(()) 8002f393 ffffffff 0 - fffff800 # andi x7, x5, -2048
Ok(()) 00029393 deadbeef 0 - deadbeef # slli x7, x5, 0
Ok(()) 00429393 deadbeef 0 - eadbeef0 # slli x7, x5, 4
Ok(()) 01f29393 3 0 - 80000000 # slli x7, x5, 31
Ok(()) 0002d393 deadbeef 0 - deadbeef # srli x7, x5, 0
Ok(()) 0042d393 deadbeef 0 - deadbee # srli x7, x5, 4
Ok(()) 01f2d393 80000000 0 - 1 # srli x7, x5, 31
Ok(()) 4002d393 deadbeef 0 - deadbeef # srai x7, x5, 0
Ok(()) 4042d393 deadbeef 0 - fdeadbee # srai x7, x5, 4
Ok(()) 41f2d393 80000000 0 - ffffffff # srai x7, x5, 31
Ok(()) 000013b7 0 0 - 1000 # lui x7, 0x00001
Ok(()) fffff3b7 0 0 - fffff000 # lui x7, 0xfffff
Ok(()) 800003b7 0 0 - 80000000 # lui x7, 0x80000
Ok(()) 00001397 0 0 - 11000 # auipc x7, 0x00001
Ok(()) fffff397 0 0 - f000 # auipc x7, 0xfffff
Ok(()) fffef397 0 0 - fffff000 # auipc x7, 0xfffef
";

// Jumps.
const JUMPS: &str = "\
Ok(()) 008003ef 0 0 10008 10004 # jal x7, 8
Ok(()) 800003ef 0 0 fff10000 10004 # jal x7, -1048576
Ok(()) 7fdff3ef 0 0 10fffc 10004 # jal x7, 1048572
Ok(()) ffc283e7 20000 0 1fffc 10004 # jalr x7, -4(x5)
Ok(()) 003283e7 1fffe 0 20000 10004 # jalr x7, 3(x5)
Ok(()) 000283e7 0 0 0 10004 # jalr x7, 0(x5)
Ok(()) 009283e7 fffffff8 0 0 10004 # jalr x7, 9(x5)
Ok(()) 0100006f 0 0 10010 # jal x0, 16
Ok(()) 008383e7 0 0 5555555c 10004 # jalr x7, 8(x7)
";

// Branches and orderings.
const BRANCHES: &str = "\
Ok(()) fe628ce3 5 5 fff8 # beq x5, x6, -8
Ok(()) 7e628ee3 5 6 # beq x5, x6, 4092
Ok(()) 80628063 80000000 0 # beq x5, x6, -4096
Ok(()) fe629ce3 5 5 # bne x5, x6, -8
Ok(()) 7e629ee3 5 6 10ffc # bne x5, x6, 4092
Ok(()) 80629063 80000000 0 f000 # bne x5, x6, -4096
Ok(()) fe62cce3 ffffffff 0 fff8 # blt x5, x6, -8
Ok(()) 7e62cee3 0 ffffffff # blt x5, x6, 4092
Ok(()) 8062c063 5 5 # blt x5, x6, -4096
Ok(()) fe62dce3 ffffffff 0 # bge x5, x6, -8
Ok(()) 7e62dee3 0 ffffffff 10ffc # bge x5, x6, 4092
Ok(()) 8062d063 5 5 f000 # bge x5, x6, -4096
Ok(()) fe62ece3 ffffffff 0 # bltu x5, x6, -8
Ok(()) 7e62eee3 0 ffffffff 10ffc # bltu x5, x6, 4092
Ok(()) 8062e063 5 5 # bltu x5, x6, -4096
Ok(()) fe62fce3 ffffffff 0 fff8 # bgeu x5, x6, -8
Ok(()) 7e62fee3 0 ffffffff # bgeu x5, x6, 4092
Ok(()) 8062f063 5 5 f000 # bgeu x5, x6, -4096
Ok(()) 00628363 5 6 # beq x5, x6, 6
Ok(()) 0ff0000f 5 5 # fence iorw, iorw
Ok(()) 8330000f 5 5 # fence.tso
Ok(()) 0002838f 5 5 # fence with rd and rs1
";

// Loads from the words at 0x10000.
const LOADS: &str = "\
Ok(()) 00028383 10000 0 - ffffff80 # lb x7, 0(x5)
Ok(()) 00028383 10001 0 - 7f # lb x7, 0(x5)
Ok(()) ffe28383 10009 0 - fffffff8 # lb x7, -2(x5)
Ok(()) 00029383 10000 0 - 7f80 # lh x7, 0(x5)
Ok(()) 00029383 10003 0 - 3401 # lh x7, 0(x5)
Ok(()) ffd29383 10009 0 - fffff856 # lh x7, -3(x5)
Ok(()) 0002a383 10000 0 - 1ff7f80 # lw x7, 0(x5)
Ok(()) 0012a383 10003 0 - f8569234 # lw x7, 1(x5)
Ok(()) 8022a383 107ff 0 - 3401ff7f # lw x7, -2046(x5)
Ok(()) 0002c383 10000 0 - 80 # lbu x7, 0(x5)
Ok(()) 0002c383 10001 0 - 7f # lbu x7, 0(x5)
Ok(()) ffe2c383 10009 0 - f8 # lbu x7, -2(x5)
Ok(()) 0002d383 10000 0 - 7f80 # lhu x7, 0(x5)
Ok(()) 0002d383 10003 0 - 3401 # lhu x7, 0(x5)
Ok(()) ffd2d383 10009 0 - f856 # lhu x7, -3(x5)
";

// Stores into the words at 0x10000.
const STORES: &str = "\
Ok(()) 00628023 10000 12345678 - - 01ff7f78 # sb x6, 0(x5)
Ok(()) fe628f23 10009 fedcba98 - - - 98569234 # sb x6, -2(x5)
Ok(()) 00628123 10001 12345678 - - 78ff7f80 # sb x6, 2(x5)
Ok(()) 00629023 10000 12345678 - - 01ff5678 # sh x6, 0(x5)
Ok(()) 006290a3 10005 12345678 - - - 56789234 # sh x6, 1(x5)
Ok(()) fe629fa3 10004 fedcba98 - - 98ff7f80 f85692ba # sh x6, -1(x5)
Ok(()) 0062a023 10000 12345678 - - 12345678 # sw x6, 0(x5)
Ok(()) fe62ae23 10008 fedcba98 - - - fedcba98 # sw x6, -4(x5)
Ok(()) 0062a123 10000 12345678 - - 56787f80 f8561234 # sw x6, 2(x5)
";

// What fails where the last byte is at 0x10007.
const FAILURES: &str = "\
Err(BadJump) 002003ef 0 0 10000 # jal x7, 2
Err(BadJump) ffbff3ef 0 0 10000 # jal x7, -6
Err(BadJump) 002283e7 20000 0 10000 # jalr x7, 2(x5)
Err(BadJump) 003283e7 20000 0 10000 # jalr x7, 3(x5)
Err(BadJump) 00628363 0 0 10000 # beq x5, x6, 6
Err(BadJump) 00629363 1 0 10000 # bne x5, x6, 6
Err(BadJump) 0062c363 ffffffff 0 10000 # blt x5, x6, 6
Err(BadJump) 0062d363 1 0 10000 # bge x5, x6, 6
Err(BadJump) 00506363 1 0 10000 # bltu x0, x5, 6
Err(BadJump) 0062f363 1 0 10000 # bgeu x5, x6, 6
Err(BadAccess) 00028383 10008 0 10000 # lb x7, 0(x5)
Err(BadAccess) 00029383 10007 0 10000 # lh x7, 0(x5)
Err(BadAccess) 0002a383 10005 0 10000 # lw x7, 0(x5)
Err(BadAccess) 0002c383 ffffffff 0 10000 # lbu x7, 0(x5)
Err(BadAccess) 0002d383 ffffffff 0 10000 # lhu x7, 0(x5)
Err(BadAccess) 00628023 10008 0 10000 # sb x6, 0(x5)
Err(BadAccess) 00629023 10007 0 10000 # sh x6, 0(x5)
Err(BadAccess) 0062a023 ffff 0 10000 # sw x6, 0(x5)
Err(AssertFailed(0)) 00100073 0 0 10000 # ebreak
Err(AssertFailed(0)) 00100073 1 0 10000 # ebreak
Err(AssertFailed(0)) 00100073 ffffffff 0 10000 # ebreak
";

// What touches 0x10002 where a rule refuses that, and what touches the bytes beside it, or none.
const GUARDED: &str = "\
Err(BadAccess) 00028383 10002 0 10000 # lb x7, 0(x5)
Err(BadAccess) 00029383 10001 0 10000 # lh x7, 0(x5)
Err(BadAccess) 0002a383 10000 0 10000 # lw x7, 0(x5)
Err(BadAccess) 0002d383 10002 0 10000 # lhu x7, 0(x5)
Err(BadAccess) 00628023 10002 0 10000 # sb x6, 0(x5)
Err(BadAccess) 00629023 10001 0 10000 # sh x6, 0(x5)
Err(BadAccess) 0062a023 10002 0 10000 # sw x6, 0(x5)
Ok(()) 00028383 10001 0 - 7f # lb x7, 0(x5)
Ok(()) 00029383 10003 0 - 3401 # lh x7, 0(x5)
Ok(()) 0002d383 10000 0 - 7f80 # lhu x7, 0(x5)
Ok(()) 006283b3 10002 1 - 10003 # add x7, x5, x6
";

// A rule that refuses what touches one address.
#[derive(Drop)]
struct Guarded {
    address: u32,
}

impl AccessRule for Guarded {
    ghost rule = { λ guarded heap first count. nat_lt guarded.address first || nat_le (first + count) guarded.address };

    fn permits(&self, _book: &Book, at: u32, len: u32) -> bool
        ensures { result ≡ (nat_lt self.now.address at || nat_le (at + len) self.now.address) }
    {
        self.address < at || u64::from(at) + u64::from(len) <= u64::from(self.address)
    }
}

// What an instruction gave, and what it left in the registers and in the words at 0x10000.
type After = (Result<(), Cause>, Regs, [Result<u32, BadAccess>; 2]);

// Registers with these values in pc, x5, x6 and x7, and zeros else.
fn registers(pc: u32, first: u32, second: u32, third: u32) -> Regs {
    let mut regs = Regs { pc, x: [0; 32] };
    regs.x[5] = first;
    regs.x[6] = second;
    regs.x[7] = third;
    regs
}

// What the instruction of a word that is no call does at 0x10000, with these values in x5 and x6, and the mark in x7.
fn try_word<R: AccessRule, L: Ledger>(
    space: &mut GuestSpace,
    book: &Book,
    rule: &R,
    steps: &mut Steps<L>,
    [word, first, second]: [u32; 3],
) -> After {
    let mut regs = registers(0x10000, first, second, MARK);
    let _ = space.store(0x10000, 4, LOW);
    let _ = space.store(0x10004, 4, HIGH);
    let result = match decode(word) {
        Some(Instr::Ecall) | None => Err(Cause::BadInstruction),
        Some(instr) => step(&mut regs, space, book, rule, &instr, steps),
    };
    let words = [space.load(0x10000, 4), space.load(0x10004, 4)];
    (result, regs, words)
}

// Does the instruction of a row, and compares all registers and both words.
fn try_row<R: AccessRule, L: Ledger>(
    rt: &impl Abort,
    alloc: Global,
    space: &mut GuestSpace,
    book: &Book,
    rule: &R,
    steps: &mut Steps<L>,
    row: &str,
) -> Result<(), Fail> {
    let (wanted, columns) = row.split_once(' ').ok_or("no row")?;
    let mut numbers = USUAL;
    read_numbers(columns, &mut numbers)?;
    let [word, first, second, pc, third, low, high] = numbers;
    let (given, regs, words) = try_word(space, book, rule, steps, [word, first, second]);
    let given = format!(in alloc; "{given:?}")?;
    let is_so = regs == registers(pc, first, second, third) && words == [Ok(low), Ok(high)];
    assert!(rt; is_so && given.as_str() == wanted, "{row}");
    Ok(())
}

// Does the instructions of a table, each at the same place.
fn try_rows<R: AccessRule, L: Ledger>(
    rt: &impl Abort,
    alloc: Global,
    space: &mut GuestSpace,
    book: &Book,
    rule: &R,
    steps: &mut Steps<L>,
    rows: &str,
) -> Result<(), Fail> {
    for row in rows.lines() {
        try_row(rt, alloc, space, book, rule, steps, row)?;
    }
    Ok(())
}

// Does the instructions of all tables.
fn try_tables<L: Ledger>(
    rt: &impl Abort,
    alloc: Global,
    space: &mut GuestSpace,
    book: &Book,
    steps: &mut Steps<L>,
) -> Result<(), Fail> {
    for rows in [
        OPERATIONS, IMMEDIATES, JUMPS, BRANCHES, LOADS, STORES, FAILURES,
    ] {
        try_rows(rt, alloc, space, book, &AllMapped, steps, rows)?;
    }
    let rule = Guarded { address: 0x10002 };
    try_rows(rt, alloc, space, book, &rule, steps, GUARDED)
}

fn try_all<L: Ledger>(rt: &impl Abort, alloc: Global, blank: Blank) -> Result<(), Fail>
    requires name { blank.name ≡ L.name }
    requires parts { blank.parts ≡ L.parts }
    requires some { 0 < blank.parts }
{
    let mut steps = Steps::<L>::start(blank);
    let book = Book::make(alloc, 16, 16)?;
    let mut space = space_of(alloc, &FILE)?;
    try_tables(rt, alloc, &mut space, &book, &mut steps)
}

#[test]
fn each_instruction_does_what_the_manual_says(rt: HostRuntime) -> Result<(), Fail> {
    try_all::<Brand>(&rt, rt.alloc(), Blank::new(1))
}
