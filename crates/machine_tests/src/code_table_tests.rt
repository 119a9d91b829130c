// The entries of six words, by hand from the manual's formats.
use code_table::{CodeTable, EntryOp};
use std::test::Fail;

// From 0x1000 on, the lowest byte first: lui x5, 0x12345; addi x0, x5, -1; beq x5, x6, -8; jal x1, 12; ecall; lw x7, 8(x2).
static CODE: [u8; 24] = [
    0xb7, 0x52, 0x34, 0x12, 0x13, 0x80, 0xf2, 0xff, 0xe3, 0x8c, 0x62, 0xfe, 0xef, 0x00, 0xc0, 0x00,
    0x73, 0x00, 0x00, 0x00, 0x83, 0x23, 0x81, 0x00,
];

// An entry that says its instruction: number, operation, each register that it has, and the immediate.
type Told = (usize, EntryOp, u8, u8, u8, i32);

// The branch goes to the first.
static TOLD: [Told; 4] = [
    (0, EntryOp::Set, 5, 0, 0, 0x1234_5000),
    (1, EntryOp::Addi, 32, 5, 0, -1),
    (2, EntryOp::Beq, 32, 5, 6, 0),
    (5, EntryOp::Lw, 7, 2, 0, 8),
];

// Entries that stop: the jump, which goes to the place behind the last word, the call, and the one behind the last word.
static STOPS: [usize; 3] = [3, 4, 6];

// Whether an entry says these.
fn says(table: &CodeTable, (number, op, rd, rs1, rs2, imm): Told) -> bool {
    if number >= table.len() {
        return false;
    }
    let entry = table.entry(number);
    entry.op == op && entry.rd == rd && entry.rs1 == rs1 && entry.rs2 == rs2 && entry.imm == imm
}

// Whether an entry stops.
fn stops(table: &CodeTable, number: usize) -> bool {
    number < table.len() && table.entry(number).op == EntryOp::Stop
}

#[test]
fn a_table_of_six_words(rt: HostRuntime) -> Result<(), Fail> {
    let table = CodeTable::make(rt.alloc(), 0x1000, &CODE)?;
    assert!(rt; table.start() == 0x1000 && table.len() == 7);
    for told in TOLD {
        assert!(rt; says(&table, told), "{}", told.0);
    }
    for number in STOPS {
        assert!(rt; stops(&table, number), "{number}");
    }
    Ok(())
}

#[test]
fn a_table_of_no_word(rt: HostRuntime) -> Result<(), Fail> {
    let table = CodeTable::none(rt.alloc())?;
    assert!(rt; table.len() == 1 && stops(&table, 0));
    Ok(())
}
