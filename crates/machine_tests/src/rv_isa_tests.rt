// Words with the operands that they hold, what no word says, and what some operations give. That the code does what the table says, and
// that the table is the listing, are clauses and laws of `rv_isa`; what each instruction does is in the tests of `rv_exec`.
use rv_isa::{
    BranchOp, ImmOp, Instr, LoadOp, RegOp, StoreOp, alu, decode, decode_of_encode, encode,
    table_is_the_listing,
};

// Words of each operation, with the greatest and least immediates of each format. Most were assembled from the instruction's text by the
// GNU assembler (2.40, `-march=rv32im`); the others were worked out by hand from the manual's formats, as the two orderings: fence.tso, and
// one with fields that the manual reserves.
#[rattlefmt::skip]
static WORDS: [(u32, Instr); 56] = [
    (0x8000_02b7, Instr::Lui { rd: 5, imm: -2147483648 }),
    (0x7fff_ffb7, Instr::Lui { rd: 31, imm: 2147479552 }),
    (0x0000_1017, Instr::Auipc { rd: 0, imm: 4096 }),
    (0x8000_00ef, Instr::Jal { rd: 1, imm: -1048576 }),
    (0x7fff_f06f, Instr::Jal { rd: 0, imm: 1048574 }),
    (0x0010_036f, Instr::Jal { rd: 6, imm: 2048 }),
    (0x8002_8fe7, Instr::Jalr { rd: 31, rs1: 5, imm: -2048 }),
    (0x7fff_80e7, Instr::Jalr { rd: 1, rs1: 31, imm: 2047 }),
    (0x8020_8063, Instr::Branch { op: BranchOp::Beq, rs1: 1, rs2: 2, imm: -4096 }),
    (0x7e0f_9fe3, Instr::Branch { op: BranchOp::Bne, rs1: 31, rs2: 0, imm: 4094 }),
    (0x01f0_4163, Instr::Branch { op: BranchOp::Blt, rs1: 0, rs2: 31, imm: 2 }),
    (0x8020_d063, Instr::Branch { op: BranchOp::Bge, rs1: 1, rs2: 2, imm: -4096 }),
    (0x7e0f_efe3, Instr::Branch { op: BranchOp::Bltu, rs1: 31, rs2: 0, imm: 4094 }),
    (0x01f0_7163, Instr::Branch { op: BranchOp::Bgeu, rs1: 0, rs2: 31, imm: 2 }),
    (0xfe56_0fe3, Instr::Branch { op: BranchOp::Beq, rs1: 12, rs2: 5, imm: -2 }),
    (0x0056_10e3, Instr::Branch { op: BranchOp::Bne, rs1: 12, rs2: 5, imm: 2048 }),
    (0x8001_0083, Instr::Load { op: LoadOp::Lb, rd: 1, rs1: 2, imm: -2048 }),
    (0x7ff0_1f83, Instr::Load { op: LoadOp::Lh, rd: 31, rs1: 0, imm: 2047 }),
    (0xffff_a003, Instr::Load { op: LoadOp::Lw, rd: 0, rs1: 31, imm: -1 }),
    (0x8001_4083, Instr::Load { op: LoadOp::Lbu, rd: 1, rs1: 2, imm: -2048 }),
    (0x7ff0_5f83, Instr::Load { op: LoadOp::Lhu, rd: 31, rs1: 0, imm: 2047 }),
    (0x8011_0023, Instr::Store { op: StoreOp::Sb, rs1: 2, rs2: 1, imm: -2048 }),
    (0x7ff0_1fa3, Instr::Store { op: StoreOp::Sh, rs1: 0, rs2: 31, imm: 2047 }),
    (0xfe0f_afa3, Instr::Store { op: StoreOp::Sw, rs1: 31, rs2: 0, imm: -1 }),
    (0x02b5_2023, Instr::Store { op: StoreOp::Sw, rs1: 10, rs2: 11, imm: 32 }),
    (0x8001_0093, Instr::OpImm { op: ImmOp::Addi, rd: 1, rs1: 2, imm: -2048 }),
    (0x7ff0_2f93, Instr::OpImm { op: ImmOp::Slti, rd: 31, rs1: 0, imm: 2047 }),
    (0xffff_b013, Instr::OpImm { op: ImmOp::Sltiu, rd: 0, rs1: 31, imm: -1 }),
    (0x8001_4093, Instr::OpImm { op: ImmOp::Xori, rd: 1, rs1: 2, imm: -2048 }),
    (0x7ff0_6f93, Instr::OpImm { op: ImmOp::Ori, rd: 31, rs1: 0, imm: 2047 }),
    (0xffff_f013, Instr::OpImm { op: ImmOp::Andi, rd: 0, rs1: 31, imm: -1 }),
    (0x0001_1093, Instr::OpImm { op: ImmOp::Slli, rd: 1, rs1: 2, imm: 0 }),
    (0x01f0_5f93, Instr::OpImm { op: ImmOp::Srli, rd: 31, rs1: 0, imm: 31 }),
    (0x411f_d013, Instr::OpImm { op: ImmOp::Srai, rd: 0, rs1: 31, imm: 17 }),
    (0x0031_00b3, Instr::Op { op: RegOp::Add, rd: 1, rs1: 2, rs2: 3 }),
    (0x4110_0fb3, Instr::Op { op: RegOp::Sub, rd: 31, rs1: 0, rs2: 17 }),
    (0x01ef_9033, Instr::Op { op: RegOp::Sll, rd: 0, rs1: 31, rs2: 30 }),
    (0x0031_20b3, Instr::Op { op: RegOp::Slt, rd: 1, rs1: 2, rs2: 3 }),
    (0x0110_3fb3, Instr::Op { op: RegOp::Sltu, rd: 31, rs1: 0, rs2: 17 }),
    (0x01ef_c033, Instr::Op { op: RegOp::Xor, rd: 0, rs1: 31, rs2: 30 }),
    (0x0031_50b3, Instr::Op { op: RegOp::Srl, rd: 1, rs1: 2, rs2: 3 }),
    (0x4110_5fb3, Instr::Op { op: RegOp::Sra, rd: 31, rs1: 0, rs2: 17 }),
    (0x01ef_e033, Instr::Op { op: RegOp::Or, rd: 0, rs1: 31, rs2: 30 }),
    (0x0031_70b3, Instr::Op { op: RegOp::And, rd: 1, rs1: 2, rs2: 3 }),
    (0x0310_0fb3, Instr::Op { op: RegOp::Mul, rd: 31, rs1: 0, rs2: 17 }),
    (0x03ef_9033, Instr::Op { op: RegOp::Mulh, rd: 0, rs1: 31, rs2: 30 }),
    (0x0231_20b3, Instr::Op { op: RegOp::Mulhsu, rd: 1, rs1: 2, rs2: 3 }),
    (0x0310_3fb3, Instr::Op { op: RegOp::Mulhu, rd: 31, rs1: 0, rs2: 17 }),
    (0x03ef_c033, Instr::Op { op: RegOp::Div, rd: 0, rs1: 31, rs2: 30 }),
    (0x0231_50b3, Instr::Op { op: RegOp::Divu, rd: 1, rs1: 2, rs2: 3 }),
    (0x0310_6fb3, Instr::Op { op: RegOp::Rem, rd: 31, rs1: 0, rs2: 17 }),
    (0x03ef_f033, Instr::Op { op: RegOp::Remu, rd: 0, rs1: 31, rs2: 30 }),
    (0x8330_000f, Instr::Fence { word: 0x8330_000f }),
    (0xfff8_8f8f, Instr::Fence { word: 0xfff8_8f8f }),
    (0x0000_0073, Instr::Ecall),
    (0x0010_0073, Instr::Ebreak),
];

static NO_ROWS: [u32; 28] = [
    0x0000_0000,
    0xffff_ffff,
    0x0000_100f, // fence.i
    0x3410_2073, // csrrs
    0x3020_0073, // mret
    0x1050_0073, // wfi
    0x0000_00f3, // ecall with a register
    0x0020_0073, // the word behind ebreak's
    0x0000_1067, // jalr with funct3 001
    0x0000_2063, // branches with funct3 010 and 011
    0x0000_3063,
    0x0000_3003, // ld
    0x0000_6003, // lwu
    0x0000_3023, // sd
    0x0000_4023,
    0x4000_1013, // shifts with a funct7 of another
    0x0200_1013,
    0x0200_5013,
    0x6000_5013,
    0x4000_1033, // sll, xor and and with sub's funct7
    0x4000_4033,
    0x4000_7033,
    0x0400_0033,
    0x0000_001b, // addiw
    0x0000_003b, // addw
    0x0000_202f, // lr.w
    0x0000_0001, // c.nop
    0x0000_4501, // c.li
];

/// The number of words that decode, of a million pseudo-random ones, by a program that was written from the manual
/// alone: tools/count_words.py at the top of the repository.
const COUNT_OF_THE_LISTING: u32 = 45063;

// Whether a word is this instruction, and this instruction that word.
fn is_instruction(word: u32, instr: Instr) -> bool {
    match decode(word) {
        Some(found) => {
            table_is_the_listing(word);
            found == instr && encode(&found) == word && decode_of_encode(&found) == Some(instr)
        }
        None => false,
    }
}

// How many of a million pseudo-random words decode.
fn count_of_words() -> u32 {
    let mut word = 0_u32;
    let mut count = 0_u32;
    for _ in 0..1_000_000 {
        word = word.wrapping_mul(1_664_525).wrapping_add(1_013_904_223);
        if decode(word).is_some() {
            count = count.saturating_add(1);
        }
    }
    count
}

#[test]
fn words_are_instructions(rt: HostRuntime) {
    for (word, instr) in WORDS {
        assert!(rt; is_instruction(word, instr), "{word:08x}");
    }
    for word in NO_ROWS {
        assert!(rt; decode(word).is_none(), "{word:08x}");
    }
    assert_eq!(rt; count_of_words(), COUNT_OF_THE_LISTING);
}

const LEAST: u32 = 0x8000_0000;

const MINUS_ONE: u32 = 0xffff_ffff;

const MINUS_SEVEN: u32 = 0xffff_fff9;

// Operation, operands, and what the manual's text and tables give for them: the low five bits of a shift's amount, signs, the high
// words of products, and divisions by zero and with an overflow.
static VALUES: [(RegOp, u32, u32, u32); 20] = [
    (RegOp::Sll, 3, 33, 6),
    (RegOp::Srl, MINUS_ONE, 32, MINUS_ONE),
    (RegOp::Sra, MINUS_SEVEN, 1, 0xffff_fffc),
    (RegOp::Slt, LEAST, 0x7fff_ffff, 1),
    (RegOp::Sltu, LEAST, 0x7fff_ffff, 0),
    (RegOp::Mulh, LEAST, 0x7fff_ffff, 0xc000_0000),
    (RegOp::Mulhsu, LEAST, MINUS_ONE, LEAST),
    (RegOp::Mulhu, MINUS_ONE, MINUS_ONE, 0xffff_fffe),
    (RegOp::Div, LEAST, MINUS_ONE, LEAST),
    (RegOp::Div, LEAST, 0, MINUS_ONE),
    (RegOp::Div, MINUS_SEVEN, 2, 0xffff_fffd),
    (RegOp::Div, MINUS_SEVEN, 0xffff_fffe, 3),
    (RegOp::Divu, 7, 0, MINUS_ONE),
    (RegOp::Divu, MINUS_SEVEN, 2, 0x7fff_fffc),
    (RegOp::Rem, LEAST, MINUS_ONE, 0),
    (RegOp::Rem, MINUS_SEVEN, 0, MINUS_SEVEN),
    (RegOp::Rem, MINUS_SEVEN, 2, MINUS_ONE),
    (RegOp::Rem, 7, 0xffff_fffe, 1),
    (RegOp::Remu, MINUS_ONE, 0, MINUS_ONE),
    (RegOp::Remu, MINUS_ONE, 10, 5),
];

#[test]
fn operations_have_their_values(rt: HostRuntime) {
    for (i, (op, a, b, want)) in VALUES.iter().enumerate() {
        assert!(rt; alu(*op, *a, *b) == *want, "row {i}");
    }
}
