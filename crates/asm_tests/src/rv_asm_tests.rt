use rv_asm::{AsmRefusal, assemble, explain};
use std::alloc::Global;
use std::test::Fail;

// The window of 4 MiB, which programs have unless their user says otherwise.
const WINDOW: u32 = 4 << 20;

// The refusal of a text, if it is refused.
fn refusal_of(alloc: Global, text: &str) -> Option<(u8, u32)> {
    match assemble(alloc, text.as_bytes(), WINDOW) {
        Err(AsmRefusal::Refused { kind, line }) => Some((kind, line)),
        Ok(_) | Err(AsmRefusal::Memory) => None,
    }
}

// The bytes of the section of a text with these flags, or none.
fn bytes_of(alloc: Global, text: &str, flags: u32) -> Result<Vec<u8>, Fail> {
    let image = assemble(alloc, text.as_bytes(), WINDOW)?;
    let mut bytes = Vec::new(alloc);
    for segment in image.segments.as_slice() {
        if segment.flags == flags {
            bytes.extend_from_slice(segment.filled.as_slice())?;
        }
    }
    Ok(bytes)
}

// Each text, and the kind and the line of its refusal.
#[test]
fn lines_are_refused(rt: HostRuntime) -> Result<(), Fail> {
    let cases = [
        ("j nowhere", 4, 1),
        ("a: nop\na: nop", 5, 2),
        ("addi a0, a0, 2048", 3, 1),
        ("add a0, a1", 2, 1),
        ("", 1, 1),
        ("addi a7, x0, 1\naddx a1, x0, 0\n", 1, 2),
        ("\n\n# nothing\n", 1, 3),
        ("nop\n\u{7f}", 1, 2),
        ("nop # \u{1}", 1, 1),
        ("a : nop", 1, 1),
        ("1a: nop", 1, 1),
        ("nop\n.byte 1", 1, 2),
        (".data\nnop", 1, 2),
        ("nop\n.data\n.byte 256", 3, 3),
        ("nop\n.data\n.byte -129", 3, 3),
        ("nop\n.data\n.space 65537", 3, 3),
        ("nop\n.data\n.ascii \"a\tb\"", 2, 3),
        ("nop\n.data\n.ascii \"a", 2, 3),
        ("nop\n.data\n.ascii \"a\\t\"", 2, 3),
        ("lw a0, 4 (a1)", 2, 1),
        ("lw a0, (a1)", 2, 1),
        ("lw a0, 2048(a1)", 3, 1),
        ("add a0, a1, a2,", 2, 1),
        ("add a0 a1 a2", 2, 1),
        ("nop 1", 2, 1),
        ("slli a0, a0, 32", 3, 1),
        ("lui a0, 1048576", 3, 1),
        ("li a0, 4294967296", 3, 1),
        ("li a0, -2147483649", 3, 1),
        ("li a0, 99999999999999999999999999999999999999", 3, 1),
        ("li a0, 0x123456789", 2, 1),
        ("li a0, +1", 2, 1),
        ("addi a9, a0, 2048", 2, 1),
        ("j far\n.data\n.byte 0\nfar: .byte 0", 3, 1),
        ("j nowhere\n.byte 1", 1, 2),
        ("nop\n.word nowhere\nla a0, nowhere", 4, 2),
        (".data\n.byte 0", 1, 2),
        ("nop\n.data # data\nx:.ascii \"a # \\\\n\" # rest", 2, 3),
    ];
    for (text, kind, line) in cases {
        assert_eq!(rt;
            refusal_of(rt.alloc(), text),
            Some((kind, line)),
            "{text:?}"
        );
    }
    Ok(())
}

// Statements and their words, worked out from the formats of the RISC-V unprivileged manual.
#[test]
fn statements_have_the_words_of_the_manual(rt: HostRuntime) -> Result<(), Fail> {
    for (text, want) in [
        ("add x5, x6, x7", 0x0073_02b3),
        ("sub t0,t1,t2", 0x4073_02b3),
        ("mulhu t6, ra, a6", 0x0300_bfb3),
        ("addi t0, zero, -1", 0xfff0_0293),
        ("srai t0, t0, 31", 0x41f2_d293),
        ("lw x7, -8(x2)", 0xff81_2383),
        ("sw x5, -4(sp)", 0xfe51_2e23),
        ("jalr ra, 0(t0)", 0x0002_80e7),
        ("lui s1, 1", 0x0000_14b7),
        ("lui s0, 0xfffff", 0xffff_f437),
        ("auipc a0, 0", 0x0000_0517),
        ("a: beq a0, a1, a", 0x00b5_0063),
        ("a: bnez a0, a", 0x0005_1063),
        ("a: j a", 0x0000_006f),
        ("a: call a", 0x0000_00ef),
        ("a: jal t0, a", 0x0000_02ef),
        ("mv a0, s0", 0x0004_0513),
        ("nop", 0x0000_0013),
        ("ret", 0x0000_8067),
        ("fence", 0x0ff0_000f),
        ("ebreak", 0x0010_0073),
        (".word 0xdeadbeef", 0xdead_beef),
        (".word -2147483648", 0x8000_0000),
        ("a: .word a", 0x0001_0000),
    ] {
        let word: u32 = want;
        let bytes = bytes_of(rt.alloc(), text, 5)?;
        assert_eq!(rt; bytes.as_slice(), word.to_le_bytes().as_slice(), "{text}");
    }
    // A number is loaded in two words.
    let bytes = bytes_of(rt.alloc(), "li a0, 0x12345fff", 5)?;
    assert_eq!(rt;
        bytes.as_slice(),
        b"\x37\x65\x34\x12\x13\x05\xf5\xff".as_slice()
    );
    let text = "addi a7, x0, 1\naddi a1, x0, 0\naddi a0, x0, 0\necall\n";
    let bytes = bytes_of(rt.alloc(), text, 5)?;
    let wanted = b"\x93\x08\x10\x00\x93\x05\x00\x00\x13\x05\x00\x00\x73\x00\x00\x00";
    assert_eq!(rt; bytes.as_slice(), wanted.as_slice());
    let image = assemble(rt.alloc(), text.as_bytes(), WINDOW)?;
    assert_eq!(rt; image.entry, 0x10000);
    assert_eq!(rt; image.heap_start(), 0x11000);
    assert_eq!(rt; image.segments.as_slice().len(), 1);
    let text =
        "nop\n.data # data\nx:.ascii \"a # \\n\" # rest\n.space 2\n.byte -1\n.byte 255\ny: .text\nz: .data\n.word x\n.word y\n.word z\n";
    let bytes = bytes_of(rt.alloc(), text, 6)?;
    let wanted = b"a # \n\0\0\xff\xff\x00\x10\x01\x00\x09\x10\x01\x00\x04\x00\x01\x00";
    assert_eq!(rt; bytes.as_slice(), wanted.as_slice());
    Ok(())
}

// A branch reaches from 4096 bytes backwards to 4094 forwards, of which 4092 are a multiple of 4. Both sections together
// have at most 524288 bytes.
#[test]
fn distances_and_sizes_have_limits(rt: HostRuntime) -> Result<(), Fail> {
    let alloc = rt.alloc();
    for (first, line, count, last, want) in [
        ("beqz a0, a\n", "nop\n", 1022, "a: nop", None),
        ("beqz a0, a\n", "nop\n", 1023, "a: nop", Some((3, 1))),
        ("a: nop\n", "nop\n", 1023, "beqz a0, a", None),
        ("a: nop\n", "nop\n", 1024, "beqz a0, a", Some((3, 1026))),
        ("nop\n.data\n", ".space 65536\n", 7, ".space 65532", None),
        (
            "nop\n.data\n",
            ".space 65536\n",
            7,
            ".space 65532\n.byte 0",
            Some((3, 11)),
        ),
    ] {
        let mut text = String::new(alloc);
        text.push_str(first)?;
        for _ in 0..count {
            text.push_str(line)?;
        }
        text.push_str(last)?;
        assert_eq!(rt; refusal_of(alloc, text.as_str()), want, "{last}");
    }
    Ok(())
}

#[test]
fn a_refusal_is_explained(rt: HostRuntime) -> Result<(), Fail> {
    let cases = [
        (
            "addi a7, x0, 1\naddx a1, x0, 0",
            "line 2: addx a1, x0, 0: `addx` begins no statement that is known, and no label with its colon",
        ),
        (
            "add a0, a1",
            "line 1: add a0, a1: the operands are: rd, rs1, rs2",
        ),
        (
            "j nowhere # far",
            "line 1: j nowhere # far: the label `nowhere` is defined on no line",
        ),
        (
            "a: nop\na: nop",
            "line 2: a: nop: the label `a` is defined on an earlier line",
        ),
        (
            "nop\n.data\nnop",
            "line 3: nop: this stands in the text section, behind `.text`",
        ),
        (
            "",
            "line 1: : the text section has no bytes up to here, the last line",
        ),
        (
            "nop \u{1}",
            "line 1: nop ?: a line has tabs and the bytes from the space to ~, and not the byte 1",
        ),
        (
            "addi a0, a0, 2048",
            "line 1: addi a0, a0, 2048: the number is from -2048 to 2047, and both sections together have at most 524288 bytes",
        ),
    ];
    for (text, wanted) in cases {
        let (kind, line) = refusal_of(rt.alloc(), text).ok_or("not refused")?;
        let told = explain(rt.alloc(), text.as_bytes(), kind, line)?;
        assert_eq!(rt; told.as_str(), wanted);
    }
    Ok(())
}
