use asm_lines::{
    Flaw, Form, Section, explain, gives_bytes, line_of, split_line, stands_in, statement_of,
};
use std::test::Fail;

#[test]
fn texts_are_lines_with_statements(rt: HostRuntime) -> Result<(), Fail> {
    let (first, behind) = split_line(b"nop\n\nret");
    assert_eq!(rt; first, b"nop".as_slice());
    assert_eq!(rt; behind, b"\nret".as_slice());
    let (last, nothing) = split_line(b"ret");
    assert_eq!(rt; last, b"ret".as_slice());
    assert!(rt; nothing.is_empty());
    let line = line_of(b"\tloop:addi a0, a0, -1 # down").ok_or("no line")?;
    let label = line.label.ok_or("no label")?;
    assert_eq!(rt; label.as_slice(), b"loop".as_slice());
    let words = line.words.ok_or("no statement")?;
    assert_eq!(rt; words.form, Form::OpImm(rv_isa::ImmOp::Addi));
    assert_eq!(rt; words.operands.as_slice(), b"a0, a0, -1".as_slice());
    assert!(rt; stands_in(Section::Text, words.form));
    assert!(rt; !stands_in(Section::Data, words.form));
    assert!(rt; gives_bytes(words.form));
    for (text, size) in [
        ("ret", 4),
        ("li a0, -1", 8),
        ("a: .word a", 4),
        (".byte -128", 1),
        (".space 65536", 65536),
        (".ascii \"a\\n\"", 2),
        (".text", 0),
    ] {
        let line = line_of(text.as_bytes()).ok_or("no line")?;
        let words = line.words.ok_or("no statement")?;
        match statement_of(words.form, words.operands.as_slice()) {
            Ok(statement) => assert_eq!(rt; statement.size(), size, "{text}"),
            Err(flaw) => assert!(rt; false, "{text}: {flaw:?}"),
        }
    }
    Ok(())
}

#[test]
fn flaws_have_numbers(rt: HostRuntime) -> Result<(), Fail> {
    for (form, operands, wanted, kind) in [
        (Form::Byte, "256", Flaw::Range, 3),
        (Form::Byte, "1, 2", Flaw::BadOperand, 2),
        (Form::Mv, "a0, a9", Flaw::BadOperand, 2),
        (Form::Li, "a0, 0x100000000", Flaw::BadOperand, 2),
        (Form::Li, "a0, 4294967296", Flaw::Range, 3),
    ] {
        let flaw = statement_of(form, operands.as_bytes()).err();
        assert_eq!(rt; flaw, Some(wanted), "{operands}");
        assert_eq!(rt; wanted.kind(), kind);
    }
    let told = explain(rt.alloc(), b"nop\naddi a0, a0", 2, 2)?;
    assert_eq!(rt;
        told.as_str(),
        "line 2: addi a0, a0: the operands are: rd, rs1, number"
    );
    Ok(())
}
