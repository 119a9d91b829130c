// Counts at values written out by hand, and the lines at which texts are refused.
use counts_file::{Counts, CountsRefusal, count_line, read_counts};
use std::alloc::Global;
use std::test::Fail;

#[test]
fn lines_of_counts_are_written(rt: HostRuntime) -> Result<(), Fail> {
    let alloc = rt.alloc();
    let lines = [
        (count_line(alloc, 0, 2)?, "0 2\n"),
        (
            count_line(alloc, 4095, (1 << 63) - 1)?,
            "4095 9223372036854775807\n",
        ),
    ];
    for (line, wanted) in &lines {
        assert_eq!(rt; line.as_slice(), wanted.as_bytes());
    }
    Ok(())
}

fn read(alloc: Global, text: &str) -> Result<Counts, Fail> {
    match read_counts(alloc, text.as_bytes()) {
        Ok(read) => Ok(read),
        Err(_) => Err(Fail::new("the counts are refused")),
    }
}

#[test]
fn counts_are_read(rt: HostRuntime) -> Result<(), Fail> {
    let read = read(rt.alloc(), "0 2\n7 0\n4095 9223372036854775807\n")?;
    let lines = [(0, 2), (7, 0), (4095, (1 << 63) - 1)];
    assert_eq!(rt; read.as_slice(), lines.as_slice());
    for (conn, count) in [(0, 2), (1, 0), (7, 0), (4094, 0), (4095, (1 << 63) - 1)] {
        assert_eq!(rt; read.of(conn), count);
    }
    Ok(())
}

// The line at which a text is refused, or 0 where it is read.
fn refused_at(alloc: Global, text: &str) -> u32 {
    match read_counts(alloc, text.as_bytes()) {
        Ok(_) => 0,
        Err(CountsRefusal::Refused { line }) => line,
        Err(CountsRefusal::Memory) => u32::MAX,
    }
}

// A text, and the line at which it is refused, or 0.
static REFUSED: [(&str, u32); 28] = [
    ("", 0),
    ("0 2\n", 0),
    ("0 02\n", 1),
    ("00 2\n", 1),
    ("0 2", 1),
    ("\n", 1),
    ("0\n", 1),
    ("0 \n", 1),
    (" 0 2\n", 1),
    ("0  2\n", 1),
    ("0\t2\n", 1),
    ("0 2 \n", 1),
    ("0 2\r\n", 1),
    ("0 +2\n", 1),
    ("-1 2\n", 1),
    ("0 2\n1 3\n", 0),
    ("0 2\n1 3", 2),
    ("0 2\n\n1 3\n", 2),
    ("1 2\n0 3\n", 2),
    ("1 2\n1 2\n", 2),
    ("0 2\n1 3\n2 3\n1 4\n", 4),
    ("4095 1\n", 0),
    ("4096 1\n", 1),
    ("65536 1\n", 1),
    ("18446744073709551616 1\n", 1),
    ("0 9223372036854775807\n", 0),
    ("0 9223372036854775808\n", 1),
    ("0 18446744073709551618\n", 1),
];

#[test]
fn counts_are_refused_at_a_line(rt: HostRuntime) -> Result<(), Fail> {
    for row in REFUSED.iter() {
        let (text, line) = *row;
        assert!(rt; refused_at(rt.alloc(), text) == line, "{text}");
    }
    Ok(())
}
