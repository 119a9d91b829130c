// Records at values written out by hand, and the lines at which texts are refused.
use block_book::{Ask, Choice};
use msg_frame::Framing;
use schedule_file::{
    Line, RecordRefusal, Recorded, add_choice, choice_line, end_line, head_line, read_record,
    read_unfinished,
};
use std::alloc::{AllocError, Global};
use std::test::Fail;

// An answer to each ask, with a block, and null; and one that carries bytes.
fn answers() -> [Choice; 5] {
    [
        Choice {
            ask: Ask::Malloc { size: 0x10 },
            at: 0x0012_ab90,
            zeroed: true,
            carried: 0,
        },
        Choice {
            ask: Ask::Calloc {
                count: 0x1234_5678,
                size: 0x9abc_def0,
            },
            at: 0,
            zeroed: false,
            carried: 0,
        },
        Choice {
            ask: Ask::Calloc { count: 3, size: 7 },
            at: 0xfedc_ba90,
            zeroed: true,
            carried: 0,
        },
        Choice {
            ask: Ask::Realloc {
                old: 0xfedc_ba90,
                size: 0x20,
            },
            at: 0x40,
            zeroed: false,
            carried: 0,
        },
        Choice {
            ask: Ask::Realloc {
                old: 0x40,
                size: 0x9,
            },
            at: 0x0012_ab90,
            zeroed: true,
            carried: 0x0123_cdef,
        },
    ]
}

const LINES: &str =
    "m 0012ab90 z 00000010\nc 00000000 - 12345678 9abcdef0\nc fedcba90 z 00000003 00000007\nr 00000040 - fedcba90 00000020\nr 0012ab90 z 00000040 00000009 0123cdef\n";

// A line of a record.
#[derive(Clone, Copy)]
enum Written {
    // The window and the framing.
    Head(u32, Framing),
    // Null, as the answer to a malloc of so many bytes.
    Null(u32),
    // The steps, and the items taken.
    End(u64, u64),
}

static WRITTEN: [(Written, &str); 6] = [
    (
        Written::Head(1, Framing::Line),
        "rx record 2 window 1 frame line\n",
    ),
    (
        Written::Head(10, Framing::Length),
        "rx record 2 window 10 frame length\n",
    ),
    (
        Written::Head(64, Framing::Whole),
        "rx record 2 window 64 frame whole\n",
    ),
    (Written::Null(0xffff_ffff), "m 00000000 - ffffffff\n"),
    (Written::End(0, 0), "end 0 0\n"),
    (
        Written::End((1 << 63) - 1, 1 << 20),
        "end 9223372036854775807 1048576\n",
    ),
];

// Whether a line is written so. A number that a line can't have is none.
fn is_written(alloc: Global, line: Written, wanted: &str) -> Result<bool, AllocError> {
    let bytes = match line {
        Written::Head(window, frame) => {
            if window < 1 || window > 64 {
                return Ok(false);
            }
            head_line(alloc, window, frame)?
        }
        Written::Null(size) => {
            let null = Choice {
                ask: Ask::Malloc { size },
                at: 0,
                zeroed: false,
                carried: 0,
            };
            choice_line(alloc, null)?
        }
        Written::End(steps, taken) => {
            if steps >= 1 << 63 || taken > 1 << 20 {
                return Ok(false);
            }
            end_line(alloc, steps, taken)?
        }
    };
    Ok(bytes.as_slice() == wanted.as_bytes())
}

#[test]
fn lines_are_written(rt: HostRuntime) -> Result<(), Fail> {
    for row in WRITTEN.iter() {
        let (line, wanted) = *row;
        assert!(rt; is_written(rt.alloc(), line, wanted)?, "{wanted}");
    }
    Ok(())
}

#[test]
fn choices_are_added(rt: HostRuntime) -> Result<(), Fail> {
    let mut bytes = Vec::new(rt.alloc());
    for choice in answers() {
        add_choice(&mut bytes, choice)?;
    }
    assert_eq!(rt; bytes.as_slice(), LINES.as_bytes());
    Ok(())
}

fn read(alloc: Global, text: &str) -> Result<Recorded, Fail> {
    match read_record(alloc, text.as_bytes()) {
        Ok(read) => Ok(read),
        Err(_) => Err(Fail::new("the record is refused")),
    }
}

// The line of an answer in a record of version 2.
fn line_of(choice: &Choice) -> Line {
    Line {
        ask: Some(choice.ask),
        at: choice.at,
        zeroed: choice.zeroed,
        carried: choice.carried,
    }
}

fn are_lines(lines: &[Line], choices: &[Choice]) -> bool {
    for (line, choice) in lines.iter().zip(choices.iter()) {
        if *line != line_of(choice) {
            return false;
        }
    }
    lines.len() == choices.len()
}

#[test]
fn a_record_is_read(rt: HostRuntime) -> Result<(), Fail> {
    let alloc = rt.alloc();
    let text = format!(in alloc; "rx record 2 window 4 frame length\n{LINES}end 1234567 89\n")?;
    let read = read(alloc, text.as_str())?;
    assert!(rt; read.version == 2 && read.window == 4 && read.frame == Framing::Length);
    assert!(rt; are_lines(read.lines.as_slice(), &answers()));
    assert_eq!(rt; (read.steps, read.taken), (1234567, 89));
    Ok(())
}

#[test]
fn a_record_of_version_1_is_read(rt: HostRuntime) -> Result<(), Fail> {
    let read = read(
        rt.alloc(),
        "rx record 1 window 4 frame line\nm 0012ab90 z\nm 00000000 -\nend 0 0\n",
    )?;
    let wanted = [
        Line {
            ask: None,
            at: 0x0012_ab90,
            zeroed: true,
            carried: 0,
        },
        Line {
            ask: None,
            at: 0,
            zeroed: false,
            carried: 0,
        },
    ];
    assert_eq!(rt; read.version, 1);
    assert_eq!(rt; read.lines.as_slice(), wanted.as_slice());
    Ok(())
}

// The line at which a text is refused, or 0 where it is read.
fn refused_at(alloc: Global, text: &str) -> u64 {
    match read_record(alloc, text.as_bytes()) {
        Ok(_) => 0,
        Err(RecordRefusal::Refused { line }) => line,
        Err(RecordRefusal::Memory) => u64::MAX,
    }
}

// A text, and the line at which it is refused, or 0.
static TEXTS: [(&str, u64); 34] = [
    ("", 1),
    ("\n", 1),
    ("rx record 1 window 4 frame line", 1),
    ("rx record 1 window 0 frame line\nend 0 0\n", 1),
    ("rx record 1 window 65 frame line\nend 0 0\n", 1),
    ("rx record 1 window 08 frame line\nend 0 0\n", 1),
    ("rx record 1 window 4 frame lines\nend 0 0\n", 1),
    ("rx record 1 window 4294967300 frame line\nend 0 0\n", 1),
    (
        "rx record 1 window 18446744073709551620 frame line\nend 0 0\n",
        1,
    ),
    ("rx record 1 window 4 frame line\r\nend 0 0\n", 1),
    ("rx record 0 window 4 frame line\nend 0 0\n", 1),
    ("rx record 3 window 4 frame line\nend 0 0\n", 1),
    ("rx record 02 window 4 frame line\nend 0 0\n", 1),
    ("rx record 1 window 4 frame line\n", 2),
    (
        "rx record 1 window 4 frame line\nm 0012AB90 -\nend 0 0\n",
        2,
    ),
    ("rx record 1 window 4 frame line\nm 012ab90 -\nend 0 0\n", 2),
    (
        "rx record 1 window 4 frame line\nm 0012ab90 x\nend 0 0\n",
        2,
    ),
    (
        "rx record 1 window 4 frame line\nm 00000000 z\nend 0 0\n",
        2,
    ),
    ("rx record 1 window 4 frame line\nm 0012ab90 -\nend 0 0", 3),
    ("rx record 1 window 4 frame line\nm 0012ab90 -\n", 3),
    ("rx record 1 window 4 frame line\nend 0 0\n\n", 3),
    (
        "rx record 1 window 4 frame line\nend 0 0\nm 0012ab90 -\n",
        3,
    ),
    (
        "rx record 1 window 4 frame line\nend 9223372036854775808 0\n",
        2,
    ),
    (
        "rx record 1 window 4 frame line\nend 18446744073709551616 0\n",
        2,
    ),
    (
        "rx record 1 window 4 frame line\nend 9223372036854775807 0\n",
        0,
    ),
    ("rx record 1 window 4 frame line\nend 0 1048577\n", 2),
    ("rx record 1 window 4 frame line\nend 0 1048576\n", 0),
    ("rx record 1 window 4 frame line\nend 00 0\n", 2),
    ("rx record 1 window 4 frame line\nend 0\n", 2),
    ("rx record 1 window 4 frame line\nend 0 0\nend 0 0\n", 3),
    ("rx record 1 window 1 frame line\nend 0 0\n", 0),
    (
        "rx record 1 window 64 frame whole\nm fedcba90 -\nm 00000000 -\nend 0 0\n",
        0,
    ),
    (
        "rx record 1 window 4 frame line\nm 0012ab90 - 00000010\nend 0 0\n",
        2,
    ),
    (
        "rx record 1 window 4 frame line\nc 0012ab90 z 00000001 00000010\nend 0 0\n",
        2,
    ),
];

#[test]
fn texts_are_refused_at_a_line(rt: HostRuntime) -> Result<(), Fail> {
    for row in TEXTS.iter() {
        let (text, line) = *row;
        assert!(rt; refused_at(rt.alloc(), text) == line, "{text}");
    }
    Ok(())
}

// A text whose second line is this one, between a first line of version 2 and a last line.
fn refused_line(alloc: Global, line: &str) -> Result<u64, Fail> {
    let text = format!(in alloc; "rx record 2 window 4 frame line\n{line}\nend 0 0\n")?;
    Ok(refused_at(alloc, text.as_str()))
}

// A second line of version 2, and the line at which its text is refused, or 0.
static SECOND_LINES: [(&str, u64); 28] = [
    ("m 0012ab90 - 00000010", 0),
    ("m 0012ab90 z 00000010", 0),
    ("m 00000000 - 00000010", 0),
    ("m 00000000 z 00000010", 2),
    ("m 0012ab90 -", 2),
    ("m 0012ab90 - 0000001", 2),
    ("m 0012ab90 - 0000001A", 2),
    ("m 0012ab90 - 00000010 00000010", 2),
    ("c 0012ab90 z 00000001 00000010", 0),
    ("c 0012ab90 - 00000001 00000010", 2),
    ("c 00000000 - 00000001 00000010", 0),
    ("c 00000000 z 00000001 00000010", 2),
    ("c 0012ab90 z 00000010", 2),
    ("r 0012ab90 - 00000000 00000010", 0),
    ("r 0012ab90 z 00000000 00000010", 0),
    ("r 0012ab90 - 00000010", 2),
    ("r 0012ab90 - 00000000  0000010", 2),
    ("f 0012ab90 - 00000000 00000010", 2),
    ("r 0012ab90 - 00012340 00000010 00000001", 0),
    ("r 0012ab90 z 00012340 00000010 ffffffff", 0),
    ("r 0012ab90 - 00012340 00000010 00000000", 2),
    ("r 0012ab90 - 00012340 00000010 0000001", 2),
    ("r 0012ab90 - 00012340 00000010 00000001 00000001", 2),
    ("r 0012ab90 - 00012340 00000010 ", 2),
    ("r 0012ab90 - 00000000 00000010 00000001", 2),
    ("r 00000000 - 00012340 00000010 00000001", 2),
    ("c 0012ab90 z 00000001 00000010 00000001", 2),
    ("m 0012ab90 - 00000010 00000010 00000001", 2),
];

#[test]
fn lines_of_version_2_are_refused(rt: HostRuntime) -> Result<(), Fail> {
    for row in SECOND_LINES.iter() {
        let (line, wanted) = *row;
        assert!(rt; refused_line(rt.alloc(), line)? == wanted, "{line}");
    }
    Ok(())
}

// What is read of a record that may lack its last line: the line at which it is refused, or 0; how many answers it has; and its steps,
// or 0 where it has no last line.
type Unfinished = (u64, usize, u64);

fn unfinished(alloc: Global, text: &[u8]) -> Unfinished {
    match read_unfinished(alloc, text) {
        Ok(read) => {
            let steps = match read.finish {
                Some(finish) => finish.steps,
                None => 0,
            };
            (0, read.lines.as_slice().len(), steps)
        }
        Err(RecordRefusal::Refused { line }) => (line, 0, 0),
        Err(RecordRefusal::Memory) => (u64::MAX, 0, 0),
    }
}

// The first line has 32 bytes, that of the answer 22, and the last one 8.
fn cut_short(length: usize) -> Unfinished {
    match length {
        0..=31 => (1, 0, 0),
        32..=53 => (0, 0, 0),
        54..=61 => (0, 1, 0),
        _ => (0, 1, 7),
    }
}

#[test]
fn a_record_is_read_cut_behind_each_byte(rt: HostRuntime) -> Result<(), Fail> {
    let text = b"rx record 2 window 4 frame line\nm 0012ab90 z 00000010\nend 7 1\n";
    assert_eq!(rt; text.len(), 62);
    for length in 0..=text.len() {
        let (front, _) = text.split_at(length);
        assert!(rt;
            unfinished(rt.alloc(), front) == cut_short(length),
            "{length}"
        );
    }
    Ok(())
}

// A text that may lack its last line, and what is read of it.
static UNFINISHED: [(&str, Unfinished); 14] = [
    ("", (1, 0, 0)),
    ("\n", (1, 0, 0)),
    ("rx record 3 window 4 frame line\n", (1, 0, 0)),
    ("rx record 2 window 4 frame line\n\n", (2, 0, 0)),
    ("rx record 2 window 4 frame line\nm 0012ab90 -\n", (2, 0, 0)),
    ("rx record 2 window 4 frame line\nm 0012ab90 -", (0, 0, 0)),
    ("rx record 2 window 4 frame line\nnot a line", (0, 0, 0)),
    ("rx record 1 window 4 frame line\nm 0012ab90 -\n", (0, 1, 0)),
    (
        "rx record 1 window 4 frame line\nm 0012ab90 -\n\nend 7 1\n",
        (3, 0, 0),
    ),
    ("rx record 1 window 4 frame line\nend 7 1\n", (0, 0, 7)),
    ("rx record 1 window 4 frame line\nend 07 1\n", (2, 0, 0)),
    ("rx record 1 window 4 frame line\nend 7 1\n\n", (3, 0, 0)),
    ("rx record 1 window 4 frame line\nend 7 1\nm", (3, 0, 0)),
    (
        "rx record 1 window 4 frame line\nend 7 1\nend 7 1\n",
        (3, 0, 0),
    ),
];

#[test]
fn unfinished_records_are_refused_at_a_line(rt: HostRuntime) -> Result<(), Fail> {
    for row in UNFINISHED.iter() {
        let (text, wanted) = *row;
        assert!(rt; unfinished(rt.alloc(), text.as_bytes()) == wanted, "{text}");
    }
    Ok(())
}
