// Notes in two files in memory, with each call failing in turn.
use alloc_env::Env;
use block_book::{Ask, Choice};
use file_notes::{FileNames, FileNotes, FirstLine, LastLines, end_files, start_files};
use msg_frame::Framing;
use run_history::Cause;
use run_report::Form;
use rx_base::IoFault;
use rx_io::MemoryFiles;
use session_notes::{Episode, Notes, Tried, Tries, Try};
use std::alloc::{AllocError, Global};
use std::test::Fail;

const CHOICES: [Choice; 2] = [
    Choice {
        ask: Ask::Calloc { count: 3, size: 20 },
        at: 0x12340,
        zeroed: true,
        carried: 0,
    },
    Choice {
        ask: Ask::Realloc {
            old: 0x12340,
            size: 0x89ab_cdef,
        },
        at: 0,
        zeroed: false,
        carried: 0,
    },
];

fn hang(alloc: Global) -> Result<Episode, AllocError> {
    let tries = [Try {
        checkpoint: 3,
        env: Env::Zero,
        tried: Tried::Asks,
    }];
    Ok(Episode {
        point: 4,
        cause: Cause::Hang,
        pc: 0x10074,
        tries: Tries::from_vec(tries.to_vec(alloc)?),
    })
}

// The calls of a whole session: two for each file's first line, one for the choices, one for the episode, and one for each
// file's last line.
fn write_all(alloc: Global, files: &mut MemoryFiles, e: &Episode) -> Result<(), IoFault> {
    let names = FileNames {
        record: "a.record",
        report: "a.report",
    };
    let first = FirstLine {
        window: 4,
        frame: Framing::Line,
    };
    let last = LastLines {
        status: 0,
        taken: 7,
        steps: 900,
    };
    start_files(alloc, files, &names, &first, Form::Text)?;
    let mut notes = FileNotes::make(alloc, &mut *files, names, Form::Text);
    notes.choices(&CHOICES)?;
    notes.episode(e)?;
    end_files(alloc, files, &names, Form::Text, &last)
}

fn bytes_of<'f>(files: &'f MemoryFiles, name: &str) -> &'f [u8] {
    files.bytes_of(name).unwrap_or(&[])
}

// The call that fails, or 0, and what the two files have then.
type Row = (u64, &'static str, &'static str);

// Whether a row is as it says.
fn is_so(alloc: Global, (call, record, report): Row) -> Result<bool, Fail> {
    let mut files = MemoryFiles::make(alloc, Vec::new(alloc), [call].to_vec(alloc)?);
    let e = hang(alloc)?;
    let answer = write_all(alloc, &mut files, &e);
    Ok(
        answer.is_ok() == (call == 0)
            && bytes_of(&files, "a.record") == record.as_bytes()
            && bytes_of(&files, "a.report") == report.as_bytes(),
    )
}

static ROWS: [Row; 9] = [
    (
        0,
        "rx record 2 window 4 frame line\nc 00012340 z 00000003 00000014\nr 00000000 - 00012340 89abcdef\nend 900 7\n",
        "rx report 1\nfailure 0 point 4 cause Hang at 00010074\ntry 0 checkpoint 3 env zero result survived\nend 0 taken 7 steps 900\n",
    ),
    (1, "", ""),
    (2, "", ""),
    (3, "rx record 2 window 4 frame line\n", ""),
    (4, "rx record 2 window 4 frame line\n", ""),
    (5, "rx record 2 window 4 frame line\n", "rx report 1\n"),
    (
        6,
        "rx record 2 window 4 frame line\nc 00012340 z 00000003 00000014\nr 00000000 - 00012340 89abcdef\n",
        "rx report 1\n",
    ),
    (
        7,
        "rx record 2 window 4 frame line\nc 00012340 z 00000003 00000014\nr 00000000 - 00012340 89abcdef\n",
        "rx report 1\nfailure 0 point 4 cause Hang at 00010074\ntry 0 checkpoint 3 env zero result survived\n",
    ),
    (
        8,
        "rx record 2 window 4 frame line\nc 00012340 z 00000003 00000014\nr 00000000 - 00012340 89abcdef\nend 900 7\n",
        "rx report 1\nfailure 0 point 4 cause Hang at 00010074\ntry 0 checkpoint 3 env zero result survived\n",
    ),
];

#[test]
fn files_end_where_a_call_failed(rt: HostRuntime) -> Result<(), Fail> {
    for row in ROWS.iter() {
        assert!(rt; is_so(rt.alloc(), *row)?, "call {}", row.0);
    }
    Ok(())
}

#[test]
fn nothing_stands_behind_a_failure(rt: HostRuntime) -> Result<(), Fail> {
    let alloc = rt.alloc();
    let names = FileNames {
        record: "a.record",
        report: "a.report",
    };
    let mut files = MemoryFiles::make(alloc, Vec::new(alloc), [2].to_vec(alloc)?);
    let e = hang(alloc)?;
    let mut notes = FileNotes::make(alloc, &mut files, names, Form::Json);
    assert!(rt; notes.choices(&CHOICES).is_ok());
    assert!(rt; notes.is_whole());
    assert!(rt; matches!(notes.episode(&e), Err(IoFault::Failed)));
    assert!(rt; !notes.is_whole());
    assert!(rt; matches!(notes.choices(&CHOICES), Err(IoFault::Memory)));
    assert!(rt; matches!(notes.episode(&e), Err(IoFault::Memory)));
    Ok(())
}
