// Reports that were left by sessions, whole and cut, and the lines at which texts are refused.
use alloc_env::Env;
use report_reading::{ReadReport, ReportRefusal, read_report};
use run_history::Cause;
use std::alloc::Global;
use std::test::Fail;

// A text, how many episodes are adopted, how many trials the failed one has, and whether the end is there.
type Row = (&'static str, usize, Option<usize>, bool);

const NOTED: &str =
    "rx report 1\nfailure 0 point 2 cause AssertFailed 1 at 000100ac\ntry 0 checkpoint 1 env pad result survived\n";

const FREED: &str =
    "rx report 1\nfailure 0 point 3 cause BadFree at 0001009c\ntry 0 checkpoint 2 env pad result Contradicts\n\
    try 1 checkpoint 2 env zero result BadFree\ntry 2 checkpoint 2 env isolate result Contradicts\ntry 3 checkpoint 2 env delay result survived\n";

const TWICE: &str =
    "rx report 1\nfailure 0 point 2 cause BadFree at 0001009c\ntry 0 checkpoint 1 env delay result survived\n\
    failure 1 point 6 cause BadFree at 0001009c\ntry 0 checkpoint 5 env delay result survived\n";

fn read(alloc: Global, text: &str) -> Result<ReadReport, Fail> {
    match read_report(alloc, text.as_bytes()) {
        Ok(read) => Ok(read),
        Err(_) => Err(Fail::new("the report is refused")),
    }
}

fn failed_tries(read: &ReadReport) -> Option<usize> {
    match &read.failed {
        None => None,
        Some(e) => Some(e.tries.as_slice().len()),
    }
}

// Whether a report has the counts of its row.
fn has_counts(read: &ReadReport, row: Row) -> bool {
    let (_, adopted, tries, ended) = row;
    read.adopted.as_slice().len() == adopted
        && failed_tries(read) == tries
        && read.end.is_some() == ended
}

static READ: [Row; 11] = [
    ("rx report 1\n", 0, None, false),
    (NOTED, 1, None, false),
    (FREED, 1, None, false),
    (TWICE, 2, None, false),
    (
        "rx report 1\nfailure 0 point 3 cause BadFree at 0001009c\ntry 0 checkp",
        0,
        Some(0),
        false,
    ),
    (
        "rx report 1\nfailure 0 point 3 cause Hang at 0001009c\ntry 0 checkpoint 2 env all result Behind\nend 5",
        0,
        Some(1),
        false,
    ),
    (
        "rx report 1\nfailure 0 point 0 cause BadCall at ffffffff\ntry 0 checkpoint 0 env plain result Behind\nend 5 taken 0 steps 7\n",
        0,
        Some(1),
        true,
    ),
    (
        "rx report 1\nend 0 taken 18446744073709551615 steps 368\n",
        0,
        None,
        true,
    ),
    (
        "{\"report\":1}\n{\"cause\":\"BadFree\",\"fail",
        0,
        None,
        false,
    ),
    (
        "{\"report\":1}\n{\"cause\":\"AssertFailed 4294967295\",\"failure\":0,\"pc\":\"0001a0fc\",\"point\":20,\"tries\":[\
         {\"checkpoint\":18,\"env\":\"isolate\",\"result\":\"AssertFailed 4294967295\"},{\"checkpoint\":16,\"env\":\"all\",\"result\":\"survived\"}]}\n\
         {\"end\":255,\"steps\":18446744073709551615,\"taken\":1048576}\n",
        1,
        None,
        true,
    ),
    (
        "{\"report\":1}\n{\"cause\":\"BadJump\",\"failure\":0,\"pc\":\"00000000\",\"point\":0,\"tries\":[]}\n",
        0,
        Some(0),
        false,
    ),
];

#[test]
fn reports_are_read(rt: HostRuntime) -> Result<(), Fail> {
    let alloc = rt.alloc();
    for (i, row) in READ.iter().enumerate() {
        assert!(rt; has_counts(&read(alloc, row.0)?, *row), "row {i}");
    }
    Ok(())
}

#[test]
fn an_episode_has_its_numbers(rt: HostRuntime) -> Result<(), Fail> {
    let read = read(rt.alloc(), FREED)?;
    let [e] = read.adopted.as_slice() else {
        return Err(Fail::new("not one episode"));
    };
    assert!(rt; e.point == 3 && e.cause == Cause::BadFree && e.pc == 0x0001_009c);
    let [_, _, _, last] = e.tries.as_slice() else {
        return Err(Fail::new("not four trials"));
    };
    assert!(rt; last.checkpoint == 2 && last.env == Env::Delay && last.tried.survives());
    Ok(())
}

// A text, and the line at which it is refused.
static REFUSED: [(&str, u64); 12] = [
    ("", 1),
    ("rx report 1", 1),
    ("rx report 2\n", 1),
    ("rx report 1\n\n", 2),
    (
        "rx report 1\nfailure 1 point 2 cause BadFree at 0001009c\n",
        2,
    ),
    (
        "rx report 1\nfailure 0 point 02 cause BadFree at 0001009c\n",
        2,
    ),
    (
        "rx report 1\nfailure 0 point 2 cause BadFree at 0001009C\n",
        2,
    ),
    (
        "rx report 1\nfailure 0 point 2 cause BadFree at 0001009c\nfailure 1 point 3 cause BadFree at 0001009c\n",
        3,
    ),
    (
        "rx report 1\nfailure 0 point 2 cause BadFree at 0001009c\ntry 0 checkpoint 1 env pad result survived\nfailure 1 point 2 cause BadFree at 0001009c\n",
        4,
    ),
    (
        "rx report 1\nfailure 0 point 2 cause BadFree at 0001009c\ntry 0 checkpoint 1 env pad result survived\ntry 1 checkpoint 0 env pad result survived\n",
        4,
    ),
    ("rx report 1\nend 0 taken 1 steps 2\nx", 3),
    (
        "{\"report\":1}\n{\"cause\":\"BadJump\",\"failure\":0,\"pc\":\"00000000\",\"point\":0,\"tries\":[{\"checkpoint\":0,\"env\":\"pad\",\"result\":\"survived\"},{\"checkpoint\":0,\"env\":\"pad\",\"result\":\"Hang\"}]}\n",
        2,
    ),
];

fn is_refused_at(alloc: Global, text: &str, line: u64) -> bool {
    match read_report(alloc, text.as_bytes()) {
        Ok(_) => false,
        Err(refusal) => refusal == ReportRefusal::Refused { line },
    }
}

#[test]
fn reports_are_refused(rt: HostRuntime) -> Result<(), Fail> {
    let alloc = rt.alloc();
    for row in REFUSED.iter() {
        let (text, line) = *row;
        assert!(rt; is_refused_at(alloc, text, line), "{text}");
    }
    Ok(())
}
