// Which lines a drill prints. Those of up to three messages are worked out by hand, and the others by the second engine of `compare/second`.
ghost use Rattle.std.specs.Prelude.{◌≡◌, ◌<◌};

use drill::run_drill;
use run_history::Answer;
use rx_base::Steps;
use rx_io::{MemorySink, TameSink};
use std::alloc::Global;
use std::marker::Brand;
use std::process::Abort;
use std::sync::ledger::{Blank, Ledger};
use std::test::Fail;

// The seed, the count, and the lines.
type Row = (u32, u32, &'static str);

#[rattlefmt::skip]
static DRILLS: [Row; 7] = [
    (0, 1, "drill 0 1\nitems 9\nepisodes 0\nbytes 5\nstatus 0\n"),
    (0, 2, "drill 0 2\nitems 10\nepisodes 0\nbytes 10\nstatus 0\n"),
    (0, 3, "drill 0 3\nitems 11\nepisodes 0\nbytes 13\nstatus 0\n"),
    (2026, 64, "drill 2026 64\nitems 72\nepisodes 2\nbytes 255\nstatus 0\n"),
    (7, 150, "drill 7 150\nitems 158\nepisodes 4\nbytes 604\nstatus 0\n"),
    (0, 200, "drill 0 200\nitems 208\nepisodes 4\nbytes 810\nstatus 0\n"),
    (4294967295, 300, "drill 4294967295 300\nitems 308\nepisodes 4\nbytes 1200\nstatus 0\n"),
];

fn try_drill<L: Ledger>(
    rt: &impl Abort,
    alloc: Global,
    row: Row,
    steps: &mut Steps<L>,
) -> Result<(), Fail> {
    let (seed, count, expected) = row;
    let mut output = TameSink::make(alloc, 7);
    let answer = run_drill(alloc, seed, count, &mut output, steps);
    assert!(rt;
        answer == Answer::Finished,
        "drill {seed} {count} is answered {answer:?}"
    );
    assert!(rt;
        output.bytes() == expected.as_bytes(),
        "drill {seed} {count}"
    );
    Ok(())
}

// The second write fails: what the first one took stays.
fn try_fault<L: Ledger>(rt: &impl Abort, alloc: Global, steps: &mut Steps<L>) -> Result<(), Fail> {
    let mut output = MemorySink::make(alloc, [2].to_vec(alloc)?, 9);
    let answer = run_drill(alloc, 0, 1, &mut output, steps);
    assert!(rt;
        answer == Answer::WriteFault,
        "a fault is answered {answer:?}"
    );
    assert!(rt; output.bytes() == b"drill 0 1".as_slice());
    Ok(())
}

fn try_drills<L: Ledger>(rt: &impl Abort, alloc: Global, blank: Blank) -> Result<(), Fail>
    requires name { blank.name ≡ L.name }
    requires parts { blank.parts ≡ L.parts }
    requires some { 0 < blank.parts }
{
    let mut steps = Steps::<L>::start(blank);
    for row in DRILLS {
        try_drill(rt, alloc, row, &mut steps)?;
    }
    try_fault(rt, alloc, &mut steps)
}

#[test]
fn drills_print_their_lines(rt: HostRuntime) -> Result<(), Fail> {
    try_drills::<Brand>(&rt, rt.alloc(), Blank::new(1))
}
