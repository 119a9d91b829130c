// What replays give, and how they end. The counts of instructions and the journals are worked by hand from the texts of the programs.
use crate::replayed::{Played, Told, assembled, expect_difference, expect_replay};
use block_book::Ask;
use example_guests::source_of;
use replay::Difference;
use run_history::{Answer, Cause};
use std::alloc::Global;
use std::process::Abort;
use std::test::Fail;

// Sends each message back. It asks for its first item after 3 instructions. An item that is no message takes 6 to the next request, a
// message 12.
const ECHO: &str = r#"receive:
    addi a0, sp, -64
    addi a1, zero, 32
    addi a7, zero, 1            # recv
    ecall
    addi t0, zero, 2
    bne  a2, t0, receive        # it isn't a message
    add  a2, a0, zero
    add  a0, a1, zero
    addi a1, sp, -64
    addi a7, zero, 2            # send
    ecall
    jal  zero, receive
"#;

// Asks for a block of 17 bytes, and exits.
const ASKS_ONCE: &str = r#"
    addi a0, zero, 17
    addi a7, zero, 3            # malloc
    ecall
    addi a0, zero, 5
    addi a7, zero, 5            # exit
    ecall
"#;

const HI: Played<'static> = Played {
    events: "o0|p0hi\n",
    fails: &[],
    gones: &[],
};

#[test]
fn a_run_goes_as_recorded(rt: HostRuntime) -> Result<(), Fail> {
    let image = assembled(rt.alloc(), ECHO)?;
    // How many instructions and items the record has, the answer, and the journal.
    let cases = [
        (0, 0, Answer::Finished, ""),
        (3, 0, Answer::Finished, ""),
        // No event is taken that the run doesn't ask for.
        (9, 1, Answer::Finished, "o0|"),
        (10, 2, Answer::Finished, "o0|p0hi\n|"),
        (16, 2, Answer::Finished, "o0|p0hi\n|"),
        (17, 2, Answer::Finished, "o0|p0hi\n|g0hi\n|"),
        (21, 2, Answer::Finished, "o0|p0hi\n|g0hi\n|"),
        (21, 1, Answer::Mismatch { step: 21 }, "o0|p0hi\n|g0hi\n|"),
        (21, 3, Answer::Mismatch { step: 21 }, "o0|p0hi\n|g0hi\n|"),
        // The link has no third item.
        (22, 3, Answer::Mismatch { step: 21 }, "o0|p0hi\n|g0hi\n|e0|"),
    ];
    for (steps, taken, answer, journal) in cases {
        let told = Told {
            choices: &[],
            asks: &[],
            carried: &[],
            steps,
            taken,
        };
        expect_replay(&rt, rt.alloc(), &image, &HI, &told, answer, journal)?;
    }
    Ok(())
}

#[test]
fn events_come_where_they_are_asked_for(rt: HostRuntime) -> Result<(), Fail> {
    let image = assembled(rt.alloc(), ECHO)?;
    // The events, how many instructions and items the record has, the answer, and the journal.
    let cases = [
        (
            "o0|p0hi\n|c0",
            27,
            3,
            Answer::Finished,
            "o0|p0hi\n|g0hi\n|c0|",
        ),
        // A message comes in two pieces, and two come in one.
        (
            "o0|o1|p1x|p0a\nb\n|p1y\n",
            51,
            5,
            Answer::Finished,
            "o0|o1|p1x|p0a\nb\n|g0a\n|g0b\n|p1y\n|g1xy\n|",
        ),
        (
            "o0|s0|p0hi\n",
            21,
            2,
            Answer::Finished,
            "o0|s0|p0hi\n|g0hi\n|",
        ),
        // No connection was opened.
        ("c0", 4, 1, Answer::InputRefused { kind: 4, offset: 0 }, ""),
    ];
    for (events, steps, taken, answer, journal) in cases {
        let played = Played { events, ..HI };
        let told = Told {
            choices: &[],
            asks: &[],
            carried: &[],
            steps,
            taken,
        };
        expect_replay(&rt, rt.alloc(), &image, &played, &told, answer, journal)?;
    }
    Ok(())
}

#[test]
fn links_fail_and_connections_are_gone(rt: HostRuntime) -> Result<(), Fail> {
    let image = assembled(rt.alloc(), ECHO)?;
    let told = Told {
        choices: &[],
        asks: &[],
        carried: &[],
        steps: 33,
        taken: 3,
    };
    // The calls that fail, the gives that find their connection gone, the answer, and the journal.
    let cases: [(&[u64], &[(u64, usize)], Answer, &str); 6] = [
        (
            &[],
            &[],
            Answer::Finished,
            "o0|p0hi\n|g0hi\n|p0yo\n|g0yo\n|",
        ),
        (&[1], &[], Answer::ReadFault, ""),
        (&[2], &[], Answer::ReadFault, "o0|"),
        (&[3], &[], Answer::WriteFault, "o0|p0hi\n|"),
        (&[5], &[], Answer::WriteFault, "o0|p0hi\n|g0hi\n|p0yo\n|"),
        // Nothing more is given to a connection that is gone.
        (&[], &[(3, 1)], Answer::Finished, "o0|p0hi\n|G0h|p0yo\n|"),
    ];
    for (fails, gones, answer, journal) in cases {
        let played = Played {
            events: "o0|p0hi\n|p0yo\n",
            fails,
            gones,
        };
        expect_replay(&rt, rt.alloc(), &image, &played, &told, answer, journal)?;
    }
    Ok(())
}

#[test]
fn answers_are_the_recorded_ones(rt: HostRuntime) -> Result<(), Fail> {
    let image = assembled(rt.alloc(), ASKS_ONCE)?;
    // The answers and how many instructions the record has, and the answer..
    let cases: [(&[(u32, bool)], u64, Answer); 9] = [
        (&[(0, false)], 6, Answer::Finished),
        (&[(0, false)], 5, Answer::Finished),
        (&[], 2, Answer::Finished),
        (&[], 6, Answer::Mismatch { step: 2 }),
        (&[(0, true)], 6, Answer::Mismatch { step: 2 }),
        (&[(8, false)], 6, Answer::Mismatch { step: 2 }),
        (&[(0, false)], 2, Answer::Mismatch { step: 2 }),
        (&[(0, false), (0, false)], 6, Answer::Mismatch { step: 6 }),
        (&[(0, false)], 7, Answer::Mismatch { step: 6 }),
    ];
    for (choices, steps, answer) in cases {
        let told = Told {
            choices,
            asks: &[],
            carried: &[],
            steps,
            taken: 0,
        };
        expect_replay(&rt, rt.alloc(), &image, &HI, &told, answer, "")?;
    }
    Ok(())
}

// Asks for 3 elements of 8 bytes, and for 40 bytes in place of that block.
const ASKS_AGAIN: &str = r#"
    addi a0, zero, 3
    addi a1, zero, 8
    addi a7, zero, 7            # calloc
    ecall
    addi a1, zero, 40
    addi a7, zero, 8            # realloc
    ecall
    addi a7, zero, 5            # exit
    ecall
"#;

#[test]
fn each_call_asks_what_its_line_says(rt: HostRuntime) -> Result<(), Fail> {
    let image = assembled(rt.alloc(), ASKS_AGAIN)?;
    let elements = Ask::Calloc { count: 3, size: 8 };
    let again = Ask::Realloc {
        old: 0x12000,
        size: 40,
    };
    let choices: &[(u32, bool)] = &[(0x12000, true), (0x12020, false)];
    // What stands in the two lines, how many bytes they carry, and the answer.
    let cases: [(&[Ask], &[u32], Answer); 7] = [
        (&[elements, again], &[], Answer::Finished),
        // A record of version 1 takes what is asked.
        (&[], &[], Answer::Finished),
        (
            &[Ask::Calloc { count: 8, size: 3 }, again],
            &[],
            Answer::Mismatch { step: 3 },
        ),
        (
            &[Ask::Malloc { size: 24 }, again],
            &[],
            Answer::Mismatch { step: 3 },
        ),
        (
            &[
                elements,
                Ask::Realloc {
                    old: 0x12000,
                    size: 41,
                },
            ],
            &[],
            Answer::Mismatch { step: 6 },
        ),
        // Up to the new block's place, which is 8 bytes behind the old block.
        (&[elements, again], &[0, 8], Answer::Finished),
        (&[elements, again], &[0, 9], Answer::Mismatch { step: 6 }),
    ];
    for (asks, carried, answer) in cases {
        let told = Told {
            choices,
            asks,
            carried,
            steps: 9,
            taken: 0,
        };
        expect_replay(&rt, rt.alloc(), &image, &HI, &told, answer, "")?;
    }
    Ok(())
}

// What a session that recovered recorded: its program, by a guest's name; its events; how many items and instructions; where its blocks were;
// and the journal.
type Row<'a> = (&'a str, &'a str, u64, u64, &'a [(u32, bool)], &'a str);

// Replays a row, and compares.
fn expect_row(rt: &impl Abort, alloc: Global, row: Row<'_>) -> Result<(), Fail> {
    let (program, events, taken, steps, choices, journal) = row;
    let image = assembled(alloc, source_of(program).unwrap_or(program))?;
    let played = Played { events, ..HI };
    let told = Told {
        choices,
        asks: &[],
        carried: &[],
        steps,
        taken,
    };
    expect_replay(rt, alloc, &image, &played, &told, Answer::Finished, journal)
}

// The counts and blocks are those that the tests of sessions worked by hand. A program that overruns a block, frees one twice or reads one
// unset is replayed as it went with the blocks of the trial that survived.
#[test]
fn records_of_sessions_are_replayed(rt: HostRuntime) -> Result<(), Fail> {
    let cases: [Row<'_>; 6] = [
        (
            "overflow",
            "o0|p0xxxxxxxxxxxxxxxxxxxxxxxxxxxxxxxxxxxxxxx\n",
            2,
            303,
            &[(0x12100, false), (0x12310, false)],
            "o0|p0xxxxxxxxxxxxxxxxxxxxxxxxxxxxxxxxxxxxxxx\n|g0xxxxxxxxxxxxxxxxxxxxxxxxxxxxxxxxxxxxxxx\n|",
        ),
        (
            "unset",
            "o0|p0hi\n",
            2,
            106,
            &[(0x12000, true), (0x12000, true)],
            "o0|p0hi\n|g0hi\n|",
        ),
        (
            "twice",
            "o0|p0hi\n",
            2,
            45,
            &[(0x12000, false)],
            "o0|p0hi\n|g0hi\n|",
        ),
        (
            "stale",
            "o0|p0a\n|p0b\n",
            3,
            141,
            &[(0x12000, false), (0x12040, false)],
            "o0|p0a\n|g0a\n|p0b\n|g0b\n|",
        ),
        (
            "pair",
            "o0|o1|p1go\n",
            3,
            76,
            &[(0x13000, false), (0x13000, false)],
            "o0|o1|p1go\n|g0a\n|g1b\n|",
        ),
        (
            "late",
            "o0|p0x\n",
            2,
            60,
            &[(0x13000, false), (0x13000, false)],
            "o0|p0x\n|g0a\n|",
        ),
    ];
    for row in cases {
        expect_row(&rt, rt.alloc(), row)?;
    }
    Ok(())
}

#[test]
fn a_run_that_fails_is_no_recorded_one(rt: HostRuntime) -> Result<(), Fail> {
    let image = assembled(rt.alloc(), "    addi a0, zero, 1\n    ebreak\n")?;
    let cases = [(1, Answer::Finished), (2, Answer::Mismatch { step: 1 })];
    for (steps, answer) in cases {
        let told = Told {
            choices: &[],
            asks: &[],
            carried: &[],
            steps,
            taken: 0,
        };
        expect_replay(&rt, rt.alloc(), &image, &HI, &told, answer, "")?;
    }
    Ok(())
}

const SEVENTEEN: Ask = Ask::Malloc { size: 17 };

// A run that isn't the recorded one: what its record says, and what differs.
type Apart<'a> = (Told<'a>, Difference);

// Replays each run of a program, and compares what differs.
fn expect_apart(
    rt: &impl Abort,
    alloc: Global,
    program: &str,
    cases: &[Apart<'_>],
) -> Result<(), Fail> {
    let image = assembled(alloc, program)?;
    for (told, difference) in cases {
        expect_difference(rt, alloc, &image, &HI, told, *difference)?;
    }
    Ok(())
}

// A record of version 1.
fn bare(choices: &[(u32, bool)], steps: u64, taken: u64) -> Told<'_> {
    Told {
        choices,
        asks: &[],
        carried: &[],
        steps,
        taken,
    }
}

#[test]
fn differs_by_the_end_of_the_input_and_by_items(rt: HostRuntime) -> Result<(), Fail> {
    let cases = [
        (bare(&[], 22, 3), Difference::InputEnded),
        (
            bare(&[], 21, 1),
            Difference::ItemsApart { taken: 2, told: 1 },
        ),
        (
            bare(&[], 21, 3),
            Difference::ItemsApart { taken: 2, told: 3 },
        ),
    ];
    expect_apart(&rt, rt.alloc(), ECHO, cases.as_slice())
}

#[test]
fn differs_by_lines_and_by_an_early_end(rt: HostRuntime) -> Result<(), Fail> {
    let one: &[(u32, bool)] = &[(0, false)];
    let cases = [
        (
            bare(&[], 6, 0),
            Difference::NoLine {
                number: 0,
                asked: SEVENTEEN,
            },
        ),
        // A line that isn't reached stands before an item that wasn't taken.
        (bare(one, 2, 1), Difference::LinesLeft { used: 0, lines: 1 }),
        (
            bare(&[(0, false), (0, false)], 6, 0),
            Difference::LinesLeft { used: 1, lines: 2 },
        ),
        (bare(one, 7, 0), Difference::Ended { code: 5 }),
    ];
    expect_apart(&rt, rt.alloc(), ASKS_ONCE, cases.as_slice())
}

#[test]
fn differs_by_an_answer_that_cannot_be(rt: HostRuntime) -> Result<(), Fail> {
    let unusable = |at: u32, zeroed: bool| Difference::Unusable {
        number: 0,
        asked: SEVENTEEN,
        at,
        zeroed,
        carried: 0,
    };
    let cases = [
        (bare(&[(0, true)], 6, 0), unusable(0, true)),
        (bare(&[(8, false)], 6, 0), unusable(8, false)),
    ];
    expect_apart(&rt, rt.alloc(), ASKS_ONCE, cases.as_slice())
}

#[test]
fn differs_by_what_is_asked_and_carried(rt: HostRuntime) -> Result<(), Fail> {
    let elements = Ask::Calloc { count: 3, size: 8 };
    let turned = Ask::Calloc { count: 8, size: 3 };
    let again = Ask::Realloc {
        old: 0x12000,
        size: 40,
    };
    let longer = Ask::Realloc {
        old: 0x12000,
        size: 41,
    };
    let choices: &[(u32, bool)] = &[(0x12000, true), (0x12020, false)];
    let first: &[Ask] = &[turned, again];
    let second: &[Ask] = &[elements, longer];
    let third: &[Ask] = &[elements, again];
    let cases = [
        (
            Told {
                asks: first,
                ..bare(choices, 9, 0)
            },
            Difference::OtherAsk {
                number: 0,
                asked: elements,
                told: turned,
            },
        ),
        (
            Told {
                asks: second,
                ..bare(choices, 9, 0)
            },
            Difference::OtherAsk {
                number: 1,
                asked: again,
                told: longer,
            },
        ),
        (
            Told {
                asks: third,
                carried: &[0, 9],
                ..bare(choices, 9, 0)
            },
            Difference::Unusable {
                number: 1,
                asked: again,
                at: 0x12020,
                zeroed: false,
                carried: 9,
            },
        ),
    ];
    expect_apart(&rt, rt.alloc(), ASKS_AGAIN, cases.as_slice())
}

#[test]
fn differs_by_a_failure(rt: HostRuntime) -> Result<(), Fail> {
    let failed = Difference::Failed {
        cause: Cause::AssertFailed(0),
    };
    let cases = [(bare(&[], 2, 0), failed)];
    let program = "    addi a0, zero, 1\n    ebreak\n";
    expect_apart(&rt, rt.alloc(), program, cases.as_slice())
}
