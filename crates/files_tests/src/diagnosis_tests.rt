use alloc_env::Env;
use diagnosis::{diagnosis_text, head_text, rest_text};
use run_history::Cause;
use rx_base::Bytes;
use session_notes::{Episode, Tried, Tries, Try};
use std::alloc::{AllocError, Global};
use std::test::Fail;

const CURED: &[u8] = b"rx diagnosis 1\n\
    failure 0 point 2 cause AssertFailed 1 at 00010074\n\
    try 0 checkpoint 1 env pad result survived\n\
    try 1 checkpoint 1 env zero result AssertFailed 1\n\
    try 2 checkpoint 1 env isolate result AssertFailed 1\n\
    try 3 checkpoint 1 env delay result AssertFailed 1\n\
    try 4 checkpoint 1 env all result survived\n\
    try 5 checkpoint 0 env pad result survived\n\
    try 6 checkpoint 0 env zero result AssertFailed 1\n\
    try 7 checkpoint 0 env isolate result AssertFailed 1\n\
    try 8 checkpoint 0 env delay result AssertFailed 1\n\
    try 9 checkpoint 0 env all result survived\n\
    verdict pad all\n\
    end 0 episodes 1\n";

const NOT_CURED: &[u8] = b"rx diagnosis 1\n\
    failure 0 point 2 cause BadAccess at 00010074\n\
    try 0 checkpoint 1 env pad result BadAccess\n\
    try 1 checkpoint 1 env zero result BadAccess\n\
    try 2 checkpoint 1 env isolate result BadAccess\n\
    try 3 checkpoint 1 env delay result BadAccess\n\
    try 4 checkpoint 1 env all result BadAccess\n\
    try 5 checkpoint 0 env pad result BadAccess\n\
    try 6 checkpoint 0 env zero result BadAccess\n\
    try 7 checkpoint 0 env isolate result BadAccess\n\
    try 8 checkpoint 0 env delay result BadAccess\n\
    try 9 checkpoint 0 env all result BadAccess\n\
    verdict none\n\
    end 5 episodes 1\n";

const TWO_EPISODES: &[u8] = b"failure 0 point 4 cause Hang at 00010074\n\
    try 0 checkpoint 4 env pad result Behind\n\
    try 1 checkpoint 2 env pad result Contradicts\n\
    try 2 checkpoint 2 env zero result survived\n\
    verdict zero\n\
    failure 1 point 9 cause BadFree at 00010074\n\
    try 0 checkpoint 6 env delay result survived\n\
    try 1 checkpoint 4 env pad result survived\n\
    verdict delay\n\
    end 255 episodes 2\n";

// An episode of which no trial is told.
fn failure(alloc: Global, point: u64, cause: Cause) -> Episode {
    Episode {
        point,
        cause,
        pc: 0x10074,
        tries: Tries::from_vec(Vec::new(alloc)),
    }
}

fn made(checkpoint: u64, env: Env, tried: Tried) -> Try {
    Try {
        checkpoint,
        env,
        tried,
    }
}

// The trials of a checkpoint in each environment, with what came of them.
fn tries_at(checkpoint: u64, came: [Tried; 5]) -> [Try; 5] {
    let [pad, zero, isolate, delay, all] = came;
    [
        made(checkpoint, Env::Pad, pad),
        made(checkpoint, Env::Zero, zero),
        made(checkpoint, Env::Isolate, isolate),
        made(checkpoint, Env::Delay, delay),
        made(checkpoint, Env::All, all),
    ]
}

// The table of the checkpoints 1 and 0, with what came of each one's trials.
fn table(alloc: Global, came: [Tried; 5]) -> Result<Tries, AllocError> {
    let mut tries = tries_at(1, came).to_vec(alloc)?;
    tries.extend_from_slice(&tries_at(0, came))?;
    Ok(Tries::from_vec(tries))
}

const AGAIN: Tried = Tried::Failed(Cause::AssertFailed(1));

// The cause of a failure at point 2, and what came of its trials in each environment, from both checkpoints; the status, and what is told.
static DIAGNOSES: [(Cause, [Tried; 5], u8, &[u8]); 2] = [
    // Two environments cure it.
    (
        Cause::AssertFailed(1),
        [Tried::Asks, AGAIN, AGAIN, AGAIN, Tried::Asks],
        0,
        CURED,
    ),
    // None does.
    (
        Cause::BadAccess,
        [Tried::Failed(Cause::BadAccess); 5],
        5,
        NOT_CURED,
    ),
];

fn diagnosed(
    alloc: Global,
    cause: Cause,
    came: [Tried; 5],
    status: u8,
) -> Result<Bytes, AllocError> {
    let tables = [table(alloc, came)?];
    diagnosis_text(alloc, &[failure(alloc, 2, cause)], &tables, status)
}

#[test]
fn environments_that_cure_are_told(rt: HostRuntime) -> Result<(), Fail> {
    for row in DIAGNOSES.iter() {
        let (cause, came, status, text) = *row;
        let told = diagnosed(rt.alloc(), cause, came, status)?;
        assert!(rt; told.as_slice() == text, "{cause:?}");
    }
    Ok(())
}

#[test]
fn a_session_without_a_failure_has_two_lines(rt: HostRuntime) -> Result<(), Fail> {
    let head = head_text(rt.alloc())?;
    assert!(rt; head.as_slice() == b"rx diagnosis 1\n".as_slice());
    let rest = rest_text(rt.alloc(), &[], &[], 1)?;
    assert!(rt; rest.as_slice() == b"end 1 episodes 0\n".as_slice());
    Ok(())
}

static FIRST: [Try; 3] = [
    Try {
        checkpoint: 4,
        env: Env::Pad,
        tried: Tried::Behind,
    },
    Try {
        checkpoint: 2,
        env: Env::Pad,
        tried: Tried::Contradicts,
    },
    Try {
        checkpoint: 2,
        env: Env::Zero,
        tried: Tried::Exits(7),
    },
];

static SECOND: [Try; 2] = [
    Try {
        checkpoint: 6,
        env: Env::Delay,
        tried: Tried::Asks,
    },
    Try {
        checkpoint: 4,
        env: Env::Pad,
        tried: Tried::Asks,
    },
];

// What is told behind the first line of two failures with these trials.
fn rest_of_two(alloc: Global) -> Result<Bytes, AllocError> {
    let first = Tries::from_vec(FIRST.to_vec(alloc)?);
    let second = Tries::from_vec(SECOND.to_vec(alloc)?);
    let episodes = [
        failure(alloc, 4, Cause::Hang),
        failure(alloc, 9, Cause::BadFree),
    ];
    rest_text(alloc, &episodes, &[first, second], 255)
}

#[test]
fn episodes_are_numbered_and_have_verdicts(rt: HostRuntime) -> Result<(), Fail> {
    let rest = rest_of_two(rt.alloc())?;
    assert!(rt; rest.as_slice() == TWO_EPISODES);
    Ok(())
}
