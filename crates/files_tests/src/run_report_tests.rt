use alloc_env::Env;
use run_history::Cause;
use run_report::{Form, end_text, episode_text, head_text};
use rx_base::Bytes;
use session_notes::{Episode, Tried, Tries, Try};
use std::alloc::{AllocError, Global};
use std::test::Fail;

/// An assertion that fails, and doesn't in a second environment.
pub fn assertion(alloc: Global) -> Result<Episode, AllocError> {
    let tries = [
        Try {
            checkpoint: 18,
            env: Env::Isolate,
            tried: Tried::Failed(Cause::AssertFailed(4294967295)),
        },
        Try {
            checkpoint: 16,
            env: Env::All,
            tried: Tried::Exits(1),
        },
    ];
    Ok(Episode {
        point: 20,
        cause: Cause::AssertFailed(4294967295),
        pc: 0x1a0fc,
        tries: Tries::from_vec(tries.to_vec(alloc)?),
    })
}

// The same in each form, with the number 7.
static EPISODES: [(Form, &str); 2] = [
    (
        Form::Text,
        "failure 7 point 20 cause AssertFailed 4294967295 at 0001a0fc\n\
          try 0 checkpoint 18 env isolate result AssertFailed 4294967295\n\
          try 1 checkpoint 16 env all result survived\n",
    ),
    (
        Form::Json,
        "{\"cause\":\"AssertFailed 4294967295\",\"failure\":7,\"pc\":\"0001a0fc\",\"point\":20,\"tries\":[\
          {\"checkpoint\":18,\"env\":\"isolate\",\"result\":\"AssertFailed 4294967295\"},\
          {\"checkpoint\":16,\"env\":\"all\",\"result\":\"survived\"}]}\n",
    ),
];

#[test]
fn an_episode_is_told_in_each_form(rt: HostRuntime) -> Result<(), Fail> {
    let alloc = rt.alloc();
    let e = assertion(alloc)?;
    for row in EPISODES.iter() {
        let (form, text) = *row;
        assert!(rt;
            episode_text(alloc, 7, &e, form)?.as_slice() == text.as_bytes(),
            "{text}"
        );
    }
    let [first, second] = e.tries.as_slice() else {
        return Err(Fail::new("not two trials"));
    };
    assert!(rt; !first.tried.survives() && second.tried.survives());
    Ok(())
}

// Whether it is the last line, the form, and the line.
static ENDS: [(bool, Form, &str); 4] = [
    (false, Form::Text, "rx report 1\n"),
    (false, Form::Json, "{\"report\":1}\n"),
    (
        true,
        Form::Text,
        "end 255 taken 1048576 steps 18446744073709551615\n",
    ),
    (
        true,
        Form::Json,
        "{\"end\":255,\"steps\":18446744073709551615,\"taken\":1048576}\n",
    ),
];

fn end_of(alloc: Global, is_last: bool, form: Form) -> Result<Bytes, AllocError> {
    if is_last {
        return end_text(alloc, 255, 1048576, 18446744073709551615, form);
    }
    head_text(alloc, form)
}

#[test]
fn a_report_begins_and_ends_in_each_form(rt: HostRuntime) -> Result<(), Fail> {
    for row in ENDS.iter() {
        let (is_last, form, text) = *row;
        let line = end_of(rt.alloc(), is_last, form)?;
        assert!(rt; line.as_slice() == text.as_bytes(), "{text}");
    }
    Ok(())
}
