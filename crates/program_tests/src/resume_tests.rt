// A host that goes on for one that was killed, by its record, its report and counts of what clients have. The values are worked by hand from the rules and
// from the texts of the guests, and are those of `compare/second` too.
//
// Calls on files are to load the program, the record, the report and the counts, to start `o` and `t`, to add to `t` its first line with the failures that
// were handed over, and to `o` its first line; and then what is noted, and the last lines. What `t` had before is the record's text. The source is called once
// for an open, and twice for a line.
use std::test::Fail;
use test_commands::play_rows;

#[test]
fn an_episode_was_noted_before_the_kill(rt: HostRuntime) -> Result<(), Fail> {
    play_rows(
        rt.alloc(),
        r#"
        overflow
        all: words=resume p r q c --record o --report t; in=0100000000 0200002800 2a*39 0a 0200000300 68690a; before=rx record 2 window 4 frame line/; reported=rx report 1/failure 0 point 2 cause AssertFailed 1 at 000100ac/try 0 checkpoint 1 env pad result survived/
        # Nothing was passed of its reply; ten bytes were, in a frame that was cut; all was, also where each call moves a byte. The report is in its other form.
        counts=; end=Finished 0 4 [] 368 3; out=0200002800 2a*39 0a 0200000300 68690a; left=; o=rx record 2 window 4 frame line/m 00012100 - 00000010/m 00012310 - 00000010/m 00012100 - 00000010/m 00012310 - 00000010/end 368 3/; report=rx report 1/failure 0 point 2 cause AssertFailed 1 at 000100ac/try 0 checkpoint 1 env pad result survived/end 0 taken 3 steps 368/
        counts=0 10/; end=Finished 0 4 [] 368 3; out=0200001e00 2a*29 0a 0200000300 68690a; left=; o=rx record 2 window 4 frame line/m 00012100 - 00000010/m 00012310 - 00000010/m 00012100 - 00000010/m 00012310 - 00000010/end 368 3/; report=rx report 1/failure 0 point 2 cause AssertFailed 1 at 000100ac/try 0 checkpoint 1 env pad result survived/end 0 taken 3 steps 368/
        counts=0 40/; end=Finished 0 4 [] 368 3; out=0200000300 68690a; left=; o=rx record 2 window 4 frame line/m 00012100 - 00000010/m 00012310 - 00000010/m 00012100 - 00000010/m 00012310 - 00000010/end 368 3/; report=rx report 1/failure 0 point 2 cause AssertFailed 1 at 000100ac/try 0 checkpoint 1 env pad result survived/end 0 taken 3 steps 368/
        counts=0 40/; takes=1; gives=1; end=Finished 0 4 [] 368 3; out=0200000300 68690a; left=; o=rx record 2 window 4 frame line/m 00012100 - 00000010/m 00012310 - 00000010/m 00012100 - 00000010/m 00012310 - 00000010/end 368 3/; report=rx report 1/failure 0 point 2 cause AssertFailed 1 at 000100ac/try 0 checkpoint 1 env pad result survived/end 0 taken 3 steps 368/
        words=resume p r q c --record o --report t --form json; reported={"report":1}/{"cause":"AssertFailed 1","failure":0,"pc":"000100ac","point":2,"tries":[{"checkpoint":1,"env":"pad","result":"survived"}]}/; counts=0 10/; end=Finished 0 4 [] 368 3; out=0200001e00 2a*29 0a 0200000300 68690a; left=; o=rx record 2 window 4 frame line/m 00012100 - 00000010/m 00012310 - 00000010/m 00012100 - 00000010/m 00012310 - 00000010/end 368 3/; report={"report":1}/{"cause":"AssertFailed 1","failure":0,"pc":"000100ac","point":2,"tries":[{"checkpoint":1,"env":"pad","result":"survived"}]}/{"end":0,"steps":368,"taken":3}/

        pair
        all: words=resume p r q c --record o --report t; in=0100000000 0101000000 0201000300 676f0a; before=rx record 2 window 4 frame line/; reported=rx report 1/failure 0 point 3 cause BadFree at 0001009c/try 0 checkpoint 2 env pad result Contradicts/try 1 checkpoint 2 env zero result BadFree/try 2 checkpoint 2 env isolate result Contradicts/try 3 checkpoint 2 env delay result survived/
        # The run that failed had passed two bytes, which its client has; or hasn't.
        counts=0 2/; end=Finished 0 2 [] 76 3; out=0201000200 620a; left=; o=rx record 2 window 4 frame line/m 00013000 - 00000010/m 00013000 - 00000010/end 76 3/; report=rx report 1/failure 0 point 3 cause BadFree at 0001009c/try 0 checkpoint 2 env pad result Contradicts/try 1 checkpoint 2 env zero result BadFree/try 2 checkpoint 2 env isolate result Contradicts/try 3 checkpoint 2 env delay result survived/end 0 taken 3 steps 76/
        counts=; end=Finished 0 2 [] 76 3; out=0200000200 610a 0201000200 620a; left=; o=rx record 2 window 4 frame line/m 00013000 - 00000010/m 00013000 - 00000010/end 76 3/; report=rx report 1/failure 0 point 3 cause BadFree at 0001009c/try 0 checkpoint 2 env pad result Contradicts/try 1 checkpoint 2 env zero result BadFree/try 2 checkpoint 2 env isolate result Contradicts/try 3 checkpoint 2 env delay result survived/end 0 taken 3 steps 76/
    "#,
    )
}

#[test]
fn it_was_killed_within_the_trials(rt: HostRuntime) -> Result<(), Fail> {
    play_rows(
        rt.alloc(),
        r#"
        pair
        all: words=resume p r q c --record o --report t; in=0100000000 0101000000 0201000300 676f0a
        # The last line of the report is torn; so is that of its failure, and the last line of the record.
        before=rx record 2 window 4 frame line/; reported=rx report 1/failure 0 point 3 cause BadFree at 0001009c/try 0 checkp; counts=0 2/; end=Finished 0 2 [] 76 3; out=0201000200 620a; left=; o=rx record 2 window 4 frame line/m 00013000 - 00000010/m 00013000 - 00000010/end 76 3/; report=rx report 1/failure 0 point 3 cause BadFree at 0001009c/try 0 checkpoint 2 env pad result Contradicts/try 1 checkpoint 2 env zero result BadFree/try 2 checkpoint 2 env isolate result Contradicts/try 3 checkpoint 2 env delay result survived/end 0 taken 3 steps 76/
        before=rx record 2 window 4 frame line/m 000; reported=rx report 1/failure 0 po; counts=0 2/; end=Finished 0 2 [] 76 3; out=0201000200 620a; left=; o=rx record 2 window 4 frame line/m 00013000 - 00000010/m 00013000 - 00000010/end 76 3/; report=rx report 1/failure 0 point 3 cause BadFree at 0001009c/try 0 checkpoint 2 env pad result Contradicts/try 1 checkpoint 2 env zero result BadFree/try 2 checkpoint 2 env isolate result Contradicts/try 3 checkpoint 2 env delay result survived/end 0 taken 3 steps 76/

        stale
        all: words=resume p r q c --record o --report t; in=0100000000 0200000200 610a 0200000200 620a 0200000200 630a; before=rx record 2 window 4 frame line/; reported=rx report 1/failure 0 point 3 cause AssertFailed 3 at 000100e0/try 0 checkpoint 2 env pad result AssertFailed 3/try 1 checkpoint 2 env zero result AssertFailed 3/try 2 checkpoint 2 env isolate result AssertFailed 3/try 3 checkpoint 2 env delay result AssertFailed 3/try 4 checkpoint 2 env all result AssertFailed 3/try 5 checkpoint 1 env pad result AssertFailed 3/try 6 checkpoint 1 env zero result AssertFailed 3/try 7 checkpoint 1 env isolate result AssertFailed 3/try 8 checkpoint 1 env delay result survived/
        # The reason lies an item before the failure. A third host has the files of the second one, which was killed behind `b`.
        counts=0 2/; end=Finished 0 2 [] 166 4; out=0200000200 620a 0200000200 630a; left=; o=rx record 2 window 4 frame line/m 00012000 - 00000040/m 00012040 - 00000040/end 166 4/; report=rx report 1/failure 0 point 3 cause AssertFailed 3 at 000100e0/try 0 checkpoint 2 env pad result AssertFailed 3/try 1 checkpoint 2 env zero result AssertFailed 3/try 2 checkpoint 2 env isolate result AssertFailed 3/try 3 checkpoint 2 env delay result AssertFailed 3/try 4 checkpoint 2 env all result AssertFailed 3/try 5 checkpoint 1 env pad result AssertFailed 3/try 6 checkpoint 1 env zero result AssertFailed 3/try 7 checkpoint 1 env isolate result AssertFailed 3/try 8 checkpoint 1 env delay result survived/end 0 taken 4 steps 166/
        counts=0 4/; end=Finished 0 2 [] 166 4; out=0200000200 630a; left=; o=rx record 2 window 4 frame line/m 00012000 - 00000040/m 00012040 - 00000040/end 166 4/; report=rx report 1/failure 0 point 3 cause AssertFailed 3 at 000100e0/try 0 checkpoint 2 env pad result AssertFailed 3/try 1 checkpoint 2 env zero result AssertFailed 3/try 2 checkpoint 2 env isolate result AssertFailed 3/try 3 checkpoint 2 env delay result AssertFailed 3/try 4 checkpoint 2 env all result AssertFailed 3/try 5 checkpoint 1 env pad result AssertFailed 3/try 6 checkpoint 1 env zero result AssertFailed 3/try 7 checkpoint 1 env isolate result AssertFailed 3/try 8 checkpoint 1 env delay result survived/end 0 taken 4 steps 166/

        twice
        all: words=resume p r q c --record o --report t; in=0100000000 0200000200 610a 0200000200 620a 0200000200 630a 0200000200 640a 0200000200 650a 0200000200 660a; before=rx record 2 window 4 frame line/; reported=rx report 1/failure 0 point 2 cause BadFree at 00010094/try 0 checkpoint 1 env pad result BadFree/try 1 checkpoint 1 env zero result BadFree/try 2 checkpoint 1 env isolate result BadFree/try 3 checkpoint 1 env delay result survived/failure 1 point 6 cause BadFree at 00010094/try 0 checkpoint 5 env pad result BadFree/try 1 checkpoint 5 env zero result BadFree/try 2 checkpoint 5 env isolate result BadFree/try 3 checkpoint 5 env delay result survived/
        # There were two failures. The lines come in one piece, and in one each.
        in=0100000000 0200000a00 610a620a630a640a650a 0200000200 660a; counts=0 10/; end=Finished 0 6 [] 190 7; out=0200000200 660a; left=; o=rx record 2 window 4 frame line/m 00012000 - 00000020/m 00012020 - 00000020/m 00012040 - 00000020/m 00012060 - 00000020/m 00012080 - 00000020/m 000120a0 - 00000020/end 190 7/; report=rx report 1/failure 0 point 2 cause BadFree at 00010094/try 0 checkpoint 1 env pad result BadFree/try 1 checkpoint 1 env zero result BadFree/try 2 checkpoint 1 env isolate result BadFree/try 3 checkpoint 1 env delay result survived/failure 1 point 6 cause BadFree at 00010094/try 0 checkpoint 5 env pad result BadFree/try 1 checkpoint 5 env zero result BadFree/try 2 checkpoint 5 env isolate result BadFree/try 3 checkpoint 5 env delay result survived/end 0 taken 7 steps 190/
        counts=0 10/; end=Finished 0 6 [] 190 7; out=0200000200 660a; left=; o=rx record 2 window 4 frame line/m 00012000 - 00000020/m 00012020 - 00000020/m 00012040 - 00000020/m 00012060 - 00000020/m 00012080 - 00000020/m 000120a0 - 00000020/end 190 7/; report=rx report 1/failure 0 point 2 cause BadFree at 00010094/try 0 checkpoint 1 env pad result BadFree/try 1 checkpoint 1 env zero result BadFree/try 2 checkpoint 1 env isolate result BadFree/try 3 checkpoint 1 env delay result survived/failure 1 point 6 cause BadFree at 00010094/try 0 checkpoint 5 env pad result BadFree/try 1 checkpoint 5 env zero result BadFree/try 2 checkpoint 5 env isolate result BadFree/try 3 checkpoint 5 env delay result survived/end 0 taken 7 steps 190/
        # It was killed between the two: the second host recovers the other one, and numbers it on.
        reported=rx report 1/failure 0 point 2 cause BadFree at 00010094/try 0 checkpoint 1 env pad result BadFree/try 1 checkpoint 1 env zero result BadFree/try 2 checkpoint 1 env isolate result BadFree/try 3 checkpoint 1 env delay result survived/; counts=0 2/; end=Finished 0 6 [] 190 7; out=0200000200 620a 0200000200 630a 0200000200 640a 0200000200 650a 0200000200 660a; left=; o=rx record 2 window 4 frame line/m 00012000 - 00000020/m 00012020 - 00000020/m 00012040 - 00000020/m 00012060 - 00000020/m 00012080 - 00000020/m 000120a0 - 00000020/end 190 7/; report=rx report 1/failure 0 point 2 cause BadFree at 00010094/try 0 checkpoint 1 env pad result BadFree/try 1 checkpoint 1 env zero result BadFree/try 2 checkpoint 1 env isolate result BadFree/try 3 checkpoint 1 env delay result survived/failure 1 point 6 cause BadFree at 00010050/try 0 checkpoint 5 env pad result BadFree/try 1 checkpoint 5 env zero result BadFree/try 2 checkpoint 5 env isolate result BadFree/try 3 checkpoint 5 env delay result survived/end 0 taken 7 steps 190/
    "#,
    )
}

#[test]
fn an_environment_stays_as_long_as_under_the_host_before(rt: HostRuntime) -> Result<(), Fail> {
    play_rows(
        rt.alloc(),
        r#"
        overflow
        all: in=0100000000 0200002800 2a*39 0a 0200000300 68690a
        # Its second line was served padded; where a host keeps its environment for one item, it is served plainly, at whose first block the runs part.
        words=resume p r q c --record o --report t; before=rx record 2 window 4 frame line/m 00012100 - 00000010/m 00012310 - 00000010/m 00012100 - 00000010/m 00012310 - 00000010/; reported=rx report 1/failure 0 point 2 cause AssertFailed 1 at 000100ac/try 0 checkpoint 1 env pad result survived/; counts=0 10/; end=Finished 0 4 [] 368 3; out=0200001e00 2a*29 0a 0200000300 68690a; left=; o=rx record 2 window 4 frame line/m 00012100 - 00000010/m 00012310 - 00000010/m 00012100 - 00000010/m 00012310 - 00000010/end 368 3/; report=rx report 1/failure 0 point 2 cause AssertFailed 1 at 000100ac/try 0 checkpoint 1 env pad result survived/end 0 taken 3 steps 368/
        words=resume p r q c --record o --report t --keep 2; before=rx record 2 window 4 frame line/m 00012100 - 00000010/m 00012310 - 00000010/m 00012100 - 00000010/m 00012310 - 00000010/; reported=rx report 1/failure 0 point 2 cause AssertFailed 1 at 000100ac/try 0 checkpoint 1 env pad result survived/; counts=0 10/; end=Finished 0 4 [] 368 3; out=0200001e00 2a*29 0a 0200000300 68690a; left=; o=rx record 2 window 4 frame line/m 00012100 - 00000010/m 00012310 - 00000010/m 00012100 - 00000010/m 00012310 - 00000010/end 368 3/; report=rx report 1/failure 0 point 2 cause AssertFailed 1 at 000100ac/try 0 checkpoint 1 env pad result survived/end 0 taken 3 steps 368/
        words=resume p r q c --record o --report t --keep 1; before=rx record 2 window 4 frame line/m 00012100 - 00000010/m 00012310 - 00000010/m 00012100 - 00000010/m 00012310 - 00000010/; reported=rx report 1/failure 0 point 2 cause AssertFailed 1 at 000100ac/try 0 checkpoint 1 env pad result survived/; counts=0 10/; end=Mismatch { step: 313 } 3 0 [] 0 0; out=; left=; o=rx record 2 window 4 frame line/; report=rx report 1/failure 0 point 2 cause AssertFailed 1 at 000100ac/try 0 checkpoint 1 env pad result survived/
        # So it is of a host that kept it for one item.
        words=resume p r q c --record o --report t --keep 1; before=rx record 2 window 4 frame line/m 00012100 - 00000010/m 00012310 - 00000010/m 00012000 - 00000010/m 00012010 - 00000010/; reported=rx report 1/failure 0 point 2 cause AssertFailed 1 at 000100ac/try 0 checkpoint 1 env pad result survived/; counts=0 10/; end=Finished 0 4 [] 368 3; out=0200001e00 2a*29 0a 0200000300 68690a; left=; o=rx record 2 window 4 frame line/m 00012100 - 00000010/m 00012310 - 00000010/m 00012000 - 00000010/m 00012010 - 00000010/end 368 3/; report=rx report 1/failure 0 point 2 cause AssertFailed 1 at 000100ac/try 0 checkpoint 1 env pad result survived/end 0 taken 3 steps 368/
        words=resume p r q c --record o --report t; before=rx record 2 window 4 frame line/m 00012100 - 00000010/m 00012310 - 00000010/m 00012000 - 00000010/m 00012010 - 00000010/; reported=rx report 1/failure 0 point 2 cause AssertFailed 1 at 000100ac/try 0 checkpoint 1 env pad result survived/; counts=0 10/; end=Mismatch { step: 313 } 3 0 [] 0 0; out=; left=; o=rx record 2 window 4 frame line/; report=rx report 1/failure 0 point 2 cause AssertFailed 1 at 000100ac/try 0 checkpoint 1 env pad result survived/
        words=resume p r q c --record o --report t --keep 4294967295; before=rx record 2 window 4 frame line/m 00012100 - 00000010/m 00012310 - 00000010/m 00012000 - 00000010/m 00012010 - 00000010/; reported=rx report 1/failure 0 point 2 cause AssertFailed 1 at 000100ac/try 0 checkpoint 1 env pad result survived/; counts=0 10/; end=Mismatch { step: 313 } 3 0 [] 0 0; out=; left=; o=rx record 2 window 4 frame line/; report=rx report 1/failure 0 point 2 cause AssertFailed 1 at 000100ac/try 0 checkpoint 1 env pad result survived/
        # Each line of its input failed. The third one does so under the second host, and is the first that is given.
        words=resume p r q c --record o --report t --keep 1; in=0100000000 0200002800 2a*39 0a 0200002800 2a*39 0a 0200002800 2a*39 0a; before=rx record 2 window 4 frame line/; reported=rx report 1/failure 0 point 2 cause AssertFailed 1 at 000100ac/try 0 checkpoint 1 env pad result survived/failure 1 point 3 cause AssertFailed 1 at 000100ac/try 0 checkpoint 2 env pad result survived/; counts=0 80/; end=Finished 0 6 [] 877 4; out=0200002800 2a*39 0a; left=; o=rx record 2 window 4 frame line/m 00012100 - 00000010/m 00012310 - 00000010/m 00012100 - 00000010/m 00012310 - 00000010/m 00012100 - 00000010/m 00012310 - 00000010/end 877 4/; report=rx report 1/failure 0 point 2 cause AssertFailed 1 at 000100ac/try 0 checkpoint 1 env pad result survived/failure 1 point 3 cause AssertFailed 1 at 000100ac/try 0 checkpoint 2 env pad result survived/failure 2 point 4 cause AssertFailed 1 at 000100ac/try 0 checkpoint 3 env pad result survived/end 0 taken 4 steps 877/
        words=resume p r q c --record o --report t --keep 2; in=0100000000 0200002800 2a*39 0a 0200002800 2a*39 0a 0200002800 2a*39 0a; before=rx record 2 window 4 frame line/; reported=rx report 1/failure 0 point 2 cause AssertFailed 1 at 000100ac/try 0 checkpoint 1 env pad result survived/failure 1 point 3 cause AssertFailed 1 at 000100ac/try 0 checkpoint 2 env pad result survived/; counts=0 80/; end=Finished 0 6 [] 877 4; out=0200002800 2a*39 0a; left=; o=rx record 2 window 4 frame line/m 00012100 - 00000010/m 00012310 - 00000010/m 00012100 - 00000010/m 00012310 - 00000010/m 00012100 - 00000010/m 00012310 - 00000010/end 877 4/; report=rx report 1/failure 0 point 2 cause AssertFailed 1 at 000100ac/try 0 checkpoint 1 env pad result survived/failure 1 point 3 cause AssertFailed 1 at 000100ac/try 0 checkpoint 2 env pad result survived/end 0 taken 4 steps 877/
    "#,
    )
}

#[test]
fn replies_were_held_back(rt: HostRuntime) -> Result<(), Fail> {
    play_rows(
        rt.alloc(),
        r#"
        tell_over
        all: words=resume p r q c --record o --report t --hold 2; in=0100000000 0200000200 610a; before=rx record 2 window 4 frame line/; reported=rx report 1/failure 0 point 2 cause AssertFailed 5 at 000100c4/try 0 checkpoint 1 env pad result Contradicts/try 1 checkpoint 1 env zero result AssertFailed 5/try 2 checkpoint 1 env isolate result Contradicts/try 3 checkpoint 1 env delay result AssertFailed 5/try 4 checkpoint 1 env all result Contradicts/try 5 checkpoint 0 env pad result Contradicts/try 6 checkpoint 0 env zero result AssertFailed 5/try 7 checkpoint 0 env isolate result Contradicts/try 8 checkpoint 0 env delay result AssertFailed 5/try 9 checkpoint 0 env all result Contradicts/end 5 taken 2 steps 247/
        # The trial's reply was held back. After GaveUp another host tries again, and is as free as its clients' bytes let it.
        words=resume p r q c --record o --report t; reported=rx report 1/failure 0 point 2 cause AssertFailed 5 at 000100c4/try 0 checkpoint 1 env pad result survived/; counts=; end=Finished 0 2 [] 256 2; out=0200000900 30303031333130300a; left=; o=rx record 2 window 4 frame line/m 00013100 - 00000010/m 00013310 - 00000010/end 256 2/; report=rx report 1/failure 0 point 2 cause AssertFailed 5 at 000100c4/try 0 checkpoint 1 env pad result survived/end 0 taken 2 steps 256/
        before=rx record 2 window 4 frame line/m 00013000 - 00000010/m 00013010 - 00000010/end 247 2/; counts=0 9/; end=GaveUp { point: 2, cause: AssertFailed(5) } 5 2 [] 247 2; out=; left=; o=rx record 2 window 4 frame line/m 00013000 - 00000010/m 00013010 - 00000010/end 247 2/; report=rx report 1/failure 0 point 2 cause AssertFailed 5 at 000100c4/try 0 checkpoint 1 env pad result Contradicts/try 1 checkpoint 1 env zero result AssertFailed 5/try 2 checkpoint 1 env isolate result Contradicts/try 3 checkpoint 1 env delay result AssertFailed 5/try 4 checkpoint 1 env all result Contradicts/try 5 checkpoint 0 env pad result Contradicts/try 6 checkpoint 0 env zero result AssertFailed 5/try 7 checkpoint 0 env isolate result Contradicts/try 8 checkpoint 0 env delay result AssertFailed 5/try 9 checkpoint 0 env all result Contradicts/end 5 taken 2 steps 247/
        before=rx record 2 window 4 frame line/m 00013000 - 00000010/m 00013010 - 00000010/end 247 2/; counts=; end=Finished 0 2 [] 256 2; out=0200000900 30303031333130300a; left=; o=rx record 2 window 4 frame line/m 00013100 - 00000010/m 00013310 - 00000010/end 256 2/; report=rx report 1/failure 0 point 2 cause AssertFailed 5 at 000100c4/try 0 checkpoint 1 env pad result survived/end 0 taken 2 steps 256/
        # An older copy of the report lacks the failure.
        reported=rx report 1/; counts=0 9/; end=GaveUp { point: 2, cause: AssertFailed(5) } 5 2 [] 247 2; out=; left=; o=rx record 2 window 4 frame line/m 00013000 - 00000010/m 00013010 - 00000010/end 247 2/; report=rx report 1/failure 0 point 2 cause AssertFailed 5 at 000100c4/try 0 checkpoint 1 env pad result Contradicts/try 1 checkpoint 1 env zero result AssertFailed 5/try 2 checkpoint 1 env isolate result Contradicts/try 3 checkpoint 1 env delay result AssertFailed 5/try 4 checkpoint 1 env all result Contradicts/try 5 checkpoint 0 env pad result Contradicts/try 6 checkpoint 0 env zero result AssertFailed 5/try 7 checkpoint 0 env isolate result Contradicts/try 8 checkpoint 0 env delay result AssertFailed 5/try 9 checkpoint 0 env all result Contradicts/end 5 taken 2 steps 247/

        stale
        words=resume p r q c --record o --report t; in=0100000000 0200000200 610a 0200000200 620a 0200000200 630a; before=rx record 2 window 4 frame line/; reported=rx report 1/; counts=0 4/; end=Short { conn: 0 } 3 0 [] 0 0; out=; left=0200000200 630a; o=rx record 2 window 4 frame line/; report=rx report 1/
    "#,
    )
}

#[test]
fn clients_that_have_more_are_told(rt: HostRuntime) -> Result<(), Fail> {
    play_rows(
        rt.alloc(),
        r#"
        echo
        all: words=resume p r q c --record o --report t; in=0100000000 0200000200 610a 0200000200 620a; before=rx record 2 window 4 frame line/; reported=rx report 1/
        # The record's last line says where it is tested; without it the run goes on, up to the end of the input.
        before=rx record 2 window 4 frame line/end 34 2/; counts=0 3/; end=Short { conn: 0 } 3 0 [] 0 0; out=; left=0200000200 620a; o=rx record 2 window 4 frame line/; report=rx report 1/
        counts=0 3/; end=Finished 0 0 [] 52 3; out=0200000100 0a; left=; o=rx record 2 window 4 frame line/end 52 3/; report=rx report 1/end 0 taken 3 steps 52/
        counts=0 5/; end=Short { conn: 0 } 3 0 [] 0 0; out=; left=; o=rx record 2 window 4 frame line/; report=rx report 1/
        counts=0 2/7 1/; end=Short { conn: 7 } 3 0 [] 0 0; out=; left=; o=rx record 2 window 4 frame line/; report=rx report 1/
        # Connections that have closed by then are given nothing more.
        in=0100000000 0200000200 610a 0300000000 0101000000 0201000200 620a 0201000200 630a; counts=1 2/; end=Finished 0 0 [] 90 6; out=0201000200 630a; left=; o=rx record 2 window 4 frame line/end 90 6/; report=rx report 1/end 0 taken 6 steps 90/
        in=0100000000 0200000200 610a 0300000000 0101000000 0201000200 620a 0201000200 630a; counts=0 2/; end=Finished 0 0 [] 90 6; out=0201000200 620a 0201000200 630a; left=; o=rx record 2 window 4 frame line/end 90 6/; report=rx report 1/end 0 taken 6 steps 90/
        in=0100000000 0200000200 610a 0300000000 0101000000 0201000200 620a 0201000200 630a; counts=; end=Finished 0 0 [] 90 6; out=0200000200 610a 0201000200 620a 0201000200 630a; left=; o=rx record 2 window 4 frame line/end 90 6/; report=rx report 1/end 0 taken 6 steps 90/
    "#,
    )
}

#[test]
fn files_of_another_session_are_refused(rt: HostRuntime) -> Result<(), Fail> {
    play_rows(
        rt.alloc(),
        r#"
        echo
        all: words=resume p r q c --record o --report t; in=0100000000 0200000200 610a 0200000200 620a; before=rx record 2 window 4 frame line/; reported=rx report 1/
        # The first line that isn't of its form: of the record, the report, the counts, in this order.
        counts=0 02/; end=CountsRefused { line: 1 } 3 0 [] 0 0; out=; left=0100000000 0200000200 610a 0200000200 620a; o=none; report=rx record 2 window 4 frame line/
        reported=rx report 1/failure 1 point 2 cause Hang at 00010000/; counts=0 02/; end=ReportRefused { line: 2 } 3 0 [] 0 0; out=; left=0100000000 0200000200 610a 0200000200 620a; o=none; report=rx record 2 window 4 frame line/
        before=rx record 1 window 4 frame line/; reported=; counts=0 02/; end=RecordRefused { line: 1 } 3 0 [] 0 0; out=; left=0100000000 0200000200 610a 0200000200 620a; o=none; report=rx record 1 window 4 frame line/
        before=rx record 2 window 4 frame line; reported=; counts=0 02/; end=RecordRefused { line: 1 } 3 0 [] 0 0; out=; left=0100000000 0200000200 610a 0200000200 620a; o=none; report=rx record 2 window 4 frame line
        before=rx record 2 window 4 frame line/end 34 2/end 34 2/; counts=; end=RecordRefused { line: 3 } 3 0 [] 0 0; out=; left=0100000000 0200000200 610a 0200000200 620a; o=none; report=rx record 2 window 4 frame line/end 34 2/end 34 2/
        reported=rx report; counts=; end=ReportRefused { line: 1 } 3 0 [] 0 0; out=; left=0100000000 0200000200 610a 0200000200 620a; o=none; report=rx record 2 window 4 frame line/
        # A trial begins behind its failure. The record's last line is of another run, which is told where a client lacks bytes there.
        reported=rx report 1/failure 0 point 2 cause Hang at 00010000/try 0 checkpoint 2 env pad result survived/; counts=; end=Mismatch { step: 0 } 3 0 [] 0 0; out=; left=0100000000 0200000200 610a 0200000200 620a; o=rx record 2 window 4 frame line/; report=rx report 1/failure 0 point 2 cause Hang at 00010000/try 0 checkpoint 2 env pad result survived/
        before=rx record 2 window 4 frame line/end 33 2/; counts=0 3/; end=Mismatch { step: 34 } 3 0 [] 0 0; out=; left=0200000200 620a; o=rx record 2 window 4 frame line/; report=rx report 1/
        before=rx record 2 window 4 frame line/end 34 3/; counts=0 3/; end=Mismatch { step: 34 } 3 0 [] 0 0; out=; left=0200000200 620a; o=rx record 2 window 4 frame line/; report=rx report 1/
        before=rx record 2 window 4 frame line/end 33 2/; counts=; end=Finished 0 0 [] 52 3; out=0200000200 610a 0200000200 620a; left=; o=rx record 2 window 4 frame line/end 52 3/; report=rx report 1/end 0 taken 3 steps 52/
        # An event is refused before the run is released.
        in=0100000000 0500000000; counts=0 2/; end=InputRefused { kind: 1, offset: 5 } 4 0 [] 0 0; out=; left=; o=rx record 2 window 4 frame line/; report=rx report 1/
        in=0100000000 0200000110 61*4096 0a; counts=0 2/; end=MessageTooLong { conn: 0 } 4 0 [] 0 0; out=; left=; o=rx record 2 window 4 frame line/; report=rx report 1/

        stale
        words=resume p r q c --record o --report t; in=0100000000; before=rx record 2 window 4 frame line/; reported=rx report 1/failure 0 point 3 cause AssertFailed 3 at 000100e0/try 0 checkpoint 2 env pad result AssertFailed 3/try 1 checkpoint 2 env zero result AssertFailed 3/try 2 checkpoint 2 env isolate result AssertFailed 3/try 3 checkpoint 2 env delay result AssertFailed 3/try 4 checkpoint 2 env all result AssertFailed 3/try 5 checkpoint 1 env pad result AssertFailed 3/try 6 checkpoint 1 env zero result AssertFailed 3/try 7 checkpoint 1 env isolate result AssertFailed 3/try 8 checkpoint 1 env delay result survived/; counts=; end=Mismatch { step: 18 } 3 0 [] 0 0; out=; left=; o=rx record 2 window 4 frame line/; report=rx report 1/failure 0 point 3 cause AssertFailed 3 at 000100e0/try 0 checkpoint 2 env pad result AssertFailed 3/try 1 checkpoint 2 env zero result AssertFailed 3/try 2 checkpoint 2 env isolate result AssertFailed 3/try 3 checkpoint 2 env delay result AssertFailed 3/try 4 checkpoint 2 env all result AssertFailed 3/try 5 checkpoint 1 env pad result AssertFailed 3/try 6 checkpoint 1 env zero result AssertFailed 3/try 7 checkpoint 1 env isolate result AssertFailed 3/try 8 checkpoint 1 env delay result survived/

        overflow
        all: words=resume p r q c --record o --report t
        in=0100000000 0200002800 2a*39 0a 0200000300 68690a; before=rx record 2 window 4 frame line/m 00012010 - 00000010/; reported=rx report 1/failure 0 point 2 cause AssertFailed 1 at 000100ac/try 0 checkpoint 1 env pad result survived/; counts=; end=Mismatch { step: 26 } 3 0 [] 0 0; out=; left=0200000300 68690a; o=rx record 2 window 4 frame line/; report=rx report 1/failure 0 point 2 cause AssertFailed 1 at 000100ac/try 0 checkpoint 1 env pad result survived/
        in=0100000000 0200000300 68690a; before=rx record 2 window 4 frame line/m 00012000 - 00000010/m 00012010 - 00000010/end 81 2/; reported=rx report 1/; counts=; end=Finished 0 2 [] 81 2; out=0200000300 68690a; left=; o=rx record 2 window 4 frame line/m 00012000 - 00000010/m 00012010 - 00000010/end 81 2/; report=rx report 1/end 0 taken 2 steps 81/

        three
        words=resume p r q c --record o --report t --budget 3; in=; before=rx record 2 window 4 frame line/m 00012010 - 00000010/; reported=rx report 1/; counts=; end=Mismatch { step: 3 } 3 0 [] 0 0; out=; left=; o=rx record 2 window 4 frame line/; report=rx report 1/
    "#,
    )
}

#[test]
fn each_call_of_a_second_host_may_fail(rt: HostRuntime) -> Result<(), Fail> {
    play_rows(
        rt.alloc(),
        r#"
        overflow
        all: words=resume p r q c --record o --report t; in=0100000000 0200002800 2a*39 0a 0200000300 68690a
        # A file isn't there, or a call on one fails, before the run is followed.
        reported=rx report 1/failure 0 point 2 cause AssertFailed 1 at 000100ac/try 0 checkpoint 1 env pad result survived/; counts=; end=FileFault 9 0 [] 0 0; out=; left=0100000000 0200002800 2a*39 0a 0200000300 68690a; o=none; report=none
        before=rx record 2 window 4 frame line/; counts=; end=FileFault 9 0 [] 0 0; out=; left=0100000000 0200002800 2a*39 0a 0200000300 68690a; o=none; report=rx record 2 window 4 frame line/
        before=rx record 2 window 4 frame line/; reported=rx report 1/failure 0 point 2 cause AssertFailed 1 at 000100ac/try 0 checkpoint 1 env pad result survived/; end=FileFault 9 0 [] 0 0; out=; left=0100000000 0200002800 2a*39 0a 0200000300 68690a; o=none; report=rx record 2 window 4 frame line/
        before=rx record 2 window 4 frame line/; reported=rx report 1/failure 0 point 2 cause AssertFailed 1 at 000100ac/try 0 checkpoint 1 env pad result survived/; counts=0 10/; each=1..5; files=@; end=FileFault 9 0 [] 0 0; out=; left=0100000000 0200002800 2a*39 0a 0200000300 68690a; o=none; report=rx record 2 window 4 frame line/
        before=rx record 2 window 4 frame line/; reported=rx report 1/failure 0 point 2 cause AssertFailed 1 at 000100ac/try 0 checkpoint 1 env pad result survived/; counts=0 10/; files=6; end=FileFault 9 0 [] 0 0; out=; left=0100000000 0200002800 2a*39 0a 0200000300 68690a; o=; report=rx record 2 window 4 frame line/
        before=rx record 2 window 4 frame line/; reported=rx report 1/failure 0 point 2 cause AssertFailed 1 at 000100ac/try 0 checkpoint 1 env pad result survived/; counts=0 10/; files=7; end=FileFault 9 0 [] 0 0; out=; left=0100000000 0200002800 2a*39 0a 0200000300 68690a; o=; report=
        before=rx record 2 window 4 frame line/; reported=rx report 1/failure 0 point 2 cause AssertFailed 1 at 000100ac/try 0 checkpoint 1 env pad result survived/; counts=0 10/; files=8; end=FileFault 9 0 [] 0 0; out=; left=0100000000 0200002800 2a*39 0a 0200000300 68690a; o=; report=rx report 1/failure 0 point 2 cause AssertFailed 1 at 000100ac/try 0 checkpoint 1 env pad result survived/
        before=rx record 2 window 4 frame line/; reported=rx report 1/failure 0 point 2 cause AssertFailed 1 at 000100ac/try 0 checkpoint 1 env pad result survived/; counts=0 10/; each=1..3; source=@; end=ReadFault 7 0 [] 0 0; out=; o=rx record 2 window 4 frame line/; report=rx report 1/failure 0 point 2 cause AssertFailed 1 at 000100ac/try 0 checkpoint 1 env pad result survived/
        # Behind the release a write fails, a read, and the last lines of the files.
        before=rx record 2 window 4 frame line/; reported=rx report 1/failure 0 point 2 cause AssertFailed 1 at 000100ac/try 0 checkpoint 1 env pad result survived/; counts=0 10/; each=1..35; gives=1; sink=@; wrote=0200001e00 2a*29 0a; end=WriteFault 8 0 [Choice { ask: Malloc { size: 16 }, at: 73984, zeroed: false, carried: 0 }, Choice { ask: Malloc { size: 16 }, at: 74512, zeroed: false, carried: 0 }] 303 2; left=0200000300 68690a; o=rx record 2 window 4 frame line/; report=rx report 1/failure 0 point 2 cause AssertFailed 1 at 000100ac/try 0 checkpoint 1 env pad result survived/
        before=rx record 2 window 4 frame line/; reported=rx report 1/failure 0 point 2 cause AssertFailed 1 at 000100ac/try 0 checkpoint 1 env pad result survived/; counts=0 10/; source=4; end=ReadFault 7 0 [Choice { ask: Malloc { size: 16 }, at: 73984, zeroed: false, carried: 0 }, Choice { ask: Malloc { size: 16 }, at: 74512, zeroed: false, carried: 0 }] 303 2; out=0200001e00 2a*29 0a; o=rx record 2 window 4 frame line/; report=rx report 1/failure 0 point 2 cause AssertFailed 1 at 000100ac/try 0 checkpoint 1 env pad result survived/
        before=rx record 2 window 4 frame line/; reported=rx report 1/failure 0 point 2 cause AssertFailed 1 at 000100ac/try 0 checkpoint 1 env pad result survived/; counts=0 10/; files=9; end=FileFault 9 0 [Choice { ask: Malloc { size: 16 }, at: 73984, zeroed: false, carried: 0 }, Choice { ask: Malloc { size: 16 }, at: 74512, zeroed: false, carried: 0 }, Choice { ask: Malloc { size: 16 }, at: 73984, zeroed: false, carried: 0 }, Choice { ask: Malloc { size: 16 }, at: 74512, zeroed: false, carried: 0 }] 368 3; out=0200001e00 2a*29 0a 0200000300 68690a; left=; o=rx record 2 window 4 frame line/; report=rx report 1/failure 0 point 2 cause AssertFailed 1 at 000100ac/try 0 checkpoint 1 env pad result survived/
        before=rx record 2 window 4 frame line/; reported=rx report 1/failure 0 point 2 cause AssertFailed 1 at 000100ac/try 0 checkpoint 1 env pad result survived/; counts=0 10/; files=10; end=FileFault 9 4 [] 368 3; out=0200001e00 2a*29 0a 0200000300 68690a; left=; o=rx record 2 window 4 frame line/m 00012100 - 00000010/m 00012310 - 00000010/m 00012100 - 00000010/m 00012310 - 00000010/; report=rx report 1/failure 0 point 2 cause AssertFailed 1 at 000100ac/try 0 checkpoint 1 env pad result survived/
        before=rx record 2 window 4 frame line/; reported=rx report 1/failure 0 point 2 cause AssertFailed 1 at 000100ac/try 0 checkpoint 1 env pad result survived/; counts=0 10/; files=11; end=FileFault 9 4 [] 368 3; out=0200001e00 2a*29 0a 0200000300 68690a; left=; o=rx record 2 window 4 frame line/m 00012100 - 00000010/m 00012310 - 00000010/m 00012100 - 00000010/m 00012310 - 00000010/end 368 3/; report=rx report 1/failure 0 point 2 cause AssertFailed 1 at 000100ac/try 0 checkpoint 1 env pad result survived/

        twice
        all: words=resume p r q c --record o --report t --ring 2; in=0100000000 0200000200 610a 0200000200 620a 0200000200 630a 0200000200 640a 0200000200 650a 0200000200 660a; before=rx record 2 window 4 frame line/; reported=rx report 1/failure 0 point 2 cause BadFree at 00010094/try 0 checkpoint 1 env pad result BadFree/try 1 checkpoint 1 env zero result BadFree/try 2 checkpoint 1 env isolate result BadFree/try 3 checkpoint 1 env delay result survived/failure 1 point 6 cause BadFree at 00010094/try 0 checkpoint 5 env pad result BadFree/try 1 checkpoint 5 env zero result BadFree/try 2 checkpoint 5 env isolate result BadFree/try 3 checkpoint 5 env delay result survived/
        # It adds to the record while it follows, as the oldest of two checkpoints is given up: that fails, and the next time; and behind the release.
        counts=0 10/; files=9; end=FileFault 9 0 [] 0 0; out=; left=0200000200 630a 0200000200 640a 0200000200 650a 0200000200 660a; o=rx record 2 window 4 frame line/; report=rx report 1/failure 0 point 2 cause BadFree at 00010094/try 0 checkpoint 1 env pad result BadFree/try 1 checkpoint 1 env zero result BadFree/try 2 checkpoint 1 env isolate result BadFree/try 3 checkpoint 1 env delay result survived/failure 1 point 6 cause BadFree at 00010094/try 0 checkpoint 5 env pad result BadFree/try 1 checkpoint 5 env zero result BadFree/try 2 checkpoint 5 env isolate result BadFree/try 3 checkpoint 5 env delay result survived/
        counts=0 10/; files=10; end=FileFault 9 0 [] 0 0; out=; left=0200000200 640a 0200000200 650a 0200000200 660a; o=rx record 2 window 4 frame line/m 00012000 - 00000020/; report=rx report 1/failure 0 point 2 cause BadFree at 00010094/try 0 checkpoint 1 env pad result BadFree/try 1 checkpoint 1 env zero result BadFree/try 2 checkpoint 1 env isolate result BadFree/try 3 checkpoint 1 env delay result survived/failure 1 point 6 cause BadFree at 00010094/try 0 checkpoint 5 env pad result BadFree/try 1 checkpoint 5 env zero result BadFree/try 2 checkpoint 5 env isolate result BadFree/try 3 checkpoint 5 env delay result survived/
        counts=0 10/; files=12; end=FileFault 9 3 [Choice { ask: Malloc { size: 32 }, at: 73824, zeroed: false, carried: 0 }, Choice { ask: Malloc { size: 32 }, at: 73856, zeroed: false, carried: 0 }] 161 6; out=; left=0200000200 660a; o=rx record 2 window 4 frame line/m 00012000 - 00000020/m 00012020 - 00000020/m 00012040 - 00000020/; report=rx report 1/failure 0 point 2 cause BadFree at 00010094/try 0 checkpoint 1 env pad result BadFree/try 1 checkpoint 1 env zero result BadFree/try 2 checkpoint 1 env isolate result BadFree/try 3 checkpoint 1 env delay result survived/failure 1 point 6 cause BadFree at 00010094/try 0 checkpoint 5 env pad result BadFree/try 1 checkpoint 5 env zero result BadFree/try 2 checkpoint 5 env isolate result BadFree/try 3 checkpoint 5 env delay result survived/
    "#,
    )
}
