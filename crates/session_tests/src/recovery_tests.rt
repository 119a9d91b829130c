// Sessions whose program fails, and that go back to a checkpoint: what they pass, when, and what they leave. The values are those of
// `compare/second`, which was written from the rules. What a program does up to its first failure is worked by hand as well.
//
// At a failure each checkpoint is tried, from the newest to the oldest, under pad, zero, isolate, delay and all. The first block stands at
// 0x12000 behind a buffer of one page, and at 0x13000 behind more data. Padding puts it 0x100 further on, and the next one 0x210 behind it.
use std::test::Fail;
use test_rows::play_rows;

// A message of 40 bytes overruns a block of 16. What helps is padding, zero-filling, and delayed freeing of the others.
#[test]
fn a_checkpoint_survives(rt: HostRuntime) -> Result<(), Fail> {
    play_rows(
        rt.alloc(),
        "
            overflow o0|p0*. star=39 > Finished taken=2 o0|p0*.|g0*.|e0| steps=303 blocks=12100,12310,
            unset o0|p0hi. > Finished taken=2 o0|p0hi.|g0hi.|e0| steps=106 blocks=12000z,12000z,
            twice o0|p0hi. > Finished taken=2 o0|p0hi.|g0hi.|e0| steps=45 blocks=12000,
            stale o0|p0a.|p0b. > Finished taken=3 o0|p0a.|g0a.|p0b.|g0b.|e0| steps=141 blocks=12000,12040,
            tell_free o0|p0a. > Finished taken=2 o0|p0a.|g000013000.|e0| steps=119 blocks=13000,
            pair o0|o1|p1go. > Finished taken=3 o0|o1|p1go.|g0a.|g1b.|e0| steps=76 blocks=13000,13000,
            late o0|p0x. > Finished taken=2 o0|p0x.|g0a.|e0| steps=60 blocks=13000,13000,
        ",
    )
}

// A message of 40 bytes goes 8 past the end of a block of 32. The next one makes that larger: from before the first message, with padding, the 8
// stand in the padding and come along. They are lost in every other environment, and from the newer checkpoint.
#[test]
fn padding_comes_along_with_a_block(rt: HostRuntime) -> Result<(), Fail> {
    play_rows(
        rt.alloc(),
        "
            grows_once o0|p0*.|p0b. star=39 > Finished taken=3 o0|p0*.|g0*.|p0b.|g0*.b.|e0| steps=812 blocks=12000,12110,12330+100,
        ",
    )
}

// Nothing was passed before the failure, so no try contradicts, and what is passed is of the survivor alone.
#[test]
fn held_back_replies_contradict_nothing(rt: HostRuntime) -> Result<(), Fail> {
    play_rows(
        rt.alloc(),
        "
            unset o0|p0hi. hold=2 > Finished taken=2 o0|p0hi.|e0|g0hi.| steps=106 blocks=12000z,12000z,
            stale o0|p0a.|p0b. hold=2 > Finished taken=3 o0|p0a.|p0b.|e0|g0a.|g0b.| steps=141 blocks=12000,12040,
            tell_free o0|p0a. hold=2 > Finished taken=2 o0|p0a.|e0|g000013000.| steps=119 blocks=13000,
            tell_over o0|p0a. hold=2 > Finished taken=2 o0|p0a.|e0|g000013100.| steps=256 blocks=13100,13310,
            pair o0|o1|p1go. hold=2 > Finished taken=3 o0|o1|p1go.|e0|g1b.|g0x.| steps=73 blocks=13000,13100,
            late o0|p0x. hold=2 > Finished taken=2 o0|p0x.|e0| steps=47 blocks=13000,13100,
        ",
    )
}

// The steps and the blocks are those of the run that failed: null has 20 instructions up to its fault. Where one checkpoint stands, by the
// ring or for want of frames, stale isn't tried from before its first message.
#[test]
fn no_checkpoint_survives(rt: HostRuntime) -> Result<(), Fail> {
    play_rows(
        rt.alloc(),
        "
            null o0|p0hi. > GaveUp{point:2,cause:BadAccess} taken=2 o0|p0hi.| steps=20 blocks=
            null o0|p0hi. hold=1000 > GaveUp{point:2,cause:BadAccess} taken=2 o0|p0hi.| steps=20 blocks=
            tell_over o0|p0a. > GaveUp{point:2,cause:AssertFailed(5)} taken=2 o0|p0a.|g000013000.| steps=247 blocks=13000,13010,
            stale o0|p0a.|p0b. ring=1 > GaveUp{point:3,cause:AssertFailed(3)} taken=3 o0|p0a.|g0a.|p0b.| steps=131 blocks=12000,12000,
            stale o0|p0a.|p0b. frames=2 > GaveUp{point:3,cause:AssertFailed(3)} taken=3 o0|p0a.|g0a.|p0b.| steps=131 blocks=12000,12000,
            three - budget=3 > GaveUp{point:0,cause:Hang} taken=0 - steps=3 blocks=
        ",
    )
}

// A connection was given a part before it was gone. A try has to say that part again, and no more: five bytes of the address of tell_over's
// block are those of a padded one too, and six aren't.
#[test]
fn a_try_agrees_with_what_a_connection_was_given(rt: HostRuntime) -> Result<(), Fail> {
    play_rows(
        rt.alloc(),
        "
            tell_over o0|p0a. gone=3 after=5 > Finished taken=2 o0|p0a.|G000013|e0| steps=256 blocks=13100,13310,
            tell_over o0|p0a. gone=3 after=6 > GaveUp{point:2,cause:AssertFailed(5)} taken=2 o0|p0a.|G0000130| steps=247 blocks=13000,13010,
            stale o0|o1|p0a.|p1b. gone=4 after=1 > Finished taken=4 o0|o1|p0a.|G0a|p1b.|g1b.|e0| steps=151 blocks=12000,12040,
            pair o0|o1|p1go. gone=4 after=0 > Finished taken=3 o0|o1|p1go.|G0|g1b.|e0| steps=73 blocks=13000,13100,
            pair o0|o1|p1go. gone=5 after=1 > Finished taken=3 o0|o1|p1go.|g0a.|G1b|e0| steps=76 blocks=13000,13000,
        ",
    )
}

// What a close or a settle passed between the checkpoint and the failure isn't passed again, and nothing goes to a connection that was closed.
#[test]
fn closes_and_settles_stand(rt: HostRuntime) -> Result<(), Fail> {
    play_rows(
        rt.alloc(),
        "
            stale o0|p0a.|c0|o1|p1b. > Finished taken=5 o0|p0a.|g0a.|c0|o1|p1b.|g1b.|e0| steps=161 blocks=12000,12040,
            stale o0|p0a.|c0|o1|p1b. hold=1000 > Finished taken=5 o0|p0a.|c0|g0a.|o1|p1b.|e0|g1b.| steps=161 blocks=12000,12040,
            pair o0|o1|c1|p0go. > Finished taken=4 o0|o1|c1|p0go.|g0a.|e0| steps=86 blocks=13000,13000,
            pair o0|o1|c1|p0go. hold=1000 > Finished taken=4 o0|o1|c1|p0go.|e0|g0x.| steps=83 blocks=13000,13100,
            pair o0|o1|c0|p1go. hold=1000 > Finished taken=4 o0|o1|c0|p1go.|e0|g1b.| steps=83 blocks=13000,13100,
            stale o0|p0a.|s0|p0b. hold=1000 > Finished taken=3 o0|p0a.|s0|g0a.|p0b.|e0|g0b.| steps=141 blocks=12000,12040,
            tell_over o0|p0a.|s0|p0b.|s0 hold=1000 > Finished taken=3 o0|p0a.|s0|g000013100.|p0b.|s0|g000013100.|e0| steps=496 blocks=13100,13310,13100,13310,
        ",
    )
}

// An environment is in force for four items from the failure on. The next message is served plainly: there overflow's blocks stand as they would
// have at first. Where the program fails again, it is recovered again.
#[test]
fn a_program_fails_again(rt: HostRuntime) -> Result<(), Fail> {
    play_rows(
        rt.alloc(),
        "
            overflow o0|p0*.a.b.c.d.|p0*. star=39 > Finished taken=7 o0|p0*.a.b.c.d.|g0*.|g0a.|g0b.|g0c.|g0d.|p0*.|g0*.|e0| steps=826 blocks=12100,12310,12100,12310,12100,12310,12100,12310,12000,12010,12100,12310,
            twice o0|p0a.b.c.d.e. > Finished taken=6 o0|p0a.b.c.d.e.|g0a.|g0b.|g0c.|g0d.|g0e.|e0| steps=161 blocks=12000,12020,12040,12060,12080,
        ",
    )
}

// It is in force for as many items as a session is asked for.
#[test]
fn an_environment_is_kept_for_some_items(rt: HostRuntime) -> Result<(), Fail> {
    play_rows(
        rt.alloc(),
        "
            overflow o0|p0*.*.*.*.*.*.*.*.*.*.*.*. star=39 > Finished taken=13 steps=3460 watched=3 episodes=3 failure=2:AssertFailed(1)@100ac tries=1:Pad:Asks, failure=6:AssertFailed(1)@100ac tries=5:Pad:Asks, failure=10:AssertFailed(1)@100ac tries=9:Pad:Asks,
            overflow o0|p0*.*.*.*.*.*.*.*.*.*.*.*. star=39 keep=1 > Finished taken=13 steps=3460 watched=12 episodes=12 failure=2:AssertFailed(1)@100ac tries=1:Pad:Asks, failure=3:AssertFailed(1)@100ac tries=2:Pad:Asks, failure=4:AssertFailed(1)@100ac tries=3:Pad:Asks, failure=5:AssertFailed(1)@100ac tries=4:Pad:Asks, failure=6:AssertFailed(1)@100ac tries=5:Pad:Asks, failure=7:AssertFailed(1)@100ac tries=6:Pad:Asks, failure=8:AssertFailed(1)@100ac tries=7:Pad:Asks, failure=9:AssertFailed(1)@100ac tries=8:Pad:Asks, failure=10:AssertFailed(1)@100ac tries=9:Pad:Asks, failure=11:AssertFailed(1)@100ac tries=10:Pad:Asks, failure=12:AssertFailed(1)@100ac tries=11:Pad:Asks, failure=13:AssertFailed(1)@100ac tries=12:Pad:Asks,
            overflow o0|p0*.*.*.*.*.*.*.*.*.*.*.*. star=39 keep=8 > Finished taken=13 steps=3460 watched=2 episodes=2 failure=2:AssertFailed(1)@100ac tries=1:Pad:Asks, failure=10:AssertFailed(1)@100ac tries=9:Pad:Asks,
            overflow o0|p0*.*.*.*.*.*.*.*.*.*.*.*. star=39 keep=12 > Finished taken=13 steps=3460 watched=1 episodes=1 failure=2:AssertFailed(1)@100ac tries=1:Pad:Asks,
            overflow o0|p0*.*.*.*.*.*.*.*.*.*.*.*. star=39 keep=4294967295 > Finished taken=13 steps=3460 watched=1 episodes=1 failure=2:AssertFailed(1)@100ac tries=1:Pad:Asks,
        ",
    )
}

// One that a session is asked for is in force from the first instruction on, and again where none that was adopted is. It is tried as any other.
#[test]
fn an_environment_is_in_force_from_the_start(rt: HostRuntime) -> Result<(), Fail> {
    play_rows(
        rt.alloc(),
        "
            overflow o0|p0*.*.*.*.*.*.*.*.*.*.*.*. star=39 env=pad > Finished taken=13 steps=3460 watched=0 episodes=0
            unset o0|p0a.a.a. env=pad > Finished taken=4 steps=286 watched=1 episodes=1 failure=2:AssertFailed(2)@10098 tries=1:Pad:Failed(AssertFailed(2)),1:Zero:Asks,
            unset o0|p0a.a.a.a.a. env=pad > Finished taken=6 watched=2 episodes=2 failure=2:AssertFailed(2)@10098 tries=1:Pad:Failed(AssertFailed(2)),1:Zero:Asks, failure=6:AssertFailed(2)@10098 tries=5:Pad:Failed(AssertFailed(2)),5:Zero:Asks,
            unset o0|p0a.a.a.a.a. env=zero > Finished taken=6 watched=0 episodes=0
            tell_over o0|p0a. env=pad > Finished taken=2 o0|p0a.|g000013100.|e0| steps=256 blocks=13100,13310, watched=0 episodes=0
            tell_over o0|p0a. env=plain > GaveUp{point:2,cause:AssertFailed(5)} taken=2 o0|p0a.|g000013000.| steps=247 blocks=13000,13010, watched=1 episodes=1
        ",
    )
}

// Which checkpoints stand. Where the start is the only one, its environment is in force from the first instruction on.
#[test]
fn checkpoints_stand_by_the_options(rt: HostRuntime) -> Result<(), Fail> {
    play_rows(
        rt.alloc(),
        "
            stale o0|p0a.|p0b. ring=2 > Finished taken=3 o0|p0a.|g0a.|p0b.|g0b.|e0| steps=141 blocks=12000,12040,
            stale o0|p0a.|p0b. every=2 > Finished taken=3 o0|p0a.|g0a.|p0b.|g0b.|e0| steps=141 blocks=12000,12040,
            stale o0|p0a.|p0b. every=64 ring=1 > Finished taken=3 o0|p0a.|g0a.|p0b.|g0b.|e0| steps=141 blocks=12000,12040,
            pair o0|o1|c1|p0go. every=64 ring=1 hold=1000 > Finished taken=4 o0|o1|c1|p0go.|e0|g0x.| steps=83 blocks=13000,13010,
            dirty o0|p0a.|p0b.|p0c. frames=2 > Finished taken=4 o0|p0a.|g0a.|p0b.|g0b.|p0c.|g0c.|e0| steps=300 blocks=12000,
        ",
    )
}

// The first program exits within its trial. What helps the other two is isolation, and all at once.
#[test]
fn each_environment_is_tried(rt: HostRuntime) -> Result<(), Fail> {
    play_rows(
        rt.alloc(),
        "
            frees_twice_and_exits o0|p0hi. > Exited(3) taken=2 o0|p0hi.|g0hi.| steps=42 blocks=12000,
            frees_twice_and_exits o0|p0a.b.|c0 hold=1000 > Exited(2) taken=2 o0|p0a.b.|g0a.| steps=42 blocks=12000,
            writes_to_an_old_block o0|p0a.b. > Finished taken=3 o0|p0a.b.|g0a.|g0b.|e0| steps=1627 blocks=12000,88800,88810,
            overruns_and_frees_twice o0|p0a.b. > Finished taken=3 o0|p0a.b.|g0a.|g0b.|e0| steps=158 blocks=88900z,88b10z,88d20z,88f30z,
        ",
    )
}

// The link fails as the survivor's replies are passed, or behind them.
#[test]
fn a_link_fails_behind_a_recovery(rt: HostRuntime) -> Result<(), Fail> {
    play_rows(
        rt.alloc(),
        "
            twice o0|p0a.b.|p0c. fail=3 > WriteFault taken=2 o0|p0a.b.| steps=45 blocks=12000,
            twice o0|p0a.b.|p0c. fail=4 > WriteFault taken=3 o0|p0a.b.|g0a.| steps=67 blocks=12000,12020,
            twice o0|p0a.b.|p0c. fail=5 > ReadFault taken=3 o0|p0a.b.|g0a.|g0b.| steps=74 blocks=12000,12020,
            twice o0|p0a.|p0c. hold=1000 fail=5 > WriteFault taken=3 o0|p0a.|p0c.|e0| steps=74 blocks=12000,12020,
        ",
    )
}
