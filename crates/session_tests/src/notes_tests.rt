// What a session notes, and when; what it keeps of its items and its replies; and notes that fail. The trials are worked by hand from
// the programs' texts and the table of environments.
use std::test::Fail;
use test_rows::play_rows;

// The text begins at 0x10000, and an instruction has four bytes; `li` and `la` are two instructions. In unset the fill of words 1 stands
// where the second block is, unless that is filled with zeros. In twice only delayed freeing makes the second free one of a block that
// stands. In stale the old block has to be freed and delayed before the other one is made, which is before the newest checkpoint.
#[test]
fn trials_are_noted_up_to_the_one_that_survives(rt: HostRuntime) -> Result<(), Fail> {
    play_rows(
        rt.alloc(),
        "
            overflow o0|p0*. star=39 > watched=1 episodes=1 failure=2:AssertFailed(1)@100ac tries=1:Pad:Asks,
            unset o0|p0hi. > watched=1 episodes=1 failure=2:AssertFailed(2)@10098 tries=1:Pad:Failed(AssertFailed(2)),1:Zero:Asks,
            twice o0|p0hi. > watched=1 episodes=1 failure=2:BadFree@10050 tries=1:Pad:Failed(BadFree),1:Zero:Failed(BadFree),1:Isolate:Failed(BadFree),1:Delay:Asks,
            stale o0|p0a.|p0b. > watched=1 episodes=1 failure=3:AssertFailed(3)@100e0 tries=2:Pad:Failed(AssertFailed(3)),2:Zero:Failed(AssertFailed(3)),2:Isolate:Failed(AssertFailed(3)),2:Delay:Failed(AssertFailed(3)),2:All:Failed(AssertFailed(3)),1:Pad:Failed(AssertFailed(3)),1:Zero:Failed(AssertFailed(3)),1:Isolate:Failed(AssertFailed(3)),1:Delay:Asks,
        ",
    )
}

// The address of a block that a client was told stands in another place under pad, isolate and all. What was told to no one contradicts
// nothing. Where late's block stands elsewhere it sends nothing, and is behind what was passed.
#[test]
fn trials_agree_with_what_clients_were_told(rt: HostRuntime) -> Result<(), Fail> {
    play_rows(
        rt.alloc(),
        "
            tell_free o0|p0a. > watched=1 episodes=1 failure=2:BadFree@10078 tries=1:Pad:Contradicts,1:Zero:Failed(BadFree),1:Isolate:Contradicts,1:Delay:Asks,
            pair o0|o1|p1go. > watched=1 episodes=1 failure=3:BadFree@1009c tries=2:Pad:Contradicts,2:Zero:Failed(BadFree),2:Isolate:Contradicts,2:Delay:Asks,
            late o0|p0x. > watched=1 episodes=1 failure=2:BadFree@100a8 tries=1:Pad:Behind,1:Zero:Failed(BadFree),1:Isolate:Behind,1:Delay:Asks,
            tell_over o0|p0a. hold=2 > watched=1 episodes=1 failure=2:AssertFailed(5)@100c4 tries=1:Pad:Asks,
            tell_over o0|p0a. > watched=1 episodes=1 failure=2:AssertFailed(5)@100c4 tries=1:Pad:Contradicts,1:Zero:Failed(AssertFailed(5)),1:Isolate:Contradicts,1:Delay:Failed(AssertFailed(5)),1:All:Contradicts,0:Pad:Contradicts,0:Zero:Failed(AssertFailed(5)),0:Isolate:Contradicts,0:Delay:Failed(AssertFailed(5)),0:All:Contradicts,
        ",
    )
}

// Nothing helps null, nor three with a budget of three instructions, of which the start is the only checkpoint.
#[test]
fn all_trials_are_noted_where_none_survives(rt: HostRuntime) -> Result<(), Fail> {
    play_rows(
        rt.alloc(),
        "
            null o0|p0hi. > watched=1 episodes=1 failure=2:BadAccess@10028 tries=1:Pad:Failed(BadAccess),1:Zero:Failed(BadAccess),1:Isolate:Failed(BadAccess),1:Delay:Failed(BadAccess),1:All:Failed(BadAccess),0:Pad:Failed(BadAccess),0:Zero:Failed(BadAccess),0:Isolate:Failed(BadAccess),0:Delay:Failed(BadAccess),0:All:Failed(BadAccess),
            three - budget=3 > watched=1 episodes=1 failure=0:Hang@1000c tries=0:Pad:Failed(Hang),0:Zero:Failed(Hang),0:Isolate:Failed(Hang),0:Delay:Failed(Hang),0:All:Failed(Hang),
        ",
    )
}

// Each message of overflow makes two blocks. All are noted at an end. Where the link fails, those are that were made before the oldest
// checkpoint.
#[test]
fn answers_are_noted_with_their_checkpoints(rt: HostRuntime) -> Result<(), Fail> {
    play_rows(
        rt.alloc(),
        "
            overflow o0|p0hi.|p0yo. > Finished taken=3 o0|p0hi.|g0hi.|p0yo.|g0yo.|e0| recorded=4 noted=4 behind=0 watched=0 episodes=0
            overflow o0|p0hi.|p0yo. ring=1 > Finished taken=3 o0|p0hi.|g0hi.|p0yo.|g0yo.|e0| recorded=4 noted=4 behind=0 watched=0 episodes=0
            overflow o0|p0hi.|p0yo. ring=2 > Finished taken=3 o0|p0hi.|g0hi.|p0yo.|g0yo.|e0| recorded=4 noted=4 behind=0 watched=0 episodes=0
            overflow o0|p0*. star=39 > Finished taken=2 o0|p0*.|g0*.|e0| recorded=2 noted=2 behind=0 watched=1 episodes=1
            tell_over o0|p0a. > GaveUp{point:2,cause:AssertFailed(5)} taken=2 o0|p0a.|g000013000.| recorded=2 noted=2 behind=0 episodes=1
            three - budget=3 > GaveUp{point:0,cause:Hang} taken=0 - recorded=0 noted=0 behind=0 episodes=1
            overflow o0|p0hi.|p0yo. fail=5 > WriteFault taken=3 o0|p0hi.|g0hi.|p0yo.| recorded=0 noted=0 behind=4 episodes=0
            overflow o0|p0hi.|p0yo. ring=1 fail=5 > WriteFault taken=3 o0|p0hi.|g0hi.|p0yo.| recorded=2 noted=2 behind=2 episodes=0
            overflow o0|p0hi.|p0yo. fail=6 > ReadFault taken=3 o0|p0hi.|g0hi.|p0yo.|g0yo.| recorded=0 noted=0 behind=4 episodes=0
            overflow o0|p0hi.|p0yo. ring=1 fail=6 > ReadFault taken=3 o0|p0hi.|g0hi.|p0yo.|g0yo.| recorded=4 noted=4 behind=0 episodes=0
            overflow o0|p0hi.|p0yo. ring=2 fail=6 > ReadFault taken=3 o0|p0hi.|g0hi.|p0yo.|g0yo.| recorded=2 noted=2 behind=2 episodes=0
            overflow o0|p0hi.|p0yo. ring=1 every=2 fail=6 > ReadFault taken=3 o0|p0hi.|g0hi.|p0yo.|g0yo.| recorded=2 noted=2 behind=2 episodes=0
        ",
    )
}

// The reply to the second message fails. What stands behind the noted answers is of that message.
#[test]
fn a_tail_has_the_later_blocks(rt: HostRuntime) -> Result<(), Fail> {
    play_rows(
        rt.alloc(),
        "
            overflow o0|p0hi.|p0yo. ring=1 fail=5 > noted_blocks=12000,12010, behind_blocks=12000,12010,
        ",
    )
}

// Nothing is passed behind a failed call of the notes, and what was noted stays. At an end all was passed before. Where ring 1 has all
// answers noted before the end, no call is left for it.
#[test]
fn notes_fail(rt: HostRuntime) -> Result<(), Fail> {
    play_rows(
        rt.alloc(),
        "
            # The rest of the answers, at an end.
            overflow o0|p0hi.|p0yo. note_fail=1 > FileFault taken=3 o0|p0hi.|g0hi.|p0yo.|g0yo.|e0| recorded=0 noted=0 behind=4 episodes=0
            overflow o0|p0hi.|p0yo. ring=2 note_fail=2 > FileFault taken=3 o0|p0hi.|g0hi.|p0yo.|g0yo.|e0| recorded=2 noted=2 behind=2 episodes=0
            overflow o0|p0hi.|p0yo. ring=1 note_fail=3 > Finished taken=3 o0|p0hi.|g0hi.|p0yo.|g0yo.|e0| recorded=4 noted=4 behind=0 episodes=0
            # Answers from before the oldest checkpoint.
            overflow o0|p0hi.|p0yo. ring=1 note_fail=1 > FileFault taken=2 o0|p0hi.|g0hi.| recorded=0 noted=0 behind=2 episodes=0
            overflow o0|p0hi.|p0yo. ring=1 note_fail=2 > FileFault taken=3 o0|p0hi.|g0hi.|p0yo.|g0yo.| recorded=2 noted=2 behind=2 episodes=0
            overflow o0|p0hi.|p0yo. ring=1 hold=1000 note_fail=1 > FileFault taken=2 o0|p0hi.| recorded=0 noted=0 behind=2 episodes=0
            overflow o0|p0hi.|p0yo. ring=1 hold=1000 note_fail=2 > FileFault taken=3 o0|p0hi.|p0yo.| recorded=2 noted=2 behind=2 episodes=0
            # An episode, of which a trial survived or none.
            overflow o0|p0*. note_fail=1 star=39 > FileFault taken=2 o0|p0*.| recorded=0 noted=0 behind=2 behind_blocks=12100,12310, episodes=0
            overflow o0|p0*. note_fail=2 star=39 > FileFault taken=2 o0|p0*.|g0*.|e0| recorded=0 noted=0 behind=2 episodes=1
            overflow o0|p0*. ring=1 note_fail=2 star=39 > FileFault taken=2 o0|p0*.|g0*.| recorded=0 noted=0 behind=2 episodes=1
            null o0|p0hi. note_fail=1 > FileFault taken=2 o0|p0hi.| recorded=0 noted=0 behind=0 episodes=0
            twice o0|p0a.b.c.d.e. note_fail=2 > FileFault taken=6 o0|p0a.b.c.d.e.|g0a.|g0b.|g0c.|g0d.| recorded=0 noted=0 behind=5 episodes=1
        ",
    )
}

// The same where they have no memory any more.
#[test]
fn notes_are_short_of_memory(rt: HostRuntime) -> Result<(), Fail> {
    play_rows(
        rt.alloc(),
        "
            overflow o0|p0hi.|p0yo. note_memory=0 > Memory taken=3 o0|p0hi.|g0hi.|p0yo.|g0yo.|e0| recorded=0 noted=0 behind=4 episodes=0
            overflow o0|p0hi.|p0yo. ring=1 note_memory=0 > Memory taken=2 o0|p0hi.|g0hi.| recorded=0 noted=0 behind=2 episodes=0
            overflow o0|p0hi.|p0yo. ring=1 note_memory=1 > Memory taken=3 o0|p0hi.|g0hi.|p0yo.|g0yo.| recorded=2 noted=2 behind=2 episodes=0
            overflow o0|p0*. note_memory=0 star=39 > Memory taken=2 o0|p0*.| recorded=0 noted=0 behind=2 episodes=0
            overflow o0|p0*. note_memory=1 star=39 > Memory taken=2 o0|p0*.|g0*.|e0| recorded=0 noted=0 behind=2 episodes=1
            null o0|p0hi. note_memory=0 > Memory taken=2 o0|p0hi.| recorded=0 noted=0 behind=0 episodes=0
        ",
    )
}

// Echo hears an open and five lines. Items are kept from the oldest checkpoint on, and replies too.
#[test]
fn a_session_keeps_what_a_trial_needs(rt: HostRuntime) -> Result<(), Fail> {
    play_rows(
        rt.alloc(),
        "
            echo o0|p0a.|p0b.|p0c.|p0d.|p0e. ring=2 > Finished kept=5,6,4,6
            echo o0|p0a.|p0b.|p0c.|p0d.|p0e. ring=2 hold=1000 > Finished kept=5,6,4,6
            echo o0|p0a.|p0b.|p0c.|p0d.|p0e. ring=1 > Finished kept=6,6,5,6
            echo o0|p0a.|p0b.|p0c.|p0d.|p0e. ring=2 every=2 > Finished kept=4,6,3,6
            echo o0|p0a.|p0b.|p0c.|p0d.|p0e. frames=2 > Finished kept=6,6,5,6
            echo o0|p0a.|p0b.|p0c.|p0d.|p0e. > Finished kept=0,6,0,6
        ",
    )
}
