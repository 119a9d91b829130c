// A second host that takes over by the record and the counts of a first one. The values are worked by hand from the rules and from the texts of
// the guests, and are those of `compare/second` too: the echo does 6 instructions up to its recv, 10 for an item that is no message, and 18 for one
// that is, of which the 11th is the send. Overflow does 16 up to its first message, and 47 and 6 for each byte to the next.
//
// Calls on files are to load the program, the record and the counts, to start `o`, and to add to it its first line and the rest. The source is
// called once for an open, and twice for a line.
use std::test::Fail;
use test_commands::play_rows;

#[test]
fn a_second_host_takes_over_as_its_row_says(rt: HostRuntime) -> Result<(), Fail> {
    play_rows(
        rt.alloc(),
        r#"
        echo
        all: words=standby p r c --record o; in=0100000000 0200000200 610a 0200000200 620a; before=rx record 2 window 4 frame line/end 34 2/
        # All bytes are there, one is missing, all are; the record is of version 1.
        counts=0 2/; end=Finished 0 0 [] 52 3; out=0200000200 620a; left=; o=rx record 2 window 4 frame line/end 52 3/
        counts=0 1/; end=Finished 0 0 [] 52 3; out=0200000100 0a 0200000200 620a; left=; o=rx record 2 window 4 frame line/end 52 3/
        counts=; end=Finished 0 0 [] 52 3; out=0200000200 610a 0200000200 620a; left=; o=rx record 2 window 4 frame line/end 52 3/
        before=rx record 1 window 4 frame line/end 34 2/; counts=0 0/7 0/; end=Finished 0 0 [] 52 3; out=0200000200 610a 0200000200 620a; left=; o=rx record 2 window 4 frame line/end 52 3/
        counts=0 1/; takes=1; gives=1; end=Finished 0 0 [] 52 3; out=0200000100 0a 0200000200 620a; left=; o=rx record 2 window 4 frame line/end 52 3/
        # Nothing comes behind the record. What was sent twice is joined, and cut behind 65,535 bytes.
        in=0100000000 0200000200 610a; counts=; end=Finished 0 0 [] 34 2; out=0200000200 610a; left=; o=rx record 2 window 4 frame line/end 34 2/
        before=rx record 2 window 4 frame line/end 52 3/; counts=; end=Finished 0 0 [] 52 3; out=0200000400 610a620a; left=; o=rx record 2 window 4 frame line/end 52 3/
        before=rx record 2 window 4 frame line/end 52 3/; counts=0 3/; end=Finished 0 0 [] 52 3; out=0200000100 0a; left=; o=rx record 2 window 4 frame line/end 52 3/
        in=0100000000 0200000010 61*4095 0a 0200000010 61*4095 0a 0200000010 61*4095 0a 0200000010 61*4095 0a 0200000010 61*4095 0a 0200000010 61*4095 0a 0200000010 61*4095 0a 0200000010 61*4095 0a 0200000010 61*4095 0a 0200000010 61*4095 0a 0200000010 61*4095 0a 0200000010 61*4095 0a 0200000010 61*4095 0a 0200000010 61*4095 0a 0200000010 61*4095 0a 0200000010 61*4095 0a 0200000010 61*4095 0a; before=rx record 2 window 4 frame line/end 322 18/; counts=; end=Finished 0 0 [] 322 18; out=020000ffff 61*4095 0a 61*4095 0a 61*4095 0a 61*4095 0a 61*4095 0a 61*4095 0a 61*4095 0a 61*4095 0a 61*4095 0a 61*4095 0a 61*4095 0a 61*4095 0a 61*4095 0a 61*4095 0a 61*4095 0a 61*4095 0200000110 0a 61*4095 0a; left=
        # Connections are given what they lack in rising order, and a closed one isn't. It closes behind the record too.
        in=0103000000 0101000000 0203000200 780a 0201000200 790a; before=rx record 2 window 4 frame line/end 62 4/; counts=; end=Finished 0 0 [] 62 4; out=0201000200 790a 0203000200 780a; left=
        in=0103000000 0101000000 0203000200 780a 0201000200 790a; before=rx record 2 window 4 frame line/end 62 4/; counts=1 2/3 1/; end=Finished 0 0 [] 62 4; out=0203000100 0a; left=
        in=0100000000 0200000200 610a 0300000000 0101000000 0201000200 620a 0201000200 630a; before=rx record 2 window 4 frame line/end 72 5/; counts=1 1/; end=Finished 0 0 [] 90 6; out=0201000100 0a 0201000200 630a; left=; o=rx record 2 window 4 frame line/end 90 6/
        in=0100000000 0200000200 610a 0300000000 0101000000; before=rx record 2 window 4 frame line/end 54 4/; counts=0 3/; end=Short { conn: 0 } 3 0 [] 0 0; out=; left=; o=none
        in=0100000000 0200000200 610a 0300000000; counts=; end=Finished 0 0 [] 44 3; out=0200000200 610a; left=; o=rx record 2 window 4 frame line/end 44 3/
        # Window and framing are the record's.
        in=0100000000 0200000600 02000000 6869 0200000600 02000000 686f; before=rx record 2 window 1 frame length/end 34 2/; counts=0 2/; end=Finished 0 0 [] 52 3; out=0200000200 686f; left=; o=rx record 2 window 1 frame length/end 52 3/
        in=0100000000 0200000200 6869 0200000200 686f; before=rx record 1 window 64 frame whole/end 34 2/; counts=0 2/; end=Finished 0 0 [] 52 3; out=0200000200 686f; left=; o=rx record 2 window 64 frame whole/end 52 3/
        # The budget counts from the item that the recorded run took last. What is missing comes before it is used up.
        words=standby p r c --record o --budget 18; counts=0 2/; end=Finished 0 0 [] 52 3; out=0200000200 620a; left=
        words=standby p r c --record o --budget 17; counts=0 1/; end=GaveUp { point: 2, cause: Hang } 5 0 [] 34 2; out=0200000100 0a; left=0200000200 620a; o=rx record 2 window 4 frame line/end 34 2/
        # Events are refused behind the record, and within it.
        in=0100000000 0200000200 610a 020000; counts=; end=InputRefused { kind: 5, offset: 12 } 4 0 [] 34 2; out=0200000200 610a; left=; o=rx record 2 window 4 frame line/end 34 2/
        in=0100000000 0200000200 610a 0200000110 61*4096 0a; counts=; end=MessageTooLong { conn: 0 } 4 0 [] 34 2; out=0200000200 610a; left=; o=rx record 2 window 4 frame line/end 34 2/
        in=0100000000 0500000000; counts=; end=InputRefused { kind: 1, offset: 5 } 4 0 [] 0 0; out=; left=; o=none
        in=0100000000 0200000110 61*4096 0a; counts=; end=MessageTooLong { conn: 0 } 4 0 [] 0 0; out=; left=; o=none
        # Until its record is started nothing is written.
        counts=0 3/; end=Short { conn: 0 } 3 0 [] 0 0; out=; left=0200000200 620a; o=none
        counts=0 2/1 1/4095 1/; end=Short { conn: 1 } 3 0 [] 0 0; out=; left=0200000200 620a; o=none
        counts=0 9223372036854775807/; end=Short { conn: 0 } 3 0 [] 0 0; out=; left=0200000200 620a; o=none
        in=0100000000; counts=0 3/; end=Mismatch { step: 16 } 3 0 [] 0 0; differs=Some(InputEnded); out=; left=; o=none
        before=rx record 2 window 4 frame line/end 34 1/; counts=0 3/; end=Mismatch { step: 34 } 3 0 [] 0 0; differs=Some(ItemsApart { taken: 2, told: 1 }); out=; left=0200000200 620a; o=none
        # The first line of the counts that isn't of its form; and of the record, before them.
        counts=0 02/; end=CountsRefused { line: 1 } 3 0 [] 0 0; out=; left=0100000000 0200000200 610a 0200000200 620a; o=none
        counts=0 2; end=CountsRefused { line: 1 } 3 0 [] 0 0; out=; left=0100000000 0200000200 610a 0200000200 620a; o=none
        counts=1 2/0 2/; end=CountsRefused { line: 2 } 3 0 [] 0 0; out=; left=0100000000 0200000200 610a 0200000200 620a; o=none
        counts=0 1/0 1/; end=CountsRefused { line: 2 } 3 0 [] 0 0; out=; left=0100000000 0200000200 610a 0200000200 620a; o=none
        counts=0 1/4096 1/; end=CountsRefused { line: 2 } 3 0 [] 0 0; out=; left=0100000000 0200000200 610a 0200000200 620a; o=none
        counts=0 1/1 9223372036854775808/; end=CountsRefused { line: 2 } 3 0 [] 0 0; out=; left=0100000000 0200000200 610a 0200000200 620a; o=none
        counts=0 1/ 1 1/; end=CountsRefused { line: 2 } 3 0 [] 0 0; out=; left=0100000000 0200000200 610a 0200000200 620a; o=none
        counts=0 1//; end=CountsRefused { line: 2 } 3 0 [] 0 0; out=; left=0100000000 0200000200 610a 0200000200 620a; o=none
        in=0100000000; before=rx record 2 window 4 frame line/m 00012000 -/end 34 2/; counts=0 02/; end=RecordRefused { line: 2 } 3 0 [] 0 0; out=; left=0100000000; o=none
        in=0100000000; before=rx record 2 window 4 frame line/; counts=0 02/; end=RecordRefused { line: 2 } 3 0 [] 0 0; out=; left=0100000000; o=none
        # A record of 2^62 instructions is refused at its last line, and one of fewer isn't.
        in=0100000000; before=rx record 2 window 4 frame line/m 00012000 - 00000010/m 00012010 - 00000010/end 4611686018427387904 2/; counts=0 02/; end=RecordRefused { line: 4 } 3 0 [] 0 0; out=; left=0100000000; o=none
        in=0100000000; before=rx record 2 window 4 frame line/end 4611686018427387903 2/; counts=; end=Mismatch { step: 16 } 3 0 [] 0 0; differs=Some(InputEnded); out=; left=; o=none
        words=standby p r c --record c; in=0100000000; counts=0 2/; end=BadWords 2 0 [] 0 0; out=; left=0100000000

        echo
        all: words=standby p r c --record o; in=0100000000 0200000200 610a 0200000200 620a
        # Record or counts aren't there. Each call on the files fails, on the source and on the sink.
        counts=0 2/; end=FileFault 9 0 [] 0 0; out=; left=0100000000 0200000200 610a 0200000200 620a; o=none
        before=rx record 2 window 4 frame line/end 34 2/; end=FileFault 9 0 [] 0 0; out=; left=0100000000 0200000200 610a 0200000200 620a; o=none
        each=1..3; before=rx record 2 window 4 frame line/end 34 2/; counts=0 1/; files=@; end=FileFault 9 0 [] 0 0; out=; left=0100000000 0200000200 610a 0200000200 620a; o=none
        before=rx record 2 window 4 frame line/end 34 2/; counts=0 1/; files=4; end=FileFault 9 0 [] 0 0; out=; left=0200000200 620a; o=none
        before=rx record 2 window 4 frame line/end 34 2/; counts=0 1/; files=5; end=FileFault 9 0 [] 0 0; out=; left=0200000200 620a; o=
        before=rx record 2 window 4 frame line/end 34 2/; counts=0 1/; files=6; end=FileFault 9 0 [] 52 3; out=0200000100 0a 0200000200 620a; left=; o=rx record 2 window 4 frame line/
        each=1..3; before=rx record 2 window 4 frame line/end 34 2/; counts=0 1/; source=@; end=ReadFault 7 0 [] 0 0; out=; o=none
        each=4..5; before=rx record 2 window 4 frame line/end 34 2/; counts=0 1/; source=@; end=ReadFault 7 0 [] 34 2; out=0200000100 0a; o=rx record 2 window 4 frame line/
        before=rx record 2 window 4 frame line/end 34 2/; counts=0 1/; source=6; end=ReadFault 7 0 [] 52 3; out=0200000100 0a 0200000200 620a; left=; o=rx record 2 window 4 frame line/
        each=1..6; before=rx record 2 window 4 frame line/end 34 2/; counts=0 1/; gives=1; sink=@; end=WriteFault 8 0 [] 34 2; wrote=0200000100 0a 0200000200 620a; left=0200000200 620a; o=rx record 2 window 4 frame line/
        each=7..13; before=rx record 2 window 4 frame line/end 34 2/; counts=0 1/; gives=1; sink=@; end=WriteFault 8 0 [] 45 3; wrote=0200000100 0a 0200000200 620a; left=; o=rx record 2 window 4 frame line/

        overflow
        all: words=standby p r c --record o; in=0100000000 0200002800 78*39 0a 0200000100 0a; before=rx record 2 window 4 frame line/m 00012100 - 00000010/m 00012310 - 00000010/end 303 2/
        # A write of the first host failed, within the reply. Its record has been completed.
        in=0100000000 0200000300 68690a; before=rx record 2 window 4 frame line/m 00012000 - 00000010/m 00012010 - 00000010/end 68 2/; counts=; end=Finished 0 2 [] 81 2; out=0200000300 68690a; left=; o=rx record 2 window 4 frame line/m 00012000 - 00000010/m 00012010 - 00000010/end 81 2/
        # Behind the record's end blocks stand as without an environment, and a failure is the end.
        before=rx record 1 window 4 frame line/m 00012100 -/m 00012310 -/end 303 2/; counts=0 40/; end=Finished 0 4 [] 356 3; out=0200000100 0a; left=; o=rx record 2 window 4 frame line/m 00012100 - 00000010/m 00012310 - 00000010/m 00012000 - 00000010/m 00012010 - 00000010/end 356 3/
        in=0100000000 0200002800 78*39 0a 0200002800 78*39 0a; counts=0 39/; end=GaveUp { point: 3, cause: AssertFailed(1) } 5 4 [] 575 3; out=0200000100 0a; left=; o=rx record 2 window 4 frame line/m 00012100 - 00000010/m 00012310 - 00000010/m 00012000 - 00000010/m 00012010 - 00000010/end 575 3/
        counts=0 40/; sink=1; end=WriteFault 8 0 [Choice { ask: Malloc { size: 16 }, at: 73984, zeroed: false, carried: 0 }, Choice { ask: Malloc { size: 16 }, at: 74512, zeroed: false, carried: 0 }, Choice { ask: Malloc { size: 16 }, at: 73728, zeroed: false, carried: 0 }, Choice { ask: Malloc { size: 16 }, at: 73744, zeroed: false, carried: 0 }] 343 3; out=; left=; o=rx record 2 window 4 frame line/

        stale
        words=standby p r c --record o; in=0100000000 0200000200 610a 0200000200 620a 0200000200 630a; before=rx record 2 window 4 frame line/m 00012000 - 00000040/m 00012040 - 00000040/end 141 3/; counts=0 2/; end=Finished 0 2 [] 166 4; out=0200000200 620a 0200000200 630a; left=; o=rx record 2 window 4 frame line/m 00012000 - 00000040/m 00012040 - 00000040/end 166 4/

        pair
        words=standby p r c --record o; in=0100000000 0101000000 0201000300 676f0a 0201000300 676f0a; before=rx record 2 window 4 frame line/m 00013000 - 00000010/m 00013000 - 00000010/end 76 3/; counts=0 2/; end=GaveUp { point: 4, cause: BadFree } 5 3 [] 100 4; out=0201000200 620a 0200000200 610a; left=; o=rx record 2 window 4 frame line/m 00013000 - 00000010/m 00013000 - 00000010/m 00013000 - 00000010/end 100 4/

        null
        # The first host gave up, and so does the second one.
        words=standby p r c --record o; in=0100000000 0200000200 780a; before=rx record 2 window 4 frame line/end 20 2/; counts=; end=GaveUp { point: 2, cause: BadAccess } 5 0 [] 20 2; out=; left=; o=rx record 2 window 4 frame line/end 20 2/

        three
        all: words=standby p r c --record o; in=0100000000; before=rx record 2 window 4 frame line/end 3 0/
        counts=; end=GaveUp { point: 1, cause: BadAccess } 5 0 [] 4 1; out=; left=; o=rx record 2 window 4 frame line/end 4 1/
        words=standby p r c --record o --budget 4; in=; counts=; end=Finished 0 0 [] 3 0; out=; left=
        words=standby p r c --record o --budget 3; in=; counts=; end=GaveUp { point: 0, cause: Hang } 5 0 [] 3 0; out=; left=
        before=rx record 2 window 4 frame line/end 5 1/; counts=; end=Mismatch { step: 4 } 3 0 [] 0 0; differs=Some(Failed { cause: BadAccess }); out=; left=; o=none

        li a0, 1/li a7, 5/ecall/
        # It had ended itself; and it ends itself behind the record.
        words=standby p r c --record o; in=0100000000; before=rx record 2 window 4 frame line/end 5 0/; counts=; end=Exited(1) 1 0 [] 5 0; out=; left=0100000000; o=rx record 2 window 4 frame line/end 5 0/

        li a7, 1/ecall/ecall/li a0, 7/li a7, 5/ecall/
        words=standby p r c --record o; in=0100000000 0200000200 780a; before=rx record 2 window 4 frame line/end 3 1/; counts=; end=Exited(7) 1 0 [] 9 2; out=; left=; o=rx record 2 window 4 frame line/end 9 2/

        bytes=7f454c46
        all: words=standby p r c --record o; in=00; before=rx record 2 window 4 frame line/end 34 2/
        # The counts are read before the program.
        counts=0 02/; end=CountsRefused { line: 1 } 3 0 [] 0 0; out=; left=00; o=none
        counts=0 2/; end=ElfRefused(1) 3 0 [] 0 0; out=; left=00; o=none
    "#,
    )
}
