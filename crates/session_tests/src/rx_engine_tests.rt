// What sessions over a link pass on, when, and how they end. The journals, the counts of instructions and the places of blocks
// are worked by hand from the texts of the programs.
use std::test::Fail;
use test_rows::play_rows;

#[test]
fn messages_are_answered_on_their_connections(rt: HostRuntime) -> Result<(), Fail> {
    play_rows(
        rt.alloc(),
        "
            echo - > Finished taken=0 e0|
            echo o0|c0 > Finished taken=2 o0|c0|e0|
            echo o0|p0|s0 > Finished taken=1 o0|p0|s0|e0|
            echo o0|p0hi. > Finished taken=2 o0|p0hi.|g0hi.|e0|
            echo o0|p0h|p0e|p0l|p0l|p0o. > Finished taken=2 o0|p0h|p0e|p0l|p0l|p0o.|g0hello.|e0|
            echo o0|o1|p1x|p0a.b.|p1y. > Finished taken=5 o0|o1|p1x|p0a.b.|g0a.|g0b.|p1y.|g1xy.|e0|
            # Two messages and a half come in one piece. The half is completed, or dropped at the close.
            echo o0|p0a.b.c|p0d. > Finished taken=4 o0|p0a.b.c|g0a.|g0b.|p0d.|g0cd.|e0|
            echo o0|p0a.b.c|c0 > Finished taken=4 o0|p0a.b.c|g0a.|g0b.|c0|e0|
        ",
    )
}

#[test]
fn replies_are_held_back(rt: HostRuntime) -> Result<(), Fail> {
    play_rows(
        rt.alloc(),
        "
            echo o0|p0a.|p0b.|p0c. hold=2 > Finished taken=4 o0|p0a.|p0b.|p0c.|g0a.|e0|g0b.|g0c.|
            echo o0|p0a.b.c. hold=2 > Finished taken=4 o0|p0a.b.c.|g0a.|e0|g0b.|g0c.|
            echo o0|p0a.|p0x|p0y. hold=1 > Finished taken=3 o0|p0a.|p0x|p0y.|g0a.|e0|g0xy.|
            # A settle passes all.
            echo o0|o1|p0a.|p1b.|s0|p0c. hold=2 > Finished taken=5 o0|o1|p0a.|p1b.|s0|g0a.|g1b.|p0c.|e0|g0c.|
            echo o0|p0a.|s0|p0b. hold=5 > Finished taken=3 o0|p0a.|s0|g0a.|p0b.|e0|g0b.|
            echo o0|p0a.|s0|s0 hold=1000 > Finished taken=2 o0|p0a.|s0|g0a.|s0|e0|
            # A close passes the rest of its connection alone. It is an item of which a reply may be behind.
            echo o0|o1|p0a.|p1b.|p0c.|c0 hold=1000 > Finished taken=6 o0|o1|p0a.|p1b.|p0c.|c0|g0a.|g0c.|e0|g1b.|
            echo o0|o1|p0a.|p1b.|c1 hold=2 > Finished taken=5 o0|o1|p0a.|p1b.|c1|g1b.|g0a.|e0|
            echo o0|o1|p0a.|p1b.|c1 hold=1 > Finished taken=5 o0|o1|p0a.|p1b.|g0a.|c1|g1b.|e0|
        ",
    )
}

// Each message is sent to connections 0 and 1, from wherever it came.
#[test]
fn nothing_goes_to_a_closed_connection(rt: HostRuntime) -> Result<(), Fail> {
    play_rows(
        rt.alloc(),
        "
            tells_both o0|p0a. > Finished taken=2 o0|p0a.|g0a.|e0|
            tells_both o0|o1|p0a.|c0|p1b. > Finished taken=5 o0|o1|p0a.|g0a.|g1a.|c0|p1b.|g1b.|e0|
            tells_both o0|o1|p0a.|p1b.|c0|p1c. hold=1000 > Finished taken=6 o0|o1|p0a.|p1b.|c0|g0a.|g0b.|p1c.|e0|g1a.|g1b.|g1c.|
        ",
    )
}

#[test]
fn nothing_goes_to_a_connection_that_is_gone(rt: HostRuntime) -> Result<(), Fail> {
    play_rows(
        rt.alloc(),
        "
            echo o0|p0hi. gone=3 after=1 > Finished taken=2 o0|p0hi.|G0h|e0|
            echo o0|p0hi. gone=3 after=9 > Finished taken=2 o0|p0hi.|G0hi.|e0|
            echo o0|p0a.b. gone=3 after=0 > Finished taken=3 o0|p0a.b.|G0|e0|
            echo o0|p0a.|c0 gone=3 after=0 > Finished taken=3 o0|p0a.|G0|c0|e0|
            echo o0|o1|p0hi.|p1yo.|p0again. gone=4 after=1 > Finished taken=5 o0|o1|p0hi.|G0h|p1yo.|g1yo.|p0again.|e0|
            echo o0|o1|p0a.|p0b.|p1c.|c0 hold=1000 gone=7 after=0 > Finished taken=6 o0|o1|p0a.|p0b.|p1c.|c0|G0|e0|g1c.|
        ",
    )
}

// The event that is too much was taken from the link, and changes nothing. What is held back is passed at the end.
#[test]
fn items_and_events_have_limits(rt: HostRuntime) -> Result<(), Fail> {
    play_rows(
        rt.alloc(),
        "
            echo o0|p0a.|p0b. max_items=2 max_events=99 > LimitItems taken=2 o0|p0a.|g0a.|p0b.|
            echo o0|p0a.|p0b.c. max_items=3 max_events=99 > LimitItems taken=2 o0|p0a.|g0a.|p0b.c.|
            echo o0|p0a.|c0 max_items=2 max_events=99 hold=9 > LimitItems taken=2 o0|p0a.|c0|g0a.|
            echo o0|o1 max_items=1 max_events=99 > LimitItems taken=1 o0|o1|
            echo o0|p0a. max_items=99 max_events=1 > LimitEvents taken=1 o0|p0a.|
            echo o0|s0|p0a. max_items=99 max_events=2 > LimitEvents taken=1 o0|s0|p0a.|
            echo o0|p0a.|s0 max_items=99 max_events=2 hold=9 > LimitEvents taken=2 o0|p0a.|s0|g0a.|
            echo o0|p0a. max_items=1 max_events=1 > LimitEvents taken=1 o0|p0a.|
            echo o0|s0|p0a. max_items=2 max_events=3 > Finished taken=2 o0|s0|p0a.|g0a.|e0|
        ",
    )
}

// What is held back is passed at the end. A star stands for so many bytes `x`.
#[test]
fn a_message_has_4096_bytes_at_most(rt: HostRuntime) -> Result<(), Fail> {
    play_rows(
        rt.alloc(),
        "
            echo o0|p0*. star=4095 hold=9 > Finished taken=2 o0|p0*.|e0|g0*.|
            echo o0|p0*. star=4096 hold=9 > MessageTooLong{conn:0} taken=1 o0|p0*.|
            echo o0|p0a.* star=4097 hold=9 > MessageTooLong{conn:0} taken=1 o0|p0a.*|
            echo o0|o1|p0a.|p1* star=4097 hold=9 > MessageTooLong{conn:1} taken=3 o0|o1|p0a.|p1*|g0a.|
            echo o0|p0* frame=whole star=4096 hold=9 > Finished taken=2 o0|p0*|e0|g0*|
            echo o0|p0* frame=whole star=4097 hold=9 > MessageTooLong{conn:0} taken=1 o0|p0*|
            echo o0|p0a.*|p0|p0b frame=whole star=1 hold=9 > Finished taken=3 o0|p0a.*|p0|p0b|e0|g0a.*|g0b|
            echo o0|p0\x02\0\0\0hi frame=length hold=9 > Finished taken=2 o0|p0\x02\0\0\0hi|e0|g0hi|
            echo o0|p0\0\0\0\0 frame=length hold=9 > Finished taken=2 o0|p0\0\0\0\0|e0|
            echo o0|p0\x01\x10\0\0 frame=length hold=9 > MessageTooLong{conn:0} taken=1 o0|p0\x01\x10\0\0|
        ",
    )
}

// After a fault nothing more is passed. Where the link refuses, what is held back is.
#[test]
fn a_link_fails_in_mid_stream(rt: HostRuntime) -> Result<(), Fail> {
    play_rows(
        rt.alloc(),
        "
            echo o0 fail=1 > ReadFault taken=0 -
            echo o0|p0hi.|p0yo. fail=4 > ReadFault taken=2 o0|p0hi.|g0hi.|
            echo o0|p0hi.|p0yo. hold=9 fail=3 > ReadFault taken=2 o0|p0hi.|
            echo o0|p0hi. fail=3 > WriteFault taken=2 o0|p0hi.|
            echo o0|p0a.b.|p0c. fail=4 > WriteFault taken=3 o0|p0a.b.|g0a.|
            echo o0|p0a.|s0|p0b. hold=9 fail=4 > WriteFault taken=2 o0|p0a.|s0|
            echo o0|p0a.|c0 hold=9 fail=4 > WriteFault taken=2 o0|p0a.|c0|
            echo o0|p0a.b. hold=9 fail=5 > WriteFault taken=3 o0|p0a.b.|e0|g0a.|
            echo o0|p0a.|o0 hold=9 fail=99 > InputRefused{kind:4,offset:2} taken=2 o0|p0a.|g0a.|
            echo o0|p0a.|o0 hold=9 fail=4 > WriteFault taken=2 o0|p0a.|
            echo p0x. fail=99 > InputRefused{kind:4,offset:0} taken=0 -
            echo o0|p1x. fail=99 > InputRefused{kind:4,offset:1} taken=1 o0|
            echo o0|c0|p0x. fail=99 > InputRefused{kind:4,offset:2} taken=2 o0|c0|
        ",
    )
}

// A link runs out of memory. Nothing more is passed.
#[test]
fn a_link_is_short_of_memory(rt: HostRuntime) -> Result<(), Fail> {
    play_rows(
        rt.alloc(),
        "
            echo o0 memory=0 > Memory taken=0 -
            echo o0|p0hi.|p0yo. memory=2 > Memory taken=2 o0|p0hi.|
            echo o0|p0hi.|p0yo. memory=3 > Memory taken=2 o0|p0hi.|g0hi.|
            echo o0|p0hi.|p0yo. hold=9 memory=2 > Memory taken=2 o0|p0hi.|
            echo o0|p0a.|s0|p0b. hold=9 memory=3 > Memory taken=2 o0|p0a.|s0|
            echo o0|p0a.|c0 hold=9 memory=3 > Memory taken=2 o0|p0a.|c0|
            echo o0|p0a.b. hold=9 memory=4 > Memory taken=3 o0|p0a.b.|e0|g0a.|
        ",
    )
}

// The least and the most of each number that a session is asked for.
#[test]
fn each_number_has_two_ends(rt: HostRuntime) -> Result<(), Fail> {
    play_rows(
        rt.alloc(),
        "
            echo o0|p0hi. ring=1 every=1 frames=2 budget=1 max_items=1 max_events=1 > GaveUp{point:0,cause:Hang} taken=0 -
            echo o0|p0hi. ring=1 every=1 frames=2 budget=10 max_items=1 max_events=1 > LimitEvents taken=1 o0|p0hi.|
            echo o0|p0hi. hold=1000 ring=16 every=64 frames=16 budget=68719476736 > Finished taken=2 o0|p0hi.|e0|g0hi.|
        ",
    )
}

// Up to its first request echo has 6 instructions, `li` and `la` being two; from an open's recv to the next request 10, and from a
// message's 18.
#[test]
fn instructions_are_counted_and_limited(rt: HostRuntime) -> Result<(), Fail> {
    play_rows(
        rt.alloc(),
        "
            echo - > Finished taken=0 e0| steps=6
            echo o0|p0hi. budget=18 > Finished taken=2 o0|p0hi.|g0hi.|e0| steps=34
            echo - budget=6 > GaveUp{point:0,cause:Hang} taken=0 - steps=6
            echo o0 budget=7 > GaveUp{point:1,cause:Hang} taken=1 o0| steps=14
            echo o0|p0hi. budget=10 > GaveUp{point:2,cause:Hang} taken=2 o0|p0hi.|g0hi.| steps=27
        ",
    )
}

// The first block of overflow stands at 0x12000, and that of a program without data at 0x11000. Of 1 MiB there isn't so much left.
#[test]
fn a_program_ends(rt: HostRuntime) -> Result<(), Fail> {
    play_rows(
        rt.alloc(),
        "
            three - hold=9 > Finished taken=0 e0| blocks=
            overflow o0|p0hi. hold=9 > Finished taken=2 o0|p0hi.|e0|g0hi.| blocks=12000,12010,
            answers_once o0|p0hi.|c0 hold=9 > Exited(3) taken=2 o0|p0hi.|g0hi.| blocks=
            asks_for_blocks o0|p0hi. hold=9 > Exited(0) taken=0 - blocks=11000,11020,0,11030,11020,
        ",
    )
}

// Each reply of these depends on the message and on what came before.
#[test]
fn programs_answer_by_what_they_hear(rt: HostRuntime) -> Result<(), Fail> {
    play_rows(
        rt.alloc(),
        "
            counter o0|o1|p0x.|p1y.z. > Finished taken=5 o0|o1|p0x.|g01.|p1y.z.|g12.|g13.|e0|
            divide o0|p07_0.|p0-2147483648_-1.-7_2. > Finished taken=4 o0|p07_0.|g0-1_7.|p0-2147483648_-1.-7_2.|g0-2147483648_0.|g0-3_-1.|e0|
        ",
    )
}
