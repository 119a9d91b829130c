// Messages, items, links in memory and trunks, by the rules of their documents. The values are worked out by hand.
use crate::rows::play_rows;
use item_log::{CLOSED, MESSAGE, OPENED};
use std::test::Fail;

#[test]
fn pieces_are_cut_and_events_bring_items(rt: HostRuntime) -> Result<(), Fail> {
    play_rows(
        &rt,
        rt.alloc(),
        "
        cut line h|el|l|o|. > hello.|
        cut line x|y. > xy.|
        cut line a.b.c||.. > a.|b.|c.|.|
        cut length \x02\0\0\0hi > hi|
        cut length \x02|\0\0|\0h||i\x01\0\0|\0! > hi|!|
        cut length \x02\0\0\0h|i > hi|
        cut length \0\0\0\0 > |
        cut length \x01\x10\0\0 > !
        cut length \x01\0\0\0a\x01\x10\0\0|\x01\0\0\0a|\x01\x10\0|\0 > !a|!
        cut whole ab.||c > ab.|c|
        # A line of 4096 bytes is refused at its line feed; one of 4097 by itself, and the line feed is then a line.
        cut line *|. > *.| star=4095
        cut line *|. > ! star=4096
        cut line *|. > !.| star=4097
        cut whole *|. > *|.| star=4096
        cut whole *|. > !.| star=4097
        log line 2 o0|p0hi. > Ok(()) 0 2 true false 100|201hi.|
        log line 5 o0|o1|p1x|p0a.b.|p1y. > Ok(()) 0 5 true true 100|110|201a.|202b.|211xy.|
        log line 2 o7|p7h|p7e|p7l|p7lo|p7. > Ok(()) 0 2 false false 170|271hello.|
        # A rest is dropped at the close, and a connection that opens again begins anew.
        log line 4 o7|p7rest|c7|o7|p7new. > Ok(()) 0 4 false false 170|370|170|271new.|
        log line 1 s0|o3|s0 > Ok(()) 0 1 false false 130|
        log length 3 o2|p2\0\0\0\0\x02\0|p2\0\0hi > Ok(()) 0 3 false false 120|221|222hi|
        log whole 3 o2|p2|p2a.|c2 > Ok(()) 0 3 false false 120|221a.|321|
        log line 2 o5|p5a.b. > Err(Items) 0 1 false false 150|
        log line 1 o5|c5 > Err(Items) 0 1 false false 150|
        # Too many items and a message that is too long: the second is said.
        log length 2 o5|p5\x01\0\0\0a\0\0\0\0\0\x11\0\0 > Err(TooLong(5)) 0 1 false false 150|
        # A log is trimmed to numbers, and hears an event behind each.
        log line 10 o0|p0a.b.c.d|o1@3-p0. > Ok(()) 3 6 true true 203c.|110|204d.|
        log line 10 o0|p0a.b.c.d|o1@3-p0.@2-s0 > Ok(()) 3 6 true true 203c.|110|204d.|
        log line 10 o0|p0a.b.c.d|o1@3-p0.@2-s0@6-c0 > Ok(()) 6 7 false true 304|
        # A connection that opens again counts anew, also behind items that were given up.
        log line 10 o0|p0a.b.|c0@3-o0|p0c. > Ok(()) 3 6 true false 302|100|201c.|
    ",
    )
}

// A call of a link fails where its number stands.
#[test]
fn links_play_and_take_as_planned(rt: HostRuntime) -> Result<(), Fail> {
    play_rows(
        &rt,
        rt.alloc(),
        "
        list 9 - > Ok(Ends)
        list 9 o0|p0hi. > Ok(Opens(0)) Ok(Piece(0, Listed { values: [104, 105, 10] })) Ok(Ends)
        list 9 o0|p0hi.|e0|s0|c0 > Ok(Opens(0)) Ok(Piece(0, Listed { values: [104, 105, 10] })) Ok(Ends)
        list 2 o0|p0hi. > Ok(Opens(0)) Err(ReadFault)
        list 9 s0|p0hi. > Ok(Settles) Err(Refused { kind: 4, offset: 1 })
        list 9 o0|o0 > Ok(Opens(0)) Err(Refused { kind: 4, offset: 1 })
        list 2 o0|o0 > Ok(Opens(0)) Err(ReadFault)
        list 9 o0|c0|o0 > Ok(Opens(0)) Ok(Closes(0)) Err(Refused { kind: 4, offset: 2 })
        list 9 o0|c0|p0hi. > Ok(Opens(0)) Ok(Closes(0)) Err(Refused { kind: 4, offset: 2 })
        list 9 c0 > Err(Refused { kind: 4, offset: 0 })
        list 9 x > Err(Refused { kind: 4, offset: 0 })
        # The call that fails, and how many bytes go out at call 3, where the connection is gone.
        gives 9 1 > Ok(Gone(1)) [Took(Opens(0)), Gave { conn: 0, bytes: Listed { values: [120] }, gone: false }, Gave { conn: 0, bytes: Listed { values: [104] }, gone: true }]
        gives 9 0 > Ok(Gone(0)) [Took(Opens(0)), Gave { conn: 0, bytes: Listed { values: [120] }, gone: false }, Gave { conn: 0, bytes: Listed { values: [] }, gone: true }]
        gives 9 8 > Ok(Gone(3)) [Took(Opens(0)), Gave { conn: 0, bytes: Listed { values: [120] }, gone: false }, Gave { conn: 0, bytes: Listed { values: [104, 105, 10] }, gone: true }]
        gives 3 1 > Err(WriteFault) [Took(Opens(0)), Gave { conn: 0, bytes: Listed { values: [120] }, gone: false }]
    ",
    )
}

#[test]
fn frames_come_in_and_go_out(rt: HostRuntime) -> Result<(), Fail> {
    play_rows(
        &rt,
        rt.alloc(),
        "
        # Two frames and a part of a third, cut, with one byte a call, two, and many.
        trunk 1 0 - > Ok(Ends)
        trunk 2 0 - > Ok(Ends)
        trunk 100 0 - > Ok(Ends)
        trunk 1 0 01 > Err(Refused { kind: 5, offset: 0 })
        trunk 2 0 01 > Err(Refused { kind: 5, offset: 0 })
        trunk 100 0 01 > Err(Refused { kind: 5, offset: 0 })
        trunk 1 0 01000000 > Err(Refused { kind: 5, offset: 0 })
        trunk 2 0 01000000 > Err(Refused { kind: 5, offset: 0 })
        trunk 100 0 01000000 > Err(Refused { kind: 5, offset: 0 })
        trunk 1 0 0100000000 > Ok(Opens(0)) Ok(Ends)
        trunk 2 0 0100000000 > Ok(Opens(0)) Ok(Ends)
        trunk 100 0 0100000000 > Ok(Opens(0)) Ok(Ends)
        trunk 1 0 010000000002 > Ok(Opens(0)) Err(Refused { kind: 5, offset: 5 })
        trunk 2 0 010000000002 > Ok(Opens(0)) Err(Refused { kind: 5, offset: 5 })
        trunk 100 0 010000000002 > Ok(Opens(0)) Err(Refused { kind: 5, offset: 5 })
        trunk 1 0 01000000000200000300 > Ok(Opens(0)) Err(Refused { kind: 5, offset: 5 })
        trunk 2 0 01000000000200000300 > Ok(Opens(0)) Err(Refused { kind: 5, offset: 5 })
        trunk 100 0 01000000000200000300 > Ok(Opens(0)) Err(Refused { kind: 5, offset: 5 })
        trunk 1 0 010000000002000003006869 > Ok(Opens(0)) Err(Refused { kind: 5, offset: 5 })
        trunk 2 0 010000000002000003006869 > Ok(Opens(0)) Err(Refused { kind: 5, offset: 5 })
        trunk 100 0 010000000002000003006869 > Ok(Opens(0)) Err(Refused { kind: 5, offset: 5 })
        trunk 1 0 0100000000020000030068690a > Ok(Opens(0)) Ok(Piece(0, Listed { values: [104, 105, 10] })) Ok(Ends)
        trunk 2 0 0100000000020000030068690a > Ok(Opens(0)) Ok(Piece(0, Listed { values: [104, 105, 10] })) Ok(Ends)
        trunk 100 0 0100000000020000030068690a > Ok(Opens(0)) Ok(Piece(0, Listed { values: [104, 105, 10] })) Ok(Ends)
        trunk 1 0 0100000000020000030068690a020000 > Ok(Opens(0)) Ok(Piece(0, Listed { values: [104, 105, 10] })) Err(Refused { kind: 5, offset: 13 })
        trunk 2 0 0100000000020000030068690a020000 > Ok(Opens(0)) Ok(Piece(0, Listed { values: [104, 105, 10] })) Err(Refused { kind: 5, offset: 13 })
        trunk 100 0 0100000000020000030068690a020000 > Ok(Opens(0)) Ok(Piece(0, Listed { values: [104, 105, 10] })) Err(Refused { kind: 5, offset: 13 })
        # A frame is refused by the first rule that holds.
        trunk 100 0 0988130300 > Err(Refused { kind: 1, offset: 0 })
        trunk 100 0 0000000000 > Err(Refused { kind: 1, offset: 0 })
        trunk 100 0 0488130000 > Err(Refused { kind: 2, offset: 0 })
        trunk 100 0 0100100100 > Err(Refused { kind: 2, offset: 0 })
        trunk 100 0 01ff0f000001ff0f0100 > Ok(Opens(4095)) Err(Refused { kind: 6, offset: 5 })
        trunk 100 0 0300000001 > Err(Refused { kind: 6, offset: 0 })
        trunk 100 0 0400000100 > Err(Refused { kind: 6, offset: 0 })
        trunk 100 0 01000000000100000000 > Ok(Opens(0)) Err(Refused { kind: 3, offset: 5 })
        trunk 100 0 010000000003000000000100000000 > Ok(Opens(0)) Ok(Closes(0)) Err(Refused { kind: 3, offset: 10 })
        trunk 100 0 0200000300 > Err(Refused { kind: 4, offset: 0 })
        trunk 100 0 04000000000300000000 > Ok(Settles) Err(Refused { kind: 4, offset: 5 })
        trunk 100 0 010000000003000000000200000000 > Ok(Opens(0)) Ok(Closes(0)) Err(Refused { kind: 4, offset: 10 })
        trunk 100 0 01020000000202000000020200010178 > Ok(Opens(2)) Ok(Piece(2, Listed { values: [] })) Err(Refused { kind: 5, offset: 10 })
        # A read fails, with one byte a call. The last call finds the end.
        trunk 1 1 04050100000102010000 > Err(ReadFault)
        trunk 1 5 04050100000102010000 > Err(ReadFault)
        trunk 1 6 04050100000102010000 > Ok(Settles) Err(ReadFault)
        trunk 1 11 04050100000102010000 > Ok(Settles) Ok(Opens(258)) Err(ReadFault)
        trunk 1 12 04050100000102010000 > Ok(Settles) Ok(Opens(258)) Ok(Ends)
        # A piece goes out as a frame, header and payload at once.
        out 3 2 > Err(WriteFault) [2, 2, 1]
        out 3 1 > Err(WriteFault) []
        out 5 2 > Err(WriteFault) [2, 2, 1, 3, 0]
        out 2 4 > Err(WriteFault) [2, 2, 1, 3, 0, 104]
        out 2 5 > Ok(All) [2, 2, 1, 3, 0, 104, 105, 10]
        out 100 9 > Ok(All) [2, 2, 1, 3, 0, 104, 105, 10]
    ",
    )
}

#[test]
fn kinds_are_numbered(rt: HostRuntime) {
    assert_eq!(rt; (OPENED, MESSAGE, CLOSED), (1, 2, 3));
}
