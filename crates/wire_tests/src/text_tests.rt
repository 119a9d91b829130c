// Lines of the trunk's frames, by the rules of their documents. The values are worked out by hand.
use crate::rows::play_rows;
use std::test::Fail;

// The call of the source that fails, the call of the sink that does, or 0 where none does, the lines, and the frames.
#[test]
fn lines_become_frames(rt: HostRuntime) -> Result<(), Fail> {
    play_rows(
        &rt,
        rt.alloc(),
        "
        frame 0 0 +0.0>hi.-0.settle. > Finished 0100000000020000030068690a03000000000400000000
        frame 0 0 7<hi. > Finished 020700030068690a
        frame 0 0 0>half\\. > Finished 020000040068616c66
        frame 0 0 0>a > Finished 0200000200610a
        frame 0 0 0>. > Finished 02000001000a
        frame 0 0 0>\\. > Finished 0200000000
        frame 0 0 0>\\n\\r\\t\\\\\\x00\\x7F\\xfF\\. > Finished 02000007000a0d095c007fff
        frame 0 0 0>é#>\\. > Finished 0200000400c3a9233e
        # An empty line is nothing, and so is a comment.
        frame 0 0 .#x..+1. > Finished 0101000000
        frame 0 0 +258.-65535. > Finished 010201000003ffff0000
        # The third call of the sink fails, and the fourth, where a call takes four bytes.
        frame 0 3 +0.-0. > WriteFault 0100000000
        frame 0 4 +0.-0. > WriteFault 010000000003000000
        # The seventh byte isn't read.
        frame 7 0 +0.0>ab.-0. > ReadFault 0100000000
    ",
    )
}

// A line is refused at the byte where it begins, and the frames before it are written.
#[test]
fn lines_are_refused(rt: HostRuntime) -> Result<(), Fail> {
    play_rows(
        &rt,
        rt.alloc(),
        "
        frame 0 0 +0.x.-0. > Refused { flaw: Form, offset: 3 } 0100000000
        frame 0 0 settles > Refused { flaw: Form, offset: 0 }
        frame 0 0 0 > Refused { flaw: Form, offset: 0 }
        frame 0 0 0=a > Refused { flaw: Form, offset: 0 }
        frame 0 0 +0.+65536. > Refused { flaw: Number, offset: 3 } 0100000000
        frame 0 0 + > Refused { flaw: Number, offset: 0 }
        frame 0 0 -00 > Refused { flaw: Number, offset: 0 }
        frame 0 0 +0a > Refused { flaw: Number, offset: 0 }
        frame 0 0 .01>a. > Refused { flaw: Number, offset: 1 }
        frame 0 0 +0.0>\\q. > Refused { flaw: Escape, offset: 3 } 0100000000
        frame 0 0 0>\\x4g. > Refused { flaw: Escape, offset: 0 }
        frame 0 0 0>\\x4. > Refused { flaw: Escape, offset: 0 }
        frame 0 0 0>\\x. > Refused { flaw: Escape, offset: 0 }
        frame 0 0 +0.0>\x01. > Refused { flaw: Control, offset: 3 } 0100000000
        frame 0 0 0>\x7f. > Refused { flaw: Control, offset: 0 }
        # A piece has 65535 bytes at most, and its line feed is one of them.
        frame 0 0 0>*. > Refused { flaw: LongPiece, offset: 0 } star=65535
        # A line has 262147 bytes at most.
        frame 0 0 +0.#*. > Refused { flaw: LongLine, offset: 3 } 0100000000 star=262147
        frame 0 0 +0.#*. > Finished 0100000000 star=262146
    ",
    )
}

#[test]
fn frames_become_lines(rt: HostRuntime) -> Result<(), Fail> {
    play_rows(
        &rt,
        rt.alloc(),
        "
        unframe 0 0 0100000000020000030068690a03000000000400000000 > Finished +0.0<hi.-0.settle.
        unframe 0 0 020000040068616c66 > Finished 0<half\\.
        unframe 0 0 02000008000a0d095c007fc3a9 > Finished 0<\\n\\r\\t\\\\\\x00\\x7fé\\.
        unframe 0 0 0200000200 > Refused { flaw: Cut, offset: 0 }
        unframe 0 0 02000002001f0a > Finished 0<\\x1f.
        unframe 0 0 0200000000 > Finished 0<\\.
        unframe 0 0 02000001000a > Finished 0<.
        unframe 0 0 02000002000a0a > Finished 0<\\n.
        # The connection of a settle is left out.
        unframe 0 0 04ffff0000 > Finished settle.
        unframe 0 0 010a00000001640000000110270000030f270000 > Finished +10.+100.+10000.-9999.
        unframe 0 0 - > Finished
        unframe 0 0 01000000000000000000 > Refused { flaw: Kind, offset: 5 } +0.
        unframe 0 0 0500000000 > Refused { flaw: Kind, offset: 0 }
        unframe 0 0 0100000000030000010061 > Refused { flaw: Payload, offset: 5 } +0.
        unframe 0 0 010000000002000003006869 > Refused { flaw: Cut, offset: 5 } +0.
        unframe 0 0 010000000002 > Refused { flaw: Cut, offset: 5 } +0.
        # The second line isn't written; the seventh byte isn't read, nor the twelfth, which is of a payload.
        unframe 0 2 01000000000300000000 > WriteFault +0.
        unframe 7 0 0100000000020000030068690a > ReadFault +0.
        unframe 12 0 0100000000020000030068690a > ReadFault +0.
    ",
    )
}

#[test]
fn lines_and_frames_come_back(rt: HostRuntime) -> Result<(), Fail> {
    play_rows(
        &rt,
        rt.alloc(),
        "
        back lines +0.0>hi..#x.3>\\x41\\x0a.-0.settle > Finished Finished +0.0<hi.3<A\\n.-0.settle.
        back lines 65535>*\\. > Finished Finished 65535<*\\. star=65535
        back frames 0100000000020000030068690a0304000000040000000002090003000aff00 > Finished Finished 0100000000020000030068690a0304000000040000000002090003000aff00
        back frames 0407000000 > Finished Finished 0400000000
    ",
    )
}
