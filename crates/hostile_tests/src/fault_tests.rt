// Programs that are no executables, input and records that are cut or changed, and each call that may fail, at each place. The answer, the counts, the output
// and the two files are worked by hand from the rules and from the texts of the guests, and are those of `compare/second` too.
//
// Where a call moves one byte, the place of the failure follows from its number. At the n-th call on the source n - 1 bytes were taken: the session stands at
// the request to which the frames that are whole by then led it. At the n-th call on the sink n - 1 bytes were written: the session stands where the
// frame that comes next was given. Behind a call that failed none is made, so record and report have what was noted up to it, and no last line.
//
// Most of a session's time here is its memory: window and frames are the smallest with which it does the same.
use std::test::Fail;
use test_commands::play_rows;

// An edit of the executable of guest three, and the number of its refusal in the table of docs/USING.md. It is loaded, and there is no call more on a file:
// the second one would fail.
#[test]
fn a_program_that_is_no_executable_is_refused(rt: HostRuntime) -> Result<(), Fail> {
    play_rows(
        rt.alloc(),
        r#"
        three
        edit=0:00; in=0100000000 0200000300 68690a; files=2; before=as it was/; end=ElfRefused(2) 3 0 [] 0 0; out=; left=0100000000 0200000300 68690a; record=as it was/; report=as it was/
        edit=4:02; in=0100000000 0200000300 68690a; files=2; before=as it was/; end=ElfRefused(3) 3 0 [] 0 0; out=; left=0100000000 0200000300 68690a; record=as it was/; report=as it was/
        edit=5:02; in=0100000000 0200000300 68690a; files=2; before=as it was/; end=ElfRefused(4) 3 0 [] 0 0; out=; left=0100000000 0200000300 68690a; record=as it was/; report=as it was/
        edit=16:03; in=0100000000 0200000300 68690a; files=2; before=as it was/; end=ElfRefused(5) 3 0 [] 0 0; out=; left=0100000000 0200000300 68690a; record=as it was/; report=as it was/
        edit=18:00; in=0100000000 0200000300 68690a; files=2; before=as it was/; end=ElfRefused(6) 3 0 [] 0 0; out=; left=0100000000 0200000300 68690a; record=as it was/; report=as it was/
        edit=36:01; in=0100000000 0200000300 68690a; files=2; before=as it was/; end=ElfRefused(7) 3 0 [] 0 0; out=; left=0100000000 0200000300 68690a; record=as it was/; report=as it was/
        edit=42:1f; in=0100000000 0200000300 68690a; files=2; before=as it was/; end=ElfRefused(8) 3 0 [] 0 0; out=; left=0100000000 0200000300 68690a; record=as it was/; report=as it was/
        edit=52:03; in=0100000000 0200000300 68690a; files=2; before=as it was/; end=ElfRefused(9) 3 0 [] 0 0; out=; left=0100000000 0200000300 68690a; record=as it was/; report=as it was/
        edit=52:07; in=0100000000 0200000300 68690a; files=2; before=as it was/; end=ElfRefused(10) 3 0 [] 0 0; out=; left=0100000000 0200000300 68690a; record=as it was/; report=as it was/
        edit=72:0f; in=0100000000 0200000300 68690a; files=2; before=as it was/; end=ElfRefused(11) 3 0 [] 0 0; out=; left=0100000000 0200000300 68690a; record=as it was/; report=as it was/
        edit=56:ff 57:ff 58:ff 59:ff; in=0100000000 0200000300 68690a; files=2; before=as it was/; end=ElfRefused(11) 3 0 [] 0 0; out=; left=0100000000 0200000300 68690a; record=as it was/; report=as it was/
        edit=44:00; in=0100000000 0200000300 68690a; files=2; before=as it was/; end=ElfRefused(13) 3 0 [] 0 0; out=; left=0100000000 0200000300 68690a; record=as it was/; report=as it was/
        edit=24:02; in=0100000000 0200000300 68690a; files=2; before=as it was/; end=ElfRefused(14) 3 0 [] 0 0; out=; left=0100000000 0200000300 68690a; record=as it was/; report=as it was/
        edit=74:40; in=0100000000 0200000300 68690a; files=2; before=as it was/; end=ElfRefused(15) 3 0 [] 0 0; out=; left=0100000000 0200000300 68690a; record=as it was/; report=as it was/
        edit=4:02 18:00; in=0100000000 0200000300 68690a; files=2; before=as it was/; end=ElfRefused(3) 3 0 [] 0 0; out=; left=0100000000 0200000300 68690a; record=as it was/; report=as it was/

        bytes=7f454c46 01010100 00000000 00000000 0200f300 01000000 00000100 34000000 00000000 00000000 34002000 01000000 000000
        in=0100000000 0200000300 68690a; files=2; before=as it was/; end=ElfRefused(1) 3 0 [] 0 0; out=; left=0100000000 0200000300 68690a; record=as it was/; report=as it was/

        bytes=7f454c46 01010100 00000000 00000000 0200f300 01000000 00000100 34000000 00000000 00000000 34002000 02000000 00000000 01000000 74000000 00000100 00000100 10000000 10000000 05000000 01000000 01000000 74000000 00000100 00000100 10000000 10000000 05000000 01000000 93081000 93050000 13050000 73000000
        in=0100000000 0200000300 68690a; files=2; before=as it was/; end=ElfRefused(12) 3 0 [] 0 0; out=; left=0100000000 0200000300 68690a; record=as it was/; report=as it was/
    "#,
    )
}

// The 13 bytes of an open and a line, cut to so many. A rest that isn't a whole frame is refused at its place.
#[test]
fn an_input_is_cut(rt: HostRuntime) -> Result<(), Fail> {
    play_rows(
        rt.alloc(),
        r#"
        echo
        options=--window 1 --frames 2; in=0100000000 0200000300 68690a; cut=0; end=Finished 0 0 [] 6 0; out=; left=; record=rx record 2 window 1 frame line/end 6 0/; report=rx report 1/end 0 taken 0 steps 6/
        options=--window 1 --frames 2; each=1..4; in=0100000000 0200000300 68690a; cut=@; end=InputRefused { kind: 5, offset: 0 } 4 0 [] 6 0; out=; left=; record=rx record 2 window 1 frame line/end 6 0/; report=rx report 1/end 4 taken 0 steps 6/
        options=--window 1 --frames 2; in=0100000000 0200000300 68690a; cut=5; end=Finished 0 0 [] 16 1; out=; left=; record=rx record 2 window 1 frame line/end 16 1/; report=rx report 1/end 0 taken 1 steps 16/
        options=--window 1 --frames 2; each=6..12; in=0100000000 0200000300 68690a; cut=@; end=InputRefused { kind: 5, offset: 5 } 4 0 [] 16 1; out=; left=; record=rx record 2 window 1 frame line/end 16 1/; report=rx report 1/end 4 taken 1 steps 16/
        options=--window 1 --frames 2; in=0100000000 0200000300 68690a; cut=13; end=Finished 0 0 [] 34 2; out=0200000300 68690a; left=; record=rx record 2 window 1 frame line/end 34 2/; report=rx report 1/end 0 taken 2 steps 34/
    "#,
    )
}

// Each of those 13 bytes is another one. The refusal is the first of the table of refused input in docs/USING.md, and no byte behind its frame was read.
#[test]
fn an_input_is_changed(rt: HostRuntime) -> Result<(), Fail> {
    play_rows(
        rt.alloc(),
        r#"
        echo
        options=--window 1 --frames 2; in=ff00000000 0200000300 68690a; end=InputRefused { kind: 1, offset: 0 } 4 0 [] 6 0; out=; left=0200000300 68690a; record=rx record 2 window 1 frame line/end 6 0/; report=rx report 1/end 4 taken 0 steps 6/
        options=--window 1 --frames 2; in=0000000000 0200000300 68690a; end=InputRefused { kind: 1, offset: 0 } 4 0 [] 6 0; out=; left=0200000300 68690a; record=rx record 2 window 1 frame line/end 6 0/; report=rx report 1/end 4 taken 0 steps 6/
        options=--window 1 --frames 2; in=0300000000 0200000300 68690a; end=InputRefused { kind: 4, offset: 0 } 4 0 [] 6 0; out=; left=0200000300 68690a; record=rx record 2 window 1 frame line/end 6 0/; report=rx report 1/end 4 taken 0 steps 6/
        options=--window 1 --frames 2; in=0400000000 0200000300 68690a; end=InputRefused { kind: 4, offset: 5 } 4 0 [] 6 0; out=; left=68690a; record=rx record 2 window 1 frame line/end 6 0/; report=rx report 1/end 4 taken 0 steps 6/
        options=--window 1 --frames 2; in=01ff000000 0200000300 68690a; end=InputRefused { kind: 4, offset: 5 } 4 0 [] 16 1; out=; left=68690a; record=rx record 2 window 1 frame line/end 16 1/; report=rx report 1/end 4 taken 1 steps 16/
        options=--window 1 --frames 2; in=0100ff0000 0200000300 68690a; end=InputRefused { kind: 2, offset: 0 } 4 0 [] 6 0; out=; left=0200000300 68690a; record=rx record 2 window 1 frame line/end 6 0/; report=rx report 1/end 4 taken 0 steps 6/
        options=--window 1 --frames 2; in=010000ff00 0200000300 68690a; end=InputRefused { kind: 6, offset: 0 } 4 0 [] 6 0; out=; left=0200000300 68690a; record=rx record 2 window 1 frame line/end 6 0/; report=rx report 1/end 4 taken 0 steps 6/
        options=--window 1 --frames 2; in=01000000ff 0200000300 68690a; end=InputRefused { kind: 6, offset: 0 } 4 0 [] 6 0; out=; left=0200000300 68690a; record=rx record 2 window 1 frame line/end 6 0/; report=rx report 1/end 4 taken 0 steps 6/
        options=--window 1 --frames 2; in=0100000000 ff00000300 68690a; end=InputRefused { kind: 1, offset: 5 } 4 0 [] 16 1; out=; left=68690a; record=rx record 2 window 1 frame line/end 16 1/; report=rx report 1/end 4 taken 1 steps 16/
        options=--window 1 --frames 2; in=0100000000 0000000300 68690a; end=InputRefused { kind: 1, offset: 5 } 4 0 [] 16 1; out=; left=68690a; record=rx record 2 window 1 frame line/end 16 1/; report=rx report 1/end 4 taken 1 steps 16/
        options=--window 1 --frames 2; in=0100000000 0100000300 68690a; end=InputRefused { kind: 6, offset: 5 } 4 0 [] 16 1; out=; left=68690a; record=rx record 2 window 1 frame line/end 16 1/; report=rx report 1/end 4 taken 1 steps 16/
        options=--window 1 --frames 2; in=0100000000 0300000300 68690a; end=InputRefused { kind: 6, offset: 5 } 4 0 [] 16 1; out=; left=68690a; record=rx record 2 window 1 frame line/end 16 1/; report=rx report 1/end 4 taken 1 steps 16/
        options=--window 1 --frames 2; in=0100000000 0400000300 68690a; end=InputRefused { kind: 6, offset: 5 } 4 0 [] 16 1; out=; left=68690a; record=rx record 2 window 1 frame line/end 16 1/; report=rx report 1/end 4 taken 1 steps 16/
        options=--window 1 --frames 2; in=0100000000 02ff000300 68690a; end=InputRefused { kind: 4, offset: 5 } 4 0 [] 16 1; out=; left=68690a; record=rx record 2 window 1 frame line/end 16 1/; report=rx report 1/end 4 taken 1 steps 16/
        options=--window 1 --frames 2; in=0100000000 0200ff0300 68690a; end=InputRefused { kind: 2, offset: 5 } 4 0 [] 16 1; out=; left=68690a; record=rx record 2 window 1 frame line/end 16 1/; report=rx report 1/end 4 taken 1 steps 16/
        options=--window 1 --frames 2; in=0100000000 0200000000 68690a; end=InputRefused { kind: 5, offset: 10 } 4 0 [] 16 1; out=; left=; record=rx record 2 window 1 frame line/end 16 1/; report=rx report 1/end 4 taken 1 steps 16/
        options=--window 1 --frames 2; in=0100000000 0200000200 68690a; end=InputRefused { kind: 5, offset: 12 } 4 0 [] 16 1; out=; left=; record=rx record 2 window 1 frame line/end 16 1/; report=rx report 1/end 4 taken 1 steps 16/
        options=--window 1 --frames 2; in=0100000000 0200000400 68690a; end=InputRefused { kind: 5, offset: 5 } 4 0 [] 16 1; out=; left=; record=rx record 2 window 1 frame line/end 16 1/; report=rx report 1/end 4 taken 1 steps 16/
        options=--window 1 --frames 2; in=0100000000 02000003ff 68690a; end=InputRefused { kind: 5, offset: 5 } 4 0 [] 16 1; out=; left=; record=rx record 2 window 1 frame line/end 16 1/; report=rx report 1/end 4 taken 1 steps 16/
        options=--window 1 --frames 2; in=0100000000 0200000300 ff690a; end=Finished 0 0 [] 34 2; out=0200000300 ff690a; left=; record=rx record 2 window 1 frame line/end 34 2/; report=rx report 1/end 0 taken 2 steps 34/
        options=--window 1 --frames 2; in=0100000000 0200000300 68ff0a; end=Finished 0 0 [] 34 2; out=0200000300 68ff0a; left=; record=rx record 2 window 1 frame line/end 34 2/; report=rx report 1/end 0 taken 2 steps 34/
        options=--window 1 --frames 2; in=0100000000 0200000300 6869ff; end=Finished 0 0 [] 16 1; out=; left=; record=rx record 2 window 1 frame line/end 16 1/; report=rx report 1/end 0 taken 1 steps 16/
        options=--window 1 --frames 2; in=0100000000 0200000300 0a690a; end=Finished 0 0 [] 52 3; out=0200000100 0a 0200000200 690a; left=; record=rx record 2 window 1 frame line/end 52 3/; report=rx report 1/end 0 taken 3 steps 52/
    "#,
    )
}

// The record of overflow with a line of 40 bytes: its lines end behind the bytes 32, 54, 76 and 86. It is cut, or one of its bytes is a mark that no line of a
// record has. The line that isn't whole is refused, or the next one where none is left. No event was read, and no file is started.
#[test]
fn a_record_is_cut_or_spoilt(rt: HostRuntime) -> Result<(), Fail> {
    play_rows(
        rt.alloc(),
        r#"
        overflow
        each=0..31; words=replay p r; in=0100000000 0200002800 78*39 0a; before=rx record 2 window 4 frame line/m 00012100 - 00000010/m 00012310 - 00000010/end 303 2/; kept=@; end=RecordRefused { line: 1 } 3 0 [] 0 0; out=; left=0100000000 0200002800 78*39 0a
        each=0..31; words=replay p r; in=0100000000 0200002800 78*39 0a; before=rx record 2 window 4 frame line/m 00012100 - 00000010/m 00012310 - 00000010/end 303 2/; spoilt=@:21; end=RecordRefused { line: 1 } 3 0 [] 0 0; out=; left=0100000000 0200002800 78*39 0a
        each=32..53; words=replay p r; in=0100000000 0200002800 78*39 0a; before=rx record 2 window 4 frame line/m 00012100 - 00000010/m 00012310 - 00000010/end 303 2/; kept=@; end=RecordRefused { line: 2 } 3 0 [] 0 0; out=; left=0100000000 0200002800 78*39 0a
        each=32..53; words=replay p r; in=0100000000 0200002800 78*39 0a; before=rx record 2 window 4 frame line/m 00012100 - 00000010/m 00012310 - 00000010/end 303 2/; spoilt=@:21; end=RecordRefused { line: 2 } 3 0 [] 0 0; out=; left=0100000000 0200002800 78*39 0a
        each=54..75; words=replay p r; in=0100000000 0200002800 78*39 0a; before=rx record 2 window 4 frame line/m 00012100 - 00000010/m 00012310 - 00000010/end 303 2/; kept=@; end=RecordRefused { line: 3 } 3 0 [] 0 0; out=; left=0100000000 0200002800 78*39 0a
        each=54..75; words=replay p r; in=0100000000 0200002800 78*39 0a; before=rx record 2 window 4 frame line/m 00012100 - 00000010/m 00012310 - 00000010/end 303 2/; spoilt=@:21; end=RecordRefused { line: 3 } 3 0 [] 0 0; out=; left=0100000000 0200002800 78*39 0a
        each=76..85; words=replay p r; in=0100000000 0200002800 78*39 0a; before=rx record 2 window 4 frame line/m 00012100 - 00000010/m 00012310 - 00000010/end 303 2/; kept=@; end=RecordRefused { line: 4 } 3 0 [] 0 0; out=; left=0100000000 0200002800 78*39 0a
        each=76..85; words=replay p r; in=0100000000 0200002800 78*39 0a; before=rx record 2 window 4 frame line/m 00012100 - 00000010/m 00012310 - 00000010/end 303 2/; spoilt=@:21; end=RecordRefused { line: 4 } 3 0 [] 0 0; out=; left=0100000000 0200002800 78*39 0a
        each=0..31; words=convert p r o; in=0100000000 0200002800 78*39 0a; before=rx record 2 window 4 frame line/m 00012100 - 00000010/m 00012310 - 00000010/end 303 2/; kept=@; end=RecordRefused { line: 1 } 3 0 [] 0 0; out=; left=0100000000 0200002800 78*39 0a; o=none
        each=0..31; words=convert p r o; in=0100000000 0200002800 78*39 0a; before=rx record 2 window 4 frame line/m 00012100 - 00000010/m 00012310 - 00000010/end 303 2/; spoilt=@:21; end=RecordRefused { line: 1 } 3 0 [] 0 0; out=; left=0100000000 0200002800 78*39 0a; o=none
        each=32..53; words=convert p r o; in=0100000000 0200002800 78*39 0a; before=rx record 2 window 4 frame line/m 00012100 - 00000010/m 00012310 - 00000010/end 303 2/; kept=@; end=RecordRefused { line: 2 } 3 0 [] 0 0; out=; left=0100000000 0200002800 78*39 0a; o=none
        each=32..53; words=convert p r o; in=0100000000 0200002800 78*39 0a; before=rx record 2 window 4 frame line/m 00012100 - 00000010/m 00012310 - 00000010/end 303 2/; spoilt=@:21; end=RecordRefused { line: 2 } 3 0 [] 0 0; out=; left=0100000000 0200002800 78*39 0a; o=none
        each=54..75; words=convert p r o; in=0100000000 0200002800 78*39 0a; before=rx record 2 window 4 frame line/m 00012100 - 00000010/m 00012310 - 00000010/end 303 2/; kept=@; end=RecordRefused { line: 3 } 3 0 [] 0 0; out=; left=0100000000 0200002800 78*39 0a; o=none
        each=54..75; words=convert p r o; in=0100000000 0200002800 78*39 0a; before=rx record 2 window 4 frame line/m 00012100 - 00000010/m 00012310 - 00000010/end 303 2/; spoilt=@:21; end=RecordRefused { line: 3 } 3 0 [] 0 0; out=; left=0100000000 0200002800 78*39 0a; o=none
        each=76..85; words=convert p r o; in=0100000000 0200002800 78*39 0a; before=rx record 2 window 4 frame line/m 00012100 - 00000010/m 00012310 - 00000010/end 303 2/; kept=@; end=RecordRefused { line: 4 } 3 0 [] 0 0; out=; left=0100000000 0200002800 78*39 0a; o=none
        each=76..85; words=convert p r o; in=0100000000 0200002800 78*39 0a; before=rx record 2 window 4 frame line/m 00012100 - 00000010/m 00012310 - 00000010/end 303 2/; spoilt=@:21; end=RecordRefused { line: 4 } 3 0 [] 0 0; out=; left=0100000000 0200002800 78*39 0a; o=none
        words=replay p r; in=0100000000 0200002800 78*39 0a; before=rx record 2 window 4 frame line/m 00012100 - 00000010/m 00012310 - 00000010/end 303 2/; kept=86; end=Finished 0 0 [] 0 0; out=0200002800 78*39 0a; left=
        words=convert p r o; in=0100000000 0200002800 78*39 0a; before=rx record 2 window 4 frame line/m 00012100 - 00000010/m 00012310 - 00000010/end 303 2/; kept=86; end=Finished 0 0 [] 0 0; out=; left=; o=rx record 2 window 4 frame line/m 00012100 - 00000010/m 00012310 - 00000010/end 303 2/
    "#,
    )
}

// The echo is at its request behind 6 instructions, 16 and 34. Its send is the 27th. The files are loaded, started and added to by seven calls.
#[test]
fn each_call_of_an_echo_fails(rt: HostRuntime) -> Result<(), Fail> {
    play_rows(
        rt.alloc(),
        r#"
        echo
        options=--window 1 --frames 2; each=1..5; in=0100000000 0200000300 68690a; takes=1; source=@; end=ReadFault 7 0 [] 6 0; out=; record=rx record 2 window 1 frame line/; report=rx report 1/
        options=--window 1 --frames 2; each=6..13; in=0100000000 0200000300 68690a; takes=1; source=@; end=ReadFault 7 0 [] 16 1; out=; record=rx record 2 window 1 frame line/; report=rx report 1/
        options=--window 1 --frames 2; in=0100000000 0200000300 68690a; takes=1; source=14; end=ReadFault 7 0 [] 34 2; out=0200000300 68690a; left=; record=rx record 2 window 1 frame line/; report=rx report 1/
        options=--window 1 --frames 2; each=1..8; in=0100000000 0200000300 68690a; gives=1; sink=@; end=WriteFault 8 0 [] 27 2; wrote=0200000300 68690a; left=; record=rx record 2 window 1 frame line/; report=rx report 1/
        options=--window 1 --frames 2; in=0100000000 0200000300 68690a; files=1; end=FileFault 9 0 [] 0 0; out=; left=0100000000 0200000300 68690a; record=none; report=none
        options=--window 1 --frames 2; in=0100000000 0200000300 68690a; files=2; end=FileFault 9 0 [] 0 0; out=; left=0100000000 0200000300 68690a; record=none; report=none
        options=--window 1 --frames 2; in=0100000000 0200000300 68690a; files=3; end=FileFault 9 0 [] 0 0; out=; left=0100000000 0200000300 68690a; record=; report=none
        options=--window 1 --frames 2; in=0100000000 0200000300 68690a; files=4; end=FileFault 9 0 [] 0 0; out=; left=0100000000 0200000300 68690a; record=rx record 2 window 1 frame line/; report=none
        options=--window 1 --frames 2; in=0100000000 0200000300 68690a; files=5; end=FileFault 9 0 [] 0 0; out=; left=0100000000 0200000300 68690a; record=rx record 2 window 1 frame line/; report=
        options=--window 1 --frames 2; in=0100000000 0200000300 68690a; files=6; end=FileFault 9 0 [] 34 2; out=0200000300 68690a; left=; record=rx record 2 window 1 frame line/; report=rx report 1/
        options=--window 1 --frames 2; in=0100000000 0200000300 68690a; files=7; end=FileFault 9 0 [] 34 2; out=0200000300 68690a; left=; record=rx record 2 window 1 frame line/end 34 2/; report=rx report 1/
        # There is no call more.
        options=--window 1 --frames 2; in=0100000000 0200000300 68690a; takes=1; gives=1; source=15; sink=9; files=8; end=Finished 0 0 [] 34 2; out=0200000300 68690a; left=; record=rx record 2 window 1 frame line/end 34 2/; report=rx report 1/end 0 taken 2 steps 34/
    "#,
    )
}

// Overflow runs over its block at the line of 40 bytes, and is served on with padding. Its failure is noted before its reply is given.
#[test]
fn each_read_fails_beside_a_recovery(rt: HostRuntime) -> Result<(), Fail> {
    play_rows(
        rt.alloc(),
        r#"
        overflow
        options=--window 1 --frames 3; each=1..5; in=0100000000 0200002800 78*39 0a; takes=1; source=@; end=ReadFault 7 0 [] 6 0; out=; record=rx record 2 window 1 frame line/; report=rx report 1/
        options=--window 1 --frames 3; each=6..50; in=0100000000 0200002800 78*39 0a; takes=1; source=@; end=ReadFault 7 0 [] 16 1; out=; record=rx record 2 window 1 frame line/; report=rx report 1/
        options=--window 1 --frames 3; in=0100000000 0200002800 78*39 0a; takes=1; source=51; end=ReadFault 7 0 [Choice { ask: Malloc { size: 16 }, at: 73984, zeroed: false, carried: 0 }, Choice { ask: Malloc { size: 16 }, at: 74512, zeroed: false, carried: 0 }] 303 2; out=0200002800 78*39 0a; left=; record=rx record 2 window 1 frame line/; report=rx report 1/failure 0 point 2 cause AssertFailed 1 at 000100ac/try 0 checkpoint 1 env pad result survived/
    "#,
    )
}

#[test]
fn each_write_fails_beside_a_recovery(rt: HostRuntime) -> Result<(), Fail> {
    play_rows(
        rt.alloc(),
        r#"
        overflow
        options=--window 1 --frames 3; each=1..45; in=0100000000 0200002800 78*39 0a; gives=1; sink=@; end=WriteFault 8 0 [Choice { ask: Malloc { size: 16 }, at: 73984, zeroed: false, carried: 0 }, Choice { ask: Malloc { size: 16 }, at: 74512, zeroed: false, carried: 0 }] 303 2; wrote=0200002800 78*39 0a; left=; record=rx record 2 window 1 frame line/; report=rx report 1/failure 0 point 2 cause AssertFailed 1 at 000100ac/try 0 checkpoint 1 env pad result survived/
        options=--window 1 --frames 3; in=0100000000 0200002800 78*39 0a; takes=1; gives=1; source=52; sink=46; end=Finished 0 2 [] 303 2; out=0200002800 78*39 0a; left=; record=rx record 2 window 1 frame line/m 00012100 - 00000010/m 00012310 - 00000010/end 303 2/; report=rx report 1/failure 0 point 2 cause AssertFailed 1 at 000100ac/try 0 checkpoint 1 env pad result survived/end 0 taken 2 steps 303/
    "#,
    )
}

// The reply to the long line is due once the fourth item is taken, by one instruction, and the other two at the end. Overflow takes 10 instructions for an
// item that is no message, and 47 and 6 for each byte of one.
#[test]
fn each_read_fails_where_replies_are_held(rt: HostRuntime) -> Result<(), Fail> {
    play_rows(
        rt.alloc(),
        r#"
        overflow
        options=--window 1 --frames 3 --hold 2; each=1..5; in=0100000000 0200001100 78*16 0a 0200000200 610a 0200000200 620a; takes=1; source=@; end=ReadFault 7 0 [] 6 0; out=; record=rx record 2 window 1 frame line/; report=rx report 1/
        options=--window 1 --frames 3 --hold 2; each=6..27; in=0100000000 0200001100 78*16 0a 0200000200 610a 0200000200 620a; takes=1; source=@; end=ReadFault 7 0 [] 16 1; out=; record=rx record 2 window 1 frame line/; report=rx report 1/
        options=--window 1 --frames 3 --hold 2; each=28..34; in=0100000000 0200001100 78*16 0a 0200000200 610a 0200000200 620a; takes=1; source=@; end=ReadFault 7 0 [Choice { ask: Malloc { size: 16 }, at: 73984, zeroed: false, carried: 0 }, Choice { ask: Malloc { size: 16 }, at: 74512, zeroed: false, carried: 0 }] 165 2; out=; record=rx record 2 window 1 frame line/; report=rx report 1/failure 0 point 2 cause AssertFailed 1 at 000100ac/try 0 checkpoint 1 env pad result survived/
        options=--window 1 --frames 3 --hold 2; each=35..41; in=0100000000 0200001100 78*16 0a 0200000200 610a 0200000200 620a; takes=1; source=@; end=ReadFault 7 0 [Choice { ask: Malloc { size: 16 }, at: 73984, zeroed: false, carried: 0 }, Choice { ask: Malloc { size: 16 }, at: 74512, zeroed: false, carried: 0 }, Choice { ask: Malloc { size: 16 }, at: 73984, zeroed: false, carried: 0 }, Choice { ask: Malloc { size: 16 }, at: 74512, zeroed: false, carried: 0 }] 224 3; out=; record=rx record 2 window 1 frame line/; report=rx report 1/failure 0 point 2 cause AssertFailed 1 at 000100ac/try 0 checkpoint 1 env pad result survived/
        options=--window 1 --frames 3 --hold 2; in=0100000000 0200001100 78*16 0a 0200000200 610a 0200000200 620a; takes=1; source=42; end=ReadFault 7 0 [Choice { ask: Malloc { size: 16 }, at: 73984, zeroed: false, carried: 0 }, Choice { ask: Malloc { size: 16 }, at: 74512, zeroed: false, carried: 0 }, Choice { ask: Malloc { size: 16 }, at: 73984, zeroed: false, carried: 0 }, Choice { ask: Malloc { size: 16 }, at: 74512, zeroed: false, carried: 0 }, Choice { ask: Malloc { size: 16 }, at: 73984, zeroed: false, carried: 0 }, Choice { ask: Malloc { size: 16 }, at: 74512, zeroed: false, carried: 0 }] 283 4; out=0200001100 78*16 0a; record=rx record 2 window 1 frame line/; report=rx report 1/failure 0 point 2 cause AssertFailed 1 at 000100ac/try 0 checkpoint 1 env pad result survived/
    "#,
    )
}

#[test]
fn each_other_call_fails_where_replies_are_held(rt: HostRuntime) -> Result<(), Fail> {
    play_rows(
        rt.alloc(),
        r#"
        overflow
        options=--window 1 --frames 3 --hold 2; each=1..22; in=0100000000 0200001100 78*16 0a 0200000200 610a 0200000200 620a; gives=1; sink=@; end=WriteFault 8 0 [Choice { ask: Malloc { size: 16 }, at: 73984, zeroed: false, carried: 0 }, Choice { ask: Malloc { size: 16 }, at: 74512, zeroed: false, carried: 0 }, Choice { ask: Malloc { size: 16 }, at: 73984, zeroed: false, carried: 0 }, Choice { ask: Malloc { size: 16 }, at: 74512, zeroed: false, carried: 0 }] 225 4; wrote=0200001100 78*16 0a; left=; record=rx record 2 window 1 frame line/; report=rx report 1/failure 0 point 2 cause AssertFailed 1 at 000100ac/try 0 checkpoint 1 env pad result survived/
        options=--window 1 --frames 3 --hold 2; each=23..36; in=0100000000 0200001100 78*16 0a 0200000200 610a 0200000200 620a; gives=1; sink=@; end=WriteFault 8 0 [Choice { ask: Malloc { size: 16 }, at: 73984, zeroed: false, carried: 0 }, Choice { ask: Malloc { size: 16 }, at: 74512, zeroed: false, carried: 0 }, Choice { ask: Malloc { size: 16 }, at: 73984, zeroed: false, carried: 0 }, Choice { ask: Malloc { size: 16 }, at: 74512, zeroed: false, carried: 0 }, Choice { ask: Malloc { size: 16 }, at: 73984, zeroed: false, carried: 0 }, Choice { ask: Malloc { size: 16 }, at: 74512, zeroed: false, carried: 0 }] 283 4; wrote=0200001100 78*16 0a 0200000200 610a 0200000200 620a; left=; record=rx record 2 window 1 frame line/; report=rx report 1/failure 0 point 2 cause AssertFailed 1 at 000100ac/try 0 checkpoint 1 env pad result survived/
        options=--window 1 --frames 3 --hold 2; each=1..5; in=0100000000 0200001100 78*16 0a 0200000200 610a 0200000200 620a; files=@; end=FileFault 9 0 [] 0 0; out=
        options=--window 1 --frames 3 --hold 2; in=0100000000 0200001100 78*16 0a 0200000200 610a 0200000200 620a; files=6; end=FileFault 9 0 [Choice { ask: Malloc { size: 16 }, at: 73984, zeroed: false, carried: 0 }, Choice { ask: Malloc { size: 16 }, at: 74512, zeroed: false, carried: 0 }] 165 2; out=; left=0200000200 610a 0200000200 620a; record=rx record 2 window 1 frame line/; report=rx report 1/
        options=--window 1 --frames 3 --hold 2; in=0100000000 0200001100 78*16 0a 0200000200 610a 0200000200 620a; files=7; end=FileFault 9 0 [Choice { ask: Malloc { size: 16 }, at: 73984, zeroed: false, carried: 0 }, Choice { ask: Malloc { size: 16 }, at: 74512, zeroed: false, carried: 0 }, Choice { ask: Malloc { size: 16 }, at: 73984, zeroed: false, carried: 0 }, Choice { ask: Malloc { size: 16 }, at: 74512, zeroed: false, carried: 0 }, Choice { ask: Malloc { size: 16 }, at: 73984, zeroed: false, carried: 0 }, Choice { ask: Malloc { size: 16 }, at: 74512, zeroed: false, carried: 0 }] 283 4; out=0200001100 78*16 0a 0200000200 610a 0200000200 620a; left=; record=rx record 2 window 1 frame line/; report=rx report 1/failure 0 point 2 cause AssertFailed 1 at 000100ac/try 0 checkpoint 1 env pad result survived/
        options=--window 1 --frames 3 --hold 2; in=0100000000 0200001100 78*16 0a 0200000200 610a 0200000200 620a; files=8; end=FileFault 9 6 [] 283 4; out=0200001100 78*16 0a 0200000200 610a 0200000200 620a; left=; record=rx record 2 window 1 frame line/m 00012100 - 00000010/m 00012310 - 00000010/m 00012100 - 00000010/m 00012310 - 00000010/m 00012100 - 00000010/m 00012310 - 00000010/; report=rx report 1/failure 0 point 2 cause AssertFailed 1 at 000100ac/try 0 checkpoint 1 env pad result survived/
        options=--window 1 --frames 3 --hold 2; in=0100000000 0200001100 78*16 0a 0200000200 610a 0200000200 620a; files=9; end=FileFault 9 6 [] 283 4; out=0200001100 78*16 0a 0200000200 610a 0200000200 620a; left=; record=rx record 2 window 1 frame line/m 00012100 - 00000010/m 00012310 - 00000010/m 00012100 - 00000010/m 00012310 - 00000010/m 00012100 - 00000010/m 00012310 - 00000010/end 283 4/; report=rx report 1/failure 0 point 2 cause AssertFailed 1 at 000100ac/try 0 checkpoint 1 env pad result survived/
        options=--window 1 --frames 3 --hold 2; in=0100000000 0200001100 78*16 0a 0200000200 610a 0200000200 620a; takes=1; gives=1; source=43; sink=37; files=10; end=Finished 0 6 [] 283 4; out=0200001100 78*16 0a 0200000200 610a 0200000200 620a; left=; record=rx record 2 window 1 frame line/m 00012100 - 00000010/m 00012310 - 00000010/m 00012100 - 00000010/m 00012310 - 00000010/m 00012100 - 00000010/m 00012310 - 00000010/end 283 4/; report=rx report 1/failure 0 point 2 cause AssertFailed 1 at 000100ac/try 0 checkpoint 1 env pad result survived/end 0 taken 4 steps 283/
    "#,
    )
}

// Three lines come of three connections, of which the second is too long for its block, then a close of that connection and a line of the fourth. A reply is
// due once two more items are taken, but that to the connection that closes goes out at its close. With one checkpoint the answers of the allocator are added
// to the record at the next request.
#[test]
fn each_read_fails_with_four_connections(rt: HostRuntime) -> Result<(), Fail> {
    play_rows(
        rt.alloc(),
        r#"
        overflow
        options=--window 1 --frames 2 --hold 2 --ring 1; each=1..5; in=0100000000 0101000000 0102000000 0103000000 0202000200 610a 0201001100 78*16 0a 0203000200 630a 0301000000 0200000200 640a; takes=1; source=@; end=ReadFault 7 0 [] 6 0; out=; record=rx record 2 window 1 frame line/; report=rx report 1/
        options=--window 1 --frames 2 --hold 2 --ring 1; each=6..10; in=0100000000 0101000000 0102000000 0103000000 0202000200 610a 0201001100 78*16 0a 0203000200 630a 0301000000 0200000200 640a; takes=1; source=@; end=ReadFault 7 0 [] 16 1; out=; record=rx record 2 window 1 frame line/; report=rx report 1/
        options=--window 1 --frames 2 --hold 2 --ring 1; each=11..15; in=0100000000 0101000000 0102000000 0103000000 0202000200 610a 0201001100 78*16 0a 0203000200 630a 0301000000 0200000200 640a; takes=1; source=@; end=ReadFault 7 0 [] 26 2; out=; record=rx record 2 window 1 frame line/; report=rx report 1/
        options=--window 1 --frames 2 --hold 2 --ring 1; each=16..20; in=0100000000 0101000000 0102000000 0103000000 0202000200 610a 0201001100 78*16 0a 0203000200 630a 0301000000 0200000200 640a; takes=1; source=@; end=ReadFault 7 0 [] 36 3; out=; record=rx record 2 window 1 frame line/; report=rx report 1/
        options=--window 1 --frames 2 --hold 2 --ring 1; each=21..27; in=0100000000 0101000000 0102000000 0103000000 0202000200 610a 0201001100 78*16 0a 0203000200 630a 0301000000 0200000200 640a; takes=1; source=@; end=ReadFault 7 0 [] 46 4; out=; record=rx record 2 window 1 frame line/; report=rx report 1/
        options=--window 1 --frames 2 --hold 2 --ring 1; each=28..49; in=0100000000 0101000000 0102000000 0103000000 0202000200 610a 0201001100 78*16 0a 0203000200 630a 0301000000 0200000200 640a; takes=1; source=@; end=ReadFault 7 2 [] 105 5; out=; record=rx record 2 window 1 frame line/m 00012000 - 00000010/m 00012010 - 00000010/; report=rx report 1/
        options=--window 1 --frames 2 --hold 2 --ring 1; each=50..56; in=0100000000 0101000000 0102000000 0103000000 0202000200 610a 0201001100 78*16 0a 0203000200 630a 0301000000 0200000200 640a; takes=1; source=@; end=ReadFault 7 4 [] 254 6; out=; record=rx record 2 window 1 frame line/m 00012000 - 00000010/m 00012010 - 00000010/m 00012100 - 00000010/m 00012310 - 00000010/; report=rx report 1/failure 0 point 6 cause AssertFailed 1 at 000100ac/try 0 checkpoint 5 env pad result survived/
        options=--window 1 --frames 2 --hold 2 --ring 1; each=57..61; in=0100000000 0101000000 0102000000 0103000000 0202000200 610a 0201001100 78*16 0a 0203000200 630a 0301000000 0200000200 640a; takes=1; source=@; end=ReadFault 7 6 [] 313 7; out=0202000200 610a; record=rx record 2 window 1 frame line/m 00012000 - 00000010/m 00012010 - 00000010/m 00012100 - 00000010/m 00012310 - 00000010/m 00012100 - 00000010/m 00012310 - 00000010/; report=rx report 1/failure 0 point 6 cause AssertFailed 1 at 000100ac/try 0 checkpoint 5 env pad result survived/
        options=--window 1 --frames 2 --hold 2 --ring 1; each=62..68; in=0100000000 0101000000 0102000000 0103000000 0202000200 610a 0201001100 78*16 0a 0203000200 630a 0301000000 0200000200 640a; takes=1; source=@; end=ReadFault 7 6 [] 323 8; out=0202000200 610a 0201001100 78*16 0a; record=rx record 2 window 1 frame line/m 00012000 - 00000010/m 00012010 - 00000010/m 00012100 - 00000010/m 00012310 - 00000010/m 00012100 - 00000010/m 00012310 - 00000010/; report=rx report 1/failure 0 point 6 cause AssertFailed 1 at 000100ac/try 0 checkpoint 5 env pad result survived/
        options=--window 1 --frames 2 --hold 2 --ring 1; in=0100000000 0101000000 0102000000 0103000000 0202000200 610a 0201001100 78*16 0a 0203000200 630a 0301000000 0200000200 640a; takes=1; source=69; end=ReadFault 7 8 [] 382 9; out=0202000200 610a 0201001100 78*16 0a 0203000200 630a; record=rx record 2 window 1 frame line/m 00012000 - 00000010/m 00012010 - 00000010/m 00012100 - 00000010/m 00012310 - 00000010/m 00012100 - 00000010/m 00012310 - 00000010/m 00012100 - 00000010/m 00012310 - 00000010/; report=rx report 1/failure 0 point 6 cause AssertFailed 1 at 000100ac/try 0 checkpoint 5 env pad result survived/
    "#,
    )
}

#[test]
fn each_other_call_fails_with_four_connections(rt: HostRuntime) -> Result<(), Fail> {
    play_rows(
        rt.alloc(),
        r#"
        overflow
        options=--window 1 --frames 2 --hold 2 --ring 1; each=1..7; in=0100000000 0101000000 0102000000 0103000000 0202000200 610a 0201001100 78*16 0a 0203000200 630a 0301000000 0200000200 640a; gives=1; sink=@; end=WriteFault 8 4 [] 255 7; wrote=0202000200 610a 0201001100 78*16 0a 0203000200 630a 0200000200 640a; record=rx record 2 window 1 frame line/m 00012000 - 00000010/m 00012010 - 00000010/m 00012100 - 00000010/m 00012310 - 00000010/; report=rx report 1/failure 0 point 6 cause AssertFailed 1 at 000100ac/try 0 checkpoint 5 env pad result survived/
        options=--window 1 --frames 2 --hold 2 --ring 1; each=8..29; in=0100000000 0101000000 0102000000 0103000000 0202000200 610a 0201001100 78*16 0a 0203000200 630a 0301000000 0200000200 640a; gives=1; sink=@; end=WriteFault 8 6 [] 313 7; wrote=0202000200 610a 0201001100 78*16 0a 0203000200 630a 0200000200 640a; record=rx record 2 window 1 frame line/m 00012000 - 00000010/m 00012010 - 00000010/m 00012100 - 00000010/m 00012310 - 00000010/m 00012100 - 00000010/m 00012310 - 00000010/; report=rx report 1/failure 0 point 6 cause AssertFailed 1 at 000100ac/try 0 checkpoint 5 env pad result survived/
        options=--window 1 --frames 2 --hold 2 --ring 1; each=30..36; in=0100000000 0101000000 0102000000 0103000000 0202000200 610a 0201001100 78*16 0a 0203000200 630a 0301000000 0200000200 640a; gives=1; sink=@; end=WriteFault 8 6 [] 324 9; wrote=0202000200 610a 0201001100 78*16 0a 0203000200 630a 0200000200 640a; record=rx record 2 window 1 frame line/m 00012000 - 00000010/m 00012010 - 00000010/m 00012100 - 00000010/m 00012310 - 00000010/m 00012100 - 00000010/m 00012310 - 00000010/; report=rx report 1/failure 0 point 6 cause AssertFailed 1 at 000100ac/try 0 checkpoint 5 env pad result survived/
        options=--window 1 --frames 2 --hold 2 --ring 1; each=37..43; in=0100000000 0101000000 0102000000 0103000000 0202000200 610a 0201001100 78*16 0a 0203000200 630a 0301000000 0200000200 640a; gives=1; sink=@; end=WriteFault 8 8 [] 382 9; wrote=0202000200 610a 0201001100 78*16 0a 0203000200 630a 0200000200 640a; record=rx record 2 window 1 frame line/m 00012000 - 00000010/m 00012010 - 00000010/m 00012100 - 00000010/m 00012310 - 00000010/m 00012100 - 00000010/m 00012310 - 00000010/m 00012100 - 00000010/m 00012310 - 00000010/; report=rx report 1/failure 0 point 6 cause AssertFailed 1 at 000100ac/try 0 checkpoint 5 env pad result survived/
        options=--window 1 --frames 2 --hold 2 --ring 1; each=1..5; in=0100000000 0101000000 0102000000 0103000000 0202000200 610a 0201001100 78*16 0a 0203000200 630a 0301000000 0200000200 640a; files=@; end=FileFault 9 0 [] 0 0; out=
        options=--window 1 --frames 2 --hold 2 --ring 1; in=0100000000 0101000000 0102000000 0103000000 0202000200 610a 0201001100 78*16 0a 0203000200 630a 0301000000 0200000200 640a; files=6; end=FileFault 9 0 [Choice { ask: Malloc { size: 16 }, at: 73728, zeroed: false, carried: 0 }, Choice { ask: Malloc { size: 16 }, at: 73744, zeroed: false, carried: 0 }] 105 5; out=; record=rx record 2 window 1 frame line/; report=rx report 1/
        options=--window 1 --frames 2 --hold 2 --ring 1; in=0100000000 0101000000 0102000000 0103000000 0202000200 610a 0201001100 78*16 0a 0203000200 630a 0301000000 0200000200 640a; files=7; end=FileFault 9 2 [Choice { ask: Malloc { size: 16 }, at: 73984, zeroed: false, carried: 0 }, Choice { ask: Malloc { size: 16 }, at: 74512, zeroed: false, carried: 0 }] 254 6; out=; record=rx record 2 window 1 frame line/m 00012000 - 00000010/m 00012010 - 00000010/; report=rx report 1/
        options=--window 1 --frames 2 --hold 2 --ring 1; in=0100000000 0101000000 0102000000 0103000000 0202000200 610a 0201001100 78*16 0a 0203000200 630a 0301000000 0200000200 640a; files=8; end=FileFault 9 2 [Choice { ask: Malloc { size: 16 }, at: 73984, zeroed: false, carried: 0 }, Choice { ask: Malloc { size: 16 }, at: 74512, zeroed: false, carried: 0 }] 254 6; out=; record=rx record 2 window 1 frame line/m 00012000 - 00000010/m 00012010 - 00000010/; report=rx report 1/failure 0 point 6 cause AssertFailed 1 at 000100ac/try 0 checkpoint 5 env pad result survived/
        options=--window 1 --frames 2 --hold 2 --ring 1; in=0100000000 0101000000 0102000000 0103000000 0202000200 610a 0201001100 78*16 0a 0203000200 630a 0301000000 0200000200 640a; files=9; end=FileFault 9 4 [Choice { ask: Malloc { size: 16 }, at: 73984, zeroed: false, carried: 0 }, Choice { ask: Malloc { size: 16 }, at: 74512, zeroed: false, carried: 0 }] 313 7; out=0202000200 610a; record=rx record 2 window 1 frame line/m 00012000 - 00000010/m 00012010 - 00000010/m 00012100 - 00000010/m 00012310 - 00000010/; report=rx report 1/failure 0 point 6 cause AssertFailed 1 at 000100ac/try 0 checkpoint 5 env pad result survived/
        options=--window 1 --frames 2 --hold 2 --ring 1; in=0100000000 0101000000 0102000000 0103000000 0202000200 610a 0201001100 78*16 0a 0203000200 630a 0301000000 0200000200 640a; files=10; end=FileFault 9 6 [Choice { ask: Malloc { size: 16 }, at: 73984, zeroed: false, carried: 0 }, Choice { ask: Malloc { size: 16 }, at: 74512, zeroed: false, carried: 0 }] 382 9; out=0202000200 610a 0201001100 78*16 0a 0203000200 630a; record=rx record 2 window 1 frame line/m 00012000 - 00000010/m 00012010 - 00000010/m 00012100 - 00000010/m 00012310 - 00000010/m 00012100 - 00000010/m 00012310 - 00000010/; report=rx report 1/failure 0 point 6 cause AssertFailed 1 at 000100ac/try 0 checkpoint 5 env pad result survived/
        options=--window 1 --frames 2 --hold 2 --ring 1; in=0100000000 0101000000 0102000000 0103000000 0202000200 610a 0201001100 78*16 0a 0203000200 630a 0301000000 0200000200 640a; files=11; end=FileFault 9 8 [] 382 9; out=0202000200 610a 0201001100 78*16 0a 0203000200 630a 0200000200 640a; record=rx record 2 window 1 frame line/m 00012000 - 00000010/m 00012010 - 00000010/m 00012100 - 00000010/m 00012310 - 00000010/m 00012100 - 00000010/m 00012310 - 00000010/m 00012100 - 00000010/m 00012310 - 00000010/; report=rx report 1/failure 0 point 6 cause AssertFailed 1 at 000100ac/try 0 checkpoint 5 env pad result survived/
        options=--window 1 --frames 2 --hold 2 --ring 1; in=0100000000 0101000000 0102000000 0103000000 0202000200 610a 0201001100 78*16 0a 0203000200 630a 0301000000 0200000200 640a; files=12; end=FileFault 9 8 [] 382 9; out=0202000200 610a 0201001100 78*16 0a 0203000200 630a 0200000200 640a; record=rx record 2 window 1 frame line/m 00012000 - 00000010/m 00012010 - 00000010/m 00012100 - 00000010/m 00012310 - 00000010/m 00012100 - 00000010/m 00012310 - 00000010/m 00012100 - 00000010/m 00012310 - 00000010/end 382 9/; report=rx report 1/failure 0 point 6 cause AssertFailed 1 at 000100ac/try 0 checkpoint 5 env pad result survived/
        options=--window 1 --frames 2 --hold 2 --ring 1; in=0100000000 0101000000 0102000000 0103000000 0202000200 610a 0201001100 78*16 0a 0203000200 630a 0301000000 0200000200 640a; takes=1; gives=1; source=70; sink=44; files=13; end=Finished 0 8 [] 382 9; out=0202000200 610a 0201001100 78*16 0a 0203000200 630a 0200000200 640a; left=; record=rx record 2 window 1 frame line/m 00012000 - 00000010/m 00012010 - 00000010/m 00012100 - 00000010/m 00012310 - 00000010/m 00012100 - 00000010/m 00012310 - 00000010/m 00012100 - 00000010/m 00012310 - 00000010/end 382 9/; report=rx report 1/failure 0 point 6 cause AssertFailed 1 at 000100ac/try 0 checkpoint 5 env pad result survived/end 0 taken 9 steps 382/
    "#,
    )
}

// Two clients send a line each, by a byte a call. One that can't be read or written to is closed, and the other one is served. A line that is cut gives no
// message, which costs the echo 18 instructions.
#[test]
fn each_call_on_a_client_fails(rt: HostRuntime) -> Result<(), Fail> {
    play_rows(
        rt.alloc(),
        r#"
        echo
        words=serve p 80 2 --record r --report t --window 1 --frames 2; clients=hi/|hi/; moves=1; give=1; end=Finished 0 0 [] 82 6; replies=|hi/|; record=rx record 2 window 1 frame line/end 82 6/; report=rx report 1/end 0 taken 6 steps 82/
        words=serve p 80 2 --record r --report t --window 1 --frames 2; clients=hi/|hi/; moves=1; give=2; end=Finished 0 0 [] 82 6; replies=h|hi/|; record=rx record 2 window 1 frame line/end 82 6/; report=rx report 1/end 0 taken 6 steps 82/
        words=serve p 80 2 --record r --report t --window 1 --frames 2; clients=hi/|hi/; moves=1; give=3; end=Finished 0 0 [] 82 6; replies=hi|hi/|; record=rx record 2 window 1 frame line/end 82 6/; report=rx report 1/end 0 taken 6 steps 82/
        words=serve p 80 2 --record r --report t --window 1 --frames 2; clients=hi/|hi/; moves=1; give=4; end=Finished 0 0 [] 82 6; replies=hi/||; record=rx record 2 window 1 frame line/end 82 6/; report=rx report 1/end 0 taken 6 steps 82/
        words=serve p 80 2 --record r --report t --window 1 --frames 2; clients=hi/|hi/; moves=1; give=5; end=Finished 0 0 [] 82 6; replies=hi/|h|; record=rx record 2 window 1 frame line/end 82 6/; report=rx report 1/end 0 taken 6 steps 82/
        words=serve p 80 2 --record r --report t --window 1 --frames 2; clients=hi/|hi/; moves=1; give=6; end=Finished 0 0 [] 82 6; replies=hi/|hi|; record=rx record 2 window 1 frame line/end 82 6/; report=rx report 1/end 0 taken 6 steps 82/
        # The first three takes of a client bring its line, and the fourth its end.
        each=1..3; words=serve p 80 2 --record r --report t --window 1 --frames 2; clients=hi/|hi/; moves=1; take=@; end=Finished 0 0 [] 64 5; replies=|hi/|; record=rx record 2 window 1 frame line/end 64 5/; report=rx report 1/end 0 taken 5 steps 64/
        words=serve p 80 2 --record r --report t --window 1 --frames 2; clients=hi/|hi/; moves=1; take=4; end=Finished 0 0 [] 82 6; replies=hi/|hi/|; record=rx record 2 window 1 frame line/end 82 6/; report=rx report 1/end 0 taken 6 steps 82/
        each=5..7; words=serve p 80 2 --record r --report t --window 1 --frames 2; clients=hi/|hi/; moves=1; take=@; end=Finished 0 0 [] 64 5; replies=hi/||; record=rx record 2 window 1 frame line/end 64 5/; report=rx report 1/end 0 taken 5 steps 64/
        words=serve p 80 2 --record r --report t --window 1 --frames 2; clients=hi/|hi/; moves=1; take=8; end=Finished 0 0 [] 82 6; replies=hi/|hi/|; record=rx record 2 window 1 frame line/end 82 6/; report=rx report 1/end 0 taken 6 steps 82/
        # There is no call more.
        words=serve p 80 2 --record r --report t --window 1 --frames 2; clients=hi/|hi/; moves=1; bind=2; accept=3; take=9; give=7; end=Finished 0 0 [] 82 6; replies=hi/|hi/|; record=rx record 2 window 1 frame line/end 82 6/; report=rx report 1/end 0 taken 6 steps 82/
        # The same at the same time.
        words=serve p 80 2 --record r --report t --window 1 --frames 2 --at-once 2; clients=hi/|hi/; moves=1; give=1; ready=client client 0 0 0 1 1 1 1; end=Finished 0 0 [] 82 6; given=|hi/|; record=rx record 2 window 1 frame line/end 82 6/; report=rx report 1/end 0 taken 6 steps 82/
        words=serve p 80 2 --record r --report t --window 1 --frames 2 --at-once 2; clients=hi/|hi/; moves=1; give=2; ready=client client 0 0 0 1 1 1 1; end=Finished 0 0 [] 82 6; given=h|hi/|; record=rx record 2 window 1 frame line/end 82 6/; report=rx report 1/end 0 taken 6 steps 82/
        words=serve p 80 2 --record r --report t --window 1 --frames 2 --at-once 2; clients=hi/|hi/; moves=1; give=3; ready=client client 0 0 0 1 1 1 1; end=Finished 0 0 [] 82 6; given=hi|hi/|; record=rx record 2 window 1 frame line/end 82 6/; report=rx report 1/end 0 taken 6 steps 82/
        words=serve p 80 2 --record r --report t --window 1 --frames 2 --at-once 2; clients=hi/|hi/; moves=1; give=4; ready=client client 0 0 0 0 1 1 1; end=Finished 0 0 [] 82 6; given=hi/||; record=rx record 2 window 1 frame line/end 82 6/; report=rx report 1/end 0 taken 6 steps 82/
        words=serve p 80 2 --record r --report t --window 1 --frames 2 --at-once 2; clients=hi/|hi/; moves=1; give=5; ready=client client 0 0 0 0 1 1 1; end=Finished 0 0 [] 82 6; given=hi/|h|; record=rx record 2 window 1 frame line/end 82 6/; report=rx report 1/end 0 taken 6 steps 82/
        words=serve p 80 2 --record r --report t --window 1 --frames 2 --at-once 2; clients=hi/|hi/; moves=1; give=6; ready=client client 0 0 0 0 1 1 1; end=Finished 0 0 [] 82 6; given=hi/|hi|; record=rx record 2 window 1 frame line/end 82 6/; report=rx report 1/end 0 taken 6 steps 82/
    "#,
    )
}
