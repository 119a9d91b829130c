// What no clause says of a command: that it comes to its answer, with which counts, what its files have, and that a reply is written
// before the next read. The values are worked by hand from the rules and from the texts of the guests: an instruction of a text is one of the
// program, but `la` and `li` are two. Those of guests that fail are those of `compare/second` too, which was written from the rules.
//
// The program stands at 0x10000. The first block stands at 0x12000 behind a buffer of one page, and at 0x13000 behind more data.
// Padding puts it 0x100 further on, and the next one 0x210 behind it.
use std::alloc::{AllocError, Global};
use std::test::Fail;
use test_commands::play_rows;

// The echo does 6 instructions up to its recv, 10 for an item that is no message, and 18 for one that is.
#[test]
fn an_echo_ends_as_its_row_says(rt: HostRuntime) -> Result<(), Fail> {
    play_rows(
        rt.alloc(),
        r#"
        echo
        in=0100000000 0200000300 68690a; end=Finished 0 0 [] 34 2; out=0200000300 68690a; left=; record=rx record 2 window 4 frame line/end 34 2/; report=rx report 1/end 0 taken 2 steps 34/
        in=0100000000 0200000100 68 0200000100 65 0200000100 6c 0200000100 6c 0200000200 6f0a; end=Finished 0 0 [] 34 2; out=0200000600 68656c6c6f0a; left=
        in=0100000000 0101000000 0201000100 78 0200000400 610a620a 0201000200 790a; end=Finished 0 0 [] 80 5; out=0200000200 610a 0200000200 620a 0201000300 78790a; left=
        in=0100000000 0300000000; end=Finished 0 0 [] 26 2; out=; left=
        in=0100000000 0200000300 68690a 020000; end=InputRefused { kind: 5, offset: 13 } 4 0 [] 34 2; out=0200000300 68690a; left=
        in=0100000000 0100000000; end=InputRefused { kind: 3, offset: 5 } 4 0 [] 16 1; out=; left=
        options=--frame length; in=0100000000 0200000600 02000000 6869; end=Finished 0 0 [] 34 2; out=0200000200 6869; left=
        options=--frame length; in=0100000000 0200000400 00000000; end=Finished 0 0 [] 34 2; out=; left=
        options=--frame length; in=0100000000 0200000400 01100000; end=MessageTooLong { conn: 0 } 4 0 [] 16 1; out=; left=; record=rx record 2 window 4 frame length/end 16 1/; report=rx report 1/end 4 taken 1 steps 16/
        options=--frame whole; in=0100000000 0200000200 6869; end=Finished 0 0 [] 34 2; out=0200000200 6869; left=
    "#,
    )
}

#[test]
fn an_echo_has_other_options_and_streams(rt: HostRuntime) -> Result<(), Fail> {
    play_rows(
        rt.alloc(),
        r#"
        echo
        options=--form json; in=0100000000 0200000300 68690a; record=rx record 2 window 4 frame line/end 34 2/; report={"report":1}/{"end":0,"steps":34,"taken":2}/
        options=--window 10 --frames 2 --frame whole; in=0100000000 0200000200 6869; record=rx record 2 window 10 frame whole/end 34 2/; report=rx report 1/end 0 taken 2 steps 34/
        in=0100000000 0200000300 68690a 0200000600 74686572650a; answer=Finished; out=0200000300 68690a 0200000600 74686572650a
        # A call on source or sink moves one byte.
        in=0100000000 0200000300 68690a; takes=1; gives=1; end=Finished 0 0 [] 34 2; out=0200000300 68690a; left=
        in=0100000000 0200000100 68 0200000100 65 0200000100 6c 0200000100 6c 0200000200 6f0a; takes=1; gives=1; end=Finished 0 0 [] 34 2; out=0200000600 68656c6c6f0a; left=
        in=0100000000 0101000000 0201000100 78 0200000400 610a620a 0201000200 790a; takes=1; gives=1; end=Finished 0 0 [] 80 5; out=0200000200 610a 0200000200 620a 0201000300 78790a; left=
    "#,
    )
}

#[test]
fn a_line_has_4096_bytes_at_most(rt: HostRuntime) -> Result<(), Fail> {
    play_rows(
        rt.alloc(),
        r#"
        echo
        in=0100000000 0200000010 61*4095 0a; end=Finished 0 0 [] 34 2; out=0200000010 61*4095 0a; left=
        in=0100000000 0200000110 61*4096 0a; end=MessageTooLong { conn: 0 } 4 0 [] 16 1; out=; left=
    "#,
    )
}

// An exit is told, and no item is taken; a malloc of 2 GiB answers 0.
#[test]
fn a_guest_ends_as_its_row_says(rt: HostRuntime) -> Result<(), Fail> {
    play_rows(
        rt.alloc(),
        r#"
        divide
        in=0100000000 0200000400 3720300a 0200000f00 2d32313437343833363438202d310a 0200000500 2d3720320a; end=Finished 0 0 [] 513 4; out=0200000500 2d3120370a 0200000e00 2d3231343734383336343820300a 0200000600 2d33202d310a; left=

        three
        end=Finished 0 0 [] 3 0; out=; left=
        options=--budget 4; end=Finished 0 0 [] 3 0; out=; left=
        options=--budget 3; end=GaveUp { point: 0, cause: Hang } 5 0 [] 3 0; out=; left=; record=rx record 2 window 4 frame line/end 3 0/; report=rx report 1/failure 0 point 0 cause Hang at 0001000c/try 0 checkpoint 0 env pad result Hang/try 1 checkpoint 0 env zero result Hang/try 2 checkpoint 0 env isolate result Hang/try 3 checkpoint 0 env delay result Hang/try 4 checkpoint 0 env all result Hang/end 5 taken 0 steps 3/
        in=0100000000 0200000300 68690a; end=GaveUp { point: 1, cause: BadAccess } 5 0 [] 4 1; out=; left=0200000300 68690a; record=rx record 2 window 4 frame line/end 4 1/; report=rx report 1/failure 0 point 1 cause BadAccess at 00010010/try 0 checkpoint 0 env pad result BadAccess/try 1 checkpoint 0 env zero result BadAccess/try 2 checkpoint 0 env isolate result BadAccess/try 3 checkpoint 0 env delay result BadAccess/try 4 checkpoint 0 env all result BadAccess/end 5 taken 1 steps 4/

        null
        in=0100000000 0200000200 780a; end=GaveUp { point: 2, cause: BadAccess } 5 0 [] 20 2; out=; left=; record=rx record 2 window 4 frame line/end 20 2/; report=rx report 1/failure 0 point 2 cause BadAccess at 00010028/try 0 checkpoint 1 env pad result BadAccess/try 1 checkpoint 1 env zero result BadAccess/try 2 checkpoint 1 env isolate result BadAccess/try 3 checkpoint 1 env delay result BadAccess/try 4 checkpoint 1 env all result BadAccess/try 5 checkpoint 0 env pad result BadAccess/try 6 checkpoint 0 env zero result BadAccess/try 7 checkpoint 0 env isolate result BadAccess/try 8 checkpoint 0 env delay result BadAccess/try 9 checkpoint 0 env all result BadAccess/end 5 taken 2 steps 20/

        overflow
        in=0100000000 0200000300 68690a; end=Finished 0 2 [] 81 2; out=0200000300 68690a; left=; record=rx record 2 window 4 frame line/m 00012000 - 00000010/m 00012010 - 00000010/end 81 2/; report=rx report 1/end 0 taken 2 steps 81/

        li a0, 1/li a7, 5/ecall/
        in=0100000000; end=Exited(1) 1 0 [] 5 0; out=; left=0100000000
        options=--form text; record=rx record 2 window 4 frame line/end 5 0/; report=rx report 1/end 1 taken 0 steps 5/

        counter
        in=0100000000 0200000300 68690a 0200000600 74686572650a; answer=Finished; out=0200000200 310a 0200000200 320a

        lui a0, 524288/li a7, 3/ecall/li a0, 0/li a7, 5/ecall/
        record=rx record 2 window 4 frame line/m 00000000 - 80000000/end 9 0/; report=rx report 1/end 0 taken 0 steps 9/
    "#,
    )
}

// An echo that counts down from 20,000,000 before each reply: two instructions more for it and 40,000,000 for its loop. Under the budget that is used
// unless one is given, it is a hang: of the million behind the recv five come before the loop, so the last of them is a count.
#[test]
fn a_slow_request_is_no_hang(rt: HostRuntime) -> Result<(), Fail> {
    play_rows(
        rt.alloc(),
        r#"
        receive:/la a0, buffer/li a1, 4096/li a7, 1/ecall/li t0, 2/bne a2, t0, receive/li t1, 20000000/count:/addi t1, t1, -1/bnez t1, count/mv a2, a0/mv a0, a1/la a1, buffer/li a7, 2/ecall/j receive/.data/buffer: .space 4096/
        options=--budget 50000000; in=0100000000 0200000300 68690a; end=Finished 0 0 [] 40000036 2; out=0200000300 68690a; left=; record=rx record 2 window 4 frame line/end 40000036 2/; report=rx report 1/end 0 taken 2 steps 40000036/
        in=0100000000 0200000300 68690a; end=GaveUp { point: 2, cause: Hang } 5 0 [] 1000017 2; out=; left=; record=rx record 2 window 4 frame line/end 1000017 2/; report=rx report 1/failure 0 point 2 cause Hang at 00010034/try 0 checkpoint 1 env pad result Hang/try 1 checkpoint 1 env zero result Hang/try 2 checkpoint 1 env isolate result Hang/try 3 checkpoint 1 env delay result Hang/try 4 checkpoint 1 env all result Hang/try 5 checkpoint 0 env pad result Hang/try 6 checkpoint 0 env zero result Hang/try 7 checkpoint 0 env isolate result Hang/try 8 checkpoint 0 env delay result Hang/try 9 checkpoint 0 env all result Hang/end 5 taken 2 steps 1000017/

        three
        options=--budget 68719476736; end=Finished 0 0 [] 3 0; out=; left=
        options=--budget 68719476737; in=0100000000 0200000300 68690a; files=1; end=BadWords 2 0 [] 0 0; out=; left=0100000000 0200000300 68690a
    "#,
    )
}

// An environment that survived stays in force until so many items more were taken than at its failure, four unless it is said. Each line but those that
// come meanwhile fails once more, and is recovered from the request before it.
#[test]
fn an_environment_stays_for_as_many_items_as_are_asked_for(rt: HostRuntime) -> Result<(), Fail> {
    play_rows(
        rt.alloc(),
        r#"
        overflow
        in=0100000000 0200002800 78*39 0a 0200002800 78*39 0a 0200002800 78*39 0a 0200002800 78*39 0a 0200002800 78*39 0a 0200002800 78*39 0a 0200002800 78*39 0a 0200002800 78*39 0a 0200002800 78*39 0a 0200002800 78*39 0a 0200002800 78*39 0a 0200002800 78*39 0a; end=Finished 0 24 [] 3460 13; out=0200002800 78*39 0a 0200002800 78*39 0a 0200002800 78*39 0a 0200002800 78*39 0a 0200002800 78*39 0a 0200002800 78*39 0a 0200002800 78*39 0a 0200002800 78*39 0a 0200002800 78*39 0a 0200002800 78*39 0a 0200002800 78*39 0a 0200002800 78*39 0a; left=; report=rx report 1/failure 0 point 2 cause AssertFailed 1 at 000100ac/try 0 checkpoint 1 env pad result survived/failure 1 point 6 cause AssertFailed 1 at 000100ac/try 0 checkpoint 5 env pad result survived/failure 2 point 10 cause AssertFailed 1 at 000100ac/try 0 checkpoint 9 env pad result survived/end 0 taken 13 steps 3460/
        options=--keep 1; in=0100000000 0200002800 78*39 0a 0200002800 78*39 0a 0200002800 78*39 0a 0200002800 78*39 0a 0200002800 78*39 0a 0200002800 78*39 0a 0200002800 78*39 0a 0200002800 78*39 0a 0200002800 78*39 0a 0200002800 78*39 0a 0200002800 78*39 0a 0200002800 78*39 0a; end=Finished 0 24 [] 3460 13; out=0200002800 78*39 0a 0200002800 78*39 0a 0200002800 78*39 0a 0200002800 78*39 0a 0200002800 78*39 0a 0200002800 78*39 0a 0200002800 78*39 0a 0200002800 78*39 0a 0200002800 78*39 0a 0200002800 78*39 0a 0200002800 78*39 0a 0200002800 78*39 0a; left=; report=rx report 1/failure 0 point 2 cause AssertFailed 1 at 000100ac/try 0 checkpoint 1 env pad result survived/failure 1 point 3 cause AssertFailed 1 at 000100ac/try 0 checkpoint 2 env pad result survived/failure 2 point 4 cause AssertFailed 1 at 000100ac/try 0 checkpoint 3 env pad result survived/failure 3 point 5 cause AssertFailed 1 at 000100ac/try 0 checkpoint 4 env pad result survived/failure 4 point 6 cause AssertFailed 1 at 000100ac/try 0 checkpoint 5 env pad result survived/failure 5 point 7 cause AssertFailed 1 at 000100ac/try 0 checkpoint 6 env pad result survived/failure 6 point 8 cause AssertFailed 1 at 000100ac/try 0 checkpoint 7 env pad result survived/failure 7 point 9 cause AssertFailed 1 at 000100ac/try 0 checkpoint 8 env pad result survived/failure 8 point 10 cause AssertFailed 1 at 000100ac/try 0 checkpoint 9 env pad result survived/failure 9 point 11 cause AssertFailed 1 at 000100ac/try 0 checkpoint 10 env pad result survived/failure 10 point 12 cause AssertFailed 1 at 000100ac/try 0 checkpoint 11 env pad result survived/failure 11 point 13 cause AssertFailed 1 at 000100ac/try 0 checkpoint 12 env pad result survived/end 0 taken 13 steps 3460/
        options=--keep 8; in=0100000000 0200002800 78*39 0a 0200002800 78*39 0a 0200002800 78*39 0a 0200002800 78*39 0a 0200002800 78*39 0a 0200002800 78*39 0a 0200002800 78*39 0a 0200002800 78*39 0a 0200002800 78*39 0a 0200002800 78*39 0a 0200002800 78*39 0a 0200002800 78*39 0a; end=Finished 0 24 [] 3460 13; out=0200002800 78*39 0a 0200002800 78*39 0a 0200002800 78*39 0a 0200002800 78*39 0a 0200002800 78*39 0a 0200002800 78*39 0a 0200002800 78*39 0a 0200002800 78*39 0a 0200002800 78*39 0a 0200002800 78*39 0a 0200002800 78*39 0a 0200002800 78*39 0a; left=; report=rx report 1/failure 0 point 2 cause AssertFailed 1 at 000100ac/try 0 checkpoint 1 env pad result survived/failure 1 point 10 cause AssertFailed 1 at 000100ac/try 0 checkpoint 9 env pad result survived/end 0 taken 13 steps 3460/
        options=--keep 12; in=0100000000 0200002800 78*39 0a 0200002800 78*39 0a 0200002800 78*39 0a 0200002800 78*39 0a 0200002800 78*39 0a 0200002800 78*39 0a 0200002800 78*39 0a 0200002800 78*39 0a 0200002800 78*39 0a 0200002800 78*39 0a 0200002800 78*39 0a 0200002800 78*39 0a; end=Finished 0 24 [] 3460 13; out=0200002800 78*39 0a 0200002800 78*39 0a 0200002800 78*39 0a 0200002800 78*39 0a 0200002800 78*39 0a 0200002800 78*39 0a 0200002800 78*39 0a 0200002800 78*39 0a 0200002800 78*39 0a 0200002800 78*39 0a 0200002800 78*39 0a 0200002800 78*39 0a; left=; report=rx report 1/failure 0 point 2 cause AssertFailed 1 at 000100ac/try 0 checkpoint 1 env pad result survived/end 0 taken 13 steps 3460/
        options=--keep 4294967295; in=0100000000 0200002800 78*39 0a 0200002800 78*39 0a 0200002800 78*39 0a 0200002800 78*39 0a 0200002800 78*39 0a 0200002800 78*39 0a 0200002800 78*39 0a 0200002800 78*39 0a 0200002800 78*39 0a 0200002800 78*39 0a 0200002800 78*39 0a 0200002800 78*39 0a; end=Finished 0 24 [] 3460 13; out=0200002800 78*39 0a 0200002800 78*39 0a 0200002800 78*39 0a 0200002800 78*39 0a 0200002800 78*39 0a 0200002800 78*39 0a 0200002800 78*39 0a 0200002800 78*39 0a 0200002800 78*39 0a 0200002800 78*39 0a 0200002800 78*39 0a 0200002800 78*39 0a; left=; report=rx report 1/failure 0 point 2 cause AssertFailed 1 at 000100ac/try 0 checkpoint 1 env pad result survived/end 0 taken 13 steps 3460/
        options=--env pad; in=0100000000 0200002800 78*39 0a 0200002800 78*39 0a 0200002800 78*39 0a 0200002800 78*39 0a 0200002800 78*39 0a 0200002800 78*39 0a 0200002800 78*39 0a 0200002800 78*39 0a 0200002800 78*39 0a 0200002800 78*39 0a 0200002800 78*39 0a 0200002800 78*39 0a; end=Finished 0 24 [] 3460 13; out=0200002800 78*39 0a 0200002800 78*39 0a 0200002800 78*39 0a 0200002800 78*39 0a 0200002800 78*39 0a 0200002800 78*39 0a 0200002800 78*39 0a 0200002800 78*39 0a 0200002800 78*39 0a 0200002800 78*39 0a 0200002800 78*39 0a 0200002800 78*39 0a; left=; report=rx report 1/end 0 taken 13 steps 3460/
        words=run p --record r --report t --keep 0; in=0100000000 0200000300 68690a; files=1; end=BadWords 2 0 [] 0 0; out=; left=0100000000 0200000300 68690a; record=none; report=none
        words=run p --record r --report t --keep 4294967296; in=0100000000 0200000300 68690a; files=1; end=BadWords 2 0 [] 0 0; out=; left=0100000000 0200000300 68690a; record=none; report=none
        words=run p --record r --report t --env none; in=0100000000 0200000300 68690a; files=1; end=BadWords 2 0 [] 0 0; out=; left=0100000000 0200000300 68690a; record=none; report=none
    "#,
    )
}

// All are recovered but the first tell_over, which told where its block stands; dirty never fails, and has one checkpoint at a time. The failure is
// at the 44th instruction of overflow, the 39th of unset, the 21st of twice, the 57th of stale, the 31st of tell_free, the 40th of pair, the 43rd
// of late, the 50th of tell_over and the 11th of null. Guest three runs out of its budget, or behind its text.
#[test]
fn a_guest_that_fails_ends_as_its_row_says(rt: HostRuntime) -> Result<(), Fail> {
    play_rows(
        rt.alloc(),
        r#"
        overflow
        in=0100000000 0200002800 78*39 0a; end=Finished 0 2 [] 303 2; out=0200002800 78*39 0a; left=; record=rx record 2 window 4 frame line/m 00012100 - 00000010/m 00012310 - 00000010/end 303 2/; report=rx report 1/failure 0 point 2 cause AssertFailed 1 at 000100ac/try 0 checkpoint 1 env pad result survived/end 0 taken 2 steps 303/
        options=--form json; in=0100000000 0200002800 78*39 0a; record=rx record 2 window 4 frame line/m 00012100 - 00000010/m 00012310 - 00000010/end 303 2/; report={"report":1}/{"cause":"AssertFailed 1","failure":0,"pc":"000100ac","point":2,"tries":[{"checkpoint":1,"env":"pad","result":"survived"}]}/{"end":0,"steps":303,"taken":2}/
        # Padding stays for four items behind the first failure. The second long line fails once more.
        # Overflow does 16 instructions up to its first message, and 47 and 6 for each byte to the next.
        in=0100000000 0200002800 78*39 0a 0200000100 0a 0200000100 0a 0200000100 0a 0200002800 78*39 0a; record=rx record 2 window 4 frame line/m 00012100 - 00000010/m 00012310 - 00000010/m 00012100 - 00000010/m 00012310 - 00000010/m 00012100 - 00000010/m 00012310 - 00000010/m 00012100 - 00000010/m 00012310 - 00000010/m 00012100 - 00000010/m 00012310 - 00000010/end 749 6/; report=rx report 1/failure 0 point 2 cause AssertFailed 1 at 000100ac/try 0 checkpoint 1 env pad result survived/failure 1 point 6 cause AssertFailed 1 at 000100ac/try 0 checkpoint 5 env pad result survived/end 0 taken 6 steps 749/
        options=--ring 1 --form json; in=0100000000 0200002800 78*39 0a 0200000100 0a 0200000100 0a 0200000100 0a 0200002800 78*39 0a; record=rx record 2 window 4 frame line/m 00012100 - 00000010/m 00012310 - 00000010/m 00012100 - 00000010/m 00012310 - 00000010/m 00012100 - 00000010/m 00012310 - 00000010/m 00012100 - 00000010/m 00012310 - 00000010/m 00012100 - 00000010/m 00012310 - 00000010/end 749 6/; report={"report":1}/{"cause":"AssertFailed 1","failure":0,"pc":"000100ac","point":2,"tries":[{"checkpoint":1,"env":"pad","result":"survived"}]}/{"cause":"AssertFailed 1","failure":1,"pc":"000100ac","point":6,"tries":[{"checkpoint":5,"env":"pad","result":"survived"}]}/{"end":0,"steps":749,"taken":6}/

        unset
        in=0100000000 0200000300 68690a; end=Finished 0 2 [] 106 2; out=0200000300 68690a; left=; record=rx record 2 window 4 frame line/m 00012000 z 00000040/m 00012000 z 00000040/end 106 2/; report=rx report 1/failure 0 point 2 cause AssertFailed 2 at 00010098/try 0 checkpoint 1 env pad result AssertFailed 2/try 1 checkpoint 1 env zero result survived/end 0 taken 2 steps 106/
        options=--form json; in=0100000000 0200000300 68690a; record=rx record 2 window 4 frame line/m 00012000 z 00000040/m 00012000 z 00000040/end 106 2/; report={"report":1}/{"cause":"AssertFailed 2","failure":0,"pc":"00010098","point":2,"tries":[{"checkpoint":1,"env":"pad","result":"AssertFailed 2"},{"checkpoint":1,"env":"zero","result":"survived"}]}/{"end":0,"steps":106,"taken":2}/

        twice
        in=0100000000 0200000300 68690a; end=Finished 0 1 [] 45 2; out=0200000300 68690a; left=; record=rx record 2 window 4 frame line/m 00012000 - 00000020/end 45 2/; report=rx report 1/failure 0 point 2 cause BadFree at 00010050/try 0 checkpoint 1 env pad result BadFree/try 1 checkpoint 1 env zero result BadFree/try 2 checkpoint 1 env isolate result BadFree/try 3 checkpoint 1 env delay result survived/end 0 taken 2 steps 45/

        stale
        in=0100000000 0200000200 610a 0200000200 620a; end=Finished 0 2 [] 141 3; out=0200000200 610a 0200000200 620a; left=; record=rx record 2 window 4 frame line/m 00012000 - 00000040/m 00012040 - 00000040/end 141 3/; report=rx report 1/failure 0 point 3 cause AssertFailed 3 at 000100e0/try 0 checkpoint 2 env pad result AssertFailed 3/try 1 checkpoint 2 env zero result AssertFailed 3/try 2 checkpoint 2 env isolate result AssertFailed 3/try 3 checkpoint 2 env delay result AssertFailed 3/try 4 checkpoint 2 env all result AssertFailed 3/try 5 checkpoint 1 env pad result AssertFailed 3/try 6 checkpoint 1 env zero result AssertFailed 3/try 7 checkpoint 1 env isolate result AssertFailed 3/try 8 checkpoint 1 env delay result survived/end 0 taken 3 steps 141/

        tell_free
        in=0100000000 0200000200 610a; end=Finished 0 1 [] 119 2; out=0200000900 30303031333030300a; left=; record=rx record 2 window 4 frame line/m 00013000 - 00000010/end 119 2/; report=rx report 1/failure 0 point 2 cause BadFree at 00010078/try 0 checkpoint 1 env pad result Contradicts/try 1 checkpoint 1 env zero result BadFree/try 2 checkpoint 1 env isolate result Contradicts/try 3 checkpoint 1 env delay result survived/end 0 taken 2 steps 119/

        pair
        in=0100000000 0101000000 0201000300 676f0a; end=Finished 0 2 [] 76 3; out=0200000200 610a 0201000200 620a; left=; record=rx record 2 window 4 frame line/m 00013000 - 00000010/m 00013000 - 00000010/end 76 3/; report=rx report 1/failure 0 point 3 cause BadFree at 0001009c/try 0 checkpoint 2 env pad result Contradicts/try 1 checkpoint 2 env zero result BadFree/try 2 checkpoint 2 env isolate result Contradicts/try 3 checkpoint 2 env delay result survived/end 0 taken 3 steps 76/

        tell_over
        in=0100000000 0200000200 610a; end=GaveUp { point: 2, cause: AssertFailed(5) } 5 2 [] 247 2; out=0200000900 30303031333030300a; left=; record=rx record 2 window 4 frame line/m 00013000 - 00000010/m 00013010 - 00000010/end 247 2/; report=rx report 1/failure 0 point 2 cause AssertFailed 5 at 000100c4/try 0 checkpoint 1 env pad result Contradicts/try 1 checkpoint 1 env zero result AssertFailed 5/try 2 checkpoint 1 env isolate result Contradicts/try 3 checkpoint 1 env delay result AssertFailed 5/try 4 checkpoint 1 env all result Contradicts/try 5 checkpoint 0 env pad result Contradicts/try 6 checkpoint 0 env zero result AssertFailed 5/try 7 checkpoint 0 env isolate result Contradicts/try 8 checkpoint 0 env delay result AssertFailed 5/try 9 checkpoint 0 env all result Contradicts/end 5 taken 2 steps 247/
        options=--hold 2; in=0100000000 0200000200 610a; end=Finished 0 2 [] 256 2; out=0200000900 30303031333130300a; left=; record=rx record 2 window 4 frame line/m 00013100 - 00000010/m 00013310 - 00000010/end 256 2/; report=rx report 1/failure 0 point 2 cause AssertFailed 5 at 000100c4/try 0 checkpoint 1 env pad result survived/end 0 taken 2 steps 256/

        dirty
        options=--window 1 --frames 2; in=0100000000 0200000200 610a 0200000200 620a 0200000200 630a; end=Finished 0 1 [] 300 4; out=0200000200 610a 0200000200 620a 0200000200 630a; left=; record=rx record 2 window 1 frame line/m 00012000 - 00010000/end 300 4/; report=rx report 1/end 0 taken 4 steps 300/

        late
        in=0100000000 0200000200 780a; end=Finished 0 2 [] 60 2; out=0200000200 610a; left=; record=rx record 2 window 4 frame line/m 00013000 - 00000010/m 00013000 - 00000010/end 60 2/; report=rx report 1/failure 0 point 2 cause BadFree at 000100a8/try 0 checkpoint 1 env pad result Behind/try 1 checkpoint 1 env zero result BadFree/try 2 checkpoint 1 env isolate result Behind/try 3 checkpoint 1 env delay result survived/end 0 taken 2 steps 60/

        three
        options=--budget 3 --form json; record=rx record 2 window 4 frame line/end 3 0/; report={"report":1}/{"cause":"Hang","failure":0,"pc":"0001000c","point":0,"tries":[{"checkpoint":0,"env":"pad","result":"Hang"},{"checkpoint":0,"env":"zero","result":"Hang"},{"checkpoint":0,"env":"isolate","result":"Hang"},{"checkpoint":0,"env":"delay","result":"Hang"},{"checkpoint":0,"env":"all","result":"Hang"}]}/{"end":5,"steps":3,"taken":0}/
    "#,
    )
}

// Overflow stores the byte behind its two blocks at the 32nd instruction of its text, once 32 bytes were copied. With padding all of the line lies in the
// extent of the first block, and the 17th byte behind what it reserves. Stale reads a block that was freed: it stands where delay keeps it from use, but
// isn't live.
#[test]
fn a_guard_finds_an_access_where_it_goes_wrong(rt: HostRuntime) -> Result<(), Fail> {
    play_rows(
        rt.alloc(),
        r#"
        overflow
        options=--guard extent; in=0100000000 0200002800 78*39 0a; end=Finished 0 2 [] 303 2; out=0200002800 78*39 0a; left=; record=rx record 2 window 4 frame line/m 00012100 - 00000010/m 00012310 - 00000010/end 303 2/; report=rx report 1/failure 0 point 2 cause BadAccess at 0001007c/try 0 checkpoint 1 env pad result survived/end 0 taken 2 steps 303/
        options=--guard block; in=0100000000 0200002800 78*39 0a; end=GaveUp { point: 2, cause: BadAccess } 5 2 [] 233 2; out=; left=; record=rx record 2 window 4 frame line/m 00012000 - 00000010/m 00012010 - 00000010/end 233 2/; report=rx report 1/failure 0 point 2 cause BadAccess at 0001007c/try 0 checkpoint 1 env pad result BadAccess/try 1 checkpoint 1 env zero result BadAccess/try 2 checkpoint 1 env isolate result BadAccess/try 3 checkpoint 1 env delay result BadAccess/try 4 checkpoint 1 env all result BadAccess/try 5 checkpoint 0 env pad result BadAccess/try 6 checkpoint 0 env zero result BadAccess/try 7 checkpoint 0 env isolate result BadAccess/try 8 checkpoint 0 env delay result BadAccess/try 9 checkpoint 0 env all result BadAccess/end 5 taken 2 steps 233/
        # A message that fits its block is no failure.
        options=--guard block; in=0100000000 0200000300 68690a; end=Finished 0 2 [] 81 2; out=0200000300 68690a; left=
        words=run p --record r --report t --guard blocks; in=0100000000 0200000300 68690a; files=1; end=BadWords 2 0 [] 0 0; out=; left=0100000000 0200000300 68690a

        stale
        options=--guard extent; in=0100000000 0200000200 610a 0200000200 620a; end=Finished 0 2 [] 141 3; out=0200000200 610a 0200000200 620a; left=; record=rx record 2 window 4 frame line/m 00012000 - 00000040/m 00012040 - 00000040/end 141 3/; report=rx report 1/failure 0 point 3 cause AssertFailed 3 at 000100e0/try 0 checkpoint 2 env pad result AssertFailed 3/try 1 checkpoint 2 env zero result AssertFailed 3/try 2 checkpoint 2 env isolate result AssertFailed 3/try 3 checkpoint 2 env delay result AssertFailed 3/try 4 checkpoint 2 env all result AssertFailed 3/try 5 checkpoint 1 env pad result AssertFailed 3/try 6 checkpoint 1 env zero result AssertFailed 3/try 7 checkpoint 1 env isolate result AssertFailed 3/try 8 checkpoint 1 env delay result survived/end 0 taken 3 steps 141/
        options=--guard block; in=0100000000 0200000200 610a 0200000200 620a; end=GaveUp { point: 3, cause: AssertFailed(3) } 5 2 [] 131 3; out=0200000200 610a; left=; record=rx record 2 window 4 frame line/m 00012000 - 00000040/m 00012000 - 00000040/end 131 3/; report=rx report 1/failure 0 point 3 cause AssertFailed 3 at 000100e0/try 0 checkpoint 2 env pad result AssertFailed 3/try 1 checkpoint 2 env zero result AssertFailed 3/try 2 checkpoint 2 env isolate result AssertFailed 3/try 3 checkpoint 2 env delay result AssertFailed 3/try 4 checkpoint 2 env all result AssertFailed 3/try 5 checkpoint 1 env pad result AssertFailed 3/try 6 checkpoint 1 env zero result AssertFailed 3/try 7 checkpoint 1 env isolate result AssertFailed 3/try 8 checkpoint 1 env delay result BadAccess/try 9 checkpoint 1 env all result BadAccess/try 10 checkpoint 0 env pad result AssertFailed 3/try 11 checkpoint 0 env zero result AssertFailed 3/try 12 checkpoint 0 env isolate result AssertFailed 3/try 13 checkpoint 0 env delay result BadAccess/try 14 checkpoint 0 env all result BadAccess/end 5 taken 3 steps 131/
    "#,
    )
}

// A table has ten trials, five for each of two checkpoints, and the session is that of `run`: its output, record and report are those of the rows above.
// Calls on files are the five of a `run` before its session, to start `o` and to add to it, those of the session, and to add the rest to `o`.
#[test]
fn a_failure_is_diagnosed_as_its_row_says(rt: HostRuntime) -> Result<(), Fail> {
    play_rows(
        rt.alloc(),
        r#"
        overflow
        words=diagnose p --record r --report t --diagnosis o --guard off; in=0100000000 0200002800 78*39 0a; end=Finished 0 2 [] 303 2; out=0200002800 78*39 0a; left=; record=rx record 2 window 4 frame line/m 00012100 - 00000010/m 00012310 - 00000010/end 303 2/; report=rx report 1/failure 0 point 2 cause AssertFailed 1 at 000100ac/try 0 checkpoint 1 env pad result survived/end 0 taken 2 steps 303/; o=rx diagnosis 1/failure 0 point 2 cause AssertFailed 1 at 000100ac/try 0 checkpoint 1 env pad result survived/try 1 checkpoint 1 env zero result AssertFailed 1/try 2 checkpoint 1 env isolate result AssertFailed 1/try 3 checkpoint 1 env delay result AssertFailed 1/try 4 checkpoint 1 env all result survived/try 5 checkpoint 0 env pad result survived/try 6 checkpoint 0 env zero result AssertFailed 1/try 7 checkpoint 0 env isolate result AssertFailed 1/try 8 checkpoint 0 env delay result AssertFailed 1/try 9 checkpoint 0 env all result survived/verdict pad all/end 0 episodes 1/
        words=diagnose p --record r --report t --diagnosis o --guard off --ring 1; in=0100000000 0200002800 78*39 0a 0200000100 0a 0200000100 0a 0200000100 0a 0200002800 78*39 0a; end=Finished 0 10 [] 749 6; left=; record=rx record 2 window 4 frame line/m 00012100 - 00000010/m 00012310 - 00000010/m 00012100 - 00000010/m 00012310 - 00000010/m 00012100 - 00000010/m 00012310 - 00000010/m 00012100 - 00000010/m 00012310 - 00000010/m 00012100 - 00000010/m 00012310 - 00000010/end 749 6/; report=rx report 1/failure 0 point 2 cause AssertFailed 1 at 000100ac/try 0 checkpoint 1 env pad result survived/failure 1 point 6 cause AssertFailed 1 at 000100ac/try 0 checkpoint 5 env pad result survived/end 0 taken 6 steps 749/; o=rx diagnosis 1/failure 0 point 2 cause AssertFailed 1 at 000100ac/try 0 checkpoint 1 env pad result survived/try 1 checkpoint 1 env zero result AssertFailed 1/try 2 checkpoint 1 env isolate result AssertFailed 1/try 3 checkpoint 1 env delay result AssertFailed 1/try 4 checkpoint 1 env all result survived/verdict pad all/failure 1 point 6 cause AssertFailed 1 at 000100ac/try 0 checkpoint 5 env pad result survived/try 1 checkpoint 5 env zero result AssertFailed 1/try 2 checkpoint 5 env isolate result AssertFailed 1/try 3 checkpoint 5 env delay result AssertFailed 1/try 4 checkpoint 5 env all result survived/verdict pad all/end 0 episodes 2/
        # Nothing fails.
        words=diagnose p --record r --report t --diagnosis o --guard off; in=0100000000 0200000300 68690a; end=Finished 0 2 [] 81 2; out=0200000300 68690a; left=; o=rx diagnosis 1/end 0 episodes 0/
        # The diagnosis can't be started, or its first line not be added, and no session begins.
        words=diagnose p --record r --report t --diagnosis o --guard off; in=0100000000 0200002800 78*39 0a; files=6; end=FileFault 9 0 [] 0 0; out=; left=0100000000 0200002800 78*39 0a; record=rx record 2 window 4 frame line/; report=rx report 1/; o=none
        words=diagnose p --record r --report t --diagnosis o --guard off; in=0100000000 0200002800 78*39 0a; files=7; end=FileFault 9 0 [] 0 0; out=; left=0100000000 0200002800 78*39 0a; record=rx record 2 window 4 frame line/; report=rx report 1/; o=
        # The episode can't be noted; the last line of the report can't be added; the rest of the diagnosis can't.
        words=diagnose p --record r --report t --diagnosis o --guard off; in=0100000000 0200002800 78*39 0a; files=8; end=FileFault 9 0 [Choice { ask: Malloc { size: 16 }, at: 73984, zeroed: false, carried: 0 }, Choice { ask: Malloc { size: 16 }, at: 74512, zeroed: false, carried: 0 }] 303 2; out=; left=; record=rx record 2 window 4 frame line/; report=rx report 1/; o=rx diagnosis 1/
        words=diagnose p --record r --report t --diagnosis o --guard off; in=0100000000 0200002800 78*39 0a; files=11; end=FileFault 9 2 [] 303 2; out=0200002800 78*39 0a; left=; record=rx record 2 window 4 frame line/m 00012100 - 00000010/m 00012310 - 00000010/end 303 2/; report=rx report 1/failure 0 point 2 cause AssertFailed 1 at 000100ac/try 0 checkpoint 1 env pad result survived/; o=rx diagnosis 1/
        words=diagnose p --record r --report t --diagnosis o --guard off; in=0100000000 0200002800 78*39 0a; files=12; end=FileFault 9 2 [] 303 2; out=0200002800 78*39 0a; left=; record=rx record 2 window 4 frame line/m 00012100 - 00000010/m 00012310 - 00000010/end 303 2/; report=rx report 1/failure 0 point 2 cause AssertFailed 1 at 000100ac/try 0 checkpoint 1 env pad result survived/end 0 taken 2 steps 303/; o=rx diagnosis 1/
        words=diagnose p --record r --report t --diagnosis t; in=0100000000 0200002800 78*39 0a; files=1; end=BadWords 2 0 [] 0 0; out=; left=0100000000 0200002800 78*39 0a; record=none; report=none

        null
        words=diagnose p --record r --report t --diagnosis o --guard off; in=0100000000 0200000200 780a; end=GaveUp { point: 2, cause: BadAccess } 5 0 [] 20 2; out=; left=; record=rx record 2 window 4 frame line/end 20 2/; report=rx report 1/failure 0 point 2 cause BadAccess at 00010028/try 0 checkpoint 1 env pad result BadAccess/try 1 checkpoint 1 env zero result BadAccess/try 2 checkpoint 1 env isolate result BadAccess/try 3 checkpoint 1 env delay result BadAccess/try 4 checkpoint 1 env all result BadAccess/try 5 checkpoint 0 env pad result BadAccess/try 6 checkpoint 0 env zero result BadAccess/try 7 checkpoint 0 env isolate result BadAccess/try 8 checkpoint 0 env delay result BadAccess/try 9 checkpoint 0 env all result BadAccess/end 5 taken 2 steps 20/; o=rx diagnosis 1/failure 0 point 2 cause BadAccess at 00010028/try 0 checkpoint 1 env pad result BadAccess/try 1 checkpoint 1 env zero result BadAccess/try 2 checkpoint 1 env isolate result BadAccess/try 3 checkpoint 1 env delay result BadAccess/try 4 checkpoint 1 env all result BadAccess/try 5 checkpoint 0 env pad result BadAccess/try 6 checkpoint 0 env zero result BadAccess/try 7 checkpoint 0 env isolate result BadAccess/try 8 checkpoint 0 env delay result BadAccess/try 9 checkpoint 0 env all result BadAccess/verdict none/end 5 episodes 1/
    "#,
    )
}

// The source fails at its second call, and the sink, which takes three bytes, at its second.
#[test]
fn a_call_fails_at_the_start(rt: HostRuntime) -> Result<(), Fail> {
    play_rows(
        rt.alloc(),
        r#"
        echo
        in=0100000000 0200000300 68690a; source=2; end=ReadFault 7 0 [] 16 1; out=; left=0200000300 68690a

        overflow
        in=0100000000 0200000300 68690a; sink=2; gives=3; end=WriteFault 8 0 [Choice { ask: Malloc { size: 16 }, at: 73728, zeroed: false, carried: 0 }, Choice { ask: Malloc { size: 16 }, at: 73744, zeroed: false, carried: 0 }] 68 2; out=020000; left=
        # Calls on files are to load the program, to start the record and add to it, and to start the report and add to it. Nothing is read.
        in=0100000000 0200002800 78*39 0a; files=1; end=FileFault 9 0 [] 0 0; out=; left=0100000000 0200002800 78*39 0a; record=none; report=none
        in=0100000000 0200002800 78*39 0a; files=2; end=FileFault 9 0 [] 0 0; out=; left=0100000000 0200002800 78*39 0a; record=none; report=none
        in=0100000000 0200002800 78*39 0a; files=3; end=FileFault 9 0 [] 0 0; out=; left=0100000000 0200002800 78*39 0a; record=; report=none
        in=0100000000 0200002800 78*39 0a; files=4; end=FileFault 9 0 [] 0 0; out=; left=0100000000 0200002800 78*39 0a; record=rx record 2 window 4 frame line/; report=none
        in=0100000000 0200002800 78*39 0a; files=5; end=FileFault 9 0 [] 0 0; out=; left=0100000000 0200002800 78*39 0a; record=rx record 2 window 4 frame line/; report=
        # What they had is written anew. The last one fails nowhere.
        in=0100000000 0200002800 78*39 0a; before=as it was/; files=2; end=FileFault 9 0 [] 0 0; out=; left=0100000000 0200002800 78*39 0a; record=as it was/; report=as it was/
        in=0100000000 0200002800 78*39 0a; before=as it was/; files=3; end=FileFault 9 0 [] 0 0; out=; left=0100000000 0200002800 78*39 0a; record=; report=as it was/
        in=0100000000 0200002800 78*39 0a; before=as it was/; files=4; end=FileFault 9 0 [] 0 0; out=; left=0100000000 0200002800 78*39 0a; record=rx record 2 window 4 frame line/; report=as it was/
        in=0100000000 0200002800 78*39 0a; before=as it was/; files=5; end=FileFault 9 0 [] 0 0; out=; left=0100000000 0200002800 78*39 0a; record=rx record 2 window 4 frame line/; report=
        in=0100000000 0200002800 78*39 0a; before=as it was/; end=Finished 0 2 [] 303 2; out=0200002800 78*39 0a; left=; record=rx record 2 window 4 frame line/m 00012100 - 00000010/m 00012310 - 00000010/end 303 2/; report=rx report 1/failure 0 point 2 cause AssertFailed 1 at 000100ac/try 0 checkpoint 1 env pad result survived/end 0 taken 2 steps 303/
    "#,
    )
}

#[test]
fn a_call_fails_in_mid_session(rt: HostRuntime) -> Result<(), Fail> {
    play_rows(
        rt.alloc(),
        r#"
        overflow
        # The first file call of the session adds its failure to the report. At the end the answers of the allocator are added to the record, and
        # the last lines to both. There is no tenth call.
        in=0100000000 0200002800 78*39 0a; files=6; end=FileFault 9 0 [Choice { ask: Malloc { size: 16 }, at: 73984, zeroed: false, carried: 0 }, Choice { ask: Malloc { size: 16 }, at: 74512, zeroed: false, carried: 0 }] 303 2; out=; left=; record=rx record 2 window 4 frame line/; report=rx report 1/
        in=0100000000 0200002800 78*39 0a; files=7; end=FileFault 9 0 [Choice { ask: Malloc { size: 16 }, at: 73984, zeroed: false, carried: 0 }, Choice { ask: Malloc { size: 16 }, at: 74512, zeroed: false, carried: 0 }] 303 2; out=0200002800 78*39 0a; left=; record=rx record 2 window 4 frame line/; report=rx report 1/failure 0 point 2 cause AssertFailed 1 at 000100ac/try 0 checkpoint 1 env pad result survived/
        in=0100000000 0200002800 78*39 0a; files=8; end=FileFault 9 2 [] 303 2; out=0200002800 78*39 0a; left=; record=rx record 2 window 4 frame line/m 00012100 - 00000010/m 00012310 - 00000010/; report=rx report 1/failure 0 point 2 cause AssertFailed 1 at 000100ac/try 0 checkpoint 1 env pad result survived/
        in=0100000000 0200002800 78*39 0a; files=9; end=FileFault 9 2 [] 303 2; out=0200002800 78*39 0a; left=; record=rx record 2 window 4 frame line/m 00012100 - 00000010/m 00012310 - 00000010/end 303 2/; report=rx report 1/failure 0 point 2 cause AssertFailed 1 at 000100ac/try 0 checkpoint 1 env pad result survived/
        in=0100000000 0200002800 78*39 0a; files=10; end=Finished 0 2 [] 303 2; out=0200002800 78*39 0a; left=; record=rx record 2 window 4 frame line/m 00012100 - 00000010/m 00012310 - 00000010/end 303 2/; report=rx report 1/failure 0 point 2 cause AssertFailed 1 at 000100ac/try 0 checkpoint 1 env pad result survived/end 0 taken 2 steps 303/
        # With one checkpoint the answers of the allocator are added to the record at each recv.
        options=--ring 1; in=0100000000 0200000300 68690a 0200000300 68690a; files=6; end=FileFault 9 0 [Choice { ask: Malloc { size: 16 }, at: 73728, zeroed: false, carried: 0 }, Choice { ask: Malloc { size: 16 }, at: 73744, zeroed: false, carried: 0 }] 81 2; out=0200000300 68690a; left=0200000300 68690a; record=rx record 2 window 4 frame line/; report=rx report 1/
        options=--ring 1; in=0100000000 0200000300 68690a 0200000300 68690a; files=7; end=FileFault 9 2 [Choice { ask: Malloc { size: 16 }, at: 73728, zeroed: false, carried: 0 }, Choice { ask: Malloc { size: 16 }, at: 73744, zeroed: false, carried: 0 }] 146 3; out=0200000300 68690a 0200000300 68690a; left=; record=rx record 2 window 4 frame line/m 00012000 - 00000010/m 00012010 - 00000010/; report=rx report 1/
        options=--ring 1; in=0100000000 0200000300 68690a 0200000300 68690a; files=8; end=FileFault 9 4 [] 146 3; out=0200000300 68690a 0200000300 68690a; left=; record=rx record 2 window 4 frame line/m 00012000 - 00000010/m 00012010 - 00000010/m 00012000 - 00000010/m 00012010 - 00000010/; report=rx report 1/
        options=--ring 1; in=0100000000 0200000300 68690a 0200000300 68690a; files=9; end=FileFault 9 4 [] 146 3; out=0200000300 68690a 0200000300 68690a; left=; record=rx record 2 window 4 frame line/m 00012000 - 00000010/m 00012010 - 00000010/m 00012000 - 00000010/m 00012010 - 00000010/end 146 3/; report=rx report 1/
        # The source fails behind the long line; the sink at its first call, and in the midst of the second reply. No file has its last line.
        in=0100000000 0200002800 78*39 0a; source=4; end=ReadFault 7 0 [Choice { ask: Malloc { size: 16 }, at: 73984, zeroed: false, carried: 0 }, Choice { ask: Malloc { size: 16 }, at: 74512, zeroed: false, carried: 0 }] 303 2; out=0200002800 78*39 0a; left=; record=rx record 2 window 4 frame line/; report=rx report 1/failure 0 point 2 cause AssertFailed 1 at 000100ac/try 0 checkpoint 1 env pad result survived/
        in=0100000000 0200002800 78*39 0a; sink=1; end=WriteFault 8 0 [Choice { ask: Malloc { size: 16 }, at: 73984, zeroed: false, carried: 0 }, Choice { ask: Malloc { size: 16 }, at: 74512, zeroed: false, carried: 0 }] 303 2; out=; left=; record=rx record 2 window 4 frame line/; report=rx report 1/failure 0 point 2 cause AssertFailed 1 at 000100ac/try 0 checkpoint 1 env pad result survived/
        options=--ring 1; in=0100000000 0200002800 78*39 0a; source=4; end=ReadFault 7 2 [] 303 2; out=0200002800 78*39 0a; left=; record=rx record 2 window 4 frame line/m 00012100 - 00000010/m 00012310 - 00000010/; report=rx report 1/failure 0 point 2 cause AssertFailed 1 at 000100ac/try 0 checkpoint 1 env pad result survived/
        options=--ring 1; in=0100000000 0200000300 68690a 0200000300 68690a; sink=12; gives=1; end=WriteFault 8 2 [Choice { ask: Malloc { size: 16 }, at: 73728, zeroed: false, carried: 0 }, Choice { ask: Malloc { size: 16 }, at: 73744, zeroed: false, carried: 0 }] 133 3; out=0200000300 68690a 020000; left=; record=rx record 2 window 4 frame line/m 00012000 - 00000010/m 00012010 - 00000010/; report=rx report 1/
    "#,
    )
}

// Nothing is read or written: words that are refused, where no file is touched, as its call would fail; a file that is missing or
// can't be loaded; one that is no executable. The other two files aren't made, nor changed.
#[test]
fn no_session_begins(rt: HostRuntime) -> Result<(), Fail> {
    play_rows(
        rt.alloc(),
        r#"
        three
        words=run p --record r; in=0100000000 0200000300 68690a; files=1; end=BadWords 2 0 [] 0 0; out=; left=0100000000 0200000300 68690a
        words=run q --record r --report t; in=0100000000 0200000300 68690a; end=FileFault 9 0 [] 0 0; out=; left=0100000000 0200000300 68690a
        in=0100000000 0200000300 68690a; files=1; end=FileFault 9 0 [] 0 0; out=; left=0100000000 0200000300 68690a

        bytes=00454c46 01010100 00000000 00000000 0200f300 01000000 00000100 34000000 00000000 00000000 34002000 01000000 00000000 01000000 54000000 00000100 00000100 10000000 10000000 05000000 01000000 93081000 93050000 13050000 73000000
        in=0100000000 0200000300 68690a; end=ElfRefused(2) 3 0 [] 0 0; out=; left=0100000000 0200000300 68690a

        bytes=6e6f2070726f6772616d
        words=run q --record r --report t; in=0100000000; end=FileFault 9 0 [] 0 0; out=; left=0100000000; record=none; report=none
        words=run q --record r --report t; in=0100000000; before=as it was/; end=FileFault 9 0 [] 0 0; out=; left=0100000000; record=as it was/; report=as it was/
        words=run p --record r; in=0100000000; end=BadWords 2 0 [] 0 0; out=; left=0100000000; record=none; report=none
        words=run p --record r; in=0100000000; before=as it was/; end=BadWords 2 0 [] 0 0; out=; left=0100000000; record=as it was/; report=as it was/
        in=0100000000; end=ElfRefused(1) 3 0 [] 0 0; out=; left=0100000000; record=none; report=none
        in=0100000000; before=as it was/; end=ElfRefused(1) 3 0 [] 0 0; out=; left=0100000000; record=as it was/; report=as it was/

        text=three
        # The text of guest three is assembled, and another one is refused. The executable has one segment (System V ABI, "ELF Header" and
        # "Program Header"; RISC-V ELF psABI).
        words=asm p o; in=0100000000; end=Finished 0 0 [] 0 0; out=; left=0100000000; written=7f454c46 01010100 00000000 00000000 0200f300 01000000 00000100 34000000 00000000 00000000 34002000 01000000 00000000 01000000 54000000 00000100 00000100 10000000 10000000 05000000 01000000 93081000 93050000 13050000 73000000

        text=addi a7, x0, 1/addx a1, x0, 0/
        words=asm p o; in=0100000000; end=AsmRefused { kind: 1, line: 2 } 3 0 [] 0 0; out=; left=0100000000; o=none
    "#,
    )
}

// The second answer of malloc is another one, which is a block that stands: the second call of malloc comes behind 30 instructions. Or the first
// answer has a digit of upper case.
#[test]
fn a_record_is_replayed_as_its_row_says(rt: HostRuntime) -> Result<(), Fail> {
    play_rows(
        rt.alloc(),
        r#"
        overflow
        words=replay p r; in=0100000000 0200002800 78*39 0a; before=rx record 1 window 4 frame line/m 00012100 -/m 00012310 -/end 303 2/; end=Finished 0 0 [] 0 0; differs=None; out=0200002800 78*39 0a; left=
        words=replay p r; in=0100000000 0200002800 78*39 0a; before=rx record 1 window 4 frame line/m 00012100 -/m 00012100 -/end 303 2/; end=Mismatch { step: 30 } 3 0 [] 0 0; differs=Some(Unusable { number: 1, asked: Malloc { size: 16 }, at: 73984, zeroed: false, carried: 0 }); out=; left=
        words=replay p r; in=0100000000 0200002800 78*39 0a; before=rx record 1 window 4 frame line/m 0001210A -/m 00012310 -/end 303 2/; end=RecordRefused { line: 2 } 3 0 [] 0 0; out=; left=0100000000 0200002800 78*39 0a
        # The same in version 2; with another size in the first line or in the second one; with a calloc there; and with a line of version 1. The first
        # call of malloc comes behind 26 instructions.
        words=replay p r; in=0100000000 0200002800 78*39 0a; before=rx record 2 window 4 frame line/m 00012100 - 00000010/m 00012310 - 00000010/end 303 2/; end=Finished 0 0 [] 0 0; out=0200002800 78*39 0a; left=
        words=replay p r; in=0100000000 0200002800 78*39 0a; before=rx record 2 window 4 frame line/m 00012100 - 0000000f/m 00012310 - 00000010/end 303 2/; end=Mismatch { step: 26 } 3 0 [] 0 0; differs=Some(OtherAsk { number: 0, asked: Malloc { size: 16 }, told: Malloc { size: 15 } }); out=; left=
        words=replay p r; in=0100000000 0200002800 78*39 0a; before=rx record 2 window 4 frame line/m 00012100 - 00000010/m 00012310 - 00000011/end 303 2/; end=Mismatch { step: 30 } 3 0 [] 0 0; out=; left=
        words=replay p r; in=0100000000 0200002800 78*39 0a; before=rx record 2 window 4 frame line/m 00012100 - 00000010/c 00012310 z 00000001 00000010/end 303 2/; end=Mismatch { step: 30 } 3 0 [] 0 0; differs=Some(OtherAsk { number: 1, asked: Malloc { size: 16 }, told: Calloc { count: 1, size: 16 } }); out=; left=
        words=replay p r; in=0100000000 0200002800 78*39 0a; before=rx record 2 window 4 frame line/m 00012100 - 00000010/m 00012310 -/end 303 2/; end=RecordRefused { line: 3 } 3 0 [] 0 0; out=; left=0100000000 0200002800 78*39 0a

        echo
        # The echo's record; one that ends behind the first reply, where no event more is taken; one with an instruction more, for which the run
        # would have to take a third item; and one with an item less.
        words=replay p r; in=0100000000 0200000300 68690a; before=rx record 1 window 4 frame line/end 34 2/; end=Finished 0 0 [] 0 0; out=0200000300 68690a; left=
        words=replay p r; in=0100000000 0200000300 68690a 0200000300 68690a; before=rx record 1 window 4 frame line/end 28 2/; end=Finished 0 0 [] 0 0; out=0200000300 68690a; left=0200000300 68690a
        words=replay p r; in=0100000000 0200000300 68690a; before=rx record 1 window 4 frame line/end 35 3/; end=Mismatch { step: 34 } 3 0 [] 0 0; differs=Some(InputEnded); out=0200000300 68690a; left=
        words=replay p r; in=0100000000 0200000300 68690a; before=rx record 1 window 4 frame line/end 34 1/; end=Mismatch { step: 34 } 3 0 [] 0 0; differs=Some(ItemsApart { taken: 2, told: 1 }); out=0200000300 68690a; left=
        # The source fails at its second call, the sink, which takes three bytes a call, at its second, and the files as the record is loaded.
        words=replay p r; in=0100000000 0200000300 68690a; before=rx record 1 window 4 frame line/end 34 2/; source=2; end=ReadFault 7 0 [] 0 0; out=; left=0200000300 68690a
        words=replay p r; in=0100000000 0200000300 68690a; before=rx record 1 window 4 frame line/end 34 2/; sink=2; gives=3; end=WriteFault 8 0 [] 0 0; out=020000; left=
        words=replay p r; in=0100000000 0200000300 68690a; before=rx record 1 window 4 frame line/end 34 2/; files=2; end=FileFault 9 0 [] 0 0; out=; left=0100000000 0200000300 68690a
    "#,
    )
}

// A drill needs nothing but its output. Lines become frames and frames lines, and what is refused is told by its first byte.
#[test]
fn a_command_without_a_program_ends_as_its_row_says(rt: HostRuntime) -> Result<(), Fail> {
    play_rows(
        rt.alloc(),
        r#"
        three
        words=drill 0 1; in=00; end=Finished 0 0 [] 0 0; out=6472696c6c203020310a6974656d7320390a657069736f64657320300a627974657320350a73746174757320300a; left=00; record=none; report=none
        words=drill 0 1; sink=1; end=WriteFault 8 0 [] 0 0; out=; record=none
        words=frame; in=2b300a 303e68690a 2d30; end=Finished 0 0 [] 0 0; out=0100000000 0200000300 68690a 0300000000; left=; record=none
        words=frame; in=2b300a 303f0a 2d30; end=InputRefused { kind: 7, offset: 3 } 4 0 [] 0 0; out=0100000000; left=2d30
        words=frame; in=2b300a 2d300a; source=4; end=ReadFault 7 0 [] 0 0; out=0100000000
        words=unframe; in=0200000300 68690a 0201000100 78; end=Finished 0 0 [] 0 0; out=303c68690a 313c785c0a; left=
        words=unframe; in=0200000300 68690a 0900000000 00; end=InputRefused { kind: 1, offset: 8 } 4 0 [] 0 0; out=303c68690a; left=00
    "#,
    )
}

// The records of both versions become one of version 2, and nothing is given. Calls on files are to load the program and the record, to start `o` and to add
// to it.
#[test]
fn a_record_is_converted_as_its_row_says(rt: HostRuntime) -> Result<(), Fail> {
    play_rows(
        rt.alloc(),
        r#"
        overflow
        words=convert p r o; in=0100000000 0200002800 78*39 0a; before=rx record 1 window 4 frame line/m 00012100 -/m 00012310 -/end 303 2/; end=Finished 0 0 [] 0 0; out=; left=; o=rx record 2 window 4 frame line/m 00012100 - 00000010/m 00012310 - 00000010/end 303 2/
        words=convert p r o; in=0100000000 0200002800 78*39 0a; before=rx record 2 window 4 frame line/m 00012100 - 00000010/m 00012310 - 00000010/end 303 2/; end=Finished 0 0 [] 0 0; out=; left=; o=rx record 2 window 4 frame line/m 00012100 - 00000010/m 00012310 - 00000010/end 303 2/
        words=convert p r o; in=0100000000 0200002800 78*39 0a; before=rx record 1 window 4 frame line/m 00012100 -/m 00012100 -/end 303 2/; end=Mismatch { step: 30 } 3 0 [] 0 0; differs=Some(Unusable { number: 1, asked: Malloc { size: 16 }, at: 73984, zeroed: false, carried: 0 }); out=; left=; o=none
        words=convert p r o; in=0100000000 0200002800 78*39 0a; before=rx record 1 window 4 frame line/m 00012100 -/m 00012310 - 00000010/end 303 2/; end=RecordRefused { line: 3 } 3 0 [] 0 0; out=; left=0100000000 0200002800 78*39 0a; o=none

        echo
        # The sink isn't called. The source fails at its second call, and the files as `o` is started and as it is added to.
        words=convert p r o; in=0100000000 0200000300 68690a; before=rx record 1 window 4 frame line/end 34 2/; sink=1; end=Finished 0 0 [] 0 0; out=; left=; o=rx record 2 window 4 frame line/end 34 2/
        words=convert p r o; in=0100000000 0200000300 68690a; before=rx record 1 window 4 frame line/end 34 2/; source=2; end=ReadFault 7 0 [] 0 0; out=; left=0200000300 68690a; o=none
        words=convert p r o; in=0100000000 0200000300 68690a; before=rx record 1 window 4 frame line/end 34 2/; files=2; end=FileFault 9 0 [] 0 0; out=; left=0100000000 0200000300 68690a; o=none
        words=convert p r o; in=0100000000 0200000300 68690a; before=rx record 1 window 4 frame line/end 34 2/; files=3; end=FileFault 9 0 [] 0 0; out=; left=; o=none
        words=convert p r o; in=0100000000 0200000300 68690a; before=rx record 1 window 4 frame line/end 34 2/; files=4; end=FileFault 9 0 [] 0 0; out=; left=; o=
        words=convert p r r; in=0100000000 0200000300 68690a; before=rx record 1 window 4 frame line/end 34 2/; end=BadWords 2 0 [] 0 0; out=; left=0100000000 0200000300 68690a; record=rx record 1 window 4 frame line/end 34 2/
    "#,
    )
}

// Clients of a port are served one after another. The echo takes an open, a line and a close of each.
#[test]
fn a_port_is_served_as_its_row_says(rt: HostRuntime) -> Result<(), Fail> {
    play_rows(
        rt.alloc(),
        r#"
        echo
        words=serve p 80 2 --record r --report t; clients=hi/|there/; in=0100000000; end=Finished 0 0 [] 82 6; replies=hi/|there/|; calls= bound 80 accepted took 3 of 4096 gave 3 of 3 took 0 of 4096 closed accepted took 6 of 4096 gave 6 of 6 took 0 of 4096 closed; out=; left=0100000000; record=rx record 2 window 4 frame line/end 82 6/; report=rx report 1/end 0 taken 6 steps 82/
        words=serve p 65535 1 --record r --report t --form json; clients=hi/|there/; end=Finished 0 0 [] 44 3; replies=hi/|; calls= bound 65535 accepted took 3 of 4096 gave 3 of 3 took 0 of 4096 closed; record=rx record 2 window 4 frame line/end 44 3/; report={"report":1}/{"end":0,"steps":44,"taken":3}/
        # The bind fails.
        words=serve p 80 2 --record r --report t; clients=hi/|hi/; bind=1; end=ReadFault 7 0 [] 0 0; replies=; calls= failed Bind; record=rx record 2 window 4 frame line/; report=rx report 1/
        # The first accept fails, or the second one, or there is no third client.
        words=serve p 80 2 --record r --report t; clients=hi/|hi/; accept=1; end=ReadFault 7 0 [] 6 0; replies=; calls= bound 80 failed Accept; record=rx record 2 window 4 frame line/; report=rx report 1/
        words=serve p 80 2 --record r --report t; clients=hi/|hi/; accept=2; end=ReadFault 7 0 [] 44 3; replies=hi/|; calls= bound 80 accepted took 3 of 4096 gave 3 of 3 took 0 of 4096 closed failed Accept; record=rx record 2 window 4 frame line/; report=rx report 1/
        words=serve p 80 3 --record r --report t; clients=hi/|hi/; end=ReadFault 7 0 [] 82 6; replies=hi/|hi/|; record=rx record 2 window 4 frame line/; report=rx report 1/
        # The second give fails: the client is gone, and the next one is served.
        words=serve p 80 2 --record r --report t; clients=hi/|hi/; moves=1; give=2; end=Finished 0 0 [] 82 6; replies=h|hi/|; calls= bound 80 accepted took 1 of 4096 took 1 of 4096 took 1 of 4096 gave 1 of 3 failed Give closed accepted took 1 of 4096 took 1 of 4096 took 1 of 4096 gave 1 of 3 gave 1 of 2 gave 1 of 1 took 0 of 4096 closed; record=rx record 2 window 4 frame line/end 82 6/; report=rx report 1/end 0 taken 6 steps 82/
        # The first take fails, or the second one, behind half a line, which is dropped.
        words=serve p 80 2 --record r --report t; clients=hi/|hi/; take=1; end=Finished 0 0 [] 64 5; replies=|hi/|; calls= bound 80 accepted failed Take closed accepted took 3 of 4096 gave 3 of 3 took 0 of 4096 closed; record=rx record 2 window 4 frame line/end 64 5/; report=rx report 1/end 0 taken 5 steps 64/
        words=serve p 80 2 --record r --report t; clients=hi/|hi/; moves=2; take=2; end=Finished 0 0 [] 64 5; replies=|hi/|; calls= bound 80 accepted took 2 of 4096 failed Take closed accepted took 2 of 4096 took 1 of 4096 gave 2 of 3 gave 1 of 1 took 0 of 4096 closed; record=rx record 2 window 4 frame line/end 64 5/; report=rx report 1/end 0 taken 5 steps 64/
        # No file is loaded, and the port isn't called.
        words=serve q 80 2 --record r --report t; clients=hi/|hi/; end=FileFault 9 0 [] 0 0; replies=; calls=; record=none; report=none
    "#,
    )
}

// Overflow fails at the long line of the first client, and is served on with padding for four items, of which the second client's line is one; or is
// none behind a line more, where it fails again.
#[test]
fn a_guest_that_fails_serves_a_port(rt: HostRuntime) -> Result<(), Fail> {
    play_rows(
        rt.alloc(),
        r#"
        overflow
        words=serve p 80 2 --record r --report t; clients=xxxxxxxxxxxxxxxxxxxxxxxxxxxxxxxxxxxxxxx/|yyyyyyyyyyyyyyyyyyyyyyyyyyyyyyyyyyyyyyy/; end=Finished 0 4 [] 620 6; replies=xxxxxxxxxxxxxxxxxxxxxxxxxxxxxxxxxxxxxxx/|yyyyyyyyyyyyyyyyyyyyyyyyyyyyyyyyyyyyyyy/|; calls= bound 80 accepted took 40 of 4096 gave 40 of 40 took 0 of 4096 closed accepted took 40 of 4096 gave 40 of 40 took 0 of 4096 closed; record=rx record 2 window 4 frame line/m 00012100 - 00000010/m 00012310 - 00000010/m 00012100 - 00000010/m 00012310 - 00000010/end 620 6/; report=rx report 1/failure 0 point 2 cause AssertFailed 1 at 000100ac/try 0 checkpoint 1 env pad result survived/end 0 taken 6 steps 620/
        words=serve p 80 2 --record r --report t; clients=xxxxxxxxxxxxxxxxxxxxxxxxxxxxxxxxxxxxxxx//|yyyyyyyyyyyyyyyyyyyyyyyyyyyyyyyyyyyyyyy/; end=Finished 0 6 [] 673 7; replies=xxxxxxxxxxxxxxxxxxxxxxxxxxxxxxxxxxxxxxx//|yyyyyyyyyyyyyyyyyyyyyyyyyyyyyyyyyyyyyyy/|; calls= bound 80 accepted took 41 of 4096 gave 40 of 40 gave 1 of 1 took 0 of 4096 closed accepted took 40 of 4096 gave 40 of 40 took 0 of 4096 closed; record=rx record 2 window 4 frame line/m 00012100 - 00000010/m 00012310 - 00000010/m 00012100 - 00000010/m 00012310 - 00000010/m 00012100 - 00000010/m 00012310 - 00000010/end 673 7/; report=rx report 1/failure 0 point 2 cause AssertFailed 1 at 000100ac/try 0 checkpoint 1 env pad result survived/failure 1 point 6 cause AssertFailed 1 at 000100ac/try 0 checkpoint 5 env pad result survived/end 0 taken 7 steps 673/
    "#,
    )
}

// Several clients of a port are served at the same time, in the order in which they are ready. The echo takes an open, a line and a close of each: 10, 18
// and 10 instructions behind its first 6.
#[test]
fn clients_at_once_are_served_as_their_row_says(rt: HostRuntime) -> Result<(), Fail> {
    play_rows(
        rt.alloc(),
        r#"
        echo
        # Their requests come in turns.
        words=serve p 80 2 --record r --report t --at-once 2; clients=hi/yo/|ok/; moves=3; ready=client client 1 0 1 0; end=Finished 0 0 [] 100 7; given=hi/yo/|ok/|; port= bound 80 any client accepted 0 any client accepted 1 open 1 took 1 3 of 4096 gave 1 3 of 3 open 0 took 0 3 of 4096 gave 0 3 of 3 open 1 took 1 0 of 4096 closed 1 open 0 took 0 3 of 4096 gave 0 3 of 3 open 0 took 0 0 of 4096 closed 0; record=rx record 2 window 4 frame line/end 100 7/; report=rx report 1/end 0 taken 7 steps 100/
        # The first one is silent until the other has gone.
        words=serve p 80 2 --record r --report t --at-once 256; clients=hi/|ok/yo/; moves=3; ready=client client 1 1 1; end=Finished 0 0 [] 100 7; given=hi/|ok/yo/|; port= bound 80 any client accepted 0 any client accepted 1 open 1 took 1 3 of 4096 gave 1 3 of 3 open 1 took 1 3 of 4096 gave 1 3 of 3 open 1 took 1 0 of 4096 closed 1 open 0 took 0 3 of 4096 gave 0 3 of 3 open 0 took 0 0 of 4096 closed 0; record=rx record 2 window 4 frame line/end 100 7/; report=rx report 1/end 0 taken 7 steps 100/
        # A give to one fails, or its second call does, or a take of it: it is gone, and the other one is served on.
        words=serve p 80 2 --record r --report t --at-once 2; clients=hi/yo/|ok/; moves=3; give=1; ready=client client 1 0 0; end=Finished 0 0 [] 100 7; given=hi/yo/||; port= bound 80 any client accepted 0 any client accepted 1 open 1 took 1 3 of 4096 failed Give(1) closed 1 open 0 took 0 3 of 4096 gave 0 3 of 3 open 0 took 0 3 of 4096 gave 0 3 of 3 open 0 took 0 0 of 4096 closed 0; record=rx record 2 window 4 frame line/end 100 7/; report=rx report 1/end 0 taken 7 steps 100/
        words=serve p 80 2 --record r --report t --at-once 2; clients=hi/|ok/; moves=2; give=2; ready=client client 1 1 0 0; end=Finished 0 0 [] 82 6; given=hi/|ok|; port= bound 80 any client accepted 0 any client accepted 1 open 1 took 1 2 of 4096 open 1 took 1 1 of 4096 gave 1 2 of 3 failed Give(1) closed 1 open 0 took 0 2 of 4096 open 0 took 0 1 of 4096 gave 0 2 of 3 gave 0 1 of 1 open 0 took 0 0 of 4096 closed 0; record=rx record 2 window 4 frame line/end 82 6/; report=rx report 1/end 0 taken 6 steps 82/
        words=serve p 80 2 --record r --report t --at-once 2; clients=hi/yo/|ok/; moves=3; take=1; ready=client client 1 0 0; end=Finished 0 0 [] 82 6; given=hi/yo/||; port= bound 80 any client accepted 0 any client accepted 1 open 1 failed Take(1) closed 1 open 0 took 0 3 of 4096 gave 0 3 of 3 open 0 took 0 3 of 4096 gave 0 3 of 3 open 0 took 0 0 of 4096 closed 0; record=rx record 2 window 4 frame line/end 82 6/; report=rx report 1/end 0 taken 6 steps 82/
        # No third client is waited for while two are open.
        words=serve p 80 3 --record r --report t --at-once 2; clients=a/|b/|c/; ready=client client client; end=Finished 0 0 [] 120 9; given=a/|b/|c/|; port= bound 80 any client accepted 0 any client accepted 1 open 0 took 0 2 of 4096 gave 0 2 of 2 open 0 took 0 0 of 4096 closed 0 any client accepted 2 open 1 took 1 2 of 4096 gave 1 2 of 2 open 1 took 1 0 of 4096 closed 1 open 2 took 2 2 of 4096 gave 2 2 of 2 open 2 took 2 0 of 4096 closed 2; record=rx record 2 window 4 frame line/end 120 9/; report=rx report 1/end 0 taken 9 steps 120/
        # A stop before a client came, and one while two are connected: no third one is waited for. One whose take fails behind it is the last one.
        words=serve p 80 3 --record r --report t --at-once 2 --stop input; clients=a/|b/|c/; ready=stop; end=Finished 0 0 [] 6 0; given=; port= bound 80 any-or-stop stop; record=rx record 2 window 4 frame line/end 6 0/; report=rx report 1/end 0 taken 0 steps 6/
        words=serve p 80 3 --record r --report t --at-once 2 --stop input; clients=a/||c/; ready=client client stop 0 0 1; end=Finished 0 0 [] 64 5; given=a/||; port= bound 80 any-or-stop client accepted 0 any-or-stop client accepted 1 open-or-stop stop open 0 took 0 2 of 4096 gave 0 2 of 2 open 0 took 0 0 of 4096 closed 0 open 1 took 1 0 of 4096 closed 1; record=rx record 2 window 4 frame line/end 64 5/; report=rx report 1/end 0 taken 5 steps 64/
        words=serve p 80 2 --record r --report t --stop input; clients=a/; take=1; ready=client stop 0; end=Finished 0 0 [] 26 2; given=|; port= bound 80 any-or-stop client accepted 0 open-or-stop stop open 0 failed Take(0) closed 0; record=rx record 2 window 4 frame line/end 26 2/; report=rx report 1/end 0 taken 2 steps 26/
        # The bind fails, or a wait, or an accept.
        words=serve p 80 2 --record r --report t --at-once 2; clients=a/|b/; bind=1; end=ReadFault 7 0 [] 0 0; given=; port= failed Bind; record=rx record 2 window 4 frame line/; report=rx report 1/
        words=serve p 80 2 --record r --report t --at-once 2; clients=a/|b/; wait=1; end=ReadFault 7 0 [] 6 0; given=; port= bound 80 failed Wait; record=rx record 2 window 4 frame line/; report=rx report 1/
        words=serve p 80 2 --record r --report t --at-once 2; clients=a/|b/; wait=3; end=ReadFault 7 0 [] 26 2; given=||; port= bound 80 any client accepted 0 any client accepted 1 failed Wait; record=rx record 2 window 4 frame line/; report=rx report 1/
        words=serve p 80 2 --record r --report t --at-once 2; clients=a/|b/; accept=2; end=ReadFault 7 0 [] 16 1; given=|; port= bound 80 any client accepted 0 any client failed Accept; record=rx record 2 window 4 frame line/; report=rx report 1/
        # One at a time waits for a client or for the one that is open. Nothing is called where no file is loaded, nor by words of no command.
        words=serve p 80 2 --record r --report t --at-once 1; clients=hi/|there/; end=Finished 0 0 [] 82 6; given=hi/|there/|; port= bound 80 any client accepted 0 open 0 took 0 3 of 4096 gave 0 3 of 3 open 0 took 0 0 of 4096 closed 0 any client accepted 1 open 1 took 1 6 of 4096 gave 1 6 of 6 open 1 took 1 0 of 4096 closed 1
        words=serve q 80 2 --record r --report t --at-once 2; clients=hi/; end=FileFault 9 0 [] 0 0; calls=; port=; record=none; report=none
        words=serve p 80 2 --record r --report t --at-once 0; clients=hi/; end=BadWords 2 0 [] 0 0; calls=; port=; record=none; report=none
        words=serve p 80 2 --record r --report t --at-once 257; clients=hi/; end=BadWords 2 0 [] 0 0; calls=; port=; record=none; report=none
    "#,
    )
}

// Overflow fails at the long line of the first of two clients, its third item, and is served on with padding for four items, of which the other's line is
// one. The instructions are as many as over a port, since no item costs more or fewer by its place.
#[test]
fn a_guest_that_fails_serves_clients_at_once(rt: HostRuntime) -> Result<(), Fail> {
    play_rows(
        rt.alloc(),
        r#"
        overflow
        words=serve p 80 2 --record r --report t --at-once 2; clients=xxxxxxxxxxxxxxxxxxxxxxxxxxxxxxxxxxxxxxx/|yyyyyyyyyyyyyyyyyyyyyyyyyyyyyyyyyyyyyyy/; ready=client client 0 1 0 1; end=Finished 0 4 [] 620 6; given=xxxxxxxxxxxxxxxxxxxxxxxxxxxxxxxxxxxxxxx/|yyyyyyyyyyyyyyyyyyyyyyyyyyyyyyyyyyyyyyy/|; port= bound 80 any client accepted 0 any client accepted 1 open 0 took 0 40 of 4096 gave 0 40 of 40 open 1 took 1 40 of 4096 gave 1 40 of 40 open 0 took 0 0 of 4096 closed 0 open 1 took 1 0 of 4096 closed 1; record=rx record 2 window 4 frame line/m 00012100 - 00000010/m 00012310 - 00000010/m 00012100 - 00000010/m 00012310 - 00000010/end 620 6/; report=rx report 1/failure 0 point 3 cause AssertFailed 1 at 000100ac/try 0 checkpoint 2 env pad result survived/end 0 taken 6 steps 620/
    "#,
    )
}

// Adds a text with a key's number for each `#`.
fn push_key(text: &mut String, alloc: Global, form: &str, number: u8) -> Result<(), AllocError> {
    let digits = format!(in alloc; "{number}")?;
    let one = form.replace(alloc, "#", digits.as_str())?;
    text.push_str(one.as_str())
}

// A text for each of the keys 0 to 98.
fn for_each_key(alloc: Global, form: &str) -> Result<String, AllocError> {
    let mut text = String::new(alloc);
    for number in 0..99 {
        push_key(&mut text, alloc, form, number)?;
    }
    Ok(text)
}

// The key of 40 letters of the first client runs over its block; the second client is given what the first one set. The counts are those of
// `compare/second`, which was written from the rules.
#[test]
fn a_store_of_keys_serves_a_port(rt: HostRuntime) -> Result<(), Fail> {
    let alloc = rt.alloc();
    let sets = for_each_key(alloc, "set k# v#/")?;
    let gets = for_each_key(alloc, "get k#/")?;
    let values = for_each_key(alloc, "v#/")?;
    let done = "ok/".repeat(alloc, 100)?;
    let rows = format!(in alloc;
        "keys\nwords=serve p 80 2 --record r --report t; clients={sets}set aaaaaaaaaaaaaaaaaaaaaaaaaaaaaaaaaaaaaaaa z/|{gets}get k0/; end=Finished 0 400 [] 199745 204; replies={done}|{values}v0/|; report=rx report 1/failure 0 point 101 cause AssertFailed 6 at 0001015c/try 0 checkpoint 100 env pad result survived/end 0 taken 204 steps 199745/"
    )?;
    play_rows(alloc, rows.as_str())
}
