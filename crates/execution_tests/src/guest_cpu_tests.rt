// Guests by themselves. One asks for two blocks and frees the second one twice: what each environment answers. The other is saved and
// restored, and does the same again. The words are by the formats of the manual; the places and the counts are worked out from the texts and from the
// heaps. The first one's is from 0x11000 up to 0x3ff000, with its middle at 0x208000, and the other's begins at 0x12000.
ghost use Rattle.std.specs.Prelude.{◌≡◌, ◌<◌, ◌≤◌, length, true, None, IfOk};
ghost use Rattle.run_history.specs.Machine.{Wants};
ghost use Rattle.run_history.specs.Run.{does};
ghost use Rattle.execution_tests.specs.Checkpoints.{GoesOn};

use alloc_env::Env;
use ckpt_ring::{Snapshot, drop_newer, save};
use elf_file::read_image;
use guest_cpu::{Cpu, Event};
use guest_image::Image;
use guest_space::AllMapped;
use rx_base::{Bytes, Item, Steps};
use std::alloc::{AllocError, Global};
use std::marker::Brand;
use std::process::Abort;
use std::sync::ledger::{Blank, Ledger};
use std::test::Fail;

// An executable of one segment at 0x10000, byte by byte from the System V ABI's "ELF Header" and "Program Header".
#[rattlefmt::skip]
static FILE: [u8; 120] = [
    0x7f, 0x45, 0x4c, 0x46, 1, 1, 1, 0, 0, 0, 0, 0, 0, 0, 0, 0, // e_ident
    2, 0, 243, 0, 1, 0, 0, 0, // e_type, e_machine, e_version
    0, 0, 1, 0, 52, 0, 0, 0, 0, 0, 0, 0, 0, 0, 0, 0, // e_entry, e_phoff, e_shoff, e_flags
    52, 0, 32, 0, 1, 0, 0, 0, 0, 0, 0, 0, // e_ehsize, e_phentsize, e_phnum, and no sections
    1, 0, 0, 0, 84, 0, 0, 0, 0, 0, 1, 0, 0, 0, 1, 0, // PT_LOAD, p_offset, p_vaddr, p_paddr
    36, 0, 0, 0, 36, 0, 0, 0, 5, 0, 0, 0, 1, 0, 0, 0, // p_filesz, p_memsz, p_flags, p_align
    0x93, 0x08, 0x30, 0x00, // li a7, 3
    0x13, 0x05, 0x00, 0x01, // li a0, 16
    0x73, 0x00, 0x00, 0x00, // ecall
    0x13, 0x05, 0x00, 0x01, // li a0, 16
    0x73, 0x00, 0x00, 0x00, // ecall
    0x93, 0x08, 0x40, 0x00, // li a7, 4
    0x73, 0x00, 0x00, 0x00, // ecall
    0x73, 0x00, 0x00, 0x00, // ecall
    0x73, 0x00, 0x10, 0x00, // ebreak
];

// An executable of text at 0x10000 and of 20 bytes at 0x11000. Of each message of four bytes it sends back which word stood in
// the segment, on the stack and in a block before, and puts the new word there. It frees the block where the word is odd.
#[rattlefmt::skip]
static STORES: [u8; 256] = [
    0x7f, 0x45, 0x4c, 0x46, 1, 1, 1, 0, 0, 0, 0, 0, 0, 0, 0, 0, // e_ident
    2, 0, 243, 0, 1, 0, 0, 0, // e_type, e_machine, e_version
    0, 0, 1, 0, 52, 0, 0, 0, 0, 0, 0, 0, 0, 0, 0, 0, // e_entry, e_phoff, e_shoff, e_flags
    52, 0, 32, 0, 2, 0, 0, 0, 0, 0, 0, 0, // e_ehsize, e_phentsize, e_phnum, and no sections
    1, 0, 0, 0, 116, 0, 0, 0, 0, 0, 1, 0, 0, 0, 1, 0, // PT_LOAD, p_offset, p_vaddr, p_paddr
    140, 0, 0, 0, 140, 0, 0, 0, 5, 0, 0, 0, 1, 0, 0, 0, // p_filesz, p_memsz, p_flags, p_align
    1, 0, 0, 0, 0, 1, 0, 0, 0, 16, 1, 0, 0, 16, 1, 0, // the other segment
    0, 0, 0, 0, 20, 0, 0, 0, 6, 0, 0, 0, 1, 0, 0, 0,
    0xb7, 0x14, 0x01, 0x00, // lui s1, 17
    0x13, 0x85, 0x04, 0x01, // receive: addi a0, s1, 16
    0x93, 0x05, 0x40, 0x00, // li a1, 4
    0x93, 0x08, 0x10, 0x00, // li a7, 1
    0x73, 0x00, 0x00, 0x00, // ecall
    0x93, 0x02, 0x20, 0x00, // li t0, 2
    0xe3, 0x16, 0x56, 0xfe, // bne a2, t0, receive
    0x13, 0x89, 0x05, 0x00, // mv s2, a1
    0x63, 0x1a, 0x04, 0x00, // bnez s0, stands
    0x13, 0x05, 0x00, 0x01, // li a0, 16
    0x93, 0x08, 0x30, 0x00, // li a7, 3
    0x73, 0x00, 0x00, 0x00, // ecall
    0x13, 0x04, 0x05, 0x00, // mv s0, a0
    0x03, 0xa3, 0x04, 0x01, // stands: lw t1, 16(s1)
    0x83, 0xa3, 0x04, 0x00, // lw t2, 0(s1)
    0x23, 0xa2, 0x74, 0x00, // sw t2, 4(s1)
    0x83, 0x23, 0xc1, 0xff, // lw t2, -4(sp)
    0x23, 0xa4, 0x74, 0x00, // sw t2, 8(s1)
    0x83, 0x23, 0x04, 0x00, // lw t2, 0(s0)
    0x23, 0xa6, 0x74, 0x00, // sw t2, 12(s1)
    0x23, 0xa0, 0x64, 0x00, // sw t1, 0(s1)
    0x23, 0x2e, 0x61, 0xfe, // sw t1, -4(sp)
    0x23, 0x20, 0x64, 0x00, // sw t1, 0(s0)
    0x13, 0x05, 0x09, 0x00, // mv a0, s2
    0x93, 0x85, 0x44, 0x00, // addi a1, s1, 4
    0x13, 0x06, 0xc0, 0x00, // li a2, 12
    0x93, 0x08, 0x20, 0x00, // li a7, 2
    0x73, 0x00, 0x00, 0x00, // ecall
    0x13, 0x73, 0x13, 0x00, // andi t1, t1, 1
    0xe3, 0x08, 0x03, 0xf8, // beqz t1, receive
    0x13, 0x05, 0x04, 0x00, // mv a0, s0
    0x93, 0x08, 0x40, 0x00, // li a7, 4
    0x73, 0x00, 0x00, 0x00, // ecall
    0x13, 0x04, 0x00, 0x00, // li s0, 0
    0x6f, 0xf0, 0xdf, 0xf7, // j receive
];

// What is done with the checkpoints of a guest.
#[derive(Clone, Copy)]
enum Turn {
    /// Nothing.
    On,
    /// It is saved.
    Save,
    /// It is restored from the checkpoint of an index.
    To(u32),
    /// The same, and the newer ones are dropped.
    Back(u32),
}

// What is done with its checkpoints, the items taken at each that stands then, the newest first, the words that the guest takes, one at each
// request, and what is seen up to the next request or failure: each event with the program counter, and the counts of items, of
// instructions since the last one, of all instructions, of answers of malloc, and of sends.
type Row<'a> = (Turn, &'a [u64], &'a [u32], &'a str);

// How many checkpoints may stand, how many frames there are more than for two states, and what is done.
type Table<'a> = (u32, u32, &'a [Row<'a>]);

// From its start it does four instructions up to its first request, and six with the open behind that.
const OPENED: &str = "\
Asks at 10010 [0 4 4 0 0]
Asks at 10010 [1 5 10 0 0]
";

// The words 2 and 3 behind the open.
const DONE: &str = "\
Asks at 10010 [1 5 10 0 0]
Chooses(Choice { ask: Malloc { size: 16 }, at: 73728, zeroed: false, carried: 0 }) at 10030 [2 7 18 1 0]
Emits(0, Listed { values: [0, 0, 0, 0, 0, 0, 0, 0, 0, 0, 0, 0] }) at 10070 [2 23 34 1 1]
Asks at 10010 [2 28 39 1 1]
Emits(0, Listed { values: [2, 0, 0, 0, 2, 0, 0, 0, 2, 0, 0, 0] }) at 10070 [3 19 59 1 2]
Asks at 10010 [3 29 69 1 2]
";

// The words 5 and 4 behind these. The block was freed, and stands at the same place with what it had.
const LATER: &str = "\
Asks at 10010 [3 29 69 1 2]
Chooses(Choice { ask: Malloc { size: 16 }, at: 73728, zeroed: false, carried: 0 }) at 10030 [4 7 77 2 2]
Emits(0, Listed { values: [3, 0, 0, 0, 3, 0, 0, 0, 3, 0, 0, 0] }) at 10070 [4 23 93 2 3]
Asks at 10010 [4 33 103 2 3]
Chooses(Choice { ask: Malloc { size: 16 }, at: 73728, zeroed: false, carried: 0 }) at 10030 [5 7 111 3 3]
Emits(0, Listed { values: [5, 0, 0, 0, 5, 0, 0, 0, 5, 0, 0, 0] }) at 10070 [5 23 127 3 4]
Asks at 10010 [5 28 132 3 4]
";

// The words 9 and 8 behind the open.
const OTHER: &str = "\
Asks at 10010 [1 5 10 0 0]
Chooses(Choice { ask: Malloc { size: 16 }, at: 73728, zeroed: false, carried: 0 }) at 10030 [2 7 18 1 0]
Emits(0, Listed { values: [0, 0, 0, 0, 0, 0, 0, 0, 0, 0, 0, 0] }) at 10070 [2 23 34 1 1]
Asks at 10010 [2 33 44 1 1]
Chooses(Choice { ask: Malloc { size: 16 }, at: 73728, zeroed: false, carried: 0 }) at 10030 [3 7 52 2 1]
Emits(0, Listed { values: [9, 0, 0, 0, 9, 0, 0, 0, 9, 0, 0, 0] }) at 10070 [3 23 68 2 2]
Asks at 10010 [3 28 73 2 2]
";

// The checkpoint behind the open.
const ONCE: &str = "Asks at 10010 [1 5 10 0 0]\n";

// The one behind the words 5 and 4.
const LAST: &str = "Asks at 10010 [5 28 132 3 4]\n";

// What was done behind a checkpoint is done again: from the older one of two, from the newest, and behind other words. The older one is the
// newest when the newer one was dropped, and is saved once more. Of three the oldest one is given up, as two may stand.
static RESTORED: [Row<'static>; 11] = [
    (Turn::On, &[], &[0], OPENED),
    (Turn::Save, &[1], &[2, 3], DONE),
    (Turn::Save, &[3, 1], &[5, 4], LATER),
    (Turn::To(1), &[3, 1], &[2, 3], DONE),
    (Turn::On, &[3, 1], &[5, 4], LATER),
    (Turn::Back(1), &[1], &[], ONCE),
    (Turn::Save, &[1, 1], &[9, 8], OTHER),
    (Turn::To(1), &[1, 1], &[2, 3], DONE),
    (Turn::To(0), &[1, 1], &[2, 3], DONE),
    (Turn::Save, &[3, 1], &[5, 4], LATER),
    (Turn::To(1), &[3, 1], &[2, 3], DONE),
];

// Two messages write three pages: of the segment, of the stack and of the block. With three frames more than for two states the second
// checkpoint fits beside the first: 256 + 3 + 256 are 515. For the third the first one goes, as 256 + 3 + 3 + 256 are 518.
static FITTING: [Row<'static>; 4] = [
    (Turn::On, &[], &[0], OPENED),
    (Turn::Save, &[1], &[2, 3], DONE),
    (Turn::Save, &[3, 1], &[5, 4], LATER),
    (Turn::Save, &[5, 3], &[], LAST),
];

// With two more it doesn't.
static CROWDED: [Row<'static>; 4] = [
    (Turn::On, &[], &[0], OPENED),
    (Turn::Save, &[1], &[2, 3], DONE),
    (Turn::Save, &[3], &[5, 4], LATER),
    (Turn::Save, &[5], &[], LAST),
];

// The environment, and what is seen of the guest that frees twice.
#[rattlefmt::skip]
static ANSWERS: [(Env, &str); 6] = [
    (Env::Plain, "\
Chooses(Choice { ask: Malloc { size: 16 }, at: 69632, zeroed: false, carried: 0 }) at 1000c [0 3 3 1 0]
Chooses(Choice { ask: Malloc { size: 16 }, at: 69648, zeroed: false, carried: 0 }) at 10014 [0 5 5 2 0]
Failed(BadFree) at 1001c [0 7 7 2 0]
"),
    (Env::Pad, "\
Chooses(Choice { ask: Malloc { size: 16 }, at: 69888, zeroed: false, carried: 0 }) at 1000c [0 3 3 1 0]
Chooses(Choice { ask: Malloc { size: 16 }, at: 70416, zeroed: false, carried: 0 }) at 10014 [0 5 5 2 0]
Failed(BadFree) at 1001c [0 7 7 2 0]
"),
    (Env::Zero, "\
Chooses(Choice { ask: Malloc { size: 16 }, at: 69632, zeroed: true, carried: 0 }) at 1000c [0 3 3 1 0]
Chooses(Choice { ask: Malloc { size: 16 }, at: 69648, zeroed: true, carried: 0 }) at 10014 [0 5 5 2 0]
Failed(BadFree) at 1001c [0 7 7 2 0]
"),
    (Env::Isolate, "\
Chooses(Choice { ask: Malloc { size: 16 }, at: 2129920, zeroed: false, carried: 0 }) at 1000c [0 3 3 1 0]
Chooses(Choice { ask: Malloc { size: 16 }, at: 2129936, zeroed: false, carried: 0 }) at 10014 [0 5 5 2 0]
Failed(BadFree) at 1001c [0 7 7 2 0]
"),
    (Env::Delay, "\
Chooses(Choice { ask: Malloc { size: 16 }, at: 69632, zeroed: false, carried: 0 }) at 1000c [0 3 3 1 0]
Chooses(Choice { ask: Malloc { size: 16 }, at: 69648, zeroed: false, carried: 0 }) at 10014 [0 5 5 2 0]
Failed(AssertFailed(0)) at 10020 [0 8 8 2 0]
"),
    (Env::All, "\
Chooses(Choice { ask: Malloc { size: 16 }, at: 2130176, zeroed: true, carried: 0 }) at 1000c [0 3 3 1 0]
Chooses(Choice { ask: Malloc { size: 16 }, at: 2130704, zeroed: true, carried: 0 }) at 10014 [0 5 5 2 0]
Failed(AssertFailed(0)) at 10020 [0 8 8 2 0]
"),
];

// A message of a connection, or its open where the word is 0.
fn item_of(alloc: Global, word: u32) -> Result<Item, Fail>
    ensures { IfOk result (λ item. length item.bytes ≤ 4) }
{
    let kind = if word == 0 { 1 } else { 2 };
    let bytes = Bytes::from_vec(Vec::from_array(alloc, word.to_le_bytes())?);
    Ok(Item {
        kind,
        conn: 0,
        bytes,
    })
}

// Notes an event.
fn note(alloc: Global, event: &Event, cpu: &Cpu<AllMapped>, seen: &mut String) -> Result<(), Fail> {
    let (pc, marks) = (cpu.pc(), cpu.marks());
    let line = format!(in alloc;
        "{event:?} at {pc:x} [{} {} {} {} {}]\n",
        marks.taken, marks.since, marks.steps, marks.choices, marks.sends
    )?;
    seen.push_str(&line)?;
    Ok(())
}

// Runs to the next request or failure, and notes each event. Whether it asks.
fn run_to_stop<L: Ledger>(
    rt: &impl Abort,
    alloc: Global,
    cpu: &mut Cpu<AllMapped>,
    env: Env,
    seen: &mut String,
    steps: &mut Steps<L>,
) -> Result<bool, Fail>
    requires { GoesOn cpu.old.slots }
    ensures goes { GoesOn cpu.new.slots }
    ensures saved { cpu.new.slots.saved ≡ cpu.old.slots.saved }
    ensures newer { cpu.new.slots.newer ≡ cpu.old.slots.newer }
    ensures asks { IfOk result (λ asks. asks ≡ true → does None None cpu.new.slots.live.guest.machine ≡ Wants) }
{
    for _ in 0..4 {
        assert!(rt; cpu.marks().steps < 1000);
        let event = cpu.run_to_event(alloc, env, 100, steps)?;
        match event {
            Event::Asks => {
                note(alloc, &event, cpu, seen)?;
                return Ok(true);
            }
            Event::Failed(_) => {
                note(alloc, &event, cpu, seen)?;
                return Ok(false);
            }
            Event::Emits(_, _) | Event::Chooses(_) => note(alloc, &event, cpu, seen)?,
            Event::Exits(_) => panic!(rt; "no exit is there"),
        }
    }
    panic!(rt; "it doesn't stop")
}

// Runs to the next stop, and takes these words, each at a request.
fn run_on<L: Ledger>(
    rt: &impl Abort,
    alloc: Global,
    cpu: &mut Cpu<AllMapped>,
    env: Env,
    words: &[u32],
    steps: &mut Steps<L>,
) -> Result<String, Fail>
    requires { GoesOn cpu.old.slots }
    ensures goes { GoesOn cpu.new.slots }
    ensures saved { cpu.new.slots.saved ≡ cpu.old.slots.saved }
    ensures newer { cpu.new.slots.newer ≡ cpu.old.slots.newer }
{
    let mut seen = String::new(alloc);
    for word in words {
        let item = item_of(alloc, *word)?;
        let asks = run_to_stop(rt, alloc, cpu, env, &mut seen, steps)?;
        assert!(rt; asks && cpu.marks().steps < 1000);
        cpu.take_item(&item, steps);
    }
    run_to_stop(rt, alloc, cpu, env, &mut seen, steps)?;
    Ok(seen)
}

// Does a turn where so many checkpoints are newer than the one on which the guest stands, and tells how many are then.
fn do_turn(rt: &impl Abort, cpu: &mut Cpu<AllMapped>, turn: Turn, newer: u32) -> u32
    requires goes { GoesOn cpu.old.slots }
    requires newer { cpu.old.slots.newer ≡ newer }
    ensures goes { GoesOn cpu.new.slots }
    ensures newer { cpu.new.slots.newer ≡ result }
{
    match turn {
        Turn::On => newer,
        Turn::Save => {
            assert!(rt; newer == 0);
            save(cpu);
            0
        }
        Turn::To(index) => {
            assert!(rt; index < cpu.checkpoints());
            cpu.restore(index);
            index
        }
        Turn::Back(index) => {
            assert!(rt; index < cpu.checkpoints());
            cpu.restore(index);
            drop_newer(cpu, index);
            0
        }
    }
}

// The items taken at each checkpoint that stands, the newest first.
fn items_taken(alloc: Global, cpu: &Cpu<AllMapped>) -> Result<Vec<u64>, AllocError> {
    let mut taken = Vec::new(alloc);
    for index in 0..cpu.checkpoints() {
        taken.push(cpu.taken_at(index))?;
    }
    Ok(taken)
}

// Plays a row, and compares.
fn play_row<L: Ledger>(
    rt: &impl Abort,
    alloc: Global,
    cpu: &mut Cpu<AllMapped>,
    env: Env,
    row: Row<'_>,
    newer: u32,
    steps: &mut Steps<L>,
) -> Result<u32, Fail>
    requires goes { GoesOn cpu.old.slots }
    requires newer { cpu.old.slots.newer ≡ newer }
    ensures goes { GoesOn cpu.new.slots }
    ensures newer { IfOk result (λ newer. cpu.new.slots.newer ≡ newer) }
{
    let (turn, stand, words, wanted) = row;
    let newer = do_turn(rt, cpu, turn, newer);
    assert_eq!(rt; items_taken(alloc, cpu)?.as_slice(), stand);
    let seen = run_on(rt, alloc, cpu, env, words, steps)?;
    assert_eq!(rt; seen.as_str(), wanted);
    Ok(newer)
}

// Plays rows one after the other.
fn play_rows<L: Ledger>(
    rt: &impl Abort,
    alloc: Global,
    cpu: &mut Cpu<AllMapped>,
    env: Env,
    rows: &[Row<'_>],
    steps: &mut Steps<L>,
) -> Result<(), Fail>
    requires goes { GoesOn cpu.old.slots }
    requires newer { cpu.old.slots.newer ≡ 0 }
{
    let mut newer = 0;
    for row in rows {
        newer = play_row(rt, alloc, cpu, env, *row, newer, steps)?;
    }
    Ok(())
}

// Plays a table to a guest.
fn play<L: Ledger>(
    rt: &impl Abort,
    alloc: Global,
    image: &Image,
    env: Env,
    table: Table<'_>,
    blank: Blank,
) -> Result<(), Fail>
    requires name { blank.name ≡ L.name }
    requires parts { blank.parts ≡ L.parts }
    requires some { 0 < blank.parts }
{
    let (most, more, rows) = table;
    let pages = image.window / 4096;
    assert!(rt; 0 < most && most <= 16 && more <= pages);
    let mut steps = Steps::<L>::start(blank);
    let mut cpu = Cpu::make(alloc, image, most, 2 * pages + more, AllMapped)?;
    play_rows(rt, alloc, &mut cpu, env, rows, &mut steps)
}

#[test]
fn each_environment_answers_a_guest(rt: HostRuntime) -> Result<(), Fail> {
    let image = read_image(rt.alloc(), &FILE, 4 << 20)?;
    for (env, wanted) in ANSWERS {
        let row = (Turn::On, [].as_slice(), [].as_slice(), wanted);
        play::<Brand>(&rt, rt.alloc(), &image, env, (2, 0, &[row]), Blank::new(1))?;
    }
    Ok(())
}

#[test]
fn a_restored_guest_does_the_same_again(rt: HostRuntime) -> Result<(), Fail> {
    let image = read_image(rt.alloc(), &STORES, 1 << 20)?;
    for table in [
        (2, 256, RESTORED.as_slice()),
        (16, 3, FITTING.as_slice()),
        (16, 2, CROWDED.as_slice()),
    ] {
        play::<Brand>(&rt, rt.alloc(), &image, Env::Plain, table, Blank::new(1))?;
    }
    Ok(())
}
