// Stores of a few pages, call by call, with values worked out by hand.
use cow_pages::PageStore;
use std::process::Abort;
use std::test::Fail;

// A call of a store, or a look at it.
#[derive(Clone, Copy)]
enum Call {
    Byte(u32, u8),
    Half(u32, u16),
    Word(u32, u32),
    // Address, how many bytes, and the first; each is one higher than the one before.
    Write(u32, usize, u8),
    Zero(u32, u32),
    Save(u32),
    SaveOver(u32),
    Release(u32),
    Restore(u32),
    ByteIs(u32, u8),
    HalfIs(u32, u16),
    WordIs(u32, u32),
    // As in `Write`.
    RunIs(u32, usize, u8),
    Saved(u32, bool),
}

// The call, and then how many frames are used and held.
type Row = (Call, u32, u32);

// Two pages, two slots, four frames.
#[rattlefmt::skip]
static SMALL: [Row; 34] = [
    (Call::Saved(0, false), 2, 0),
    (Call::Save(0), 2, 2),
    (Call::Saved(0, true), 2, 2),
    (Call::Saved(1, false), 2, 2),
    (Call::Saved(7, false), 2, 2),
    (Call::Byte(5, 77), 3, 2), // copies the first page
    (Call::Byte(6, 78), 3, 2),
    (Call::ByteIs(5, 77), 3, 2),
    (Call::Byte(4100, 79), 4, 2), // copies the second
    (Call::ByteIs(4100, 79), 4, 2),
    (Call::Restore(0), 2, 2),
    (Call::ByteIs(5, 0), 2, 2),
    (Call::ByteIs(6, 0), 2, 2),
    (Call::ByteIs(4100, 0), 2, 2),
    (Call::Release(0), 2, 0),
    (Call::Half(4094, 0xa1b2), 2, 0), // the last two bytes of the first page
    (Call::ByteIs(4094, 0xb2), 2, 0),
    (Call::ByteIs(4095, 0xa1), 2, 0),
    (Call::ByteIs(4096, 0), 2, 0),
    (Call::HalfIs(4094, 0xa1b2), 2, 0),
    (Call::Word(8188, 0x8765_4321), 2, 0), // the last four of the second
    (Call::WordIs(8188, 0x8765_4321), 2, 0),
    (Call::HalfIs(8190, 0x8765), 2, 0),
    (Call::Word(1, 0x0102_0304), 2, 0),
    (Call::WordIs(0, 0x0203_0400), 2, 0),
    (Call::Save(1), 2, 2),
    (Call::Word(0, 0), 3, 2),
    (Call::Half(4094, 7), 3, 2),
    (Call::Restore(1), 2, 2),
    (Call::WordIs(1, 0x0102_0304), 2, 2),
    (Call::HalfIs(4094, 0xa1b2), 2, 2),
    (Call::Zero(8189, 2), 3, 2),
    (Call::WordIs(8188, 0x8700_0021), 3, 2),
    (Call::Release(1), 2, 0), // the second page's old frame is free
];

// Four pages, two slots, twelve frames.
#[rattlefmt::skip]
static RUNS: [Row; 26] = [
    (Call::Save(0), 4, 4),
    (Call::Byte(4096, 9), 5, 4), // the second page is the live one's own
    (Call::Save(1), 5, 5),
    (Call::Release(0), 4, 4), // gives back its second page, which the second slot hasn't
    (Call::Byte(8192, 9), 5, 4),
    (Call::Write(4000, 4200, 1), 7, 4), // on three pages, of which the third is its own already
    (Call::RunIs(4000, 4200, 1), 7, 4),
    (Call::ByteIs(3999, 0), 7, 4),
    (Call::ByteIs(4095, 96), 7, 4),
    (Call::ByteIs(4096, 97), 7, 4),
    (Call::ByteIs(8192, 97), 7, 4), // byte 4192, which is 96 more than 16 times 256
    (Call::ByteIs(8200, 0), 7, 4),
    (Call::Zero(4095, 2), 7, 4),
    (Call::WordIs(4092, 0x005f_5e5d), 7, 4),
    (Call::WordIs(4096, 0x6463_6200), 7, 4),
    (Call::Write(0, 0, 1), 7, 4),
    (Call::Zero(16384, 0), 7, 4),
    (Call::Save(0), 7, 7),
    (Call::Restore(1), 7, 7),
    (Call::ByteIs(4096, 9), 7, 7),
    (Call::ByteIs(8192, 0), 7, 7),
    (Call::SaveOver(0), 4, 4), // both slots have all frames
    (Call::Byte(0, 1), 5, 4),
    (Call::SaveOver(1), 5, 5),
    (Call::Release(0), 4, 4), // gives back the old frame of the first page
    (Call::ByteIs(0, 1), 4, 4),
];

// Makes a call, and tells whether it may be made; or looks, and tells whether it is so.
fn is_answered(store: &mut PageStore, call: Call) -> bool {
    let bytes = 4096 * store.pages();
    match call {
        Call::Byte(at, byte) => {
            if at >= bytes {
                return false;
            }
            store.put_byte(at, byte);
        }
        Call::Half(at, value) => {
            if at >= bytes || at % 4096 >= 4095 {
                return false;
            }
            store.put_half(at, value);
        }
        Call::Word(at, value) => {
            if at >= bytes || at % 4096 >= 4093 {
                return false;
            }
            store.put_word(at, value);
        }
        Call::Zero(at, count) => {
            if at > bytes || count > bytes - at {
                return false;
            }
            store.zero_run(at, count);
        }
        Call::Write(at, count, first) => return writes(store, at, count, first),
        Call::Save(slot) => return saves(store, slot),
        Call::SaveOver(slot) => return saves_over(store, slot),
        Call::Release(slot) => {
            if !store.is_saved(slot) {
                return false;
            }
            store.release(slot);
        }
        Call::Restore(slot) => {
            if !store.is_saved(slot) {
                return false;
            }
            store.restore(slot);
        }
        _ => return finds(store, call),
    }
    true
}

// Saves in a slot that is empty, where there is room.
fn saves(store: &mut PageStore, slot: u32) -> bool {
    let has_room = store.used() + store.pages() <= store.frames();
    let slots = store.slots();
    if slot >= slots || !has_room || store.is_saved(slot) {
        return false;
    }
    store.save(slot);
    true
}

// Saves in a slot that isn't empty, where there is room.
fn saves_over(store: &mut PageStore, slot: u32) -> bool {
    let has_room = store.used() + store.pages() <= store.frames();
    if !has_room || !store.is_saved(slot) {
        return false;
    }
    store.save_over(slot);
    true
}

// Whether what a look finds is so.
fn finds(store: &PageStore, call: Call) -> bool {
    let bytes = 4096 * store.pages();
    match call {
        Call::ByteIs(at, byte) => at < bytes && store.byte_at(at) == byte,
        Call::HalfIs(at, value) => at < bytes && at % 4096 < 4095 && store.half_at(at) == value,
        Call::WordIs(at, value) => at < bytes && at % 4096 < 4093 && store.word_at(at) == value,
        Call::RunIs(at, count, first) => finds_run(store, at, count, first),
        Call::Saved(slot, saved) => store.is_saved(slot) == saved,
        _ => false,
    }
}

// Bytes, each one higher than the one before.
fn bytes_from(first: u8) -> [u8; 4200] {
    let mut bytes = [0; 4200];
    let mut byte = first;
    for place in bytes.iter_mut() {
        *place = byte;
        byte = byte.wrapping_add(1);
    }
    bytes
}

// Writes so many of them, where they have room.
fn writes(store: &mut PageStore, at: u32, count: usize, first: u8) -> bool {
    let bytes = bytes_from(first);
    if count > bytes.len() || at as usize + count > 4096 * store.pages() as usize {
        return false;
    }
    store.write_run(at, &bytes[..count]);
    true
}

// Whether so many of them stand there.
fn finds_run(store: &PageStore, at: u32, count: usize, first: u8) -> bool {
    let wanted = bytes_from(first);
    let mut bytes = [0; 4200];
    if count > bytes.len() || at as usize + count > 4096 * store.pages() as usize {
        return false;
    }
    store.read_run(at, &mut bytes[..count]);
    bytes[..count] == wanted[..count]
}

// Whether a row is answered, and so many frames are used and held behind it.
fn is_row(store: &mut PageStore, row: Row) -> bool {
    let (call, used, held) = row;
    is_answered(store, call) && store.used() == used && store.held() == held
}

fn play(rt: &impl Abort, store: &mut PageStore, rows: &[Row]) {
    for (i, row) in rows.iter().enumerate() {
        assert!(rt; is_row(store, *row), "row {i}");
    }
}

#[test]
fn rows(rt: HostRuntime) -> Result<(), Fail> {
    for (pages, frames, rows) in [(2, 4, SMALL.as_slice()), (4, 12, RUNS.as_slice())] {
        let mut store = PageStore::make(rt.alloc(), pages, 2, frames)?;
        play(&rt, &mut store, rows);
        assert_eq!(rt;
            (store.pages(), store.frames(), store.slots()),
            (pages, frames, 2)
        );
    }
    Ok(())
}
