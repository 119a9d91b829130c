// Memory of a small program, with its text and its data side by side: what may be touched, and what stands there.
ghost use Rattle.std.specs.Prelude.{◌*◌, ◌/◌};
ghost use Rattle.guest_space.specs.Access.{IsStart};

use crate::rows::{TEXT_AND_DATA, read_numbers, space_of};
use elf_file::read_image;
use guest_image::Image;
use guest_space::GuestSpace;
use std::alloc::Global;
use std::process::Abort;
use std::test::Fail;

// A row has an access, an address, a size, and what it gives, with all numbers in hexadecimal digits: the number that is fetched or
// loaded, and how many bytes may be read or written. Text is from 10000 on, data from 10008 and zeros from 1000c up to 10010, the heap
// from 11000 up to 3ff000, and the stack from 400000 up to 410000.
const READS: &str = "\
fetch 10000 4 gives 100513
fetch 10004 4 gives 73
fetch 10002 4 gives 730010
fetch 10005 4 refused
fetch 10008 4 refused
fetch fffffffe 4 refused
load 10000 4 gives 100513
load 10001 2 gives 1005
load 10006 4 gives b2a10000
load 10007 2 gives a100
load 1000b 1 gives d4
load 1000a 4 gives d4c3
load 1000d 4 refused
load 10010 1 refused
load ffff 2 refused
load 11000 4 gives 0
load 40ffff 1 gives 0
load 40ffff 2 refused
read 10000 10 gives 10
read 10000 11 refused
write 10000 10 refused
write 10008 8 gives 8
write 400000 10000 gives 10000
write 400000 10001 refused
read ffffffff 2 refused
write ffffffff 0 gives 0
";

// What comes behind a write of five bytes. What is stored is 99887766.
const STORES: &str = "\
store 10000 1 refused
store 10007 2 refused
store 10008 4 gives 4
store 1000f 1 gives 1
store 1000f 2 refused
store 3feffc 4 gives 4
store 3ff000 1 refused
load 10006 4 gives 77660000
load 1000c 4 gives 66050403
load 3feffc 4 gives 99887766
";

// What an access gives: none where it is refused.
fn given_by(space: &mut GuestSpace, access: &str, at: u32, size: u32) -> Option<u32> {
    let few = size.min(4);
    let permitted = match access {
        "fetch" => return space.fetch(at).ok(),
        "load" => return space.load(at, few).ok(),
        "store" => space.store(at, few, 0x9988_7766).is_ok(),
        _ => space.allows(at, size, access == "write"),
    };
    permitted.then_some(size)
}

// Compares a row.
fn try_row(rt: &impl Abort, alloc: Global, space: &mut GuestSpace, row: &str) -> Result<(), Fail> {
    let (access, columns) = row.split_once(' ').ok_or("no row")?;
    let mut numbers = [0; 2];
    read_numbers(columns, &mut numbers)?;
    let [at, size] = numbers;
    let seen = match given_by(space, access, at, size) {
        Some(number) => format!(in alloc; "{access} {at:x} {size:x} gives {number:x}")?,
        None => format!(in alloc; "{access} {at:x} {size:x} refused")?,
    };
    assert!(rt; seen.as_str() == row, "{row}, and not {seen}");
    Ok(())
}

// Compares the rows of a table.
fn try_rows(
    rt: &impl Abort,
    alloc: Global,
    space: &mut GuestSpace,
    rows: &str,
) -> Result<(), Fail> {
    for row in rows.lines() {
        try_row(rt, alloc, space, row)?;
    }
    Ok(())
}

// Bytes are written to the data and the heap, and read back from there and from the text.
fn try_bytes(rt: &impl Abort, alloc: Global, space: &mut GuestSpace) -> Result<(), Fail> {
    let bytes = [1, 2, 3, 4, 5];
    assert!(rt; space.allows(0x1000a, 5, true));
    space.write_bytes(0x1000a, &bytes);
    assert!(rt; space.allows(0x10007, 8, false));
    let read = space.read_bytes(alloc, 0x10007, 8)?;
    assert_eq!(rt; read.as_slice(), [0, 0xa1, 0xb2, 1, 2, 3, 4, 5].as_slice());
    Ok(())
}

fn try_memory(rt: &impl Abort, alloc: Global, space: &mut GuestSpace) -> Result<(), Fail> {
    try_rows(rt, alloc, space, READS)?;
    try_bytes(rt, alloc, space)?;
    try_rows(rt, alloc, space, STORES)
}

#[test]
fn memory_is_as_the_file_says(rt: HostRuntime) -> Result<(), Fail> {
    let mut space = space_of(rt.alloc(), &TEXT_AND_DATA)?;
    try_memory(&rt, rt.alloc(), &mut space)
}

// Where the table of code begins, and how many entries it has: one for each word of the text, and a last one. Of text that may be
// written, as the flags say, there is a table of no word.
fn code_of(alloc: Global, flags: u8) -> Result<(u32, usize), Fail> {
    let mut file = TEXT_AND_DATA;
    file[76] = flags;
    let space = space_of(alloc, &file)?;
    Ok((space.code_start(), space.code_len()))
}

#[test]
fn each_word_of_text_has_an_entry(rt: HostRuntime) -> Result<(), Fail> {
    for (flags, start, count) in [(5, 0x10000, 3), (1, 0x10000, 3), (7, 0, 1)] {
        assert!(rt; code_of(rt.alloc(), flags)? == (start, count), "{flags}");
    }
    Ok(())
}

// Whether so many frames are used, and this word stands on both of two pages.
fn shows(space: &GuestSpace, used: u32, word: u32) -> bool {
    space.used() == used && space.load(0x10ffe, 4) == Ok(word)
}

// A store across two pages copies both of what was saved, and is undone.
fn try_saving(rt: &impl Abort, image: &Image, space: &mut GuestSpace)
    requires { IsStart image.now (image.now.window / 4096) 1 (2 * (image.now.window / 4096)) space.old }
{
    let _window = image.window;
    space.save(0);
    assert!(rt; space.used() == 256 && space.held() == 256);
    assert!(rt; space.store(0x10ffe, 4, 0x4433_2211).is_ok());
    assert!(rt; shows(space, 258, 0x4433_2211));
    assert!(rt; space.is_saved(0));
    space.restore(0);
    assert!(rt; shows(space, 256, 0xd4c3_b2a1));
    assert!(rt; space.is_saved(0));
    space.release(0);
    assert!(rt; space.used() == 256 && space.held() == 0);
}

// The same file with its data at 0x10ffe, two bytes of it on each of two pages, in a window of 256 pages.
#[test]
fn what_was_saved_comes_back(rt: HostRuntime) -> Result<(), Fail> {
    let mut file = TEXT_AND_DATA;
    file[92] = 0xfe;
    file[93] = 0x0f;
    let image = read_image(rt.alloc(), &file, 1 << 20)?;
    let mut space = GuestSpace::make(rt.alloc(), &image, 1, 2 * (image.window / 4096))?;
    try_saving(&rt, &image, &mut space);
    Ok(())
}
