use elf_file::{ElfRefusal, field_of_refusal, read_image, write_image};
use guest_image::{Image, Segment};
use std::alloc::{AllocError, Global};
use std::test::Fail;

// The window of 4 MiB, which programs have unless their user says otherwise.
const WINDOW: u32 = 4 << 20;

// An executable of one segment at 0x10000 that holds the words `addi a7, x0, 1`, `addi a1, x0, 0`, `addi a0, x0, 0` and
// `ecall`, byte by byte from the System V ABI's "ELF Header" and "Program Header".
#[rattlefmt::skip]
static THREE: [u8; 100] = [
    0x7f, 0x45, 0x4c, 0x46, 1, 1, 1, 0, 0, 0, 0, 0, 0, 0, 0, 0, // e_ident
    2, 0, 243, 0, 1, 0, 0, 0, // e_type, e_machine, e_version
    0, 0, 1, 0, 52, 0, 0, 0, 0, 0, 0, 0, 0, 0, 0, 0, // e_entry, e_phoff, e_shoff, e_flags
    52, 0, 32, 0, 1, 0, 0, 0, 0, 0, 0, 0, // e_ehsize, e_phentsize, e_phnum, and no sections
    1, 0, 0, 0, 84, 0, 0, 0, 0, 0, 1, 0, 0, 0, 1, 0, // PT_LOAD, p_offset, p_vaddr, p_paddr
    16, 0, 0, 0, 16, 0, 0, 0, 5, 0, 0, 0, 1, 0, 0, 0, // p_filesz, p_memsz, p_flags, p_align
    0x93, 0x08, 0x10, 0x00, 0x93, 0x05, 0x00, 0x00, 0x13, 0x05, 0x00, 0x00, 0x73, 0x00, 0x00, 0x00,
];

// An executable of two segments: these words, and 8 bytes at 0x20000, of which the file has four. The second segment
// stands first.
#[rattlefmt::skip]
static TWO: [u8; 136] = [
    0x7f, 0x45, 0x4c, 0x46, 1, 1, 1, 0, 0, 0, 0, 0, 0, 0, 0, 0,
    2, 0, 243, 0, 1, 0, 0, 0,
    0, 0, 1, 0, 52, 0, 0, 0, 0, 0, 0, 0, 0, 0, 0, 0,
    52, 0, 32, 0, 2, 0, 0, 0, 0, 0, 0, 0,
    1, 0, 0, 0, 116, 0, 0, 0, 0, 0, 2, 0, 0, 0, 2, 0,
    4, 0, 0, 0, 8, 0, 0, 0, 6, 0, 0, 0, 1, 0, 0, 0,
    1, 0, 0, 0, 120, 0, 0, 0, 0, 0, 1, 0, 0, 0, 1, 0,
    16, 0, 0, 0, 16, 0, 0, 0, 5, 0, 0, 0, 1, 0, 0, 0,
    1, 2, 3, 4,
    0x93, 0x08, 0x10, 0x00, 0x93, 0x05, 0x00, 0x00, 0x13, 0x05, 0x00, 0x00, 0x73, 0x00, 0x00, 0x00,
];

// The number of the refusal of a file, if it is refused.
fn refusal_of(alloc: Global, file: &[u8]) -> Option<u8> {
    match read_image(alloc, file, WINDOW) {
        Err(ElfRefusal::Refused(number)) => Some(number),
        Ok(_) | Err(ElfRefusal::Memory) => None,
    }
}

// That executable with other bytes at some places.
fn edited(alloc: Global, edits: &[(usize, u8)]) -> Result<Vec<u8>, AllocError> {
    let mut file = THREE.to_vec(alloc)?;
    for (at, byte) in edits {
        if let Some(place) = file.get_mut(*at) {
            *place = *byte;
        }
    }
    Ok(file)
}

// Two equal program headers, and the text behind them.
fn doubled(alloc: Global) -> Result<Vec<u8>, AllocError> {
    let mut file = edited(alloc, &[(44, 2), (56, 116)])?;
    let (headers, text) = THREE.split_at(84);
    let (_, header) = headers.split_at(52);
    file.truncate(84);
    file.extend_from_slice(header)?;
    file.extend_from_slice(text)?;
    if let Some(place) = file.get_mut(88) {
        *place = 116;
    }
    Ok(file)
}

// Where a program begins, the lowest address that it has, and where its heap begins.
fn places_of(image: &Image) -> (u32, u32, u32) {
    (image.entry, image.base(), image.heap_start())
}

// Adds the eight words of a program header.
fn add_words(file: &mut Vec<u8>, words: [u32; 8]) -> Result<(), AllocError> {
    for word in words {
        file.extend_from_slice(&word.to_le_bytes())?;
    }
    Ok(())
}

// What is written of a file that was read.
fn written(alloc: Global, file: &[u8]) -> Result<Vec<u8>, Fail> {
    Ok(write_image(alloc, &read_image(alloc, file, WINDOW)?)?)
}

#[test]
fn what_is_written_is_the_file(rt: HostRuntime) -> Result<(), Fail> {
    let image = read_image(rt.alloc(), &THREE, WINDOW)?;
    assert_eq!(rt; places_of(&image), (0x10000, 0x10000, 0x11000));
    assert_eq!(rt; (image.heap_end(), image.stack_top()), (0x3ff000, 0x410000));
    for file in [THREE.as_slice(), TWO.as_slice()] {
        assert_eq!(rt; written(rt.alloc(), file)?.as_slice(), file);
    }
    Ok(())
}

// The words of program headers that a linker writes: two segments between headers that aren't loaded.
static HEADERS: [[u32; 8]; 4] = [
    [0x7000_0003, 0, 0, 0, 0, 0, 4, 1],
    [1, 0, 0x10000, 0x10000, 0xc4, 0xc4, 5, 0x1000],
    [1, 0xc4, 0x110c4, 0x110c4, 4, 8, 6, 0x1000],
    [0x6474_e551, 0, 0, 0, 0, 0, 6, 16],
];

// A file with these headers: 0xc4 bytes at 0x10000, whose last 16 are the executable's words, and 8 bytes at 0x110c4, of which it has four.
fn linked(alloc: Global) -> Result<Vec<u8>, AllocError> {
    let mut file = edited(alloc, &[(24, 0xb4), (44, 4)])?;
    file.truncate(52);
    for header in HEADERS {
        add_words(&mut file, header)?;
    }
    let (_, words) = THREE.split_at(84);
    file.extend_from_slice(words)?;
    file.extend_from_slice(&[1, 2, 3, 4])?;
    Ok(file)
}

// Whether the second of two segments has these bytes in the file.
fn has_second(segments: &[Segment], filled: &[u8]) -> bool {
    match segments {
        [_, second] => second.filled.as_slice() == filled,
        _ => false,
    }
}

#[test]
fn a_linked_file_is_accepted(rt: HostRuntime) -> Result<(), Fail> {
    let image = read_image(rt.alloc(), &linked(rt.alloc())?, WINDOW)?;
    assert_eq!(rt; places_of(&image), (0x100b4, 0x10000, 0x12000));
    assert!(rt; has_second(image.segments.as_slice(), &[1, 2, 3, 4]));
    Ok(())
}

// What a compiler makes of
//
//     int total = 5;
//     int seen[4];
//
//     void _start(void) {
//         for (int i = 0; i < 4; i++) seen[i] = total * i;
//         register int code __asm__("a0") = seen[3];
//         register int call __asm__("a7") = 5;
//         __asm__ volatile("ecall" : : "r"(code), "r"(call));
//         for (;;) {}
//     }
//
// by riscv64-unknown-elf-gcc -march=rv32im -mabi=ilp32 -nostdlib -static -Os -s -o three three.c (Debian's 12.2.0):
// what `readelf -hl` prints of the same file stands in the test.
#[rattlefmt::skip]
static COMPILED: [u8; 616] = [
    127, 69, 76, 70, 1, 1, 1, 0, 0, 0, 0, 0, 0, 0, 0, 0, 2, 0, 243, 0, 1, 0, 0, 0,
    148, 0, 1, 0, 52, 0, 0, 0, 80, 1, 0, 0, 0, 0, 0, 0, 52, 0, 32, 0, 3, 0, 40, 0,
    7, 0, 6, 0, 3, 0, 0, 112, 238, 0, 0, 0, 0, 0, 0, 0, 0, 0, 0, 0, 42, 0, 0, 0,
    0, 0, 0, 0, 4, 0, 0, 0, 1, 0, 0, 0, 1, 0, 0, 0, 0, 0, 0, 0, 0, 0, 1, 0,
    0, 0, 1, 0, 196, 0, 0, 0, 196, 0, 0, 0, 5, 0, 0, 0, 0, 16, 0, 0, 1, 0, 0, 0,
    196, 0, 0, 0, 196, 16, 1, 0, 196, 16, 1, 0, 4, 0, 0, 0, 20, 0, 0, 0, 6, 0, 0, 0,
    0, 16, 0, 0, 183, 23, 1, 0, 3, 165, 71, 12, 147, 135, 65, 128, 19, 23, 21, 0, 35, 162, 167, 0,
    51, 5, 229, 0, 35, 160, 7, 0, 35, 164, 231, 0, 35, 166, 167, 0, 147, 8, 80, 0, 115, 0, 0, 0,
    111, 0, 0, 0, 5, 0, 0, 0, 71, 67, 67, 58, 32, 40, 49, 50, 46, 50, 46, 48, 45, 49, 52, 43,
    100, 101, 98, 49, 50, 117, 49, 43, 49, 49, 43, 98, 50, 41, 32, 49, 50, 46, 50, 46, 48, 0, 65, 41,
    0, 0, 0, 114, 105, 115, 99, 118, 0, 1, 31, 0, 0, 0, 4, 16, 5, 114, 118, 51, 50, 105, 50, 112,
    49, 95, 109, 50, 112, 48, 95, 122, 109, 109, 117, 108, 49, 112, 48, 0, 0, 46, 115, 104, 115, 116, 114, 116,
    97, 98, 0, 46, 116, 101, 120, 116, 0, 46, 115, 100, 97, 116, 97, 0, 46, 98, 115, 115, 0, 46, 99, 111,
    109, 109, 101, 110, 116, 0, 46, 114, 105, 115, 99, 118, 46, 97, 116, 116, 114, 105, 98, 117, 116, 101, 115, 0,
    0, 0, 0, 0, 0, 0, 0, 0, 0, 0, 0, 0, 0, 0, 0, 0, 0, 0, 0, 0, 0, 0, 0, 0,
    0, 0, 0, 0, 0, 0, 0, 0, 0, 0, 0, 0, 0, 0, 0, 0, 11, 0, 0, 0, 1, 0, 0, 0,
    6, 0, 0, 0, 148, 0, 1, 0, 148, 0, 0, 0, 48, 0, 0, 0, 0, 0, 0, 0, 0, 0, 0, 0,
    4, 0, 0, 0, 0, 0, 0, 0, 17, 0, 0, 0, 1, 0, 0, 0, 3, 0, 0, 0, 196, 16, 1, 0,
    196, 0, 0, 0, 4, 0, 0, 0, 0, 0, 0, 0, 0, 0, 0, 0, 4, 0, 0, 0, 0, 0, 0, 0,
    24, 0, 0, 0, 8, 0, 0, 0, 3, 0, 0, 0, 200, 16, 1, 0, 200, 0, 0, 0, 16, 0, 0, 0,
    0, 0, 0, 0, 0, 0, 0, 0, 4, 0, 0, 0, 0, 0, 0, 0, 29, 0, 0, 0, 1, 0, 0, 0,
    48, 0, 0, 0, 0, 0, 0, 0, 200, 0, 0, 0, 38, 0, 0, 0, 0, 0, 0, 0, 0, 0, 0, 0,
    1, 0, 0, 0, 1, 0, 0, 0, 38, 0, 0, 0, 3, 0, 0, 112, 0, 0, 0, 0, 0, 0, 0, 0,
    238, 0, 0, 0, 42, 0, 0, 0, 0, 0, 0, 0, 0, 0, 0, 0, 1, 0, 0, 0, 0, 0, 0, 0,
    1, 0, 0, 0, 3, 0, 0, 0, 0, 0, 0, 0, 0, 0, 0, 0, 24, 1, 0, 0, 56, 0, 0, 0,
    0, 0, 0, 0, 0, 0, 0, 0, 1, 0, 0, 0, 0, 0, 0, 0,
];

// The address, size and flags of two segments.
fn shape_of(segments: &[Segment]) -> Option<[(u32, u32, u32); 2]> {
    match segments {
        [text, bytes] => Some([
            (text.vaddr, text.memsz, text.flags),
            (bytes.vaddr, bytes.memsz, bytes.flags),
        ]),
        _ => None,
    }
}

#[test]
fn a_compiled_file_is_accepted(rt: HostRuntime) -> Result<(), Fail> {
    let image = read_image(rt.alloc(), &COMPILED, WINDOW)?;
    assert_eq!(rt; places_of(&image), (0x10094, 0x10000, 0x12000));
    let segments = image.segments.as_slice();
    assert_eq!(rt;
        shape_of(segments),
        Some([(0x10000, 0xc4, 5), (0x110c4, 0x14, 6)])
    );
    assert!(rt; has_second(segments, &[5, 0, 0, 0]));
    Ok(())
}

// Edits of the executable, and the refusal that they bring.
type Broken = (&'static [(usize, u8)], u8);

static BROKEN: [Broken; 15] = [
    (&[(0, 0)], 2),
    (&[(4, 2)], 3),
    (&[(5, 2)], 4),
    (&[(16, 3)], 5),
    (&[(18, 0)], 6),
    (&[(36, 1)], 7),
    (&[(42, 31)], 8),
    (&[(52, 3)], 9),
    (&[(52, 7)], 10),
    (&[(72, 15)], 11),
    (&[(44, 0)], 13),
    (&[(24, 2)], 14),
    (&[(74, 0x40)], 15),
    (&[(4, 2), (18, 0)], 3),
    (&[(56, 0xff), (57, 0xff), (58, 0xff), (59, 0xff)], 11),
];

#[test]
fn broken_files_are_refused(rt: HostRuntime) -> Result<(), Fail> {
    let alloc = rt.alloc();
    for (i, (edits, number)) in BROKEN.iter().enumerate() {
        let refusal = refusal_of(alloc, &edited(alloc, edits)?);
        assert!(rt; refusal == Some(*number), "row {i}");
    }
    let short = refusal_of(alloc, &THREE[..51]);
    let overlapping = refusal_of(alloc, &doubled(alloc)?);
    assert_eq!(rt; (short, overlapping), (Some(1), Some(12)));
    Ok(())
}

// 65535 segments of a byte each, the last one first.
fn many(alloc: Global) -> Result<Vec<u8>, AllocError> {
    let count = 65535;
    let mut file = edited(alloc, &[(24, 0), (25, 0), (26, 0), (44, 255), (45, 255)])?;
    file.truncate(52);
    for i in 0..count {
        add_words(&mut file, [1, 0, count - i, 0, 0, 1, 5, 1])?;
    }
    Ok(file)
}

// And then the last of them once more where another is.
#[test]
fn many_segments_take_little_time(rt: HostRuntime) -> Result<(), Fail> {
    let mut file = many(rt.alloc())?;
    let first = refusal_of(rt.alloc(), &file);
    if let Some(place) = file.get_mut(60) {
        *place = 0xfe;
    }
    let second = refusal_of(rt.alloc(), &file);
    assert_eq!(rt; (first, second), (Some(14), Some(12)));
    Ok(())
}

// The field that a file is refused for, as a person reads it.
fn field_shown(alloc: Global, file: &[u8], number: u8) -> Result<String, Fail> {
    let field = field_of_refusal(alloc, file, number, WINDOW)?.ok_or("no field")?;
    Ok(format!(in alloc; "{field}")?)
}

// What a person reads of a refusal, and of the field that a file is refused for.
#[test]
fn refusals_have_texts(rt: HostRuntime) -> Result<(), Fail> {
    let alloc = rt.alloc();
    let text = format!(in alloc; "{}", ElfRefusal::Refused(7))?;
    assert_eq!(rt;
        text.as_str(),
        "program file refused (7): Flags: e_flags has RVC, a float ABI or RVE"
    );
    for (file, number, want) in [
        (edited(alloc, &[(18, 62)])?, 6, "e_machine at byte 18 is 62"),
        (doubled(alloc)?, 12, "p_vaddr at byte 92 is 65536"),
        (
            edited(alloc, &[(74, 0x40)])?,
            15,
            "p_memsz at byte 72 is 4194320",
        ),
    ] {
        assert_eq!(rt; field_shown(alloc, &file, number)?.as_str(), want);
    }
    Ok(())
}
