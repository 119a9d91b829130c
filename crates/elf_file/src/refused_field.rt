// What stands in the field for which a program file is refused, for a person to read.
ghost use Rattle.std.specs.Prelude.{◌≡◌, ◌+◌, ◌*◌, ◌/◌, ◌<◌, ◌≤◌, ◌&&◌, ◌||◌, ◌==◌, length, position, IfOk, IfSome, IsSome, is_some, nat_lt, None, Some, true, map};
ghost use Rattle.std.specs.List.{All, filter};
ghost use Rattle.std.specs.Option.{option_map};
ghost use Rattle.elf_file.specs.RefusedFields.{StandsIn, field_place, placed, magic_place, type_place, table_place, header_place, HasTable, IsFirstOverlap, IsOverlapFound, IsFirstType, IsFirstMisplaced, IsFirstWrong, at_header, asks_for_linker, asks_for_thread_local, is_misplaced, begins_at, ends_behind};
ghost use Rattle.elf_file.specs.ProgramFile.{e_phoff, program_headers, is_loaded, place_of};
ghost use Rattle.elf_file.specs.Refusals.{header_refusal};
ghost use Rattle.guest_image.specs.Layout.{HasBytes, IsWindow, overlap, too_large};

use crate::fields::{half_at, word_at};
use crate::file_header::{
    E_ENTRY, E_FLAGS, E_MACHINE, E_PHENTSIZE, E_PHNUM, E_PHOFF, E_TYPE, E_VERSION, EI_CLASS,
    EI_DATA, HEADER, PROGRAM_HEADER, refusal_of_header,
};
use crate::program_header::{ProgramHeader, is_bad, is_loaded, places, refusal_of_table};
use crate::reading::headers_of;
use guest_image::{PAGE, STACK_AND_GUARD, has_overlap, window_start};
use std::alloc::{AllocError, Global};
use std::fmt;

/// A field of a program file, and the number that stands in it.
#[derive(Clone, Copy, Debug, PartialEq, Eq)]
pub struct RefusedField {
    /// Its name in the System V ABI.
    pub name: &'static str,
    /// Where it begins in the file.
    pub offset: usize,
    /// How many bytes it has: 1, 2 or 4, or 0 where the file ends.
    pub size: usize,
    /// What stands there, its lowest byte first.
    pub value: u32,
}

impl fmt::Display for RefusedField {
    fn fmt<W: fmt::Write>(&self, f: &mut fmt::Formatter<W>) -> fmt::Result {
        if self.size == 0 {
            return write!(f, "{} ends at byte {}", self.name, self.offset);
        }
        write!(f, "{} at byte {} is {}", self.name, self.offset, self.value)
    }
}

// The field of one byte at an offset.
fn byte_field(bytes: &[u8], name: &'static str, offset: usize) -> RefusedField
    requires { offset + 1 ≤ length bytes.now }
    ensures value { StandsIn bytes.now result }
    ensures place { field_place result ≡ record { offset = offset; size = 1 } }
{
    RefusedField {
        name,
        offset,
        size: 1,
        value: u32::from(bytes[offset]),
    }
}

// The field of two bytes at an offset.
fn half_field(bytes: &[u8], name: &'static str, offset: usize) -> RefusedField
    requires { offset + 2 ≤ length bytes.now }
    ensures value { StandsIn bytes.now result }
    ensures place { field_place result ≡ record { offset = offset; size = 2 } }
{
    RefusedField {
        name,
        offset,
        size: 2,
        value: u32::from(half_at(bytes, offset)),
    }
}

// The field of four bytes at an offset.
fn word_field(bytes: &[u8], name: &'static str, offset: usize) -> RefusedField
    requires { offset + 4 ≤ length bytes.now }
    ensures value { StandsIn bytes.now result }
    ensures place { field_place result ≡ record { offset = offset; size = 4 } }
{
    RefusedField {
        name,
        offset,
        size: 4,
        value: word_at(bytes, offset),
    }
}

// The first byte that isn't the magic number's.
fn field_of_magic(bytes: &[u8]) -> RefusedField
    requires { 52 ≤ length bytes.now }
    ensures value { StandsIn bytes.now result }
    ensures place { Some (field_place result) ≡ magic_place bytes.now }
{
    if bytes[0] != 0x7f {
        return byte_field(bytes, "EI_MAG0", 0);
    }
    if bytes[1] != b'E' {
        return byte_field(bytes, "EI_MAG1", 1);
    }
    if bytes[2] != b'L' {
        return byte_field(bytes, "EI_MAG2", 2);
    }
    byte_field(bytes, "EI_MAG3", 3)
}

// The file's type, or its version where the type is right.
fn field_of_type(bytes: &[u8]) -> RefusedField
    requires { 52 ≤ length bytes.now }
    ensures value { StandsIn bytes.now result }
    ensures place { Some (field_place result) ≡ type_place bytes.now }
{
    if half_at(bytes, E_TYPE) == 2 {
        word_field(bytes, "e_version", E_VERSION)
    } else {
        half_field(bytes, "e_type", E_TYPE)
    }
}

// What is wrong with the place of the program headers: their size, where they begin, or how many there are.
fn field_of_table(bytes: &[u8]) -> RefusedField
    requires { 52 ≤ length bytes.now }
    ensures value { StandsIn bytes.now result }
    ensures place { Some (field_place result) ≡ table_place bytes.now }
{
    if half_at(bytes, E_PHENTSIZE) != 32 {
        half_field(bytes, "e_phentsize", E_PHENTSIZE)
    } else if bytes.len() < word_at(bytes, E_PHOFF) as usize {
        word_field(bytes, "e_phoff", E_PHOFF)
    } else {
        half_field(bytes, "e_phnum", E_PHNUM)
    }
}

// The field of the ELF header that a refusal is for, where it is for one.
#[tactic(auto, unfolding(crate::specs::RefusedFields::header_place))]
fn field_of_header(bytes: &[u8], number: u8) -> Option<RefusedField>
    requires { 52 ≤ length bytes.now }
    ensures value { IfSome result (StandsIn bytes.now) }
    ensures place { option_map field_place result ≡ header_place bytes.now number }
{
    match number {
        2 => Some(field_of_magic(bytes)),
        3 => Some(byte_field(bytes, "EI_CLASS", EI_CLASS)),
        4 => Some(byte_field(bytes, "EI_DATA", EI_DATA)),
        5 => Some(field_of_type(bytes)),
        6 => Some(half_field(bytes, "e_machine", E_MACHINE)),
        7 => Some(word_field(bytes, "e_flags", E_FLAGS)),
        8 => Some(field_of_table(bytes)),
        13 => Some(half_field(bytes, "e_phnum", E_PHNUM)),
        14 => Some(word_field(bytes, "e_entry", E_ENTRY)),
        _ => None,
    }
}

// A field of four bytes at a place in a program header, by the header's number in the list.
fn header_field(bytes: &[u8], index: usize, name: &'static str, place: usize) -> RefusedField
    requires header { 52 ≤ length bytes.now }
    requires table { e_phoff bytes.now + 32 * index + 32 ≤ length bytes.now }
    requires inside { place + 4 ≤ 32 }
    ensures value { StandsIn bytes.now result }
    ensures place { field_place result ≡ at_header bytes.now place index }
{
    let header = word_at(bytes, E_PHOFF) as usize + PROGRAM_HEADER * index;
    word_field(bytes, name, header + place)
}

// The first program header that asks for a dynamic linker.
fn first_dynamic(headers: &[ProgramHeader]) -> Option<usize>
    ensures first { result ≡ position asks_for_linker headers.now }
    ensures below { IfSome result (λ index. index < length headers.now) }
{
    headers
        .iter()
        .position(|header| header.p_type == 2 || header.p_type == 3)
}

// The first program header of storage that each thread has.
fn first_thread_local(headers: &[ProgramHeader]) -> Option<usize>
    ensures first { result ≡ position asks_for_thread_local headers.now }
    ensures below { IfSome result (λ index. index < length headers.now) }
{
    headers.iter().position(|header| header.p_type == 7)
}

// The first program header of a segment that doesn't lie in a file of so many bytes, or not in memory.
fn first_bad(headers: &[ProgramHeader], size: usize) -> Option<usize>
    ensures first { result ≡ position (is_misplaced size) headers.now }
    ensures below { IfSome result (λ index. index < length headers.now) }
{
    headers
        .iter()
        .position(|header| is_loaded(header) && is_bad(header, size))
}

// The type of the first program header that asks for a dynamic linker.
fn field_of_dynamic(bytes: &[u8], headers: &[ProgramHeader]) -> Option<RefusedField>
    requires { HasTable bytes.now (length headers.now) }
    ensures value { IfSome result (StandsIn bytes.now) }
    ensures first { IsFirstType bytes.now headers.now asks_for_linker result }
{
    let index = first_dynamic(headers)?;
    Some(header_field(bytes, index, "p_type", 0))
}

// The type of the first program header of storage that each thread has.
fn field_of_thread_local(bytes: &[u8], headers: &[ProgramHeader]) -> Option<RefusedField>
    requires { HasTable bytes.now (length headers.now) }
    ensures value { IfSome result (StandsIn bytes.now) }
    ensures first { IsFirstType bytes.now headers.now asks_for_thread_local result }
{
    let index = first_thread_local(headers)?;
    Some(header_field(bytes, index, "p_type", 0))
}

// What is wrong with the first segment that is bad: it has more bytes in the file than in memory, they pass the file's
// end, or it passes 2^32.
fn field_of_bad_segment(bytes: &[u8], headers: &[ProgramHeader]) -> Option<RefusedField>
    requires { HasTable bytes.now (length headers.now) }
    ensures value { IfSome result (StandsIn bytes.now) }
    ensures first { IsFirstMisplaced bytes.now headers.now result }
{
    let index = first_bad(headers, bytes.len())?;
    let header = headers[index];
    let (name, place) = if header.p_memsz < header.p_filesz {
        ("p_filesz", 16)
    } else if u64::from(header.p_vaddr) + u64::from(header.p_memsz) <= 1 << 32 {
        ("p_offset", 4)
    } else {
        ("p_vaddr", 8)
    };
    Some(header_field(bytes, index, name, place))
}

// The first program header whose segment shares a byte with that of one before it, found by halves.
fn first_overlap(alloc: Global, headers: &[ProgramHeader]) -> Result<usize, AllocError>
    requires full { All HasBytes (map place_of (filter is_loaded headers.now)) }
    requires overlap { overlap (map place_of (filter is_loaded headers.now)) ≡ true }
    ensures { IfOk result (IsFirstOverlap headers.now) }
{
    let mut low = 0;
    let mut high = headers.len();
    'halves: while low + 1 < high {
        let middle = low + (high - low) / 2;
        let (front, _) = headers.split_at(middle);
        let places = places(alloc, front)?;
        if has_overlap(alloc, &places)? {
            high = middle;
        } else {
            low = middle;
        }
    }
    Ok(low)
}

// Where the first segment begins that shares a byte with one before it.
fn field_of_overlap(
    alloc: Global,
    bytes: &[u8],
    headers: &[ProgramHeader],
) -> Result<Option<RefusedField>, AllocError>
    requires table { HasTable bytes.now (length headers.now) }
    requires full { All HasBytes (map place_of (filter is_loaded headers.now)) }
    ensures value { IfOk result (λ found. IfSome found (StandsIn bytes.now)) }
    ensures first { IfOk result (IsOverlapFound bytes.now headers.now) }
{
    let places = places(alloc, headers)?;
    if !has_overlap(alloc, &places)? {
        return Ok(None);
    }
    let index = first_overlap(alloc, headers)?;
    Ok(Some(header_field(bytes, index, "p_vaddr", 8)))
}

// The first program header of a segment that begins in the page at an address.
fn first_at(headers: &[ProgramHeader], start: u32) -> Option<usize>
    ensures first { result ≡ position (begins_at start) headers.now }
    ensures below { IfSome result (λ index. index < length headers.now) }
{
    headers.iter().position(|header| is_loaded(header) && header.p_vaddr / PAGE * PAGE == start)
}

// The first program header of a segment that ends behind an address.
fn first_behind(headers: &[ProgramHeader], end: u64) -> Option<usize>
    ensures first { result ≡ position (ends_behind end) headers.now }
    ensures below { IfSome result (λ index. index < length headers.now) }
{
    headers.iter().position(|header| {
        is_loaded(header) && end < u64::from(header.p_vaddr) + u64::from(header.p_memsz)
    })
}

// Where the first segment begins whose page is the one at an address.
fn field_of_lowest(bytes: &[u8], headers: &[ProgramHeader], start: u32) -> Option<RefusedField>
    requires { HasTable bytes.now (length headers.now) }
    ensures value { IfSome result (StandsIn bytes.now) }
    ensures first { option_map field_place result ≡ option_map (at_header bytes.now 8) (position (begins_at start) headers.now) }
{
    let index = first_at(headers, start)?;
    Some(header_field(bytes, index, "p_vaddr", 8))
}

// How many bytes the first segment has that ends behind an address.
fn field_of_highest(bytes: &[u8], headers: &[ProgramHeader], end: u64) -> Option<RefusedField>
    requires { HasTable bytes.now (length headers.now) }
    ensures value { IfSome result (StandsIn bytes.now) }
    ensures first { option_map field_place result ≡ option_map (at_header bytes.now 20) (position (ends_behind end) headers.now) }
{
    let index = first_behind(headers, end)?;
    Some(header_field(bytes, index, "p_memsz", 20))
}

// What doesn't fit a window of so many bytes: where the first of the lowest segments begins, if the window would end above
// 2^32, or how many bytes the first segment has that leaves no page for the heap.
fn field_of_window(
    alloc: Global,
    bytes: &[u8],
    headers: &[ProgramHeader],
    window: u32,
) -> Result<Option<RefusedField>, AllocError>
    requires window { IsWindow window }
    requires table { HasTable bytes.now (length headers.now) }
    ensures value { IfOk result (λ found. IfSome found (StandsIn bytes.now)) }
    ensures found { IfOk result (λ found. is_some found ≡ too_large window (map place_of (filter is_loaded headers.now))) }
{
    let start = window_start(&places(alloc, headers)?);
    let top = u64::from(start) + u64::from(window);
    if top >= 1 << 32 {
        return Ok(field_of_lowest(bytes, headers, start));
    }
    let end = top - u64::from(STACK_AND_GUARD) - u64::from(PAGE);
    Ok(field_of_highest(bytes, headers, end))
}

// Where a file ends that is too short for its header.
#[tactic(auto, unfolding(crate::specs::ProgramFile::number_at))]
fn end_of_file(bytes: &[u8]) -> RefusedField
    ensures value { StandsIn bytes.now result }
    ensures place { field_place result ≡ record { offset = length bytes.now; size = 0 } }
{
    RefusedField {
        name: "the file",
        offset: bytes.len(),
        size: 0,
        value: 0,
    }
}

// The field of a program header that a refusal is for, where it is for one.
fn field_of_segments(
    alloc: Global,
    bytes: &[u8],
    headers: &[ProgramHeader],
    number: u8,
    window: u32,
) -> Result<Option<RefusedField>, AllocError>
    requires table { HasTable bytes.now (length headers.now) }
    requires window { IsWindow window }
    ensures value { IfOk result (λ found. IfSome found (StandsIn bytes.now)) }
    ensures first { IfOk result (IsFirstWrong bytes.now headers.now window number) }
{
    match number {
        9 => Ok(field_of_dynamic(bytes, headers)),
        10 => Ok(field_of_thread_local(bytes, headers)),
        11 => Ok(field_of_bad_segment(bytes, headers)),
        12 if refusal_of_table(headers, bytes.len()).is_none() => {
            field_of_overlap(alloc, bytes, headers)
        }
        15 => field_of_window(alloc, bytes, headers, window),
        _ => Ok(None),
    }
}

/// What stands in the field that the refusal of a file is for, by the refusal's number: of the ELF header, or of the first
/// program header that is wrong. For a file that is too short it says where the file ends. Asked for another number than
/// the file's, it answers None or a field that isn't wrong.
pub fn field_of_refusal(
    alloc: Global,
    bytes: &[u8],
    number: u8,
    window: u32,
) -> Result<Option<RefusedField>, AllocError>
    requires { IsWindow window }
    ensures value { IfOk result (λ found. IfSome found (StandsIn bytes.now)) }
    ensures short { length bytes.now < 52 → number ≡ 1 → IfOk result (λ found. option_map field_place found ≡ placed (length bytes.now) 0) }
    ensures header { 52 ≤ length bytes.now → IsSome (header_place bytes.now number) → IfOk result (λ found. option_map field_place found ≡ header_place bytes.now number) }
    ensures first { header_refusal bytes.now ≡ None → IfOk result (IsFirstWrong bytes.now (program_headers bytes.now) window number) }
{
    if bytes.len() < HEADER {
        return Ok((number == 1).then(|| end_of_file(bytes)));
    }
    let field = field_of_header(bytes, number);
    if field.is_some() {
        return Ok(field);
    }
    if refusal_of_header(bytes).is_some() {
        return Ok(None);
    }
    let headers = headers_of(alloc, bytes)?;
    field_of_segments(alloc, bytes, &headers, number, window)
}
