// The program headers: their list, the refusals 9 to 11, and the segments that they describe.
ghost use Rattle.std.specs.Prelude.{◌≡◌, ◌+◌, ◌*◌, ◌^◌, ◌<◌, ◌≤◌, length, map, IfOk};
ghost use Rattle.std.specs.List.{filter};
ghost use Rattle.elf_file.specs.ProgramFile.{header_at, headers_from, is_loaded, place_of, segment_of};
ghost use Rattle.elf_file.specs.Refusals.{dynamic, thread_local, bad_segment, is_bad, table_refusal};

use crate::fields::word_at;
use crate::file_header::PROGRAM_HEADER;
use guest_image::Segment;
use rx_base::Bytes;
use std::alloc::{AllocError, Global};

/// A program header, as far as a loader reads it (System V ABI, "Program Header").
#[derive(Clone, Copy, Debug, PartialEq, Eq)]
pub struct ProgramHeader {
    pub p_type: u32,
    pub p_offset: u32,
    pub p_vaddr: u32,
    pub p_filesz: u32,
    pub p_memsz: u32,
    pub p_flags: u32,
}

// The program header at an offset.
#[tactic(auto, unfolding(crate::specs::ProgramFile::header_at))]
fn read_header(bytes: &[u8], offset: usize) -> ProgramHeader
    requires { offset + 32 ≤ length bytes.now }
    ensures { result ≡ header_at offset bytes.now }
{
    ProgramHeader {
        p_type: word_at(bytes, offset),
        p_offset: word_at(bytes, offset + 4),
        p_vaddr: word_at(bytes, offset + 8),
        p_filesz: word_at(bytes, offset + 16),
        p_memsz: word_at(bytes, offset + 20),
        p_flags: word_at(bytes, offset + 24),
    }
}

/// So many program headers from an offset on.
pub fn read_headers(
    alloc: Global,
    bytes: &[u8],
    offset: u32,
    count: u16,
) -> Result<Vec<ProgramHeader>, AllocError>
    requires { 0 < count → offset + 32 * count ≤ length bytes.now }
    ensures value { IfOk result (λ v. v.items ≡ headers_from offset count bytes.now) }
    ensures few { IfOk result (λ v. length v.items < 2 ^ 16) }
{
    let mut headers = Vec::new(alloc);
    'headers: for i in 0..usize::from(count) {
        headers.push(read_header(bytes, offset as usize + PROGRAM_HEADER * i))?;
    }
    Ok(headers)
}

/// Whether a program header is that of a segment which has a byte, in the file or in memory.
pub fn is_loaded(header: &ProgramHeader) -> bool
    ensures { result ≡ is_loaded header.now }
{
    header.p_type == 1 && !(header.p_filesz == 0 && header.p_memsz == 0)
}

/// Whether a segment doesn't lie in a file of so many bytes, or not in memory.
pub fn is_bad(header: &ProgramHeader, size: usize) -> bool
    ensures { result ≡ is_bad size header.now }
{
    let file_end = header.p_offset as usize + header.p_filesz as usize;
    let end = u64::from(header.p_vaddr) + u64::from(header.p_memsz);
    header.p_memsz < header.p_filesz || (0 < header.p_filesz && size < file_end) || 1 << 32 < end
}

// Whether a program header asks for a dynamic linker.
#[tactic(auto, unfolding(crate::specs::Refusals::dynamic))]
fn is_dynamic(headers: &[ProgramHeader]) -> bool
    ensures { result ≡ dynamic headers.now }
{
    headers
        .iter()
        .any(|header| header.p_type == 2 || header.p_type == 3)
}

// Whether a program header asks for storage that each thread has.
#[tactic(auto, unfolding(crate::specs::Refusals::thread_local))]
fn is_thread_local(headers: &[ProgramHeader]) -> bool
    ensures { result ≡ thread_local headers.now }
{
    headers.iter().any(|header| header.p_type == 7)
}

// Whether a segment of a file of so many bytes is bad.
#[tactic(auto, unfolding(crate::specs::Refusals::bad_segment))]
fn has_bad_segment(headers: &[ProgramHeader], size: usize) -> bool
    ensures { result ≡ bad_segment size headers.now }
{
    headers
        .iter()
        .any(|header| is_loaded(header) && is_bad(header, size))
}

/// The first refusal of the program headers of a file of so many bytes, by its number.
#[tactic(auto, unfolding(crate::specs::Refusals::table_refusal))]
pub fn refusal_of_table(headers: &[ProgramHeader], size: usize) -> Option<u8>
    ensures { result ≡ table_refusal size headers.now }
{
    if is_dynamic(headers) {
        return Some(9);
    }
    if is_thread_local(headers) {
        return Some(10);
    }
    if has_bad_segment(headers, size) {
        return Some(11);
    }
    None
}

// The segment of a program header in memory, without its bytes in the file.
fn place(alloc: Global, header: &ProgramHeader) -> Segment
    ensures { result ≡ place_of header.now }
{
    Segment {
        vaddr: header.p_vaddr,
        flags: header.p_flags,
        memsz: header.p_memsz,
        filled: Bytes::from_vec(Vec::new(alloc)),
    }
}

// The segment of a program header, with its bytes in the file.
fn segment(alloc: Global, bytes: &[u8], header: &ProgramHeader) -> Result<Segment, AllocError>
    ensures { IfOk result (λ segment. segment ≡ segment_of bytes.now header.now) }
{
    let (_, rest) = bytes.split_at(bytes.len().min(header.p_offset as usize));
    let (filled, _) = rest.split_at(rest.len().min(header.p_filesz as usize));
    let filled = filled.to_vec(alloc)?;
    Ok(Segment {
        vaddr: header.p_vaddr,
        flags: header.p_flags,
        memsz: header.p_memsz,
        filled: Bytes::from_vec(filled),
    })
}

/// The segments in memory, in the file's order, without their bytes in the file.
pub fn places(alloc: Global, headers: &[ProgramHeader]) -> Result<Vec<Segment>, AllocError>
    ensures { IfOk result (λ v. v.items ≡ map place_of (filter is_loaded headers.now)) }
{
    let mut places = Vec::new(alloc);
    'headers: for header in headers {
        if is_loaded(header) {
            places.push(place(alloc, header))?;
        }
    }
    Ok(places)
}

/// The segments, in the file's order.
pub fn segments(
    alloc: Global,
    bytes: &[u8],
    headers: &[ProgramHeader],
) -> Result<Vec<Segment>, AllocError>
    ensures { IfOk result (λ v. v.items ≡ map (segment_of bytes.now) (filter is_loaded headers.now)) }
{
    let mut segments = Vec::new(alloc);
    'headers: for header in headers {
        if is_loaded(header) {
            segments.push(segment(alloc, bytes, header)?)?;
        }
    }
    Ok(segments)
}
