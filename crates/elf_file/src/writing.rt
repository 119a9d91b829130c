// The program file of an image: the ELF header, a program header for each segment, and the segments' bytes.
ghost use Rattle.std.specs.Prelude.{◌≡◌, ◌++◌, ◌+◌, ◌*◌, ◌^◌, ◌<◌, length, IfOk, OnOk};
ghost use Rattle.std.specs.List.{All};
ghost use Rattle.rv_isa.specs.Words.{little_bytes};
ghost use Rattle.elf_file.specs.Written.{file_bytes, file_header, program_header, program_headers, written};
ghost use Rattle.guest_image.specs.Layout.{HasWordFlags};
ghost use Rattle.elf_file.specs.Refusals.{IsImage};

use crate::file_header::{HEADER, PROGRAM_HEADER};
use guest_image::{Image, Segment};
use std::alloc::{AllocError, Global};

// How every file begins: the magic number, 32 bits, the lowest byte first, version 1.
const E_IDENT: [u8; 16] = [0x7f, b'E', b'L', b'F', 1, 1, 1, 0, 0, 0, 0, 0, 0, 0, 0, 0];

// Adds a number of two bytes to a file, the lowest first.
fn write_half(file: &mut Vec<u8>, n: u16) -> Result<(), AllocError>
    ensures { OnOk result (file.new.items ≡ file.old.items ++ little_bytes 2 n) }
{
    file.extend_from_slice(&n.to_le_bytes())
}

// Adds a number of four bytes to a file, the lowest first.
fn write_word(file: &mut Vec<u8>, n: u32) -> Result<(), AllocError>
    ensures { OnOk result (file.new.items ≡ file.old.items ++ little_bytes 4 n) }
{
    file.extend_from_slice(&n.to_le_bytes())
}

// The ELF header of an image's file. It has no sections.
fn header_of_file(alloc: Global, image: &Image) -> Result<Vec<u8>, AllocError>
    ensures { IfOk result (λ v. v.items ≡ file_header image.now) }
{
    let mut file = Vec::new(alloc);
    file.extend_from_slice(&E_IDENT)?;
    write_half(&mut file, 2)?; // e_type: ET_EXEC
    write_half(&mut file, 243)?; // e_machine: EM_RISCV
    write_word(&mut file, 1)?; // e_version: EV_CURRENT
    write_word(&mut file, image.entry)?; // e_entry
    write_word(&mut file, 52)?; // e_phoff
    write_word(&mut file, 0)?; // e_shoff
    write_word(&mut file, 0)?; // e_flags
    write_half(&mut file, 52)?; // e_ehsize
    write_half(&mut file, 32)?; // e_phentsize
    write_half(&mut file, image.segments.as_slice().len() as u16)?; // e_phnum
    write_half(&mut file, 0)?; // e_shentsize
    write_half(&mut file, 0)?; // e_shnum
    write_half(&mut file, 0)?; // e_shstrndx
    Ok(file)
}

// Adds the program header of a segment whose bytes stand at an offset of the file.
fn write_program_header(
    file: &mut Vec<u8>,
    offset: u32,
    segment: &Segment,
) -> Result<(), AllocError>
    requires { length segment.now.filled < 2 ^ 32 }
    ensures value { OnOk result (file.new.items ≡ file.old.items ++ program_header offset segment.now) }
    ensures flags { OnOk result (HasWordFlags segment.now) }
{
    write_word(file, 1)?; // p_type: PT_LOAD
    write_word(file, offset)?; // p_offset
    write_word(file, segment.vaddr)?; // p_vaddr
    write_word(file, segment.vaddr)?; // p_paddr
    write_word(file, segment.filled.as_slice().len() as u32)?; // p_filesz
    write_word(file, segment.memsz)?; // p_memsz
    write_word(file, segment.flags)?; // p_flags
    write_word(file, 1)?; // p_align
    Ok(())
}

// Adds the program headers of segments, whose bytes stand behind them in the file one after another.
fn write_program_headers(file: &mut Vec<u8>, segments: &[Segment]) -> Result<(), AllocError>
    requires few { length segments.now < 2 ^ 16 }
    requires bytes { length (file_bytes segments.now) < 2 ^ 31 }
    ensures value { OnOk result (file.new.items ≡ file.old.items ++ program_headers (52 + 32 * length segments.now) segments.now) }
    ensures flags { OnOk result (All HasWordFlags segments.now) }
{
    let mut offset = HEADER + PROGRAM_HEADER * segments.len();
    'segments: for segment in segments {
        write_program_header(file, offset as u32, segment)?;
        offset += segment.filled.as_slice().len();
    }
    Ok(())
}

// Adds the bytes of segments, one after another.
fn write_segments(file: &mut Vec<u8>, segments: &[Segment]) -> Result<(), AllocError>
    ensures { OnOk result (file.new.items ≡ file.old.items ++ file_bytes segments.now) }
{
    'segments: for segment in segments {
        file.extend_from_slice(segment.filled.as_slice())?;
    }
    Ok(())
}

/// The bytes of an executable file of an image (System V ABI, "ELF Header" and "Program Header"): the ELF header, a
/// program header for each segment, and the segments' bytes without gaps.
pub fn write_image(alloc: Global, image: &Image) -> Result<Vec<u8>, AllocError>
    ensures bytes { IfOk result (λ v. v.items ≡ written image.now) }
    ensures round_trip { IfOk result (λ v. IsImage v.items image.now.window image.now) }
{
    let segments = image.segments.as_slice();
    let mut file = header_of_file(alloc, image)?;
    write_program_headers(&mut file, segments)?;
    write_segments(&mut file, segments)?;
    Ok(file)
}
