// The image of a program file.
ghost use Rattle.std.specs.Prelude.{◌≡◌, ◌^◌, ◌<◌, length, None, IfOk, IfErr};
ghost use Rattle.elf_file.specs.ProgramFile.{program_headers};
ghost use Rattle.elf_file.specs.Refusals.{header_refusal, IsImage, IsReason};
ghost use Rattle.guest_image.specs.Layout.{IsWindow};

use crate::ElfRefusal;
use crate::fields::{half_at, word_at};
use crate::file_header::{E_ENTRY, E_PHNUM, E_PHOFF, refusal_of_header};
use crate::program_header::{ProgramHeader, places, read_headers, refusal_of_table, segments};
use guest_image::{Image, Segments, refusal_of_layout};
use std::alloc::{AllocError, Global};

/// The program headers of a file whose ELF header isn't refused.
#[tactic(auto, unfolding(crate::specs::ProgramFile::program_headers))]
pub fn headers_of(alloc: Global, bytes: &[u8]) -> Result<Vec<ProgramHeader>, AllocError>
    requires { header_refusal bytes.now ≡ None }
    ensures value { IfOk result (λ v. v.items ≡ program_headers bytes.now) }
    ensures few { IfOk result (λ v. length v.items < 2 ^ 16) }
{
    read_headers(
        alloc,
        bytes,
        word_at(bytes, E_PHOFF),
        half_at(bytes, E_PHNUM),
    )
}

/// The image of a program file in a window of so many bytes, or the first of the fifteen refusals that holds. What is
/// allocated is bounded by the file's size and the window: the program headers lie in the file, and the segments' bytes
/// are copied once it is known that they fit the window.
pub fn read_image(alloc: Global, bytes: &[u8], window: u32) -> Result<Image, ElfRefusal>
    requires { IsWindow window }
    ensures image { IfOk result (IsImage bytes.now window) }
    ensures refused { IfErr result (IsReason bytes.now window) }
{
    if let Some(number) = refusal_of_header(bytes) {
        return Err(ElfRefusal::Refused(number));
    }
    let headers = headers_of(alloc, bytes)?;
    if let Some(number) = refusal_of_table(&headers, bytes.len()) {
        return Err(ElfRefusal::Refused(number));
    }
    let entry = word_at(bytes, E_ENTRY);
    let places = places(alloc, &headers)?;
    if let Some(number) = refusal_of_layout(alloc, entry, window, &places)? {
        return Err(ElfRefusal::Refused(number));
    }
    let segments = Segments::from_vec(segments(alloc, bytes, &headers)?);
    Ok(Image {
        entry,
        window,
        segments,
    })
}
