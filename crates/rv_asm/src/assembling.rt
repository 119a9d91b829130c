// The image of a text.
ghost use Rattle.std.specs.Prelude.{◌≡◌, ◌<◌, ◌^◌, ◌∷◌, length, IfOk, IfErr};
ghost use Rattle.guest_image.specs.Layout.{IsWindow};
ghost use Rattle.rv_asm.specs.Layout.{text_start, data_start};
ghost use Rattle.rv_asm.specs.Steps.{AreSmall, IsImageOf};
ghost use Rattle.rv_asm.specs.Assembling.{segment, data_segments, IsAssembled, IsReason};

use crate::AsmRefusal;
use crate::layout::{Layout, TEXT_START, data_start};
use crate::sections::Sections;
use crate::surveying::survey;
use crate::writing::write_sections;
use guest_image::{Image, Segment, Segments};
use rx_base::Bytes;
use std::alloc::{AllocError, Global};

// The flags of a segment (System V ABI, "Segment Permissions").
const READ_EXECUTE: u32 = 5;

const READ_WRITE: u32 = 6;

// The segment of a section.
fn segment(vaddr: u32, flags: u32, bytes: Bytes) -> Segment
    requires { length bytes < 2 ^ 32 }
    ensures { result ≡ segment vaddr flags bytes }
{
    Segment {
        vaddr,
        flags,
        memsz: bytes.as_slice().len() as u32,
        filled: bytes,
    }
}

// The segments of both sections. A section without bytes has none.
fn segments_of(
    alloc: Global,
    text_size: u32,
    sections: Sections,
) -> Result<Vec<Segment>, AllocError>
    requires { AreSmall text_size sections.code sections.variables }
    ensures { IfOk result (λ v. v.items ≡ segment text_start 5 sections.code ∷ data_segments (data_start text_size) sections.variables) }
{
    let mut segments = Vec::new(alloc);
    segments.push(segment(TEXT_START, READ_EXECUTE, sections.code))?;
    if !sections.variables.as_slice().is_empty() {
        let start = data_start(text_size);
        segments.push(segment(start, READ_WRITE, sections.variables))?;
    }
    Ok(segments)
}

// The image of the sections of a text.
fn image_of(
    alloc: Global,
    layout: &Layout<'_>,
    sections: Sections,
    window: u32,
) -> Result<Image, AllocError>
    requires window { IsWindow window }
    requires small { AreSmall layout.now.text_size sections.code sections.variables }
    ensures { IfOk result (IsImageOf layout.now sections window) }
{
    let segments = segments_of(alloc, layout.text_size, sections)?;
    Ok(Image {
        entry: TEXT_START,
        window,
        segments: Segments::from_vec(segments),
    })
}

/// The image of an assembler's text, in a window of so many bytes; or the first line that is wrong, and what is wrong
/// there.
pub fn assemble(alloc: Global, text: &[u8], window: u32) -> Result<Image, AsmRefusal>
    requires { IsWindow window }
    ensures image { IfOk result (IsAssembled text.now window) }
    ensures refused { IfErr result (IsReason text.now window) }
{
    let layout = match survey(alloc, text) {
        Ok(layout) => layout,
        Err(stop) => return Err(stop.refusal()),
    };
    let sections = match write_sections(alloc, &layout) {
        Ok(sections) => sections,
        Err(stop) => return Err(stop.refusal()),
    };
    let image = image_of(alloc, &layout, sections, window)?;
    Ok(image)
}
