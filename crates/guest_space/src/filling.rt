// A window that is filled with the segments of an image.
ghost use Rattle.std.specs.Prelude.{◌≡◌, ◌≤◌, length, replicate, None, IfOk};
ghost use Rattle.std.specs.List.{All};
ghost use Rattle.cow_pages.specs.Pages.{IsLawful};
ghost use Rattle.guest_space.specs.Space.{spans_of};
ghost use Rattle.guest_space.specs.Filling.{FilesIn, Fills};

use crate::span::{Span, blank_span, segment_span};
use cow_pages::PageStore;
use guest_image::{Image, STACK, Segment};
use std::alloc::{AllocError, Global};

/// The spans of an image: its segments, its heap and its stack.
pub fn spans_of(alloc: Global, image: &Image) -> Result<Vec<Span>, AllocError>
    ensures { IfOk result (λ spans. spans.items ≡ spans_of image.now) }
{
    let segments = image.segments.as_slice();
    let top = image.stack_top();
    let mut spans = Vec::with_capacity(alloc, segments.len() + 2)?;
    for segment in segments {
        spans.push(segment_span(segment))?;
    }
    spans.push(blank_span(image.heap_start(), image.heap_end()))?;
    spans.push(blank_span(top.saturating_sub(STACK), top))?;
    Ok(spans)
}

/// Puts the file's bytes of segments into a store in which nothing is saved.
pub fn fill(store: &mut PageStore, base: u32, segments: &[Segment])
    requires inside { All (FilesIn base store.old.pages) segments.now }
    requires empty { store.old.slots ≡ replicate (length store.old.slots) None }
    requires lawful { IsLawful store.old }
    ensures { Fills store.old base segments.now store.new }
{
    for segment in segments {
        store.write_run(segment.vaddr - base, segment.filled.as_slice());
    }
}
