// Segments in memory: where they begin and end, and the refusals 12 to 15.
ghost use Rattle.std.specs.Prelude.{◌≡◌, ◌<◌, ◌^◌, ◌≤◌, ◌+◌, List, ℕ, map, IfOk};
ghost use Rattle.std.specs.List.{All};
ghost use Rattle.guest_image.specs.Layout.{lowest, highest, window_start, heap_floor, IsWindow, HasBytes, no_load, executable, bad_entry, too_large, layout_refusal};

use crate::Segment;
use crate::overlap::has_overlap;
use std::alloc::{AllocError, Global};

/// How many bytes a page has.
pub const PAGE: u32 = 4096;

/// How many bytes the stack has, at the window's end.
pub const STACK: u32 = 65536;

/// How many bytes at the window's end aren't the heap's: the stack's, and the page below it, which is in no area.
pub const STACK_AND_GUARD: u32 = STACK + PAGE;

// The lowest address of a segment, or 0 where there is none.
fn lowest(segments: &[Segment]) -> u32
    ensures { result ≡ lowest segments.now }
{
    let Some((first, others)) = segments.split_first() else {
        return 0;
    };
    let mut low = first.vaddr;
    for segment in others {
        low = low.min(segment.vaddr);
    }
    low
}

// The first address behind all segments.
fn highest(segments: &[Segment]) -> u64
    ensures value { result ≡ highest segments.now }
    ensures bound { result < 2 ^ 33 }
{
    let mut high: u64 = 0;
    for segment in segments {
        high = high.max(u64::from(segment.vaddr) + u64::from(segment.memsz));
    }
    high
}

/// The page of the lowest byte, where the window begins.
pub fn window_start(segments: &[Segment]) -> u32
    ensures { result ≡ window_start segments.now }
{
    lowest(segments) / PAGE * PAGE
}

/// The first page behind the segments, where the heap begins.
pub fn heap_floor(segments: &[Segment]) -> u64
    ensures value { result ≡ heap_floor segments.now }
    ensures bound { result < 2 ^ 34 }
{
    let page = u64::from(PAGE);
    (highest(segments) + (page - 1)) / page * page
}

// Whether no segment has a byte.
#[tactic(auto, unfolding(crate::specs::Layout::no_load))]
fn has_no_load(segments: &[Segment]) -> bool
    ensures { result ≡ no_load segments.now }
{
    segments.iter().all(|segment| segment.memsz == 0)
}

// Whether the byte at an address may be executed.
fn is_executable(segments: &[Segment], at: u64) -> bool
    ensures { result ≡ executable segments.now at }
{
    segments.iter().any(|segment| {
        let start = u64::from(segment.vaddr);
        segment.flags % 2 == 1 && start <= at && at < start + u64::from(segment.memsz)
    })
}

// Whether a program can't begin at the entry.
#[tactic(auto, unfolding(crate::specs::Layout::bad_entry))]
fn has_bad_entry(entry: u32, segments: &[Segment]) -> bool
    ensures { result ≡ bad_entry entry segments.now }
{
    let at = u64::from(entry);
    entry % 4 != 0
        || !(is_executable(segments, at)
            && is_executable(segments, at + 1)
            && is_executable(segments, at + 2)
            && is_executable(segments, at + 3))
}

// Whether the segments, a page of heap and the stack don't fit a window.
#[tactic(auto, unfolding(crate::specs::Layout::too_large))]
fn is_too_large(window: u32, segments: &[Segment]) -> bool
    requires { IsWindow window }
    ensures { result ≡ too_large window segments.now }
{
    let top = u64::from(window_start(segments)) + u64::from(window);
    let heap_start = heap_floor(segments);
    top >= 1 << 32 || top - u64::from(STACK_AND_GUARD) < heap_start + u64::from(PAGE)
}

/// The first refusal of the segments and the entry in a window, by its number.
#[tactic(auto, unfolding(crate::specs::Layout::layout_refusal))]
pub fn refusal_of_layout(
    alloc: Global,
    entry: u32,
    window: u32,
    segments: &[Segment],
) -> Result<Option<u8>, AllocError>
    requires window { IsWindow window }
    requires full { All HasBytes segments.now }
    ensures { IfOk result (λ refusal. refusal ≡ layout_refusal entry window segments.now) }
{
    if has_overlap(alloc, segments)? {
        return Ok(Some(12));
    }
    if has_no_load(segments) {
        return Ok(Some(13));
    }
    if has_bad_entry(entry, segments) {
        return Ok(Some(14));
    }
    if is_too_large(window, segments) {
        return Ok(Some(15));
    }
    Ok(None)
}
