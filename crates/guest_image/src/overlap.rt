// Whether segments share a byte of memory: the refusal 12. A file may have 65535 segments, so they aren't compared pair
// by pair: sorted by where they begin, two of them share a byte only if two neighbours do.
ghost use Rattle.std.specs.Prelude.{◌≡◌, ◌<◌, map, IfOk};
ghost use Rattle.std.specs.List.{All};
ghost use Rattle.guest_image.specs.Layout.{overlap, HasBytes};
ghost use Rattle.guest_image.specs.Extents.{extent_of, meets_from};

use crate::Segment;
use std::alloc::{AllocError, Global};

/// The addresses of a segment: its first, and the one behind its last.
#[derive(Clone, Copy, Debug)]
pub struct Extent {
    pub start: u64,
    pub end: u64,
}

// The extents of segments, in their order.
fn extents(alloc: Global, segments: &[Segment]) -> Result<Vec<Extent>, AllocError>
    ensures { IfOk result (λ v. v.items ≡ map extent_of segments.now) }
{
    let mut extents = Vec::new(alloc);
    'segments: for segment in segments {
        let start = u64::from(segment.vaddr);
        let end = start + u64::from(segment.memsz);
        extents.push(Extent { start, end })?;
    }
    Ok(extents)
}

// Whether an extent begins before the one in front of it ends.
fn neighbours_meet(extents: &[Extent]) -> bool
    ensures { result ≡ meets_from 0 extents.now }
{
    let mut end = 0;
    'extents: for extent in extents {
        if extent.start < end {
            return true;
        }
        end = extent.end;
    }
    false
}

/// Whether two of the segments share a byte.
pub fn has_overlap(alloc: Global, segments: &[Segment]) -> Result<bool, AllocError>
    requires { All HasBytes segments.now }
    ensures { IfOk result (λ b. b ≡ overlap segments.now) }
{
    let mut extents = extents(alloc, segments)?;
    extents.sort_by_key(|extent| extent.start)?;
    Ok(neighbours_meet(&extents))
}
