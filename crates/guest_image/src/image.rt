// What a program is in memory.
ghost use Rattle.std.specs.Prelude.{◌≡◌, ◌^◌, ◌<◌, length, None};
ghost use Rattle.std.specs.List.{All};
ghost use Rattle.std.proofs.Props.{props};
ghost use Rattle.guest_image.specs.Layout.{IsWindow, IsPlaced, layout_refusal};

use crate::Segment;
use crate::layout::{STACK_AND_GUARD, heap_floor, window_start};
use rx_base::Listed;

/// The loadable segments, in the file's order.
pub type Segments = Listed<Segment>;

/// What a program file says: where the program begins, and its segments in a window of so many bytes. Every image is
/// valid: the window has a whole number of MiB from 1 to 64 and ends below 2^32; there is a segment, and there are at most
/// 65535; each has bytes, no more of them from the file than it has, none of them past 2^32, and no two segments share
/// one; the entry is a multiple of 4, and its four bytes may be executed; and a page at least is left for the heap.
#[derive(Debug, Drop)]
pub struct Image {
    pub entry: u32,
    pub window: u32,
    pub segments: Segments,
    ghost in_window: { IsWindow window },
    ghost placed: { All IsPlaced segments },
    ghost few: { length segments < 2 ^ 16 },
    ghost accepted: { layout_refusal entry window segments ≡ None } by { Prim.hlevel props },
}

impl Image {
    ghost use Rattle.guest_image.specs.Image.{base, heap_start, heap_end, stack_top};

    /// Where the window begins: the page of the lowest byte of a segment.
    pub fn base(&self) -> u32
        ensures { result ≡ base self.now }
    {
        window_start(self.segments.as_slice())
    }

    /// Where the heap begins: the first page behind the segments.
    pub fn heap_start(&self) -> u32
        ensures { result ≡ heap_start self.now }
    {
        heap_floor(self.segments.as_slice()) as u32
    }

    /// Where the heap ends, a page below the stack.
    pub fn heap_end(&self) -> u32
        ensures { result ≡ heap_end self.now }
    {
        self.stack_top() - STACK_AND_GUARD
    }

    /// Where the stack ends, and with it the window.
    pub fn stack_top(&self) -> u32
        ensures { result ≡ stack_top self.now }
    {
        self.base() + self.window
    }
}
