//! What a program is in memory: its segments and its entry, in a window with a heap and a stack.
//!
//! An `Image` is valid by its type: no refusal holds of its window, its segments and its entry.
#![tactic(auto)]

mod image;
mod layout;
mod overlap;
mod segment;

pub use image::{Image, Segments};
pub use layout::{PAGE, STACK, STACK_AND_GUARD, refusal_of_layout, window_start};
pub use overlap::has_overlap;
pub use segment::Segment;
