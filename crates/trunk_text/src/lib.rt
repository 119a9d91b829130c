//! Frames of the trunk as lines of text, and lines as frames.
//!
//! `frame_lines` writes the frame of each line, and `unframe` a line for each frame, each before it asks for a byte behind it.
//! What is refused is refused by its flaw, at the byte where its line or its frame begins.
//! That a trunk takes a frame isn't said here: any connection is a number of two bytes, and none has to be open.
//! The laws say that lines and frames come back from each other, by the bytes that the two calls take and write.
//! How much memory is taken no clause says.
#![tactic(auto)]

mod escapes;
mod framing;
pub mod laws;
mod line;
mod numbers;
mod reading;
mod streams;
mod turning;
mod unframing;
mod writing;

pub use framing::{MAX_LINE, frame_lines};
pub use line::{Flaw, Line, LineFault};
pub use reading::read_line;
pub use turning::Ended;
pub use unframing::unframe;
pub use writing::{frame_of, text_of};
