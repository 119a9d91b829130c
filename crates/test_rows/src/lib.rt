//! Sessions over a link as rows of a text, for tests: what is played to a program, and what is expected of it; and links in memory as lines of text.
//!
//! They serve tests alone. A link is a `MemoryLink` of the crate `links`.
//! That it plays what its line says no clause says: only that nothing was opened, and that it takes and gives.
//! What a test expects is worked out by hand, and is never what the program printed.
//! A row is one session: a program, its options, what its link plays, and what is expected of it.
//! What is played goes through the public calls of `rx_engine`, over a link in memory of the crate `links`.
//! A row that can't be read fails its test.
#![tactic(auto)]

mod failure_count;
mod lines;
mod playing;
mod programs;
mod rows;
mod short_link;
mod short_notes;
mod showing;
mod table;

pub use lines::{line_of, link_of};
pub use programs::image_of;
pub use table::play_rows;
