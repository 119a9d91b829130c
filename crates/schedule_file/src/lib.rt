//! The text of a session's record: its window and framing, every answer of the allocator, and how far the run went.
//!
//! Each value has one spelling. So a text has one record at most, and a record one text.
//! Version 2 is written, whose lines have what was asked; version 1, whose lines haven't, is read as well.
//! What a session left that was killed is read too: its last line may be missing, and the line behind the others may be torn.
//! A session writes its lines one after another, by `file_notes`, and the crate `replay` takes what was read.
//! That a record is the one of a session isn't said here: `file_notes` says what it wrote.
//! How much memory a reading takes no clause says.
#![tactic(auto)]

pub mod laws;
mod numbers;
mod reading;
mod recorded;
mod telling;
mod writing;

pub use reading::{read_record, read_unfinished};
pub use recorded::{Finish, Line, Lines, MAX_WINDOW, RecordRefusal, Recorded, Unfinished, VERSION};
pub use writing::{add_choice, choice_line, end_line, head_line};
