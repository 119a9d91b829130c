//! What a session notes while it serves: the episodes of its recovery, with their lines of text, and the answers of the allocator; as a
//! trait, and forms of it in memory.
//!
//! An episode is data. That it tells what a recovery did, `recover` of `recovery` says.
//! That each one is noted, and in order, `serve` of `rx_engine` says.
//! An exit reads as `survived`, and its code stands in no line.
//! Notes may tell what was noted or not, as a sink may. Notes that are lent are notes too.
//! The trait doesn't say which answers and episodes it is given.
//! That they are those of the session, `serve` of `rx_engine` says.
//! `NoteList` and `NoNotes` don't tell what a failed call was handed. No program uses them: a session of `rx` notes into two files, by `file_notes`.
#![tactic(auto)]

mod episode;
mod keeping;
mod lent;
mod lines;
mod no_notes;
mod note_list;
mod noting;
mod words;

pub use episode::{Episode, Tried, Tries, Try};
pub use lines::{failure_line, try_line};
pub use no_notes::NoNotes;
pub use note_list::NoteList;
pub use noting::Notes;
pub use words::{cause_text, env_word, pc_text, tried_text};
