//! A session's notes as two files: its record and its report.
//!
//! The two names are different; each call requires it. No other file changes.
//! The report is started behind the whole first line of the record. A session that takes over from another starts its own behind an empty record.
//! Which calls on the two files were made, in order, is said of each call here.
//! After a call that failed nothing more is added, and want of memory is answered.
//! `KeepingNotes` are notes whose episodes are kept in memory too, for who writes them into a third file.
//! What was noted is remembered for proofs alone, and nothing is kept for it at run time.
//! Where the files don't tell what they have, as real ones, nothing is said of what stands there.
#![tactic(auto)]

mod adding;
mod ends;
mod file_names;
mod file_notes;
mod keeping_notes;
pub mod laws;
mod past;
mod writing;

pub use ends::{FirstLine, LastLines, end_files, start_files, start_taken_over};
pub use file_names::FileNames;
pub use file_notes::FileNotes;
pub use keeping_notes::KeepingNotes;
pub use writing::{add_to_file, start_file};
