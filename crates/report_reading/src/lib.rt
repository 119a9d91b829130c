//! Reads what `run_report` writes: the report of a session, also of one that was stopped at any moment.
//!
//! A report is read line by line. What was read so far is a report itself: one whose session was stopped there.
//! A line behind the last line feed isn't looked at, unless the last line was read.
//! As text an episode stands on several lines. One that was cut reads as an episode of which no trial survived.
//! That a report is the one of a session isn't said here: `file_notes` says what it wrote.
//! How much memory a reading takes no clause says.
#![tactic(auto)]

pub mod laws;
mod lines;
mod numbers;
mod parts;
mod reading;
mod reported;
mod words;

pub use reading::read_report;
pub use reported::{Episodes, ReadReport, ReportEnd, ReportRefusal};
