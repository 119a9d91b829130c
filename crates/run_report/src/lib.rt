//! The report of a session: its episodes and its end, as text or as JSON, one line after another.
//!
//! The calls write parts of a report.
//! That they are a whole one, with its episodes numbered in order, `file_notes` says.
//! As JSON an episode is one line with its trials in an array. As text it is a line, and one more for each trial.
//! The JSON text is that of `serde_json` for a value that is given as data.
//! An object has no blanks, and its keys stand in the order of their bytes.
#![tactic(auto)]

mod form;
mod json_lines;
mod report;
mod text_lines;

pub use form::Form;
pub use report::{end_text, episode_text, head_text};
