//! What a developer gets besides a recovery: which environments cure a failure.
//!
//! An `Examiner` is a watch. At each failure it tries the whole table, each checkpoint in each environment, and gives up each trial.
//! The session's own recovery follows, and does what it would without it.
//! `diagnosis_text` tells the tables beside the episodes, with a verdict for each.
//! The laws say that a table begins with the trials of the session's own walk, and that a verdict begins with the environment that it adopts.
#![tactic(auto)]

mod counting;
mod examiner;
mod examining;
pub mod laws;
mod text;
mod verdict;

pub use examiner::Examiner;
pub use text::{diagnosis_text, head_text, rest_text};
pub use verdict::cures;
