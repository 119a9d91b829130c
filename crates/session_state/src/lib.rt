//! What a session of a program holds, and where it stands between two events of its program: definitions, and what follows from them. Of code it has what a session records.
//!
//! What `serve` of `rx_engine` ensures is defined here, beside the lemmas from which it follows.
//! That crate has no definitions of its own.
//! A change of its code proves none of these lemmas again.
//! While a session serves, only answers of the allocator from before its oldest checkpoint are recorded.
//! No recovery can change these. At an end all are recorded; where it is broken off, no others than those.
#![tactic(auto)]

pub mod laws;
mod options;
mod recording;
mod remembering;

pub use options::Options;
pub use recording::note_up_to;
pub use remembering::{Nothing, Past, Remembers};
