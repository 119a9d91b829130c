//! A drill: a generated session in memory of a server that fails and is recovered, and its summary of five lines.
//!
//! The program is guest keys, and its clients come from a generator of numbers, so a seed and a count fix all that they send.
//! The session is one of `rx_engine`, with every option at its default, over a link in memory and with notes in memory.
//! Neither of the two ever fails, as their clauses say. A drill whose session comes to no end is answered Memory, and nothing is written.
//! That a text assembles, and which lines a drill prints, is tested and not proved.
#![tactic(auto)]

mod drill_link;
mod drilling;
mod episode_notes;
mod generating;
mod passing;
mod settings;
mod summary;

pub use drilling::run_drill;
