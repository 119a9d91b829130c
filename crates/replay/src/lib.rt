//! A record is replayed: the run that it tells of is executed again over the same events, and its sends are given again.
//!
//! It has no budget, no environment, no access rule and no recovery: the record has a line for each answer of the allocator.
//! A line of version 2 says what was asked, and the call has to ask the same. One of version 1 doesn't, and the call says it.
//! An event is taken only where the run asks for an item, so a replay takes no more than it needs.
//! A record that was changed may be answered Finished: it then tells of a run of that program over these events.
//! A record whose last instruction is an exit is answered Finished, never Exited.
//! Beside Mismatch stands what differs: what the record has there, and what the run does.
//! The laws say of a session's own record, over the same events, that no Mismatch comes.
#![tactic(auto)]

mod difference;
mod giver;
mod giving;
mod hearing;
pub mod laws;
mod player;
mod playing;
mod replaying;

pub use difference::Difference;
pub use giver::{AnyGiver, Giver};
pub use hearing::answer_to;
pub use player::Player;
pub use replaying::{Filled, fill_by, replay, replay_by};
