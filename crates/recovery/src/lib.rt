//! What a session does after a failure: the program goes on from its checkpoints in other environments, until it comes past the failure; and the
//! checkpoints that it keeps for that.
//!
//! What a trial is, and in which order trials are made, `trials` defines. This is the code that makes them.
//! A walk changes no passed byte, and where no trial survives the ledger is as it was. Whatever is answered, it has the sends of one run alone.
//! After want of memory the trials so far are told, and how far the one had come that was under way. Where the guest stands isn't, but of one trial.
//! A `Watch` may look at a failure before trials are made of it. The program's own is `NoWatch`.
//! A `Recoverable` is what a recovery takes back, as one value, which a session owns: guest, checkpoints, items, replies, and answers of the allocator.
//! Its calls keep the checkpoints right beside the log and the ledger, and require that they are.
//! `recover` asks the watch first, and then walks over the trials.
//! What the watch counts isn't among what the trials did.
//! `forget` gives up only what no trial from the checkpoints that stand can need.
//! After want of memory the checkpoints are as they were.
//! The laws say that the checkpoints behind a request are fixed by the run, and by how the session keeps them.
#![tactic(auto)]

mod checkpoints;
mod forgetting;
mod going;
pub mod laws;
mod recoverable;
mod recovering;
mod trying;
mod walking;
mod watching;

pub use recoverable::{Recoverable, Room};
pub use recovering::Recovered;
pub use trying::{Chance, TrialLimits};
pub use walking::{Adopted, FailureSite, Walked};
pub use watching::{NoWatch, Watch};
