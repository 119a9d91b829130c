//! A session of a program over a link.
//!
//! It serves any `Link`, from the start of the program's image to an end or a fault.
//! There is an account of it at every answer, Memory and the faults too: one run, told by survivors.
//! At every answer its checkpoints stand, and it is said what is given up and recorded beside them.
//! When memory is enough isn't said.
//! One that takes over from another host follows that one's run first, and is released where that has come; or it is told why not.
//! The account says that a right order of events and pieces exists, and not when a byte moved.
//! Where the link tells nothing, the journal of the account is tied to nothing that came or went.
#![tactic(auto)]

mod awaiting;
mod ending_on;
mod following;
mod giving;
mod hearing;
mod left;
mod recovering;
mod released;
mod requesting;
mod saving;
mod sending_on;
mod serving;
mod session;
mod turn_followed;
mod turning;

pub use left::Left;
pub use session::Session;
pub use session_state::Options;
