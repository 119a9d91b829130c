//! What goes between a session and its link: the next event comes in as items of the log, and what is owed to connections goes out.
//!
//! `hear` and `hear_into` are one take: log, ledger, phases and the count of events know one journal before it and behind it.
//! A refusal of the link takes no event. An event that is refused here was taken, and brings no item.
//! At a refusal log, ledger and count are as they were.
//! At Memory none was taken, or one that isn't refused: then the log and the count may have it, and the ledger hasn't.
//! Which pieces are due `session_history` defines. Here they go out of a ledger, in the order of its sends.
//! A piece is shorter than what is left of its send only where its connection was found gone.
//! After an Err some of the pieces went out, and perhaps a first part of one more.
//! A trial passes nothing: both calls require that there is none.
#![tactic(auto)]

mod heard;
mod hearing;
mod pass_fault;
mod passing;
mod taking;

pub use heard::{HearFault, Heard};
pub use hearing::{hear, hear_into};
pub use pass_fault::PassFault;
pub use passing::{pass_rest, pass_until};
