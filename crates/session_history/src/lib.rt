//! What a session is between a link and a guest, as definitions: the events that it heeds, what it owes to each connection
//! and when, and one account of the whole.
//!
//! The crate has no code but why a session stops, and laws, each the contract of a function that does nothing.
//! An account is one record: the run, what each connection was passed, and the lawful journal.
//! A session may serve on with another survivor, if that emits what was passed, and in time.
//! How one is found isn't said here: `trials` says it.
//! What a ledger, a log and a link know of the journal is defined here too, for the code above.
//! No code uses these laws. They are for who reads or compares sessions.
//! Laws on whole sends suppose that no connection was found gone, and none was opened again.
//! No law says that the same input comes to the same answer: `one_end` speaks of one journal.
#![tactic(auto)]

pub mod account_laws;
mod ends;
pub mod laws;

pub use ends::{SessionBreak, SessionEnd, Stop};
