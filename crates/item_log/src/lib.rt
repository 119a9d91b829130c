//! The items of a link: its events, and the messages of its connections' pieces, numbered in their order.
//!
//! An open and a close are one item each, and so is each message that a piece makes whole. They are numbered from 0.
//! An event that is refused leaves the log as it was, and so does want of memory.
//! Items that are given up are gone, but each later one keeps its number, also that among the messages of its connection.
//! The law `logs_show` says that a log that shows some events goes on to show them.
#![tactic(auto)]

mod connections;
mod counting;
mod item_log;
mod item_refusal;
mod kept;
mod kinds;
pub mod laws;

pub use item_log::ItemLog;
pub use item_refusal::ItemRefusal;
pub use kinds::{CLOSED, CONNECTIONS, MESSAGE, OPENED};
