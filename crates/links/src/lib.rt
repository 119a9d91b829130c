//! What a session talks to: links, from which events are taken and to which pieces of output are given, over many connections.
//!
//! A link shows one value of itself, and each call says by cases on its answer what becomes of that. What isn't shown, as the
//! events of a link that tells none, is promised nowhere. How a link goes on over many calls is its own relation, which every call keeps.
//! `MemoryLink` plays a script and tells all; the trunk, in a crate above, is a link over a source and a sink.
#![tactic(auto)]

mod connection_table;
mod journal;
mod lent;
mod link;
mod memory_link;

pub use connection_table::ConnectionTable;
pub use journal::{Entry, Given, LinkEvent, LinkFault};
pub use link::Link;
pub use memory_link::MemoryLink;
