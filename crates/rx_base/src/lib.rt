//! What all layers speak of: lists of bytes and of other values, what a guest receives, the number of a connection, why a call on the outside
//! wasn't done, which calls of an object in memory are to fail, and a counter of steps.
#![tactic(auto)]

mod fails;
mod fault;
mod item;
mod listed;
mod steps;

pub use fails::Fails;
pub use fault::{IoFault, LoadFault};
pub use item::{CONNECTIONS, Conn, Item, KEEP, MAX_ITEMS};
pub use listed::{Bytes, Listed};
pub use steps::Steps;
