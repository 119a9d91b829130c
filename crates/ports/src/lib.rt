//! Where clients come from that are served over connections.
//!
//! A port accepts clients and keeps several of them open. Each call on an open connection names it. A port says by
//! `cause` that `Failed` is answered only where its own count of faults rose, and by `fixed` what no call changes.
//! The tame form in memory never fails. The other one fails exactly where it is planned.
#![tactic(auto)]

mod input;
mod lent;
mod memory_port;
mod port;
mod port_calls;
mod port_fails;
mod tame_port;

pub use memory_port::MemoryPort;
pub use port::Port;
pub use port_calls::{Awaited, FailedCall, PortCall, PortEntry, Ready};
pub use tame_port::TamePort;
