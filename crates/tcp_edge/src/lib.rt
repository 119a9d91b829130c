//! The port over the system's TCP, on the address 127.0.0.1 alone.
//!
//! It meets the contract of every port and tells no calls, so what a real connection carries is trusted, and not said by a clause.
//! A client that is waited for longer than the patience, in a read or a write, is a failed call. Behind a stop none is accepted, and those that are
//! connected may stay for a while.
#![tactic(auto)]

mod clients;
mod port_edge;
mod setting;
mod sockets;
mod stop_input;

pub use port_edge::TcpPortEdge;
pub use stop_input::StopInput;
