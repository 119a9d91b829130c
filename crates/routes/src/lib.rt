//! The routes of a session: a trunk of many connections, or the clients of a port. Over a trunk also the replay of a record, its
//! conversion, and the takeover by a second host.
//!
//! A session of `rx_engine` serves a `PortLink` of `port_link` over a port, with any notes.
//! What is known of it is said of the port's calls, where it tells them: all that came and went is what they made, in their order.
//! So for each connection the gives took what the account says was passed to it, and the takes gave its pieces.
//! A client is accepted, and a connection taken of, where the wait before it answered just that.
//! No clause says which of several ready clients is served next, nor when a client's system sent a byte that a give took.
//!
//! A session serves a `TrunkLink` of `trunk_wire` over a source and a sink, with any notes.
//! What is known of it is said of bytes: what was taken and written at each answer.
//! Where a write broke off, the header of the frame that was cut is that of the send that was due; so at want of memory, if a piece broke off.
//! No clause says that the payload behind it is from that send, and not the piece before.
//! A session that takes over from another host, by its record and its report, follows that host's run and writes no byte before it is released.
//! What it takes are then the frames of the events that it followed and of those behind them; what it writes stands behind what clients had.
//! A replay writes whole frames of its sends, in their order.
//! Where a write failed or memory ran out, a first part of the next send's frame may stand behind them.
//! A conversion is a replay that gives nothing. Its text has each answer of the allocator that the run used, with what was asked.
//! The laws say that a record of version 2 is converted to itself, and a session's record to the text of the session's run.
//! The law `same_bytes_are_replayed` speaks of any session that served a trunk, however it was answered.
//! It supposes the bytes that the session's source had, and a record with its framing, lines, instructions and items.
//! Then no replay is answered Mismatch, though a fault or want of memory may come.
#![tactic(auto)]

mod converting;
mod discard;
mod frame_giver;
pub mod laws;
mod port_serving;
mod record_lines;
mod replaying;
mod resuming;
mod serving;
mod standing_by;

pub use converting::{Converted, convert_trunk};
pub use port_serving::serve_port;
pub use record_lines::rest_lines;
pub use replaying::{Replayed, replay_trunk};
pub use resuming::resume_trunk;
pub use serving::serve_trunk;
pub use standing_by::{catch_up_trunk, serve_on_trunk};
