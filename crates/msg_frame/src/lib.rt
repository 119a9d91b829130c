//! Messages of a stream: the pieces of a connection, cut by lines, by announced lengths or piece by piece.
//!
//! By lines and by length, the messages depend on the joined bytes alone, not on where these were cut into pieces.
//! Piece by piece they depend on the cuts.
//! A piece is taken whole or not at all: after a refusal, or want of memory, the framer is as it was.
//! Each connection has a framer of its own, in `item_log`.
#![tactic(auto)]

mod build;
mod ends;
mod framer;
mod framing;
pub mod laws;

pub use framer::Framer;
pub use framing::{FrameRefusal, Framing, LINE_FEED, MAX_MESSAGE, NUMBER_BYTES};
