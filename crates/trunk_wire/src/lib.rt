//! The trunk: events of many connections come in as frames of one source, and pieces go out as frames of one sink.
//!
//! A `TrunkLink` is a `Link` of the crate `links`: each event is a frame of the source, each piece a frame of the sink.
//! It tells events where its source tells its bytes, pieces where its sink does, and no journal.
//! It never answers Gone, and its counts of faults are those of source and sink.
//! How much of one frame was taken or written isn't said where a call failed or memory ran out.
#![tactic(auto)]

mod header;
mod reading;
mod refusal;
mod trunk_link;
mod writing;

pub use trunk_link::TrunkLink;
