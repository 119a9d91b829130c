//! How many bytes each client has, as text: what a second host is told of the connections that it takes over.
//!
//! A text has a line `CONN COUNT` for each connection that has bytes, in rising order. Each value has one spelling, so a text has one
//! reading at most. Whether the counts are true no host can tell.
//! How much memory a reading takes no clause says.
#![tactic(auto)]

mod counts;
pub mod laws;
mod reading;
mod telling;
mod writing;

pub use counts::{Counts, CountsRefusal};
pub use reading::read_counts;
pub use writing::count_line;
