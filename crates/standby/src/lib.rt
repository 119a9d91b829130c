//! A second host follows a recorded run over the same events, and serves on from where the record ended.
//!
//! While it follows it gives nothing, and keeps what its run sends. Then each client gets what it misses by its count, and the run goes on in the
//! environment Plain, on the layout of its live blocks. It has no recovery and no checkpoints: where it fails, it gives up.
//! Whether the counts are true no host can tell.
#![tactic(auto)]

mod follower;
mod following;
mod giving;
mod hearing;
mod kept;
pub mod laws;
mod missing;
mod serving;

pub use follower::{Followed, Follower};
pub use following::{Unfollowed, catch_up};
pub use kept::Kept;
