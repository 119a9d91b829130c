//! A session that follows another host's run: where it stands while it does, and what each of its steps makes of that. Definitions, and what follows from them.
//!
//! While it follows, a session stands as one that has just begun where its run stands: all that came so far came before it.
//! So each step is a step of an ordinary session, behind which what came before takes that step in.
#![tactic(auto)]

mod handed_over;
mod judging;
pub mod laws;
mod missing;
mod planned;
pub mod remembering;
mod sending;
mod turned;
mod unfollowed;

pub use handed_over::{HandedOver, Place};
pub use judging::{Judged, StandKind, agrees, judge};
pub use missing::Missing;
pub use planned::{are_well_placed, env_planned, in_force};
pub use sending::note_held;
pub use turned::Turned;
pub use unfollowed::Unfollowed;
