//! Checkpoints of something that can be saved and restored: a ring of them, of which the oldest are dropped.
//!
//! A `Snapshot` is anything with a live state and checkpoints; the guest of `guest_cpu` is one. It alone knows in which order they stand.
//! `save` saves one more, and drops those for which there is no room. `drop_newer` goes back to the one on which the live state stands.
//! What of a `Snapshot` no checkpoint holds is `fixed`: no call of the trait or of this crate changes it.
//! A `Ring` keeps that order for whoever has numbered slots in a store of `cow_pages`: the numbers of the saved ones, and on which of them the live space
//! stands. The lemmas in `proofs` say of each call of a store that ring and store stay together.
//! A page counts as written where its frame isn't that of the slot before, so also where its bytes are the same.
//! Only `Ring::make` takes memory, and nothing else has a refusal.
#![tactic(auto)]

mod ring;
mod saving;
mod snapshot;

pub use ring::Ring;
pub use saving::{drop_newer, save};
pub use snapshot::Snapshot;
