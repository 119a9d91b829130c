//! Pages of `PAGE` bytes that are shared by copy on write: a live space, and numbered slots that it is saved in.
//!
//! A slot and the live space have a frame in common until the live space is written there.
//! One can rest on this: no write to the live space changes a slot, and no save copies a byte.
//! A call other than `make` takes no memory and refuses nothing: what it needs it requires.
//! Which of the free frames a page gets isn't promised.
#![tactic(auto)]

mod frame_copy;
mod little;
mod moves;
mod slot;
mod store;
mod tables;

pub use frame_copy::PAGE;
pub use store::{MAX_FRAMES_PER_PAGE, MAX_PAGES, MAX_SLOTS, PageStore};
