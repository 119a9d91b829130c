//! A guard of the heap: a rule by which an access to it keeps to one block.
//!
//! An access without a byte of the heap is permitted. Any other has to lie in one block, as the guard's mode says.
//! `Extent`: in the extent of a block that stands, its padding included, also of one that was freed and is kept from use.
//! `Block`: in the bytes that a live block reserves, which are its size rounded up to a multiple of 16, and 16 where it is 0.
//! So up to 15 bytes behind a block's size are permitted.
//! It isn't promised that an access is in the block that the program meant: one that goes astray into another block is permitted.
//! What a served run under a guard keeps to is said of each of its instructions, in `laws`.
//! No call takes memory.
#![tactic(auto)]

mod guard;
pub mod laws;

pub use guard::{GuardMode, HeapGuard};
