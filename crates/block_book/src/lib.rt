//! The blocks of one heap: which stand, where a new one is placed, and what C allows the allocator to answer to an ask.
//!
//! Live blocks stand in one list with delayed ones, which were freed and are kept from use.
//! A block's extent has its padding on both sides, and no two share a byte.
//! What C knows of a block is without the padding.
//! `place` serves an environment, which chooses. `put` serves a replay, which was told the answer.
//! What a run calls its heap are the live blocks alone: the law `live_blocks_follow` ties each change to them.
//! A book remembers the place of the block that was searched for last, in a cell. No clause says what a cell holds, and none needs to:
//! the block that stands there now is looked at, and taken only where it is the one that a search would find.
//! Each block remembers where it was asked for, and the book the last 256 blocks that were freed, with where: for who looks at a failure. No answer
//! to a program depends on it.
//! Only `Book::make` takes memory. No clause says that.
#![tactic(auto)]

mod block;
mod book;
mod choice;
pub mod laws;
mod site;
mod standing;

pub use block::{Block, reserved_size};
pub use book::Book;
pub use choice::{Ask, Choice, Choices};
pub use site::{Freed, Site};
pub use standing::Standing;
