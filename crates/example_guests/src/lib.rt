//! Example guests: programs of RV32IM as assembler's texts, most of them with a fault planted.
//!
//! They are texts for tests: the clauses say which names there are, and that each text is headed by its name.
//! That each assembles, and replies or fails as it says, is tested and not proved.
//! Guest keys is the program of a drill, in the crate `drill`; no program uses the others.
#![tactic(auto)]

mod catalogue;
mod counter;
mod dirty;
mod divide;
mod echo;
mod grow;
mod keys;
mod late;
mod null;
mod overflow;
mod pair;
mod stale;
mod stale_grow;
mod tell_free;
mod tell_over;
mod three;
mod twice;
mod unset;

pub use catalogue::{keys_source, source_of};
