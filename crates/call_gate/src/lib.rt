//! The calls of a guest: reading one off the registers, checking its buffer, and the connections that it may send to.
//!
//! A call is read and checked here. What it does to the guest is done by `guest_cpu`.
//! That this check is the one of a run under a rule is a lemma, in `proofs/CallLemmas.antt`, and no clause.
//! In what order areas and rule are asked isn't promised: both give BadAccess.
//! That `copy_from` takes no memory no clause says.
#![tactic(auto)]

mod call;
mod check;
mod connections;

pub use call::{Call, read_call};
pub use check::{MOST_SENT, check_call};
pub use connections::ConnSet;
