//! Two hosts are one, and so are more: what a host that was killed gave its clients, and what the one behind it gave them, come of one run.
//!
//! The crate has no code but laws, each the contract of a function that does nothing.
//! What each host does is told below: its session by an account, and what the second one follows by its release.
//! Here both stand side by side, with nothing between them but what clients have and what was handed over.
#![tactic(auto)]

pub mod laws;
