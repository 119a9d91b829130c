//! The sends of a survivor and of a trial, and what was passed of them to each connection.
//!
//! The survivor is the run that serves. A trial is compared byte by byte with what was passed of the survivor.
//! Each passed byte has a stamp: how many items had been received. By it a trial has to be in time.
//! A call that answers a Result fails for want of memory, or for a stream of more than 2^64 - 1 bytes.
//! Then the ledger is as it was, and bytes that were handed in are given up.
//! Lemmas on all that was ever sent and passed stand in `proofs/ShowsLemmas.antt`.
#![tactic(auto)]

mod account;
mod accounts;
mod comparing;
mod entry;
mod replies;
mod sends;

pub use replies::Replies;
