//! Tests of replays over a link in memory: what no clause of their crate says.
#![tactic(auto)]

#[cfg(test)]
mod replay_tests;
#[cfg(test)]
mod replayed;
