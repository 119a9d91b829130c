//! Tests of sessions over a link, with and without failures, of what they note, and of example guests by themselves: what no clause of the engine says.
#![tactic(auto)]

#[cfg(test)]
mod guests_tests;
#[cfg(test)]
mod notes_tests;
#[cfg(test)]
mod recovery_tests;
#[cfg(test)]
mod rx_engine_tests;
#[cfg(test)]
mod telling_tests;
