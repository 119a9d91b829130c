//! A second host goes on for one that was killed: what the first host's report and its clients tell of the run that survives. Definitions and laws.
//!
//! The crate has no code but laws, each the contract of a function that does nothing.
//! Between two episodes a session is determined by its items, and a report tells which trial was adopted at each failure.
//! So the plan of the surviving run is a fold over the episodes, and a second host that runs it again does what the first did.
//! What clients hold is the first bytes of what that run sends, and is due where the run sent it, which is no later than the first host passed it.
//! Before the first host stopped, and not later, a run that follows has reached all that was handed over.
#![tactic(auto)]

pub mod laws;
