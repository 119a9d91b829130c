//! Trials after a failure: what comes of one, in which order they are made, and how one becomes the run that counts. Definitions and laws.
//!
//! The crate has no code but laws, each the contract of a function that does nothing.
//! The point of a failure is the number of items that the run that failed had taken.
//! A trial has one result, and a walk over the table of trials is one list.
//! So a recovery is fixed by the survivor that failed and its checkpoints.
//! A trial that is adopted emits all that was passed, and in time. So no byte that was passed is taken back.
//! Behind an adoption the next failure has taken more items, so there are no more recoveries than items.
#![tactic(auto)]

pub mod laws;
