//! What a person is told of recoveries while a session goes: what was seen at a failure, and lines about it and about what was tried.
//!
//! `sight` sees a failed guest and the log of its items, and changes neither. `fault_of` says what is most likely wrong, by that and by what helps.
//! A `Teller` shows what it is told where it likes. No clause says what it shows, and nothing that it does reaches a session.
//! `TellingWatch` and `TellingNotes` are a watch and notes that let a teller know, and are those inside of them in all that a clause says.
//! The lines are for a person, and have no clause.
#![tactic(auto)]

mod fault;
mod item;
mod lines;
mod noting;
mod place;
mod serving;
mod sighting;
mod teller;
mod watching;

pub use fault::{Fault, Helps, fault_by_trials, fault_of, helps_of};
pub use item::SeenItem;
pub use lines::{Counts, end_line, is_recovered, recovery_line, sighting_lines};
pub use noting::TellingNotes;
pub use place::{Gone, Near, Place};
pub use serving::{serve_told, serve_watched_told, take_over_told};
pub use sighting::{Access, Sighting, Touch, sight};
pub use teller::{NoTeller, Teller};
pub use watching::TellingWatch;
