//! The recovery system's commands over any outside: the words in, the answer and its status out.
//!
//! It knows the outside by traits alone: whatever its clauses say holds of real streams and files as far as these tell.
//! Memory may come in place of any answer but BadWords, and what was done before it is said.
//! Which calls on files and on the port were made, in order, is said of each command.
//! That the same words, files and input come to the same answer no clause says.
//! Which sentences are written on standard error is no part of it: `rx` writes them.
#![tactic(auto)]

mod assembly;
mod converting;
mod diagnosing;
mod drilling;
mod ending;
mod examining;
pub mod laws;
mod loading;
mod noting;
mod port_serving;
mod replaying;
mod resuming;
mod resuming_files;
mod run;
mod serving;
mod settings;
mod standby_files;
mod standing_by;
mod taking_on;
mod text_frames;

pub use assembly::MAX_SOURCE;
pub use ending::End;
pub use loading::MAX_PROGRAM;
pub use replaying::MAX_RECORD;
pub use resuming_files::MAX_REPORT;
pub use run::run_rx;
pub use settings::MAX_EVENTS;
pub use standby_files::MAX_COUNTS;
