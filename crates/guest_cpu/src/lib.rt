//! One guest of a session, with its checkpoints: it runs to its next event in an environment of the allocator, or as
//! recorded, and is saved and restored whole.
//!
//! A whole guest comes back: registers, memory, heap, connections, counts, and the code with which it ended itself.
//! Its rule and its window no call changes. Only `make` and the bytes of a send take memory.
//! `run_to_event` serves a session and its trials, `run_recorded` a replay.
//! The latter has no budget, no environment and no rule.
//! A flag of a page says that a byte of it was written, and not that it differs.
//! What whole calls do to the run that a guest is, `laws` say.
#![tactic(auto)]

mod calling;
mod choosing;
mod cpu;
mod event;
mod guest_core;
pub mod laws;
mod making;
mod marks;
mod placing;
mod quiet;
mod receiving;
mod recorded;
mod snapshot;
mod turning;

pub use cpu::Cpu;
pub use event::{Event, Question};
pub use marks::Marks;
