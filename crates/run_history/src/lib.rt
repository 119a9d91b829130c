//! What a run of a guest program is: the machine's state over the flat memory of an image, one instruction, one guest
//! call, whole runs, and runs that environments serve, as definitions; and the answers of the recovery system's commands.
//!
//! The definitions know nothing of the code. What code does is said in their words, in the crates above.
//! It is unchanged by more items, and by more answers of the allocator, behind those that it used.
//! A run that environments serve is such a run too, with answers that C allows.
//! Which answers malloc, calloc and realloc get is left open but for that; `alloc_env` chooses among them.
#![tactic(auto)]

mod answer;
pub mod laws;
mod legal;
mod regs;

pub use answer::{Answer, Cause};
pub use legal::{kept_count, legal_choice, may_ask};
pub use regs::Regs;
