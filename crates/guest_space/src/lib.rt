//! The memory of a guest: a flat memory of spans with permissions, on shared pages.
//!
//! All goes byte by byte, exact at the ends of each span and at any alignment.
//! `read_bytes`, `write_bytes` and `zero` require that these bytes may be touched, and don't test it.
//! Who calls them asks `allows` before.
//! `fetch_by`, `load_by`, `store_by`, `load_from`, `store_from`, `load_within` and `store_within` are quick ways that may find nothing.
//! `fetch`, `load` and `store` decide.
//! An `AccessRule` says what else has to hold of an access, by the blocks of the heap. `AllMapped` refuses nothing.
//! `make` makes a table of the words of the first span that may be executed and not written, and no call changes these.
//! Only `make` and `read_bytes` take memory.
#![tactic(auto)]

mod access_rule;
mod bad_access;
mod code;
mod filling;
mod number;
mod saving;
mod space;
mod span;
mod stretch;
mod window;

pub use access_rule::{AccessRule, AllMapped};
pub use bad_access::BadAccess;
pub use space::GuestSpace;
pub use stretch::{Stretch, Stretches};
pub use window::{RegisterWindows, Window, Windows};
