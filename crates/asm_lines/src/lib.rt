//! What stands on a line of an assembler's text: its label, its statement with the operands, or what is wrong with it.
//!
//! A line is read by itself: what stands before it or behind it has no part in that.
//! Where statements and labels lie is no part of this crate: `rv_asm` lays them out.
//! What `explain` says of a flaw is for a person, and has no clause.
#![tactic(auto)]

mod bytes;
mod explaining;
mod flaw;
mod form;
mod line;
mod lines;
mod mnemonics;
mod numbers;
mod operands;
mod part;
mod registers;
mod statement;
mod statements;
mod tables;

pub use explaining::explain;
pub use flaw::Flaw;
pub use form::{Form, Section};
pub use line::{Line, Words};
pub use lines::{line_of, split_line};
pub use mnemonics::{gives_bytes, stands_in};
pub use part::Part;
pub use statement::Statement;
pub use statements::statement_of;
