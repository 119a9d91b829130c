//! Texts of lines: how they are cut, the decimal numbers in front of bytes, and a line that is read by writing it again.
//!
//! A line that is read so has one spelling for each value: its numbers are taken by their places, leniently, and it is of its form
//! where they are in their ranges and writing them gives these very bytes. `specs/Written` says that of any form.
#![tactic(auto)]

mod cutting;
mod numbers;

pub use cutting::{behind, is_line, is_same, split_line};
pub use numbers::{number_in_front, two_numbers};
