//! Program files: the image of an executable of RV32IM, or the first reason for which it is refused.
//!
//! Reading says exactly the first refusal that holds, or the image, for all bytes. What is written is read back.
//! The texts of the refusals have no clause.
#![tactic(auto)]

mod elf_refusal;
mod fields;
mod file_header;
mod program_header;
mod reading;
mod refused_field;
mod writing;

pub use elf_refusal::ElfRefusal;
pub use reading::read_image;
pub use refused_field::{RefusedField, field_of_refusal};
pub use writing::write_image;
