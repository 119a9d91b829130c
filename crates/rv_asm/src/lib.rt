//! An assembler for programs of RV32IM: the image of a text, or the first line that is wrong and what is wrong there.
//!
//! For all bytes there is exactly the refusal of the text, or its image. Want of memory may come in place of both.
//! The order in which tests are made is part of the contract: the line and the kind of a refusal are fixed.
//! The law `one_image` says that a text has one image at most in a window. Which text an image had isn't said.
#![tactic(auto)]

mod asm_refusal;
mod assembling;
mod labels;
mod laws;
mod layout;
mod placed;
mod sections;
mod surveying;
mod writing;

pub use asm_lines::explain;
pub use asm_refusal::AsmRefusal;
pub use assembling::assemble;
pub use laws::one_image;
