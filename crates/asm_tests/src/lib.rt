//! The tests of programs as text: what no clause of lines, the assembler and the example guests says.
#![tactic(auto)]

#[cfg(test)]
mod asm_lines_tests;
#[cfg(test)]
mod example_guests_tests;
#[cfg(test)]
mod rv_asm_tests;
