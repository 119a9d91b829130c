//! The tests of the machine: what no clause of instruction words, program files and runs says.
#![tactic(auto)]

#[cfg(test)]
mod code_table_tests;
#[cfg(test)]
mod elf_file_tests;
#[cfg(test)]
mod run_history_tests;
#[cfg(test)]
mod rv_isa_tests;
