//! Tests of a guest, its memory, its calls, its guard and single instructions: what no clause of them says.
#![tactic(auto)]

#[cfg(test)]
mod call_gate_tests;
#[cfg(test)]
mod guest_cpu_tests;
#[cfg(test)]
mod guest_space_tests;
#[cfg(test)]
mod heap_guard_tests;
#[cfg(test)]
mod rows;
#[cfg(test)]
mod rv_exec_tests;
