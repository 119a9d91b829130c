//! The tests of the program: what no clause of its commands says.
#![tactic(auto)]

#[cfg(test)]
mod command_line_tests;
#[cfg(test)]
mod order_tests;
#[cfg(test)]
mod resume_tests;
#[cfg(test)]
mod rx_serve_tests;
#[cfg(test)]
mod standby_tests;
