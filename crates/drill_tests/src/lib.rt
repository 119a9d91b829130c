//! Tests of drills: which lines they print.
#![tactic(auto)]

#[cfg(test)]
mod lines_tests;
