//! Tests of commands in a hostile world: a program that is no executable, input that is cut, and each call of the outside failing once.
#![tactic(auto)]

#[cfg(test)]
mod fault_tests;
