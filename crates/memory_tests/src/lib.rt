//! Tests of blocks and pages: what no clause of their crates says. Checkpoints are tested with a guest, in `execution_tests`.
#![tactic(auto)]

#[cfg(test)]
mod alloc_env_tests;
#[cfg(test)]
mod block_book_tests;
#[cfg(test)]
mod cow_pages_tests;
