//! The answers of malloc, calloc, realloc and free in each environment: plain, with padding, zeroed, isolated, with delayed recycling, and
//! all of these.
//!
//! An environment says where a block is placed, whether its bytes are zeroed, and when a freed one may be used again.
//! The heap itself is a `Book` of `block_book`: this crate only chooses in it.
//! The laws say of the definitions alone what the clauses say of the calls.
//! No call takes memory. No clause says that.
#![tactic(auto)]

mod bad_free;
mod env;
pub mod laws;
mod serving;
mod treatment;

pub use bad_free::BadFree;
pub use env::Env;
pub use serving::{serve_ask, serve_calloc, serve_free, serve_malloc, serve_realloc};
