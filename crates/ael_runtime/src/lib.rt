//! A small runtime on the heap: one thread's roots, the records that they lead to, its frames, and the board that all threads share.
//!
//! A `Local` is a mutator with its heap. Its calls look before they act: what the heap would end the mutator for is told as a `Failure`, and the
//! mutator goes on. Only a full heap, and a value stored where its record can't hold it, are an end.
#![tactic(auto)]

mod board;
mod failure;
mod frames;
mod local;
mod measured;
mod numbers;
mod records;
mod root;

pub use ael_threads::{Mutator, Round, Scanner, Seats, Shared};
pub use failure::Failure;
pub use gc_worker::{Config, OpenError};
pub use local::Local;
pub use plain_state::End;
pub use root::Root;
