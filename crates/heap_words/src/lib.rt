//! The words of the collected heap.
//!
//! A word is 64 bits, and its lowest two are its tag. The formats of all words of the heap are
//! defined here, in `specs`: those of numbers and pointers, which this crate makes and reads, and
//! those of a record's first word, which `record_layout` makes and reads. Of a forward the address
//! is read here, as `record_layout` and `cell_walk` want it. What stands above speaks of the word
//! decoded.
#![tactic(auto)]

mod kind;
mod laws;
mod tag;
mod word;

pub use kind::Kind;
pub use laws::words_are_unambiguous;
pub use tag::Tag;
pub use word::{ADDRESS_AT, FORM_MASK, FORWARD, NUMBERS, Word};
