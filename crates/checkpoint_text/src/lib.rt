//! The text of the last checkpoint of a heap, read from the words of its table.
#![tactic(auto)]

mod lines;
mod printing;
mod saved_record;
mod saved_words;
mod visiting;

pub use lines::{checkpoint, push_checkpoint};
