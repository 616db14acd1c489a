//! The concordance of a text, made on the heap: clerks, each of which is a mutator, note words and their lines in records, and one of them
//! gathers what all noted.
//!
//! A clerk leaves the board alone while it reads, so what it knows of its records rests on its own calls.
#![tactic(auto)]

mod clerk;
mod error;
mod finding;
mod first_and_rest;
mod gathering;
mod job;
mod laws;
mod making;
mod noting;
mod path;
mod reading;
mod registers;
mod running;

pub use error::ConcordError;
pub use laws::{
    ended_paths_have_none, lone_fulls_are_filled, lone_histories_are_plain, notes_are_worked_out,
    notes_need_no_more, whole_calls_are_plain,
};
pub use making::concord;
