//! What a step of a worker brings: that the machine at work has less to do, and which exchanges are won or lost.
//!
//! The laws are of the workers of `gc_worker` in a heap that stands; no crate takes them. The crate has laws, and nothing that runs.
#![tactic(auto)]

mod laws;

pub use laws::{exchanges_of_past_epochs_are_lost, flips_are_won, full_is_told, machines_go_on};
