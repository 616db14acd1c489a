//! Runs of a program, and what is told of them.

pub mod closed_heap;
pub mod dump;
pub mod flags;
pub mod mutators;
pub mod notes;
pub mod orders;
pub mod report;
pub mod run;
pub mod scheduled;
pub mod scheduler;
pub mod sim;
