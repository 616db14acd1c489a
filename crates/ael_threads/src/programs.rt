//! Programs run on threads.

pub mod executing;
pub mod job;
pub mod outputs;
pub mod running;
