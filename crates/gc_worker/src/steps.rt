//! The steps of a worker.

pub mod acting;
pub mod allocating;
pub mod answered;
pub mod checkpoints;
pub mod direct;
pub mod guarding;
pub mod instructions;
pub mod looking;
pub mod on_words;
pub mod passing;
pub mod serving;
pub mod stepped;
pub mod stepping;
