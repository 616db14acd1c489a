//! The errors of a text: their table, the first one, and how it is told.

pub mod asm_error;
pub mod error;
pub mod fault;
