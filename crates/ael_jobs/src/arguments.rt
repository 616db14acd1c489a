//! The words of the command line, and what they ask for.

pub mod command_line;
pub mod job;
pub mod operands;
pub mod options;
pub mod words;
