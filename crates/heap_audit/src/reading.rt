//! The text of an output, read back: its lines, its order, and the line in which it is wrong.

pub mod ends;
pub mod first_other;
pub mod lines;
pub mod mark;
pub mod number;
pub mod order;
pub mod part;
pub mod reading_error;
