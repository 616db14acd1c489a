//! The first error of a text.

/// The number of a text's first error, and its line, counted from 1.
#[derive(Clone, Copy)]
pub struct Fault {
    pub number: u8,
    pub line: u32,
}
