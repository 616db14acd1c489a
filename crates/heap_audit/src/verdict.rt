//! What an audit says of an output.

/// Where an output is wrong: a line of the mutators, counted from 1; a register, by its mutator and its number; or a word of the dump's
/// table, by its place.
#[derive(Clone, Copy, Debug, PartialEq, Eq)]
pub enum At {
    Line(u32),
    Register(u8, u8),
    Word(u32),
}

/// Whether an output is one of the program, and if not where that is first seen.
#[derive(Clone, Copy, Debug, PartialEq, Eq)]
pub enum Verdict {
    Yes,
    No(At),
}
