//! What an instruction does, once the registers are read.

use plain_state::{Identity, Kind, Value};

/// What is left to do of an instruction: with its mutator, or with one record or one word of the
/// board.
#[derive(Clone, Copy)]
pub enum Action {
    /// A register takes a value.
    Sets(u8, Value),
    /// The mutator goes on elsewhere.
    Jumps(u64),
    /// It goes on elsewhere, and a register takes the number of the next instruction.
    Links(u8, u64),
    /// It prints a number.
    Prints(u64),
    /// A register refers to a new record of this kind with so many words, each of them this value.
    Makes(Kind, u8, u16, Value),
    /// A register takes the length of a record.
    Measures(u8, Identity),
    /// A register takes a word of a record.
    Loads(u8, Identity, u64),
    /// A word of a record takes a value.
    Stores(Identity, u64, Value),
    /// A word of a record takes the second value if it is the first, and a register takes whether it was.
    Compares(u8, Identity, u64, Value, Value),
    /// A register takes a word of the board.
    Gets(u8, u64),
    /// A word of the board takes a value.
    Puts(u64, Value),
    /// A register takes a word of the board, which takes a value.
    Swaps(u8, u64, Value),
    /// A checkpoint is begun: the board and all records are kept as they are.
    Snaps,
}
