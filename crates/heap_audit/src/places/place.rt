//! What is looked at in a dump.

/// A place of a dump: how many pages of a space are in use, a space's area word, a register of a mutator, a word of the board by its
/// number, or a word of the heap by its address.
#[derive(Clone, Copy, Debug, PartialEq, Eq)]
pub enum Place {
    Size(u8),
    Area(u8),
    Register(u8, u8),
    Board(u32),
    Word(u32),
}
