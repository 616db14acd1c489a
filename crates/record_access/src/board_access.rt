/// What is done with a word of the board.
#[derive(Clone, Copy)]
pub enum BoardUse {
    /// This register gets it.
    Loads(u8),
    /// This word is stored there.
    Stores(u64),
    /// This register gets it, and this word takes its place.
    Swaps(u8, u64),
}

/// The access to a word of the board.
#[derive(Clone, Copy)]
pub struct BoardAccess {
    /// The word's number, from 0.
    pub word: u32,
    pub usage: BoardUse,
}

/// The exchange of a word of the board for another.
#[derive(Clone, Copy)]
pub struct BoardSwap {
    /// The word's number, from 0.
    pub word: u32,
    /// The register that gets the word.
    pub into: u8,
    /// What takes its place.
    pub new: u64,
}
