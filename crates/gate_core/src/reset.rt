use space_map::GateWord;

/// What a flipper has read, and what it makes of it.
#[derive(Clone, Copy)]
pub struct Reset {
    /// The gate, with nobody running and nobody behind.
    pub gate: GateWord,
    /// The pages in use of the space that is in use.
    pub size: u32,
    /// Those that the other space gets.
    pub next: u32,
    /// The words in use, for which the next epoch keeps room.
    pub used: u32,
}
