/// Where a mutator that stopped goes on.
#[derive(Clone, Copy)]
pub enum After {
    /// At the look that begins an instruction.
    Looks,
    /// At the allocation of a record, from its beginning.
    Places,
    /// At the beginning of a checkpoint, from its first round.
    Snaps,
}
