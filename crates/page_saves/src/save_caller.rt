/// For whom a save round is made.
#[derive(Clone, Copy)]
pub enum SaveCaller {
    /// A mutator, which runs: neither the epoch nor the checkpoint changes meanwhile.
    Mutates,
    /// A scanner beside so many mutators.
    Scans(u8),
}
