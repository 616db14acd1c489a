/// What a mutator knows of checkpoints while it runs.
#[derive(Clone, Copy, Debug, PartialEq, Eq)]
pub struct Recalled {
    /// The number of the last checkpoint that was begun, 0 if none was.
    pub number: u32,
    /// The number of the one that runs, 0 if none does.
    pub running: u32,
}
