use crate::recall::recalled::Recalled;

/// What a mutator that begins to run is about to read of checkpoints.
#[derive(Clone, Copy)]
pub enum RecallStage {
    /// Load the number of the last checkpoint that was begun.
    LoadsSnap,
    /// Load that of the last one that was finished: this was the last one begun.
    LoadsDone(u32),
    /// Nothing more: it has come to this.
    Ended(Recalled),
}
