/// What a worker makes a save round for.
#[derive(Clone, Copy)]
pub enum Goal {
    /// To request a flip once no checkpoint is in progress.
    ForFlip,
    /// To begin a checkpoint once none is in progress.
    ForSnap,
    /// To help, as a scanner does.
    ForScanner,
}
