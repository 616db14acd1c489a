/// The words that a mutator has for its next new records.
#[derive(Clone, Copy)]
pub struct Run {
    /// Where its next record goes.
    pub at: u32,
    /// The first word after the run.
    pub end: u32,
}
