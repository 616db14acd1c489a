/// What a save round comes to.
#[derive(Clone, Copy, Debug, PartialEq, Eq)]
pub enum SaveRoundEnd {
    /// No checkpoint runs: this is the number of the last one, which is done.
    NoneRuns(u32),
    /// A page is saved.
    Saved,
    /// The checkpoint is marked as done.
    Marked,
    /// There is nothing to do now, as this word shows.
    NothingNow(u64),
}
