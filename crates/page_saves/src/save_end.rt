/// What a save comes to.
#[derive(Clone, Copy, Debug, PartialEq, Eq)]
pub enum SaveEnd {
    /// The page is saved.
    Saved,
    /// Another worker was first: the exchange was lost to this word.
    Taken(u64),
}
