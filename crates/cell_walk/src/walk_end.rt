/// What a walk comes to.
#[derive(Clone, Copy, Debug, PartialEq, Eq)]
pub enum WalkEnd {
    /// All cells are passed.
    Passed,
    /// Another worker has the turn, or had it, as this word shows.
    Another(u64),
}
