/// What a claim comes to.
#[derive(Clone, Copy, Debug, PartialEq, Eq)]
pub enum Claimed {
    /// The page is this worker's to scan.
    Won,
    /// It is not to be had now, as this word shows.
    Taken(u64),
}
