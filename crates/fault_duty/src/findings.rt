/// What a round has found before it chooses a page.
#[derive(Clone, Copy)]
pub struct Findings {
    /// The word of TRACED, which doesn't say that the round's epoch is traced, nor is it of an earlier one.
    pub traced: u64,
    /// A word that forbids to end the tracing now: the gate's, where a mutator is behind, or that of a page which another
    /// worker scans.
    pub hindrance: Option<u64>,
}
