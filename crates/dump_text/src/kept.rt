//! What a worker keeps of the record that it copies.

/// The record's header, and the place that is reserved for the copy, plus one; each is 0 where there is none.
#[derive(Clone, Copy, Debug, PartialEq, Eq)]
pub struct Kept {
    pub header: u64,
    pub place: u64,
}
