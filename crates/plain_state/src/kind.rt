//! What a record may hold.

/// The kind of a record, fixed when it is allocated.
#[derive(Clone, Copy, Debug, PartialEq, Eq)]
pub enum Kind {
    /// Each word is a number or a reference.
    Fields,
    /// Each word is a number.
    Raw,
    /// So many words are each a number or a reference, and those behind them are numbers.
    Mixed(u16),
    /// One word, a reference that keeps nothing alive, or the number 0 once what it led to was lost.
    Weak,
}
